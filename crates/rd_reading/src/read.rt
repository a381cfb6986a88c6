ghost use Rattle.std.specs.Prelude.{◌≡◌, ◌≤◌, ◌<◌, ◌+◌, ◌++◌, [], ◌∷◌, List, ℕ, Some, None, true, map, length, All, option_map, IfOk, IfSome, OnOk};
ghost use Rattle.rd_base.specs.Limits.{AreMaskLimits};
ghost use Rattle.rd_rules.specs.Exchange as rule;
ghost use Rattle.rd_rules.specs.Given.{exchange_rows, learns_on, replies_masked};
ghost use Rattle.rd_rules.specs.Step.{grow_front_by};
ghost use Rattle.rd_reading.specs.Room.{HasRoom};
ghost use Rattle.rd_reading.specs.Whole.{IsAsked, IsAnswered, IsDone};
ghost use Rattle.rd_reading.specs.Seen.{seen_request, seen_exchange, seen_front, seen_reading, latest_front, rules_of, rows_are, IsMasked, AreMasked};

use crate::exchange::{DoneExchange, Front, Reading, Replies, Request};
use crate::judging::{WholeUnits, agreement, rows_learnt, whole_units};
use crate::links::Links;
use crate::opens::{Open, empty_units, grown_opens, past_units};
use crate::setup::Setup;
use crate::unit::first_bytes;
use rd_base::{NoMemory, Note, Rows, Side, What};
use rd_dialect::{Dialect, Due};
use std::alloc::Global;

pub fn note_of<D: Dialect>(dialect: &D, request: &Request) -> Note
    requires { IsAsked (D.grammar dialect.now) (seen_request request.now) }
    ensures { result ≡ rule.note (D.grammar dialect.now) (seen_request request.now) }
{
    dialect.note_of(request.phase, first_bytes(request.units.as_slice()))
}

/// The request that all links make that ask, where they agree.
fn request_at<D: Dialect>(
    alloc: Global,
    dialect: &D,
    setup: &Setup,
    front: &Front,
) -> Result<Option<Request>, NoMemory>
    requires { AreMaskLimits setup.now.limits.mask }
    ensures asks { IfOk result (λ found. option_map seen_request found
        ≡ rule.ask_at (D.grammar dialect.now) setup.now.limits.mask (seen_front front.now)) }
    ensures whole { IfOk result (λ found. IfSome found (λ r.
        IsAsked (D.grammar dialect.now) (seen_request r))) }
    ensures masked { IfOk result (λ found. IfSome found (λ r.
        IsMasked (rules_of (D.grammar dialect.now) setup.now) r)) }
{
    let phase = front.phase;
    let found = whole_units(alloc, dialect, Due::request(phase), front.asking.as_slice())?;
    let Some(WholeUnits { units, copies }) = found else {
        return Ok(None);
    };
    match agreement(setup.limits.mask, &copies) {
        Some(mask) => {
            let masked = mask.len() as u8;
            Ok(Some(Request {
                phase,
                units,
                masked,
            }))
        }
        None => Ok(None),
    }
}

/// Whether rows are learnt of replies.
fn learns<D: Dialect>(dialect: &D, side: Side) -> bool
    ensures { result ≡ learns_on side (D.grammar dialect.now).learns_rows }
{
    match side {
        Side::Incoming => dialect.learns_rows(),
        Side::Outgoing => false,
    }
}

/// The replies to a request, where all are there and agree.
fn replies_to<D: Dialect>(
    alloc: Global,
    dialect: &D,
    setup: &Setup,
    front: &Front,
    request: &Request,
) -> Result<Option<Replies>, NoMemory>
    requires limits { AreMaskLimits setup.now.limits.mask }
    requires asked { IsAsked (D.grammar dialect.now) (seen_request request.now) }
    ensures replies { IfOk result (λ found. option_map (λ r. r.units.items) found
        ≡ rule.replies_at (D.grammar dialect.now) setup.now.limits.mask (seen_front front.now)
        (seen_request request.now)) }
    ensures whole { IfOk result (λ found. IfSome found (λ r.
        IsAnswered (D.grammar dialect.now) (seen_request request.now) r.units.items)) }
    ensures rows { IfOk result (λ found. IfSome found (λ r. r.rows
        ≡ exchange_rows (rules_of (D.grammar dialect.now) setup.now)
        (record { ask = seen_request request.now; replies = r.units.items }))) }
    ensures masked { IfOk result (λ found. IfSome found (λ r. r.masked
        ≡ replies_masked (rules_of (D.grammar dialect.now) setup.now)
        (record { ask = seen_request request.now; replies = r.units.items }))) }
{
    let note = note_of(dialect, request);
    if dialect.is_farewell(note) {
        let replies = farewell(alloc, front.answering.as_slice())?;
        return Ok(Some(replies));
    }
    let due = Due::reply(request.phase, note);
    let found = whole_units(alloc, dialect, due, front.answering.as_slice())?;
    let Some(WholeUnits { units, copies }) = found else {
        return Ok(None);
    };
    let most = setup.limits.mask;
    match agreement(most, &copies) {
        Some(mask) => {
            let rows = rows_learnt(alloc, learns(dialect, setup.side), most, &copies, &mask)?;
            let masked = mask.len() as u8;
            Ok(Some(Replies {
                units,
                masked,
                rows,
            }))
        }
        None => Ok(None),
    }
}

/// The empty replies to a farewell.
fn farewell(alloc: Global, answering: &[Open]) -> Result<Replies, NoMemory>
    ensures units { IfOk result (λ r. r.units.items ≡ map rule.empty_unit answering.now) }
    ensures masked { IfOk result (λ r. r.masked ≡ 0) }
    ensures rows { IfOk result (λ r. r.rows ≡ []) }
{
    Ok(Replies {
        units: empty_units(alloc, answering)?,
        masked: 0,
        rows: Rows::new(alloc),
    })
}

/// What is open after an exchange.
fn after_exchange<D: Dialect>(
    alloc: Global,
    dialect: &D,
    front: &Front,
    exchange: &DoneExchange,
) -> Result<Front, NoMemory>
    requires { IsDone (D.grammar dialect.now) (seen_exchange exchange.now) }
    ensures { IfOk result (λ f. seen_front f ≡ rule.after (D.grammar dialect.now)
        (seen_front front.now) (seen_exchange exchange.now)) }
{
    let request = &exchange.request;
    let replies = exchange.replies.units.as_slice();
    let note = note_of(dialect, request);
    let phase = dialect.phase_after(request.phase, note, first_bytes(replies));
    let asking = past_units(alloc, front.asking.as_slice(), request.units.as_slice())?;
    let answering = past_units(alloc, front.answering.as_slice(), replies)?;
    Ok(Front {
        phase,
        asking: Links::of(asking),
        answering: Links::of(answering),
    })
}

fn push_exchange(done: &mut Vec<DoneExchange>, exchange: DoneExchange) -> Result<(), NoMemory>
    ensures { OnOk result (done.new.items ≡ done.old.items ++ exchange ∷ []) }
{
    match done.push(exchange) {
        Ok(()) => Ok(()),
        Err(_) => Err(NoMemory),
    }
}

/// What is open past what was read.
fn latest<'a>(front: &'a Front, later: &'a Option<Front>) -> &'a Front
    ensures { result.now ≡ latest_front front.now later.now }
{
    match later {
        Some(left) => left,
        None => front,
    }
}

/// At most so many exchanges from this front on.
pub fn read_on<'a, D: Dialect>(
    alloc: Global,
    dialect: &D,
    setup: &Setup,
    spare: u32,
    front: &'a Front,
) -> Result<Reading<'a>, NoMemory>
    requires { AreMaskLimits setup.now.limits.mask }
    ensures from { IfOk result (λ r. r.from.now ≡ front.now) }
    ensures reads { IfOk result (λ r. seen_reading r
        ≡ rule.read (D.grammar dialect.now) setup.now.limits.mask spare (seen_front front.now)) }
    ensures spare { IfOk result (λ r. length r.done.items + r.spare ≡ spare) }
    ensures done { IfOk result (λ r. All (λ x. IsDone (D.grammar dialect.now) (seen_exchange x))
        r.done.items) }
    ensures rows { IfOk result (λ r. rows_are (rules_of (D.grammar dialect.now) setup.now)
        r.done.items) }
    ensures masked { IfOk result (λ r. All (AreMasked (rules_of (D.grammar dialect.now) setup.now))
        r.done.items) }
    ensures out { IfOk result (λ r. IfSome r.out (λ request.
        IsAsked (D.grammar dialect.now) (seen_request request))) }
    ensures out_masked { IfOk result (λ r. IfSome r.out
        (IsMasked (rules_of (D.grammar dialect.now) setup.now))) }
{
    let mut done = Vec::new(alloc);
    let mut left = None;
    let mut more = spare;
    while more > 0 {
        let now = latest(front, &left);
        let Some(request) = request_at(alloc, dialect, setup, now)? else {
            return Ok(Reading {
                from: front,
                done,
                left,
                out: None,
                spare: more,
            });
        };
        let Some(replies) = replies_to(alloc, dialect, setup, now, &request)? else {
            return Ok(Reading {
                from: front,
                done,
                left,
                out: Some(request),
                spare: more,
            });
        };
        let exchange = DoneExchange { request, replies };
        let next = after_exchange(alloc, dialect, now, &exchange)?;
        push_exchange(&mut done, exchange)?;
        left = Some(next);
        more -= 1;
    }
    Ok(Reading {
        from: front,
        done,
        left,
        out: None,
        spare: more,
    })
}

/// A copy of what is open once a happening is heard.
pub fn grown_front(alloc: Global, front: &Front, what: &What) -> Result<Front, NoMemory>
    requires asking { All (HasRoom what.now) front.now.asking.opens.items }
    requires answering { All (HasRoom what.now) front.now.answering.opens.items }
    ensures { IfOk result (λ f. seen_front f ≡ grow_front_by what.now (seen_front front.now)) }
{
    let asking = grown_opens(alloc, front.asking.as_slice(), what)?;
    let answering = grown_opens(alloc, front.answering.as_slice(), what)?;
    Ok(Front {
        phase: front.phase,
        asking: Links {
            opens: asking,
            alike: false,
        },
        answering: Links {
            opens: answering,
            alike: false,
        },
    })
}
