ghost use Rattle.std.specs.Prelude.{◌≡◌, ◌≤◌, ◌<◌, ◌+◌, ◌++◌, List, ℕ, map, drop, All, option_map, IfOk, OnOk};
ghost use Rattle.std.specs.List.{flat_map};
ghost use Rattle.rd_base.specs.declared.sends.Send.{Send};
ghost use Rattle.rd_base.specs.Sent.{send_of, sends_to};
ghost use Rattle.rd_rules.specs.Given.{forwarded, handed_back, asks_on, releases};
ghost use Rattle.rd_reading.specs.Whole.{IsAsked, IsDone};
ghost use Rattle.rd_core.specs.Stages.{HasAsked};
ghost use Rattle.rd_reading.specs.Seen.{seen_request, seen_exchange, seen_reading, rules_of, rows_are};
ghost use Rattle.rd_rules.specs.Step.{given_now, sent_before};
ghost use Rattle.rd_core.specs.OwnLists.{owns_after};

use crate::own_lists::OwnLists;
use rd_base::{Bytes, Link, NoMemory, Rows, Sends, Side};
use rd_dialect::Dialect;
use rd_reading::{DoneExchange, Reading, Request, Setup, first_bytes, note_of};
use std::alloc::Global;

/// A request as a link that answers is given it.
fn forward<D: Dialect>(
    alloc: Global,
    dialect: &D,
    setup: &Setup,
    link: u8,
    own: &Rows,
    told: &Rows,
    request: &Request,
) -> Result<Bytes, NoMemory>
    requires { IsAsked (D.grammar dialect.now) (seen_request request.now) }
    ensures { IfOk result (λ b. b ≡ forwarded (rules_of (D.grammar dialect.now) setup.now)
        link told.now (record { ask = seen_request request.now; own = own.now })) }
{
    let unit = first_bytes(request.units.as_slice());
    match setup.side {
        Side::Incoming => {
            let note = note_of(dialect, request);
            dialect.to_copy(alloc, request.phase, note, link, own, told, unit)
        }
        Side::Outgoing => Bytes::from_slice(alloc, unit),
    }
}

/// The replies of an exchange as those that asked are given them.
fn hand_back<'a, D: Dialect>(dialect: &D, setup: &Setup, exchange: &'a DoneExchange) -> &'a [u8]
    requires { IsDone (D.grammar dialect.now) (seen_exchange exchange.now) }
    ensures { result.now ≡ handed_back (rules_of (D.grammar dialect.now) setup.now)
        (seen_exchange exchange.now) }
{
    let reply = first_bytes(exchange.replies.units.as_slice());
    match setup.side {
        Side::Incoming => {
            let note = note_of(dialect, &exchange.request);
            let from = dialect.shown_from(exchange.request.phase, note, reply);
            &reply[from..]
        }
        Side::Outgoing => reply,
    }
}

/// All replies of exchanges, joined.
fn replies_for<D: Dialect>(
    alloc: Global,
    dialect: &D,
    setup: &Setup,
    done: &[DoneExchange],
) -> Result<Bytes, NoMemory>
    requires { All (λ x. IsDone (D.grammar dialect.now) (seen_exchange x)) done.now }
    ensures { IfOk result (λ b. b
        ≡ flat_map (handed_back (rules_of (D.grammar dialect.now) setup.now))
        (map seen_exchange done.now)) }
{
    let mut bytes = Bytes::new(alloc);
    for exchange in done {
        bytes.push_slice(hand_back(dialect, setup, exchange))?;
    }
    Ok(bytes)
}

/// The requests of a reading as a link that answers is given them, joined. The first was sent before where
/// one was out.
fn requests_for<D: Dialect>(
    alloc: Global,
    dialect: &D,
    setup: &Setup,
    link: u8,
    lists: &OwnLists,
    told: &Rows,
    was_out: bool,
    reading: &Reading,
) -> Result<Bytes, NoMemory>
    requires done { All (λ x. IsDone (D.grammar dialect.now) (seen_exchange x))
        reading.now.done.items }
    requires out { HasAsked (D.grammar dialect.now) reading.now.out }
    requires rows { rows_are (rules_of (D.grammar dialect.now) setup.now) reading.now.done.items }
    requires lists { lists.now.after ≡ owns_after lists.now.own reading.now.done.items }
    ensures { IfOk result (λ b. b
        ≡ flat_map (forwarded (rules_of (D.grammar dialect.now) setup.now) link told.now)
        (drop (sent_before was_out) (releases (rules_of (D.grammar dialect.now) setup.now) lists.now.own (map seen_exchange reading.now.done.items) (option_map seen_request reading.now.out)))) }
{
    let mut bytes = Bytes::new(alloc);
    let mut skips = was_out;
    let done = reading.done.as_slice();
    for (place, exchange) in done.iter().enumerate() {
        if !skips {
            let rows = lists.at(place);
            let sent = forward(alloc, dialect, setup, link, rows, told, &exchange.request)?;
            bytes.push_slice(sent.as_slice())?;
        }
        skips = false;
    }
    if let Some(request) = &reading.out {
        if !skips {
            let rows = lists.at(done.len());
            let sent = forward(alloc, dialect, setup, link, rows, told, request)?;
            bytes.push_slice(sent.as_slice())?;
        }
    }
    Ok(bytes)
}

fn asks(setup: &Setup, link: u8) -> bool
    ensures { result ≡ asks_on setup.now.side setup.now.limits.copies link }
{
    match setup.side {
        Side::Incoming => link == setup.limits.copies,
        Side::Outgoing => link < setup.limits.copies,
    }
}

/// What a link is sent by a step.
fn bytes_for<D: Dialect>(
    alloc: Global,
    dialect: &D,
    setup: &Setup,
    link: u8,
    lists: &OwnLists,
    told: &Rows,
    was_out: bool,
    reading: &Reading,
) -> Result<Bytes, NoMemory>
    requires done { All (λ x. IsDone (D.grammar dialect.now) (seen_exchange x))
        reading.now.done.items }
    requires out { HasAsked (D.grammar dialect.now) reading.now.out }
    requires rows { rows_are (rules_of (D.grammar dialect.now) setup.now) reading.now.done.items }
    requires lists { lists.now.after ≡ owns_after lists.now.own reading.now.done.items }
    ensures { IfOk result (λ b. b ≡ given_now (rules_of (D.grammar dialect.now) setup.now)
        link lists.now.own told.now was_out (seen_reading reading.now)) }
{
    if asks(setup, link) {
        replies_for(alloc, dialect, setup, reading.done.as_slice())
    } else {
        requests_for(alloc, dialect, setup, link, lists, told, was_out, reading)
    }
}

/// Nothing is pushed of no bytes.
fn push_send(sends: &mut Sends, link: u8, bytes: Bytes) -> Result<(), NoMemory>
    requires { All (λ (s : Send). s.link.0 < link) sends.old }
    ensures { OnOk result (sends.new ≡ sends.old ++ send_of link bytes) }
{
    if bytes.len() == 0 {
        return Ok(());
    }
    sends.push(Link(link), bytes)
}

/// The sends of a step, in the order of links.
pub(crate) fn sends_of<D: Dialect>(
    alloc: Global,
    dialect: &D,
    setup: &Setup,
    lists: &OwnLists,
    told: &Rows,
    was_out: bool,
    reading: &Reading,
) -> Result<Sends, NoMemory>
    requires few { setup.now.limits.copies ≤ 8 }
    requires done { All (λ x. IsDone (D.grammar dialect.now) (seen_exchange x))
        reading.now.done.items }
    requires out { HasAsked (D.grammar dialect.now) reading.now.out }
    requires rows { rows_are (rules_of (D.grammar dialect.now) setup.now) reading.now.done.items }
    requires lists { lists.now.after ≡ owns_after lists.now.own reading.now.done.items }
    ensures { IfOk result (λ s. s ≡ sends_to (setup.now.limits.copies + 1)
        (λ link. given_now (rules_of (D.grammar dialect.now) setup.now)
        link lists.now.own told.now was_out (seen_reading reading.now))) }
{
    let mut sends = Sends::new(alloc);
    let links = setup.limits.copies + 1;
    for link in 0..links {
        let bytes = bytes_for(alloc, dialect, setup, link, lists, told, was_out, reading)?;
        push_send(&mut sends, link, bytes)?;
    }
    Ok(sends)
}
