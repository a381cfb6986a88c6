ghost use Rattle.std.specs.Prelude.{◌≡◌, List, ℕ, Some, None, map, option_map, ◌&&◌, ◌==◌};
ghost use Rattle.rd_base.specs.History.{is_stop};
ghost use Rattle.rd_rules.specs.Trouble as rule;
ghost use Rattle.rd_rules.specs.Step.{grow_by};
ghost use Rattle.rd_core.specs.Faults.{failing, fault_of, fault_by, past_among};
ghost use Rattle.rd_core.specs.Stages.{HasAsked};
ghost use Rattle.rd_reading.specs.Seen.{seen_request};

use crate::trouble::or_else;
use rd_base::{Ending, Limits, Link, Scan, What};
use rd_dialect::{Dialect, Due, scan_due};
use rd_reading::{Open, Request, note_of};

fn is_past(scan: Scan, len: usize) -> bool
    ensures { result ≡ rule.is_past scan len }
{
    match scan {
        Scan::Whole(end) => end < len,
        _ => false,
    }
}

/// Whether these bytes of a link that answers go past the reply that is out.
fn goes_past<D: Dialect>(dialect: &D, out: &Option<Request>, bytes: &[u8]) -> bool
    requires { HasAsked (D.grammar dialect.now) out.now }
    ensures { result ≡ rule.goes_past (D.grammar dialect.now)
        (option_map seen_request out.now) bytes.now }
{
    match out {
        None => true,
        Some(request) => {
            let due = Due::reply(request.phase, note_of(dialect, request));
            is_past(scan_due(dialect, due, bytes, false), bytes.len())
        }
    }
}

/// Whether a link that answers was heard, and its bytes go past the reply that is out on it.
fn speaks_past<D: Dialect>(dialect: &D, out: &Option<Request>, link: Link, one: &Open) -> bool
    requires { HasAsked (D.grammar dialect.now) out.now }
    ensures { result ≡ ((one.now.link == link.0) && rule.goes_past (D.grammar dialect.now)
        (option_map seen_request out.now) one.now.bytes) }
{
    if one.link() != link {
        return false;
    }
    goes_past(dialect, out, one.bytes())
}

fn unsolicited_among<D: Dialect>(
    dialect: &D,
    out: &Option<Request>,
    link: Link,
    opens: &[Open],
) -> Option<Ending>
    requires { HasAsked (D.grammar dialect.now) out.now }
    ensures { result ≡ past_among (D.grammar dialect.now)
        (option_map seen_request out.now) link.0 opens.now }
{
    for one in opens {
        if speaks_past(dialect, out, link, one) {
            return Some(Ending::Unsolicited { link: one.link() });
        }
    }
    None
}

/// A piece of a link that answers, which goes past the reply that was out before it. The links that answer have heard it.
pub(crate) fn unsolicited<D: Dialect>(
    dialect: &D,
    out: &Option<Request>,
    answering: &[Open],
    what: &What,
) -> Option<Ending>
    requires { HasAsked (D.grammar dialect.now) out.now }
    ensures { (before : rule.Now) → before.out ≡ option_map seen_request out.now
        → answering.now ≡ map (grow_by what.now) before.left.answering
        → result ≡ rule.unsolicited_by (D.grammar dialect.now) before what.now }
{
    let What::Piece(link, _) = what else {
        return None;
    };
    if dialect.early_replies() {
        return None;
    }
    unsolicited_among(dialect, out, *link, answering)
}

fn failing(what: &What) -> Option<Link>
    ensures { option_map (λ l. l.0) result ≡ failing what.now }
{
    match what {
        What::ReadFail(link) => Some(*link),
        What::WriteFail(link) => Some(*link),
        _ => None,
    }
}

fn link_fault(limits: &Limits, link: Option<Link>) -> Option<Ending>
    ensures { result ≡ fault_of limits.now.copies (option_map (λ l. l.0) link) }
{
    match link {
        Some(link) => {
            if link.0 <= limits.copies {
                Some(Ending::LinkFault { link })
            } else {
                None
            }
        }
        None => None,
    }
}

fn stopped(what: &What) -> Option<Ending>
    ensures { result ≡ rule.stopped_at (is_stop what.now) }
{
    match what {
        What::Stop => Some(Ending::Stopped),
        _ => None,
    }
}

/// The fault of a happening alone: a link that failed, or a stop.
pub(crate) fn fault(limits: &Limits, what: &What) -> Option<Ending>
    ensures { result ≡ fault_by limits.now.copies what.now }
{
    or_else(link_fault(limits, failing(what)), stopped(what))
}
