ghost use Rattle.std.specs.Prelude.{◌≡◌, ◌≤◌, ◌+◌, ◌*◌, List, ℕ, length, map, sum_by, All, IfSome, option_map};
ghost use Rattle.rd_rules.specs.Exchange.{Rules};
ghost use Rattle.rd_rules.specs.Step.{masked_now};
ghost use Rattle.rd_reading.specs.Seen.{seen_reading, IsMasked, AreMasked};
ghost use Rattle.rd_core.specs.Masks.{masked_out, masked_asked};

use rd_base::Side;
use rd_reading::{DoneExchange, Reading, Request};

/// How many places are masked in the replies of these exchanges.
fn in_replies(done: &[DoneExchange]) -> u64
    requires { length done.now ≤ 65536 }
    ensures sum { result ≡ sum_by (λ x. x.replies.masked) done.now }
    ensures most { result ≤ 255 * length done.now }
{
    let mut total: u64 = 0;
    for exchange in done {
        total += u64::from(exchange.replies.masked);
    }
    total
}

/// How many places are masked in the requests of these exchanges.
fn in_requests(done: &[DoneExchange]) -> u64
    requires { length done.now ≤ 65536 }
    ensures sum { result ≡ sum_by (λ x. x.request.masked) done.now }
    ensures most { result ≤ 255 * length done.now }
{
    let mut total: u64 = 0;
    for exchange in done {
        total += u64::from(exchange.request.masked);
    }
    total
}

fn in_out(out: &Option<Request>) -> u64
    ensures is { result ≡ masked_out out.now }
    ensures most { result ≤ 255 }
{
    match out {
        Some(request) => u64::from(request.masked),
        None => 0,
    }
}

/// How many places are masked in the requests that weren't sent before: all, or all but the first.
fn in_fresh(was_out: bool, done: &[DoneExchange], out: &Option<Request>) -> u64
    requires { length done.now ≤ 65536 }
    ensures is { result ≡ masked_asked was_out done.now out.now }
    ensures most { result ≤ 16777216 }
{
    match (was_out, done) {
        (false, _) => in_requests(done) + in_out(out),
        (true, []) => 0,
        (true, [_, rest @ ..]) => in_requests(rest) + in_out(out),
    }
}

/// How many places are masked in what a step agrees on.
pub(crate) fn masked_in(side: Side, was_out: bool, reading: &Reading) -> u64
    requires { length reading.now.done.items ≤ 65536 }
    ensures is { (r : Rules) → All (AreMasked r) reading.now.done.items
        → IfSome reading.now.out (IsMasked r) → result
        ≡ masked_now side r was_out (seen_reading reading.now) }
    ensures most { result ≤ 16777216 }
{
    match side {
        Side::Incoming => in_replies(reading.done.as_slice()),
        Side::Outgoing => in_fresh(was_out, reading.done.as_slice(), &reading.out),
    }
}
