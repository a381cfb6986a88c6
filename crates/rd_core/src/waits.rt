ghost use Rattle.std.specs.Prelude.{◌≡◌, ◌≤◌, ◌<◌, ◌+◌, ◌-◌, ◌^◌, [], List, ℕ, min, max, is_some};
ghost use Rattle.rd_base.specs.History.{is_timer};
ghost use Rattle.rd_rules.specs.Wait as rule;
ghost use Rattle.rd_rules.specs.Trouble.{full_log_at};
ghost use Rattle.rd_core.specs.Standing.{wait_at, due_at, late_at};
ghost use Rattle.rd_core.specs.Awaited.{awaited_wait, began_since};
ghost use Rattle.rd_core.specs.Stages.{seen_stage};
ghost use Rattle.rd_core.specs.Clocks.{standing};

use crate::clock::Clock;
use crate::stage::Stage;
use crate::trouble::some_open;
use rd_base::{Ending, Limits, Side, What, Which};
use rd_reading::Setup;

/// What a session waits for, by whether something is out and whether a request was begun.
fn which_on(side: Side, out: bool, begun: bool) -> Which
    ensures { result ≡ rule.which_on side out begun }
{
    match (side, out, begun) {
        (Side::Incoming, true, _) => Which::Gather,
        (Side::Incoming, false, true) => Which::Request,
        (Side::Incoming, false, false) => Which::Idle,
        (Side::Outgoing, true, _) => Which::Reply,
        (Side::Outgoing, false, true) => Which::Gather,
        (Side::Outgoing, false, false) => Which::Idle,
    }
}

/// What a session that stands there waits for.
pub(crate) fn which_at(side: Side, stage: &Stage) -> Which
    ensures { result ≡ (wait_at side (seen_stage stage.now [])).which }
{
    which_on(
        side,
        stage.out.is_some(),
        some_open(stage.left.asking.as_slice()),
    )
}

fn is_same_which(one: Which, other: Which) -> bool
    ensures { result ≡ rule.same_which one other }
{
    one == other
}

/// What a session waited for before a step, and after how many exchanges.
#[derive(Clone, Copy, Debug, PartialEq, Eq)]
pub(crate) struct WaitedFor {
    which: Which,
    count: u32,
}

/// What a session that stands there waits for, and after how many exchanges.
pub(crate) fn awaited(side: Side, stage: &Stage) -> WaitedFor
    ensures { awaited_wait result ≡ wait_at side (seen_stage stage.now []) }
{
    WaitedFor {
        which: which_at(side, stage),
        count: stage.count,
    }
}

/// Whether a session waits for the same as before.
fn waits_on(side: Side, before: WaitedFor, now: &Stage) -> bool
    ensures { result ≡ rule.same_wait (awaited_wait before)
        (wait_at side (seen_stage now.now [])) }
{
    is_same_which(before.which, which_at(side, now)) && before.count == now.count
}

/// The clock after one more entry, at this moment.
pub(crate) fn clock_after(
    side: Side,
    before: WaitedFor,
    clock: Clock,
    now: &Stage,
    at: u64,
) -> Clock
    requires { clock.entries < 1048576 }
    ensures entries { result.entries ≡ clock.entries + 1 }
    ensures moment { result.moment ≡ max clock.moment at }
    ensures began { result.began ≡ began_since (awaited_wait before)
        (wait_at side (seen_stage now.now [])) clock.began (max clock.moment at) }
{
    let moment = clock.moment.max(at);
    let began = if waits_on(side, before, now) {
        clock.began
    } else {
        moment
    };
    Clock {
        entries: clock.entries + 1,
        moment,
        began,
    }
}

fn limit_of(limits: &Limits, which: Which) -> u64
    ensures { result ≡ rule.limit_of limits.now which }
{
    match which {
        Which::Idle => limits.idle_ms,
        Which::Request => limits.request_ms,
        Which::Gather => limits.gather_ms,
        Which::Reply => limits.reply_ms,
    }
}

/// The moment at which the wait ends.
pub(crate) fn due_at(setup: &Setup, stage: &Stage, clock: Clock) -> u64
    ensures { result ≡ due_at setup.now.side setup.now.limits (standing stage.now [] clock) }
{
    let limit = limit_of(&setup.limits, which_at(setup.side, stage));
    clock.began.saturating_add(limit)
}

fn is_look(what: &What) -> bool
    ensures { result ≡ is_timer what.now }
{
    matches!(what, What::Timer)
}

/// Late, where a look at the clock comes at or past the moment that is due.
pub(crate) fn late(setup: &Setup, what: &What, stage: &Stage, clock: Clock) -> Option<Ending>
    ensures { result ≡ late_at setup.now.side setup.now.limits (is_timer what.now)
        (standing stage.now [] clock) }
{
    if is_look(what) && due_at(setup, stage, clock) <= clock.moment {
        Some(Ending::Late {
            which: which_at(setup.side, stage),
        })
    } else {
        None
    }
}

/// FullLog, where a log has no more room.
pub(crate) fn full_log(entries: u32) -> Option<Ending>
    ensures { result ≡ full_log_at entries }
{
    if entries == 1_048_576 {
        Some(Ending::FullLog)
    } else {
        None
    }
}
