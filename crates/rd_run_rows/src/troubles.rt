use crate::links::Trouble;
use crate::runs::{Outcome, is_answered, run_one, sent_in};
use rd_base::{Ending, Link, NoMemory, PushFault, Side};
use rd_run::Act;
use std::alloc::Global;
use std::rt::HostRuntime;
use std::sync::Wait;
use std::test::Fail;
use std::thread::Threads;

/// The links in the order in which an exchange of this side is sent to them.
fn written_in(side: Side) -> [u8; 4] {
    match side {
        Side::Incoming => [0, 1, 2, 3],
        Side::Outgoing => [3, 0, 1, 2],
    }
}

/// What the sinks hold where the write of this place in that order fails behind so many bytes.
fn held_up_to(side: Side, place: usize, after: usize) -> [usize; 4] {
    let sent = sent_in(side);
    let mut held = [0usize; 4];
    for (at, link) in written_in(side).iter().enumerate() {
        let link = usize::from(*link);
        if link < 4 {
            held[link] = if at < place {
                sent[link]
            } else if at == place {
                after
            } else {
                0
            };
        }
    }
    held
}

/// A write that fails ends its session, unless the step that it was part of had ended it: what stood before it is written, of
/// its own bytes a front, and nothing behind it.
fn breaks_off<R: Wait + Threads + Copy + Send + Sync + 'static>(
    rt: R,
    alloc: Global,
    side: Side,
    place: usize,
    after: usize,
) -> Result<bool, NoMemory> {
    let link = written_in(side)[place % 4];
    let fault = PushFault { call: 0, after };
    let run = run_one(rt, alloc, side, Trouble::Push(Link(link), fault))?;
    let is_fault = run.ending == Ending::LinkFault { link: Link(link) };
    let is_closed = matches!(run.ending, Ending::Closed { .. })
        && side == Side::Incoming
        && link == 3;
    Ok(
        (is_fault || is_closed)
            && run.held == held_up_to(side, place, after)
            && run.last == Some(Act::WriteFail(Link(link)))
            && run.whole,
    )
}

/// A read that fails ends its session, unless it is the last one and the session had ended.
fn fails_reading<R: Wait + Threads + Copy + Send + Sync + 'static>(
    rt: R,
    alloc: Global,
    side: Side,
    link: u8,
    call: u64,
) -> Result<bool, NoMemory> {
    let run = run_one(rt, alloc, side, Trouble::Read(Link(link), call))?;
    let is_fault = run.ending == Ending::LinkFault { link: Link(link) };
    Ok(
        (is_fault && run.last == Some(Act::Took(Link(link))) && run.whole)
            || (call > 0 && is_answered(side, &run)),
    )
}

fn is_unstarted(run: &Outcome) -> bool {
    run.ending == Ending::Unstarted && run.held == [0; 4] && run.entries == 0 && run.whole
}

fn is_stopped(run: &Outcome) -> bool {
    run.ending == Ending::Stopped && run.last == Some(Act::Stop) && run.whole
}

/// How much of such a write is done before it fails: nothing, a byte, two, all but one.
fn done_before(side: Side, place: usize) -> [usize; 4] {
    let link = usize::from(written_in(side)[place % 4]);
    let last = sent_in(side)[link % 4].saturating_sub(1);
    [0, last.min(1), last.min(2), last]
}

/// Each write of either side's exchange fails in turn, behind each of these.
#[test]
fn failing_writes(rt: HostRuntime) -> Result<(), Fail> {
    for side in [Side::Incoming, Side::Outgoing] {
        for place in 0..4usize {
            for after in done_before(side, place) {
                assert!(rt; breaks_off(rt, rt.alloc(), side, place, after)?);
            }
        }
    }
    Ok(())
}

/// Each call of each source fails in turn.
#[test]
fn failing_reads(rt: HostRuntime) -> Result<(), Fail> {
    for side in [Side::Incoming, Side::Outgoing] {
        for link in 0..4u8 {
            for call in 0..3u64 {
                assert!(rt; fails_reading(rt, rt.alloc(), side, link, call)?);
            }
        }
    }
    Ok(())
}

/// Each start is refused in turn.
#[test]
fn refused_starts(rt: HostRuntime) -> Result<(), Fail> {
    for side in [Side::Incoming, Side::Outgoing] {
        for start in 0..4u64 {
            let run = run_one(rt, rt.alloc(), side, Trouble::Start(start))?;
            assert!(rt; is_unstarted(&run));
        }
    }
    Ok(())
}

/// A stop at each turn: the session ends there, unless it had ended before.
#[test]
fn stops(rt: HostRuntime) -> Result<(), Fail> {
    for side in [Side::Incoming, Side::Outgoing] {
        for turn in 0..12u64 {
            let run = run_one(rt, rt.alloc(), side, Trouble::Stop(turn))?;
            assert!(rt; is_stopped(&run) || (turn > 0 && is_answered(side, &run)));
            assert!(rt; turn > 0 || run.entries == 1);
        }
    }
    Ok(())
}
