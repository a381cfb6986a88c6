ghost use Rattle.std.specs.Prelude.{◌≡◌, All, false, vec_len};
ghost use Rattle.rd_base.specs.MemSink.{sink_tells};

use crate::links::{Script, Trouble, limits, links, refused_starts, stops};
use rd_base::{Ending, Link, MemClock, MemStopper, NoMemory, Side, Source};
use rd_dialect::Line;
use rd_run::{Act, LeftOver, Run, run_in, run_out};
use rd_start::MemSpawner;
use rd_token_map::{NoBook, TokenBook};
use rd_wire::WireSink;
use std::alloc::Global;
use std::sync::Wait;
use std::thread::Threads;

/// What came of a run: its ending, the number of exchanges, the bytes that each sink holds, the log's last act and its number
/// of entries, the number of rows that were told, and whether each sink is closed and holds the front of its text, all that
/// was left over was kept, and all sources came back.
#[derive(Drop)]
pub struct Outcome {
    pub ending: Ending,
    pub exchanges: u32,
    pub held: [usize; 4],
    pub last: Option<Act>,
    pub entries: usize,
    pub told: usize,
    pub whole: bool,
}

pub fn outcome_of<S: Source, R: Wait + Copy>(
    run: &Run<S, R>,
    sinks: &[WireSink<R>],
    texts: [&[u8]; 4],
) -> Outcome {
    let mut held = [0usize; 4];
    let mut whole = run.sources.len() == 4 && matches!(run.left_over, LeftOver::All(_));
    for (place, sink) in sinks.iter().enumerate() {
        if place < 4 {
            held[place] = sink.as_slice().len();
            whole = whole && sink.is_closed() && texts[place].starts_with(sink.as_slice());
        }
    }
    Outcome {
        ending: run.report.ending,
        exchanges: run.report.exchanges,
        held,
        last: last_of(run),
        entries: run.report.log.len(),
        told: run.report.told.len(),
        whole,
    }
}

fn last_of<S: Source, R: Wait + Copy>(run: &Run<S, R>) -> Option<Act> {
    let log = &run.report.log;
    let entries = log.len();
    if entries == 0 {
        return None;
    }
    Some(log.at(entries - 1).act)
}

/// Runs a session of this side over plain lines, under a clock that stands still.
pub fn run_links<
    S: Source + Send + 'static,
    B: TokenBook,
    R: Wait + Threads + Copy + Send + Sync + 'static,
>(
    rt: R,
    alloc: Global,
    side: Side,
    sources: Vec<S>,
    sinks: &mut Vec<WireSink<R>>,
    trouble: Trouble,
    book: &mut B,
) -> Result<Run<S, R>, NoMemory>
    requires sources { vec_len sources ≡ 4 }
    requires sinks { vec_len sinks.old ≡ 4 }
    requires open { All (λ s. (sink_tells s).is_closed ≡ false) sinks.old.items }
{
    let mut clock = MemClock::new(alloc, Vec::new(alloc));
    let mut spawner = MemSpawner::new(alloc, refused_starts(alloc, trouble)?);
    let mut stop = MemStopper::new(alloc, stops(alloc, trouble)?);
    Ok(match side {
        Side::Incoming => run_in(
            rt,
            alloc,
            Line,
            limits(),
            sources,
            sinks,
            &mut spawner,
            &mut clock,
            &mut stop,
            book,
        ),
        Side::Outgoing => run_out(
            rt,
            alloc,
            Line,
            limits(),
            sources,
            sinks,
            &mut spawner,
            &mut clock,
            &mut stop,
        ),
    })
}

/// A session of these sources, whose links are sent these texts unless it ends before.
pub fn run_scripts<B: TokenBook, R: Wait + Threads + Copy + Send + Sync + 'static>(
    rt: R,
    alloc: Global,
    side: Side,
    scripts: [Script; 4],
    texts: [&[u8]; 4],
    trouble: Trouble,
    book: &mut B,
) -> Result<Outcome, NoMemory> {
    let (sources, mut sinks) = links(rt, alloc, scripts, trouble)?;
    let run = run_links(rt, alloc, side, sources, &mut sinks, trouble, book)?;
    Ok(outcome_of(&run, &sinks, texts))
}

/// Three instances that answer the same, and a client that asks once. Each ends once it was sent what it is due.
pub fn request_scripts<'a>() -> [Script<'a>; 4] {
    let instance: Script = (&[b"ok 1\n"], &[6, 6]);
    let client: Script = (&[b"get a\n"], &[0, 5]);
    [instance, instance, instance, client]
}

/// Callers, each of whose ends comes behind the two bytes of its reply, and a backend that answers a call of four bytes and
/// ends once its link is closed.
pub fn call_scripts<'a>(callers: [Script<'a>; 3]) -> [Script<'a>; 4] {
    let backend: Script = (&[b"r", b"\n"], &[4, 4, u32::MAX]);
    [callers[0], callers[1], callers[2], backend]
}

/// One exchange of this side: a client's request before instances, or one call of three callers.
pub fn run_one<R: Wait + Threads + Copy + Send + Sync + 'static>(
    rt: R,
    alloc: Global,
    side: Side,
    trouble: Trouble,
) -> Result<Outcome, NoMemory> {
    let caller: Script = (&[b"q 1\n"], &[0, 2]);
    let (scripts, texts): ([Script; 4], [&[u8]; 4]) = match side {
        Side::Incoming => (
            request_scripts(),
            [b"get a\n", b"get a\n", b"get a\n", b"ok 1\n"],
        ),
        Side::Outgoing => (
            call_scripts([caller; 3]),
            [b"r\n", b"r\n", b"r\n", b"q 1\n"],
        ),
    };
    run_scripts(rt, alloc, side, scripts, texts, trouble, &mut NoBook)
}

/// The bytes that each link is sent in that exchange.
pub fn sent_in(side: Side) -> [usize; 4] {
    match side {
        Side::Incoming => [6, 6, 6, 5],
        Side::Outgoing => [2, 2, 2, 4],
    }
}

/// All was sent, and the askers' ends came last, or an instance's end closed the session.
pub fn is_answered(side: Side, run: &Outcome) -> bool {
    let ended = match (run.ending, side) {
        (Ending::Done, Side::Incoming) => run.last == Some(Act::Took(Link(3))),
        (Ending::Done, Side::Outgoing) => true,
        (Ending::Closed { link }, Side::Incoming) => link != Link(3),
        _ => false,
    };
    ended && run.held == sent_in(side) && run.exchanges == 1 && run.whole
}
