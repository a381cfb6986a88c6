ghost use Rattle.std.specs.Prelude.{◌≡◌, ◌+◌, ◌≤◌, All, false, vec_len};
ghost use Rattle.rd_base.specs.MemSink.{sink_tells};

use crate::links::links_of;
use crate::plan::Plan;
use crate::random::Random;
use crate::replayed::{is_replayed, script_text};
use crate::source::LateSource;
use rd_base::{MemClock, MemStopper, NoMemory, Side};
use rd_dialect::Line;
use rd_run::{Run, run_in, run_out};
use rd_script::last_line;
use rd_start::ThreadSpawner;
use rd_wire::{MemBook, WireSink};
use std::alloc::Global;
use std::sync::Wait;
use std::thread::Threads;

/// How many answers a clock or a stopper has.
const ANSWERS: u32 = 200;

/// Runs so many sessions one after the other, over one book. A line for each: how many entries its log has, how many rows
/// were told, and its ending; or the script of one whose replay comes to something else. Of fewer copies than 3 or more than 8
/// it runs none.
pub fn run_sessions<R: Wait + Threads + Copy + Send + Sync + 'static>(
    rt: R,
    alloc: Global,
    plan: Plan,
    sessions: u32,
    seed: u64,
) -> Result<String, NoMemory> {
    let mut lines = String::new(alloc);
    if plan.copies < 3 || plan.copies > 8 {
        return Ok(lines);
    }
    let mut book = MemBook::new(rt, alloc, u64::MAX);
    for session in 0..sessions {
        let mut random = Random::new(seed.wrapping_add(u64::from(session)));
        let line = run_one(rt, alloc, &plan, session, &mut random, &mut book)?;
        lines.push_str(line.as_str())?;
    }
    Ok(lines)
}

fn run_one<R: Wait + Threads + Copy + Send + Sync + 'static>(
    rt: R,
    alloc: Global,
    plan: &Plan,
    session: u32,
    random: &mut Random,
    book: &mut MemBook<R>,
) -> Result<String, NoMemory>
    requires { (3 ≤ plan.now.copies) × (plan.now.copies ≤ 8) }
{
    let (sources, mut sinks) = links_of(rt, alloc, plan, session, random)?;
    let run = run_links(rt, alloc, plan, sources, &mut sinks, random, book)?;
    let script = script_text(alloc, plan, &run)?;
    if is_replayed(alloc, plan, &run, sinks.as_slice(), script.as_bytes())? {
        let last = last_line(alloc, Some(run.report.ending))?;
        let entries = run.report.log.len();
        let told = run.report.told.len();
        Ok(format!(in alloc; "{entries} entries, {told} rows told, replayed: {last}")?)
    } else {
        Ok(format!(in alloc; "OTHER SENDS OR ENDING:\n{script}")?)
    }
}

fn run_links<R: Wait + Threads + Copy + Send + Sync + 'static>(
    rt: R,
    alloc: Global,
    plan: &Plan,
    sources: Vec<LateSource<R>>,
    sinks: &mut Vec<WireSink<R>>,
    random: &mut Random,
    book: &mut MemBook<R>,
) -> Result<Run<LateSource<R>, R>, NoMemory>
    requires least { 3 ≤ plan.now.copies }
    requires most { plan.now.copies ≤ 8 }
    requires sources { vec_len sources ≡ plan.now.copies + 1 }
    requires sinks { vec_len sinks.old ≡ plan.now.copies + 1 }
    requires open { All (λ s. (sink_tells s).is_closed ≡ false) sinks.old.items }
{
    let limits = plan.limits();
    let mut clock = MemClock::new(alloc, moments(alloc, plan, random)?);
    let mut stop = MemStopper::new(alloc, stops(alloc, plan, random)?);
    let mut spawner = ThreadSpawner::new();
    Ok(match plan.side {
        Side::Incoming => run_in(
            rt,
            alloc,
            Line,
            limits,
            sources,
            sinks,
            &mut spawner,
            &mut clock,
            &mut stop,
            book,
        ),
        Side::Outgoing => run_out(
            rt,
            alloc,
            Line,
            limits,
            sources,
            sinks,
            &mut spawner,
            &mut clock,
            &mut stop,
        ),
    })
}

/// What the clock answers: it stands still, or goes by chance where something may go wrong.
fn moments(alloc: Global, plan: &Plan, random: &mut Random) -> Result<Vec<u64>, NoMemory> {
    let mut moments = Vec::new(alloc);
    let mut now: u64 = 0;
    if plan.troubles > 0 {
        let step = random.below(30);
        for _ in 0..ANSWERS {
            now = now.saturating_add(u64::from(random.below(step)));
            moments.push(now)?;
        }
    }
    Ok(moments)
}

/// What the stopper answers: a yes to its last question where the session would not end, and by chance before.
fn stops(alloc: Global, plan: &Plan, random: &mut Random) -> Result<Vec<bool>, NoMemory> {
    let mut answers = Vec::new(alloc);
    let stop = if random.hits(plan.troubles) {
        random.below(40)
    } else if plan.ends {
        u32::MAX
    } else {
        ANSWERS
    };
    for turn in 0..ANSWERS + 1 {
        answers.push(turn == stop)?;
    }
    Ok(answers)
}
