//! Runs sessions over wires, with delays and troubles by chance, and replays the log of each: it has to come to the same
//! sends and the same ending.
#![tactic(auto)]

mod links;
mod plan;
mod random;
mod replayed;
mod session;
mod source;

use plan::Plan;
use rd_base::NoMemory;
use session::run_sessions;
use std::alloc::{AllocError, Global};
use std::io::Print;
use std::process::ExitCode;
use std::sync::Wait;
use std::thread::Threads;
use std::{env, thread};

/// The words: a plan's name, a side, the number of copies, how many workers run sessions at once, how many each runs one
/// after the other, and a number that all chance comes from.
fn main(rt: HostRuntime) -> ExitCode {
    let words: Vec<String> = match env::args(&rt) {
        Ok(args) => match args.skip(1).collect(rt.alloc()) {
            Ok(words) => words,
            Err(AllocError) => return ExitCode::from(6),
        },
        Err(_) => return ExitCode::from(2),
    };
    let Some(plan) = Plan::of(words.as_slice()) else {
        return ExitCode::from(2);
    };
    let [_, _, _, workers, sessions, seed] = words.as_slice() else {
        return ExitCode::from(2);
    };
    let workers = workers.parse().unwrap_or(1);
    let sessions = sessions.parse().unwrap_or(1);
    let seed = seed.parse().unwrap_or(1);
    match run_workers(rt, rt.alloc(), plan, workers, sessions, seed) {
        Ok(()) => ExitCode::from(0),
        Err(NoMemory) => ExitCode::from(6),
    }
}

/// Runs the sessions of all workers at once, and prints a line for each session.
fn run_workers<R: Wait + Threads + Print + Copy + Send + Sync + 'static>(
    rt: R,
    alloc: Global,
    plan: Plan,
    workers: u32,
    sessions: u32,
    seed: u64,
) -> Result<(), NoMemory> {
    let mut handles = Vec::new(alloc);
    for worker in 0..workers {
        let seed = seed.wrapping_add(u64::from(worker) << 32);
        match thread::spawn(&rt, move || run_sessions(rt, alloc, plan, sessions, seed)) {
            Ok(handle) => handles.push(handle)?,
            Err(_) => return Err(NoMemory),
        }
    }
    for handle in handles {
        let lines = handle.join(&rt)?;
        if print!(&rt; "{lines}").is_err() {
            return Err(NoMemory);
        }
    }
    Ok(())
}
