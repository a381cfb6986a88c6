//! Lets 32 seats of a shared book learn and find at once, and checks what they found; or measures what that takes.
#![tactic(auto)]

mod left;
mod measure;
mod spent;
mod stress;
mod texts;
mod work;

use measure::{measure, stay};
use rd_history::NewList;
use spent::resident;
use std::alloc::AllocError;
use std::env;
use std::marker::Brand;
use std::process::ExitCode;
use stress::stress;

/// The words: `rounds N`, each seat learns so many rows; `seconds N`, for so long; `stay N`, one seat learns and 31 find,
/// so many seconds; `measure N`, what so many learns and finds take.
fn main(rt: HostRuntime) -> ExitCode {
    let words: Vec<String> = match env::args(&rt) {
        Ok(args) => match args.skip(1).collect(rt.alloc()) {
            Ok(words) => words,
            Err(AllocError) => return ExitCode::from(6),
        },
        Err(_) => return ExitCode::from(2),
    };
    let [what, number] = words.as_slice() else {
        return ExitCode::from(2);
    };
    let Ok(number) = number.as_str().parse::<u32>() else {
        return ExitCode::from(2);
    };
    let done = match what.as_str() {
        "rounds" => {
            let rounds = u64::from(number);
            stress::<Brand, HostRuntime>(rt, rt.alloc(), NewList::new(), rounds, 0)
        }
        "seconds" => {
            stress::<Brand, HostRuntime>(rt, rt.alloc(), NewList::new(), u64::MAX, number)
        }
        "stay" => stay::<Brand, HostRuntime>(rt, rt.alloc(), NewList::new(), number),
        "measure" => {
            let before = resident(&rt).unwrap_or(0);
            measure::<Brand, HostRuntime>(rt, rt.alloc(), NewList::new(), before, number)
        }
        _ => return ExitCode::from(2),
    };
    match done {
        Ok(true) => ExitCode::from(0),
        Ok(false) => ExitCode::from(1),
        Err(_) => ExitCode::from(6),
    }
}
