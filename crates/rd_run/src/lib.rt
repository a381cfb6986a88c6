// A session that runs: readers on threads of their own, one owner, and what it leaves.
#![tactic(auto)]

mod items;
mod leaving;
mod log;
mod run;
mod session;

pub use items::{Items, LeftOver};
pub use log::Log;
pub use rd_turn::{Act, Entries, LogEntry};
pub use run::{Report, Run, run_in, run_out, run_unmade};
