// The turns of a session's owner: it takes what readers hand on, steps the session, and writes what the step sends.
#![tactic(auto)]

mod acting;
mod asking;
mod hearing;
mod log;
mod running;
mod sending;
mod turn;

pub use log::{Act, Entries, Journal, LogEntry};
pub use running::{Counts, Over, run_turns};
