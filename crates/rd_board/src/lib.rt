// What the operator sees of the sessions: how many are live, totals, and a note for each of the last that ended.
#![tactic(auto)]

mod board;
mod latest;

pub use board::Board;
pub use latest::BoardNote;

#[cfg(test)]
mod tests;
