// Rows of kept notes, over a keeper in memory and one in a database: tests, and the notes that they put.
#![tactic(auto)]

#[cfg(test)]
mod keepers;
mod notes;

pub use notes::{LAST_ID, fails_each_call, noted, page, put};
