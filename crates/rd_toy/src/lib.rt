// A small dialect for the tests of sessions: it has phases, a farewell, early lines and replies that are read until
// their link ends.
#![tactic(auto)]

mod scan;
mod toy;

pub use toy::Toy;

#[cfg(test)]
mod tests;
