// The gate of a running session: a queue of 64 items with one owner and a reader for each link, under a rule that
// says what was taken, what is held and what was pushed.
#![tactic(auto)]

mod gate;
mod item;
mod laws;
mod reader;

pub use gate::{OwnerPass, Passes, ReaderPass, make_gate};
pub use item::Item;
pub use laws::gate_laws;
pub use reader::{ReaderBack, reader_loop};

#[cfg(test)]
mod tests;
