// Where the visits of a serving program come from and go back to, and what is told of them.
#![tactic(auto)]

mod doors;
mod numbers;
mod visit;

pub use doors::{DoorFail, Doors};
pub use numbers::take_out;
pub use visit::{Ends, Run, Visit};
