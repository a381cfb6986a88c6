// The list of rows that sessions learn, which only grows: who has seen how much of it, and what each told.
#![tactic(auto)]

mod calls;
mod growing;
mod learn;
mod learns;

pub use calls::{Call, Calls};
pub use growing::Growing;
pub use learn::{Learn, Learnt};
pub use learns::{Learns, Length, Naming, NewList};
