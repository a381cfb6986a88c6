// What is open of the links of a session, and the exchanges that are read of it.
#![tactic(auto)]

mod exchange;
mod fronts;
mod growth;
mod judging;
mod links;
mod looks;
mod opens;
mod read;
mod setup;
mod start;
mod unit;

pub use exchange::{DoneExchange, Front, Reading, Replies, Request};
pub use growth::{Extent, Extents, cut_front_back, grow_front};
pub use judging::early_fault;
pub use links::Links;
pub use looks::{Look, look_again, look_at};
pub use opens::{Open, past_units, scan_open};
pub use read::{grown_front, note_of, read_on};
pub use setup::Setup;
pub use start::start_front;
pub use unit::{LinkUnit, first_bytes};
