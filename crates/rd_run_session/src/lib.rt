// Who runs sessions by settings: each in the dialect that they name for its side.
#![tactic(auto)]

mod asked_book;
mod laws;
mod left;
mod runner;

pub use laws::run_laws;
pub use left::SessionLeft;
pub use runner::{
    SessionRunner, another_runner, dialect_of, end_lending, run_visit, take_in_runner,
};
