// Sessions that are served, side by side over doors in memory and over real connections, as tests, and the links in
// memory that they run over.
#![tactic(auto)]

#[cfg(test)]
mod forms;
mod in_turn;
mod links;
#[cfg(test)]
mod sockets;
#[cfg(test)]
mod tests;

pub use in_turn::InTurn;
pub use links::{CountingSink, Marks, Sent, WaitingSource};
