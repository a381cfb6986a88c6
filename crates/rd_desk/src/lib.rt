// What a serving program keeps of its sessions: the ids of those that are live, the board, and the notes of those that
// ended, which it puts to a keeper.
#![tactic(auto)]

mod desk;
mod note;
mod session;

pub use desk::Desk;
pub use note::{dialect_number, session_note};
pub use session::{Begun, begin_session, end_session};

#[cfg(test)]
mod tests;
