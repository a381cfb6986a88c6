// Units of the frontend/backend protocol of PostgreSQL, version 3.0, on whatever prefix has come.
#![tactic(auto)]

mod front;
mod laws;
mod message;
mod phase;
mod place;
mod role;
mod scan;
mod table;

pub use laws::framing_laws;
pub use message::{Message, be_u16_at, be_u32_at, message_at};
pub use phase::{note_of, phase_after};
pub use role::Role;
pub use scan::{scan_messages, scan_reply, scan_request};
pub use table::LetterTable;

#[cfg(test)]
mod recorded;
#[cfg(test)]
mod tests;
