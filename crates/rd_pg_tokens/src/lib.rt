// PostgreSQL is a dialect.
#![tactic(auto)]

mod columns;
mod frame;
mod kind;
mod pg;
mod piece;
mod stage;
mod step;
mod text;

pub use frame::{Frame, frame_at};
pub use kind::Kind;
pub use pg::Pg;
pub use piece::{Piece, piece_at};
pub use stage::{Shown, Stage};
pub use step::{Step, next_step};

#[cfg(test)]
mod tests;
