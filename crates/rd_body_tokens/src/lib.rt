// Bodies cut into tokens, one token at a time, of a whole body or of a part of one.
#![tactic(auto)]

mod next_token;
mod place;

pub use next_token::next_body_token;
pub use place::{BodyKind, Place};

#[cfg(test)]
mod tests;
