// The verdict of several token lists that come token by token.
#![tactic(auto)]

mod buffers;
mod copy;
mod heads;
mod judging;
mod queue;
mod shared;
mod stream;
mod token;

pub use stream::StreamVerdict;
