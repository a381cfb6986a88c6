// Sources that wait for what their link was sent, and a book that lists its calls, for tests of sessions that run.
#![tactic(auto)]

mod book;
mod sink;
mod source;
mod wire;

pub use book::{Call, MemBook};
pub use sink::WireSink;
pub use source::WireSource;
pub use wire::mem_wire;

#[cfg(test)]
mod tests;
