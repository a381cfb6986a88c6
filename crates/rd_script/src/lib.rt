// Scripts of sessions, and the lines of a transcript.
#![tactic(auto)]

mod cut;
mod generator;
mod line;
mod printed;
mod reading;
mod script;
mod step;
#[cfg(test)]
mod tests;
mod told;
mod words;

pub use generator::generate;
pub use printed::{last_line, send_line};
pub use script::{Script, ScriptRefusal, read_script};
pub use words::read_number;
