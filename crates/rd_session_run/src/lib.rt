// Runs what a script says happens through a session, and writes what it sends, or counts it.
#![tactic(auto)]

mod summary;
mod transcript;
mod writing;

pub use summary::{Summary, summarize};
pub use transcript::run_script;
pub use writing::ScriptFail;
