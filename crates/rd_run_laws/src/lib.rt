// Laws of sessions that have run: what is said of a log's entries, and of a link's
// fault, follows from what is said of its turns.
#![tactic(auto)]

mod laws;

pub use laws::{cause_laws, link_laws};
