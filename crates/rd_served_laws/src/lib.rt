// Laws of sessions that were served: what is said of each run that came back follows
// from what is said of the run of a visit.
#![tactic(auto)]

mod laws;

pub use laws::served_laws;
