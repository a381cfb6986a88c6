// Sessions of the instances, as callers, before one backend.
#![tactic(auto)]

mod out_session;

pub use out_session::OutSession;
