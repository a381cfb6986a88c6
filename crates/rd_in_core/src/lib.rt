// Sessions of one client before the instances.
#![tactic(auto)]

mod in_session;
#[cfg(test)]
mod tests;

pub use in_session::InSession;
