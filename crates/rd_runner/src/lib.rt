// What sessions are held to, what they come to, and what is counted of them.
#![tactic(auto)]

mod session;

pub use session::{Ended, Summary};
