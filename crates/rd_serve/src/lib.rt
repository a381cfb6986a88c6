// The serving loop: sessions side by side, over any doors and any runner.
#![tactic(auto)]

mod joining;
mod server;
mod session;

pub use server::serve;
pub use session::{Handed, Served};
