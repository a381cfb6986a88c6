// The engine of a session: one link on its own, and the copies that say the same.
#![tactic(auto)]

mod clock;
mod faults;
mod masks;
mod own_lists;
mod plan;
mod sending;
mod session;
mod stage;
mod step;
mod trouble;
mod waits;
mod wanted;
mod watch;

pub use rd_reading::Setup;
pub use session::Session;
