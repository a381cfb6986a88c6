// Session notes that outlive the program: in memory, or in a database file.
#![tactic(auto)]

mod keeper;
mod laws;
mod mem_keeper;
mod notes;
mod sql_keeper;
mod table;

pub use keeper::{KeepFail, Keeper, Put};
pub use laws::keeper_laws;
pub use mem_keeper::MemKeeper;
pub use notes::Notes;
pub use sql_keeper::SqlKeeper;
