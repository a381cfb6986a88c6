// What a session is: definitions over whole histories, and the laws above them.
#![tactic(auto)]

mod laws;
mod rows;

pub use laws::session_laws;
pub use rows::{agreement_rows, call_rows, ending_rows, mask_limit_rows, swap_rows};
