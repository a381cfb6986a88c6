// The pages that an operator asks for: how many sessions are live, totals, and notes of ended sessions.
#![tactic(auto)]

mod asked;
mod hearing;
mod json;
mod once;
mod replies;
mod reply;
mod routes;

pub use once::operator_once;
