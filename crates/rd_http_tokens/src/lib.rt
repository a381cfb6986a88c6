// HTTP is a dialect.
#![tactic(auto)]

mod body;
mod copy;
mod copy_lines;
mod copy_words;
mod fields;
mod http;
mod laws;
mod next;
mod stage;
mod start;
mod step;
mod text;
mod trailer;
mod value;

pub use http::Http;
pub use laws::{copy_laws, token_laws};
pub use stage::{Stage, Standing, Stated};
pub use step::Found;
