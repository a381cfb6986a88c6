// HTTP/1.x messages, on whatever prefix has come: where one ends, or why that can't be told.
#![tactic(auto)]

mod body;
mod chunk;
mod fields;
mod flat;
mod head;
mod lines;
mod place;
mod scan;
mod target;
mod trailer;
mod unit;

pub use body::{BodyRule, body_rule};
pub use flat::{data_into, flat_into, trailer_of};
pub use head::Head;
pub use place::{FieldSpan, Span};
pub use scan::scan_head;
pub use unit::{FinalHead, final_head, scan_reply, scan_request, shown_from};

#[cfg(test)]
mod tests;
#[cfg(test)]
mod unit_tests;
