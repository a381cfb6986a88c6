use rd_base::{Limits, Side};

/// What a session is run by beside its dialect.
#[derive(Clone, Copy, Debug, PartialEq, Eq)]
pub struct Setup {
    pub side: Side,
    pub limits: Limits,
}
