use rd_base::{Happening, Rows};

/// A happening, and the rows told to it; None where there are none.
#[derive(Drop)]
pub struct Step {
    pub happening: Happening,
    pub told: Option<Box<Rows>>,
}
