// Doors in memory.
#![tactic(auto)]

mod mem_doors;

pub use mem_doors::{Fresh, MemDoors, Told};
