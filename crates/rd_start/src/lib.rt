// Readers on threads of their own: who may refuse their starts, and how they are started and joined.
#![tactic(auto)]

mod mem_spawner;
mod reading;
mod spawner;
mod start;
mod thread_spawner;

pub use mem_spawner::MemSpawner;
pub use reading::{NotStarted, Reading};
pub use spawner::Spawner;
pub use start::{join_all, start_all, start_with, take_back};
pub use thread_spawner::ThreadSpawner;

#[cfg(test)]
mod tests;
