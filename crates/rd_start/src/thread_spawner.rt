ghost use Rattle.std.specs.Prelude.{◌≡◌, None};
ghost use Rattle.rd_start.specs.Spawners.{Starts, Refuses, TakesRefusals};

use crate::spawner::Spawner;

/// A spawner that refuses nothing itself: it counts the threads that could not be started.
#[derive(Drop)]
pub struct ThreadSpawner {
    refusals: u64,
}

impl ThreadSpawner {
    /// A spawner that has refused nothing.
    pub fn new() -> ThreadSpawner
        ensures { result.refusals ≡ 0 }
    {
        ThreadSpawner { refusals: 0 }
    }
}

impl Spawner for ThreadSpawner {
    ghost tells = { λ s. record { asked = None; refusals = s.refusals } };

    fn allows(&mut self) -> bool {
        true
    }

    fn refuse(&mut self) {
        self.refusals = self.refusals.saturating_add(1);
    }

    fn another(&self) -> ThreadSpawner {
        ThreadSpawner::new()
    }

    fn join_in(&mut self, other: ThreadSpawner) {
        self.refusals = self.refusals.saturating_add(other.refusals);
    }
}
