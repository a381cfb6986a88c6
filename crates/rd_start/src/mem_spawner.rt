ghost use Rattle.std.specs.Prelude.{◌≡◌, [], not};
ghost use Rattle.rd_base.specs.Outside.{is_listed};
ghost use Rattle.rd_base.specs.Counts.{counted};
ghost use Rattle.rd_start.specs.Spawners.{Starts, Refuses, TakesRefusals};
ghost use Rattle.rd_start.specs.MemSpawners.{spawner_tells};

use crate::spawner::Spawner;
use std::alloc::Global;
use std::marker::Model;

/// A spawner for tests, which refuses the starts that it was told to.
#[derive(Drop)]
pub struct MemSpawner {
    alloc: Global,
    refused: Vec<u64>,
    asked: u64,
    refusals: u64,
}

impl Model for MemSpawner {
    ghost use Rattle.rd_start.specs.MemSpawners.{MemSpawnerView};

    ghost Value = { MemSpawnerView };

    ghost view = { λ s. record { refused = s.refused.items; asked = s.asked; refusals = s.refusals } };
}

impl MemSpawner {
    /// A spawner that refuses the starts of these numbers, from 0.
    pub fn new(alloc: Global, refused: Vec<u64>) -> MemSpawner
        ensures { result ≡ record { refused = refused.items; asked = 0; refusals = 0 } }
    {
        MemSpawner {
            alloc,
            refused,
            asked: 0,
            refusals: 0,
        }
    }

    /// The number of starts that were refused.
    pub fn refusals(&self) -> u64
        ensures { result ≡ self.now.refusals }
    {
        self.refusals
    }
}

impl Spawner for MemSpawner {
    ghost tells = { spawner_tells };

    fn allows(&mut self) -> bool
        ensures starts { Starts result (spawner_tells self.old) (spawner_tells self.new) }
        ensures answer { result ≡ not (is_listed self.old.asked self.old.refused) }
        ensures same { self.new.refused ≡ self.old.refused }
    {
        let call = self.asked;
        self.asked = self.asked.saturating_add(1);
        if is_refused(call, &self.refused) {
            self.refusals = self.refusals.saturating_add(1);
            return false;
        }
        true
    }

    fn refuse(&mut self)
        ensures refuses { Refuses (spawner_tells self.old) (spawner_tells self.new) }
        ensures same { self.new.refused ≡ self.old.refused }
    {
        self.refusals = self.refusals.saturating_add(1);
    }

    fn another(&self) -> MemSpawner
        ensures refusals { (spawner_tells result).refusals ≡ 0 }
        ensures nothing { result ≡ record { refused = []; asked = 0; refusals = 0 } }
    {
        MemSpawner::new(self.alloc, Vec::new(self.alloc))
    }

    fn join_in(&mut self, other: MemSpawner)
        ensures joins { TakesRefusals (spawner_tells other) (spawner_tells self.old)
            (spawner_tells self.new) }
        ensures same { self.new.refused ≡ self.old.refused }
    {
        self.refusals = self.refusals.saturating_add(other.refusals);
    }
}

/// Whether the start of this number is among those that are to be refused.
fn is_refused(call: u64, refused: &[u64]) -> bool
    ensures { result ≡ is_listed call refused.now }
{
    refused.iter().any(|number| *number == call)
}
