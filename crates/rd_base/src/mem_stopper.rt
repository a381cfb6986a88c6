ghost use Rattle.std.specs.Prelude.{◌≡◌, get_or, [], false};
ghost use Rattle.rd_base.specs.Clocks.{Asks, TakesYeses};
ghost use Rattle.rd_base.specs.MemClocks.{stopper_tells};
ghost use Rattle.rd_base.specs.Counts.{counted};

use crate::stopper::Stopper;
use std::alloc::Global;
use std::marker::Model;

/// A stopper in memory, for tests: it gives its answers, and then no.
#[derive(Drop)]
pub struct MemStopper {
    alloc: Global,
    answers: Vec<bool>,
    asked: u64,
    yeses: u64,
}

impl Model for MemStopper {
    ghost use Rattle.rd_base.specs.MemClocks.{MemStopperView};

    ghost Value = { MemStopperView };

    ghost view = { λ s. record { answers = s.answers.items; asked = s.asked; yeses = s.yeses } };
}

impl MemStopper {
    /// A stopper that gives these answers.
    pub fn new(alloc: Global, answers: Vec<bool>) -> MemStopper
        ensures { result ≡ record { answers = answers.items; asked = 0; yeses = 0 } }
    {
        MemStopper {
            alloc,
            answers,
            asked: 0,
            yeses: 0,
        }
    }
}

impl Stopper for MemStopper {
    ghost tells = { stopper_tells };

    fn asked(&mut self) -> bool
        ensures asks { Asks result (stopper_tells self.old) (stopper_tells self.new) }
        ensures answer { result ≡ get_or self.old.answers self.old.asked false }
        ensures same { self.new.answers ≡ self.old.answers }
    {
        let answer = match self.answers.get(self.asked as usize) {
            Some(answer) => *answer,
            None => false,
        };
        self.asked = self.asked.saturating_add(1);
        if answer {
            self.yeses = self.yeses.saturating_add(1);
        }
        answer
    }

    fn another(&self) -> MemStopper
        ensures yeses { (stopper_tells result).yeses ≡ 0 }
        ensures nothing { result ≡ record { answers = []; asked = 0; yeses = 0 } }
    {
        MemStopper::new(self.alloc, Vec::new(self.alloc))
    }

    fn join_in(&mut self, other: MemStopper)
        ensures yeses { TakesYeses (stopper_tells other) (stopper_tells self.old)
            (stopper_tells self.new) }
    {
        self.yeses = self.yeses.saturating_add(other.yeses);
    }
}
