ghost use Rattle.std.specs.Prelude.{◌≡◌, option_map, [], None};
ghost use Rattle.rd_base.specs.Clocks.{Ticks, IsUnasked, TakesSpan, reach_with};
ghost use Rattle.rd_base.specs.MemClocks.{clock_tells, answer_of, seen_reach};
ghost use Rattle.rd_base.specs.Counts.{counted};

use crate::clock::Clock;
use std::alloc::Global;
use std::marker::Model;

/// The least and the greatest answer of a clock.
#[derive(Clone, Copy, Debug, PartialEq, Eq)]
struct Reached {
    low: u64,
    high: u64,
}

/// A clock in memory, for tests: it gives its answers, and then its last one again, or 0 where it has none.
#[derive(Drop)]
pub struct MemClock {
    alloc: Global,
    answers: Vec<u64>,
    asked: u64,
    reach: Option<Reached>,
    span: u64,
}

impl Model for MemClock {
    ghost use Rattle.std.specs.Prelude.{option_map};
    ghost use Rattle.rd_base.specs.MemClocks.{MemClockView, seen_reach};

    ghost Value = { MemClockView };

    ghost view = { λ c. record {
      answers = c.answers.items;
      asked = c.asked;
      reach = option_map seen_reach c.reach;
      span = c.span;
    } };
}

impl MemClock {
    /// A clock that gives these answers.
    pub fn new(alloc: Global, answers: Vec<u64>) -> MemClock
        ensures { result ≡ record { answers = answers.items; asked = 0; reach = None; span = 0 } }
    {
        MemClock {
            alloc,
            answers,
            asked: 0,
            reach: None,
            span: 0,
        }
    }
}

/// The answer to the call of this number, from 0.
fn answer_at(answers: &[u64], call: u64) -> u64
    ensures { result ≡ answer_of answers.now call }
{
    if call < answers.len() as u64 {
        answers[call as usize]
    } else if answers.is_empty() {
        0
    } else {
        answers[answers.len() - 1]
    }
}

/// How far answers reach with one more.
fn reach_on(reach: Option<Reached>, answer: u64) -> Reached
    ensures { seen_reach result ≡ reach_with (option_map seen_reach reach) answer }
{
    match reach {
        None => Reached {
            low: answer,
            high: answer,
        },
        Some(reach) => Reached {
            low: reach.low.min(answer),
            high: reach.high.max(answer),
        },
    }
}

impl Clock for MemClock {
    ghost tells = { clock_tells };

    fn now(&mut self) -> u64
        ensures ticks { Ticks result (clock_tells self.old) (clock_tells self.new) }
        ensures asked { self.new.asked ≡ counted self.old.asked }
        ensures same { self.new.answers ≡ self.old.answers }
    {
        let answer = answer_at(&self.answers, self.asked);
        self.asked = self.asked.saturating_add(1);
        let reach = reach_on(self.reach, answer);
        self.span = self.span.max(reach.high.saturating_sub(reach.low));
        self.reach = Some(reach);
        answer
    }

    fn another(&self) -> MemClock
        ensures unasked { IsUnasked (clock_tells result) }
        ensures nothing { result ≡ record { answers = []; asked = 0; reach = None; span = 0 } }
    {
        MemClock::new(self.alloc, Vec::new(self.alloc))
    }

    fn join_in(&mut self, other: MemClock)
        ensures span { TakesSpan (clock_tells other) (clock_tells self.old) (clock_tells self.new) }
    {
        self.span = self.span.max(other.span);
    }
}
