ghost use Rattle.std.specs.Prelude.{◌≡◌, ◌≤◌, ◌<◌, ◌+◌, ◌++◌, [], ◌∷◌, All, IfOk, vec_len, vec_capacity};
ghost use Rattle.rd_base.specs.MemSource.{IsPiece, Takes, mem_tells};
ghost use Rattle.rd_base.specs.Sources.{Gives};

use crate::bytes::{Bytes, NoMemory};
use crate::source::{Give, Source};
use std::alloc::Global;
use std::marker::Model;

/// An answer that isn't End; a piece by its place.
#[derive(Clone, Copy, Drop)]
enum Answer {
    Piece(usize),
    Failed,
    NoMemory,
}

/// An answer, and how many Ends were given since the one before it.
#[derive(Clone, Copy, Drop)]
struct Logged {
    ends: u64,
    answer: Answer,
}

/// A source in memory, for tests.
#[derive(Drop)]
pub struct MemSource {
    pieces: Vec<Bytes>,
    next: usize,
    failing: Vec<u64>,
    log: Vec<Logged>,
    ends: u64,
    calls: u64,
    faults: u64,
    first: u64,
    second: u64,
}

impl Model for MemSource {
    ghost use Rattle.std.specs.Prelude.{drop, vec_len, vec_capacity};
    ghost use Rattle.rd_base.specs.MemSource.{MemSourceView, given_by, KeepsLog};

    ghost Value = { MemSourceView };

    ghost view = { λ s. record {
      mark = record { first = s.first; second = s.second };
      faults = s.faults;
      given = given_by s.pieces.items s.log.items s.ends;
      left = drop s.next s.pieces.items;
    } };

    ghost invariant = { λ s. KeepsLog s.pieces.items s.next (vec_len s.failing) (vec_len s.log) (vec_capacity s.log) s.log.items s.ends s.calls };
}

impl MemSource {
    /// A source that gives these pieces, each of 1 to 16,384 bytes, and then End. The calls of these numbers,
    /// from 0, fail, and leave the pieces to the calls behind them.
    pub fn new(
        alloc: Global,
        first: u64,
        second: u64,
        pieces: Vec<Bytes>,
        failing: Vec<u64>,
    ) -> Result<MemSource, NoMemory>
        requires { All IsPiece pieces.items }
        ensures { IfOk result (λ s. s ≡ record {
          mark = record { first = first; second = second };
          faults = 0;
          given = [];
          left = pieces.items;
        }) }
    {
        let room = pieces.len() + failing.len();
        match Vec::with_capacity(alloc, room) {
            Ok(log) => Ok(MemSource {
                pieces,
                next: 0,
                failing,
                log,
                ends: 0,
                calls: 0,
                faults: 0,
                first,
                second,
            }),
            Err(_) => Err(NoMemory),
        }
    }

    /// The number of reads that failed.
    pub fn faults(&self) -> u64
        ensures { result ≡ self.now.faults }
    {
        self.faults
    }
}

/// Logs an answer other than End.
fn log_answer(log: &mut Vec<Logged>, ends: &mut u64, answer: Answer)
    requires { vec_len log.old < vec_capacity log.old }
    ensures log { log.new.items
        ≡ log.old.items ++ record { ends = ends.old; answer = answer } ∷ [] }
    ensures len { vec_len log.new ≡ vec_len log.old + 1 }
    ensures room { vec_capacity log.new ≡ vec_capacity log.old }
    ensures ends { ends.new ≡ 0 }
{
    log.push_reserved(Logged {
        ends: *ends,
        answer,
    });
    *ends = 0;
}

impl Source for MemSource {
    ghost tells = { mem_tells };

    fn give(&mut self, alloc: Global, most: usize) -> Give
        requires { 16384 ≤ most }
        ensures gives { Gives most result (mem_tells self.old) (mem_tells self.new) }
        ensures contents { Takes self.old result self.new.left }
    {
        let call = self.calls;
        if call == u64::MAX {
            return Give::End;
        }
        self.calls += 1;
        if let Some(place) = self.failing.iter().position(|failing| *failing == call) {
            let _number = self.failing.remove(place);
            self.faults = self.faults.saturating_add(1);
            log_answer(&mut self.log, &mut self.ends, Answer::Failed);
            return Give::Failed;
        }
        let place = self.next;
        if place == self.pieces.len() {
            self.ends += 1;
            return Give::End;
        }
        self.next += 1;
        match Bytes::from_slice(alloc, self.pieces[place].as_slice()) {
            Ok(bytes) => {
                log_answer(&mut self.log, &mut self.ends, Answer::Piece(place));
                Give::Piece(bytes)
            }
            Err(NoMemory) => {
                log_answer(&mut self.log, &mut self.ends, Answer::NoMemory);
                Give::NoMemory
            }
        }
    }
}
