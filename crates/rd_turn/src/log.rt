ghost use Rattle.std.specs.Prelude.{◌≡◌, ◌≤◌, ◌<◌, ◌+◌, ◌-◌, ◌++◌, [], ◌∷◌, ℕ, length, slice_get, Some, OnOk, OnErr, vec_len, vec_capacity};
ghost use Rattle.rd_turn.specs.Entries.{EntriesState};

use rd_base::{Link, NoMemory, Rows};
use std::alloc::Global;
use std::marker::Model;

/// What the owner of a session did that its history has.
#[derive(Clone, Copy, Debug, PartialEq, Eq)]
pub enum Act {
    /// It took the next answer of this link's source.
    Took(Link),
    /// It looked at the clock, with nothing to take.
    Timer,
    /// It was told to stop.
    Stop,
    /// A write to this link failed.
    WriteFail(Link),
}

/// An entry of a session's log: 16 bytes. The answer that was taken stands with its source alone.
#[derive(Clone, Copy, Debug, PartialEq, Eq)]
pub struct LogEntry {
    pub at: u64,
    pub act: Act,
    /// How many rows were told to its step.
    pub told: u16,
}

/// A list of log entries, with room that was taken before. To contracts it is the list and the spare room.
#[derive(Drop)]
pub struct Entries {
    kept: Vec<LogEntry>,
}

impl Model for Entries {
    ghost Value = { EntriesState };

    ghost view = { λ e. record { list = e.kept.items; spare = vec_capacity e.kept - vec_len e.kept } };
}

impl Entries {
    pub fn new(alloc: Global) -> Entries
        ensures { result.list ≡ [] }
    {
        Entries {
            kept: Vec::new(alloc),
        }
    }

    /// Takes room for further entries.
    pub fn reserve(&mut self, more: usize) -> Result<(), NoMemory>
        ensures list { self.new.list ≡ self.old.list }
        ensures spare { OnOk result (more ≤ self.new.spare) }
    {
        match self.kept.try_reserve(more) {
            Ok(()) => Ok(()),
            Err(_) => Err(NoMemory),
        }
    }

    pub fn push(&mut self, entry: LogEntry)
        requires { 1 ≤ self.old.spare }
        ensures list { self.new.list ≡ self.old.list ++ entry ∷ [] }
        ensures spare { self.new.spare ≡ self.old.spare - 1 }
    {
        self.kept.push_reserved(entry)
    }

    pub fn len(&self) -> usize
        ensures { result ≡ length self.now.list }
    {
        self.kept.len()
    }

    pub fn at(&self, place: usize) -> LogEntry
        requires { place < length self.now.list }
        ensures { slice_get self.now.list place ≡ Some result }
    {
        self.kept[place]
    }
}

/// What the owner of a session writes down: its log, and the rows that were told to its steps.
#[derive(Drop)]
pub struct Journal {
    pub entries: Entries,
    pub told: Rows,
}

impl Journal {
    /// Nothing is written down yet.
    pub fn new(alloc: Global) -> Journal
        ensures entries { result.entries.list ≡ [] }
        ensures told { result.told ≡ [] }
    {
        Journal {
            entries: Entries::new(alloc),
            told: Rows::new(alloc),
        }
    }
}
