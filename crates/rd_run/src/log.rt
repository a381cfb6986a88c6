ghost use Rattle.std.specs.Prelude.{◌≡◌, ◌<◌, [], length, slice_get, Some, None, option_map};
ghost use Rattle.rd_run.specs.Logs.{LogView};

use rd_gate::OwnerPass;
use rd_turn::{Entries, LogEntry};
use std::marker::Model;
use std::sync::Wait;

/// A session's log: its entries, and the owner's pass of its gate, which tells what was taken and each look that found the
/// gate empty. Without a pass no gate was made.
#[derive(Drop)]
pub struct Log<R: Wait + Copy> {
    entries: Entries,
    owner: Option<OwnerPass<R>>,
}

impl<R: Wait + Copy> Model for Log<R> {
    ghost use Rattle.std.specs.Prelude.{option_map};
    ghost use Rattle.rd_run.specs.Logs.{LogView};

    ghost Value = { LogView };

    ghost view = { λ l. record { entries = l.entries.list; pass = option_map (λ p. p.knows) l.owner } };
}

impl<R: Wait + Copy> Log<R> {
    /// The log of these entries. Without a pass there are none.
    pub fn of(entries: Entries, owner: Option<OwnerPass<R>>) -> Log<R>
        requires { owner ≡ None → entries.list ≡ [] }
        ensures { result ≡ record {
          entries = entries.list;
          pass = option_map (λ p. p.knows) owner;
        } }
    {
        Log { entries, owner }
    }

    /// The number of entries.
    pub fn len(&self) -> usize
        ensures { result ≡ length self.now.entries }
    {
        self.entries.len()
    }

    /// The entry that stands there, from 0.
    pub fn at(&self, place: usize) -> LogEntry
        requires { place < length self.now.entries }
        ensures { slice_get self.now.entries place ≡ Some result }
    {
        self.entries.at(place)
    }
}
