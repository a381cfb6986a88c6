ghost use Rattle.std.specs.Prelude.{◌≡◌, ◌≤◌, ◌<◌, [], length, slice_index_or, IfOk, OnOk, OnErr};
ghost use Rattle.rd_base.specs.OwnRows.{learn_row};

use rd_base::{NoMemory, Rows};
use std::alloc::Global;
use std::marker::Model;

/// The most rows that a session keeps.
const MOST_ROWS: usize = 256;

/// The rows that a session has learnt: the newest first, one per shown word, at most 256.
#[derive(Drop)]
pub struct OwnRows {
    rows: Rows,
}

impl Model for OwnRows {
    ghost use Rattle.std.specs.Prelude.{◌≤◌, List, ℕ, length};

    ghost Value = { List (List (List ℕ)) };

    ghost view = { λ o. o.rows };

    ghost invariant = { λ o. length o.rows ≤ 256 };
}

impl OwnRows {
    /// No rows yet. It takes no memory.
    pub fn new(alloc: Global) -> OwnRows
        ensures { result ≡ [] }
    {
        OwnRows {
            rows: Rows::new(alloc),
        }
    }

    /// The same rows, shared with this list.
    pub fn copied(&self, alloc: Global) -> Result<OwnRows, NoMemory>
        ensures { IfOk result (λ o. o ≡ self.now) }
    {
        let mut rows = Rows::new(alloc);
        rows.push_all(&self.rows)?;
        Ok(OwnRows { rows })
    }

    /// Puts the row at a place of another list first, in place of one that shows the same word, and keeps the first
    /// 256. The row is shared with that list. After want of memory nothing has changed.
    pub fn learn(&mut self, rows: &Rows, place: usize) -> Result<(), NoMemory>
        requires { place < length rows.now }
        ensures ok { OnOk result
            (self.new ≡ learn_row 256 self.old (slice_index_or rows.now place [])) }
        ensures err { OnErr result (self.new ≡ self.old) }
    {
        self.rows.learn(MOST_ROWS, rows, place)
    }

    pub fn rows(&self) -> &Rows
        ensures rows { result.now ≡ self.now }
        ensures most { length self.now ≤ 256 }
    {
        &self.rows
    }
}
