ghost use Rattle.std.specs.Prelude.{◌≡◌, ◌≤◌, ◌<◌, [], length, filter, find, position, not, IfOk, IfSome, vec_len, vec_capacity, OnOk, OnErr};
ghost use Rattle.rd_base.specs.OwnRows.{learn_row};
ghost use Rattle.rd_base.specs.Swap.{shows};

use crate::key::KeyedWord;
use crate::keyed_row::KeyedRow;
use rd_base::Row;
use std::alloc::{AllocError, Global};
use std::marker::Model;

/// The most rows of a book.
const MOST_ROWS: usize = 4_096;

/// The rows of a book, the newest first, in room that is taken when it is made.
#[derive(Drop)]
pub(crate) struct BookRows {
    rows: Vec<KeyedRow>,
}

impl Model for BookRows {
    ghost use Rattle.std.specs.Prelude.{List, ℕ};

    ghost Value = { List (List (List ℕ)) };

    ghost view = { λ b. b.rows.items };
}

impl BookRows {
    pub fn make(alloc: Global) -> Result<BookRows, AllocError>
        ensures { IfOk result (λ b. b ≡ []) }
    {
        Ok(BookRows {
            rows: Vec::with_capacity(alloc, MOST_ROWS)?,
        })
    }

    /// The first row that shows this word.
    pub fn find(&self, word: &[u8]) -> Option<Row>
        ensures { result ≡ find (shows word.now) self.now }
    {
        let word = KeyedWord::new(word);
        match place_of(&self.rows, &word) {
            Some(place) => Some(self.rows[place].copied()),
            None => None,
        }
    }

    /// Puts the row first, in place of one that shows the same word. Past 4,096 the oldest goes.
    pub fn learn(&mut self, row: &KeyedRow) -> Result<(), AllocError>
        ensures ok { OnOk result (self.new ≡ learn_row 4096 self.old row.now) }
        ensures err { OnErr result (self.new ≡ self.old) }
    {
        let row = row.shared()?;
        self.rows.reserve(1)?;
        drop_shown(&mut self.rows, row.word());
        self.rows.truncate(MOST_ROWS - 1);
        let _is_put = self.rows.insert(0, row);
        Ok(())
    }
}

/// The place of the first row that shows this word.
fn place_of(rows: &[KeyedRow], word: &KeyedWord<'_>) -> Option<usize>
    ensures place { result ≡ position (shows word.now) rows.now }
    ensures within { IfSome result (λ place. place < length rows.now) }
{
    rows.iter().position(|row| row.shows(word))
}

/// Drops the rows that show this word.
fn drop_shown(rows: &mut Vec<KeyedRow>, word: &[u8])
    ensures kept { rows.new.items ≡ filter (λ row. not (shows word.now row)) rows.old.items }
    ensures fewer { vec_len rows.new ≤ vec_len rows.old }
    ensures room { vec_capacity rows.new ≡ vec_capacity rows.old }
{
    let word = KeyedWord::new(word);
    rows.retain(|row| !row.shows(&word));
}
