ghost use Rattle.std.specs.Prelude.{◌≡◌, IfOk};
ghost use Rattle.std.specs.Arc.{arc_value};
ghost use Rattle.rd_base.specs.OwnRows.{shown_of};
ghost use Rattle.rd_base.specs.Swap.{shows};

use crate::key::{KeyedWord, key_of};
use rd_base::Row;
use std::alloc::AllocError;
use std::marker::Model;
use std::sync::Arc;

/// A row that both copies of the book share, beside the key of the word that it shows. Where the keys of two words
/// differ no byte of the row is read.
#[derive(Drop)]
pub(crate) struct KeyedRow {
    key: u64,
    row: Arc<Row>,
}

impl Model for KeyedRow {
    ghost use Rattle.std.specs.Prelude.{List, ℕ, ◌≡◌};
    ghost use Rattle.std.specs.Arc.{arc_value};
    ghost use Rattle.rd_base.specs.OwnRows.{shown_of};
    ghost use Rattle.rd_shared_book.specs.Keys.{key_of};

    ghost Value = { List (List ℕ) };

    ghost view = { λ r. arc_value r.row };

    ghost invariant = { λ r. r.key ≡ key_of (shown_of (arc_value r.row)) };
}

impl KeyedRow {
    pub fn new(row: Arc<Row>) -> KeyedRow
        ensures { result ≡ arc_value row }
    {
        let key = key_of(row.word());
        KeyedRow { key, row }
    }

    /// The same row, which is shared.
    pub fn shared(&self) -> Result<KeyedRow, AllocError>
        ensures { IfOk result (λ r. r ≡ self.now) }
    {
        let row = Arc::try_clone(&self.row)?;
        Ok(KeyedRow { key: self.key, row })
    }

    /// Whether the row shows this word.
    pub fn shows(&self, word: &KeyedWord<'_>) -> bool
        ensures { result ≡ shows word.now self.now }
    {
        self.key == word.key() && self.row.is_shown(word.word())
    }

    /// The word that it shows; of a row without texts no bytes.
    pub fn word(&self) -> &[u8]
        ensures { result.now ≡ shown_of self.now }
    {
        self.row.word()
    }

    pub fn copied(&self) -> Row
        ensures { result ≡ self.now }
    {
        self.row.copied()
    }
}
