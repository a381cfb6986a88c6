ghost use Rattle.std.specs.Prelude.{◌≡◌};
ghost use Rattle.rd_shared_book.specs.Keys.{key_of};

use std::marker::Model;

/// A word that is looked up, beside its key.
#[derive(Drop)]
pub(crate) struct KeyedWord<'a> {
    word: &'a [u8],
    key: u64,
}

impl<'a> Model for KeyedWord<'a> {
    ghost use Rattle.std.specs.Prelude.{List, ℕ, ◌≡◌};
    ghost use Rattle.rd_shared_book.specs.Keys.{key_of};

    ghost Value = { List ℕ };

    ghost view = { λ w. w.word.now };

    ghost invariant = { λ w. w.key ≡ key_of w.word.now };
}

impl<'a> KeyedWord<'a> {
    pub fn new(word: &'a [u8]) -> KeyedWord<'a>
        ensures { result ≡ word.now }
    {
        KeyedWord {
            word,
            key: key_of(word),
        }
    }

    pub fn key(&self) -> u64
        ensures { result ≡ key_of self.now }
    {
        self.key
    }

    pub fn word(&self) -> &[u8]
        ensures { result.now ≡ self.now }
    {
        self.word
    }
}

/// The least bytes of a word that a row may hold.
const LEAST_WORD: usize = 16;

/// A number by which most words differ: the last eight bytes, since tokens often begin alike; of a shorter word than
/// a row holds 0.
pub(crate) fn key_of(word: &[u8]) -> u64
    ensures { result ≡ key_of word.now }
{
    let len = word.len();
    if len < LEAST_WORD {
        return 0;
    }
    u64::from_le_bytes([
        word[len - 8],
        word[len - 7],
        word[len - 6],
        word[len - 5],
        word[len - 4],
        word[len - 3],
        word[len - 2],
        word[len - 1],
    ])
}
