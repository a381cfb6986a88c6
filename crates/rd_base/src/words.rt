ghost use Rattle.std.specs.Prelude.{◌≡◌, ◌≤◌, ◌<◌, ◌+◌, length, drop, true};
ghost use Rattle.std.specs.List.{prefix_len};
ghost use Rattle.rd_base.specs.Swap.{is_row_word, IsRowWord};
ghost use Rattle.rd_base.specs.WordCut.{is_word_byte, is_word, cut_kind, IsCut};

use crate::values::TokenKind;

/// Whether the token that begins at a place of a text is a word, and where it ends.
#[derive(Clone, Copy, Debug, PartialEq, Eq)]
pub struct WordCut {
    pub is_soft: bool,
    pub end: usize,
}

impl WordCut {
    /// Soft for a word, Firm for another byte.
    pub fn kind(self) -> TokenKind
        ensures { result ≡ cut_kind self.is_soft }
    {
        if self.is_soft {
            TokenKind::Soft
        } else {
            TokenKind::Firm
        }
    }
}

/// Whether a word may hold this byte.
pub fn is_word_byte(byte: u8) -> bool
    ensures { result ≡ is_word_byte byte }
{
    byte.is_ascii_lowercase()
        || byte.is_ascii_uppercase()
        || byte.is_ascii_digit()
        || matches!(byte, b'-' | b'_' | b'.' | b'~' | b'+' | b'/' | b'%')
}

/// Whether the text is a word: not empty, all word bytes.
pub fn is_word(text: &[u8]) -> bool
    ensures { result ≡ is_word text.now }
{
    !text.is_empty() && word_len(text) == text.len()
}

/// Whether the text is a word of 16 to 128 bytes, which a row may hold.
pub fn is_row_word(text: &[u8]) -> bool
    ensures test { result ≡ is_row_word text.now }
    ensures holds { result ≡ true → IsRowWord text.now }
{
    is_word(text) && text.len() >= 16 && text.len() <= 128
}

/// The first token of the text from this place on, where the text is cut into words.
pub fn cut_at(text: &[u8], start: usize) -> WordCut
    requires { start < length text.now }
    ensures { IsCut text.now start result.is_soft result.end }
{
    if is_word_byte(text[start]) {
        WordCut {
            is_soft: true,
            end: word_end(text, start),
        }
    } else {
        WordCut {
            is_soft: false,
            end: start + 1,
        }
    }
}

/// Where the word ends that begins there.
fn word_end(text: &[u8], start: usize) -> usize
    requires { start < length text.now }
    ensures end { result ≡ start + 1 + prefix_len is_word_byte (drop (start + 1) text.now) }
    ensures within { result ≤ length text.now }
    ensures past { start < result }
{
    start + 1 + word_len(&text[start + 1..])
}

/// The bytes of the word that stands at the front.
pub fn word_len(bytes: &[u8]) -> usize
    ensures front { result ≡ prefix_len is_word_byte bytes.now }
    ensures within { result ≤ length bytes.now }
{
    for (i, byte) in bytes.iter().enumerate() {
        if !is_word_byte(*byte) {
            return i;
        }
    }
    bytes.len()
}
