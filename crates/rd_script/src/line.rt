ghost use Rattle.std.specs.Prelude.{◌≡◌, ◌∷◌, [], ℕ, IfOk};
ghost use Rattle.rd_script.specs.Script.{happening_of, what_of, piece_of_words, only_link, side_of, side_named, words_of};

use crate::cut::{cut_at_byte, only_word};
use crate::words::{read_hex, read_link, read_number};
use rd_base::{Happening, Link, NoMemory, Side, What};
use std::alloc::Global;

/// The side that the first line names.
pub fn read_side(line: &[u8]) -> Option<Side>
    ensures { result ≡ side_of (words_of line.now) }
{
    let (name, rest) = cut_at_byte(line, b' ')?;
    let side = only_word(rest)?;
    if name == b"side".as_slice() {
        side_named(side)
    } else {
        None
    }
}

fn side_named(side: &[u8]) -> Option<Side>
    ensures { result ≡ side_named side.now }
{
    if side == b"incoming".as_slice() {
        Some(Side::Incoming)
    } else if side == b"outgoing".as_slice() {
        Some(Side::Outgoing)
    } else {
        None
    }
}

/// The happening of a line.
pub fn read_happening(alloc: Global, copies: u8, line: &[u8]) -> Result<Option<Happening>, NoMemory>
    ensures { IfOk result (λ happening. happening ≡ happening_of copies (words_of line.now)) }
{
    let Some((stamp, words)) = cut_at_byte(line, b' ') else {
        return Ok(None);
    };
    let Some(at) = read_number(stamp) else {
        return Ok(None);
    };
    let what = read_what(alloc, copies, words)?;
    Ok(what.map(|what| Happening { at, what }))
}

/// What happened, by the words behind a line's stamp.
fn read_what(alloc: Global, copies: u8, words: &[u8]) -> Result<Option<What>, NoMemory>
    ensures { IfOk result (λ what. what ≡ what_of copies (words_of words.now)) }
{
    match cut_at_byte(words, b' ') {
        Some((name, rest)) => read_of_link(alloc, copies, name, rest),
        None => Ok(read_alone(words)),
    }
}

/// What happened to a link, by its name and the words behind it.
fn read_of_link(
    alloc: Global,
    copies: u8,
    name: &[u8],
    words: &[u8],
) -> Result<Option<What>, NoMemory>
    ensures { IfOk result (λ what. what ≡ what_of copies (name.now ∷ words_of words.now)) }
{
    if name == b"piece".as_slice() {
        read_piece(alloc, copies, words)
    } else if name == b"end".as_slice() {
        Ok(only_link(copies, words).map(|link| What::End(link)))
    } else if name == b"readfail".as_slice() {
        Ok(only_link(copies, words).map(|link| What::ReadFail(link)))
    } else if name == b"writefail".as_slice() {
        Ok(only_link(copies, words).map(|link| What::WriteFail(link)))
    } else {
        Ok(None)
    }
}

/// What happened to no link, by its name.
fn read_alone(name: &[u8]) -> Option<What>
    ensures { (copies : ℕ) → result ≡ what_of copies (name.now ∷ []) }
{
    if name == b"timer".as_slice() {
        Some(What::Timer)
    } else if name == b"stop".as_slice() {
        Some(What::Stop)
    } else {
        None
    }
}

/// A piece, by the words behind its name: a link and its bytes.
fn read_piece(alloc: Global, copies: u8, words: &[u8]) -> Result<Option<What>, NoMemory>
    ensures { IfOk result (λ what. what ≡ piece_of_words copies (words_of words.now)) }
{
    let Some((link, rest)) = cut_at_byte(words, b' ') else {
        return Ok(None);
    };
    let Some(hex) = only_word(rest) else {
        return Ok(None);
    };
    let Some(link) = read_link(copies, link) else {
        return Ok(None);
    };
    let bytes = read_hex(alloc, hex)?;
    Ok(bytes.map(|bytes| What::Piece(link, bytes)))
}

/// The link that is the only word.
fn only_link(copies: u8, words: &[u8]) -> Option<Link>
    ensures { result ≡ only_link copies (words_of words.now) }
{
    read_link(copies, only_word(words)?)
}
