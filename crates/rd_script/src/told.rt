ghost use Rattle.std.specs.Prelude.{◌≡◌, ◌≤◌, IfOk, IfSome};
ghost use Rattle.rd_base.specs.Swap.{IsRowWord};
ghost use Rattle.rd_script.specs.Script.{words_of, is_told, told_row, row_of_words, row_word_of};

use crate::cut::{cut_at_byte, only_word};
use crate::words::read_hex;
use rd_base::{Bytes, NoMemory, Row, Side, is_row_word};
use std::alloc::Global;

/// Whether a line tells a row.
pub fn is_told(line: &[u8]) -> bool
    ensures { result ≡ is_told (words_of line.now) }
{
    match cut_at_byte(line, b' ') {
        Some((name, _)) => name == b"told".as_slice(),
        None => line == b"told".as_slice(),
    }
}

/// The row that a line tells, on the incoming side alone.
pub fn read_told(
    alloc: Global,
    copies: u8,
    side: Side,
    line: &[u8],
) -> Result<Option<Row>, NoMemory>
    requires least { 1 ≤ copies }
    requires most { copies ≤ 8 }
    ensures { IfOk result (λ row. row ≡ told_row copies side (words_of line.now)) }
{
    match side {
        Side::Incoming => match cut_at_byte(line, b' ') {
            Some((_, words)) => read_row(alloc, copies, words),
            None => Ok(None),
        },
        Side::Outgoing => Ok(None),
    }
}

/// The row of these words, one for each copy.
fn read_row(alloc: Global, copies: u8, words: &[u8]) -> Result<Option<Row>, NoMemory>
    requires least { 1 ≤ copies }
    requires most { copies ≤ 8 }
    ensures { IfOk result (λ row. row ≡ row_of_words copies (words_of words.now)) }
{
    let mut row = Row::blank();
    let mut rest = words;
    for copy in 1..copies {
        let Some((hex, more)) = cut_at_byte(rest, b' ') else {
            return Ok(None);
        };
        let Some(word) = read_row_word(alloc, hex)? else {
            return Ok(None);
        };
        row.push_own(word.as_slice());
        rest = more;
    }
    let Some(hex) = only_word(rest) else {
        return Ok(None);
    };
    let Some(word) = read_row_word(alloc, hex)? else {
        return Ok(None);
    };
    row.push_own(word.as_slice());
    Ok(Some(row))
}

/// The word of 16 to 128 word bytes that hexadecimal digits stand for.
fn read_row_word(alloc: Global, hex: &[u8]) -> Result<Option<Bytes>, NoMemory>
    ensures value { IfOk result (λ word. word ≡ row_word_of hex.now) }
    ensures fits { IfOk result (λ word. IfSome word (λ w. IsRowWord w)) }
{
    let Some(word) = read_hex(alloc, hex)? else {
        return Ok(None);
    };
    if is_row_word(word.as_slice()) {
        Ok(Some(word))
    } else {
        Ok(None)
    }
}
