ghost use Rattle.std.specs.Prelude.{◌≡◌, IfOk, IfSome, Some};
ghost use Rattle.std.specs.List.{list_all};
ghost use Rattle.std.specs.Char.{is_ascii_digit};
ghost use Rattle.rd_script.specs.Script.{is_numeral, number_of, link_of, bytes_of_hex, is_lower_hex_digit};

use rd_base::{Bytes, Link, NoMemory};
use std::alloc::Global;

/// The number that a word stands for: decimal digits without a leading zero, at most 2^64-1.
pub fn read_number(word: &[u8]) -> Option<u64>
    ensures { result ≡ number_of word.now }
{
    if !is_numeral(word) {
        return None;
    }
    str::from_utf8(word).ok()?.parse().ok()
}

/// Decimal digits without a leading zero, `0` itself excepted.
fn is_numeral(word: &[u8]) -> bool
    ensures { result ≡ is_numeral word.now }
{
    match word {
        [] => false,
        [digit] => digit.is_ascii_digit(),
        [first, ..] => *first != b'0' && are_digits(word),
    }
}

fn are_digits(word: &[u8]) -> bool
    ensures { result ≡ list_all is_ascii_digit word.now }
{
    word.iter().all(|digit| digit.is_ascii_digit())
}

/// The link that a word names, where `copies` is the greatest.
pub fn read_link(copies: u8, word: &[u8]) -> Option<Link>
    ensures { result ≡ link_of copies word.now }
{
    let number = read_number(word)?;
    if number <= u64::from(copies) {
        Some(Link(number as u8))
    } else {
        None
    }
}

/// The bytes that a word of lower-case hexadecimal digits stands for.
pub fn read_hex(alloc: Global, word: &[u8]) -> Result<Option<Bytes>, NoMemory>
    ensures { IfOk result (λ bytes. bytes ≡ bytes_of_hex word.now) }
{
    if !are_lower_hex_digits(word) {
        return Ok(None);
    }
    match hex::decode(alloc, word) {
        Ok(bytes) => Ok(Some(Bytes::from_slice(alloc, bytes.as_slice())?)),
        Err(hex::FromHexError::OutOfMemory) => Err(NoMemory),
        Err(_) => Ok(None),
    }
}

fn are_lower_hex_digits(word: &[u8]) -> bool
    ensures { result ≡ list_all is_lower_hex_digit word.now }
{
    word.iter().all(|digit| is_lower_hex_digit(*digit))
}

/// `0` to `9` and `a` to `f`.
fn is_lower_hex_digit(digit: u8) -> bool
    ensures { result ≡ is_lower_hex_digit digit }
{
    matches!(digit, b'0'..=b'9' | b'a'..=b'f')
}
