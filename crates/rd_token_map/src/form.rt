ghost use Rattle.std.specs.Prelude.{◌≡◌, ◌≤◌, ◌<◌, ◌++◌, ◌==◌, length, drop, IfOk, IfSome, OnOk};
ghost use Rattle.std.specs.List.{position, position_or_len};
ghost use Rattle.form_urlencoded.specs.Form.{byte_serialize};
ghost use Rattle.rd_token_map.specs.SwapForm.{swap_form, swap_pair, swap_value, has_replacement};

use crate::swap_words;
use form_urlencoded::{byte_serialize, decode};
use rd_base::{Bytes, NoMemory, Rows};
use std::alloc::Global;

/// The form with the words of its values swapped for this copy. A value whose text has U+FFFD stays.
pub fn swap_form(
    alloc: Global,
    copy: u8,
    own: &Rows,
    told: &Rows,
    text: &[u8],
) -> Result<Bytes, NoMemory>
    ensures { IfOk result (λ b. b ≡ swap_form copy (own.now ++ told.now) text.now) }
{
    let mut out = Bytes::new(alloc);
    let mut at = 0;
    while at < text.len() {
        at += push_first_pair(&mut out, alloc, copy, own, told, &text[at..])?;
    }
    Ok(out)
}

/// Appends the first pair and the `&` behind it, and gives the number of bytes that they are written in.
fn push_first_pair(
    out: &mut Bytes,
    alloc: Global,
    copy: u8,
    own: &Rows,
    told: &Rows,
    text: &[u8],
) -> Result<usize, NoMemory>
    requires { 0 < length text.now }
    ensures some { IfOk result (λ len. 0 < len) }
    ensures within { IfOk result (λ len. len ≤ length text.now) }
    ensures same { IfOk result
        (λ len. out.old ++ swap_form copy (own.now ++ told.now) text.now
        ≡ out.new ++ swap_form copy (own.now ++ told.now) (drop len text.now)) }
{
    let end = first_or_len(text, b'&');
    push_pair(out, alloc, copy, own, told, &text[..end])?;
    if end < text.len() {
        out.push_slice(b"&")?;
        Ok(end + 1)
    } else {
        Ok(end)
    }
}

/// Where the byte first stands, or the length.
pub(crate) fn first_or_len(text: &[u8], byte: u8) -> usize
    ensures place { result ≡ position_or_len (λ b. b == byte) text.now }
    ensures within { result ≤ length text.now }
{
    match first_place(text, byte) {
        Some(place) => place,
        None => text.len(),
    }
}

fn first_place(text: &[u8], byte: u8) -> Option<usize>
    ensures place { result ≡ position (λ b. b == byte) text.now }
    ensures within { IfSome result (λ place. place < length text.now) }
{
    text.iter().position(|b| *b == byte)
}

fn push_pair(
    out: &mut Bytes,
    alloc: Global,
    copy: u8,
    own: &Rows,
    told: &Rows,
    pair: &[u8],
) -> Result<(), NoMemory>
    ensures { OnOk result (out.new ≡ out.old ++ swap_pair copy (own.now ++ told.now) pair.now) }
{
    let value = pair.len().min(first_or_len(pair, b'=') + 1);
    out.push_slice(&pair[..value])?;
    push_value(out, alloc, copy, own, told, &pair[value..])
}

fn push_value(
    out: &mut Bytes,
    alloc: Global,
    copy: u8,
    own: &Rows,
    told: &Rows,
    value: &[u8],
) -> Result<(), NoMemory>
    ensures { OnOk result (out.new ≡ out.old ++ swap_value copy (own.now ++ told.now) value.now) }
{
    let text = match decode(alloc, value) {
        Ok(text) => text,
        Err(_) => return Err(NoMemory),
    };
    if has_replacement(text.as_str()) {
        return out.push_slice(value);
    }
    let swapped = swap_words(alloc, copy, own, told, text.as_str().as_bytes())?;
    if swapped.as_slice() == text.as_str().as_bytes() {
        out.push_slice(value)
    } else {
        push_serialized(out, swapped.as_slice())
    }
}

/// Whether the text has the character U+FFFD.
pub(crate) fn has_replacement(text: &str) -> bool
    ensures { result ≡ has_replacement text.now }
{
    text.chars().any(|c| c == '\u{FFFD}')
}

/// Appends the text as a form writes it.
fn push_serialized(out: &mut Bytes, text: &[u8]) -> Result<(), NoMemory>
    ensures { OnOk result (out.new ≡ out.old ++ byte_serialize text.now) }
{
    'pieces: for piece in byte_serialize(text) {
        out.push_slice(piece.as_bytes())?;
    }
    Ok(())
}
