ghost use Rattle.std.specs.Prelude.{◌≡◌, ◌≤◌, ◌+◌, ◌++◌, ◌==◌, length, take, drop, Option, OnOk};
ghost use Rattle.std.specs.List.{flat_map, fold, prefix_len};
ghost use Rattle.httparse.specs.Grammar.{is_ows};
ghost use Rattle.rd_http_tokens.specs.Tokens.{behind_line, line_of, state, unstated, value_of};
ghost use Rattle.rd_http_tokens.specs.Copied.{copied_line, copied_value, is_named, lines_in, length_value, with_value};

use crate::fields::{state, value_piece};
use crate::stage::Stated;
use crate::text::{from, place_of};
use rd_base::{Bytes, NoMemory, Rows};
use rd_token_map::swap_words;
use std::alloc::Global;

/// Appends a head's lines behind its start line as a copy gets them. `size` is the length of a body that has changed.
pub(crate) fn push_lines(
    out: &mut Bytes,
    alloc: Global,
    copy: u8,
    own: &Rows,
    told: &Rows,
    size: Option<usize>,
    text: &[u8],
) -> Result<(), NoMemory>
    ensures { OnOk result
        (out.new ≡ out.old ++ flat_map (copied_line copy (own.now ++ told.now) size) (lines_in text.now)) }
{
    let mut rest = text;
    loop {
        let len = place_of(rest, b'\n');
        push_line(out, alloc, copy, own, told, size, &rest[..len])?;
        if len == rest.len() {
            return Ok(());
        }
        rest = from(rest, len + 1);
    }
}

fn push_line(
    out: &mut Bytes,
    alloc: Global,
    copy: u8,
    own: &Rows,
    told: &Rows,
    size: Option<usize>,
    line: &[u8],
) -> Result<(), NoMemory>
    ensures { OnOk result
        (out.new ≡ out.old ++ copied_line copy (own.now ++ told.now) size line.now) }
{
    if is_named(b"upgrade", line) {
        return Ok(());
    }
    out.push_slice(b"\n")?;
    push_field(out, alloc, copy, own, told, size, line)
}

/// Whether a field's line has this name, in any case of letters.
pub(crate) fn is_named(name: &[u8], line: &[u8]) -> bool
    ensures { result ≡ is_named name.now line.now }
{
    line[..place_of(line, b':')].eq_ignore_ascii_case(name)
}

/// Appends a line with the value that a copy gets.
fn push_field(
    out: &mut Bytes,
    alloc: Global,
    copy: u8,
    own: &Rows,
    told: &Rows,
    size: Option<usize>,
    line: &[u8],
) -> Result<(), NoMemory>
    ensures { OnOk result
        (out.new ≡ out.old ++ with_value line.now (copied_value copy (own.now ++ told.now) size line.now)) }
{
    if is_named(b"accept-encoding", line) {
        push_with_value(out, line, b"identity")
    } else if is_named(b"content-length", line) {
        push_length(out, alloc, size, line)
    } else {
        let value = swap_words(alloc, copy, own, told, value_of(line))?;
        push_with_value(out, line, value.as_slice())
    }
}

/// Appends a line with the length of a body that has changed.
fn push_length(
    out: &mut Bytes,
    alloc: Global,
    size: Option<usize>,
    line: &[u8],
) -> Result<(), NoMemory>
    ensures { OnOk result
        (out.new ≡ out.old ++ with_value line.now (length_value size (value_of line.now))) }
{
    match size {
        None => push_with_value(out, line, value_of(line)),
        Some(size) => match format!(in alloc; "{size}") {
            Ok(digits) => push_with_value(out, line, digits.as_bytes()),
            Err(_) => Err(NoMemory),
        },
    }
}

/// Appends a field's line with another value.
fn push_with_value(out: &mut Bytes, line: &[u8], value: &[u8]) -> Result<(), NoMemory>
    ensures { OnOk result (out.new ≡ out.old ++ with_value line.now value.now) }
{
    let colon = line.len().min(place_of(line, b':') + 1);
    let rest = from(line, colon);
    let start = blanks_len(rest);
    let end = rest.len().min(start + value_of(line).len());
    out.push_slice(&line[..colon])?;
    out.push_slice(&rest[..start])?;
    out.push_slice(value)?;
    out.push_slice(&rest[end..])
}

pub(crate) fn value_of(line: &[u8]) -> &[u8]
    ensures is { result.now ≡ value_of line.now }
    ensures within { length result.now ≤ length line.now }
{
    let piece = value_piece(line);
    &line[piece.start..piece.end]
}

/// The number of spaces and tabs at the front.
fn blanks_len(text: &[u8]) -> usize
    ensures value { result ≡ prefix_len is_ows text.now }
    ensures within { result ≤ length text.now }
{
    for (i, byte) in text.iter().enumerate() {
        if *byte != b' ' && *byte != b'\t' {
            return i;
        }
    }
    text.len()
}

/// What a head's lines behind its start line say of the body's kind.
pub(crate) fn said_in(text: &[u8]) -> Stated
    ensures { result ≡ fold state unstated (lines_in text.now) }
{
    let mut said = Stated {
        kind: None,
        coded: false,
    };
    let mut rest = text;
    loop {
        let len = place_of(rest, b'\n');
        said = state(said, &rest[..len]);
        if len == rest.len() {
            return said;
        }
        rest = from(rest, len + 1);
    }
}

/// The first line.
pub(crate) fn line_of(text: &[u8]) -> &[u8]
    ensures { result.now ≡ line_of text.now }
{
    &text[..place_of(text, b'\n')]
}

/// What stands behind the first line.
pub(crate) fn behind_line(text: &[u8]) -> &[u8]
    ensures { result.now ≡ behind_line text.now }
{
    &text[text.len().min(place_of(text, b'\n') + 1)..]
}
