ghost use Rattle.std.specs.Prelude.{◌≡◌, ◌≤◌, ◌+◌, ◌-◌, ◌&&◌, nat_le, length, take, drop, slice_range};
ghost use Rattle.httparse.specs.Grammar.{is_ows, trim_ows};
ghost use Rattle.rd_http_tokens.specs.Tokens.{is_of_origin, is_of_connection, is_of_framing, is_passed, standing, raw_of, value_of, is_type, ends_with, begins_with, kind_of_type, media_type, body_kind, state};

use crate::stage::{Standing, Stated};
use crate::text::place_of;
use rd_base::NameRules;
use rd_body_tokens::BodyKind;

/// A place in a text.
#[derive(Clone, Copy)]
pub(crate) struct Piece {
    pub start: usize,
    pub end: usize,
}

/// Whether a field of this name gives no token.
#[tactic(auto, unfolding(crate::specs::Tokens::is_passed))]
pub(crate) fn is_passed(names: &NameRules, name: &[u8]) -> bool
    ensures { result ≡ is_passed names.now name.now }
{
    is_of_origin(name) || is_of_connection(name) || is_of_framing(name) || names.pass.has(name)
}

fn is_of_origin(name: &[u8]) -> bool
    ensures { result ≡ is_of_origin name.now }
{
    is_type(b"date", name) || is_type(b"server", name)
}

fn is_of_connection(name: &[u8]) -> bool
    ensures { result ≡ is_of_connection name.now }
{
    is_type(b"connection", name) || is_type(b"keep-alive", name)
}

fn is_of_framing(name: &[u8]) -> bool
    ensures { result ≡ is_of_framing name.now }
{
    is_type(b"content-length", name) || is_type(b"transfer-encoding", name)
}

/// How values stand under this name.
pub(crate) fn standing(names: &NameRules, name: &[u8]) -> Standing
    ensures { result ≡ standing names.now name.now }
{
    if names.free.has(name) {
        Standing::Absent
    } else if names.firm.has(name) {
        Standing::Fixed
    } else {
        Standing::Plain
    }
}

/// Where the value of a field's line stands.
pub(crate) fn value_piece(line: &[u8]) -> Piece
    ensures is { slice_range line.now result.start result.end ≡ value_of line.now }
    ensures ordered { result.start ≤ result.end }
    ensures within { result.end ≤ length line.now }
{
    let raw = raw_piece(line);
    trim(line, raw.start, raw.end)
}

/// Where the bytes behind a line's `:` stand, without a CR at the end.
fn raw_piece(line: &[u8]) -> Piece
    ensures is { slice_range line.now result.start result.end ≡ raw_of line.now }
    ensures ordered { result.start ≤ result.end }
    ensures within { result.end ≤ length line.now }
{
    let colon = place_of(line, b':');
    let end = line.len();
    if colon + 1 >= end {
        return Piece { start: end, end };
    }
    let start = colon + 1;
    if line[end - 1] == b'\r' {
        Piece {
            start,
            end: end - 1,
        }
    } else {
        Piece { start, end }
    }
}

/// The part of `start..end` without the spaces and tabs at both ends.
fn trim(text: &[u8], mut start: usize, mut end: usize) -> Piece
    requires ordered { start ≤ end }
    requires in_range { end ≤ length text.now }
    ensures is { slice_range text.now result.start result.end
        ≡ trim_ows (slice_range text.now start end) }
    ensures ordered { result.start ≤ result.end }
    ensures within { result.end ≤ end }
{
    while start < end && is_ows(text[start]) {
        start += 1;
    }
    while start < end && is_ows(text[end - 1]) {
        end -= 1;
    }
    Piece { start, end }
}

fn is_ows(byte: u8) -> bool
    ensures { result ≡ is_ows byte }
{
    byte == b' ' || byte == b'\t'
}

/// The kind of a body whose head's fields say this.
pub(crate) fn body_kind(stated: Stated) -> BodyKind
    ensures { result ≡ body_kind stated }
{
    if stated.coded {
        BodyKind::Raw
    } else {
        stated.kind.unwrap_or(BodyKind::Raw)
    }
}

/// What the fields have said, with this line.
pub(crate) fn state(before: Stated, line: &[u8]) -> Stated
    ensures { result ≡ state before line.now }
{
    let name = &line[..place_of(line, b':')];
    let piece = value_piece(line);
    let value = &line[piece.start..piece.end];
    if name.eq_ignore_ascii_case(b"content-type") {
        Stated {
            kind: Some(before.kind.unwrap_or(kind_of_value(value))),
            coded: before.coded,
        }
    } else if name.eq_ignore_ascii_case(b"content-encoding") && value != b"identity".as_slice() {
        Stated {
            kind: before.kind,
            coded: true,
        }
    } else {
        before
    }
}

/// The kind of a body whose Content-Type has this value.
fn kind_of_value(value: &[u8]) -> BodyKind
    ensures { result ≡ kind_of_type (media_type value.now) }
{
    let piece = trim(value, 0, place_of(value, b';'));
    kind_of_type(&value[piece.start..piece.end])
}

fn kind_of_type(text: &[u8]) -> BodyKind
    ensures { result ≡ kind_of_type text.now }
{
    if is_type(b"application/json", text) || ends_with(b"+json", text) {
        BodyKind::Json
    } else if is_type(b"application/x-www-form-urlencoded", text) {
        BodyKind::Form
    } else if begins_with(b"text/", text)
        || is_type(b"application/xml", text)
        || is_type(b"application/javascript", text)
        || ends_with(b"+xml", text)
    {
        BodyKind::Words
    } else {
        BodyKind::Raw
    }
}

fn is_type(name: &[u8], text: &[u8]) -> bool
    ensures { result ≡ is_type name.now text.now }
{
    text.eq_ignore_ascii_case(name)
}

fn ends_with(end: &[u8], text: &[u8]) -> bool
    ensures { result ≡ ends_with end.now text.now }
{
    end.len() <= text.len() && is_type(end, &text[text.len() - end.len()..])
}

fn begins_with(front: &[u8], text: &[u8]) -> bool
    ensures { result ≡ begins_with front.now text.now }
{
    front.len() <= text.len() && is_type(front, &text[..front.len()])
}
