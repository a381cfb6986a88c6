ghost use Rattle.std.specs.Prelude.{◌≡◌, ◌≤◌, ◌+◌, ◌<◌, ◌^◌, ℕ, List, All, length, drop};
ghost use Rattle.std.specs.List.{prefix_len};
ghost use Rattle.httparse.specs.Grammar.{Field, is_ows};
ghost use Rattle.httparse.specs.Pieces.{FieldLine};
ghost use Rattle.httparse.specs.Spans.{IsHeaderWithin};
ghost use Rattle.rd_http_frame.specs.Places.{AtField, AreLinesAt, first_at, fields_at, span_of};

use arrayvec::ArrayVec;
use httparse::spans::HeaderSpan;

/// A place in a head's bytes: from its first byte to past its last.
#[derive(Clone, Copy, Debug, Default, PartialEq, Eq)]
pub struct Span {
    pub start: u32,
    pub end: u32,
}

/// Where a field's name is, and its value without the white space around it.
#[derive(Clone, Copy, Debug, Default, PartialEq, Eq)]
pub struct FieldSpan {
    pub name: Span,
    pub value: Span,
}

/// Where a field line's name ends, and where the next line begins.
#[derive(Clone, Copy)]
pub(crate) struct FieldPlace {
    pub name_end: usize,
    pub next: usize,
}

/// The places of fields, whose lines begin at `at`.
pub(crate) fn field_spans(
    bytes: &[u8],
    at: usize,
    headers: &[HeaderSpan],
) -> ArrayVec<FieldSpan, 100>
    requires small { length bytes.now ≤ 65536 }
    requires few { length headers.now ≤ 100 }
    requires within { All (IsHeaderWithin (length bytes.now)) headers.now }
    requires lines { (fields : List Field) × AreLinesAt bytes.now at headers.now fields }
    ensures { (fields : List Field) → AreLinesAt bytes.now at headers.now fields
        → result.items ≡ fields_at at fields }
{
    let mut spans = ArrayVec::new();
    let mut line = at;
    'lines: for i in 0..headers.len() {
        let place = field_place(bytes, line);
        spans.push(field_span(bytes, line, place.name_end, &headers[i]));
        line = place.next;
    }
    spans
}

/// The places in a field line, whose name is at `at`.
fn field_span(bytes: &[u8], at: usize, name_end: usize, header: &HeaderSpan) -> FieldSpan
    requires small { length bytes.now ≤ 65536 }
    requires ordered { at ≤ name_end }
    requires inside { name_end < length bytes.now }
    requires within { IsHeaderWithin (length bytes.now) header.now }
    ensures { result ≡ span_of bytes.now at name_end header.now }
{
    let start = after_space(bytes, name_end + 1);
    let size = header.value.end - header.value.start;
    FieldSpan {
        name: Span {
            start: at as u32,
            end: name_end as u32,
        },
        value: Span {
            start: start as u32,
            end: (start + size) as u32,
        },
    }
}

/// The first place past spaces and tabs.
fn after_space(bytes: &[u8], at: usize) -> usize
    requires { at ≤ length bytes.now }
    ensures value { result ≡ at + prefix_len is_ows (drop at bytes.now) }
    ensures within { result ≤ length bytes.now }
{
    'bytes: for i in at..bytes.len() {
        if bytes[i] != b' ' && bytes[i] != b'\t' {
            return i;
        }
    }
    bytes.len()
}

/// Where the parts of the field line that begins at `at` are.
pub(crate) fn field_place(bytes: &[u8], at: usize) -> FieldPlace
    requires within { at ≤ length bytes.now }
    requires small { length bytes.now < 2 ^ 32 }
    ensures { (f : Field) (rest : List ℕ) → FieldLine f (drop at bytes.now) rest
        → AtField at f result }
{
    let name_end = first_at(bytes, at, b':');
    let feed = first_at(bytes, name_end, b'\n');
    FieldPlace {
        name_end,
        next: feed + 1,
    }
}

/// The first place of this byte from `at` on, or the end.
pub(crate) fn first_at(bytes: &[u8], at: usize, stop: u8) -> usize
    requires { at ≤ length bytes.now }
    ensures value { result ≡ first_at bytes.now at stop }
    ensures within { result ≤ length bytes.now }
{
    'bytes: for i in at..bytes.len() {
        if bytes[i] == stop {
            return i;
        }
    }
    bytes.len()
}
