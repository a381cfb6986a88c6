ghost use Rattle.std.specs.Prelude.{◌≡◌, ◌≤◌, All, length, map, IsTrue};
ghost use Rattle.std.specs.Str.Parse.{digits_value};
ghost use Rattle.httparse.specs.Spans.{IsHeaderWithin, header_bytes, span_bytes};
ghost use Rattle.rd_http_frame.specs.Fields.{values_of, is_length, is_coding, framing_of, IsFound, IsFirst, length_of};
ghost use Rattle.std.specs.Str.{str_eq_ignore_ascii_case};
ghost use Rattle.std.specs.List.{list_all};
ghost use Rattle.std.specs.Char.{is_ascii_digit};

use httparse::spans::{HeaderSpan, Span};

/// What the fields of a head say of its body.
#[derive(Clone, Copy, Debug, PartialEq, Eq)]
pub(crate) enum Framing {
    /// Nothing.
    Unstated,
    /// It has so many bytes.
    Length(u64),
    /// It is chunked.
    Chunks,
}

/// The fields of one name.
#[derive(Clone, Copy)]
pub(crate) enum Found {
    Absent,
    /// One, with this value.
    Once(Span),
    /// Two or more.
    Again,
}

/// What the fields say of the body, in version 1.`minor`. None where that can be doubted.
pub(crate) fn framing_of(minor: u8, bytes: &[u8], headers: &[HeaderSpan]) -> Option<Framing>
    requires within { All (IsHeaderWithin (length bytes.now)) headers.now }
    ensures { result ≡ framing_of minor (map (header_bytes bytes.now) headers.now) }
{
    let size = find_values(b"content-length", bytes, headers);
    let coding = find_values(b"transfer-encoding", bytes, headers);
    match (size, coding) {
        (Found::Absent, Found::Absent) => Some(Framing::Unstated),
        (Found::Once(span), Found::Absent) => length_of(span.of(bytes)).map(Framing::Length),
        (Found::Absent, Found::Once(span)) if is_coding(minor, span.of(bytes)) => {
            Some(Framing::Chunks)
        }
        _ => None,
    }
}

/// The values of the fields of this name.
fn find_values(name: &[u8], bytes: &[u8], headers: &[HeaderSpan]) -> Found
    requires within { All (IsHeaderWithin (length bytes.now)) headers.now }
    ensures { IsFound bytes.now
        (values_of name.now (map (header_bytes bytes.now) headers.now)) result }
{
    let Some(place) = first_named(name, bytes, headers) else {
        return Found::Absent;
    };
    match first_named(name, bytes, &headers[place + 1..]) {
        None => Found::Once(headers[place].value),
        Some(_) => Found::Again,
    }
}

/// The place of the first field of this name.
fn first_named(name: &[u8], bytes: &[u8], headers: &[HeaderSpan]) -> Option<usize>
    requires within { All (IsHeaderWithin (length bytes.now)) headers.now }
    ensures { IsFirst name.now bytes.now headers.now result }
{
    'headers: for i in 0..headers.len() {
        if is_named(name, bytes, &headers[i]) {
            return Some(i);
        }
    }
    None
}

/// Whether the field has this name, in any case of letters.
fn is_named(name: &[u8], bytes: &[u8], header: &HeaderSpan) -> bool
    requires { IsHeaderWithin (length bytes.now) header.now }
    ensures { result ≡ str_eq_ignore_ascii_case (span_bytes bytes.now header.now.name) name.now }
{
    header.name.of(bytes).eq_ignore_ascii_case(name)
}

/// Whether this is the coding `chunked`, which only HTTP/1.1 has.
fn is_coding(minor: u8, value: &[u8]) -> bool
    ensures { result ≡ is_coding minor value.now }
{
    minor == 1 && value.eq_ignore_ascii_case(b"chunked")
}

/// The number that 1 to 15 digits write, and None at anything else.
fn length_of(value: &[u8]) -> Option<u64>
    ensures { result ≡ length_of value.now }
{
    if !is_length(value) {
        return None;
    }
    let mut size: u64 = 0;
    'digits: for i in 0..value.len() {
        size = size * 10 + (value[i] - b'0') as u64;
    }
    Some(size)
}

/// Whether these are 1 to 15 digits.
fn is_length(value: &[u8]) -> bool
    ensures { result ≡ is_length value.now }
{
    1 <= value.len() && value.len() <= 15 && are_digits(value)
}

fn are_digits(value: &[u8]) -> bool
    ensures { result ≡ list_all is_ascii_digit value.now }
{
    value.iter().all(|b| b.is_ascii_digit())
}
