ghost use Rattle.std.specs.Prelude.{◌≡◌, ◌≤◌, ◌+◌, IfOk, length, drop};
ghost use Rattle.std.specs.List.{prefix_len, list_all};
ghost use Rattle.std.specs.Char.{is_ascii_digit};
ghost use Rattle.rd_http_frame.specs.Fronts.{front_len, after_front};
ghost use Rattle.rd_operator.specs.Asked.{asked, asked_at, by_route, method_of, path_of, routed, id_of, is_id, is_word_byte, word};

use crate::routes::{Route, route_of};
use http::StatusCode;
use rd_base::{NoMemory, Part, Scan};
use rd_http_scan::scan_head;
use std::alloc::Global;
use std::str;

/// What a request asks for.
#[derive(Clone, Copy)]
pub(crate) enum Asked {
    /// Nothing that has a page; the status of the refusal.
    Refused(StatusCode),
    /// The number of live sessions.
    Live,
    /// The sums over all noted sessions.
    Totals,
    /// The first notes from this id on.
    Notes(u64),
    /// The note of this id.
    Note(u64),
}

/// The most digits of an id.
const MOST_DIGITS: usize = 19;

/// What these bytes ask for: those that came until they were no longer a part of a head, or the end came.
pub(crate) fn asked_by(alloc: Global, bytes: &[u8]) -> Result<Asked, NoMemory>
    ensures { IfOk result (λ a. a ≡ asked bytes.now) }
{
    match scan_head(Part::Request, bytes) {
        Scan::Whole(_) => asked_in(alloc, bytes),
        Scan::TooBig => Ok(Asked::Refused(StatusCode::REQUEST_HEADER_FIELDS_TOO_LARGE)),
        Scan::More => Ok(Asked::Refused(StatusCode::BAD_REQUEST)),
        Scan::Bad => Ok(Asked::Refused(StatusCode::BAD_REQUEST)),
        Scan::Unsupported(_) => Ok(Asked::Refused(StatusCode::BAD_REQUEST)),
    }
}

/// What a whole head asks for.
fn asked_in(alloc: Global, bytes: &[u8]) -> Result<Asked, NoMemory>
    ensures { IfOk result (λ a. a ≡ asked_at (method_of bytes.now) (path_of bytes.now)) }
{
    let line = after_front(bytes);
    let method = word(line);
    let path = word(behind(line, method.len() + 1));
    match str::from_utf8(path) {
        Ok(text) => asked_at(alloc, method, text),
        Err(_) => Ok(Asked::Refused(StatusCode::NOT_FOUND)),
    }
}

/// What a request of this method asks for at this path.
fn asked_at(alloc: Global, method: &[u8], path: &str) -> Result<Asked, NoMemory>
    ensures { IfOk result (λ a. a ≡ asked_at method.now path.now) }
{
    match route_of(alloc, path)? {
        Some(route) => Ok(by_method(method, path.as_bytes(), route)),
        None => Ok(Asked::Refused(StatusCode::NOT_FOUND)),
    }
}

fn by_method(method: &[u8], path: &[u8], route: Route) -> Asked
    ensures { result ≡ by_route method.now path.now (Some route) }
{
    if method == b"GET".as_slice() {
        routed(path, route)
    } else {
        Asked::Refused(StatusCode::METHOD_NOT_ALLOWED)
    }
}

/// What is asked for at a route. An id is what is behind the route's front.
fn routed(path: &[u8], route: Route) -> Asked
    ensures { result ≡ routed path.now route }
{
    match route {
        Route::Live => Asked::Live,
        Route::Totals => Asked::Totals,
        Route::Sessions => Asked::Notes(0),
        Route::From => match id_of(behind(path, "/sessions/from/".len())) {
            Some(id) => Asked::Notes(id),
            None => Asked::Refused(StatusCode::BAD_REQUEST),
        },
        Route::One => match id_of(behind(path, "/sessions/".len())) {
            Some(id) => Asked::Note(id),
            None => Asked::Refused(StatusCode::BAD_REQUEST),
        },
    }
}

/// The id that a text writes, if it is 1 to 19 digits of a number up to 2^63-1.
fn id_of(text: &[u8]) -> Option<u64>
    ensures { result ≡ id_of text.now }
{
    if !is_id(text) {
        return None;
    }
    let mut id: u64 = 0;
    'digits: for i in 0..text.len() {
        id = id * 10 + (text[i] - b'0') as u64;
    }
    if id <= i64::MAX as u64 {
        Some(id)
    } else {
        None
    }
}

fn is_id(text: &[u8]) -> bool
    ensures { result ≡ is_id text.now }
{
    1 <= text.len() && text.len() <= MOST_DIGITS && are_digits(text)
}

fn are_digits(text: &[u8]) -> bool
    ensures { result ≡ list_all is_ascii_digit text.now }
{
    text.iter().all(|b| b.is_ascii_digit())
}

/// The bytes past the line ends at the front.
fn after_front(bytes: &[u8]) -> &[u8]
    ensures { result.now ≡ after_front bytes.now }
{
    &bytes[front_len(bytes)..]
}

fn front_len(bytes: &[u8]) -> usize
    ensures value { result ≡ front_len bytes.now }
    ensures within { result ≤ length bytes.now }
{
    'bytes: for i in 0..bytes.len() {
        if bytes[i] != b'\r' && bytes[i] != b'\n' {
            return i;
        }
    }
    bytes.len()
}

/// The visible bytes at the front, up to a `?`.
fn word(text: &[u8]) -> &[u8]
    ensures { result.now ≡ word text.now }
{
    &text[..word_len(text)]
}

fn word_len(text: &[u8]) -> usize
    ensures value { result ≡ prefix_len is_word_byte text.now }
    ensures within { result ≤ length text.now }
{
    'bytes: for i in 0..text.len() {
        if !is_word_byte(text[i]) {
            return i;
        }
    }
    text.len()
}

/// Whether a byte is visible ASCII and no `?`.
fn is_word_byte(b: u8) -> bool
    ensures { result ≡ is_word_byte b }
{
    b > b' ' && b < 127 && b != b'?'
}

/// What is behind the first bytes.
fn behind(bytes: &[u8], count: usize) -> &[u8]
    ensures { result.now ≡ drop count bytes.now }
{
    if count < bytes.len() {
        &bytes[count..]
    } else {
        &[]
    }
}
