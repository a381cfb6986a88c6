ghost use Rattle.std.specs.Prelude.{◌≡◌, ◌≤◌, length, drop, false};
ghost use Rattle.rd_dialect.specs.Grammar.{whole_len};
ghost use Rattle.rd_toy.specs.ToyGrammar.{scan_nothing, refused, scan_kinds, scan_answer, scan_until_end, early_len};

use rd_base::{Phase, Scan};
use rd_dialect::{Dialect, Line};

/// A line that begins with one of these kinds. Another one is refused at its first byte: `!` by the code, `#` as too
/// big.
pub(crate) fn scan_kinds(kinds: &[u8], code: u32, bytes: &[u8]) -> Scan
    ensures scan { result ≡ scan_kinds kinds.now code bytes.now }
    ensures within { whole_len result ≤ length bytes.now }
{
    match bytes.first() {
        None => Scan::More,
        Some(kind) if kinds.contains(kind) => Line.scan_request(Phase(0), bytes),
        Some(kind) => refused(code, *kind),
    }
}

fn refused(code: u32, kind: u8) -> Scan
    ensures { result ≡ refused code kind }
{
    match kind {
        b'!' => Scan::Unsupported(code),
        b'#' => Scan::TooBig,
        _ => Scan::Bad,
    }
}

/// Any number of early lines, and then a line of one of these kinds.
pub(crate) fn scan_answer(kinds: &[u8], bytes: &[u8]) -> Scan
    ensures scan { result ≡ scan_answer kinds.now bytes.now }
    ensures within { whole_len result ≤ length bytes.now }
{
    let early = early_len(bytes);
    match scan_kinds(kinds, 9, &bytes[early..]) {
        Scan::Whole(len) => Scan::Whole(early + len),
        told => told,
    }
}

/// The number of bytes in front that are in early lines, which begin with `+`.
pub(crate) fn early_len(bytes: &[u8]) -> usize
    ensures len { result ≡ early_len false bytes.now }
    ensures within { result ≤ length bytes.now }
{
    let mut has_begun = false;
    for (i, byte) in bytes.iter().enumerate() {
        if !has_begun && *byte != b'+' {
            return i;
        }
        has_begun = *byte != b'\n';
    }
    bytes.len()
}

/// All bytes until their link ends, and at least one.
pub(crate) fn scan_until_end(bytes: &[u8], ended: bool) -> Scan
    ensures scan { result ≡ scan_until_end bytes.now ended }
    ensures within { whole_len result ≤ length bytes.now }
{
    if ended && !bytes.is_empty() {
        Scan::Whole(bytes.len())
    } else {
        Scan::More
    }
}

/// Where nothing may come.
pub(crate) fn scan_nothing(bytes: &[u8]) -> Scan
    ensures { result ≡ scan_nothing bytes.now }
{
    if bytes.is_empty() {
        Scan::More
    } else {
        Scan::Bad
    }
}
