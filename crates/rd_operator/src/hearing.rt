ghost use Rattle.std.specs.Prelude.{◌≡◌, length, ◌++◌};
ghost use Rattle.rd_operator.specs.Hearing.{Takes, is_more, is_part, ended_with};

use rd_base::{Give, Part, Scan, Source};
use rd_http_scan::scan_head;
use std::alloc::Global;

/// What came of a source.
#[derive(Drop)]
pub(crate) enum Heard {
    /// The bytes that are no longer a part of a head, or behind which the source ended. There is at least one.
    Bytes(rd_base::Bytes),
    /// The source ended before its first byte.
    Nothing,
    ReadFail,
    NoMemory,
}

/// The most bytes of a piece.
const MOST_PIECE: usize = 16_384;

/// Takes a source's answers until its bytes are no longer a part of a head, or it ends.
pub(crate) fn hear<S: Source>(alloc: Global, source: &mut S) -> Heard
    ensures { Takes result (S.tells source.old) (S.tells source.new) }
{
    let mut bytes = rd_base::Bytes::new(alloc);
    'pieces: loop {
        match source.give(alloc, MOST_PIECE) {
            Give::Piece(piece) => {
                if bytes.push_slice(piece.as_slice()).is_err() {
                    return Heard::NoMemory;
                }
                if !is_part(bytes.as_slice()) {
                    return Heard::Bytes(bytes);
                }
            }
            Give::End => return ended_with(bytes),
            Give::Failed => return Heard::ReadFail,
            Give::NoMemory => return Heard::NoMemory,
        }
    }
}

/// Whether these bytes are a part of a head, and more may come.
fn is_part(bytes: &[u8]) -> bool
    ensures { result ≡ is_part bytes.now }
{
    match scan_head(Part::Request, bytes) {
        Scan::More => true,
        Scan::Whole(_) => false,
        Scan::Bad => false,
        Scan::TooBig => false,
        Scan::Unsupported(_) => false,
    }
}

/// What came where the source ends behind these bytes.
fn ended_with(bytes: rd_base::Bytes) -> Heard
    ensures { result ≡ ended_with bytes }
{
    if bytes.len() == 0 {
        Heard::Nothing
    } else {
        Heard::Bytes(bytes)
    }
}
