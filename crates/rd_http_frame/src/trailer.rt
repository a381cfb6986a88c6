ghost use Rattle.rd_base.specs.declared.values.Scan.TheVariants.{Whole};
ghost use Rattle.rd_http_frame.specs.EmptyLines.{EmptyLineSettlesTrailer};
ghost use Rattle.rd_http_frame.specs.Heads.{seen};
ghost use Rattle.std.specs.Prelude.{◌≡◌, ◌≤◌, ℕ, length};
ghost use Rattle.rd_http_frame.specs.Trailers.{IsSectionScan, IsTrailerScan};

use crate::lines::line_feeds;
use crate::scan::{MOST_FIELDS, seen, unfinished};
use httparse::spans::{EMPTY_HEADER_SPAN, parse_headers};
use httparse::{Error, Status};
use rd_base::Scan;

/// What the bytes behind the last size line come to. Of the first 65,536 no more are looked at.
pub(crate) fn scan_trailer(bytes: &[u8]) -> Scan
    ensures scan { IsTrailerScan bytes.now result }

    // Bytes that hold an empty line and begin with no trailer are hopeless.
    ensures empty_line { EmptyLineSettlesTrailer }
    ensures within { (len : ℕ) → result ≡ Whole len → len ≤ length bytes.now }
{
    scan_section(seen(bytes))
}

/// What the bytes come to as field lines and an empty line.
fn scan_section(bytes: &[u8]) -> Scan
    requires { length bytes.now ≤ 65536 }
    ensures scan { IsSectionScan bytes.now result }
    ensures within { (len : ℕ) → result ≡ Whole len → len ≤ length bytes.now }
{
    if line_feeds(bytes, true) > MOST_FIELDS {
        return Scan::TooBig;
    }
    let mut headers = [EMPTY_HEADER_SPAN; MOST_FIELDS];
    match parse_headers(bytes, &mut headers) {
        Ok(Status::Complete((len, _))) => Scan::Whole(len),
        Ok(Status::Partial) => unfinished(bytes),
        Err(Error::TooManyHeaders) => Scan::TooBig,
        Err(_) => Scan::Bad,
    }
}
