ghost use Rattle.std.specs.Prelude.{◌≡◌, ◌≤◌, length, drop, slice_range};
ghost use Rattle.rd_pg_tokens.specs.Pieces.{text_len};

use memchr::memchr;

/// The bytes before the first zero byte, or all of them.
pub(crate) fn text_len(bytes: &[u8]) -> usize
    ensures len { result ≡ text_len bytes.now }
    ensures within { result ≤ length bytes.now }
{
    match memchr(0, bytes) {
        Some(at) => at,
        None => bytes.len(),
    }
}

/// What stands from a place on.
pub(crate) fn from(bytes: &[u8], at: usize) -> &[u8]
    requires { at ≤ length bytes.now }
    ensures { result.now ≡ drop at bytes.now }
{
    &bytes[at..]
}

/// What stands from one place to another.
pub(crate) fn range(bytes: &[u8], at: usize, end: usize) -> &[u8]
    requires { end ≤ length bytes.now }
    ensures { result.now ≡ slice_range bytes.now at end }
{
    if at > end {
        &bytes[..0]
    } else {
        &bytes[at..end]
    }
}
