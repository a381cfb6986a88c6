ghost use Rattle.std.specs.Prelude.{◌≡◌, ◌≤◌, ◌<◌, ◌^◌, ℕ, true, length, slice_index, IfOk, IfSome};
ghost use Rattle.std.specs.List.{prefix_len};
ghost use Rattle.std.specs.Char.{is_ascii_hexdigit, digit_value};
ghost use Rattle.std.specs.Str.Parse.{digits_value};
ghost use Rattle.rd_http_frame.specs.Chunks.{line_end, size_line, digits_line, front_chunk, chunk_behind, trailer_from, data_line};

use rd_base::Scan;

/// The most digits of a chunk's size.
const MOST_DIGITS: usize = 8;

/// A size line.
#[derive(Clone, Copy, Debug, PartialEq, Eq)]
pub(crate) struct SizeLine {
    /// The bytes of the line, with its CR LF.
    pub len: usize,
    /// The bytes of data that it tells.
    pub size: usize,
}

/// A chunk, with its size line and the CR LF behind its data. The last is a size line alone.
#[derive(Clone, Copy, Debug, PartialEq, Eq)]
pub(crate) struct Chunk {
    pub len: usize,
    pub is_last: bool,
}

/// Where the trailer begins, or what the bytes come to without a last chunk.
pub(crate) fn trailer_from(bytes: &[u8]) -> Result<usize, Scan>
    ensures from { result ≡ trailer_from bytes.now }
    ensures within { IfOk result (λ at. at ≤ length bytes.now) }
{
    let mut at = 0;
    loop {
        let chunk = front_chunk(&bytes[at..])?;
        at += chunk.len;
        if chunk.is_last {
            return Ok(at);
        }
    }
}

/// The chunk at the front, or what the bytes come to without a whole one.
fn front_chunk(bytes: &[u8]) -> Result<Chunk, Scan>
    ensures chunk { result ≡ front_chunk bytes.now }
    ensures some_bytes { IfOk result (λ chunk. 0 < chunk.len) }
    ensures within { IfOk result (λ chunk. chunk.len ≤ length bytes.now) }
{
    chunk_behind(size_line(bytes)?, bytes)
}

/// The chunk with this size line.
fn chunk_behind(line: SizeLine, bytes: &[u8]) -> Result<Chunk, Scan>
    requires small { line.size < 2 ^ 32 }
    requires line { line.len ≤ length bytes.now }
    requires some_bytes { 0 < line.len }
    ensures chunk { result ≡ chunk_behind bytes.now line }
    ensures some_bytes { IfOk result (λ chunk. 0 < chunk.len) }
    ensures within { IfOk result (λ chunk. chunk.len ≤ length bytes.now) }
{
    if line.size == 0 {
        return Ok(Chunk {
            len: line.len,
            is_last: true,
        });
    }
    let data_end = line.len + line.size;
    if bytes.len() < data_end {
        return Err(Scan::More);
    }
    match line_end(&bytes[data_end..]) {
        Scan::Whole(end) => Ok(Chunk {
            len: data_end + end,
            is_last: false,
        }),
        scan => Err(scan),
    }
}

/// The size line at the front, or what the bytes come to without a whole one.
pub(crate) fn size_line(bytes: &[u8]) -> Result<SizeLine, Scan>
    ensures line { result ≡ size_line bytes.now }
    ensures some_bytes { IfOk result (λ line. 0 < line.len) }
    ensures within { IfOk result (λ line. line.len ≤ length bytes.now) }
    ensures small { IfOk result (λ line. line.size < 2 ^ 32) }
{
    if bytes.is_empty() {
        return Err(Scan::More);
    }
    let count = digits_len(bytes);
    if count < 1 || count > MOST_DIGITS {
        return Err(Scan::Bad);
    }
    match line_end(&bytes[count..]) {
        Scan::Whole(end) => Ok(SizeLine {
            len: count + end,
            size: hex_value(&bytes[..count]),
        }),
        scan => Err(scan),
    }
}

/// What the bytes come to as CR LF.
fn line_end(bytes: &[u8]) -> Scan
    ensures end { result ≡ line_end bytes.now }
{
    match bytes {
        [] | [13] => Scan::More,
        [13, 10, ..] => Scan::Whole(2),
        _ => Scan::Bad,
    }
}

/// The number of hexadecimal digits at the front.
fn digits_len(bytes: &[u8]) -> usize
    ensures value { result ≡ prefix_len is_ascii_hexdigit bytes.now }
    ensures within { result ≤ length bytes.now }
    ensures digits { (k : ℕ) → k < result
        → is_ascii_hexdigit (slice_index bytes.now k) ≡ true }
{
    'bytes: for i in 0..bytes.len() {
        if !bytes[i].is_ascii_hexdigit() {
            return i;
        }
    }
    bytes.len()
}

/// The number that at most eight hexadecimal digits write.
fn hex_value(digits: &[u8]) -> usize
    requires few { length digits.now ≤ 8 }
    requires digits { (k : ℕ) → k < length digits.now
        → is_ascii_hexdigit (slice_index digits.now k) ≡ true }
    ensures value { result ≡ digits_value 16 digits.now }
    ensures small { result < 2 ^ 32 }
{
    let mut size = 0;
    'digits: for i in 0..digits.len() {
        size = size * 16 + digit_value(digits[i]);
    }
    size
}

/// The value of a hexadecimal digit.
fn digit_value(digit: u8) -> usize
    requires { is_ascii_hexdigit digit ≡ true }
    ensures value { result ≡ digit_value digit }
    ensures small { result < 16 }
{
    match digit {
        b'0'..=b'9' => (digit - b'0') as usize,
        b'A'..=b'F' => (digit - b'A') as usize + 10,
        _ => (digit - b'a') as usize + 10,
    }
}

/// The size line at the front where data follows it.
pub(crate) fn data_line(bytes: &[u8]) -> Option<SizeLine>
    ensures line { result ≡ data_line (size_line bytes.now) }
    ensures some_bytes { IfSome result (λ line. 0 < line.len) }
    ensures within { IfSome result (λ line. line.len ≤ length bytes.now) }
    ensures small { IfSome result (λ line. line.size < 2 ^ 32) }
{
    match size_line(bytes) {
        Ok(line) if line.size != 0 => Some(line),
        _ => None,
    }
}
