ghost use Rattle.std.specs.Prelude.{◌≡◌, ◌≤◌, ◌+◌, take, drop, length, false};
ghost use Rattle.rd_http_frame.specs.Fronts.{place_of, front_len, line_feeds, after_front};

/// The bytes past the line ends at the front.
pub(crate) fn after_front(bytes: &[u8]) -> &[u8]
    ensures { result.now ≡ after_front bytes.now }
{
    let at = front_len(bytes);
    &bytes[at..]
}

/// The number of bytes CR and LF at the front.
pub(crate) fn front_len(bytes: &[u8]) -> usize
    ensures value { result ≡ front_len bytes.now }
    ensures within { result ≤ length bytes.now }
{
    'bytes: for i in 0..bytes.len() {
        if bytes[i] != 13 && bytes[i] != 10 {
            return i;
        }
    }
    bytes.len()
}

/// The line feeds before the first empty line. `begins` says whether a line begins with these bytes.
pub(crate) fn line_feeds(text: &[u8], begins: bool) -> usize
    ensures { result ≡ line_feeds (place_of begins false) text.now }
{
    let mut count = 0;
    let mut at_start = begins;
    let mut after_cr = false;
    'bytes: for i in 0..text.len() {
        let b = text[i];
        if b == 10 {
            if at_start {
                return count;
            }
            count += 1;
            at_start = true;
            after_cr = false;
        } else if b == 13 && at_start && !after_cr {
            after_cr = true;
        } else {
            at_start = false;
            after_cr = false;
        }
    }
    count
}

/// The first bytes, or all.
pub(crate) fn front(bytes: &[u8], count: usize) -> &[u8]
    ensures { result.now ≡ take count bytes.now }
{
    if count < bytes.len() {
        &bytes[..count]
    } else {
        bytes
    }
}

/// What is behind the first bytes.
pub(crate) fn behind_front(bytes: &[u8], count: usize) -> &[u8]
    ensures { result.now ≡ drop count bytes.now }
{
    if count < bytes.len() {
        &bytes[count..]
    } else {
        &[]
    }
}
