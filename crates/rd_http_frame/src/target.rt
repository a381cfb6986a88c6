ghost use Rattle.std.specs.Prelude.{◌≡◌, ◌≤◌, length, IsTrue};
ghost use Rattle.std.specs.List.{prefix_len, list_all};
ghost use Rattle.httparse.specs.Grammar.{is_token_byte};
ghost use Rattle.rd_http_frame.specs.Fronts.{is_in_target, target_so_far, is_target_byte, goes_on};

use httparse::is_method_token;

/// The number of bytes of a method at the front.
fn method_len(text: &[u8]) -> usize
    ensures value { result ≡ prefix_len is_token_byte text.now }
    ensures within { result ≤ length text.now }
{
    'bytes: for i in 0..text.len() {
        if !is_method_token(text[i]) {
            return i;
        }
    }
    text.len()
}

/// Whether the bytes have no space, CR or LF.
fn no_break_or_space(bytes: &[u8]) -> bool
    ensures { result ≡ list_all goes_on bytes.now }
{
    bytes.iter().all(|b| *b != 32 && *b != 13 && *b != 10)
}

/// Whether each byte is visible ASCII, 21 to 7E.
pub(crate) fn is_visible(bytes: &[u8]) -> bool
    ensures { result ≡ list_all is_target_byte bytes.now }
{
    bytes.iter().all(|b| *b > 32 && *b < 127)
}

/// Whether the bytes are a method, a space, and a target whose end hasn't come.
pub(crate) fn is_in_target(text: &[u8]) -> bool
    ensures { result ≡ is_in_target text.now }
{
    let n = method_len(text);
    n > 0 && n < text.len() && text[n] == 32 && no_break_or_space(&text[n + 1..])
}

/// Whether the target, as far as it has come, is visible ASCII.
pub(crate) fn is_good_target(text: &[u8]) -> bool
    requires { IsTrue (is_in_target text.now) }
    ensures { result ≡ list_all is_target_byte (target_so_far text.now) }
{
    let n = method_len(text);
    if n >= text.len() {
        return true;
    }
    is_visible(&text[n + 1..])
}
