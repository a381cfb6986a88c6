ghost use Rattle.std.specs.Prelude.{◌≡◌, ◌≤◌, length};
ghost use Rattle.rd_pg_tokens.specs.Pieces.{named_len, read_len};

use crate::piece::shown_under;
use crate::text::{from, text_len};
use rd_base::NameRules;
use rd_pg_frame::be_u16_at;

/// The bytes of a column behind its name: the name's zero byte, its table, its place there and its type.
pub(crate) const BEHIND_NAME: usize = 19;

/// How many bytes of a row description rows read: up to the last name under a rule, since behind it no name says
/// anything of a value.
pub(crate) fn read_len(rules: &NameRules, content: &[u8]) -> usize
    ensures len { result ≡ read_len rules.now content.now }
    ensures within { result ≤ length content.now }
{
    if content.len() < 2 {
        return 0;
    }
    2 + named_len(rules, be_u16_at(content, 0) as usize, from(content, 2))
}

/// Where the last name under a rule ends, of so many columns.
fn named_len(rules: &NameRules, count: usize, names: &[u8]) -> usize
    ensures len { result ≡ named_len rules.now count names.now }
    ensures within { result ≤ length names.now }
{
    if rules.firm.len() == 0 && rules.free.len() == 0 {
        return 0;
    }
    let mut named = 0;
    let mut at = 0;
    for _ in 0..count {
        let rest = from(names, at);
        let len = text_len(rest);
        if len == rest.len() {
            return named;
        }
        if !shown_under(rules, &rest[..len]).is_soft() {
            named = at + len + 1;
        }
        at = (at + len + BEHIND_NAME).min(names.len());
    }
    named
}
