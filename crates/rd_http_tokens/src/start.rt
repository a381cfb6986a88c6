ghost use Rattle.std.specs.Prelude.{◌≡◌, ◌≤◌, ◌<◌, ◌+◌, ◌^◌, ℕ, List, Bool, [], length, MatchOption};
ghost use Rattle.rd_base.specs.declared.names.NameRules.{NameRules};
ghost use Rattle.rd_base.specs.declared.values.Part.TheVariants.{Request, Reply};
ghost use Rattle.rd_http_tokens.specs.StartSteps.{BeginsHead, StartsLine};
ghost use Rattle.rd_http_tokens.specs.Tokens.{head_tokens, line_len, unstated};

use crate::http::front_len;
use crate::stage::{Stage, Standing, Stated};
use crate::step::{Found, behind};
use crate::text::{from, place_of};
use rd_base::{Part, TokenKind};

/// The token of a head's start line.
pub(crate) fn start_step(part: Part, text: &[u8]) -> Option<Found>
    ensures { MatchOption result
        ((names : NameRules) (whole : Bool) → head_tokens names part whole text.now ≡ [])
        (λ f. BeginsHead part text.now f) }
{
    let front = front_len(text);
    let rest = from(text, front);
    let len = place_of(rest, b'\n');
    if len == rest.len() {
        return None;
    }
    Some(behind(front, start_line(part, rest, len)))
}

/// The token of the start line at the front of a text.
fn start_line(part: Part, text: &[u8], len: usize) -> Found
    requires len { len ≡ line_len text.now }
    requires there { len < length text.now }
    ensures { StartsLine part text.now result }
{
    match part {
        Part::Request => method(text, len),
        Part::Reply => status(len),
    }
}

/// A request's method, with its target before it.
fn method(text: &[u8], len: usize) -> Found
    requires len { len ≡ line_len text.now }
    requires there { len < length text.now }
    ensures { StartsLine Request text.now result }
{
    let line = &text[..len];
    let end = place_of(line, b' ');
    let next = if end < len { end + 1 } else { len };
    let count = place_of(from(line, next), b' ');
    Found {
        kind: TokenKind::Firm,
        start: 0,
        end,
        next,
        stage: Stage::AtValue(Standing::Plain, count, unstated()),
    }
}

/// A reply's three digits, of a line of so many bytes.
fn status(len: usize) -> Found
    requires { len + 1 < 2 ^ 64 }
    ensures { (text : List ℕ) → len ≡ line_len text → len < length text
        → StartsLine Reply text result }
{
    Found {
        kind: TokenKind::Firm,
        start: len.min(9),
        end: len.min(12),
        next: len + 1,
        stage: Stage::AtLine(unstated()),
    }
}

/// What no field has said.
fn unstated() -> Stated
    ensures { result ≡ unstated }
{
    Stated {
        kind: None,
        coded: false,
    }
}
