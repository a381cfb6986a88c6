ghost use Rattle.std.specs.Prelude.{◌≡◌, ◌≤◌, ◌<◌, [], length, MatchOption, true, false};
ghost use Rattle.rd_http_tokens.specs.HttpGrammar.{trailer_at, value_left};
ghost use Rattle.rd_http_tokens.specs.Steps.{IsTrailing};
ghost use Rattle.rd_http_tokens.specs.Tokens.{trailer_tokens, line_len, line_of, is_blank, is_passed, name_of};

use crate::fields::{is_passed, standing, value_piece};
use crate::stage::{Stage, Standing};
use crate::step::{Found, behind};
use crate::text::{from, is_blank, place_of};
use crate::value::{front, is_spent, word_kind};
use rd_base::{NameRules, TokenKind, cut_at};

/// The next token in a trailer, from a stage on.
pub(crate) fn next_in_trailer(names: &NameRules, text: &[u8], stage: Stage) -> Option<Found>
    ensures { MatchOption result
        (trailer_at names.now stage text.now ≡ [])
        (λ f. IsTrailing names.now (λ t. trailer_at names.now stage t) text.now f) }
{
    match stage {
        Stage::AtTrailerValue(now, count) => in_trailer_value(names, text, now, count),
        _ => trailer_step(names, text),
    }
}

/// The next token at a line's beginning in a trailer.
fn trailer_step(names: &NameRules, text: &[u8]) -> Option<Found>
    ensures { MatchOption result
        (trailer_tokens names.now text.now ≡ [])
        (λ f. IsTrailing names.now (λ t. trailer_tokens names.now t) text.now f) }
{
    let mut at = 0;
    while at < text.len() {
        let rest = from(text, at);
        let len = place_of(rest, b'\n');
        if len == rest.len() {
            return None;
        }
        if is_blank(front(rest, len)) {
            return None;
        }
        if let Some(found) = field_name(names, rest, len) {
            return Some(behind(at, found));
        }
        at += len + 1;
    }
    None
}

/// The name of a trailer's field, and None where the field is passed.
fn field_name(names: &NameRules, text: &[u8], len: usize) -> Option<Found>
    requires len { len ≡ line_len text.now }
    requires there { len < length text.now }
    requires some { is_blank (line_of text.now) ≡ false }
    ensures { MatchOption result
        (is_passed names.now (name_of (line_of text.now)) ≡ true)
        (λ f. IsTrailing names.now (λ t. trailer_tokens names.now t) text.now f) }
{
    let line = &text[..len];
    let end = place_of(line, b':');
    let name = &line[..end];
    if is_passed(names, name) {
        return None;
    }
    let value = value_piece(line);
    Some(Found {
        kind: TokenKind::Name,
        start: 0,
        end,
        next: value.start,
        stage: Stage::AtTrailerValue(standing(names, name), value.end - value.start),
    })
}

/// The next token in a value of a trailer's field, of which so many bytes are left.
fn in_trailer_value(names: &NameRules, text: &[u8], now: Standing, count: usize) -> Option<Found>
    ensures { MatchOption result
        (value_left now count text.now (trailer_tokens names.now) ≡ [])
        (λ f. IsTrailing names.now (λ t. value_left now count t (trailer_tokens names.now)) text.now f) }
{
    if count > text.len() {
        return None;
    }
    if !is_spent(now, count) {
        let cut = cut_at(front(text, count), 0);
        return Some(Found {
            kind: word_kind(now, cut.is_soft),
            start: 0,
            end: cut.end,
            next: cut.end,
            stage: Stage::AtTrailerValue(now, count - cut.end),
        });
    }
    let end = from(text, count);
    let len = place_of(end, b'\n');
    if len == end.len() {
        return None;
    }
    let next = count + len + 1;
    match trailer_step(names, from(text, next)) {
        Some(found) => Some(behind(next, found)),
        None => None,
    }
}
