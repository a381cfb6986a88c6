ghost use Rattle.std.specs.Prelude.{◌≡◌, ◌≤◌, ◌<◌, ◌^◌, ◌+◌, [], length, MatchOption, true, false, Bool};
ghost use Rattle.rd_http_tokens.specs.Tokens.{lines, has_line, line_len, is_blank, line_of, is_passed, name_of};
ghost use Rattle.rd_http_tokens.specs.Steps.{IsFound, shifted, span_of};

use crate::fields::{body_kind, is_passed, standing, state, value_piece};
use crate::stage::{Stage, Standing, Stated};
use crate::text::{from, is_blank, place_of};
use rd_base::{NameRules, TokenKind, TokenSpan};
use rd_body_tokens::Place;

/// A token of a text, where what follows it begins, and at which stage.
#[derive(Clone, Copy)]
pub struct Found {
    pub kind: TokenKind,
    pub start: usize,
    pub end: usize,
    pub next: usize,
    pub stage: Stage,
}

impl Found {
    pub(crate) fn span(self) -> TokenSpan
        requires ordered { self.start ≤ self.end }
        requires small { self.end < 2 ^ 32 }
        ensures { result ≡ span_of self }
    {
        TokenSpan {
            kind: self.kind,
            start: self.start as u32,
            end: self.end as u32,
        }
    }
}

/// The next token at a line's beginning in a head.
pub(crate) fn line_step(
    names: &NameRules,
    text: &[u8],
    whole: bool,
    stated: Stated,
) -> Option<Found>
    ensures { MatchOption result
        (lines names.now stated whole text.now ≡ [])
        (λ f. IsFound names.now (λ all t. lines names.now stated all t) whole text.now f) }
{
    let mut at = 0;
    let mut said = stated;
    while at < text.len() {
        let rest = from(text, at);
        let len = place_of(rest, b'\n');
        if len == rest.len() {
            return None;
        }
        if let Some(found) = told_line(names, rest, len, said) {
            return Some(behind(at, found));
        }
        said = state(said, &rest[..len]);
        at += len + 1;
    }
    None
}

/// The token at a line, and None where its field is passed.
fn told_line(names: &NameRules, text: &[u8], len: usize, stated: Stated) -> Option<Found>
    requires len { len ≡ line_len text.now }
    requires there { len < length text.now }
    ensures { MatchOption result
        ((is_blank (line_of text.now) ≡ false) × (is_passed names.now (name_of (line_of text.now)) ≡ true))
        (λ f. (whole : Bool) → IsFound names.now (λ all t. lines names.now stated all t) whole text.now f) }
{
    let line = &text[..len];
    if is_blank(line) {
        return Some(Found {
            kind: TokenKind::Firm,
            start: len + 1,
            end: len + 1,
            next: len + 1,
            stage: Stage::AtBody(body_kind(stated), Standing::Plain, Place::Fresh),
        });
    }
    let name_end = place_of(line, b':');
    let name = &line[..name_end];
    if is_passed(names, name) {
        return None;
    }
    let said = state(stated, line);
    let value = value_piece(line);
    Some(Found {
        kind: TokenKind::Name,
        start: 0,
        end: name_end,
        next: value.start,
        stage: Stage::AtValue(standing(names, name), value.end - value.start, said),
    })
}

/// The same behind so many bytes.
pub(crate) fn behind(at: usize, found: Found) -> Found
    requires ends { at + found.end < 2 ^ 64 }
    requires starts { at + found.start < 2 ^ 64 }
    requires nexts { at + found.next < 2 ^ 64 }
    ensures { result ≡ shifted at found }
{
    Found {
        kind: found.kind,
        start: at + found.start,
        end: at + found.end,
        next: at + found.next,
        stage: found.stage,
    }
}
