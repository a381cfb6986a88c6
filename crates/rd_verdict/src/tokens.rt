ghost use Rattle.std.specs.Prelude.{◌≡◌, ◌≤◌, ◌<◌, ◌^◌, List, ℕ, true, length, map, take, slice_get, slice_range, bytes_eq, All, IsTrue, ◌↔◌};
ghost use Rattle.rd_base.specs.Token.{Token, token_of, text_of};
ghost use Rattle.rd_base.specs.Verdicts.{same, is_soft, is_long, one_alone, text_or_none};
ghost use Rattle.rd_verdict.specs.LiesIn.{LiesIn};

use crate::spans::Spans;
use rd_base::{Bytes, TokenKind, TokenSpan};
use std::marker::Model;

/// A flat form that is cut into tokens.
#[derive(Drop)]
pub(crate) struct Tokens {
    flat: Bytes,
    spans: Spans,
}

impl Model for Tokens {
    ghost use Rattle.std.specs.Prelude.{◌<◌, ◌^◌, List, length, map, All};
    ghost use Rattle.rd_base.specs.Token.{Token, token_of};
    ghost use Rattle.rd_verdict.specs.LiesIn.{LiesIn, IsCutFrom};

    ghost Value = { List Token };

    ghost view = { λ t. map (token_of t.flat) t.spans };

    ghost invariant = { λ t. IsCutFrom t.flat t.spans };
}

impl Tokens {
    /// The tokens that the spans cut out of a flat form.
    pub(crate) fn new(flat: Bytes, spans: Spans) -> Tokens
        requires within { All (LiesIn (length flat)) spans }
        requires count { length spans < 2 ^ 32 }
        ensures { result ≡ map (token_of flat) spans }
    {
        Tokens { flat, spans }
    }

    /// The number of tokens.
    pub(crate) fn len(&self) -> usize
        ensures count { result ≡ length self.now }
        ensures most { result < 2 ^ 32 }
    {
        self.spans.len()
    }

    /// Drops all tokens past the first so many.
    pub(crate) fn truncate(&mut self, count: usize)
        ensures { self.new ≡ take count self.old }
    {
        self.spans.truncate(count);
    }

    pub(crate) fn is_soft_at(&self, place: usize) -> bool
        ensures { result ≡ is_soft (slice_get self.now place) }
    {
        match self.spans.as_slice().get(place) {
            Some(span) => span.kind == TokenKind::Soft,
            None => false,
        }
    }

    /// Whether there is a token there of more than so many bytes.
    pub(crate) fn is_long_at(&self, place: usize, most: u8) -> bool
        ensures { result ≡ is_long most (slice_get self.now place) }
    {
        match self.spans.as_slice().get(place) {
            Some(span) => span.end - span.start > most as u32,
            None => false,
        }
    }

    /// Whether both have the same token there, or neither has one.
    pub(crate) fn is_same_at(&self, other: &Tokens, place: usize) -> bool
        ensures { result ≡ same (slice_get self.now place) (slice_get other.now place) }
    {
        match (
            self.spans.as_slice().get(place),
            other.spans.as_slice().get(place),
        ) {
            (Some(a), Some(b)) => {
                a.kind == b.kind
                    && is_same_text(
                        a.kind,
                        bytes_of(self.flat.as_slice(), a),
                        bytes_of(other.flat.as_slice(), b),
                    )
            }
            (None, None) => true,
            _ => false,
        }
    }

    /// Whether one of the two has a token there and the other has none.
    pub(crate) fn is_alone_at(&self, other: &Tokens, place: usize) -> bool
        ensures { result ≡ one_alone (slice_get self.now place) (slice_get other.now place) }
    {
        (place < self.spans.len()) != (place < other.spans.len())
    }

    /// The bytes of the Soft token there.
    pub(crate) fn word_at(&self, place: usize) -> &[u8]
        requires { is_soft (slice_get self.now place) ≡ true }
        ensures { result.now ≡ text_or_none (slice_get self.now place) }
    {
        bytes_of(self.flat.as_slice(), &self.spans.as_slice()[place])
    }
}

/// The bytes of a span.
fn bytes_of<'a>(flat: &'a [u8], span: &TokenSpan) -> &'a [u8]
    requires { LiesIn (length flat.now) span.now }
    ensures { result.now ≡ slice_range flat.now span.now.start span.now.end }
{
    &flat[span.start as usize..span.end as usize]
}

/// Whether two tokens of a kind count as the same bytes.
fn is_same_text(kind: TokenKind, a: &[u8], b: &[u8]) -> bool
    ensures { result ≡ bytes_eq (text_of kind a.now) (text_of kind b.now) }
{
    match kind {
        TokenKind::Soft | TokenKind::Firm => a == b,
        TokenKind::Name => a.eq_ignore_ascii_case(b),
    }
}
