ghost use Rattle.std.specs.Prelude.{◌≡◌, bytes_eq, true};
ghost use Rattle.rd_base.specs.Token.{token, text_of};
ghost use Rattle.rd_base.specs.Verdicts.{same, same_token, is_soft, is_long, one_alone, text_or_none};

use rd_base::TokenKind;
use std::marker::Model;

/// A token whose bytes stand elsewhere.
#[derive(Drop)]
pub(crate) struct TokenRef<'a> {
    pub(crate) kind: TokenKind,
    pub(crate) text: &'a [u8],
}

impl<'a> Model for TokenRef<'a> {
    ghost use Rattle.rd_base.specs.Token.{Token, token};

    ghost Value = { Token };

    ghost view = { λ t. token t.kind t.text.now };
}

impl<'a> TokenRef<'a> {
    #[inline(always)]
    pub(crate) fn new(kind: TokenKind, text: &'a [u8]) -> TokenRef<'a>
        ensures { result ≡ token kind text.now }
    {
        TokenRef { kind, text }
    }

    #[inline(always)]
    pub(crate) fn is_same(&self, other: &TokenRef) -> bool
        ensures { result ≡ same_token self.now other.now }
    {
        self.kind == other.kind && is_same_text(self.kind, self.text, other.text)
    }
}

/// Whether two tokens of a kind count as the same bytes.
#[inline(always)]
fn is_same_text(kind: TokenKind, a: &[u8], b: &[u8]) -> bool
    ensures { result ≡ bytes_eq (text_of kind a.now) (text_of kind b.now) }
{
    match kind {
        TokenKind::Soft | TokenKind::Firm => a == b,
        TokenKind::Name => a.eq_ignore_ascii_case(b),
    }
}

/// Whether both are the same token, or both are none.
pub(crate) fn is_same(a: &Option<TokenRef>, b: &Option<TokenRef>) -> bool
    ensures { result ≡ same a.now b.now }
{
    match (a, b) {
        (Some(a), Some(b)) => a.is_same(b),
        (None, None) => true,
        _ => false,
    }
}

/// Whether one of the two is a token and the other is none.
pub(crate) fn is_one_alone(a: &Option<TokenRef>, b: &Option<TokenRef>) -> bool
    ensures { result ≡ one_alone a.now b.now }
{
    a.is_some() != b.is_some()
}

pub(crate) fn is_soft(head: &Option<TokenRef>) -> bool
    ensures { result ≡ is_soft head.now }
{
    match head {
        Some(token) => token.kind == TokenKind::Soft,
        None => false,
    }
}

/// Whether it is a token of more than so many bytes.
pub(crate) fn is_long(head: &Option<TokenRef>, most: u8) -> bool
    ensures { result ≡ is_long most head.now }
{
    match head {
        Some(token) => token.text.len() > most as usize,
        None => false,
    }
}

/// The bytes of a token that isn't a Name.
pub(crate) fn word<'a>(head: &Option<TokenRef<'a>>) -> &'a [u8]
    requires { is_soft head.now ≡ true }
    ensures { result.now ≡ text_or_none head.now }
{
    match head {
        Some(token) => token.text,
        None => &[],
    }
}
