ghost use Rattle.std.specs.Prelude.{◌≡◌, ◌≤◌, ◌^◌, length, OnOk};
ghost use Rattle.rd_base.specs.Token.{token};
ghost use Rattle.rd_base.specs.Verdicts.{same_token};

use crate::token::TokenRef;
use rd_base::{NoMemory, TokenKind};
use std::alloc::Global;
use std::marker::Model;

/// The most bytes of a token that is shared, so that the bytes kept of a copy can be summed in 64 bits.
pub(crate) const MOST_SHARED_BYTES: usize = 1 << 62;

/// A token that several copies share: its kind and its bytes, at most 2^62, in a buffer whose room is used again.
#[derive(Drop)]
pub(crate) struct SharedToken {
    kind: TokenKind,
    text: Vec<u8>,
}

impl Model for SharedToken {
    ghost use Rattle.std.specs.Prelude.{◌≤◌, ◌^◌, length};
    ghost use Rattle.rd_base.specs.Token.{Token, token};

    ghost Value = { Token };

    ghost view = { λ s. token s.kind s.text.items };

    ghost invariant = { λ s. length s.text.items ≤ 2 ^ 62 };
}

impl SharedToken {
    /// Some token of no bytes.
    pub(crate) fn new(alloc: Global) -> SharedToken {
        SharedToken {
            kind: TokenKind::Soft,
            text: Vec::new(alloc),
        }
    }

    /// Makes it the token of this kind and these bytes. After an answer of want of memory it is some token.
    #[inline(never)]
    pub(crate) fn set(&mut self, kind: TokenKind, text: &[u8]) -> Result<(), NoMemory>
        requires { length text.now ≤ 2 ^ 62 }
        ensures { OnOk result (self.new ≡ token kind text.now) }
    {
        self.kind = kind;
        self.text.clear();
        match self.text.extend_from_slice(text) {
            Ok(()) => Ok(()),
            Err(_) => Err(NoMemory),
        }
    }

    #[inline(always)]
    pub(crate) fn token(&self) -> TokenRef<'_>
        ensures { result ≡ self.now }
    {
        TokenRef {
            kind: self.kind,
            text: self.text.as_slice(),
        }
    }

    /// Whether it is this token.
    #[inline(always)]
    pub(crate) fn is(&self, token: &TokenRef) -> bool
        ensures { result ≡ same_token self.now token.now }
    {
        self.token().is_same(token)
    }

    /// The number of its bytes.
    pub(crate) fn bytes(&self) -> usize
        ensures bytes { result ≡ length self.now.text }
        ensures most { result ≤ 2 ^ 62 }
    {
        self.text.len()
    }
}
