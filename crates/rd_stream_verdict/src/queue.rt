ghost use Rattle.std.specs.Prelude.{◌≡◌, ◌<◌, ◌^◌, ◌++◌, [], ◌∷◌, drop, slice_get, OnOk, OnErr};
ghost use Rattle.rd_base.specs.Token.{token};
ghost use Rattle.rd_base.specs.Words.{is_empty};
ghost use Rattle.rd_stream_verdict.specs.Queue.{bytes_in};

use crate::token::TokenRef;
use rd_base::{NoMemory, TokenKind};
use std::alloc::Global;
use std::collections::VecDeque;
use std::marker::Model;

/// The kind and the length of a token that waits.
#[derive(Clone, Copy)]
pub(crate) struct Cut {
    pub(crate) kind: TokenKind,
    pub(crate) len: usize,
}

/// Tokens that wait: their joined bytes stand past the first `start`, in a buffer whose room is used again.
#[derive(Drop)]
pub(crate) struct TokenQueue {
    flat: Vec<u8>,
    start: usize,
    cuts: VecDeque<Cut>,
}

impl Model for TokenQueue {
    ghost use Rattle.std.specs.Prelude.{List, drop};
    ghost use Rattle.rd_base.specs.Token.{Token};
    ghost use Rattle.rd_stream_verdict.specs.Queue.{tokens_of, IsFilled};

    ghost Value = { List Token };

    ghost view = { λ q. tokens_of (drop q.start q.flat.items) q.cuts.items };

    ghost invariant = { λ q. IsFilled q.flat.items q.start q.cuts.items };
}

impl TokenQueue {
    /// No tokens.
    pub(crate) fn new(alloc: Global) -> TokenQueue
        ensures { result ≡ [] }
    {
        TokenQueue {
            flat: Vec::new(alloc),
            start: 0,
            cuts: VecDeque::new(alloc),
        }
    }

    pub(crate) fn is_empty(&self) -> bool
        ensures { result ≡ is_empty self.now }
    {
        self.cuts.front().is_none()
    }

    /// Appends a token.
    pub(crate) fn push(&mut self, token: &TokenRef) -> Result<(), NoMemory>
        ensures ok { OnOk result (self.new ≡ self.old ++ token.now ∷ []) }
        ensures err { OnErr result (self.new ≡ self.old) }
    {
        let cut = Cut {
            kind: token.kind,
            len: token.text.len(),
        };
        if self.cuts.push_back(cut).is_err() {
            return Err(NoMemory);
        }
        match self.flat.extend_from_slice(token.text) {
            Ok(()) => Ok(()),
            Err(_) => {
                let _cut = self.cuts.pop_back();
                Err(NoMemory)
            }
        }
    }

    /// Drops the first token. The room before the rest is given back once it is no less than what the rest takes.
    pub(crate) fn pop(&mut self)
        ensures { self.new ≡ drop 1 self.old }
    {
        let end = self.flat.len();
        if let Some(cut) = self.cuts.pop_front() {
            self.start += cut.len;
            let rest = end - self.start;
            if self.start >= rest {
                self.flat.rotate_left(self.start);
                self.flat.truncate(rest);
                self.start = 0;
            }
        }
    }

    /// The first token.
    pub(crate) fn head(&self) -> Option<TokenRef<'_>>
        ensures { result ≡ slice_get self.now 0 }
    {
        match self.cuts.front() {
            Some(cut) => Some(TokenRef {
                kind: cut.kind,
                text: &self.flat.as_slice()[self.start..self.start + cut.len],
            }),
            None => None,
        }
    }

    /// The number of bytes of the tokens.
    pub(crate) fn bytes(&self) -> usize
        ensures bytes { result ≡ bytes_in self.now }
        ensures most { result < 2 ^ 63 }
    {
        self.flat.len() - self.start
    }

    /// Drops all tokens.
    pub(crate) fn clear(&mut self)
        ensures { self.new ≡ [] }
    {
        self.flat.clear();
        self.start = 0;
        self.cuts.clear();
    }
}
