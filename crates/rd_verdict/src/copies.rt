ghost use Rattle.std.specs.Prelude.{◌≡◌, ◌≤◌, ◌<◌, ◌^◌, ◌++◌, [], ◌∷◌, List, length, map, take, All, OnOk, OnErr};
ghost use Rattle.rd_base.specs.Token.{Token, token_of};
ghost use Rattle.rd_base.specs.Verdicts.{longest};
ghost use Rattle.rd_verdict.specs.LiesIn.{LiesIn};

use crate::judging::longest_of;
use crate::spans::Spans;
use crate::tokens::Tokens;
use rd_base::{Bytes, NoMemory};
use std::alloc::Global;
use std::marker::Model;

/// The token lists of at most 8 copies.
#[derive(Drop)]
pub struct Copies {
    kept: Vec<Tokens>,
}

impl Model for Copies {
    ghost use Rattle.std.specs.Prelude.{◌≤◌, List, length};
    ghost use Rattle.rd_base.specs.Token.{Token};

    ghost Value = { List (List Token) };

    ghost view = { λ c. c.kept.items };

    ghost invariant = { λ c. length c.kept.items ≤ 8 };
}

impl Copies {
    /// No copies.
    pub fn new(alloc: Global) -> Copies
        ensures { result ≡ [] }
    {
        Copies {
            kept: Vec::new(alloc),
        }
    }

    /// Adds the next copy: its flat form and the spans of its tokens.
    pub fn push_copy(&mut self, flat: Bytes, spans: Spans) -> Result<(), NoMemory>
        requires within { All (LiesIn (length flat)) spans }
        requires count { length spans < 2 ^ 32 }
        requires room { length self.old < 8 }
        ensures ok { OnOk result (self.new ≡ self.old ++ map (token_of flat) spans ∷ []) }
        ensures err { OnErr result (self.new ≡ self.old) }
    {
        match self.kept.push(Tokens::new(flat, spans)) {
            Ok(()) => Ok(()),
            Err(_) => Err(NoMemory),
        }
    }

    /// The number of copies, at most 8.
    pub fn len(&self) -> usize
        ensures count { result ≡ length self.now }
        ensures most { result ≤ 8 }
    {
        self.kept.len()
    }

    /// The number of tokens of the longest list.
    pub fn longest(&self) -> usize
        ensures { result ≡ longest self.now }
    {
        longest_of(self.lists())
    }

    /// Cuts every list to its first so many tokens.
    pub fn cut_to(&mut self, count: usize)
        ensures { self.new ≡ map (take count) self.old }
    {
        for tokens in self.kept.iter_mut() {
            tokens.truncate(count);
        }
    }

    pub(crate) fn lists(&self) -> &[Tokens]
        ensures lists { result.now ≡ self.now }
        ensures few { length result.now ≤ 8 }
    {
        self.kept.as_slice()
    }
}
