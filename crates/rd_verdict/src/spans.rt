ghost use Rattle.std.specs.Prelude.{◌≡◌, ◌++◌, [], ◌∷◌, List, length, take, OnOk, OnErr};
ghost use Rattle.rd_base.specs.declared.values.TokenSpan.{TokenSpan};

use rd_base::{NoMemory, TokenSpan};
use std::alloc::Global;
use std::marker::Model;

/// A list of spans.
#[derive(Drop)]
pub struct Spans {
    kept: Vec<TokenSpan>,
}

impl Model for Spans {
    ghost use Rattle.std.specs.Prelude.{List};
    ghost use Rattle.rd_base.specs.declared.values.TokenSpan.{TokenSpan};

    ghost Value = { List TokenSpan };

    ghost view = { λ s. s.kept.items };
}

impl Spans {
    /// The empty list.
    pub fn new(alloc: Global) -> Spans
        ensures { result ≡ [] }
    {
        Spans {
            kept: Vec::new(alloc),
        }
    }

    /// Appends a span.
    pub fn push(&mut self, span: TokenSpan) -> Result<(), NoMemory>
        ensures ok { OnOk result (self.new ≡ self.old ++ span ∷ []) }
        ensures err { OnErr result (self.new ≡ self.old) }
    {
        match self.kept.push(span) {
            Ok(()) => Ok(()),
            Err(_) => Err(NoMemory),
        }
    }

    pub fn len(&self) -> usize
        ensures { result ≡ length self.now }
    {
        self.kept.len()
    }

    pub(crate) fn as_slice(&self) -> &[TokenSpan]
        ensures { result.now ≡ self.now }
    {
        self.kept.as_slice()
    }

    /// Drops all spans past the first so many.
    pub(crate) fn truncate(&mut self, count: usize)
        ensures { self.new ≡ take count self.old }
    {
        self.kept.truncate(count);
    }
}
