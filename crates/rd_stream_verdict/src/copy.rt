ghost use Rattle.std.specs.Prelude.{◌≡◌, ◌<◌, ◌-◌, ◌^◌, [], slice_get, Some, false, OnOk, OnErr};
ghost use Rattle.rd_stream_verdict.specs.Kept.{can_take};
ghost use Rattle.rd_stream_verdict.specs.Queue.{bytes_in};
ghost use Rattle.rd_stream_verdict.specs.Heads.{is_behind, counted, waits, closed, passed, cleared};

use crate::queue::TokenQueue;
use crate::token::TokenRef;
use rd_base::NoMemory;
use std::alloc::Global;
use std::marker::Model;

/// What is kept of one copy.
#[derive(Drop)]
pub(crate) struct CopyBuffer {
    fed: u32,
    is_whole: bool,
    waiting: TokenQueue,
}

impl Model for CopyBuffer {
    ghost use Rattle.rd_stream_verdict.specs.Kept.{CopyKept};

    ghost Value = { CopyKept };

    ghost view = { λ c. record { fed = c.fed; waiting = c.waiting; is_whole = c.is_whole } };
}

impl CopyBuffer {
    /// Of a copy that has said nothing yet.
    pub(crate) fn new(alloc: Global) -> CopyBuffer
        ensures { result ≡ record { fed = 0; waiting = []; is_whole = false } }
    {
        CopyBuffer {
            fed: 0,
            waiting: TokenQueue::new(alloc),
            is_whole: false,
        }
    }

    /// The number of tokens that it was fed.
    pub(crate) fn fed(&self) -> u32
        ensures { result ≡ self.now.fed }
    {
        self.fed
    }

    pub(crate) fn is_whole(&self) -> bool
        ensures { result ≡ self.now.is_whole }
    {
        self.is_whole
    }

    /// Whether it may be fed: it isn't closed, and was fed fewer than 2^32-1 tokens.
    pub(crate) fn can_take(&self) -> bool
        ensures { result ≡ can_take (Some self.now) }
    {
        !self.is_whole && self.fed < u32::MAX
    }

    /// Whether it must say more before the next place is judged.
    pub(crate) fn is_behind(&self) -> bool
        ensures { result ≡ is_behind self.now }
    {
        !self.is_whole && self.waiting.is_empty()
    }

    /// The first token that waits.
    pub(crate) fn head(&self) -> Option<TokenRef<'_>>
        ensures { result ≡ slice_get self.now.waiting 0 }
    {
        self.waiting.head()
    }

    /// The bytes of the tokens that wait.
    pub(crate) fn bytes(&self) -> usize
        ensures bytes { result ≡ bytes_in self.now.waiting }
        ensures most { result < 2 ^ 63 }
    {
        self.waiting.bytes()
    }

    /// Lets a token wait.
    pub(crate) fn wait(&mut self, token: &TokenRef) -> Result<(), NoMemory>
        requires { self.old.fed < 2 ^ 32 - 1 }
        ensures ok { OnOk result (self.new ≡ waits token.now self.old) }
        ensures err { OnErr result (self.new ≡ self.old) }
    {
        self.waiting.push(token)?;
        self.fed += 1;
        Ok(())
    }

    /// Counts a token that doesn't wait.
    pub(crate) fn count(&mut self)
        requires { self.old.fed < 2 ^ 32 - 1 }
        ensures { self.new ≡ counted self.old }
    {
        self.fed += 1;
    }

    pub(crate) fn close(&mut self)
        ensures { self.new ≡ closed self.old }
    {
        self.is_whole = true;
    }

    /// Drops the first token that waits.
    pub(crate) fn pass(&mut self)
        ensures { self.new ≡ passed self.old }
    {
        self.waiting.pop();
    }

    /// Drops the tokens that wait.
    pub(crate) fn clear(&mut self)
        ensures { self.new ≡ cleared self.old }
    {
        self.waiting.clear();
    }
}
