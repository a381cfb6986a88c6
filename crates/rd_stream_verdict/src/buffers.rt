ghost use Rattle.std.specs.Prelude.{◌≡◌, ◌≤◌, ◌<◌, ◌-◌, ◌+◌, ◌^◌, ◌↔◌, [], length, map, replicate, slice_get, slice_index_or, Some, None, false, true, IsTrue, IfOk, IfSome, OnOk, OnErr};
ghost use Rattle.std.specs.List.{list_all};
ghost use Rattle.rd_base.specs.Token.{token};
ghost use Rattle.rd_stream_verdict.specs.Said.{at_place};
ghost use Rattle.rd_stream_verdict.specs.Kept.{can_take, waiting_bytes};
ghost use Rattle.rd_stream_verdict.specs.Sharing.{all_behind};
ghost use Rattle.rd_stream_verdict.specs.Heads.{none_behind, only_behind, counted, waits, closed, passed, cleared, heads_with, heads_judged, heads_alone_fault};

use crate::copy::CopyBuffer;
use crate::heads::heads_with;
use crate::judging::{Judged, alone_fault_of, judge_heads};
use crate::shared::{MOST_SHARED_BYTES, SharedToken};
use crate::token::TokenRef;
use rd_base::{MaskLimits, NoMemory, TokenKind, Verdict};
use std::alloc::Global;
use std::marker::Model;

/// What is kept of each copy.
///
/// Where copies are fed the same tokens in turn, a token waits once for all of them.
#[derive(Drop)]
pub(crate) struct Buffers {
    kept: Vec<CopyBuffer>,
    /// The first token that waits of the first `sharers` copies. It is not among those that are kept of each.
    shared: SharedToken,
    sharers: usize,
    /// No copy is closed, and of none another token waits.
    only_shared: bool,
}

impl Model for Buffers {
    ghost use Rattle.std.specs.Prelude.{List};
    ghost use Rattle.rd_stream_verdict.specs.Kept.{CopyKept};

    ghost Value = { List CopyKept };

    ghost use Rattle.rd_stream_verdict.specs.Sharing.{sharing, IsShared};

    ghost view = { λ b. sharing b.sharers b.shared b.kept.items };

    ghost invariant = { λ b. IsShared b.sharers b.only_shared b.kept.items };
}

impl Buffers {
    /// Of so many copies that have said nothing yet.
    pub(crate) fn new(alloc: Global, count: u8) -> Result<Buffers, NoMemory>
        ensures { IfOk result (λ copies. copies
            ≡ replicate count (record { fed = 0; waiting = []; is_whole = false })) }
    {
        let mut kept = Vec::new(alloc);
        for i in 0..count {
            if kept.push(CopyBuffer::new(alloc)).is_err() {
                return Err(NoMemory);
            }
        }
        Ok(Buffers {
            kept,
            shared: SharedToken::new(alloc),
            sharers: 0,
            only_shared: true,
        })
    }

    /// The number of tokens that the copy was fed.
    pub(crate) fn fed(&self, copy: usize) -> u32
        requires { copy < length self.now }
        ensures { IfSome (slice_get self.now copy) (λ c. result ≡ c.fed) }
    {
        self.kept[copy].fed()
    }

    /// Whether the copy is there and may have more tokens.
    pub(crate) fn can_take(&self, copy: usize) -> bool
        ensures { result ≡ can_take (slice_get self.now copy) }
    {
        match self.kept.as_slice().get(copy) {
            Some(kept) => kept.can_take(),
            None => false,
        }
    }

    /// The bytes of the copy's tokens that wait.
    pub(crate) fn bytes(&self, copy: usize) -> usize
        requires { copy < length self.now }
        ensures bytes { result ≡ waiting_bytes (slice_get self.now copy) }
        ensures most { result < 2 ^ 63 + 2 ^ 62 }
    {
        let own = self.kept[copy].bytes();
        if copy < self.sharers {
            self.shared.bytes() + own
        } else {
            own
        }
    }

    /// Whether all copies are closed.
    pub(crate) fn are_whole(&self) -> bool
        ensures { result ≡ list_all (λ c. c.is_whole) self.now }
    {
        are_all_whole(self.kept.as_slice())
    }

    /// Whether this copy is behind, and no other one.
    #[inline(always)]
    pub(crate) fn is_only_behind(&self, copy: usize) -> bool
        requires { copy < length self.now }
        ensures { result ≡ only_behind copy self.now }
    {
        if self.only_shared {
            is_last(copy, self.sharers, self.kept.len())
        } else {
            self.is_only_behind_by_copies(copy)
        }
    }

    /// The same, by what is kept of each copy. It stands apart, so that what runs in turn stays small.
    #[inline(never)]
    fn is_only_behind_by_copies(&self, copy: usize) -> bool
        requires { copy < length self.now }
        ensures { result ≡ only_behind copy self.now }
    {
        if copy < self.sharers {
            false
        } else {
            is_only_behind(&self.kept.as_slice()[self.sharers..], copy - self.sharers)
        }
    }

    /// Whether all copies have this token next, where this copy has it: true only if so.
    #[inline(always)]
    pub(crate) fn are_same_with(&self, copy: usize, token: &TokenRef) -> bool
        requires { copy < length self.now }
        ensures { result ≡ true
            → heads_with copy (Some token.now) self.now
            ≡ replicate (length self.now) (Some token.now) }
    {
        is_last(copy, self.sharers, self.kept.len()) && self.shared.is(token)
    }

    /// What a place comes to where one of the copies has this token, and below which so many places are masked.
    pub(crate) fn judge_with(
        &self,
        copy: usize,
        token: TokenRef,
        most: MaskLimits,
        place: u32,
        masked: usize,
    ) -> Judged
        requires there { copy < length self.now }
        requires three { 3 ≤ length self.now }
        requires few { length self.now ≤ 8 }
        ensures { result ≡ heads_judged most place masked
            (heads_with copy (Some token.entry) self.now) }
    {
        let kept = self.kept.as_slice();
        let heads = heads_with(kept, &self.shared, self.sharers, copy, Some(token));
        judge_heads(heads.as_slice(), most, place, masked)
    }

    /// The fault at a place where one of the copies has no token and another may have one.
    pub(crate) fn alone_fault_with(&self, copy: usize, place: u32) -> Option<Verdict>
        requires there { copy < length self.now }
        requires three { 3 ≤ length self.now }
        requires few { length self.now ≤ 8 }
        ensures { result ≡ heads_alone_fault place (heads_with copy None self.now) }
    {
        let kept = self.kept.as_slice();
        let heads = heads_with(kept, &self.shared, self.sharers, copy, None);
        alone_fault_of(heads.as_slice(), place)
    }

    /// Counts a token of one copy that doesn't wait.
    pub(crate) fn count(&mut self, copy: usize)
        requires there { copy < length self.old }
        requires fewer { IfSome (slice_get self.old copy) (λ c. c.fed < 2 ^ 32 - 1) }
        ensures { self.new ≡ at_place counted copy self.old }
    {
        self.kept[copy].count();
    }

    /// Lets a token of one copy wait.
    #[inline(always)]
    pub(crate) fn wait(&mut self, copy: usize, token: &TokenRef) -> Result<(), NoMemory>
        requires there { copy < length self.old }
        requires fewer { IfSome (slice_get self.old copy) (λ c. c.fed < 2 ^ 32 - 1) }
        ensures ok { OnOk result (self.new ≡ at_place (waits token.now) copy self.old) }
        ensures err { OnErr result (self.new ≡ self.old) }
    {
        if self.only_shared && copy == self.sharers {
            if copy == 0 && token.text.len() <= MOST_SHARED_BYTES {
                self.shared.set(token.kind, token.text)?;
                self.sharers = 1;
                self.kept[copy].count();
                return Ok(());
            }
            if self.shared.is(token) {
                self.sharers = copy + 1;
                self.kept[copy].count();
                return Ok(());
            }
        }
        self.wait_apart(copy, token.kind, token.text)
    }

    /// Lets a token of one copy wait that isn't shared. It stands apart, so that what runs in turn stays small.
    #[inline(never)]
    fn wait_apart(&mut self, copy: usize, kind: TokenKind, text: &[u8]) -> Result<(), NoMemory>
        requires there { copy < length self.old }
        requires fewer { IfSome (slice_get self.old copy) (λ c. c.fed < 2 ^ 32 - 1) }
        ensures ok { OnOk result
            (self.new ≡ at_place (waits (token kind text.now)) copy self.old) }
        ensures err { OnErr result (self.new ≡ self.old) }
    {
        self.kept[copy].wait(&TokenRef::new(kind, text))?;
        self.only_shared = false;
        Ok(())
    }

    pub(crate) fn close(&mut self, copy: usize)
        requires { copy < length self.old }
        ensures { self.new ≡ at_place closed copy self.old }
    {
        self.kept[copy].close();
        self.only_shared = false;
    }

    /// A place was judged: each copy's first token that waits is dropped.
    #[inline(always)]
    pub(crate) fn pass_all(&mut self)
        ensures { self.new ≡ map passed self.old }
    {
        if self.only_shared {
            self.sharers = 0;
        } else {
            self.pass_by_copies();
        }
    }

    /// The same, by what is kept of each copy. It stands apart, so that what runs in turn stays small.
    #[inline(never)]
    fn pass_by_copies(&mut self)
        ensures { self.new ≡ map passed self.old }
    {
        pass_each(&mut self.kept.as_mut_slice()[self.sharers..]);
        self.only_shared = are_all_behind(self.kept.as_slice());
        self.sharers = 0;
    }

    /// A fault was found: all tokens that wait are dropped.
    pub(crate) fn clear_all(&mut self)
        ensures { self.new ≡ map cleared self.old }
    {
        for copy in self.kept.iter_mut() {
            copy.clear();
        }
        self.sharers = 0;
        self.only_shared = false;
    }
}

/// Whether this copy is behind, and no other one.
fn is_only_behind(copies: &[CopyBuffer], copy: usize) -> bool
    requires { copy < length copies.now }
    ensures { result ≡ only_behind copy copies.now }
{
    copies[copy].is_behind()
        && is_none_behind(&copies[copy + 1..])
        && is_none_behind(&copies[..copy])
}

fn is_none_behind(copies: &[CopyBuffer]) -> bool
    ensures { result ≡ none_behind copies.now }
{
    copies.iter().all(|copy| !copy.is_behind())
}

fn are_all_whole(copies: &[CopyBuffer]) -> bool
    ensures { result ≡ list_all (λ c. c.is_whole) copies.now }
{
    copies.iter().all(|copy| copy.is_whole())
}

fn are_all_behind(copies: &[CopyBuffer]) -> bool
    ensures { result ≡ all_behind copies.now }
{
    copies.iter().all(|copy| copy.is_behind())
}

/// Drops each copy's first token that waits.
fn pass_each(copies: &mut [CopyBuffer])
    ensures { copies.new ≡ map passed copies.old }
{
    for copy in copies.iter_mut() {
        copy.pass();
    }
}

/// Whether this copy is the next to share, and no other one is.
#[inline(always)]
fn is_last(copy: usize, sharers: usize, count: usize) -> bool
    requires { copy < count }
    ensures { IsTrue result ↔ (copy ≡ sharers × copy + 1 ≡ count) }
{
    copy == sharers && copy + 1 == count
}
