ghost use Rattle.std.specs.Prelude.{◌≡◌, ◌≤◌, ◌<◌, ◌-◌, ◌+◌, ◌^◌, ◌++◌, [], ◌∷◌, option_to_list, All, ℕ, List, length, true, false, IfOk, IfSome, OnOk, OnErr, Some, slice_get};
ghost use Rattle.std.specs.List.{AllPairs, list_all};
ghost use Rattle.rd_base.specs.Limits.{AreMaskLimits};
ghost use Rattle.rd_base.specs.Heard.{Heard, lists_of};
ghost use Rattle.rd_base.specs.Token.{token};
ghost use Rattle.rd_base.specs.Verdicts.{verdict, rows_at, is_agreed, mask_of};
ghost use Rattle.rd_base.specs.declared.verdict.Verdict.TheVariants.{Agreed};
ghost use Rattle.rd_stream_verdict.specs.Heads.{only_behind};
ghost use Rattle.rd_stream_verdict.specs.Said.{nothing_said, answer};
ghost use Rattle.rd_stream_verdict.specs.Kept.{IsAt, HasHeard, HasClosed, kept_answer, can_take, agrees, kept_bytes, unjudged_bytes, row_bytes, HaveWords};

use crate::buffers::Buffers;
use crate::judging::Judged;
use crate::token::TokenRef;
use rd_base::{Mask, MaskLimits, NoMemory, Row, Rows, TokenKind, Verdict};
use std::alloc::Global;
use std::marker::Model;

/// The verdict of 3 to 8 copies' token lists while their tokens come one by one, in any order of copies.
///
/// A place is judged once each copy has been fed its token there or is closed. Of what was judged the masked places
/// and their rows are kept.
#[derive(Drop)]
pub struct StreamVerdict {
    most: MaskLimits,
    found: Verdict,
    rows: Rows,
    copies: Buffers,
    alloc: Global,
}

impl Model for StreamVerdict {
    ghost use Rattle.rd_stream_verdict.specs.Kept.{Kept, IsReached};

    ghost Value = { Kept };

    ghost view = { λ s. record { most = s.most; found = s.found; rows = s.rows; copies = s.copies } };

    ghost invariant = { λ s. IsReached (record { most = s.most; found = s.found; rows = s.rows; copies = s.copies }) };
}

impl StreamVerdict {
    /// Of so many copies, 3 to 8, that have said nothing yet.
    pub fn new(alloc: Global, copies: u8, most: MaskLimits) -> Result<StreamVerdict, NoMemory>
        requires three { 3 ≤ copies }
        requires eight { copies ≤ 8 }
        requires limits { AreMaskLimits most }
        ensures limits { IfOk result (λ s. s.most ≡ most) }
        ensures nothing { IfOk result (λ s. IsAt (nothing_said copies) s) }
    {
        Ok(StreamVerdict {
            most,
            found: Verdict::Agreed(Mask::new()),
            rows: Rows::new(alloc),
            copies: Buffers::new(alloc, copies)?,
            alloc,
        })
    }

    /// The next token of a copy: its kind and its bytes.
    ///
    /// It is quickest where copies are fed the same tokens in turn, from copy 0 on: then each is compared with copy 0's,
    /// and nothing is allocated once a token as long was there. After an answer of want of memory all is as before.
    #[inline(always)]
    pub fn feed(&mut self, copy: u8, kind: TokenKind, text: &[u8]) -> Result<(), NoMemory>
        requires there { copy < length self.old.copies }
        requires open { IfSome (slice_get self.old.copies copy) (λ c. c.is_whole ≡ false) }
        requires fewer { IfSome (slice_get self.old.copies copy) (λ c. c.fed < 2 ^ 32 - 1) }
        ensures ok { OnOk result (HasHeard copy (token kind text.now) self.old self.new) }
        ensures err { OnErr result (self.new ≡ self.old) }
    {
        let at = copy as usize;
        let token = TokenRef::new(kind, text);
        if !has_agreed(&self.found) {
            self.copies.count(at);
            Ok(())
        } else if self.copies.is_only_behind(at) {
            self.judge_next(at, token)
        } else {
            self.copies.wait(at, &token)
        }
    }

    /// The copy has no more tokens.
    pub fn close(&mut self, copy: u8)
        requires there { copy < length self.old.copies }
        requires open { IfSome (slice_get self.old.copies copy) (λ c. c.is_whole ≡ false) }
        ensures { HasClosed copy self.old self.new }
    {
        let at = copy as usize;
        if has_agreed(&self.found) && self.copies.is_only_behind(at) {
            self.close_last(at);
        } else {
            self.copies.close(at);
        }
    }

    /// The fault at the least judged place that has one; else Agreed where all copies are closed; else None.
    pub fn answer(&self) -> Option<Verdict>
        ensures kept { result ≡ kept_answer self.now }
        ensures said { (said : List Heard) → IsAt said self.now
            → result ≡ answer self.now.most said }
        ensures whole { (said : List Heard) → IsAt said self.now
            → list_all (λ copy. copy.is_whole) said ≡ true
            → result ≡ Some (verdict self.now.most (lists_of said)) }
    {
        self.found_so_far()
    }

    /// The number of bytes kept of a copy: those of its tokens that wait to be judged, and at most 8,192 of masked
    /// tokens. A token that waits once for several copies counts as kept of each.
    pub fn kept(&self, copy: u8) -> usize
        requires { copy < length self.now.copies }
        ensures bytes { result ≡ kept_bytes copy self.now }
        ensures most { (said : List Heard) → IsAt said self.now
            → result ≤ unjudged_bytes copy said + 8192 }
    {
        self.copies.bytes(copy as usize) + bytes_of(&self.rows, copy)
    }

    /// The rows of an agreed verdict: the copies' words at each masked place where all are words of 16 to 128 bytes.
    pub fn learnt(&self) -> Result<Rows, NoMemory>
        requires { agrees (kept_answer self.now) ≡ true }
        ensures kept { IfOk result (λ rows. rows ≡ self.now.rows) }
        ensures said { (said : List Heard) → (mask : List ℕ) → IsAt said self.now
            → answer self.now.most said ≡ Some (Agreed mask)
            → IfOk result (λ rows. rows ≡ rows_at (lists_of said) mask) }
    {
        let mut rows = Rows::new(self.alloc);
        for index in 0..self.rows.len() {
            rows.push(self.rows.at(index))?;
        }
        Ok(rows)
    }

    /// The answer, by what is kept.
    fn found_so_far(&self) -> Option<Verdict>
        ensures { result ≡ kept_answer self.now }
    {
        match &self.found {
            Verdict::Agreed(mask) => {
                if self.copies.are_whole() {
                    Some(Verdict::Agreed(copied(mask)))
                } else {
                    None
                }
            }
            Verdict::Disagree { copy, place } => Some(Verdict::Disagree {
                copy: *copy,
                place: *place,
            }),
            Verdict::Noise { place } => Some(Verdict::Noise { place: *place }),
        }
    }

    /// Whether the copy is there, isn't closed and was fed fewer than 2^32-1 tokens: the condition of `feed`.
    pub fn can_take(&self, copy: u8) -> bool
        ensures exact { result ≡ can_take (slice_get self.now.copies copy) }
        ensures there { result ≡ true → copy < length self.now.copies }
        ensures open { result ≡ true
            → IfSome (slice_get self.now.copies copy) (λ c. c.is_whole ≡ false) }
        ensures fewer { result ≡ true
            → IfSome (slice_get self.now.copies copy) (λ c. c.fed < 2 ^ 32 - 1) }
    {
        self.copies.can_take(copy as usize)
    }

    /// Closes the copy that alone is behind: the next place is judged where another copy has a token there.
    fn close_last(&mut self, at: usize)
        requires there { at < length self.old.copies }
        requires open { IfSome (slice_get self.old.copies at) (λ c. c.is_whole ≡ false) }
        requires agreed { is_agreed self.old.found ≡ true }
        requires only { only_behind at self.old.copies ≡ true }
        ensures { HasClosed at self.old self.new }
    {
        let place = self.copies.fed(at);
        match self.copies.alone_fault_with(at, place) {
            Some(fault) => {
                self.found = fault;
                self.rows = Rows::new(self.alloc);
                self.copies.clear_all();
                self.copies.close(at);
            }
            None => self.copies.close(at),
        }
    }

    /// Judges the next place, at which this copy alone had no token.
    #[inline(always)]
    fn judge_next(&mut self, at: usize, token: TokenRef) -> Result<(), NoMemory>
        requires there { at < length self.old.copies }
        requires open { IfSome (slice_get self.old.copies at) (λ c. c.is_whole ≡ false) }
        requires fewer { IfSome (slice_get self.old.copies at) (λ c. c.fed < 2 ^ 32 - 1) }
        requires agreed { is_agreed self.old.found ≡ true }
        requires only { only_behind at self.old.copies ≡ true }
        ensures ok { OnOk result (HasHeard at token.entry self.old self.new) }
        ensures err { OnErr result (self.new ≡ self.old) }
    {
        if self.copies.are_same_with(at, &token) {
            self.copies.pass_all();
            self.copies.count(at);
            return Ok(());
        }
        self.judge_by_heads(at, token.kind, token.text)
    }

    /// The same, whatever the copies have there. It stands apart, since it makes room for a row on entry.
    #[inline(never)]
    fn judge_by_heads(&mut self, at: usize, kind: TokenKind, text: &[u8]) -> Result<(), NoMemory>
        requires there { at < length self.old.copies }
        requires open { IfSome (slice_get self.old.copies at) (λ c. c.is_whole ≡ false) }
        requires fewer { IfSome (slice_get self.old.copies at) (λ c. c.fed < 2 ^ 32 - 1) }
        requires agreed { is_agreed self.old.found ≡ true }
        requires only { only_behind at self.old.copies ≡ true }
        ensures ok { OnOk result (HasHeard at (token kind text.now) self.old self.new) }
        ensures err { OnErr result (self.new ≡ self.old) }
    {
        let token = TokenRef::new(kind, text);
        let place = self.copies.fed(at);
        let masked = masked_places(&self.found);
        match self.copies.judge_with(at, token, self.most, place, masked) {
            Judged::Fault(fault) => {
                self.found = fault;
                self.rows = Rows::new(self.alloc);
                self.copies.clear_all();
                self.copies.count(at);
                Ok(())
            }
            Judged::Masked(row) => {
                keep_row(&mut self.rows, row)?;
                push_place(&mut self.found, place);
                self.copies.pass_all();
                self.copies.count(at);
                Ok(())
            }
            Judged::Same => {
                self.copies.pass_all();
                self.copies.count(at);
                Ok(())
            }
        }
    }
}

#[inline(always)]
fn has_agreed(found: &Verdict) -> bool
    ensures { result ≡ is_agreed found.now }
{
    match found {
        Verdict::Agreed(_) => true,
        Verdict::Disagree { .. } | Verdict::Noise { .. } => false,
    }
}

/// The number of masked places so far, at most 64.
fn masked_places(found: &Verdict) -> usize
    ensures { result ≡ length (mask_of found.now) }
{
    match found {
        Verdict::Agreed(mask) => mask.len(),
        Verdict::Disagree { .. } | Verdict::Noise { .. } => 0,
    }
}

/// One masked place more.
fn push_place(found: &mut Verdict, place: u32)
    requires agreed { is_agreed found.old ≡ true }
    requires room { length (mask_of found.old) < 64 }
    requires rising { All (λ p. p < place) (mask_of found.old) }
    ensures { found.new ≡ Agreed (mask_of found.old ++ place ∷ []) }
{
    if let Verdict::Agreed(mask) = found {
        mask.push(place);
    }
}

/// The same mask again.
fn copied(mask: &Mask) -> Mask
    requires { AllPairs (λ p q. p < q) mask.now }
    ensures { result ≡ mask.now }
{
    let mut places = Mask::new();
    for index in 0..mask.len() {
        places.push(mask.at(index));
    }
    places
}

/// The bytes of a copy's words in these rows.
fn bytes_of(rows: &Rows, copy: u8) -> usize
    requires words { HaveWords copy rows.now }
    requires few { length rows.now ≤ 64 }
    ensures bytes { result ≡ row_bytes copy rows.now }
    ensures most { result ≤ 8192 }
{
    let mut bytes = 0;
    for index in 0..rows.len() {
        bytes += rows.at(index).own(copy).len();
    }
    bytes
}

fn keep_row(rows: &mut Rows, row: Option<Row>) -> Result<(), NoMemory>
    ensures ok { OnOk result (rows.new ≡ rows.old ++ option_to_list row) }
    ensures err { OnErr result (rows.new ≡ rows.old) }
{
    match row {
        Some(row) => rows.push(&row),
        None => Ok(()),
    }
}
