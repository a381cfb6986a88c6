ghost use Rattle.std.specs.Prelude.{◌≡◌, ◌≤◌, ◌<◌, ◌^◌, ℕ, true, not, length, option_map, Some, None, IfSome, All, if◌then◌else◌};
ghost use Rattle.std.specs.List.{position, list_any};
ghost use Rattle.rd_base.specs.Swap.{is_row_word, IsRowWord};
ghost use Rattle.rd_base.specs.Verdicts.{least_disagrees, same, is_soft, is_long, one_alone};
ghost use Rattle.rd_stream_verdict.specs.Heads.{heads_masked, heads_alone_fault, heads_masked_fault, heads_plain_fault, heads_fault, heads_row, heads_judged};

use crate::token::{TokenRef, is_long, is_one_alone, is_same, is_soft, word};
use rd_base::{MaskLimits, Row, Verdict, is_row_word};

/// What a place comes to.
#[derive(Drop)]
pub(crate) enum Judged {
    /// It has this fault.
    Fault(Verdict),
    /// It is masked, and gives this row.
    Masked(Option<Row>),
    /// All copies have the same token.
    Same,
}

/// What a place comes to where the copies have these tokens, and below which so many places are masked.
pub(crate) fn judge_heads(
    heads: &[Option<TokenRef>],
    most: MaskLimits,
    place: u32,
    masked: usize,
) -> Judged
    requires three { 3 ≤ length heads.now }
    requires few { length heads.now ≤ 8 }
    ensures { result ≡ heads_judged most place masked heads.now }
{
    match fault_of(heads, most, place, masked) {
        Some(fault) => Judged::Fault(fault),
        None => {
            if is_masked(heads) {
                Judged::Masked(row_of(heads))
            } else {
                Judged::Same
            }
        }
    }
}

fn is_masked(heads: &[Option<TokenRef>]) -> bool
    requires { 3 ≤ length heads.now }
    ensures { result ≡ heads_masked heads.now }
{
    is_soft(&heads[0]) && is_soft(&heads[1]) && !is_same(&heads[0], &heads[1])
}

/// The fault at a place where the copies have these tokens, and below which so many places are masked.
fn fault_of(
    heads: &[Option<TokenRef>],
    most: MaskLimits,
    place: u32,
    masked: usize,
) -> Option<Verdict>
    requires three { 3 ≤ length heads.now }
    requires few { length heads.now ≤ 8 }
    ensures { result ≡ heads_fault most place masked heads.now }
{
    match alone_fault_of(heads, place) {
        Some(fault) => Some(fault),
        None => {
            if is_masked(heads) {
                masked_fault_of(heads, most, place, masked)
            } else {
                plain_fault_of(heads, place)
            }
        }
    }
}

/// The disagreement of the least copy that has a token where the first has none, or the other way round.
pub(crate) fn alone_fault_of(heads: &[Option<TokenRef>], place: u32) -> Option<Verdict>
    requires three { 3 ≤ length heads.now }
    requires few { length heads.now ≤ 8 }
    ensures { result ≡ heads_alone_fault place heads.now }
{
    disagreement(place, first_alone(heads, &heads[0]))
}

/// The row of tokens that are all Soft, if all are words that a row may hold.
fn row_of(heads: &[Option<TokenRef>]) -> Option<Row>
    requires three { 3 ≤ length heads.now }
    requires few { length heads.now ≤ 8 }
    requires soft { All (λ head. is_soft head ≡ true) heads.now }
    ensures { result ≡ heads_row heads.now }
{
    let shown = row_word(word(&heads[0]))?;
    let mut row = Row::start(shown);
    for head in &heads[1..] {
        row.push_own(row_word(word(head))?);
    }
    Some(row)
}

/// The word, if a row may hold it.
fn row_word(word: &[u8]) -> Option<&[u8]>
    ensures word { option_map (λ w. w.now) result
        ≡ (if is_row_word word.now then Some word.now else None) }
    ensures fits { IfSome result (λ w. IsRowWord w.now) }
{
    if is_row_word(word) { Some(word) } else { None }
}

fn masked_fault_of(
    heads: &[Option<TokenRef>],
    most: MaskLimits,
    place: u32,
    masked: usize,
) -> Option<Verdict>
    requires few { length heads.now ≤ 8 }
    ensures { result ≡ heads_masked_fault most place masked heads.now }
{
    if masked >= most.places as usize || any_long(heads, most.bytes) {
        Some(Verdict::Noise { place })
    } else {
        disagreement(place, first_not_soft(heads))
    }
}

fn plain_fault_of(heads: &[Option<TokenRef>], place: u32) -> Option<Verdict>
    requires three { 3 ≤ length heads.now }
    requires few { length heads.now ≤ 8 }
    ensures { result ≡ heads_plain_fault place heads.now }
{
    if is_same(&heads[0], &heads[1]) {
        disagreement(place, first_other(heads, &heads[0]))
    } else {
        disagreement(place, Some(1))
    }
}

/// The disagreement of a copy at a place.
fn disagreement(place: u32, copy: Option<usize>) -> Option<Verdict>
    requires few { IfSome copy (λ k. k < 8) }
    ensures { result ≡ least_disagrees place copy }
{
    match copy {
        Some(copy) => Some(Verdict::Disagree {
            copy: copy as u8,
            place,
        }),
        None => None,
    }
}

fn first_alone(heads: &[Option<TokenRef>], first: &Option<TokenRef>) -> Option<usize>
    ensures copy { result ≡ position (λ head. one_alone head first.now) heads.now }
    ensures within { IfSome result (λ k. k < length heads.now) }
{
    heads.iter().position(|head| is_one_alone(head, first))
}

/// The least copy that has another token than the first.
fn first_other(heads: &[Option<TokenRef>], first: &Option<TokenRef>) -> Option<usize>
    ensures copy { result ≡ position (λ head. not (same head first.now)) heads.now }
    ensures within { IfSome result (λ k. k < length heads.now) }
{
    heads.iter().position(|head| !is_same(head, first))
}

/// The least copy that has no Soft token.
fn first_not_soft(heads: &[Option<TokenRef>]) -> Option<usize>
    ensures copy { result ≡ position (λ head. not (is_soft head)) heads.now }
    ensures within { IfSome result (λ k. k < length heads.now) }
{
    heads.iter().position(|head| !is_soft(head))
}

fn any_long(heads: &[Option<TokenRef>], most: u8) -> bool
    ensures { result ≡ list_any (is_long most) heads.now }
{
    heads.iter().any(|head| is_long(head, most))
}
