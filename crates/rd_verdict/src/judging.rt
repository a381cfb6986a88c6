ghost use Rattle.std.specs.Prelude.{◌≡◌, ◌≤◌, ◌<◌, ◌^◌, [], List, ℕ, true, not, length, slice_get, IfSome};
ghost use Rattle.std.specs.List.{position, list_any, list_all};
ghost use Rattle.rd_base.specs.Limits.{AreMaskLimits};
ghost use Rattle.rd_base.specs.Verdicts.{verdict, longest, fault, masked_fault, plain_fault, masked_below, is_masked, one_alone, token_at, least_disagrees, same, is_soft, is_long};

use crate::copies::Copies;
use crate::tokens::Tokens;
use rd_base::{Mask, MaskLimits, Verdict};

/// What the token lists come to under these limits: the fault at the least place that has one, else Agreed.
pub fn judge(copies: &Copies, most: MaskLimits) -> Verdict
    requires three { 3 ≤ length copies.now }
    requires limits { AreMaskLimits most }
    ensures { result ≡ verdict most copies.now }
{
    judge_lists(copies.lists(), most)
}

fn judge_lists(lists: &[Tokens], most: MaskLimits) -> Verdict
    requires three { 3 ≤ length lists.now }
    requires few { length lists.now ≤ 8 }
    requires limits { AreMaskLimits most }
    ensures { result ≡ verdict most lists.now }
{
    let places = longest_of(lists);
    let mut mask = Mask::new();
    for place in 0..places {
        if is_alike_at(lists, place) {
            continue;
        }
        if let Some(fault) = fault_at(lists, most, place, mask.len()) {
            return fault;
        }
        if is_masked_at(lists, place) {
            mask.push(place as u32);
        }
    }
    Verdict::Agreed(mask)
}

/// The number of tokens of the longest list.
pub(crate) fn longest_of(lists: &[Tokens]) -> usize
    ensures longest { result ≡ longest lists.now }
    ensures most { result < 2 ^ 32 }
{
    let mut most = 0;
    for list in lists {
        most = most.max(list.len());
    }
    most
}

/// Whether all copies have the same token there, or none has one.
fn is_alike_at(lists: &[Tokens], place: usize) -> bool
    requires { 3 ≤ length lists.now }
    ensures { result ≡ list_all
        (λ tokens. same (slice_get tokens place) (token_at lists.now 0 place)) lists.now }
{
    are_all_same(&lists[1..], &lists[0], place)
}

fn are_all_same(lists: &[Tokens], first: &Tokens, place: usize) -> bool
    ensures { result ≡ list_all
        (λ tokens. same (slice_get tokens place) (slice_get first.now place)) lists.now }
{
    lists.iter().all(|list| list.is_same_at(first, place))
}

fn is_masked_at(lists: &[Tokens], place: usize) -> bool
    requires { 3 ≤ length lists.now }
    ensures { result ≡ is_masked lists.now place }
{
    lists[0].is_soft_at(place)
        && lists[1].is_soft_at(place)
        && !lists[0].is_same_at(&lists[1], place)
}

/// The fault at a place below which so many places are masked.
fn fault_at(lists: &[Tokens], most: MaskLimits, place: usize, masked: usize) -> Option<Verdict>
    requires three { 3 ≤ length lists.now }
    requires few { length lists.now ≤ 8 }
    requires short { place < 2 ^ 32 }
    requires counted { masked ≡ length (masked_below lists.now place) }
    ensures { result ≡ fault most lists.now place }
{
    match first_alone(lists, &lists[0], place) {
        Some(copy) => disagreement(place, Some(copy)),
        None => {
            if is_masked_at(lists, place) {
                masked_fault_at(lists, most, place, masked)
            } else {
                plain_fault_at(lists, place)
            }
        }
    }
}

fn masked_fault_at(
    lists: &[Tokens],
    most: MaskLimits,
    place: usize,
    masked: usize,
) -> Option<Verdict>
    requires few { length lists.now ≤ 8 }
    requires short { place < 2 ^ 32 }
    requires counted { masked ≡ length (masked_below lists.now place) }
    requires here { is_masked lists.now place ≡ true }
    ensures { result ≡ masked_fault most lists.now place }
{
    if masked >= most.places as usize || any_long(lists, most.bytes, place) {
        Some(Verdict::Noise {
            place: place as u32,
        })
    } else {
        disagreement(place, first_not_soft(lists, place))
    }
}

fn plain_fault_at(lists: &[Tokens], place: usize) -> Option<Verdict>
    requires three { 3 ≤ length lists.now }
    requires few { length lists.now ≤ 8 }
    requires short { place < 2 ^ 32 }
    ensures { result ≡ plain_fault lists.now place }
{
    if lists[0].is_same_at(&lists[1], place) {
        disagreement(place, first_other(lists, &lists[0], place))
    } else {
        disagreement(place, Some(1))
    }
}

/// The disagreement of a copy at a place.
fn disagreement(place: usize, copy: Option<usize>) -> Option<Verdict>
    requires short { place < 2 ^ 32 }
    requires few { IfSome copy (λ k. k < 8) }
    ensures { result ≡ least_disagrees place copy }
{
    match copy {
        Some(copy) => Some(Verdict::Disagree {
            copy: copy as u8,
            place: place as u32,
        }),
        None => None,
    }
}

/// The least copy that has a token where the first has none, or the other way round.
fn first_alone(lists: &[Tokens], first: &Tokens, place: usize) -> Option<usize>
    ensures copy { result ≡ position
        (λ tokens. one_alone (slice_get tokens place) (slice_get first.now place)) lists.now }
    ensures within { IfSome result (λ k. k < length lists.now) }
{
    lists.iter().position(|list| list.is_alone_at(first, place))
}

/// The least copy that has another token than the first.
fn first_other(lists: &[Tokens], first: &Tokens, place: usize) -> Option<usize>
    ensures copy { result ≡ position
        (λ tokens. not (same (slice_get tokens place) (slice_get first.now place))) lists.now }
    ensures within { IfSome result (λ k. k < length lists.now) }
{
    lists.iter().position(|list| !list.is_same_at(first, place))
}

/// The least copy that has no Soft token there.
fn first_not_soft(lists: &[Tokens], place: usize) -> Option<usize>
    ensures copy { result ≡ position
        (λ tokens. not (is_soft (slice_get tokens place))) lists.now }
    ensures within { IfSome result (λ k. k < length lists.now) }
{
    lists.iter().position(|list| !list.is_soft_at(place))
}

fn any_long(lists: &[Tokens], most: u8, place: usize) -> bool
    ensures { result ≡ list_any (λ tokens. is_long most (slice_get tokens place)) lists.now }
{
    lists.iter().any(|list| list.is_long_at(place, most))
}
