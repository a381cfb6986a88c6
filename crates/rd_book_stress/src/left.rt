use crate::texts::{Found, look, texts_of};
use rd_history::Naming;
use rd_shared_book::BookSeat;
use std::alloc::{AllocError, Global};
use std::sync::Wait;

/// How many rows of a seat are looked up behind those that are left.
const LOOKED_BEHIND: u64 = 10_000;

/// What a book has left of a seat's rows: its last ones without a gap, those before them, and rows that weren't learnt.
#[derive(Clone, Copy)]
pub struct Left {
    pub last: u64,
    pub before: u64,
    pub wrong: u64,
}

/// What is left of the rows of a seat of this number, which learnt so many.
pub fn left_of<J: Naming, R: Wait + Copy>(
    alloc: Global,
    seat: &mut BookSeat<J, R>,
    number: u64,
    learns: u64,
) -> Result<Left, AllocError> {
    let mut left = Left {
        last: 0,
        before: 0,
        wrong: 0,
    };
    let mut is_past = false;
    for back in 0..learns {
        if left.last.saturating_add(LOOKED_BEHIND) < back {
            break;
        }
        let place = learns - 1 - back;
        match look(seat, &texts_of(alloc, number, place)?) {
            Found::Row if is_past => left.before = left.before.saturating_add(1),
            Found::Row => left.last = left.last.saturating_add(1),
            Found::Nothing => is_past = true,
            Found::Wrong => left.wrong = left.wrong.saturating_add(1),
        }
    }
    Ok(left)
}
