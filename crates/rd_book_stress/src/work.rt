use crate::texts::{Found, look, teach, texts_of};
use rd_history::Naming;
use rd_shared_book::BookSeat;
use std::alloc::{AllocError, Global};
use std::sync::atomic::{AtomicBool, Ordering};
use std::sync::{Arc, Wait};

/// The seats that learn and find at once.
pub const LEARNERS: u8 = 32;

/// How far back another seat's row is looked up: that far it has probably come, and isn't past.
const BACK: u64 = 8;

/// Behind the number of any learn.
const NEVER_LEARNT: u64 = 1 << 62;

/// What a seat did: its learns; its finds; those that found another seat's row; those that no longer found its own last
/// one, since others had learnt 4,096 by then; and what went wrong.
#[derive(Clone, Copy)]
pub struct Counts {
    pub learns: u64,
    pub finds: u64,
    pub others: u64,
    pub gone: u64,
    pub wrong: u64,
}

impl Counts {
    pub fn new() -> Counts {
        Counts {
            learns: 0,
            finds: 0,
            others: 0,
            gone: 0,
            wrong: 0,
        }
    }

    fn found(&mut self, of_other: bool, found: Found) {
        self.finds = self.finds.saturating_add(1);
        match found {
            Found::Row if of_other => self.others = self.others.saturating_add(1),
            Found::Row | Found::Nothing => (),
            Found::Wrong => self.wrong = self.wrong.saturating_add(1),
        }
    }
}

/// Learns a row and finds three words, so many times or until it is told to stop.
pub fn work<J: Naming, R: Wait + Copy>(
    alloc: Global,
    seat: &mut BookSeat<J, R>,
    rounds: u64,
    stop: &Arc<AtomicBool, Global>,
) -> Result<Counts, AllocError> {
    let mut counts = Counts::new();
    for round in 0..rounds {
        if stop.load(Ordering::SeqCst) || !work_once(alloc, seat, round, &mut counts)? {
            break;
        }
    }
    Ok(counts)
}

/// Learns the seat's row of this number, and finds it, a word that no row shows, and a row of another seat.
fn work_once<J: Naming, R: Wait + Copy>(
    alloc: Global,
    seat: &mut BookSeat<J, R>,
    round: u64,
    counts: &mut Counts,
) -> Result<bool, AllocError> {
    let mine = u64::from(seat.number());
    let own = texts_of(alloc, mine, round)?;
    if !teach(seat, &own) {
        counts.wrong = counts.wrong.saturating_add(1);
        return Ok(false);
    }
    counts.learns = counts.learns.saturating_add(1);
    let found = look(seat, &own);
    if found == Found::Nothing {
        counts.gone = counts.gone.saturating_add(1);
    }
    counts.found(false, found);
    let none = look(seat, &texts_of(alloc, mine, NEVER_LEARNT)?);
    counts.found(
        false,
        if none == Found::Nothing {
            none
        } else {
            Found::Wrong
        },
    );
    let other = mine.wrapping_add(round) % u64::from(LEARNERS);
    let theirs = look(seat, &texts_of(alloc, other, round.saturating_sub(BACK))?);
    counts.found(other != mine, theirs);
    Ok(true)
}
