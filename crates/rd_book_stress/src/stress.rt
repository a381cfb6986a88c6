ghost use Rattle.std.specs.Prelude.{◌≡◌};

use crate::left::left_of;
use crate::work::{Counts, LEARNERS, work};
use rd_history::{Naming, NewList};
use rd_shared_book::{Book, BookSeat};
use std::alloc::{AllocError, Global};
use std::io::Print;
use std::sync::atomic::{AtomicBool, Ordering};
use std::sync::{Arc, Wait};
use std::thread::{Parker, Threads};
use std::time::Duration;
use std::{io, thread};

/// The rows that a book keeps.
const ROWS: u64 = 4_096;

/// A seat that comes back from its thread, and what it did.
type Back<J, R> = (BookSeat<J, R>, Result<Counts, AllocError>);

/// Each of 32 seats learns and finds on a thread of its own, in so many rounds or until the seconds are over, where there
/// are any. Behind that one seat heeds all, and says what is left. It answers whether all was as it should be.
pub fn stress<
    J: Naming + Send + Sync + 'static,
    R: Wait + Threads + Print + Copy + Send + Sync + 'static,
>(rt: R, alloc: Global, list: NewList, rounds: u64, seconds: u32) -> io::Result<bool>
    requires book { list.seen.book ≡ J.book }
    requires seats { J.seats ≡ 33 }
{
    let Ok(mut book) = Book::<J, R>::make(rt, alloc, list, LEARNERS + 1) else {
        return Ok(false);
    };
    let Some(mut own) = book.seat() else {
        return Ok(false);
    };
    let stop = Arc::new(alloc, AtomicBool::new(false))?;
    let mut threads = Vec::new(alloc);
    for _ in 0..LEARNERS {
        let stop = Arc::try_clone(&stop)?;
        let Some(mut seat) = book.seat() else {
            return Ok(false);
        };
        match thread::spawn(&rt, move || {
            let counts = work(alloc, &mut seat, rounds, &stop);
            (seat, counts)
        }) {
            Ok(thread) => threads.push(thread)?,
            Err(_) => return Ok(false),
        }
    }
    wait(&rt, seconds);
    if seconds > 0 {
        stop.store(true, Ordering::SeqCst);
    }
    let mut backs = Vec::new(alloc);
    for thread in threads {
        backs.push(thread.join(&rt))?;
    }
    tell(&rt, alloc, &mut own, backs, seconds > 0)
}

/// Waits at least so long.
pub fn wait<R: Wait>(rt: &R, seconds: u32) {
    let parker = Parker::new();
    for _ in 0..seconds {
        parker.park_timeout(rt, Duration::from_secs(1));
    }
}

/// Says what the seats did and what is left of it, with the numbers that depend on chance where they are wanted.
fn tell<J: Naming, R: Wait + Print + Copy>(
    rt: &R,
    alloc: Global,
    own: &mut BookSeat<J, R>,
    backs: Vec<Back<J, R>>,
    chances: bool,
) -> io::Result<bool> {
    let mut sum = Counts::new();
    let mut left: u64 = 0;
    let mut before: u64 = 0;
    for (mut seat, counts) in backs {
        let counts = counts?;
        own.heed(&mut seat);
        sum = sum_of(sum, counts);
        let of_seat = left_of(alloc, own, u64::from(seat.number()), counts.learns)?;
        left = left.saturating_add(of_seat.last);
        before = before.saturating_add(of_seat.before);
        sum.wrong = sum.wrong.saturating_add(of_seat.wrong);
    }
    println!(rt; "{} learns and {} finds", sum.learns, sum.finds)?;
    println!(rt; "{} found what was not learnt", sum.wrong)?;
    println!(rt; "{left} rows left of the last, {before} before")?;
    if chances {
        println!(rt; "{} found a row of another seat", sum.others)?;
        println!(rt; "{} no longer found their own last row", sum.gone)?;
    }
    Ok(sum.wrong == 0 && before == 0 && left == sum.learns.min(ROWS))
}

fn sum_of(one: Counts, two: Counts) -> Counts {
    Counts {
        learns: one.learns.saturating_add(two.learns),
        finds: one.finds.saturating_add(two.finds),
        others: one.others.saturating_add(two.others),
        gone: one.gone.saturating_add(two.gone),
        wrong: one.wrong.saturating_add(two.wrong),
    }
}
