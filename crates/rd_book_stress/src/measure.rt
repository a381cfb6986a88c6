ghost use Rattle.std.specs.Prelude.{◌≡◌};

use crate::spent::{resident, spent_by};
use crate::stress::wait;
use crate::texts::{Found, Texts, look, teach, texts_of};
use crate::work::LEARNERS;
use rd_history::{Naming, NewList};
use rd_shared_book::{Book, BookSeat};
use std::alloc::{AllocError, AllocGlobal, Global};
use std::io::Print;
use std::rt::{Clock, Files};
use std::sync::atomic::{AtomicBool, Ordering};
use std::sync::{Arc, Wait};
use std::thread::{Parker, Threads};
use std::time::Duration;
use std::{io, thread};

/// The rows that a book keeps.
const ROWS: u32 = 4_096;

/// A number that no seat has.
const NOBODY: u64 = 99;

/// How often each measure is taken.
const ROUNDS: u32 = 5;

/// One seat learns and finds beside 31 that find, for so many seconds. Whoever runs it may look at its threads meanwhile: the
/// first is the learner's.
pub fn stay<
    J: Naming + Send + Sync + 'static,
    R: Wait + Threads + Print + Files + Clock + AllocGlobal + Copy + Send + Sync + 'static,
>(rt: R, alloc: Global, list: NewList, seconds: u32) -> io::Result<bool>
    requires book { list.seen.book ≡ J.book }
    requires seats { J.seats ≡ 33 }
{
    let Ok(mut book) = Book::<J, R>::make(rt, alloc, list, LEARNERS + 1) else {
        return Ok(false);
    };
    let Some(mut own) = book.seat() else {
        return Ok(false);
    };
    let seats = seats_of(alloc, &mut book, LEARNERS)?;
    let _seats = run_beside(rt, alloc, &mut own, seats, 1, Task::Wait(seconds))?;
    Ok(true)
}

/// So many seats of the book, or all that are left.
fn seats_of<J: Naming, R: Wait + Copy>(
    alloc: Global,
    book: &mut Book<J, R>,
    count: u8,
) -> Result<Vec<BookSeat<J, R>>, AllocError> {
    let mut seats = Vec::new(alloc);
    for _ in 0..count {
        if let Some(seat) = book.seat() {
            seats.push(seat)?;
        }
    }
    Ok(seats)
}

/// Measures what so many learns and finds of a seat take, by itself, beside 31 that find, and beside 31 that learn and find.
/// So many kibibytes were held before.
pub fn measure<
    J: Naming + Send + Sync + 'static,
    R: Wait + Threads + Print + Files + Clock + AllocGlobal + Copy + Send + Sync + 'static,
>(rt: R, alloc: Global, list: NewList, before: u64, count: u32) -> io::Result<bool>
    requires book { list.seen.book ≡ J.book }
    requires seats { J.seats ≡ 33 }
{
    let Ok(mut book) = Book::<J, R>::make(rt, alloc, list, LEARNERS + 1) else {
        return Ok(false);
    };
    let made = resident(&rt)?;
    let Some(mut own) = book.seat() else {
        return Ok(false);
    };
    let mut seats = seats_of(alloc, &mut book, LEARNERS - 1)?;
    for number in 0..ROWS {
        if !teach(&mut own, &texts_of(alloc, NOBODY, u64::from(number))?) {
            return Ok(false);
        }
    }
    let full = resident(&rt)?;
    println!(rt;
        "memory {} {}",
        made.saturating_sub(before),
        full.saturating_sub(before)
    )?;
    for round in 0..ROUNDS {
        let from = u64::from(round) << 32;
        times(&rt, alloc, &mut own, from, count, "alone")?;
        let beside = Task::Measure("finders", from + (1 << 30), count);
        seats = run_beside(rt, alloc, &mut own, seats, 0, beside)?;
        let beside = Task::Measure("learners", from + (2 << 30), count);
        seats = run_beside(rt, alloc, &mut own, seats, LEARNERS, beside)?;
    }
    Ok(true)
}

/// The texts of a seat's rows from this number on.
fn texts_from(alloc: Global, from: u64, count: u32) -> Result<Vec<Texts>, AllocError> {
    let mut texts = Vec::new(alloc);
    for number in 0..count {
        texts.push(texts_of(alloc, NOBODY, from.saturating_add(u64::from(number)))?)?;
    }
    Ok(texts)
}

/// Prints what a learn of this seat takes, a find of a row, and one of a word that no row shows.
fn times<J: Naming, R: Wait + Print + Files + Clock + AllocGlobal + Copy>(
    rt: &R,
    alloc: Global,
    seat: &mut BookSeat<J, R>,
    from: u64,
    count: u32,
    name: &str,
) -> io::Result<()> {
    let texts = texts_from(alloc, from, count)?;
    let others = texts_from(alloc, from.saturating_add(1 << 29), count)?;
    let first = spent_by(rt)?;
    for one in &texts {
        let _is_learnt = teach(seat, one);
    }
    let learns = spent_by(rt)?.since(first);
    print_times(rt, name, "learn", learns, u64::from(count))?;
    for (texts, what) in [(&texts, "row"), (&others, "none")] {
        let first = spent_by(rt)?;
        let found = look_up_all(seat, texts.as_slice());
        let finds = spent_by(rt)?.since(first);
        print_times(rt, name, what, finds, found)?;
    }
    Ok(())
}

/// How many of these are found.
fn look_up_all<J: Naming, R: Wait + Copy>(seat: &mut BookSeat<J, R>, texts: &[Texts]) -> u64 {
    let mut found: u64 = 0;
    for one in texts {
        if look(seat, one) == Found::Row {
            found = found.saturating_add(1);
        }
    }
    found
}

fn print_times<R: Print>(
    rt: &R,
    name: &str,
    what: &str,
    spent: (u64, u128, u64),
    found: u64,
) -> io::Result<()> {
    let (nanos, all_nanos, waits) = spent;
    println!(rt; "{name} {what} {nanos} {all_nanos} {waits} {found}")
}

/// What a seat does beside others.
#[derive(Clone, Copy)]
struct Habit {
    learns: bool,
    /// Whether it pauses for 20 milliseconds behind each 64 finds, as sessions that wait for their links do.
    pauses: bool,
}

/// How many calls a seat made until it was told to stop. What it finds is made before.
fn work_beside<J: Naming, R: Wait + Copy>(
    rt: R,
    alloc: Global,
    seat: &mut BookSeat<J, R>,
    habit: Habit,
    stop: &Arc<AtomicBool, Global>,
) -> Result<u64, AllocError> {
    let texts = texts_from(alloc, u64::from(seat.number()) << 40, 64)?;
    let parker = Parker::new();
    let mut calls: u64 = 0;
    for _ in 0..u64::MAX {
        if stop.load(Ordering::SeqCst) {
            break;
        }
        if habit.learns {
            if let Some(one) = texts.get((calls % 64) as usize) {
                let _is_learnt = teach(seat, one);
            }
            calls = calls.saturating_add(1);
        }
        let _found = look_up_all(seat, texts.as_slice());
        calls = calls.saturating_add(64);
        if habit.pauses {
            parker.park_timeout(&rt, Duration::from_millis(20));
        }
    }
    Ok(calls)
}

/// What is done while other seats are at work: a seat is measured, by this name and from this number of its rows on, or so many
/// seconds go by.
#[derive(Clone, Copy)]
enum Task {
    Measure(&'static str, u64, u32),
    Wait(u32),
}

/// Does this while the seats are at work, of which so many learn as well, and gives them back.
fn run_beside<
    J: Naming + Send + Sync + 'static,
    R: Wait + Threads + Print + Files + Clock + AllocGlobal + Copy + Send + Sync + 'static,
>(
    rt: R,
    alloc: Global,
    own: &mut BookSeat<J, R>,
    seats: Vec<BookSeat<J, R>>,
    learners: u8,
    task: Task,
) -> io::Result<Vec<BookSeat<J, R>>> {
    let stop = Arc::new(alloc, AtomicBool::new(false))?;
    let mut threads = Vec::new(alloc);
    let mut back = Vec::new(alloc);
    for mut seat in seats {
        let habit = Habit {
            learns: threads.len() < usize::from(learners),
            pauses: matches!(task, Task::Measure(..)),
        };
        let stop = Arc::try_clone(&stop)?;
        if let Ok(thread) = thread::spawn(&rt, move || {
            let calls = work_beside(rt, alloc, &mut seat, habit, &stop);
            (seat, calls)
        }) {
            threads.push(thread)?;
        }
    }
    match task {
        Task::Measure(name, from, count) => times(&rt, alloc, own, from, count, name)?,
        Task::Wait(seconds) => wait(&rt, seconds),
    }
    stop.store(true, Ordering::SeqCst);
    let mut calls: u64 = 0;
    for thread in threads {
        let (seat, made) = thread.join(&rt);
        calls = calls.saturating_add(made?);
        back.push(seat)?;
    }
    println!(rt; "beside {} {calls}", back.len())?;
    Ok(back)
}
