ghost use Rattle.std.specs.Prelude.{◌≡◌, ◌≤◌, ◌++◌, ◌∷◌, [], IfOk, MatchOption};
ghost use Rattle.rd_lent_book.specs.Seats.{SeatView, new_seats};

use crate::desk::Desk;
use crate::known::Known;
use crate::seat::BookSeat;
use crate::shelf::Shelf;
use left_right::WriteHandle;
use rd_base::NoMemory;
use rd_history::{Naming, NewList};
use std::alloc::{AllocError, Global};
use std::marker::Model;
use std::sync::{Arc, Mutex, Wait};

/// A book whose seats are given out in turn. To a contract it is the seats that are left.
#[derive(Drop)]
pub struct Book<J: Naming, R: Wait + Copy> {
    seats: Vec<BookSeat<J, R>>,
}

impl<J: Naming, R: Wait + Copy> Model for Book<J, R> {
    ghost use Rattle.std.specs.Prelude.{List};
    ghost use Rattle.rd_lent_book.specs.Seats.{SeatView};

    ghost Value = { List SeatView };

    ghost view = { λ b. b.seats.items };
}

impl<J: Naming, R: Wait + Copy> Book<J, R> {
    /// An empty book with this many seats. Room for its rows and its readers is taken here.
    pub fn make(rt: R, alloc: Global, list: NewList, seats: u8) -> Result<Book<J, R>, NoMemory>
        requires book { list.seen.book ≡ J.book }
        requires seats { seats ≡ J.seats }
        requires least { 1 ≤ seats }
        requires most { seats ≤ 33 }
        ensures { IfOk result (λ book. book ≡ new_seats seats) }
    {
        match make_seats(rt, alloc, list, seats) {
            Ok(seats) => Ok(Book { seats }),
            Err(_) => Err(NoMemory),
        }
    }

    /// A seat that wasn't given out before; `None` exactly where all were.
    pub fn seat(&mut self) -> Option<BookSeat<J, R>>
        ensures { MatchOption result ((self.old ≡ [])
            × (self.new ≡ [])) (λ seat. self.old ≡ self.new ++ seat ∷ []) }
    {
        self.seats.pop()
    }
}

/// The seats of an empty book.
pub(crate) fn make_seats<J: Naming, R: Wait + Copy>(
    rt: R,
    alloc: Global,
    list: NewList,
    seats: u8,
) -> Result<Vec<BookSeat<J, R>>, AllocError>
    requires book { list.seen.book ≡ J.book }
    requires seats { seats ≡ J.seats }
    requires least { 1 ≤ seats }
    requires most { seats ≤ 33 }
    ensures { IfOk result (λ made. made.items ≡ new_seats seats) }
{
    let (length, learns) = list.named::<J>();
    let first = Shelf::make(alloc, seats, learns.again())?;
    let second = Shelf::make(alloc, seats, learns.again())?;
    let writer = WriteHandle::new(alloc, rt, first, second, seats as usize)?;
    let readers = writer.factory()?;
    let desk = Arc::new(alloc, Mutex::new(Desk::new(writer)))?;
    let length = Arc::new(alloc, length)?;
    let mut made = Vec::with_capacity(alloc, seats as usize)?;
    'seats: for number in 0..seats {
        let known = Known::new(number, learns.again());
        let seat = BookSeat::new(
            Arc::try_clone(&desk)?,
            Arc::try_clone(&length)?,
            readers.handle()?,
            known,
            alloc,
            rt,
        );
        made.push(seat)?;
    }
    Ok(made)
}
