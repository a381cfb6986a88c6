ghost use Rattle.std.specs.Prelude.{◌≡◌, ◌≤◌, ◌-◌, ℕ, true, Some, None, map, set, slice_get, IfOk, IfSome, IfNone, OnOk, OnErr};
ghost use mathlib.Core.List.{IsPrefix};
ghost use Rattle.rd_base.specs.History.{Row as TokenRow};
ghost use Rattle.rd_base.specs.Swap.{shows};
ghost use Rattle.rd_history.specs.Learns.{of_seat, learns_by};
ghost use Rattle.rd_lent_book.specs.Lending.{BookView, Learnt, Looked, Lends, TakesBack, IsHeard, MovesWith, new_book};
ghost use Rattle.rd_lent_book.specs.Seats.{SeatView, IsFresh, learned};

use crate::book::make_seats;
use crate::seat::BookSeat;
use rd_base::{NoMemory, Row};
use rd_history::{Naming, NewList};
use rd_lent_book::LentBook;
use rd_token_map::TokenBook;
use std::alloc::{AllocError, Global};
use std::marker::Model;
use std::sync::Wait;

/// A seat with those of its book that it lends to sessions, each at the place of its number.
#[derive(Drop)]
pub struct Lender<J: Naming, R: Wait + Copy> {
    alloc: Global,
    seat: BookSeat<J, R>,
    slots: Vec<Option<BookSeat<J, R>>>,
}

impl<J: Naming, R: Wait + Copy> Model for Lender<J, R> {
    ghost use Rattle.rd_lent_book.specs.Lending.{BookView};

    ghost Value = { BookView };

    ghost view = { λ l. record { seats = J.seats; own = l.seat; spare = l.slots.items } };
}

impl<J: Naming, R: Wait + Copy> Lender<J, R> {
    /// An empty book with this many seats, of which it keeps the last and lends the others. Room is taken here.
    pub fn make(rt: R, alloc: Global, list: NewList, seats: u8) -> Result<Lender<J, R>, NoMemory>
        requires book { list.seen.book ≡ J.book }
        requires seats { seats ≡ J.seats }
        requires least { 1 ≤ seats }
        requires most { seats ≤ 33 }
        ensures { IfOk result (λ lender. lender ≡ new_book (seats - 1)) }
    {
        let Ok(mut made) = make_seats::<J, R>(rt, alloc, list, seats) else {
            return Err(NoMemory);
        };
        let Some(seat) = made.pop() else {
            unreachable!()
        };
        match slots_of(alloc, made) {
            Ok(slots) => Ok(Lender { alloc, seat, slots }),
            Err(_) => Err(NoMemory),
        }
    }
}

/// A slot for each of these, with it.
fn slots_of<T: Drop>(alloc: Global, items: Vec<T>) -> Result<Vec<Option<T>>, AllocError>
    ensures { IfOk result (λ slots. slots.items ≡ map (λ x. Some x) items.items) }
{
    let mut slots = Vec::new(alloc);
    for item in items {
        slots.push(Some(item))?;
    }
    Ok(slots)
}

/// Takes what stands in the first slot that has something.
fn take_first<T: Drop>(slots: &mut Vec<Option<T>>) -> Option<T>
    ensures some { IfSome result (λ x. (place : ℕ)
        × (slice_get slots.old.items place ≡ Some (Some x))
        × (slots.new.items ≡ set slots.old.items place None)) }
    ensures none { IfNone result (slots.new.items ≡ slots.old.items) }
{
    for place in 0..slots.len() {
        if let Some(item) = slots[place].take() {
            return Some(item);
        }
    }
    None
}

/// Has the seat that stands in a slot heed this one.
fn heed_from<J: Naming, R: Wait + Copy>(slot: &mut Option<BookSeat<J, R>>, own: &mut BookSeat<J, R>)
    ensures heard { IfSome slot.old (λ seat. IsPrefix (of_seat seat.number own.old.learns)
        (learns_by seat.number (learned seat.calls))) }
    ensures goes_on { IsPrefix own.old.learns own.new.learns }
{
    if let Some(seat) = slot {
        seat.heed(own);
    }
}

impl<J: Naming, R: Wait + Copy> LentBook for Lender<J, R> {
    ghost told = { λ l. Some l };

    fn learn(&mut self, row: &Row) -> Result<(), NoMemory>
        ensures told { OnOk result (Learnt row.now self.old self.new) }
        ensures err { OnErr result (self.new ≡ self.old) }
    {
        self.seat.learn(row)
    }

    fn find(&mut self, word: &[u8]) -> Option<Row>
        ensures shown { (row : TokenRow) → result ≡ Some row → shows word.now row ≡ true }
        ensures told { Looked word.now result self.old self.new }
    {
        self.seat.find(word)
    }

    /// Lends a seat that has heeded this one. None where all are lent.
    fn another(&mut self) -> Option<Lender<J, R>>
        ensures lent { IfSome result (λ other. Lends self.old other self.new) }
        ensures none { IfNone result (Some self.new ≡ Some self.old) }
    {
        let Lender { alloc, seat, slots } = self;
        let mut other = take_first(slots)?;
        other.heed(seat);
        Some(Lender {
            alloc: *alloc,
            seat: other,
            slots: Vec::new(*alloc),
        })
    }

    /// Heeds the seat that comes back, which may be lent again.
    fn join_in(&mut self, other: Lender<J, R>)
        ensures back { TakesBack self.old other self.new }
    {
        let Lender {
            alloc: _,
            seat: mut back,
            slots: _,
        } = other;
        let Lender {
            alloc: _,
            seat,
            slots,
        } = self;
        seat.heed(&mut back);
        let number = usize::from(back.number());
        if number < slots.len() {
            slots[number] = Some(back);
        }
    }

    fn be_heeded(&mut self)
        ensures heard { IsHeard self.old }
    {
        let Lender {
            alloc: _,
            seat,
            slots,
        } = self;
        for place in 0..slots.len() {
            heed_from(&mut slots[place], seat);
        }
    }
}
