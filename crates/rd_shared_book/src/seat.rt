ghost use Rattle.std.specs.Prelude.{◌≡◌, ◌++◌, ◌∷◌, [], Some, IfSome, IfNone, IfOk, OnOk, OnErr};
ghost use mathlib.Core.List.{IsPrefix};
ghost use Rattle.rd_token_map.specs.BookCalls.{Learns as TellsLearn, Finds};
ghost use Rattle.rd_lent_book.specs.Books.{found};
ghost use Rattle.rd_lent_book.specs.Seats.{SeatView, IsFresh, HoldsOwn};

use crate::desk::Desk;
use crate::keyed_row::KeyedRow;
use crate::known::Known;
use crate::shelf::{Addition, Shelf};
use left_right::{Absorb, ReadHandle};
use rd_base::{NoMemory, Row};
use rd_history::{Learns, Length, Naming};
use rd_token_map::TokenBook;
use std::alloc::Global;
use std::marker::Model;
use std::sync::{Arc, Mutex, Wait};

/// One of those that share a book: it reads without a lock, and writes under the book's.
#[derive(Drop)]
pub struct Seat<T: Absorb<O> + Drop, O: Drop, J: Naming, R: Wait + Copy> {
    desk: Arc<Mutex<Desk<T, O, R>>, Global>,
    length: Arc<Length<J>, Global>,
    reader: ReadHandle<T>,
    known: Known<J>,
    alloc: Global,
    rt: R,
}

pub type BookSeat<J, R> = Seat<Shelf<J>, Addition<J>, J, R>;

impl<T: Absorb<O> + Drop, O: Drop, J: Naming, R: Wait + Copy> Model for Seat<T, O, J, R> {
    ghost use Rattle.rd_lent_book.specs.Seats.{SeatView};

    ghost Value = { SeatView };

    ghost view = { λ s. s.known };

    ghost invariant = { λ s. Unit {0} };
}

impl<J: Naming, R: Wait + Copy> TokenBook for BookSeat<J, R> {
    ghost tells = { λ s. Some s.calls };

    /// Appends the row to the list, which then goes on from what this seat saw.
    fn learn(&mut self, row: &Row) -> Result<(), NoMemory>
        ensures told { TellsLearn row.now result (Some self.old.calls) (Some self.new.calls) }
        ensures fresh { OnOk result (IsFresh J.seats self.old self.new) }
        ensures err { OnErr result (self.new ≡ self.old) }
    {
        let shared = match Arc::new(self.alloc, row.copied()) {
            Ok(shared) => KeyedRow::new(shared),
            Err(_) => return Err(NoMemory),
        };
        let rt = self.rt;
        for _ in rt.forever() {
            let mut desk = self.desk.lock(&rt);
            if let Some(after) = self.known.learn(&rt, desk.published(), &self.length, row) {
                desk.put(&rt, Addition::new(self.known.number(), shared, after));
                return Ok(());
            }
        }
        unreachable!()
    }

    /// The first row that shows the word, in the book after a list of learns that goes on from what this seat saw.
    fn find(&mut self, word: &[u8]) -> Option<Row>
        ensures told { Finds word.now result (Some self.old.calls) (Some self.new.calls) }
        ensures answer { result ≡ found word.now self.new.learns }
        ensures fresh { IsFresh J.seats self.old self.new }
    {
        let rt = self.rt;
        for _ in rt.forever() {
            if let Some(answer) = look_up(&rt, &mut self.reader, &mut self.known, word) {
                return answer;
            }
        }
        unreachable!()
    }
}

impl<J: Naming, R: Wait + Copy> BookSeat<J, R> {
    pub(crate) fn new(
        desk: Arc<Mutex<Desk<Shelf<J>, Addition<J>, R>>, Global>,
        length: Arc<Length<J>, Global>,
        reader: ReadHandle<Shelf<J>>,
        known: Known<J>,
        alloc: Global,
        rt: R,
    ) -> BookSeat<J, R>
        ensures { result ≡ known }
    {
        Seat {
            desk,
            length,
            reader,
            known,
            alloc,
            rt,
        }
    }

    /// Its number in the book. What it saw holds of its own learns exactly those that it made.
    pub fn number(&self) -> u8
        ensures value { result ≡ self.now.number }
        ensures holds { HoldsOwn J.seats self.now }
    {
        self.known.number()
    }

    /// Afterwards the list of each of the two goes on from those that either saw before. Both are of one book.
    pub fn heed(&mut self, other: &mut BookSeat<J, R>)
        ensures this { IsFresh J.seats self.old self.new }
        ensures that { IsFresh J.seats other.old other.new }
        ensures heeds { IsPrefix other.old.learns self.new.learns }
        ensures heeded { IsPrefix self.old.learns other.new.learns }
        ensures calls { self.new.calls ≡ self.old.calls }
        ensures other_calls { other.new.calls ≡ other.old.calls }
    {
        let learns = seen_by_both(&self.rt, &mut self.reader, &self.known, &other.known);
        other.known.see(learns.again());
        self.known.see(learns);
    }
}

/// Looks a word up in what is published. `None` where the seat has to look again, and then nothing has
/// changed.
fn look_up<J: Naming, R: Wait>(
    rt: &R,
    reader: &mut ReadHandle<Shelf<J>>,
    known: &mut Known<J>,
    word: &[u8],
) -> Option<Option<Row>>
    ensures told { IfSome result (λ answer. Finds word.now answer (Some known.old.calls)
        (Some known.new.calls)) }
    ensures answer { IfSome result (λ answer. answer ≡ found word.now known.new.learns) }
    ensures fresh { IfSome result (λ answer. IsFresh J.seats known.old known.new) }
    ensures none { IfNone result (known.new ≡ known.old) }
{
    let guard = reader.enter()?;
    let shelf: &Shelf<J> = &guard;
    if !known.agrees(shelf) {
        return None;
    }
    let answer = shelf.find(word);
    known.see(shelf.learns());
    known.found(rt, word, &answer);
    Some(answer)
}

/// A published list that both seats can see.
fn seen_by_both<J: Naming, R: Wait>(
    rt: &R,
    reader: &mut ReadHandle<Shelf<J>>,
    one: &Known<J>,
    two: &Known<J>,
) -> Learns<J>
    ensures one { IsFresh J.seats one.now (record one.now { learns = result }) }
    ensures two { IsFresh J.seats two.now (record two.now { learns = result }) }
{
    for _ in rt.forever() {
        if let Some(learns) = look_for_both(reader, one, two) {
            return learns;
        }
    }
    unreachable!()
}

/// The list that is published; `None` where one of the two has to look again.
fn look_for_both<J: Naming>(
    reader: &mut ReadHandle<Shelf<J>>,
    one: &Known<J>,
    two: &Known<J>,
) -> Option<Learns<J>>
    ensures one { IfSome result (λ learns. IsFresh J.seats one.now
        (record one.now { learns = learns })) }
    ensures two { IfSome result (λ learns. IsFresh J.seats two.now
        (record two.now { learns = learns })) }
{
    let guard = reader.enter()?;
    let shelf: &Shelf<J> = &guard;
    if !one.agrees(shelf) || !two.agrees(shelf) {
        return None;
    }
    Some(shelf.learns())
}
