ghost use Rattle.std.specs.Prelude.{◌≡◌, ◌<◌, ◌^◌, ◌++◌, ◌∷◌, [], IsTrue, IfSome, IfNone, MatchBool};
ghost use mathlib.Core.List.{IsPrefix};
ghost use Rattle.rd_token_map.specs.BookCalls.{BookCall, Found, Learned};
ghost use Rattle.rd_shared_book.specs.Books.{EndsIn};
ghost use Rattle.rd_lent_book.specs.Seats.{SeatView, IsFresh, HoldsOwn, new_seat};

use crate::shelf::Shelf;
use rd_base::Row;
use rd_history::{Calls, Learns, Learnt, Length, Naming};
use std::marker::Model;
use std::sync::Wait;

/// The most learns of a list. No machine makes so many.
const MOST_LEARNS: u64 = 1 << 62;

/// What a seat knows: its number, how many learns it made, the list of all learns that it saw last, and its calls.
#[derive(Drop)]
pub(crate) struct Known<J: Naming> {
    number: u8,
    learnt: u64,
    learns: Learns<J>,
    calls: Calls,
}

impl<J: Naming> Model for Known<J> {
    ghost use Rattle.std.specs.Prelude.{◌≡◌, length};
    ghost use Rattle.rd_lent_book.specs.Seats.{SeatView, HoldsOwn, learned};

    ghost Value = { SeatView };

    ghost view = { λ k. record { number = k.number; learns = k.learns; calls = k.calls } };

    ghost invariant = { λ k. HoldsOwn J.seats (record { number = k.number; learns = k.learns; calls = k.calls }) × (k.learnt ≡ length (learned k.calls)) };
}

impl<J: Naming> Known<J> {
    /// A seat that has seen nothing yet.
    pub fn new(number: u8, learns: Learns<J>) -> Known<J>
        requires empty { learns ≡ [] }
        requires below { number < J.seats }
        ensures { result ≡ new_seat number }
    {
        Known {
            number,
            learnt: 0,
            learns,
            calls: Calls::new(),
        }
    }

    pub fn number(&self) -> u8
        ensures value { result ≡ self.now.number }
        ensures holds { HoldsOwn J.seats self.now }
    {
        self.number
    }

    /// Whether the list of this copy of the book goes on from the one that the seat saw, and has as many learns of
    /// it as it made.
    pub fn agrees(&self, shelf: &Shelf<J>) -> bool
        ensures { IsTrue result
            → IsFresh J.seats self.now (record self.now { learns = shelf.now }) }
    {
        self.learns.begins(&shelf.learns()) && shelf.has_learns(self.number, self.learnt)
    }

    /// Sees this list.
    pub fn see(&mut self, learns: Learns<J>)
        requires { IsFresh J.seats self.old (record self.old { learns = learns }) }
        ensures { self.new ≡ record self.old { learns = learns } }
    {
        self.learns = learns;
    }

    /// Has looked up a word.
    pub fn found<R: Wait>(&mut self, rt: &R, word: &[u8], answer: &Option<Row>)
        ensures { self.new ≡ record self.old {
          calls = self.old.calls
              ++ Found word.now answer.now ∷ [];
        } }
    {
        self.calls.found(rt, word, answer);
    }

    /// Makes a learn that follows the list of this copy of the book, and answers the list after it. Where it doesn't
    /// nothing has changed.
    pub fn learn<R: Wait>(
        &mut self,
        rt: &R,
        shelf: &Shelf<J>,
        length: &Length<J>,
        row: &Row,
    ) -> Option<Learns<J>>
        ensures some { IfSome result (λ after. IsFresh J.seats self.old self.new
            × (self.new.learns ≡ after) × (self.new.calls ≡ self.old.calls
            ++ Learned row.now ∷ [])) }
        ensures ends { IfSome result (λ after. EndsIn J.seats self.old.number row.now after) }
        ensures none { IfNone result (self.new ≡ self.old) }
    {
        if !self.agrees(shelf) {
            return None;
        }
        let mut learns = shelf.learns();
        if learns.len() >= MOST_LEARNS {
            return None;
        }
        let learnt = Learnt {
            seat: self.number,
            number: self.learnt,
            row,
        };
        if !learns.append(length, &learnt) {
            return None;
        }
        self.learns = learns.again();
        self.learnt += 1;
        self.calls.learned(rt, row);
        Some(learns)
    }
}
