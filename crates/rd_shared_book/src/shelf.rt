ghost use Rattle.std.specs.Prelude.{◌≡◌, ◌≤◌, ◌<◌, ◌==◌, [], ◌∷◌, ◌++◌, length, IfOk, OnOk, OnErr, slice_get, Some, unwrap_or};
ghost use Rattle.rd_history.specs.Learns.{of_seat, AreBelow};
ghost use Rattle.rd_lent_book.specs.Books.{found};
ghost use Rattle.rd_shared_book.specs.Books.{EndsIn, follow};

use crate::book_rows::BookRows;
use crate::keyed_row::KeyedRow;
use left_right::Absorb;
use rd_base::Row;
use rd_history::{Learn, Learns, Naming};
use std::alloc::{AllocError, Global};
use std::marker::Model;

/// A copy of the book. To a contract it is the list of learns that it stands for.
#[derive(Drop)]
pub struct Shelf<J: Naming> {
    rows: BookRows,
    counts: Vec<u64>,
    learns: Learns<J>,
}

impl<J: Naming> Model for Shelf<J> {
    ghost use Rattle.std.specs.Prelude.{List};
    ghost use Rattle.rd_history.specs.declared.learn.Learn.{Learn};
    ghost use Rattle.rd_shared_book.specs.Books.{IsBook};

    ghost Value = { List Learn };

    ghost view = { λ s. s.learns };

    ghost invariant = { λ s. IsBook J.seats s.rows s.counts.items s.learns };
}

/// A learn, and the list of learns that it ends.
#[derive(Drop)]
pub struct Addition<J: Naming> {
    seat: u8,
    row: KeyedRow,
    after: Learns<J>,
}

impl<J: Naming> Model for Addition<J> {
    ghost use Rattle.std.specs.Prelude.{List};
    ghost use Rattle.rd_history.specs.declared.learn.Learn.{Learn};
    ghost use Rattle.rd_shared_book.specs.Books.{EndsIn};

    ghost Value = { List Learn };

    ghost view = { λ a. a.after };

    ghost invariant = { λ a. EndsIn J.seats a.seat a.row a.after };
}

impl<J: Naming> Absorb<Addition<J>> for Shelf<J> {
    type State = [Learn; 0];

    ghost state = { λ s. s };

    ghost applied = { follow };

    fn absorb_first(
        &mut self,
        operation: &Addition<J>,
        _other: &Shelf<J>,
    ) -> Result<(), AllocError> {
        self.add(operation)
    }
}

impl<J: Naming> Addition<J> {
    pub(crate) fn new(seat: u8, row: KeyedRow, after: Learns<J>) -> Addition<J>
        requires { EndsIn J.seats seat row after }
        ensures { result ≡ after }
    {
        Addition { seat, row, after }
    }
}

impl<J: Naming> Shelf<J> {
    /// The empty book, in room that is taken here.
    pub(crate) fn make(alloc: Global, seats: u8, learns: Learns<J>) -> Result<Shelf<J>, AllocError>
        requires empty { learns ≡ [] }
        requires seats { seats ≡ J.seats }
        ensures { IfOk result (λ s. s ≡ []) }
    {
        Ok(Shelf {
            rows: BookRows::make(alloc)?,
            counts: Vec::from_elem(alloc, 0, seats as usize)?,
            learns,
        })
    }

    /// The list that it stands for.
    pub(crate) fn learns(&self) -> Learns<J>
        ensures is { result ≡ self.now }
        ensures below { AreBelow J.seats self.now }
    {
        self.learns.again()
    }

    /// Whether this many of its learns are the seat's.
    pub(crate) fn has_learns(&self, seat: u8, count: u64) -> bool
        requires { seat < J.seats }
        ensures { result ≡ (length (of_seat seat self.now) == count) }
    {
        self.counts[seat as usize] == count
    }

    /// The first row that shows this word.
    pub(crate) fn find(&self, word: &[u8]) -> Option<Row>
        ensures { result ≡ found word.now self.now }
    {
        self.rows.find(word)
    }

    /// Takes in a learn that follows its list.
    fn add(&mut self, addition: &Addition<J>) -> Result<(), AllocError>
        ensures ok { OnOk result (self.new ≡ follow self.old addition.now) }
        ensures err { OnErr result (self.new ≡ self.old) }
    {
        if !self.learns.is_next(&addition.after) {
            return Ok(());
        }
        self.rows.learn(&addition.row)?;
        self.counts[addition.seat as usize] += 1;
        self.learns = addition.after.again();
        Ok(())
    }
}
