// Books of rows that one who serves sessions lends to each of them, and takes back.
#![tactic(auto)]

ghost use Rattle.std.specs.Prelude.{◌≡◌, true, Option, Some, None, IfSome, IfNone, OnOk, OnErr};
ghost use Rattle.rd_base.specs.History.{Row as TokenRow};
ghost use Rattle.rd_base.specs.Swap.{shows};
ghost use Rattle.rd_lent_book.specs.Lending.{BookView, Learnt, Looked, Lends, TakesBack, IsHeard, Moves, MovesWith};

use rd_base::{NoMemory, Row};
use rd_token_map::NoBook;

/// A book that lends others of its kind: rows that sessions share. One that is lent has seen all that its lender saw, and
/// a lender sees all that was seen by those that come back. What is told of it is told by those that say so alone.
pub trait LentBook: Drop {
    /// Its own seat, and those that it may lend.
    ghost told: { Self → Option BookView };

    /// Tells of a row. A refused call changes nothing.
    fn learn(&mut self, row: &Row) -> Result<(), NoMemory>
        ensures told { OnOk result (Moves (Learnt row.now) (told self.old) (told self.new)) }
        ensures err { OnErr result (self.new ≡ self.old) };

    /// The first row of the book that shows this word.
    fn find(&mut self, word: &[u8]) -> Option<Row>
        ensures shown { (row : TokenRow) → result ≡ Some row → shows word.now row ≡ true }
        ensures told { Moves (Looked word.now result) (told self.old) (told self.new) };

    /// A book for one more session. None where no more can be lent.
    fn another(&mut self) -> Option<Self>
        ensures lent { IfSome result (λ other. MovesWith Lends
            (told self.old) (told other) (told self.new)) }
        ensures none { IfNone result (told self.new ≡ told self.old) };

    /// Takes back a book that was lent.
    fn join_in(&mut self, other: Self)
        ensures back { MovesWith TakesBack (told self.old) (told other) (told self.new) };

    /// Has each book that it may lend heed this one, once no more sessions come.
    fn be_heeded(&mut self)
        ensures heard { IfSome (told self.old) IsHeard };
}

/// A book that keeps nothing lends any number of its kind.
impl LentBook for NoBook {
    ghost told = { λ _. None };

    fn learn(&mut self, row: &Row) -> Result<(), NoMemory> {
        let _ = row;
        Ok(())
    }

    fn find(&mut self, word: &[u8]) -> Option<Row> {
        let _ = word;
        None
    }

    fn another(&mut self) -> Option<NoBook> {
        Some(NoBook)
    }

    fn join_in(&mut self, other: NoBook) {
        let _ = other;
    }

    fn be_heeded(&mut self) {}
}
