ghost use Rattle.std.specs.Prelude.{◌≡◌, ◌++◌, [], ◌∷◌, Option, List, None, OnErr};
ghost use Rattle.rd_token_map.specs.BookCalls.{BookCall, Learns, Finds};

use rd_base::{NoMemory, Row};

/// Rows that sessions share: each tells what it learns, and looks up what others have learnt.
/// Its calls are told by those that say so alone.
pub trait TokenBook: Drop {
    ghost tells: { Self → Option (List BookCall) };

    /// Tells of a row. A refused call changes nothing.
    fn learn(&mut self, row: &Row) -> Result<(), NoMemory>
        ensures told { Learns row.now result (tells self.old) (tells self.new) }
        ensures err { OnErr result (self.new ≡ self.old) };

    /// The first row of the book that shows this word.
    fn find(&mut self, word: &[u8]) -> Option<Row>
        ensures { Finds word.now result (tells self.old) (tells self.new) };
}

/// A book that keeps nothing.
#[derive(Drop)]
pub struct NoBook;

impl TokenBook for NoBook {
    ghost tells = { λ _. None };

    fn learn(&mut self, row: &Row) -> Result<(), NoMemory>
        ensures told { Learns row.now result None None }
        ensures ok { result ≡ Ok tt }
        ensures err { OnErr result (self.new ≡ self.old) }
    {
        let _ = row;
        Ok(())
    }

    fn find(&mut self, word: &[u8]) -> Option<Row>
        ensures finds { Finds word.now result None None }
        ensures none { result ≡ None }
    {
        let _ = word;
        None
    }
}
