ghost use Rattle.std.specs.Prelude.{◌≡◌, Option, OnErr};
ghost use Rattle.rd_lent_book.specs.Lending.{BookView, Asked, Moves, calls_told};
ghost use Rattle.rd_token_map.specs.BookCalls.{Learns, Finds};

use rd_base::{NoMemory, Row};
use rd_lent_book::LentBook;
use rd_token_map::TokenBook;
use std::marker::{Brand, Model, PhantomData};

/// What a book told as a session began. Each session picks it.
pub(crate) trait Beginning {
    ghost began: { Option BookView };
}

impl Beginning for Brand {
    ghost use Rattle.std.specs.Prelude.{None};

    ghost began = { None };
}

/// A book while a session asks and tells it, which nobody else does.
#[derive(Drop)]
pub(crate) struct AskedBook<J: Beginning, B: LentBook> {
    book: B,
    of: PhantomData<J>,
}

impl<J: Beginning, B: LentBook> Model for AskedBook<J, B> {
    ghost use Rattle.std.specs.Prelude.{Option};
    ghost use Rattle.rd_lent_book.specs.Lending.{BookView, Asked, Moves};

    ghost Value = { Option BookView };

    ghost view = { λ a. B.told a.book };

    ghost invariant = { λ a. Moves Asked J.began (B.told a.book) };
}

impl<J: Beginning, B: LentBook> TokenBook for AskedBook<J, B> {
    ghost tells = { λ a. calls_told a };

    fn learn(&mut self, row: &Row) -> Result<(), NoMemory>
        ensures told { Learns row.now result (calls_told self.old) (calls_told self.new) }
        ensures err { OnErr result (self.new ≡ self.old) }
    {
        self.book.learn(row)
    }

    fn find(&mut self, word: &[u8]) -> Option<Row>
        ensures { Finds word.now result (calls_told self.old) (calls_told self.new) }
    {
        self.book.find(word)
    }
}

impl<J: Beginning, B: LentBook> AskedBook<J, B> {
    pub fn new(book: B) -> AskedBook<J, B>
        requires { J.began ≡ B.told book }
        ensures { result ≡ B.told book }
    {
        AskedBook {
            book,
            of: PhantomData,
        }
    }

    /// The book again, which was asked and told since, and nothing else.
    pub fn into_book(self) -> B
        ensures same { B.told result ≡ self }
        ensures asked { Moves Asked J.began (B.told result) }
    {
        let AskedBook { book, of: _ } = self;
        book
    }
}
