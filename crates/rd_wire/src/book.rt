ghost use Rattle.std.specs.Prelude.{◌≡◌, ◌<◌, ◌+◌, ◌++◌, [], ◌∷◌, OnErr, OnOk, find, length, slice_get, option_map, Some, vec_len, vec_capacity};
ghost use Rattle.rd_base.specs.Swap.{shows};
ghost use Rattle.rd_base.specs.OwnRows.{learn_row};
ghost use Rattle.rd_token_map.specs.BookCalls.{Learns, Finds, Found, Learned};
ghost use Rattle.rd_wire.specs.Books.{book_tells, call_of};

use rd_base::{Bytes, NoMemory, Row, Rows};
use rd_token_map::TokenBook;
use std::alloc::Global;
use std::marker::Model;
use std::sync::Wait;

/// The most rows that a book keeps.
const MOST_ROWS: usize = 4096;

/// A call on a book, as it was answered.
#[derive(Drop)]
pub enum Call {
    /// A word that was looked up, and the row that shows it.
    Found(Bytes, Option<Row>),
    /// A row that was learnt.
    Learned(Row),
}

/// A book in memory, for tests: it keeps the rows that it learns, the newest first, one per shown word, at most 4,096, and
/// lists its calls. A look-up waits until there is room for its call, since it has no answer for want of memory.
#[derive(Drop)]
pub struct MemBook<R: Wait + Copy> {
    rt: R,
    alloc: Global,
    calls: Vec<Call>,
    rows: Rows,
    left: u64,
}

impl<R: Wait + Copy> Model for MemBook<R> {
    ghost use Rattle.std.specs.Prelude.{map};
    ghost use Rattle.rd_wire.specs.Books.{MemBookView, call_of};

    ghost Value = { MemBookView };

    ghost view = { λ b. record { calls = map call_of b.calls.items; rows = b.rows; left = b.left } };
}

impl<R: Wait + Copy> MemBook<R> {
    /// An empty book, which learns so many rows. To each further one it answers that there is no memory.
    pub fn new(rt: R, alloc: Global, most: u64) -> MemBook<R>
        ensures { result ≡ record { calls = []; rows = []; left = most } }
    {
        MemBook {
            rt,
            alloc,
            calls: Vec::new(alloc),
            rows: Rows::new(alloc),
            left: most,
        }
    }

    /// The number of calls that it has answered; a refused one isn't among them.
    pub fn len(&self) -> usize
        ensures { result ≡ length self.now.calls }
    {
        self.calls.len()
    }

    /// The call that stands there, from 0.
    pub fn at(&self, place: usize) -> &Call
        requires { place < length self.now.calls }
        ensures { slice_get self.now.calls place ≡ Some (call_of result.now) }
    {
        &self.calls[place]
    }
}

/// Waits until there is room for one call more.
fn make_room<R: Wait>(rt: &R, calls: &mut Vec<Call>)
    ensures same { calls.new.items ≡ calls.old.items }
    ensures room { vec_len calls.new < vec_capacity calls.new }
{
    for _ in rt.forever() {
        if calls.try_reserve(1).is_ok() {
            return;
        }
    }
    unreachable!()
}

/// A copy of a word, once there is room for it.
fn kept_word<R: Wait>(rt: &R, alloc: Global, word: &[u8]) -> Bytes
    ensures { result ≡ word.now }
{
    for _ in rt.forever() {
        if let Ok(kept) = Bytes::from_slice(alloc, word) {
            return kept;
        }
    }
    unreachable!()
}

fn row_of(row: Option<&Row>) -> Option<Row>
    ensures { result ≡ option_map (λ r. r.now) row.entry }
{
    match row {
        Some(row) => Some(row.copied()),
        None => None,
    }
}

/// Learns a row, where there is memory, and lists the call.
fn learn_into(
    alloc: Global,
    rows: &mut Rows,
    calls: &mut Vec<Call>,
    row: &Row,
) -> Result<(), NoMemory>
    ensures ok { OnOk result ((rows.new ≡ learn_row 4096 rows.old row.now)
        × (calls.new.items ≡ calls.old.items ++ Call.Learned row.now ∷ [])) }
    ensures err { OnErr result ((rows.new ≡ rows.old) × (calls.new.items ≡ calls.old.items)) }
{
    let mut learnt = Rows::new(alloc);
    learnt.push(row)?;
    if calls.try_reserve(1).is_err() {
        return Err(NoMemory);
    }
    rows.learn(MOST_ROWS, &learnt, 0)?;
    calls.push_reserved(Call::Learned(row.copied()));
    Ok(())
}

impl<R: Wait + Copy> TokenBook for MemBook<R> {
    ghost tells = { book_tells };

    fn learn(&mut self, row: &Row) -> Result<(), NoMemory>
        ensures told { Learns row.now result (book_tells self.old) (book_tells self.new) }
        ensures rows { OnOk result (self.new.rows ≡ learn_row 4096 self.old.rows row.now) }
        ensures left { OnOk result (self.old.left ≡ self.new.left + 1) }
        ensures err { OnErr result (self.new ≡ self.old) }
    {
        if self.left == 0 {
            return Err(NoMemory);
        }
        learn_into(self.alloc, &mut self.rows, &mut self.calls, row)?;
        self.left -= 1;
        Ok(())
    }

    fn find(&mut self, word: &[u8]) -> Option<Row>
        ensures finds { Finds word.now result (book_tells self.old) (book_tells self.new) }
        ensures answer { result ≡ find (shows word.now) self.old.rows }
        ensures rows { self.new.rows ≡ self.old.rows }
        ensures left { self.new.left ≡ self.old.left }
    {
        let kept = kept_word(&self.rt, self.alloc, word);
        make_room(&self.rt, &mut self.calls);
        let told = row_of(self.rows.find(word));
        self.calls.push_reserved(Call::Found(kept, told));
        row_of(self.rows.find(word))
    }
}
