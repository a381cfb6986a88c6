ghost use Rattle.rd_core.specs.Standing.{IsAt};
ghost use Rattle.rd_turn.specs.Turns.{rules_by};
ghost use Rattle.rd_turn.specs.Books.{FindsAll, LooksUp, Tells};

use rd_base::{Happening, NoMemory, Rows, Words};
use rd_core::Session;
use rd_dialect::Dialect;
use rd_token_map::TokenBook;
use std::alloc::Global;

/// The most words that a step wants.
const MOST_WORDS: usize = 4096;

/// Looks up the words that this happening wants. It answers the rows that the book has for them.
pub(crate) fn look_up<D: Dialect, B: TokenBook>(
    alloc: Global,
    session: &Session<D>,
    book: &mut B,
    happening: &Happening,
) -> Result<Rows, NoMemory>
    ensures looks { LooksUp (rules_by D.grammar session.now)
        (IsAt (rules_by D.grammar session.now) session.now) happening.now (B.tells book.old)
        (B.tells book.new) result }
{
    let words = session.wanted(happening)?;
    find_all(alloc, book, &words)
}

/// Looks up these words, the first 4,096.
fn find_all<B: TokenBook>(alloc: Global, book: &mut B, words: &Words) -> Result<Rows, NoMemory>
    ensures finds { FindsAll words.now (B.tells book.old) (B.tells book.new) result }
{
    let mut rows = Rows::new(alloc);
    for place in 0..words.len().min(MOST_WORDS) {
        match book.find(words.at(place)) {
            Some(row) => rows.push(&row)?,
            None => (),
        }
    }
    Ok(rows)
}

/// Tells the book of these rows.
pub(crate) fn learn_all<B: TokenBook>(book: &mut B, rows: &Rows) -> Result<(), NoMemory>
    ensures tells { Tells rows.now (B.tells book.old) (B.tells book.new) result }
{
    for place in 0..rows.len() {
        book.learn(rows.at(place))?;
    }
    Ok(())
}
