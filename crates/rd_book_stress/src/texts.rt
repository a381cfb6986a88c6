use rd_base::{Row, is_row_word};
use rd_history::Naming;
use rd_shared_book::BookSeat;
use rd_token_map::TokenBook;
use std::alloc::{AllocError, Global};
use std::sync::Wait;

/// The words of a row that one seat alone learns, once.
#[derive(Drop)]
pub struct Texts {
    pub shown: String,
    pub own: String,
}

/// What a look-up came to.
#[derive(Clone, Copy, Debug, PartialEq, Eq)]
pub enum Found {
    /// The row, as it was learnt.
    Row,
    Nothing,
    /// Another row, or another text.
    Wrong,
}

/// Those of a seat's learn of this number.
pub fn texts_of(alloc: Global, seat: u64, number: u64) -> Result<Texts, AllocError> {
    Ok(Texts {
        shown: format!(in alloc; "shown-word-of-the-first-{seat}-{number}")?,
        own: format!(in alloc; "own-word-of-the-second-{seat}-{number}")?,
    })
}

/// The row of these.
pub fn row_of(texts: &Texts) -> Option<Row> {
    let shown = texts.shown.as_bytes();
    let own = texts.own.as_bytes();
    if !is_row_word(shown) || !is_row_word(own) {
        return None;
    }
    let mut row = Row::start(shown);
    row.push_own(own);
    Some(row)
}

/// Looks these up.
pub fn look<J: Naming, R: Wait + Copy>(seat: &mut BookSeat<J, R>, texts: &Texts) -> Found {
    match seat.find(texts.shown.as_bytes()) {
        None => Found::Nothing,
        Some(row) => {
            let is_own = row.len() == 2 && row.own(1) == texts.own.as_bytes();
            if is_own && row.word() == texts.shown.as_bytes() {
                Found::Row
            } else {
                Found::Wrong
            }
        }
    }
}

/// Learns the row of these, where there is memory.
pub fn teach<J: Naming, R: Wait + Copy>(seat: &mut BookSeat<J, R>, texts: &Texts) -> bool {
    match row_of(texts) {
        Some(row) => seat.learn(&row).is_ok(),
        None => false,
    }
}
