// The book of rows that sessions share: each seat tells what it learns, and looks up what others have learnt.
#![tactic(auto)]

mod book;
mod book_rows;
mod desk;
mod key;
mod keyed_row;
mod known;
mod lender;
mod seat;
mod shelf;

pub use book::Book;
pub use lender::Lender;
pub use seat::{BookSeat, Seat};
pub use shelf::{Addition, Shelf};

#[cfg(test)]
mod tests;
