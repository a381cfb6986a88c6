use rd_base::Row;
use std::collections::LinkedList;

/// An entry of the list: a seat's number, the number of this learn among that seat's, from 0, and the row. No value
/// of it is made.
pub struct Learn {
    pub seat: u8,
    pub number: u64,
    pub row: LinkedList<LinkedList<u8>>,
}

/// What an entry is made of.
#[derive(Drop)]
pub struct Learnt<'a> {
    pub seat: u8,
    pub number: u64,
    pub row: &'a Row,
}
