use crate::links::Links;
use crate::unit::LinkUnit;
use rd_base::{Phase, Rows};

/// The requests of an exchange, one by each link that asks, and how many places are masked in them.
#[derive(Drop)]
pub struct Request {
    pub phase: Phase,
    pub units: Vec<LinkUnit>,
    pub masked: u8,
}

/// The replies to a request, how many places are masked in them, and their rows.
#[derive(Drop)]
pub struct Replies {
    pub units: Vec<LinkUnit>,
    pub masked: u8,
    pub rows: Rows,
}

/// A whole exchange.
#[derive(Drop)]
pub struct DoneExchange {
    pub request: Request,
    pub replies: Replies,
}

/// What is open before an exchange.
#[derive(Drop)]
pub struct Front {
    pub phase: Phase,
    pub asking: Links,
    pub answering: Links,
}

/// What was read of a front: the exchanges, what is open past them where there are any, the request that is out, and
/// how many exchanges more might have been read.
#[derive(Drop)]
pub struct Reading<'a> {
    pub from: &'a Front,
    pub done: Vec<DoneExchange>,
    pub left: Option<Front>,
    pub out: Option<Request>,
    pub spare: u32,
}
