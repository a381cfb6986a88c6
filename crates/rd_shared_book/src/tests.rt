ghost use Rattle.std.specs.Prelude.{◌≡◌};

use crate::Book;
use rd_base::{Row, is_row_word};
use rd_history::{Naming, NewList};
use rd_token_map::TokenBook;
use std::alloc::Global;
use std::marker::Brand;
use std::process::Abort;
use std::rt::HostRuntime;
use std::sync::Wait;

const SHOWN: &str = "abcdefghijklmnop+q00";

const SECOND: &str = "abcdefghijklmnop+q11";

const THIRD: &str = "abcdefghijklmnop.q22222";

fn token_row(rt: &impl Abort) -> Row {
    assert!(rt; is_row_word(SHOWN.as_bytes()));
    let mut row = Row::start(SHOWN.as_bytes());
    for own in [SECOND, THIRD] {
        assert!(rt; is_row_word(own.as_bytes()) && row.len() < 8);
        row.push_own(own.as_bytes());
    }
    row
}

fn has_third(answer: Option<Row>) -> bool {
    match answer {
        Some(row) => row.len() == 3 && row.own(2) == THIRD.as_bytes(),
        None => false,
    }
}

/// A row is found by its shown word alone, by the seat that learnt it, and by another once it heeded that one.
fn two_seats<J: Naming, R: Wait + Copy>(
    rt: R,
    alloc: Global,
    list: NewList,
    row: &Row,
) -> Option<bool>
    requires book { list.seen.book ≡ J.book }
    requires seats { J.seats ≡ 2 }
{
    let mut book = Book::<J, R>::make(rt, alloc, list, 2).ok()?;
    let mut one = book.seat()?;
    let mut two = book.seat()?;
    one.learn(row).ok()?;
    let own = has_third(one.find(SHOWN.as_bytes())) && one.find(SECOND.as_bytes()).is_none();
    two.heed(&mut one);
    Some(own && has_third(two.find(SHOWN.as_bytes())) && book.seat().is_none())
}

#[test]
fn a_row_goes_to_the_other_seat(rt: HostRuntime) {
    let row = token_row(&rt);
    let both = two_seats::<Brand, HostRuntime>(rt, rt.alloc(), NewList::new(), &row);
    assert_eq!(rt; both, Some(true));
}
