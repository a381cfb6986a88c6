ghost use Rattle.std.specs.Prelude.{◌≡◌, ◌≤◌, map, length};
ghost use Rattle.rd_reading.specs.Looks.{look_of, WasLook, WereLooks};

use crate::opens::{Open, is_heard, scan_open};
use arrayvec::ArrayVec;
use rd_base::{Link, Scan, What};
use rd_dialect::{Dialect, Due};

/// What is seen of a link on which a unit is due: how much is open, whether the link has ended, and the unit's scan.
#[derive(Clone, Copy, Debug, PartialEq, Eq)]
pub struct Look {
    pub link: Link,
    pub len: usize,
    pub is_ended: bool,
    pub scan: Scan,
}

impl Default for Look {
    fn default() -> Look {
        Look {
            link: Link(0),
            len: 0,
            is_ended: false,
            scan: Scan::More,
        }
    }
}

fn look_of<D: Dialect>(dialect: &D, due: Due, one: &Open) -> Look
    ensures { result ≡ look_of (D.grammar dialect.now) due one.now }
{
    Look {
        link: one.link(),
        len: one.bytes().len(),
        is_ended: one.is_ended(),
        scan: scan_open(dialect, due, one),
    }
}

/// Scans what is open of each link on which this unit is due.
pub fn look_at<D: Dialect>(dialect: &D, due: Due, opens: &[Open]) -> ArrayVec<Look, 8>
    requires { length opens.now ≤ 8 }
    ensures { result.items ≡ map (look_of (D.grammar dialect.now) due) opens.now }
{
    let mut looks = ArrayVec::new();
    for one in opens {
        looks.push(look_of(dialect, due, one));
    }
    looks
}

/// What is seen of a link after a happening, by what was seen before it: only a link that was heard is scanned.
fn look_on<D: Dialect>(dialect: &D, due: Due, what: &What, one: &Open, before: Look) -> Look
    requires { WasLook (D.grammar dialect.now) due what.now one.now before }
    ensures { result ≡ look_of (D.grammar dialect.now) due one.now }
{
    if is_heard(one.link(), what) {
        look_of(dialect, due, one)
    } else {
        before
    }
}

/// Scans again what is open of the link that a happening is of. The other links are as they were seen before it.
pub fn look_again<D: Dialect>(
    dialect: &D,
    due: Due,
    what: &What,
    opens: &[Open],
    before: &[Look],
) -> ArrayVec<Look, 8>
    requires few { length opens.now ≤ 8 }
    requires before { WereLooks (D.grammar dialect.now) due what.now opens.now before.now }
    ensures { result.items ≡ map (look_of (D.grammar dialect.now) due) opens.now }
{
    let mut looks = ArrayVec::new();
    for place in 0..opens.len() {
        looks.push(look_on(dialect, due, what, &opens[place], before[place]));
    }
    looks
}
