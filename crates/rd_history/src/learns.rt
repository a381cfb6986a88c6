ghost use Rattle.std.specs.Prelude.{IsTrue, ◌≡◌, ◌+◌, ◌==◌, ◌<◌, ◌≤◌, ◌^◌, ◌++◌, ◌∷◌, [], length, MatchBool};
ghost use mathlib.Core.List.{IsPrefix};
ghost use Rattle.rd_history.specs.declared.learn.Learn.{Learn};
ghost use Rattle.rd_history.specs.Learns.{entry};
ghost use Rattle.rd_history.specs.Rules.{length_of};

use crate::growing::{Appends, Growing, Nothing};
use crate::learn::{Learn, Learnt};
use logbook::{Offer, Plain, Seen, Start, Word};
use std::marker::{Brand, Model, PhantomData};

impl<'a> Plain<Learnt<'a>, Learn, u64> for Appends {
    ghost use Rattle.std.specs.Prelude.{None};

    ghost ask = { λ learnt. record { seat = learnt.seat; number = learnt.number; row = learnt.row.now } };

    ghost state = { λ learnt. None };
}

/// Which list it is, and for how many seats. Each call of a program picks it.
pub trait Naming {
    ghost use Rattle.std.specs.Prelude.{ℕ};
    ghost use Rattle.logbook.specs.Pages.{Book};

    ghost book: { Book };

    ghost seats: { ℕ };
}

impl Naming for Brand {
    ghost book = { record { number = 0; log_name = 0; cells_name = 0 } };

    ghost seats = { 0 };
}

/// An empty list, which has no name yet.
pub struct NewList {
    length: Word<Learn, u64, Growing>,
    seen: Seen<Learn, u64, Growing>,
    pub ghost empty: { seen.log ≡ [] },
    pub ghost length_is: { length ≡ length_of seen.book },
}

impl NewList {
    pub fn new() -> NewList {
        let (seen, mut first, _second) = Seen::open(Start::alone(), 0, 0);
        NewList {
            length: Word::tracked(0, &mut first),
            seen,
        }
    }

    /// The list's length under a name, and the empty beginning of the list.
    pub fn named<J: Naming>(self) -> (Length<J>, Learns<J>)
        requires { self.seen.book ≡ J.book }
        ensures { result.1 ≡ [] }
    {
        let NewList { length, seen } = self;
        (
            Length {
                length,
                of: PhantomData,
            },
            Learns {
                len: 0,
                seen,
                of: PhantomData,
            },
        )
    }
}

/// The length of the list, which all threads share.
#[derive(Drop)]
pub struct Length<J: Naming> {
    length: Word<Learn, u64, Growing>,
    of: PhantomData<J>,
    ghost length_is: { length ≡ length_of J.book },
}

/// A beginning of the list that was seen. It keeps no entries: contracts see it as them.
#[derive(Drop)]
pub struct Learns<J: Naming> {
    len: u64,
    seen: Seen<Learn, u64, Growing>,
    of: PhantomData<J>,
}

impl<J: Naming> Model for Learns<J> {
    ghost use Rattle.std.specs.Prelude.{◌≡◌, List, length};
    ghost use Rattle.rd_history.specs.declared.learn.Learn.{Learn};

    ghost Value = { List Learn };

    ghost view = { λ l. l.seen.log };

    ghost invariant = { λ l. (l.len ≡ length l.seen.log) × (l.seen.book ≡ J.book) };
}

impl<J: Naming> Learns<J> {
    /// How many learns it has.
    pub fn len(&self) -> u64
        ensures { result ≡ length self.now }
    {
        self.len
    }

    /// The same beginning again.
    pub fn again(&self) -> Learns<J>
        ensures { result ≡ self.now }
    {
        Learns {
            len: self.len,
            seen: self.seen.again(),
            of: PhantomData,
        }
    }

    /// Whether the other has one entry more, which follows these.
    pub fn is_next(&self, other: &Learns<J>) -> bool
        ensures next { IsTrue result → (x : Learn) × (other.now ≡ self.now ++ x ∷ []) }
        ensures exact { length other.now ≡ length self.now + 1 → IsTrue result }
        ensures fits { length other.now < 2 ^ 64 }
    {
        let mut both = self.seen.again();
        both.learn(&other.seen);
        if self.len >= other.len {
            return false;
        }
        other.len - self.len == 1
    }

    /// Whether the other begins with this one, as it does where it is no shorter.
    pub fn begins(&self, other: &Learns<J>) -> bool
        ensures { IsTrue result → IsPrefix self.now other.now }
    {
        let mut both = self.seen.again();
        both.learn(&other.seen);
        if self.len > other.len {
            return false;
        }
        true
    }

    /// Appends an entry to all that was seen, and says whether it did. Where it didn't the list is longer, and
    /// nothing has changed.
    pub fn append(&mut self, shared: &Length<J>, learnt: &Learnt<'_>) -> bool
        requires { length self.old < 2 ^ 62 }
        ensures { MatchBool result (self.new ≡ self.old
            ++ entry learnt.now.seat learnt.now.number learnt.now.row.now ∷ [])
            (self.new ≡ self.old) }
    {
        let mut offer: Offer<Learn, u64, Growing, Nothing> = self
            .seen
            .plain::<Nothing, Learnt<'_>, Appends>(learnt);
        let mut pen = self.seen.no_pen();
        let mut seen = self.seen.again();
        let found = shared
            .length
            .compare_exchange::<Appends, Nothing>(
                self.len,
                self.len + 1,
                &mut seen,
                &mut offer,
                &mut pen,
            );
        if found != self.len {
            return false;
        }
        self.len += 1;
        self.seen = seen;
        true
    }
}
