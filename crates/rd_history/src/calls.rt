ghost use Rattle.std.specs.Prelude.{◌≡◌, ◌++◌, ◌∷◌, [], map, MatchBool, None};
ghost use Rattle.rd_token_map.specs.BookCalls.{Found, Learned};
ghost use Rattle.rd_history.specs.Calls.{call_of};

use crate::growing::{Appends, Growing, Nothing};
use logbook::{Offer, Plain, Seen, Start, Word};
use rd_base::Row;
use std::collections::LinkedList;
use std::marker::Model;
use std::sync::Wait;

/// A call of a seat: a word that was looked up, with the answer, or a row that was learnt. No value of it is made.
pub enum Call {
    Found(LinkedList<u8>, Option<LinkedList<LinkedList<u8>>>),
    Learned(LinkedList<LinkedList<u8>>),
}

/// What a look-up is told as.
#[derive(Drop)]
struct Lookup<'a> {
    word: &'a [u8],
    answer: &'a Option<Row>,
}

impl<'a> Plain<Lookup<'a>, Call, u64> for Appends {
    ghost use Rattle.std.specs.Prelude.{None};
    ghost use Rattle.rd_history.specs.declared.calls.Call.TheVariants as call;

    ghost ask = { λ lookup. call.Found lookup.word.now lookup.answer.now };

    ghost state = { λ lookup. None };
}

/// What a learn is told as.
#[derive(Drop)]
struct LearntRow<'a> {
    row: &'a Row,
}

impl<'a> Plain<LearntRow<'a>, Call, u64> for Appends {
    ghost use Rattle.std.specs.Prelude.{None};
    ghost use Rattle.rd_history.specs.declared.calls.Call.TheVariants as call;

    ghost ask = { λ learnt. call.Learned learnt.row.now };

    ghost state = { λ learnt. None };
}

/// The calls of one seat. It keeps their number alone: contracts see it as the calls.
#[derive(Drop)]
pub struct Calls {
    counter: Word<Call, u64, Growing>,
    len: u64,
    seen: Seen<Call, u64, Growing>,
}

impl Model for Calls {
    ghost use Rattle.std.specs.Prelude.{◌≡◌, List, length, map};
    ghost use Rattle.rd_token_map.specs.BookCalls.{BookCall};
    ghost use Rattle.rd_history.specs.Calls.{call_of};
    ghost use Rattle.rd_history.specs.Rules.{length_of};

    ghost Value = { List BookCall };

    ghost view = { λ c. map call_of c.seen.log };

    ghost invariant = { λ c. (c.len ≡ length c.seen.log) × (c.counter ≡ length_of c.seen.book) };
}

impl Calls {
    pub fn new() -> Calls
        ensures { result ≡ [] }
    {
        let (seen, mut first, _second) = Seen::open(Start::alone(), 0, 0);
        Calls {
            counter: Word::tracked(0, &mut first),
            len: 0,
            seen,
        }
    }

    /// Tells of a word that was looked up.
    pub fn found<R: Wait>(&mut self, rt: &R, word: &[u8], answer: &Option<Row>)
        ensures { self.new ≡ self.old ++ Found word.now answer.now ∷ [] }
    {
        let lookup = Lookup { word, answer };
        for _ in rt.forever() {
            if self.append::<Lookup<'_>, Appends>(&lookup) {
                return;
            }
        }
        unreachable!()
    }

    /// Tells of a row that was learnt.
    pub fn learned<R: Wait>(&mut self, rt: &R, row: &Row)
        ensures { self.new ≡ self.old ++ Learned row.now ∷ [] }
    {
        let learnt = LearntRow { row };
        for _ in rt.forever() {
            if self.append::<LearntRow<'_>, Appends>(&learnt) {
                return;
            }
        }
        unreachable!()
    }

    /// Appends what is told, and says whether it did. It does, since nobody else has the length.
    fn append<X, M: Plain<X, Call, u64>>(&mut self, told: &X) -> bool
        requires { M.state told.now ≡ None }
        ensures { MatchBool result (self.new ≡ self.old ++ call_of (M.ask told.now) ∷ [])
            (self.new ≡ self.old) }
    {
        let mut offer: Offer<Call, u64, Growing, Nothing> = self.seen.plain::<Nothing, X, M>(told);
        let mut pen = self.seen.no_pen();
        let mut seen = self.seen.again();
        if self.len == u64::MAX {
            return false;
        }
        let found = self
            .counter
            .compare_exchange::<Appends, Nothing>(
                self.len,
                self.len + 1,
                &mut seen,
                &mut offer,
                &mut pen,
            );
        if found != self.len {
            return false;
        }
        self.len += 1;
        self.seen = seen;
        true
    }
}
