ghost use Rattle.std.specs.Prelude.{◌≡◌, ◌≤◌, ◌<◌, ◌+◌, ◌*◌, ◌^◌, ◌||◌, [], ◌∷◌, ◌++◌, ℕ, Some, None, true, false, is_some, length, map, reverse, vec_len, vec_capacity, IfOk, IfSome};
ghost use Rattle.rd_doors.specs.Visits.{Entry, CameBack, TurnedAway, CameFromOperator, AreFresh, IsFreshOperator, Holds, ends_told, run_told, given_entry, entries_with, out_with};
ghost use Rattle.rd_doors.specs.Calls.{DoorsTold, TakesBack, AreLinksOf};
ghost use Rattle.rd_base.specs.Outside.{Rose};
ghost use Rattle.rd_mem_doors.specs.MemDoors.{told_entry, HasRoom};

use rd_base::{NoMemory, OperatorEnd, Side, Sink, Source};
use rd_conf::Settings;
use rd_doors::{DoorFail, Doors, Ends, Run, Visit, take_out};
use std::alloc::Global;
use std::marker::{Model, PhantomData};
use std::snapshot::Snapshot;

/// Who sees of links of these types whether they are a visit's and weren't used.
pub trait Fresh<S: Source, K: Sink>: Drop + Send + 'static {
    /// Whether these are the links of this visit, for so many copies, and weren't used.
    fn are_fresh(copies: u8, number: u64, ends: &Ends<S, K>) -> bool
        ensures number { result ≡ true → ends.now.number ≡ number }
        ensures fresh { result ≡ true → AreFresh copies (ends_told S.tells K.tells ends.now) };

    /// Whether these are the links of the operators' visit of this place, and weren't used.
    fn is_fresh_operator(place: u64, source: &S, sink: &K) -> bool
        ensures { result ≡ true
            → IsFreshOperator place (S.tells source.now) (K.tells sink.now) };
}

/// What was told, with what came back.
#[derive(Drop)]
pub enum Told<S, K, L> {
    Gave(Side, Snapshot<Ends<S, K>>),
    CameBack(u64, Run<S, L>, Vec<K>),
    TurnedAway(Ends<S, K>),
    GaveOperator(Snapshot<S>, Snapshot<K>),
    CameFromOperator(S, K, OperatorEnd),
}

/// Doors in memory, for tests. They give their visits in order, and then Over. One that isn't as the next visit has to
/// be is given as Failed, and takes no number or place. They take their room when they are made.
#[derive(Drop)]
pub struct MemDoors<S: Source, K: Sink, L: Drop, C: Fresh<S, K>> {
    contents: Vec<Visit<S, K>>,
    told: Vec<Told<S, K, L>>,
    out: Vec<u64>,
    is_over: bool,
    faults: u64,
    visits: u64,
    operators: u64,
    asking: u64,
    copies: Option<u8>,
    check: PhantomData<C>,
}

impl<S: Source, K: Sink, L: Drop, C: Fresh<S, K>> Model for MemDoors<S, K, L, C> {
    ghost use Rattle.std.specs.Prelude.{Some, map};
    ghost use Rattle.rd_doors.specs.Calls.{DoorsTold, TakesBack, AreLinksOf};
    ghost use Rattle.rd_mem_doors.specs.MemDoors.{told_entry, HasRoom};

    ghost Value = { DoorsTold L };

    ghost view = { λ d. record {
      told = Some (map (told_entry S.tells K.tells) d.told.items);
      out = d.out.items;
      is_over = d.is_over;
      faults = d.faults;
      visits = d.visits;
      operators = d.operators;
      asking = d.asking;
      copies = d.copies;
    } };

    ghost invariant = { λ d. HasRoom d.contents d.told d.out d.asking };
}

impl<S: Source, K: Sink, L: Drop, C: Fresh<S, K>> MemDoors<S, K, L, C> {
    /// Doors that give these visits.
    pub fn new(
        alloc: Global,
        mut contents: Vec<Visit<S, K>>,
    ) -> Result<MemDoors<S, K, L, C>, NoMemory>
        requires { vec_len contents < 2 ^ 32 }
        ensures { IfOk result (λ d. d ≡ record {
          told = Some [];
          out = [];
          is_over = false;
          faults = 0;
          visits = 0;
          operators = 0;
          asking = 0;
          copies = None;
        }) }
    {
        let count = contents.len();
        let Ok(told) = Vec::with_capacity(alloc, 2 * count) else {
            return Err(NoMemory);
        };
        let Ok(out) = Vec::with_capacity(alloc, count) else {
            return Err(NoMemory);
        };
        contents.reverse();
        Ok(MemDoors {
            contents,
            told,
            out,
            is_over: false,
            faults: 0,
            visits: 0,
            operators: 0,
            asking: 0,
            copies: None,
            check: PhantomData,
        })
    }

    /// What was told, with what came back.
    pub fn told(&self) -> &[Told<S, K, L>]
        ensures { self.now.told ≡ Some (map (told_entry S.tells K.tells) result.now) }
    {
        self.told.as_slice()
    }
}

/// A count of faults that rose.
fn one_more(faults: u64) -> u64
    ensures rose { Rose faults result }
    ensures more { faults ≤ result }
{
    faults.saturating_add(1)
}

impl<
    S: Source + Send + 'static,
    K: Sink + Send + 'static,
    L: Drop + Send + 'static,
    C: Fresh<S, K>,
> Doors<L> for MemDoors<S, K, L, C> {
    type Give = S;

    type Take = K;

    ghost tells = { λ d. d };

    fn make_ports(&mut self, _alloc: Global, settings: &Settings) -> Result<(), DoorFail> {
        self.copies = Some(settings.limits.copies);
        Ok(())
    }

    fn next_visit(&mut self, _alloc: Global) -> Visit<S, K> {
        let Some(copies) = self.copies else {
            return Visit::NoMemory;
        };
        match self.contents.pop() {
            None => {
                self.is_over = true;
                Visit::Over
            }
            Some(Visit::Client(ends)) => match self.visits.checked_add(1) {
                Some(number) if C::are_fresh(copies, number, &ends) => {
                    self.told
                        .push_reserved(Told::Gave(Side::Incoming, Snapshot::of(&ends)));
                    self.out.push_reserved(number);
                    self.visits = number;
                    Visit::Client(ends)
                }
                _ => {
                    self.faults = one_more(self.faults);
                    Visit::Failed
                }
            },
            Some(Visit::Callers(ends)) => match self.visits.checked_add(1) {
                Some(number) if C::are_fresh(copies, number, &ends) => {
                    self.told
                        .push_reserved(Told::Gave(Side::Outgoing, Snapshot::of(&ends)));
                    self.out.push_reserved(number);
                    self.visits = number;
                    Visit::Callers(ends)
                }
                _ => {
                    self.faults = one_more(self.faults);
                    Visit::Failed
                }
            },
            Some(Visit::Operator(source, sink)) => match self.operators.checked_add(1) {
                Some(place) if C::is_fresh_operator(place, &source, &sink) => {
                    self.told.push_reserved(Told::GaveOperator(
                        Snapshot::of(&source),
                        Snapshot::of(&sink),
                    ));
                    self.operators = place;
                    self.asking += 1;
                    Visit::Operator(source, sink)
                }
                _ => {
                    self.faults = one_more(self.faults);
                    Visit::Failed
                }
            },
            Some(Visit::Quiet) => Visit::Quiet,
            Some(Visit::NoMemory) => Visit::NoMemory,
            Some(_) => {
                self.faults = one_more(self.faults);
                Visit::Failed
            }
        }
    }

    fn give_back(&mut self, number: u64, run: Run<S, L>, sinks: Vec<K>)
        requires out { Holds number self.old.out }
        requires links { AreLinksOf S.tells K.tells number run.sources.items sinks.items self.old }
        ensures { TakesBack (CameBack (run_told S.tells K.tells number run sinks.items))
            self.old self.new }
    {
        take_out(&mut self.out, number);
        self.told.push_reserved(Told::CameBack(number, run, sinks));
    }

    fn turn_away(&mut self, ends: Ends<S, K>)
        requires out { Holds ends.number self.old.out }
        requires full { length self.old.out ≡ 33 }
        requires fresh { (copies : ℕ) → self.old.copies ≡ Some copies
            → AreFresh copies (ends_told S.tells K.tells ends) }
        ensures { TakesBack (TurnedAway (ends_told S.tells K.tells ends)) self.old self.new }
    {
        take_out(&mut self.out, ends.number);
        self.told.push_reserved(Told::TurnedAway(ends));
    }

    fn operator_back(&mut self, source: S, sink: K, end: OperatorEnd) {
        self.told
            .push_reserved(Told::CameFromOperator(source, sink, end));
        self.asking -= 1;
    }
}
