ghost use Rattle.std.specs.Prelude.{◌≡◌, ◌≤◌, ◌+◌, ◌||◌, ℕ, Some, is_some, true, length};
ghost use Rattle.rd_doors.specs.Visits.{CameBack, TurnedAway, CameFromOperator, AreFresh, Holds, ends_told, run_told, given_entry, entries_with, out_with};
ghost use Rattle.rd_doors.specs.Calls.{DoorsTold, MakesPorts, MayCome, TakesBack, AreLinksOf, is_over_visit, one_gave, one_operator};
ghost use Rattle.rd_base.specs.Outside.{Rose};

use crate::visit::{Ends, Run, Visit};
use rd_base::{OperatorEnd, Sink, Source};
use rd_conf::Settings;
use std::alloc::Global;

/// Why ports weren't made.
#[derive(Clone, Copy, Debug, PartialEq, Eq)]
pub enum DoorFail {
    /// A port couldn't be had, or a name not be resolved. The count of faults rose.
    Failed,
    NoMemory,
}

/// Where visits come from and go back to. Doors count their faults, up to 2^64-1, and tell the numbers of the visits
/// that are out: given, and neither given back nor turned away. What was told is told by doors in memory alone.
/// `L` is what a session leaves beside its links.
pub trait Doors<L: Drop + Send + 'static>: Drop {
    type Give: Source + Send + 'static;

    type Take: Sink + Send + 'static;

    ghost tells: { Self → DoorsTold L };

    /// Makes the ports, for as many copies as the settings say.
    fn make_ports(&mut self, alloc: Global, settings: &Settings) -> Result<(), DoorFail>
        ensures { MakesPorts settings.now.limits.copies result (tells self.old) (tells self.new) };

    /// What comes next. It waits a while, and then answers Quiet.
    fn next_visit(&mut self, alloc: Global) -> Visit<Self::Give, Self::Take>
        requires { is_some (tells self.old).copies ≡ true }
        ensures may { MayCome (tells self.old)
            (given_entry Self.Give.tells Self.Take.tells result) }
        ensures told { (tells self.new).told
            ≡ entries_with (given_entry Self.Give.tells Self.Take.tells result)
            (tells self.old).told }
        ensures out { (tells self.new).out
            ≡ out_with {L = L} (given_entry Self.Give.tells Self.Take.tells result)
            (tells self.old).out }
        ensures over { (tells self.new).is_over
            ≡ ((tells self.old).is_over || is_over_visit result) }
        ensures failed { result ≡ Visit.Failed
            → Rose (tells self.old).faults (tells self.new).faults }
        ensures faults { (tells self.old).faults ≤ (tells self.new).faults }
        ensures visits { (tells self.new).visits ≡ (tells self.old).visits
            + one_gave {L = L} (given_entry Self.Give.tells Self.Take.tells result) }
        ensures operators { (tells self.new).operators ≡ (tells self.old).operators
            + one_operator {L = L} (given_entry Self.Give.tells Self.Take.tells result) }
        ensures asking { (tells self.new).asking ≡ (tells self.old).asking
            + one_operator {L = L} (given_entry Self.Give.tells Self.Take.tells result) }
        ensures copies { (tells self.new).copies ≡ (tells self.old).copies };

    /// Takes back the run of a visit that is out, with its sinks.
    fn give_back(&mut self, number: u64, run: Run<Self::Give, L>, sinks: Vec<Self::Take>)
        requires out { Holds number (tells self.old).out }
        requires links { AreLinksOf Self.Give.tells Self.Take.tells number
            run.sources.items sinks.items (tells self.old) }
        ensures { TakesBack (CameBack
            (run_told Self.Give.tells Self.Take.tells number run sinks.items))
            (tells self.old) (tells self.new) };

    /// Takes back a visit that is out unused, where 33 are.
    fn turn_away(&mut self, ends: Ends<Self::Give, Self::Take>)
        requires out { Holds ends.number (tells self.old).out }
        requires full { length (tells self.old).out ≡ 33 }
        requires fresh { (copies : ℕ) → (tells self.old).copies ≡ Some copies
            → AreFresh copies (ends_told Self.Give.tells Self.Take.tells ends) }
        ensures { TakesBack (TurnedAway (ends_told Self.Give.tells Self.Take.tells ends))
            (tells self.old) (tells self.new) };

    /// Takes back an operator's visit that is out.
    fn operator_back(&mut self, source: Self::Give, sink: Self::Take, end: OperatorEnd)
        requires mark { (Self.Take.tells sink).mark ≡ (Self.Give.tells source).mark }
        requires out { 1 ≤ (tells self.old).asking }
        ensures { TakesBack (CameFromOperator (Self.Give.tells source) (Self.Take.tells sink) end)
            (tells self.old) (tells self.new) };
}
