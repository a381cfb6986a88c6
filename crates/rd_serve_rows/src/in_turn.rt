ghost use Rattle.std.specs.Prelude.{◌≡◌, ℕ, Some, length};
ghost use Rattle.rd_doors.specs.Visits.{CameBack, TurnedAway, AreFresh, Holds, ends_told, run_told};
ghost use Rattle.rd_doors.specs.Calls.{TakesBack, AreLinksOf};

use rd_base::OperatorEnd;
use rd_conf::Settings;
use rd_doors::{DoorFail, Doors, Ends, Run, Visit};
use std::alloc::Global;
use std::rt::Clock;
use std::thread;
use std::time::Duration;

/// Doors that let the next client come once the run of the one before has come back. Until then nobody comes.
#[derive(Drop)]
pub struct InTurn<D: Drop, R: Clock + Copy> {
    pub rt: R,
    pub doors: D,
    pub is_out: bool,
}

impl<L: Drop + Send + 'static, D: Doors<L>, R: Clock + Copy> Doors<L> for InTurn<D, R> {
    type Give = D::Give;

    type Take = D::Take;

    ghost tells = { λ d. D.tells d.doors };

    fn make_ports(&mut self, alloc: Global, settings: &Settings) -> Result<(), DoorFail> {
        self.doors.make_ports(alloc, settings)
    }

    fn next_visit(&mut self, alloc: Global) -> Visit<D::Give, D::Take> {
        if self.is_out {
            thread::sleep(&self.rt, Duration::from_millis(1));
            return Visit::Quiet;
        }
        let visit = self.doors.next_visit(alloc);
        self.is_out = matches!(&visit, Visit::Client(_));
        visit
    }

    fn give_back(&mut self, number: u64, run: Run<D::Give, L>, sinks: Vec<D::Take>)
        requires out { Holds number (D.tells self.old.doors).out }
        requires links { AreLinksOf D.Give.tells D.Take.tells number
            run.sources.items sinks.items (D.tells self.old.doors) }
        ensures { TakesBack (CameBack
            (run_told D.Give.tells D.Take.tells number run sinks.items))
            (D.tells self.old.doors) (D.tells self.new.doors) }
    {
        self.is_out = false;
        self.doors.give_back(number, run, sinks);
    }

    fn turn_away(&mut self, ends: Ends<D::Give, D::Take>)
        requires out { Holds ends.number (D.tells self.old.doors).out }
        requires full { length (D.tells self.old.doors).out ≡ 33 }
        requires fresh { (copies : ℕ) → (D.tells self.old.doors).copies ≡ Some copies
            → AreFresh copies (ends_told D.Give.tells D.Take.tells ends) }
        ensures { TakesBack (TurnedAway (ends_told D.Give.tells D.Take.tells ends))
            (D.tells self.old.doors) (D.tells self.new.doors) }
    {
        self.is_out = false;
        self.doors.turn_away(ends);
    }

    fn operator_back(&mut self, source: D::Give, sink: D::Take, end: OperatorEnd) {
        self.doors.operator_back(source, sink, end);
    }
}
