ghost use Rattle.std.specs.Prelude.{◌≡◌, ◌≤◌, ◌<◌, ◌+◌, [], List, ℕ, None, Some, IfOk, OnErr, false};
ghost use Rattle.rd_base.specs.History.{Row, is_timer};
ghost use Rattle.rd_rules.specs.Trouble.{or_else, full_log_at};
ghost use Rattle.rd_reading.specs.Seen.{rules_of};
ghost use Rattle.rd_core.specs.Faults.{fault_by};
ghost use Rattle.rd_core.specs.OwnLists.{latest_of};
ghost use Rattle.rd_core.specs.Clocks.{standing, entry_of};
ghost use Rattle.rd_core.specs.Stages.{seen_stage};
ghost use Rattle.rd_core.specs.Standing.{Steps, Counts, late_at};
ghost use Rattle.rd_core.specs.Kept.{IsKept, is_oversized};

use crate::clock::Clock;
use crate::faults::{fault, unsolicited};
use crate::plan::{Outcome, go_on};
use crate::stage::Stage;
use crate::trouble::or_else;
use crate::waits::{awaited, clock_after, full_log, late};
use crate::watch::{Watch, watch_again};
use rd_base::{Ending, Happening, NoMemory, Rows, Sends, What};
use rd_dialect::Dialect;
use rd_reading::{Setup, cut_front_back, grow_front};
use rd_token_map::OwnRows;
use std::alloc::Global;

/// All that a step changes beside where the session stands.
#[derive(Drop)]
pub(crate) struct Move {
    pub(crate) rows: Rows,
    pub(crate) own: Option<OwnRows>,
    pub(crate) clock: Clock,
    pub(crate) ending: Option<Ending>,
    pub(crate) sends: Sends,
    pub(crate) masked: u64,
}

/// What a happening does to a live session. What is open grows in place; where the happening is withheld, or memory is
/// refused, it is cut back.
pub(crate) fn take_step<D: Dialect>(
    alloc: Global,
    dialect: &D,
    setup: &Setup,
    stage: &mut Stage,
    watch: &mut Watch,
    own: &OwnRows,
    clock: Clock,
    masked: u64,
    happening: &Happening,
    told: &Rows,
) -> Result<Move, NoMemory>
    requires kept { IsKept (D.grammar dialect.now) setup.now
        stage.old watch.old clock.entries masked None }
    requires sized { is_oversized happening.now.what ≡ false }
    ensures steps { IfOk result (λ m. Steps (rules_of (D.grammar dialect.now) setup.now)
        (standing stage.old own.now clock) (entry_of happening.now told.now)
        (standing stage.new (latest_of own.now m.own) m.clock) m.ending m.sends) }
    ensures counts { IfOk result (λ m. (rows : List Row)
        → Counts (rules_of (D.grammar dialect.now) setup.now) (seen_stage stage.old own.now)
        (entry_of happening.now told.now) (record { masked = masked; rows = rows })
        (record { masked = m.masked; rows = m.rows })) }
    ensures kept { IfOk result (λ m. IsKept (D.grammar dialect.now)
        setup.now stage.new watch.new m.clock.entries m.masked m.ending) }
    ensures kept_err { OnErr result (IsKept (D.grammar dialect.now)
        setup.now stage.new watch.new clock.entries masked None) }
    ensures err { OnErr result ((rows : List Row)
        → seen_stage stage.new rows ≡ seen_stage stage.old rows) }
{
    let what = &happening.what;
    let before = awaited(setup.side, stage);
    let extents = grow_front(&mut stage.left, what)?;
    if let Some(ending) = unsolicited(dialect, &stage.out, stage.left.answering.as_slice(), what) {
        cut_front_back(&mut stage.left, &extents);
        return Ok(withheld(alloc, clock, masked, ending));
    }
    let renewed = watch_again(dialect, stage, what, watch);
    match go_on(alloc, dialect, setup, own, told, stage, renewed) {
        Ok(
            Outcome {
                rows,
                own: learnt,
                sends,
                masked: fresh,
                trouble,
                watch: seen,
            },
        ) => {
            *watch = seen;
            let clock = clock_after(setup.side, before, clock, stage, happening.at);
            let ending = ending_of(setup, what, stage, clock, trouble);
            Ok(Move {
                rows,
                own: learnt,
                clock,
                ending,
                sends,
                masked: masked + fresh,
            })
        }
        Err(refused) => {
            cut_front_back(&mut stage.left, &extents);
            Err(refused)
        }
    }
}

/// A step that is withheld: the session ends where it stands.
fn withheld(alloc: Global, clock: Clock, masked: u64, ending: Ending) -> Move
    ensures rows { result.rows ≡ [] }
    ensures own { result.own ≡ None }
    ensures clock { result.clock ≡ clock }
    ensures ending { result.ending ≡ Some ending }
    ensures sends { result.sends ≡ [] }
    ensures masked { result.masked ≡ masked }
{
    Move {
        rows: Rows::new(alloc),
        own: None,
        clock,
        ending: Some(ending),
        sends: Sends::new(alloc),
        masked,
    }
}

/// How a session has ended that stands there.
fn ending_of(
    setup: &Setup,
    what: &What,
    stage: &Stage,
    clock: Clock,
    trouble: Option<Ending>,
) -> Option<Ending>
    ensures { result ≡ or_else (or_else (fault_by setup.now.limits.copies what.now)
        (late_at setup.now.side setup.now.limits (is_timer what.now) (standing stage.now [] clock)))
        (or_else trouble (full_log_at clock.entries)) }
{
    let first = or_else(fault(&setup.limits, what), late(setup, what, stage, clock));
    or_else(first, or_else(trouble, full_log(clock.entries)))
}
