ghost use Rattle.std.specs.Prelude.{◌≡◌, ◌≤◌, ◌<◌, ◌+◌, false, true, [], length, take, IfOk, OnOk, OnErr};
ghost use Rattle.rd_base.specs.History.{is_well_formed};
ghost use Rattle.rd_base.specs.Limits.{AreLimits};
ghost use Rattle.rd_base.specs.Outside.{HoldsPrefix, Rose, StaysOpen, held_with};
ghost use Rattle.rd_reading.specs.Seen.{rules_of};
ghost use Rattle.rd_core.specs.Standing.{IsAt};
ghost use Rattle.rd_rules.specs.Sent.{transcript, final};
ghost use Rattle.rd_session_run.specs.Runs.{rules_for};
ghost use Rattle.rd_session_run.specs.Transcripts.{transcript_text, all_steps_text, step_text};

use crate::writing::{ScriptFail, write_sends};
use rd_base::{Ending, Limits, Side, Sink};
use rd_core::{Session, Setup};
use rd_dialect::Dialect;
use rd_script::{Script, last_line};
use std::alloc::Global;

/// Runs a script of either side through a session, and writes the transcript. None means that the session is live at
/// the script's end.
pub fn run_script<D: Dialect, K: Sink>(
    alloc: Global,
    side: Side,
    dialect: D,
    limits: Limits,
    script: &Script,
    out: &mut K,
) -> Result<Option<Ending>, ScriptFail>
    requires limits { AreLimits limits }
    requires side { side ≡ script.now.side }
    requires well_formed { is_well_formed limits.copies script.now.entries ≡ true }
    requires is_open { (K.tells out.old).is_closed ≡ false }
    ensures ok { OnOk result ((K.tells out.new).held ≡ held_with (K.tells out.old).held
        (transcript_text (transcript (rules_for side
        (D.grammar dialect) limits) script.now.entries))) }
    ensures ending { IfOk result (λ ending. ending ≡ final
        (rules_for side (D.grammar dialect) limits) script.now.entries) }
    ensures err { OnErr result (HoldsPrefix (K.tells out.old).held (K.tells out.new).held
        (transcript_text (transcript (rules_for side
        (D.grammar dialect) limits) script.now.entries))) }
    ensures failed { result ≡ Err ScriptFail.WriteFail
        → Rose (K.tells out.old).faults (K.tells out.new).faults }
    ensures stays { StaysOpen (K.tells out.old) (K.tells out.new) }
{
    let mut session = Session::new(alloc, dialect, Setup { side, limits })?;
    run_steps(alloc, &mut session, script, out)?;
    let ending = session.ending();
    out.push(last_line(alloc, ending)?.as_bytes())?;
    Ok(ending)
}

/// Takes the happenings of a script, and writes what each step sends.
fn run_steps<D: Dialect, K: Sink>(
    alloc: Global,
    session: &mut Session<D>,
    script: &Script,
    out: &mut K,
) -> Result<(), ScriptFail>
    requires begins { IsAt (rules_of (D.grammar session.old.dialect) session.old.setup)
        session.old [] }
    requires well_formed { is_well_formed session.old.setup.limits.copies script.now.entries
        ≡ true }
    requires is_open { (K.tells out.old).is_closed ≡ false }
    ensures dialect { session.new.dialect ≡ session.old.dialect }
    ensures setup { session.new.setup ≡ session.old.setup }
    ensures at { OnOk result (IsAt (rules_of (D.grammar session.old.dialect) session.old.setup)
        session.new script.now.entries) }
    ensures ok { OnOk result ((K.tells out.new).held ≡ held_with (K.tells out.old).held
        (all_steps_text (rules_of (D.grammar session.old.dialect) session.old.setup) script.now.entries)) }
    ensures err { OnErr result (HoldsPrefix (K.tells out.old).held (K.tells out.new).held
        (all_steps_text (rules_of (D.grammar session.old.dialect) session.old.setup) script.now.entries)) }
    ensures failed { result ≡ Err ScriptFail.WriteFail
        → Rose (K.tells out.old).faults (K.tells out.new).faults }
    ensures stays { StaysOpen (K.tells out.old) (K.tells out.new) }
{
    for place in 0..script.len() {
        run_step(alloc, session, script, place, out)?;
    }
    Ok(())
}

/// Takes the happening that stands there, from 0, and writes what the step sends.
fn run_step<D: Dialect, K: Sink>(
    alloc: Global,
    session: &mut Session<D>,
    script: &Script,
    place: usize,
    out: &mut K,
) -> Result<(), ScriptFail>
    requires here { place < length script.now.entries }
    requires few { place < 1048576 }
    requires well_formed { is_well_formed session.old.setup.limits.copies script.now.entries
        ≡ true }
    requires at { IsAt (rules_of (D.grammar session.old.dialect) session.old.setup) session.old
        (take place script.now.entries) }
    requires is_open { (K.tells out.old).is_closed ≡ false }
    ensures dialect { session.new.dialect ≡ session.old.dialect }
    ensures setup { session.new.setup ≡ session.old.setup }
    ensures at { OnOk result (IsAt (rules_of (D.grammar session.old.dialect) session.old.setup)
        session.new (take (place + 1) script.now.entries)) }
    ensures ok { OnOk result ((K.tells out.new).held ≡ held_with (K.tells out.old).held
        (step_text (rules_of (D.grammar session.old.dialect) session.old.setup) script.now.entries place)) }
    ensures err { OnErr result (HoldsPrefix (K.tells out.old).held (K.tells out.new).held
        (step_text (rules_of (D.grammar session.old.dialect) session.old.setup) script.now.entries place)) }
    ensures failed { result ≡ Err ScriptFail.WriteFail
        → Rose (K.tells out.old).faults (K.tells out.new).faults }
    ensures stays { StaysOpen (K.tells out.old) (K.tells out.new) }
{
    let sends = session.take(script.happening(place), script.told(place))?;
    write_sends(alloc, place as u32 + 1, &sends, out)
}
