ghost use Rattle.std.specs.Prelude.{◌≡◌, ◌≢◌, ◌≤◌, ◌↔◌, true, false, List, ℕ, map, Some, None, Err, string_bytes, IfOk, OnOk, OnErr};
ghost use Rattle.rd_base.specs.Outside.{HoldsPrefix, NamedFile, Rose, StaysOpen, StaysRead, held_with};
ghost use Rattle.rddr.specs.Forms.{form_of};
ghost use Rattle.rd_rules.specs.Sent.{transcript, final};
ghost use Rattle.rd_session_run.specs.Transcripts.{transcript_text};
ghost use Rattle.rddr.specs.Outcome.{outcome, session_rules, replay_outcome, generate_under, status_of, usage};
ghost use Rattle.rddr.specs.Works.{IsReady, CanRun, CanGenerate, work_outcome, refusal_outcome, is_told};

use crate::refusal::Refusal;
use crate::work::{Work, work_of};
use rd_base::{Ending, Failed, Files, Limits, NameRules, NoMemory, Side, Sink};
use rd_conf::DialectName;
use rd_dialect::Line;
use rd_http_tokens::Http;
use rd_pg_tokens::Pg;
use rd_script::{Script, generate};
use rd_session_run::{ScriptFail, run_script, summarize};
use std::alloc::{AllocError, Global};

/// Why there is no whole answer.
#[derive(Clone, Copy, Debug, PartialEq, Eq)]
enum Fault {
    ReadFail,
    WriteFail,
    NoMemory,
}

impl From<NoMemory> for Fault {
    ghost use Rattle.rddr.specs.declared.replay.Fault.TheVariants as fault;

    ghost from_gives = { λ _ f. f ≡ fault.NoMemory };

    fn from(_none: NoMemory) -> Fault {
        Fault::NoMemory
    }
}

impl From<AllocError> for Fault {
    ghost use Rattle.rddr.specs.declared.replay.Fault.TheVariants as fault;

    ghost from_gives = { λ _ f. f ≡ fault.NoMemory };

    fn from(_none: AllocError) -> Fault {
        Fault::NoMemory
    }
}

impl From<Failed> for Fault {
    ghost use Rattle.rddr.specs.declared.replay.Fault.TheVariants as fault;

    ghost from_gives = { λ _ f. f ≡ fault.WriteFail };

    fn from(_failed: Failed) -> Fault {
        Fault::WriteFail
    }
}

impl From<ScriptFail> for Fault {
    ghost use Rattle.rddr.specs.Works.{fault_of};

    ghost from_gives = { λ fail f. f ≡ fault_of fail };

    fn from(fail: ScriptFail) -> Fault {
        match fail {
            ScriptFail::WriteFail => Fault::WriteFail,
            ScriptFail::NoMemory => Fault::NoMemory,
        }
    }
}

/// Answers the words behind the program's name, and gives the status.
///
/// `check SETTINGS` reads the settings and prints `ok`. `replay SCRIPT` replays the script under the default settings,
/// `replay SETTINGS SCRIPT` under those of the file. `gen SETTINGS NUMBER` makes a script of 1 to 9,999 exchanges, runs
/// it and prints what it came to. Any other words print the usage. Settings and scripts are named by their files.
///
/// The status is 0 where the settings were read, or the session is live, closed, done or retired, and 1 where it ended
/// otherwise; 2 for other words; 3 where a file is too long, or isn't settings or a script; 4 where one couldn't be read,
/// and then nothing is written; 5 where the output failed and 6 where memory ran out, and then a part of the text may be
/// written.
pub fn replay_main<F: Files, K: Sink>(
    alloc: Global,
    words: &[String],
    files: &mut F,
    out: &mut K,
) -> u8
    requires { (K.tells out.old).is_closed ≡ false }
    ensures range { result ≤ 6 }
    ensures status { (all : List NamedFile) → (F.tells files.old).files ≡ Some all
        → result ≤ 3
        → result ≡ (outcome (map string_bytes words.now) all).status }
    ensures text { (all : List NamedFile) → (F.tells files.old).files ≡ Some all
        → result ≤ 3
        → (K.tells out.new).held ≡ held_with (K.tells out.old).held (outcome (map string_bytes words.now) all).text }
    ensures prefix { (all : List NamedFile) → (F.tells files.old).files ≡ Some all
        → HoldsPrefix (K.tells out.old).held (K.tells out.new).held (outcome (map string_bytes words.now) all).text }
    ensures other_words { form_of (map string_bytes words.now) ≡ None → result ≤ 3
        → (result ≡ 2) × ((K.tells out.new).held ≡ held_with (K.tells out.old).held usage.text) }
    ensures two { result ≡ 2 → form_of (map string_bytes words.now) ≡ None }
    ensures four { result ≡ 4 → Rose (F.tells files.old).faults (F.tells files.new).faults
        × ((K.tells out.new).held ≡ (K.tells out.old).held) }
    ensures five { result ≡ 5 → Rose (K.tells out.old).faults (K.tells out.new).faults }
    ensures reads { StaysRead (F.tells files.old) (F.tells files.new) }
    ensures stays { StaysOpen (K.tells out.old) (K.tells out.new) }
{
    match answer(alloc, words, files, out) {
        Ok(status) => status,
        Err(Fault::ReadFail) => 4,
        Err(Fault::WriteFail) => 5,
        Err(Fault::NoMemory) => 6,
    }
}

fn answer<F: Files, K: Sink>(
    alloc: Global,
    words: &[String],
    files: &mut F,
    out: &mut K,
) -> Result<u8, Fault>
    requires { (K.tells out.old).is_closed ≡ false }
    ensures range { IfOk result (λ status. status ≤ 3) }
    ensures status { IfOk result
        (λ status. (all : List NamedFile) → (F.tells files.old).files ≡ Some all
        → status ≡ (outcome (map string_bytes words.now) all).status) }
    ensures text { OnOk result ((all : List NamedFile) → (F.tells files.old).files ≡ Some all
        → (K.tells out.new).held ≡ held_with (K.tells out.old).held (outcome (map string_bytes words.now) all).text) }
    ensures prefix { OnErr result ((all : List NamedFile) → (F.tells files.old).files ≡ Some all
        → HoldsPrefix (K.tells out.old).held (K.tells out.new).held (outcome (map string_bytes words.now) all).text) }
    ensures other_words { OnOk result
        (form_of (map string_bytes words.now) ≡ None → (K.tells out.new).held
        ≡ held_with (K.tells out.old).held usage.text) }
    ensures two { IfOk result (λ status. (status ≡ 2) ↔ (form_of (map string_bytes words.now)
        ≡ None)) }
    ensures read_fail { result ≡ Err Fault.ReadFail
        → Rose (F.tells files.old).faults (F.tells files.new).faults × ((K.tells out.new).held ≡ (K.tells out.old).held) }
    ensures write_fail { result ≡ Err Fault.WriteFail
        → Rose (K.tells out.old).faults (K.tells out.new).faults }
    ensures reads { StaysRead (F.tells files.old) (F.tells files.new) }
    ensures stays { StaysOpen (K.tells out.old) (K.tells out.new) }
{
    match work_of(alloc, words, files) {
        Ok(work) => perform(alloc, work, out),
        Err(refusal) => refuse(alloc, refusal, out),
    }
}

/// Does what is left to do once all files were read.
fn perform<K: Sink>(alloc: Global, work: Work, out: &mut K) -> Result<u8, Fault>
    requires is_open { (K.tells out.old).is_closed ≡ false }
    requires ready { IsReady work }
    ensures status { IfOk result (λ status. status ≡ (work_outcome work).status) }
    ensures range { IfOk result (λ status. status ≤ 1) }
    ensures text { OnOk result ((K.tells out.new).held ≡ held_with (K.tells out.old).held
        (work_outcome work).text) }
    ensures prefix { OnErr result (HoldsPrefix (K.tells out.old).held (K.tells out.new).held
        (work_outcome work).text) }
    ensures read_fail { result ≢ Err Fault.ReadFail }
    ensures write_fail { result ≡ Err Fault.WriteFail
        → Rose (K.tells out.old).faults (K.tells out.new).faults }
    ensures stays { StaysOpen (K.tells out.old) (K.tells out.new) }
{
    match work {
        Work::Check => {
            out.push(b"ok\n")?;
            Ok(0)
        }
        Work::Replay {
            dialect,
            names,
            limits,
            script,
        } => replay(alloc, dialect, &names, limits, &script, out),
        Work::Generate { limits, number } => generate_and_run(alloc, limits, number, out),
    }
}

/// Replays a script in the dialect of this name, and gives the status.
fn replay<K: Sink>(
    alloc: Global,
    dialect: DialectName,
    names: &NameRules,
    limits: Limits,
    script: &Script,
    out: &mut K,
) -> Result<u8, Fault>
    requires is_open { (K.tells out.old).is_closed ≡ false }
    requires ready { CanRun limits script.now }
    ensures status { IfOk result (λ status. status ≡
        (replay_outcome dialect names.now limits script.now).status) }
    ensures range { IfOk result (λ status. status ≤ 1) }
    ensures text { OnOk result ((K.tells out.new).held ≡ held_with (K.tells out.old).held
        (replay_outcome dialect names.now limits script.now).text) }
    ensures prefix { OnErr result (HoldsPrefix (K.tells out.old).held (K.tells out.new).held
        (replay_outcome dialect names.now limits script.now).text) }
    ensures read_fail { result ≢ Err Fault.ReadFail }
    ensures write_fail { result ≡ Err Fault.WriteFail
        → Rose (K.tells out.old).faults (K.tells out.new).faults }
    ensures stays { StaysOpen (K.tells out.old) (K.tells out.new) }
{
    let ending = run_in_dialect(alloc, dialect, names, limits, script, out)?;
    Ok(status_of(ending))
}

/// Runs a script in the dialect of this name, and writes its transcript.
fn run_in_dialect<K: Sink>(
    alloc: Global,
    dialect: DialectName,
    names: &NameRules,
    limits: Limits,
    script: &Script,
    out: &mut K,
) -> Result<Option<Ending>, ScriptFail>
    requires is_open { (K.tells out.old).is_closed ≡ false }
    requires ready { CanRun limits script.now }
    ensures ending { IfOk result (λ ending. ending ≡ final
        (session_rules dialect names.now limits script.now.side) script.now.entries) }
    ensures text { OnOk result ((K.tells out.new).held ≡ held_with (K.tells out.old).held
        (transcript_text (transcript (session_rules dialect names.now limits script.now.side) script.now.entries))) }
    ensures prefix { OnErr result (HoldsPrefix (K.tells out.old).held (K.tells out.new).held
        (transcript_text (transcript (session_rules dialect names.now limits script.now.side) script.now.entries))) }
    ensures write_fail { result ≡ Err ScriptFail.WriteFail
        → Rose (K.tells out.old).faults (K.tells out.new).faults }
    ensures stays { StaysOpen (K.tells out.old) (K.tells out.new) }
{
    let side = script.side();
    match dialect {
        DialectName::Line => run_script(alloc, side, Line, limits, script, out),
        DialectName::Http => {
            let http = Http::new(alloc, side, names)?;
            run_script(alloc, side, http, limits, script, out)
        }
        DialectName::Pg => {
            let pg = Pg::new(alloc, side, names)?;
            run_script(alloc, side, pg, limits, script, out)
        }
    }
}

/// Makes a script of so many exchanges, and writes what it comes to.
fn generate_and_run<K: Sink>(
    alloc: Global,
    limits: Limits,
    number: u16,
    out: &mut K,
) -> Result<u8, Fault>
    requires is_open { (K.tells out.old).is_closed ≡ false }
    requires ready { CanGenerate limits number }
    ensures status { IfOk result (λ status. status ≡ (generate_under limits number).status) }
    ensures range { IfOk result (λ status. status ≤ 1) }
    ensures text { OnOk result ((K.tells out.new).held ≡ held_with (K.tells out.old).held
        (generate_under limits number).text) }
    ensures prefix { OnErr result (HoldsPrefix (K.tells out.old).held (K.tells out.new).held
        (generate_under limits number).text) }
    ensures read_fail { result ≢ Err Fault.ReadFail }
    ensures write_fail { result ≡ Err Fault.WriteFail
        → Rose (K.tells out.old).faults (K.tells out.new).faults }
    ensures stays { StaysOpen (K.tells out.old) (K.tells out.new) }
{
    let script = generate(alloc, limits.copies, number)?;
    let summary = summarize(alloc, Side::Incoming, Line, limits, &script)?;
    out.push(summary.text(alloc)?.as_bytes())?;
    Ok(status_of(summary.ending))
}

/// Prints why nothing is served, and gives the status: 2 or 3 where it was printed, 4 where a file couldn't be read, 5
/// where the output failed and 6 where memory ran out.
pub fn refuse_to_serve<K: Sink>(alloc: Global, refusal: Refusal, out: &mut K) -> u8
    requires { (K.tells out.old).is_closed ≡ false }
    ensures least { 2 ≤ result }
    ensures most { result ≤ 6 }
    ensures told { result ≤ 3 → is_told refusal ≡ true }
    ensures status { result ≤ 3 → result ≡ (refusal_outcome refusal).status }
    ensures text { result ≤ 3 → (K.tells out.new).held ≡ held_with (K.tells out.old).held
        (refusal_outcome refusal).text }
    ensures prefix { HoldsPrefix (K.tells out.old).held (K.tells out.new).held
        (refusal_outcome refusal).text }
    ensures silent { is_told refusal ≡ false
        → (K.tells out.new).held ≡ (K.tells out.old).held }
    ensures four { result ≡ 4 → refusal ≡ Refusal.Unread }
    ensures five { result ≡ 5 → Rose (K.tells out.old).faults (K.tells out.new).faults }
    ensures stays { StaysOpen (K.tells out.old) (K.tells out.new) }
{
    match refuse(alloc, refusal, out) {
        Ok(given) => given,
        Err(Fault::ReadFail) => 4,
        Err(Fault::WriteFail) => 5,
        Err(Fault::NoMemory) => 6,
    }
}

/// Prints why nothing is run.
fn refuse<K: Sink>(alloc: Global, refusal: Refusal, out: &mut K) -> Result<u8, Fault>
    requires { (K.tells out.old).is_closed ≡ false }
    ensures told { OnOk result (is_told refusal ≡ true) }
    ensures status { IfOk result (λ status. status ≡ (refusal_outcome refusal).status) }
    ensures least { IfOk result (λ status. 2 ≤ status) }
    ensures range { IfOk result (λ status. status ≤ 3) }
    ensures two { IfOk result (λ status. (status ≡ 2) ↔ (refusal ≡ Refusal.Words)) }
    ensures text { OnOk result ((K.tells out.new).held ≡ held_with (K.tells out.old).held
        (refusal_outcome refusal).text) }
    ensures prefix { OnErr result (HoldsPrefix (K.tells out.old).held (K.tells out.new).held
        (refusal_outcome refusal).text) }
    ensures silent { is_told refusal ≡ false
        → (K.tells out.new).held ≡ (K.tells out.old).held }
    ensures read_fail { result ≡ Err Fault.ReadFail → refusal ≡ Refusal.Unread }
    ensures write_fail { result ≡ Err Fault.WriteFail
        → Rose (K.tells out.old).faults (K.tells out.new).faults }
    ensures stays { StaysOpen (K.tells out.old) (K.tells out.new) }
{
    let status = match &refusal {
        Refusal::Unread => return Err(Fault::ReadFail),
        Refusal::NoMemory => return Err(Fault::NoMemory),
        Refusal::Words => 2,
        _ => 3,
    };
    out.push(refusal.text(alloc)?.as_bytes())?;
    Ok(status)
}

/// A session that is live, or ended Done, Closed or Retired, is no failure.
fn status_of(ending: Option<Ending>) -> u8
    ensures status { result ≡ status_of ending }
    ensures range { result ≤ 1 }
{
    match ending {
        None | Some(Ending::Done | Ending::Closed { .. } | Ending::Retired) => 0,
        Some(_) => 1,
    }
}
