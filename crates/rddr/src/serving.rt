ghost use Rattle.std.specs.Prelude.{◌≡◌, ◌≤◌, ◌⊎◌, ℕ, [], List, map, Some, None, Ok, Err, string_bytes, IfOk, IfErr, IfSome, true, false};
ghost use Rattle.rd_base.specs.Limits.{AreLimits};
ghost use Rattle.rd_base.specs.Outside.{HoldsPrefix, NamedFile, Rose, StaysOpen, StaysRead, held_with};
ghost use Rattle.rd_conf.specs.declared.settings.Settings.{Settings};
ghost use Rattle.rd_doors.specs.Visits.{Entry};
ghost use Rattle.rd_runner.specs.Counts.{RoseBy};
ghost use Rattle.rd_runner.specs.Runs.{setup_of};
ghost use Rattle.rd_run_session.specs.CameTo.{CameTo};
ghost use Rattle.rd_run_session.specs.declared.left.SessionLeft.{SessionLeft};
ghost use Rattle.rd_lent_book.specs.Lending.{new_book};
ghost use Rattle.rd_serve.specs.Books.{ServedBook};
ghost use Rattle.rd_serve.specs.Counting.{EachRun, IsWithin, times_stopped, times_unstarted};
ghost use Rattle.rd_serve.specs.Operators.{AllNoted};
ghost use Rattle.rd_serve.specs.Serving.{IsServed, times_given, times_ended};
ghost use Rattle.rddr.specs.Outcome.{Outcome};
ghost use Rattle.rddr.specs.Serving.{served_by, served_file, with_ports, missing_port};
ghost use Rattle.rddr.specs.Works.{refusal_outcome, is_told};

use crate::refusal::Refusal;
use crate::replay::refuse_to_serve;
use crate::work::settings_file;
use rd_base::{Bytes, Clock, Files, NoMemory, Sink, Stopper};
use rd_conf::{Key, Ports, Settings, SettingsFail};
use rd_desk::Desk;
use rd_doors::{DoorFail, Doors};
use rd_history::{Naming, NewList};
use rd_keeper::{KeepFail, Keeper};
use rd_run_session::{SessionLeft, SessionRunner};
use rd_serve::serve;
use rd_shared_book::Lender;
use rd_start::Spawner;
use std::alloc::Global;
use std::marker::Brand;
use std::sync::Wait;
use std::thread::Threads;

/// How many share the book: each session, and who serves them.
const SEATS: u8 = 33;

/// Answers the words `run SETTINGS` behind the program's name, and gives the status: serves by the settings of that file
/// until the doors are over, or prints why not. Past such a refusal it writes nothing.
///
/// The status is 0 where the doors are over, all sessions have ended, and the notes of all were put to the keeper; 2 for
/// other words; 3 where the file is too long, isn't settings, or lacks a port that serving requires; 4 where it couldn't be
/// read, or the keeper failed before it served or as it ended; 5 where the output failed; 6 where memory ran out; 7 where a
/// port couldn't be had.
pub fn run_main<
    F: Files,
    K: Sink,
    P: Spawner + Send + 'static,
    C: Clock + Send + 'static,
    T: Stopper + Send + 'static,
    R: Wait + Threads + Copy + Send + Sync + 'static,
    E: Doors<SessionLeft<R>>,
    Y: Keeper,
>(
    rt: R,
    alloc: Global,
    words: &[String],
    files: &mut F,
    out: &mut K,
    doors: &mut E,
    spawner: &mut P,
    clock: &mut C,
    stop: &mut T,
    keeper: &mut Y,
) -> u8
    requires output { (K.tells out.old).is_closed ≡ false }
    requires untold { (told : List (Entry (SessionLeft R)))
        → (E.tells doors.old).told ≡ Some told
        → told ≡ [] }
    requires none { (E.tells doors.old).out ≡ [] }
    ensures range { result ≤ 7 }
    ensures served { (all : List NamedFile) (settings : Settings)
        (told : List (Entry (SessionLeft R))) → (F.tells files.old).files ≡ Some all
        → served_by (map string_bytes words.now) all ≡ Ok settings
        → (E.tells doors.new).told ≡ Some told
        → IsServed (CameTo E.Give) (setup_of settings) told }
    ensures ended { result ≡ 0 → (told : List (Entry (SessionLeft R)))
        → (E.tells doors.new).told ≡ Some told → (n : ℕ) → times_given n told ≡ times_ended n told }
    ensures stopped { (told : List (Entry (SessionLeft R)))
        → (E.tells doors.new).told ≡ Some told
        → RoseBy (times_stopped told) (T.tells stop.old).yeses (T.tells stop.new).yeses }
    ensures unstarted { (told : List (Entry (SessionLeft R)))
        → (E.tells doors.new).told ≡ Some told
        → RoseBy (times_unstarted told)
        (P.tells spawner.old).refusals (P.tells spawner.new).refusals }
    ensures late { (told : List (Entry (SessionLeft R))) → (E.tells doors.new).told ≡ Some told
        → EachRun (IsWithin (C.tells clock.new).span) told }
    ensures over { result ≡ 0 → (E.tells doors.new).is_over ≡ true }
    ensures out { result ≡ 0 → (E.tells doors.new).out ≡ [] }
    ensures refused { (all : List NamedFile) (answer : Outcome)
        → (F.tells files.old).files ≡ Some all
        → served_by (map string_bytes words.now) all ≡ Err answer → result ≤ 3
        → result ≡ answer.status }
    ensures text { (all : List NamedFile) (answer : Outcome)
        → (F.tells files.old).files ≡ Some all
        → served_by (map string_bytes words.now) all ≡ Err answer → result ≤ 3
        → (K.tells out.new).held ≡ held_with (K.tells out.old).held answer.text }
    ensures silent { (all : List NamedFile) (settings : Settings)
        → (F.tells files.old).files ≡ Some all
        → served_by (map string_bytes words.now) all ≡ Ok settings
        → (K.tells out.new).held ≡ (K.tells out.old).held }
    ensures notes { result ≡ 0 → (all : List NamedFile) (settings : Settings)
        (told : List (Entry (SessionLeft R))) → (F.tells files.old).files ≡ Some all
        → served_by (map string_bytes words.now) all ≡ Ok settings
        → (E.tells doors.new).told ≡ Some told
        → AllNoted (setup_of settings) told (C.tells clock.old) (C.tells clock.new)
        (Y.tells keeper.old) (Y.tells keeper.new) }
    ensures book { result ≡ 0 → (all : List NamedFile) (settings : Settings)
        (told : List (Entry (SessionLeft R))) → (F.tells files.old).files ≡ Some all
        → served_by (map string_bytes words.now) all ≡ Ok settings
        → (E.tells doors.new).told ≡ Some told
        → ServedBook E.Give (setup_of settings) told }
    ensures four { result ≡ 4 → Rose (F.tells files.old).faults (F.tells files.new).faults
        ⊎ Rose (Y.tells keeper.old).faults (Y.tells keeper.new).faults }
    ensures five { result ≡ 5 → Rose (K.tells out.old).faults (K.tells out.new).faults }
    ensures seven { result ≡ 7 → Rose (E.tells doors.old).faults (E.tells doors.new).faults }
    ensures reads { StaysRead (F.tells files.old) (F.tells files.new) }
    ensures stays { StaysOpen (K.tells out.old) (K.tells out.new) }
{
    match served_settings(alloc, words, files) {
        Ok(settings) => serve_by(rt, alloc, settings, doors, spawner, clock, stop, keeper),
        Err(refusal) => refuse_to_serve(alloc, refusal, out),
    }
}

/// The name of the file that keeps notes, by the settings of `run SETTINGS`. None where they name none, or can't be read.
pub fn records_of<F: Files>(
    alloc: Global,
    words: &[String],
    files: &mut F,
) -> Result<Option<Bytes>, NoMemory> {
    match served_settings(alloc, words, files) {
        Ok(settings) => Ok(named_records(settings)),
        Err(Refusal::NoMemory) => Err(NoMemory),
        Err(_) => Ok(None),
    }
}

/// The name under `ports.records`, where it isn't empty.
fn named_records(settings: Settings) -> Option<Bytes> {
    let Settings { ports, .. } = settings;
    let Ports { records, .. } = ports;
    if records.len() > 0 {
        Some(records)
    } else {
        None
    }
}

/// The settings that `run SETTINGS` serves by.
fn served_settings<F: Files>(
    alloc: Global,
    words: &[String],
    files: &mut F,
) -> Result<Settings, Refusal>
    ensures limits { IfOk result (λ settings. AreLimits settings.limits) }
    ensures settings { IfOk result (λ settings. (all : List NamedFile)
        → (F.tells files.old).files ≡ Some all
        → served_by (map string_bytes words.now) all ≡ Ok settings) }
    ensures refused { IfErr result (λ refusal. is_told refusal ≡ true → (all : List NamedFile)
        → (F.tells files.old).files ≡ Some all
        → served_by (map string_bytes words.now) all ≡ Err (refusal_outcome refusal)) }
    ensures failed { result ≡ Err Refusal.Unread
        → Rose (F.tells files.old).faults (F.tells files.new).faults }
    ensures reads { StaysRead (F.tells files.old) (F.tells files.new) }
{
    match words {
        [command, file] => settings_to_serve(alloc, command.as_str(), file.as_str(), files),
        _ => Err(Refusal::Words),
    }
}

/// The settings of `COMMAND FILE`, where the command is `run`.
fn settings_to_serve<F: Files>(
    alloc: Global,
    command: &str,
    file: &str,
    files: &mut F,
) -> Result<Settings, Refusal>
    ensures limits { IfOk result (λ settings. AreLimits settings.limits) }
    ensures settings { IfOk result (λ settings. (all : List NamedFile)
        → (F.tells files.old).files ≡ Some all
        → served_file command.now file.now all ≡ Ok settings) }
    ensures refused { IfErr result (λ refusal. is_told refusal ≡ true → (all : List NamedFile)
        → (F.tells files.old).files ≡ Some all
        → served_file command.now file.now all ≡ Err (refusal_outcome refusal)) }
    ensures failed { result ≡ Err Refusal.Unread
        → Rose (F.tells files.old).faults (F.tells files.new).faults }
    ensures reads { StaysRead (F.tells files.old) (F.tells files.new) }
{
    if command != "run" {
        return Err(Refusal::Words);
    }
    match settings_file(alloc, file, files) {
        Ok(settings) => with_ports(settings),
        Err(refusal) => Err(refusal),
    }
}

/// These settings, where they have each port that serving requires.
fn with_ports(settings: Settings) -> Result<Settings, Refusal>
    ensures same { IfOk result (λ s. s ≡ settings) }
    ensures ok { IfOk result (λ s. with_ports (Ok settings) ≡ Ok s) }
    ensures refused { IfErr result (λ refusal. with_ports (Ok settings)
        ≡ Err (refusal_outcome refusal)) }
    ensures told { IfErr result (λ refusal. is_told refusal ≡ true) }
{
    match missing_port(&settings.ports) {
        None => Ok(settings),
        Some(key) => Err(Refusal::Settings(SettingsFail::Missing(key))),
    }
}

/// The first key that serving requires and these ports lack.
fn missing_port(ports: &Ports) -> Option<Key>
    ensures { result ≡ missing_port ports.now }
{
    if ports.listen.len() == 0 {
        Some(Key::PortsListen)
    } else if ports.instances.len() == 0 {
        Some(Key::PortsInstances)
    } else if ports.callers.len() != 0 && ports.backend.len() == 0 {
        Some(Key::PortsBackend)
    } else {
        None
    }
}

/// Serves by these settings until the doors are over, and gives the status: 0 where they are, 4 where the keeper failed, 6
/// where memory ran out, 7 where the ports couldn't be made.
fn serve_by<
    P: Spawner + Send + 'static,
    C: Clock + Send + 'static,
    T: Stopper + Send + 'static,
    R: Wait + Threads + Copy + Send + Sync + 'static,
    E: Doors<SessionLeft<R>>,
    Y: Keeper,
>(
    rt: R,
    alloc: Global,
    settings: Settings,
    doors: &mut E,
    spawner: &mut P,
    clock: &mut C,
    stop: &mut T,
    keeper: &mut Y,
) -> u8
    requires limits { AreLimits settings.limits }
    requires untold { (told : List (Entry (SessionLeft R)))
        → (E.tells doors.old).told ≡ Some told
        → told ≡ [] }
    requires none { (E.tells doors.old).out ≡ [] }
    ensures range { result ≤ 7 }
    ensures served { (told : List (Entry (SessionLeft R)))
        → (E.tells doors.new).told ≡ Some told
        → IsServed (CameTo E.Give) (setup_of settings) told }
    ensures ended { result ≡ 0 → (told : List (Entry (SessionLeft R)))
        → (E.tells doors.new).told ≡ Some told → (n : ℕ) → times_given n told ≡ times_ended n told }
    ensures stopped { (told : List (Entry (SessionLeft R)))
        → (E.tells doors.new).told ≡ Some told
        → RoseBy (times_stopped told) (T.tells stop.old).yeses (T.tells stop.new).yeses }
    ensures unstarted { (told : List (Entry (SessionLeft R)))
        → (E.tells doors.new).told ≡ Some told
        → RoseBy (times_unstarted told)
        (P.tells spawner.old).refusals (P.tells spawner.new).refusals }
    ensures late { (told : List (Entry (SessionLeft R))) → (E.tells doors.new).told ≡ Some told
        → EachRun (IsWithin (C.tells clock.new).span) told }
    ensures over { result ≡ 0 → (E.tells doors.new).is_over ≡ true }
    ensures out { result ≡ 0 → (E.tells doors.new).out ≡ [] }
    ensures notes { result ≡ 0 → (told : List (Entry (SessionLeft R)))
        → (E.tells doors.new).told ≡ Some told
        → AllNoted (setup_of settings) told (C.tells clock.old) (C.tells clock.new)
        (Y.tells keeper.old) (Y.tells keeper.new) }
    ensures book { result ≡ 0 → (told : List (Entry (SessionLeft R)))
        → (E.tells doors.new).told ≡ Some told
        → ServedBook E.Give (setup_of settings) told }
    ensures unkept { result ≡ 4 → Rose (Y.tells keeper.old).faults (Y.tells keeper.new).faults }
    ensures unwritten { result ≡ 5 → ⊥ }
    ensures ports { result ≡ 7 → Rose (E.tells doors.old).faults (E.tells doors.new).faults }
{
    serve_with::<Brand, P, C, T, R, E, Y>(
        rt,
        alloc,
        NewList::new(),
        settings,
        doors,
        spawner,
        clock,
        stop,
        keeper,
    )
}

/// An empty book of so many seats. None where memory runs out.
fn book_of<J: Naming, R: Wait + Copy>(rt: R, alloc: Global, list: NewList) -> Option<Lender<J, R>>
    requires book { list.seen.book ≡ J.book }
    requires seats { J.seats ≡ 33 }
    ensures { IfSome result (λ lender. lender ≡ new_book 32) }
{
    Lender::make(rt, alloc, list, SEATS).ok()
}

/// The same, with an empty book whose seats each session and its server have one of.
fn serve_with<
    J: Naming + Send + Sync + 'static,
    P: Spawner + Send + 'static,
    C: Clock + Send + 'static,
    T: Stopper + Send + 'static,
    R: Wait + Threads + Copy + Send + Sync + 'static,
    E: Doors<SessionLeft<R>>,
    Y: Keeper,
>(
    rt: R,
    alloc: Global,
    list: NewList,
    settings: Settings,
    doors: &mut E,
    spawner: &mut P,
    clock: &mut C,
    stop: &mut T,
    keeper: &mut Y,
) -> u8
    requires book { list.seen.book ≡ J.book }
    requires seats { J.seats ≡ 33 }
    requires limits { AreLimits settings.limits }
    requires untold { (told : List (Entry (SessionLeft R)))
        → (E.tells doors.old).told ≡ Some told
        → told ≡ [] }
    requires none { (E.tells doors.old).out ≡ [] }
    ensures range { result ≤ 7 }
    ensures served { (told : List (Entry (SessionLeft R)))
        → (E.tells doors.new).told ≡ Some told
        → IsServed (CameTo E.Give) (setup_of settings) told }
    ensures ended { result ≡ 0 → (told : List (Entry (SessionLeft R)))
        → (E.tells doors.new).told ≡ Some told → (n : ℕ) → times_given n told ≡ times_ended n told }
    ensures stopped { (told : List (Entry (SessionLeft R)))
        → (E.tells doors.new).told ≡ Some told
        → RoseBy (times_stopped told) (T.tells stop.old).yeses (T.tells stop.new).yeses }
    ensures unstarted { (told : List (Entry (SessionLeft R)))
        → (E.tells doors.new).told ≡ Some told
        → RoseBy (times_unstarted told)
        (P.tells spawner.old).refusals (P.tells spawner.new).refusals }
    ensures late { (told : List (Entry (SessionLeft R))) → (E.tells doors.new).told ≡ Some told
        → EachRun (IsWithin (C.tells clock.new).span) told }
    ensures over { result ≡ 0 → (E.tells doors.new).is_over ≡ true }
    ensures out { result ≡ 0 → (E.tells doors.new).out ≡ [] }
    ensures notes { result ≡ 0 → (told : List (Entry (SessionLeft R)))
        → (E.tells doors.new).told ≡ Some told
        → AllNoted (setup_of settings) told (C.tells clock.old) (C.tells clock.new)
        (Y.tells keeper.old) (Y.tells keeper.new) }
    ensures book { result ≡ 0 → (told : List (Entry (SessionLeft R)))
        → (E.tells doors.new).told ≡ Some told
        → ServedBook E.Give (setup_of settings) told }
    ensures unkept { result ≡ 4 → Rose (Y.tells keeper.old).faults (Y.tells keeper.new).faults }
    ensures unwritten { result ≡ 5 → ⊥ }
    ensures ports { result ≡ 7 → Rose (E.tells doors.old).faults (E.tells doors.new).faults }
{
    let Some(book) = book_of::<J, R>(rt, alloc, list) else {
        return 6;
    };
    let desk = match Desk::open(alloc, keeper) {
        Ok(desk) => desk,
        Err(KeepFail::Failed) => return 4,
        Err(KeepFail::NoMemory) => return 6,
    };
    match doors.make_ports(alloc, &settings) {
        Ok(()) => (),
        Err(DoorFail::Failed) => return 7,
        Err(DoorFail::NoMemory) => return 6,
    }
    let Settings {
        limits,
        incoming,
        outgoing,
        rules,
        ports: _,
    } = settings;
    let mut runner = SessionRunner::new(
        rt,
        alloc,
        limits,
        incoming,
        outgoing,
        rules,
        spawner.another(),
        clock.another(),
        stop.another(),
        book,
    );
    let served = serve(rt, alloc, doors, &mut runner, desk, clock, keeper);
    let (their_spawner, their_clock, their_stop) = runner.into_parts();
    spawner.join_in(their_spawner);
    clock.join_in(their_clock);
    stop.join_in(their_stop);
    let Err(fail) = served else {
        return 0;
    };
    match fail {
        KeepFail::Failed => 4,
        KeepFail::NoMemory => 6,
    }
}
