ghost use Rattle.std.specs.Prelude.{◌≡◌, ◌+◌, ◌<◌, [], ◌∷◌, List, Option, Some, None, false, length, IfSome, vec_len};
ghost use Rattle.rd_doors.specs.Visits.{Entry, Gave, CameBack, AreFresh, Holds, without, entries_with, ends_told, run_told};
ghost use Rattle.rd_runner.specs.Runs.{Ran};
ghost use Rattle.rd_run_session.specs.CameTo.{CameTo};
ghost use Rattle.rd_lent_book.specs.Lending.{BookView};
ghost use Rattle.rd_serve.specs.Booking.{AreBooked, KeepsBook, Lent, lents};
ghost use Rattle.rd_run_session.specs.declared.left.SessionLeft.{SessionLeft};
ghost use Rattle.rd_serve.specs.Serving.{Tells, Has};
ghost use Rattle.rd_serve.specs.Counting.{CountedBy};
ghost use Rattle.rd_serve.specs.Sessions.{AreOut, Keeps, KeepsTold, HasRoom};
ghost use Rattle.rd_serve.specs.Noting.{IsKeepable, AreLive, NotesRun, NotesStay};
ghost use Rattle.rd_serve.specs.Operators.{Answering};
ghost use Rattle.rd_base.specs.Clocks.{Ticks};
ghost use Rattle.rd_desk.specs.Noted.{Adds, StillUnkept, note_left, without_id};
ghost use Rattle.rd_desk.specs.Notes.{dialect_number};
ghost use Rattle.rd_run_session.specs.Dialects.{dialect_on};
ghost use Rattle.rd_run_session.specs.Left.{summary_of};

use crate::session::{SESSIONS, Served, Session};
use rd_base::{Clock, Side, Sink, Source, Stopper};
use rd_desk::{Begun, Desk, dialect_number, end_session};
use rd_doors::{Doors, Ends};
use rd_lent_book::LentBook;
use rd_run_session::{SessionLeft, SessionRunner, dialect_of, take_in_runner};
use rd_runner::Ended;
use rd_start::Spawner;
use std::alloc::Global;
use std::snapshot::Snapshot;
use std::sync::atomic::{AtomicBool, Ordering};
use std::sync::{Arc, Wait};
use std::thread::Threads;

/// Gives the run of a visit that is out back to the doors.
pub fn hand_back<
    P: Spawner + Send + 'static,
    C: Clock + Send + 'static,
    T: Stopper + Send + 'static,
    B: LentBook + Send + 'static,
    R: Wait + Threads + Copy + Send + Sync + 'static,
    E: Doors<SessionLeft<R>>,
>(
    doors: &mut E,
    first: &Snapshot<SessionRunner<P, C, T, B, R>>,
    side: Side,
    ends: Snapshot<Ends<E::Give, E::Take>>,
    number: u64,
    ended: Ended<E::Give, E::Take, SessionLeft<R>>,
)
    requires tells { Tells (CameTo E.Give) first.now.value.setup (E.tells doors.old) }
    requires number { ends.value.number ≡ number }
    requires out { Holds number (E.tells doors.old).out }
    requires fresh { AreFresh first.now.value.setup.limits.copies
        (ends_told E.Give.tells E.Take.tells ends.value) }
    requires given { (told : List (Entry (SessionLeft R)))
        → (E.tells doors.old).told ≡ Some told
        → Has (Gave side (ends_told E.Give.tells E.Take.tells ends.value)) told }
    requires ran { Ran (CameTo E.Give) first.now.value.setup side
        (ends_told E.Give.tells E.Take.tells ends.value)
        (run_told E.Give.tells E.Take.tells ends.value.number ended.run ended.sinks.items) }
    ensures tells { Tells (CameTo E.Give) first.now.value.setup (E.tells doors.new) }
    ensures out { (E.tells doors.new).out ≡ without number (E.tells doors.old).out }
    ensures told { (E.tells doors.new).told ≡ entries_with
        (Some (CameBack (run_told E.Give.tells E.Take.tells number ended.run ended.sinks.items)))
        (E.tells doors.old).told }
    ensures keeps { KeepsTold (E.tells doors.old) (E.tells doors.new) }
    ensures over { (E.tells doors.new).is_over ≡ (E.tells doors.old).is_over }
{
    let _ = first;
    let _ = side;
    let _ = ends;
    doors.give_back(number, ended.run, ended.sinks);
}

/// Notes what a session came to, where it has an id.
pub fn note_run<
    S: Source + Send + 'static,
    K: Sink,
    P: Spawner + Send + 'static,
    C: Clock + Send + 'static,
    T: Stopper + Send + 'static,
    B: LentBook + Send + 'static,
    R: Wait + Threads + Copy + Send + Sync + 'static,
>(
    desk: &mut Desk,
    clock: &mut C,
    runner: &SessionRunner<P, C, T, B, R>,
    begun: Begun,
    side: Side,
    ended: &Ended<S, K, SessionLeft<R>>,
) -> u64
    requires live { IfSome begun.id (λ id. Holds id desk.old.ids) }
    requires keepable { IsKeepable begun }
    ensures note { Adds (note_left begun side (dialect_number (dialect_on side runner.now.setup))
        result (summary_of ended.now.run.left.report)) desk.old desk.new }
    ensures ids { desk.new.ids ≡ without_id begun.id desk.old.ids }
    ensures drawn { desk.new.board.drawn ≡ desk.old.board.drawn }
    ensures let_go { StillUnkept desk.old desk.new }
    ensures at { Ticks result (C.tells clock.old) (C.tells clock.new) }
{
    let dialect = dialect_number(dialect_of(runner, side));
    let summary = ended.run.left.summary();
    end_session(desk, clock, begun, side, dialect, &summary)
}

/// Takes in who ran a session, and gives its run back to the doors.
pub fn give_back<
    P: Spawner + Send + 'static,
    C: Clock + Send + 'static,
    T: Stopper + Send + 'static,
    B: LentBook + Send + 'static,
    R: Wait + Threads + Copy + Send + Sync + 'static,
    E: Doors<SessionLeft<R>>,
>(
    doors: &mut E,
    runner: &mut SessionRunner<P, C, T, B, R>,
    first: &Snapshot<SessionRunner<P, C, T, B, R>>,
    side: Side,
    ends: Snapshot<Ends<E::Give, E::Take>>,
    number: u64,
    served: Served<E::Give, E::Take, P, C, T, B, R>,
    begun: Begun,
    desk: &mut Desk,
    clock: &mut C,
)
    requires tells { Tells (CameTo E.Give) first.now.value.setup (E.tells doors.old) }
    requires counts { CountedBy first.now.value
        runner.old (E.tells doors.old) }
    requires number { ends.value.number ≡ number }
    requires out { Holds number (E.tells doors.old).out }
    requires fresh { AreFresh first.now.value.setup.limits.copies
        (ends_told E.Give.tells E.Take.tells ends.value) }
    requires given { (told : List (Entry (SessionLeft R)))
        → (E.tells doors.old).told ≡ Some told
        → Has (Gave side (ends_told E.Give.tells E.Take.tells ends.value)) told }
    requires kept { Keeps E.Give.tells E.Take.tells
        first.now.value.setup side ends.value served }
    requires live { IfSome begun.id (λ id. Holds id desk.old.ids) }
    requires keepable { IsKeepable begun }
    ensures tells { Tells (CameTo E.Give) first.now.value.setup (E.tells doors.new) }
    ensures counts { CountedBy first.now.value
        runner.new (E.tells doors.new) }
    ensures out { (E.tells doors.new).out ≡ without number (E.tells doors.old).out }
    ensures keeps { KeepsTold (E.tells doors.old) (E.tells doors.new) }
    ensures over { (E.tells doors.new).is_over ≡ (E.tells doors.old).is_over }
    ensures books { (lent : Option BookView) (rest : List Lent)
        → KeepsBook E.Give first.now.value.setup side
        (ends_told E.Give.tells E.Take.tells ends.value)
        (run_told E.Give.tells E.Take.tells ends.value.number
        served.ended.run served.ended.sinks.items) lent served.runner.book
        → AreBooked E.Give first.now.value.setup first.now.value.book (E.tells doors.old)
        runner.old.book (record {
          side = side;
          ends = ends_told E.Give.tells E.Take.tells ends.value;
          book = lent;
        } ∷ rest)
        → AreBooked E.Give first.now.value.setup first.now.value.book (E.tells doors.new)
        runner.new.book rest }
    ensures ids { desk.new.ids ≡ without_id begun.id desk.old.ids }
    ensures notes { Answering (NotesRun first.now.value.setup
        (E.tells doors.old) (E.tells doors.new) begun side
        (ends_told E.Give.tells E.Take.tells ends.value) desk.old desk.new)
        (C.tells clock.old) (C.tells clock.new) }
{
    let Served {
        ended,
        runner: theirs,
    } = served;
    take_in_runner(runner, theirs);
    let _ended_at = note_run(desk, clock, runner, begun, side, &ended);
    hand_back(doors, first, side, ends, number, ended);
}

/// Joins the session at this place, and gives its run back.
pub fn join_at<
    P: Spawner + Send + 'static,
    C: Clock + Send + 'static,
    T: Stopper + Send + 'static,
    B: LentBook + Send + 'static,
    R: Wait + Threads + Copy + Send + Sync + 'static,
    E: Doors<SessionLeft<R>>,
>(
    rt: R,
    doors: &mut E,
    runner: &mut SessionRunner<P, C, T, B, R>,
    first: &Snapshot<SessionRunner<P, C, T, B, R>>,
    waiting: Option<u64>,
    sessions: &mut Vec<Session<E::Give, E::Take, P, C, T, B, R>>,
    flags: &mut Vec<Arc<AtomicBool, Global>>,
    place: usize,
    desk: &mut Desk,
    clock: &mut C,
)
    requires tells { Tells (CameTo E.Give) first.now.value.setup (E.tells doors.old) }
    requires counts { CountedBy first.now.value
        runner.old (E.tells doors.old) }
    requires out { AreOut E.Give.tells E.Take.tells first.now.value.setup
        (E.tells doors.old) waiting sessions.old.items }
    requires place { place < length sessions.old.items }
    requires room { HasRoom sessions.old flags.old }
    requires books { AreBooked E.Give first.now.value.setup first.now.value.book
        (E.tells doors.old) runner.old.book
        (lents E.Give.tells E.Take.tells sessions.old.items) }
    requires live { AreLive desk.old.ids sessions.old.items }
    ensures tells { Tells (CameTo E.Give) first.now.value.setup (E.tells doors.new) }
    ensures counts { CountedBy first.now.value
        runner.new (E.tells doors.new) }
    ensures out { AreOut E.Give.tells E.Take.tells first.now.value.setup
        (E.tells doors.new) waiting sessions.new.items }
    ensures keeps { KeepsTold (E.tells doors.old) (E.tells doors.new) }
    ensures over { (E.tells doors.new).is_over ≡ (E.tells doors.old).is_over }
    ensures books { AreBooked E.Give first.now.value.setup first.now.value.book
        (E.tells doors.new) runner.new.book
        (lents E.Give.tells E.Take.tells sessions.new.items) }
    ensures live { AreLive desk.new.ids sessions.new.items }
    ensures notes { Answering (NotesStay first.now.value.setup
        (E.tells doors.old) (E.tells doors.new) E.Give.tells E.Take.tells
        desk.old desk.new sessions.old.items sessions.new.items)
        (C.tells clock.old) (C.tells clock.new) }
    ensures room { HasRoom sessions.new flags.new }
    ensures less { vec_len sessions.new + 1 ≡ vec_len sessions.old }
{
    let _ = waiting;
    let Session {
        number,
        side,
        ends,
        begun,
        handle,
        flag,
    } = sessions.remove(place);
    let served = handle.join(&rt);
    flag.store(false, Ordering::SeqCst);
    flags.push_reserved(flag);
    give_back(
        doors, runner, first, side, ends, number, served, begun, desk, clock,
    );
}

/// The place of a session whose flag is set.
fn ended_place<
    S: Source + Send + 'static,
    K: Sink,
    P: Spawner + Send + 'static,
    C: Clock + Send + 'static,
    T: Stopper + Send + 'static,
    B: LentBook + Send + 'static,
    R: Wait + Threads + Copy + Send + Sync + 'static,
>(sessions: &[Session<S, K, P, C, T, B, R>]) -> Option<usize>
    ensures { IfSome result (λ place. place < length sessions.now) }
{
    sessions
        .iter()
        .position(|session| session.flag.load(Ordering::SeqCst))
}

/// Joins the sessions that have ended, and gives their runs back.
pub fn join_ended<
    P: Spawner + Send + 'static,
    C: Clock + Send + 'static,
    T: Stopper + Send + 'static,
    B: LentBook + Send + 'static,
    R: Wait + Threads + Copy + Send + Sync + 'static,
    E: Doors<SessionLeft<R>>,
>(
    rt: R,
    doors: &mut E,
    runner: &mut SessionRunner<P, C, T, B, R>,
    first: &Snapshot<SessionRunner<P, C, T, B, R>>,
    waiting: Option<u64>,
    sessions: &mut Vec<Session<E::Give, E::Take, P, C, T, B, R>>,
    flags: &mut Vec<Arc<AtomicBool, Global>>,
    desk: &mut Desk,
    clock: &mut C,
)
    requires tells { Tells (CameTo E.Give) first.now.value.setup (E.tells doors.old) }
    requires counts { CountedBy first.now.value
        runner.old (E.tells doors.old) }
    requires out { AreOut E.Give.tells E.Take.tells first.now.value.setup
        (E.tells doors.old) waiting sessions.old.items }
    requires room { HasRoom sessions.old flags.old }
    requires books { AreBooked E.Give first.now.value.setup first.now.value.book
        (E.tells doors.old) runner.old.book
        (lents E.Give.tells E.Take.tells sessions.old.items) }
    requires live { AreLive desk.old.ids sessions.old.items }
    ensures tells { Tells (CameTo E.Give) first.now.value.setup (E.tells doors.new) }
    ensures counts { CountedBy first.now.value
        runner.new (E.tells doors.new) }
    ensures out { AreOut E.Give.tells E.Take.tells first.now.value.setup
        (E.tells doors.new) waiting sessions.new.items }
    ensures keeps { KeepsTold (E.tells doors.old) (E.tells doors.new) }
    ensures over { (E.tells doors.new).is_over ≡ (E.tells doors.old).is_over }
    ensures books { AreBooked E.Give first.now.value.setup first.now.value.book
        (E.tells doors.new) runner.new.book
        (lents E.Give.tells E.Take.tells sessions.new.items) }
    ensures live { AreLive desk.new.ids sessions.new.items }
    ensures notes { Answering (NotesStay first.now.value.setup
        (E.tells doors.old) (E.tells doors.new) E.Give.tells E.Take.tells
        desk.old desk.new sessions.old.items sessions.new.items)
        (C.tells clock.old) (C.tells clock.new) }
    ensures room { HasRoom sessions.new flags.new }
{
    for _count in 0..SESSIONS {
        let Some(place) = ended_place(sessions.as_slice()) else {
            return;
        };
        join_at(
            rt, doors, runner, first, waiting, sessions, flags, place, desk, clock,
        );
    }
}

/// Waits for each session, and gives its run back.
pub fn join_all<
    P: Spawner + Send + 'static,
    C: Clock + Send + 'static,
    T: Stopper + Send + 'static,
    B: LentBook + Send + 'static,
    R: Wait + Threads + Copy + Send + Sync + 'static,
    E: Doors<SessionLeft<R>>,
>(
    rt: R,
    doors: &mut E,
    runner: &mut SessionRunner<P, C, T, B, R>,
    first: &Snapshot<SessionRunner<P, C, T, B, R>>,
    sessions: &mut Vec<Session<E::Give, E::Take, P, C, T, B, R>>,
    flags: &mut Vec<Arc<AtomicBool, Global>>,
    desk: &mut Desk,
    clock: &mut C,
)
    requires tells { Tells (CameTo E.Give) first.now.value.setup (E.tells doors.old) }
    requires counts { CountedBy first.now.value
        runner.old (E.tells doors.old) }
    requires out { AreOut E.Give.tells E.Take.tells first.now.value.setup
        (E.tells doors.old) None sessions.old.items }
    requires room { HasRoom sessions.old flags.old }
    requires books { AreBooked E.Give first.now.value.setup first.now.value.book
        (E.tells doors.old) runner.old.book
        (lents E.Give.tells E.Take.tells sessions.old.items) }
    requires live { AreLive desk.old.ids sessions.old.items }
    ensures tells { Tells (CameTo E.Give) first.now.value.setup (E.tells doors.new) }
    ensures counts { CountedBy first.now.value
        runner.new (E.tells doors.new) }
    ensures out { (E.tells doors.new).out ≡ [] }
    ensures over { (E.tells doors.new).is_over ≡ (E.tells doors.old).is_over }
    ensures books { AreBooked E.Give first.now.value.setup first.now.value.book
        (E.tells doors.new) runner.new.book [] }
    ensures live { AreLive desk.new.ids sessions.new.items }
    ensures notes { Answering (NotesStay first.now.value.setup
        (E.tells doors.old) (E.tells doors.new) E.Give.tells E.Take.tells
        desk.old desk.new sessions.old.items sessions.new.items)
        (C.tells clock.old) (C.tells clock.new) }
{
    while !sessions.is_empty() {
        join_at(
            rt, doors, runner, first, None, sessions, flags, 0, desk, clock,
        );
    }
}
