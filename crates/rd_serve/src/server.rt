ghost use Rattle.std.specs.Prelude.{◌≡◌, ℕ, ◌+◌, ◌<◌, ◌≤◌, [], List, Some, None, true, false, length, IfOk, IfSome, IfNone, OnOk, Err, vec_len, vec_capacity};
ghost use Rattle.rd_doors.specs.Visits.{Entry, Gave, TurnedAway, AreFresh, Holds, without, entries_with, ends_told};
ghost use Rattle.rd_runner.specs.Counts.{IsAnother, RoseBy};
ghost use Rattle.rd_run_session.specs.CameTo.{CameTo};
ghost use Rattle.rd_lent_book.specs.Lending.{Lends, MovesWith, new_book};
ghost use Rattle.rd_serve.specs.Booking.{AreBooked, Lent, lents};
ghost use Rattle.rd_serve.specs.Books.{ServedBook};
ghost use Rattle.rd_run_session.specs.declared.left.SessionLeft.{SessionLeft};
ghost use Rattle.rd_serve.specs.Serving.{Tells, IsServed, Has, times_given, times_ended};
ghost use Rattle.rd_serve.specs.Counting.{CountedBy, EachRun, IsWithin, times_stopped, times_unstarted};
ghost use Rattle.rd_serve.specs.Sessions.{AreOut, KeepsTold, HasRoom};
ghost use Rattle.rd_serve.specs.Noting.{IsKeepable, AreLive, NotesRun, NotesServe, NotesVisit};
ghost use Rattle.rd_serve.specs.Operators.{Answered, Answering, NotesAndAnswers};
ghost use Rattle.rd_base.specs.Outside.{Rose};
ghost use Rattle.rd_desk.specs.Desk.{Start, IsAt};
ghost use Rattle.rd_desk.specs.Noted.{without_id};
ghost use Rattle.rd_operator.specs.Replies.{StaysKept};

use crate::joining::{give_back, hand_back, join_all, join_ended, note_run};
use crate::session::{SESSIONS, Session, begin};
use rd_base::{Clock, NoMemory, Side, Sink, Source, Stopper};
use rd_desk::{Begun, Desk, begin_session};
use rd_doors::{Doors, Ends, Visit};
use rd_keeper::{KeepFail, Keeper};
use rd_lent_book::LentBook;
use rd_operator::operator_once;
use rd_run_session::{SessionLeft, SessionRunner, another_runner, end_lending, run_visit};
use rd_start::Spawner;
use std::alloc::Global;
use std::snapshot::Snapshot;
use std::sync::atomic::{AtomicBool, Ordering};
use std::sync::{Arc, Wait};
use std::thread::Threads;

/// Turns a visit away, where 32 others are out.
fn turn_away<
    P: Spawner + Send + 'static,
    C: Clock + Send + 'static,
    T: Stopper + Send + 'static,
    B: LentBook + Send + 'static,
    R: Wait + Threads + Copy + Send + Sync + 'static,
    E: Doors<SessionLeft<R>>,
>(
    doors: &mut E,
    runner: &SessionRunner<P, C, T, B, R>,
    first: &Snapshot<SessionRunner<P, C, T, B, R>>,
    ends: Ends<E::Give, E::Take>,
)
    requires tells { Tells (CameTo E.Give) first.now.value.setup (E.tells doors.old) }
    requires counts { CountedBy first.now.value
        runner.now (E.tells doors.old) }
    requires out { Holds ends.number (E.tells doors.old).out }
    requires full { length (E.tells doors.old).out ≡ 33 }
    requires fresh { AreFresh first.now.value.setup.limits.copies
        (ends_told E.Give.tells E.Take.tells ends) }
    ensures tells { Tells (CameTo E.Give) first.now.value.setup (E.tells doors.new) }
    ensures counts { CountedBy first.now.value
        runner.now (E.tells doors.new) }
    ensures out { (E.tells doors.new).out ≡ without ends.number (E.tells doors.old).out }
    ensures told { (E.tells doors.new).told ≡ entries_with
        (Some (TurnedAway (ends_told E.Give.tells E.Take.tells ends))) (E.tells doors.old).told }
    ensures keeps { KeepsTold (E.tells doors.old) (E.tells doors.new) }
    ensures over { (E.tells doors.new).is_over ≡ (E.tells doors.old).is_over }
{
    let _ = runner;
    let _ = first;
    doors.turn_away(ends);
}

/// Runs the session of a visit here, and gives its run back.
fn serve_here<
    P: Spawner + Send + 'static,
    C: Clock + Send + 'static,
    T: Stopper + Send + 'static,
    B: LentBook + Send + 'static,
    R: Wait + Threads + Copy + Send + Sync + 'static,
    E: Doors<SessionLeft<R>>,
>(
    alloc: Global,
    doors: &mut E,
    runner: &mut SessionRunner<P, C, T, B, R>,
    first: &Snapshot<SessionRunner<P, C, T, B, R>>,
    side: Side,
    ends: Ends<E::Give, E::Take>,
    begun: Begun,
    desk: &mut Desk,
    clock: &mut C,
)
    requires tells { Tells (CameTo E.Give) first.now.value.setup (E.tells doors.old) }
    requires counts { CountedBy first.now.value
        runner.old (E.tells doors.old) }
    requires out { Holds ends.number (E.tells doors.old).out }
    requires fresh { AreFresh first.now.value.setup.limits.copies
        (ends_told E.Give.tells E.Take.tells ends) }
    requires given { (told : List (Entry (SessionLeft R)))
        → (E.tells doors.old).told ≡ Some told
        → Has (Gave side (ends_told E.Give.tells E.Take.tells ends)) told }
    requires live { IfSome begun.id (λ id. Holds id desk.old.ids) }
    requires keepable { IsKeepable begun }
    ensures tells { Tells (CameTo E.Give) first.now.value.setup (E.tells doors.new) }
    ensures counts { CountedBy first.now.value
        runner.new (E.tells doors.new) }
    ensures out { (E.tells doors.new).out ≡ without ends.number (E.tells doors.old).out }
    ensures keeps { KeepsTold (E.tells doors.old) (E.tells doors.new) }
    ensures over { (E.tells doors.new).is_over ≡ (E.tells doors.old).is_over }
    ensures books { (rest : List Lent)
        → AreBooked E.Give first.now.value.setup first.now.value.book (E.tells doors.old)
        runner.old.book rest
        → AreBooked E.Give first.now.value.setup first.now.value.book (E.tells doors.new)
        runner.new.book rest }
    ensures ids { desk.new.ids ≡ without_id begun.id desk.old.ids }
    ensures notes { Answering (NotesRun first.now.value.setup
        (E.tells doors.old) (E.tells doors.new) begun side
        (ends_told E.Give.tells E.Take.tells ends) desk.old desk.new)
        (C.tells clock.old) (C.tells clock.new) }
{
    let number = ends.number;
    let handed = Snapshot::of(&ends);
    let ended = run_visit(runner, alloc, side, ends);
    let _ended_at = note_run(desk, clock, runner, begun, side, &ended);
    hand_back(doors, first, side, handed, number, ended);
}

/// What a session on a thread of its own is lent: a runner, and its flag. None where either can't be had, and then nothing
/// is lent.
fn lend<P: Spawner, C: Clock, T: Stopper, B: LentBook, R: Wait + Threads + Copy>(
    runner: &mut SessionRunner<P, C, T, B, R>,
    flag: &Arc<AtomicBool, Global>,
) -> Option<(SessionRunner<P, C, T, B, R>, Arc<AtomicBool, Global>)>
    ensures other { IfSome result (λ both. IsAnother runner.old both.0) }
    ensures same { runner.new ≡ record runner.old { book = runner.new.book } }
    ensures lent { IfSome result (λ both. MovesWith Lends
        runner.old.book both.0.book runner.new.book) }
    ensures none { IfNone result (runner.new ≡ runner.old) }
{
    let Ok(shared) = Arc::try_clone(flag) else {
        return None;
    };
    match another_runner(runner) {
        Some(theirs) => Some((theirs, shared)),
        None => None,
    }
}

/// Begins the session of a visit, on a thread of its own where one can be had.
fn admit<
    P: Spawner + Send + 'static,
    C: Clock + Send + 'static,
    T: Stopper + Send + 'static,
    B: LentBook + Send + 'static,
    R: Wait + Threads + Copy + Send + Sync + 'static,
    E: Doors<SessionLeft<R>>,
>(
    rt: R,
    alloc: Global,
    doors: &mut E,
    runner: &mut SessionRunner<P, C, T, B, R>,
    first: &Snapshot<SessionRunner<P, C, T, B, R>>,
    side: Side,
    ends: Ends<E::Give, E::Take>,
    sessions: &mut Vec<Session<E::Give, E::Take, P, C, T, B, R>>,
    flags: &mut Vec<Arc<AtomicBool, Global>>,
    flag: Arc<AtomicBool, Global>,
    desk: &mut Desk,
    clock: &mut C,
)
    requires tells { Tells (CameTo E.Give) first.now.value.setup (E.tells doors.old) }
    requires counts { CountedBy first.now.value
        runner.old (E.tells doors.old) }
    requires out { AreOut E.Give.tells E.Take.tells first.now.value.setup
        (E.tells doors.old) (Some ends.number) sessions.old.items }
    requires fresh { AreFresh first.now.value.setup.limits.copies
        (ends_told E.Give.tells E.Take.tells ends) }
    requires given { (told : List (Entry (SessionLeft R)))
        → (E.tells doors.old).told ≡ Some told
        → Has (Gave side (ends_told E.Give.tells E.Take.tells ends)) told }
    requires count { vec_len sessions.old + vec_len flags.old ≡ 31 }
    requires sessions_room { 32 ≤ vec_capacity sessions.old }
    requires flags_room { 32 ≤ vec_capacity flags.old }
    requires books { AreBooked E.Give first.now.value.setup first.now.value.book
        (E.tells doors.old) runner.old.book
        (lents E.Give.tells E.Take.tells sessions.old.items) }
    requires live { AreLive desk.old.ids sessions.old.items }
    ensures tells { Tells (CameTo E.Give) first.now.value.setup (E.tells doors.new) }
    ensures counts { CountedBy first.now.value
        runner.new (E.tells doors.new) }
    ensures out { AreOut E.Give.tells E.Take.tells first.now.value.setup
        (E.tells doors.new) None sessions.new.items }
    ensures over { (E.tells doors.new).is_over ≡ (E.tells doors.old).is_over }
    ensures room { HasRoom sessions.new flags.new }
    ensures books { AreBooked E.Give first.now.value.setup first.now.value.book
        (E.tells doors.new) runner.new.book
        (lents E.Give.tells E.Take.tells sessions.new.items) }
    ensures live { AreLive desk.new.ids sessions.new.items }
    ensures notes { Answering (NotesVisit first.now.value.setup
        (E.tells doors.old) (E.tells doors.new) E.Give.tells E.Take.tells
        desk.old desk.new sessions.old.items sessions.new.items
        side (ends_told E.Give.tells E.Take.tells ends))
        (C.tells clock.old) (C.tells clock.new) }
{
    let begun = begin_session(desk, clock);
    let Some((theirs, shared)) = lend(runner, &flag) else {
        flags.push_reserved(flag);
        serve_here(alloc, doors, runner, first, side, ends, begun, desk, clock);
        return;
    };
    let number = ends.number;
    let handed = Snapshot::of(&ends);
    match begin(rt, alloc, side, ends, theirs, shared) {
        Ok(handle) => sessions.push_reserved(Session {
            number,
            side,
            ends: handed,
            begun,
            handle,
            flag,
        }),
        Err(served) => {
            flag.store(false, Ordering::SeqCst);
            flags.push_reserved(flag);
            give_back(
                doors, runner, first, side, handed, number, served, begun, desk, clock,
            );
        }
    }
}

/// Serves a visit that has come: a session of its own, or turned away where 32 others are out.
fn take_in<
    P: Spawner + Send + 'static,
    C: Clock + Send + 'static,
    T: Stopper + Send + 'static,
    B: LentBook + Send + 'static,
    R: Wait + Threads + Copy + Send + Sync + 'static,
    E: Doors<SessionLeft<R>>,
>(
    rt: R,
    alloc: Global,
    doors: &mut E,
    runner: &mut SessionRunner<P, C, T, B, R>,
    first: &Snapshot<SessionRunner<P, C, T, B, R>>,
    side: Side,
    ends: Ends<E::Give, E::Take>,
    sessions: &mut Vec<Session<E::Give, E::Take, P, C, T, B, R>>,
    flags: &mut Vec<Arc<AtomicBool, Global>>,
    desk: &mut Desk,
    clock: &mut C,
)
    requires tells { Tells (CameTo E.Give) first.now.value.setup (E.tells doors.old) }
    requires counts { CountedBy first.now.value
        runner.old (E.tells doors.old) }
    requires out { AreOut E.Give.tells E.Take.tells first.now.value.setup
        (E.tells doors.old) (Some ends.number) sessions.old.items }
    requires fresh { AreFresh first.now.value.setup.limits.copies
        (ends_told E.Give.tells E.Take.tells ends) }
    requires given { (told : List (Entry (SessionLeft R)))
        → (E.tells doors.old).told ≡ Some told
        → Has (Gave side (ends_told E.Give.tells E.Take.tells ends)) told }
    requires room { HasRoom sessions.old flags.old }
    requires books { AreBooked E.Give first.now.value.setup first.now.value.book
        (E.tells doors.old) runner.old.book
        (lents E.Give.tells E.Take.tells sessions.old.items) }
    requires live { AreLive desk.old.ids sessions.old.items }
    ensures tells { Tells (CameTo E.Give) first.now.value.setup (E.tells doors.new) }
    ensures counts { CountedBy first.now.value
        runner.new (E.tells doors.new) }
    ensures out { AreOut E.Give.tells E.Take.tells first.now.value.setup
        (E.tells doors.new) None sessions.new.items }
    ensures over { (E.tells doors.new).is_over ≡ (E.tells doors.old).is_over }
    ensures room { HasRoom sessions.new flags.new }
    ensures books { AreBooked E.Give first.now.value.setup first.now.value.book
        (E.tells doors.new) runner.new.book
        (lents E.Give.tells E.Take.tells sessions.new.items) }
    ensures live { AreLive desk.new.ids sessions.new.items }
    ensures notes { Answering (NotesVisit first.now.value.setup
        (E.tells doors.old) (E.tells doors.new) E.Give.tells E.Take.tells
        desk.old desk.new sessions.old.items sessions.new.items
        side (ends_told E.Give.tells E.Take.tells ends))
        (C.tells clock.old) (C.tells clock.new) }
{
    let Some(flag) = flags.pop() else {
        turn_away(doors, runner, first, ends);
        return;
    };
    admit(
        rt, alloc, doors, runner, first, side, ends, sessions, flags, flag, desk, clock,
    );
}

/// Joins the sessions that have ended, and then serves a visit that has come.
fn receive<
    P: Spawner + Send + 'static,
    C: Clock + Send + 'static,
    T: Stopper + Send + 'static,
    B: LentBook + Send + 'static,
    R: Wait + Threads + Copy + Send + Sync + 'static,
    E: Doors<SessionLeft<R>>,
>(
    rt: R,
    alloc: Global,
    doors: &mut E,
    runner: &mut SessionRunner<P, C, T, B, R>,
    first: &Snapshot<SessionRunner<P, C, T, B, R>>,
    side: Side,
    ends: Ends<E::Give, E::Take>,
    sessions: &mut Vec<Session<E::Give, E::Take, P, C, T, B, R>>,
    flags: &mut Vec<Arc<AtomicBool, Global>>,
    desk: &mut Desk,
    clock: &mut C,
)
    requires tells { Tells (CameTo E.Give) first.now.value.setup (E.tells doors.old) }
    requires counts { CountedBy first.now.value
        runner.old (E.tells doors.old) }
    requires out { AreOut E.Give.tells E.Take.tells first.now.value.setup
        (E.tells doors.old) (Some ends.number) sessions.old.items }
    requires fresh { AreFresh first.now.value.setup.limits.copies
        (ends_told E.Give.tells E.Take.tells ends) }
    requires given { (told : List (Entry (SessionLeft R)))
        → (E.tells doors.old).told ≡ Some told
        → Has (Gave side (ends_told E.Give.tells E.Take.tells ends)) told }
    requires room { HasRoom sessions.old flags.old }
    requires books { AreBooked E.Give first.now.value.setup first.now.value.book
        (E.tells doors.old) runner.old.book
        (lents E.Give.tells E.Take.tells sessions.old.items) }
    requires live { AreLive desk.old.ids sessions.old.items }
    ensures tells { Tells (CameTo E.Give) first.now.value.setup (E.tells doors.new) }
    ensures counts { CountedBy first.now.value
        runner.new (E.tells doors.new) }
    ensures out { AreOut E.Give.tells E.Take.tells first.now.value.setup
        (E.tells doors.new) None sessions.new.items }
    ensures over { (E.tells doors.new).is_over ≡ (E.tells doors.old).is_over }
    ensures room { HasRoom sessions.new flags.new }
    ensures books { AreBooked E.Give first.now.value.setup first.now.value.book
        (E.tells doors.new) runner.new.book
        (lents E.Give.tells E.Take.tells sessions.new.items) }
    ensures live { AreLive desk.new.ids sessions.new.items }
    ensures notes { Answering (NotesVisit first.now.value.setup
        (E.tells doors.old) (E.tells doors.new) E.Give.tells E.Take.tells
        desk.old desk.new sessions.old.items sessions.new.items
        side (ends_told E.Give.tells E.Take.tells ends))
        (C.tells clock.old) (C.tells clock.new) }
{
    let waiting = Some(ends.number);
    join_ended(
        rt, doors, runner, first, waiting, sessions, flags, desk, clock,
    );
    take_in(
        rt, alloc, doors, runner, first, side, ends, sessions, flags, desk, clock,
    );
}

/// Answers an operator by the board and the keeper's notes.
fn answer<R: Wait + Threads + Copy + Send + Sync + 'static, E: Doors<SessionLeft<R>>, Y: Keeper>(
    alloc: Global,
    doors: &mut E,
    source: E::Give,
    sink: E::Take,
    desk: &Desk,
    keeper: &mut Y,
)
    requires open_sink { (E.Take.tells sink).is_closed ≡ false }
    requires mark { (E.Take.tells sink).mark ≡ (E.Give.tells source).mark }
    requires out { 1 ≤ (E.tells doors.old).asking }
    ensures answers { Answered desk.now.board (E.Give.tells source) (E.Take.tells sink)
        (E.tells doors.old) (E.tells doors.new) (Y.tells keeper.old) (Y.tells keeper.new) }
    ensures kept { StaysKept (Y.tells keeper.old) (Y.tells keeper.new) }
{
    let (mut source, mut sink) = (source, sink);
    let end = operator_once(alloc, &mut source, &mut sink, desk.board(), keeper);
    doors.operator_back(source, sink, end);
}

/// Takes what comes next, and says whether that was Over.
fn serve_visit<
    P: Spawner + Send + 'static,
    C: Clock + Send + 'static,
    T: Stopper + Send + 'static,
    B: LentBook + Send + 'static,
    R: Wait + Threads + Copy + Send + Sync + 'static,
    E: Doors<SessionLeft<R>>,
    Y: Keeper,
>(
    rt: R,
    alloc: Global,
    doors: &mut E,
    runner: &mut SessionRunner<P, C, T, B, R>,
    first: &Snapshot<SessionRunner<P, C, T, B, R>>,
    sessions: &mut Vec<Session<E::Give, E::Take, P, C, T, B, R>>,
    flags: &mut Vec<Arc<AtomicBool, Global>>,
    desk: &mut Desk,
    clock: &mut C,
    keeper: &mut Y,
) -> bool
    requires tells { Tells (CameTo E.Give) first.now.value.setup (E.tells doors.old) }
    requires counts { CountedBy first.now.value
        runner.old (E.tells doors.old) }
    requires out { AreOut E.Give.tells E.Take.tells first.now.value.setup
        (E.tells doors.old) None sessions.old.items }
    requires room { HasRoom sessions.old flags.old }
    requires books { AreBooked E.Give first.now.value.setup first.now.value.book
        (E.tells doors.old) runner.old.book
        (lents E.Give.tells E.Take.tells sessions.old.items) }
    requires live { AreLive desk.old.ids sessions.old.items }
    ensures tells { Tells (CameTo E.Give) first.now.value.setup (E.tells doors.new) }
    ensures counts { CountedBy first.now.value
        runner.new (E.tells doors.new) }
    ensures out { AreOut E.Give.tells E.Take.tells first.now.value.setup
        (E.tells doors.new) None sessions.new.items }
    ensures over { result ≡ true → (E.tells doors.new).is_over ≡ true }
    ensures room { HasRoom sessions.new flags.new }
    ensures books { AreBooked E.Give first.now.value.setup first.now.value.book
        (E.tells doors.new) runner.new.book
        (lents E.Give.tells E.Take.tells sessions.new.items) }
    ensures live { AreLive desk.new.ids sessions.new.items }
    ensures notes { Answering (NotesServe first.now.value.setup
        (E.tells doors.old) (E.tells doors.new) E.Give.tells E.Take.tells
        desk.old desk.new sessions.old.items sessions.new.items
        (Y.tells keeper.old) (Y.tells keeper.new)) (C.tells clock.old) (C.tells clock.new) }
    ensures faults { (Y.tells keeper.old).faults ≤ (Y.tells keeper.new).faults }
{
    match doors.next_visit(alloc) {
        Visit::Client(ends) => {
            receive(
                rt,
                alloc,
                doors,
                runner,
                first,
                Side::Incoming,
                ends,
                sessions,
                flags,
                desk,
                clock,
            );
            false
        }
        Visit::Callers(ends) => {
            receive(
                rt,
                alloc,
                doors,
                runner,
                first,
                Side::Outgoing,
                ends,
                sessions,
                flags,
                desk,
                clock,
            );
            false
        }
        Visit::Operator(source, sink) => {
            answer(alloc, doors, source, sink, desk, keeper);
            false
        }
        Visit::Quiet => false,
        Visit::Failed => false,
        Visit::NoMemory => false,
        Visit::Over => true,
    }
}

/// Serves visits until the doors are over. Notes are put behind each turn.
fn serve_visits<
    P: Spawner + Send + 'static,
    C: Clock + Send + 'static,
    T: Stopper + Send + 'static,
    B: LentBook + Send + 'static,
    R: Wait + Threads + Copy + Send + Sync + 'static,
    E: Doors<SessionLeft<R>>,
    Y: Keeper,
>(
    rt: R,
    alloc: Global,
    doors: &mut E,
    runner: &mut SessionRunner<P, C, T, B, R>,
    first: &Snapshot<SessionRunner<P, C, T, B, R>>,
    sessions: &mut Vec<Session<E::Give, E::Take, P, C, T, B, R>>,
    flags: &mut Vec<Arc<AtomicBool, Global>>,
    desk: &mut Desk,
    clock: &mut C,
    keeper: &mut Y,
)
    requires tells { Tells (CameTo E.Give) first.now.value.setup (E.tells doors.old) }
    requires counts { CountedBy first.now.value
        runner.old (E.tells doors.old) }
    requires out { AreOut E.Give.tells E.Take.tells first.now.value.setup
        (E.tells doors.old) None sessions.old.items }
    requires room { HasRoom sessions.old flags.old }
    requires books { AreBooked E.Give first.now.value.setup first.now.value.book
        (E.tells doors.old) runner.old.book
        (lents E.Give.tells E.Take.tells sessions.old.items) }
    requires live { AreLive desk.old.ids sessions.old.items }
    ensures tells { Tells (CameTo E.Give) first.now.value.setup (E.tells doors.new) }
    ensures counts { CountedBy first.now.value
        runner.new (E.tells doors.new) }
    ensures out { AreOut E.Give.tells E.Take.tells first.now.value.setup
        (E.tells doors.new) None sessions.new.items }
    ensures over { (E.tells doors.new).is_over ≡ true }
    ensures room { HasRoom sessions.new flags.new }
    ensures books { AreBooked E.Give first.now.value.setup first.now.value.book
        (E.tells doors.new) runner.new.book
        (lents E.Give.tells E.Take.tells sessions.new.items) }
    ensures live { AreLive desk.new.ids sessions.new.items }
    ensures notes { Answering (NotesServe first.now.value.setup
        (E.tells doors.old) (E.tells doors.new) E.Give.tells E.Take.tells
        desk.old desk.new sessions.old.items sessions.new.items
        (Y.tells keeper.old) (Y.tells keeper.new)) (C.tells clock.old) (C.tells clock.new) }
    ensures faults { (Y.tells keeper.old).faults ≤ (Y.tells keeper.new).faults }
{
    for _ in rt.forever() {
        let over = serve_visit(
            rt, alloc, doors, runner, first, sessions, flags, desk, clock, keeper,
        );
        if over {
            return;
        }
        join_ended(rt, doors, runner, first, None, sessions, flags, desk, clock);
        let _put = desk.keep_some(keeper);
    }
}

/// As many flags as sessions may run.
fn make_flags(alloc: Global) -> Result<Vec<Arc<AtomicBool, Global>>, NoMemory>
    ensures count { IfOk result (λ flags. vec_len flags ≡ 32) }
    ensures room { IfOk result (λ flags. 32 ≤ vec_capacity flags) }
{
    let Ok(mut flags) = Vec::with_capacity(alloc, SESSIONS) else {
        return Err(NoMemory);
    };
    for _count in 0..SESSIONS {
        let Ok(flag) = Arc::new(alloc, AtomicBool::new(false)) else {
            return Err(NoMemory);
        };
        flags.push_reserved(flag);
    }
    Ok(flags)
}

/// Serves visits until the doors are over, at most 32 at once. NoMemory comes before the first visit is asked for.
pub fn serve<
    P: Spawner + Send + 'static,
    C: Clock + Send + 'static,
    T: Stopper + Send + 'static,
    B: LentBook + Send + 'static,
    R: Wait + Threads + Copy + Send + Sync + 'static,
    E: Doors<SessionLeft<R>>,
    Y: Keeper,
>(
    rt: R,
    alloc: Global,
    doors: &mut E,
    runner: &mut SessionRunner<P, C, T, B, R>,
    desk: Desk,
    clock: &mut C,
    keeper: &mut Y,
) -> Result<(), KeepFail>
    requires copies { (E.tells doors.old).copies ≡ Some runner.old.setup.limits.copies }
    requires untold { (told : List (Entry (SessionLeft R)))
        → (E.tells doors.old).told ≡ Some told → told ≡ [] }
    requires none { (E.tells doors.old).out ≡ [] }
    requires ids { desk.ids ≡ [] }
    ensures served { (told : List (Entry (SessionLeft R)))
        → (E.tells doors.new).told ≡ Some told
        → IsServed (CameTo E.Give) runner.old.setup told }
    ensures ended { OnOk result ((told : List (Entry (SessionLeft R)))
        → (E.tells doors.new).told ≡ Some told
        → (n : ℕ) → times_given n told ≡ times_ended n told) }
    ensures stopped { (told : List (Entry (SessionLeft R)))
        → (E.tells doors.new).told ≡ Some told
        → RoseBy (times_stopped told)
        runner.old.yeses runner.new.yeses }
    ensures unstarted { (told : List (Entry (SessionLeft R)))
        → (E.tells doors.new).told ≡ Some told
        → RoseBy (times_unstarted told)
        runner.old.refusals runner.new.refusals }
    ensures late { (told : List (Entry (SessionLeft R))) → (E.tells doors.new).told ≡ Some told
        → EachRun (IsWithin runner.new.span) told }
    ensures notes { OnOk result ((start : Start) (told : List (Entry (SessionLeft R)))
        → IsAt start [] desk (Y.tells keeper.old) → (E.tells doors.new).told ≡ Some told
        → Answering (λ asked. NotesAndAnswers runner.old.setup start asked told
        (Y.tells keeper.new)) (C.tells clock.old) (C.tells clock.new)) }
    ensures book { OnOk result ((others : ℕ) (told : List (Entry (SessionLeft R)))
        → runner.old.book ≡ Some (new_book others) → (E.tells doors.new).told ≡ Some told
        → ServedBook E.Give runner.old.setup told) }
    ensures four { result ≡ Err KeepFail.Failed
        → Rose (Y.tells keeper.old).faults (Y.tells keeper.new).faults }
    ensures over { OnOk result ((E.tells doors.new).is_over ≡ true) }
    ensures out { OnOk result ((E.tells doors.new).out ≡ []) }
{
    let Ok(mut sessions) = Vec::with_capacity(alloc, SESSIONS) else {
        return Err(KeepFail::NoMemory);
    };
    let mut flags = make_flags(alloc)?;
    let mut desk = desk;
    let first = Snapshot::of(runner);
    serve_visits(
        rt,
        alloc,
        doors,
        runner,
        &first,
        &mut sessions,
        &mut flags,
        &mut desk,
        clock,
        keeper,
    );
    join_all(
        rt,
        doors,
        runner,
        &first,
        &mut sessions,
        &mut flags,
        &mut desk,
        clock,
    );
    end_lending(runner);
    desk.keep_all(keeper)
}
