ghost use Rattle.std.specs.Prelude.{◌≡◌, ℕ, ◌≤◌, ◌-◌, ◌^◌, List, Option, IfOk, IfSome, IfNone};
ghost use Rattle.rd_base.specs.Limits.{AreLimits};
ghost use Rattle.rd_base.specs.Clocks.{ClockTold, StopperTold};
ghost use Rattle.rd_dialect.specs.Grammar.{Grammar};
ghost use Rattle.rd_doors.specs.Visits.{AreFresh, ends_told, run_told};
ghost use Rattle.rd_runner.specs.Runs.{Setup, Ran};
ghost use Rattle.rd_runner.specs.Counts.{RunnerTold, Runs, IsAnother, TakesIn};
ghost use Rattle.rd_lent_book.specs.Lending.{Asked, IsHeard, Lends, TakesBack, Moves, MovesWith, calls_told};
ghost use Rattle.rd_run_session.specs.Asking.{CameAsking, CameWith};
ghost use Rattle.rd_run_session.specs.CameTo.{CameTo, KeepsMarks};
ghost use Rattle.rd_run_session.specs.Dialects.{dialect_on, grammar_of};
ghost use Rattle.rd_run_session.specs.Counted.{Counted, capped};
ghost use Rattle.rd_run_session.specs.Holding.{book_held, IsHeld};
ghost use Rattle.rd_run_session.specs.Left.{summary_of};
ghost use Rattle.rd_token_map.specs.BookCalls.{BookCall};

use crate::asked_book::{AskedBook, Beginning};
use crate::left::SessionLeft;
use rd_base::{Clock, Limits, NameRules, NoMemory, Side, Sink, Source, Stopper};
use rd_conf::DialectName;
use rd_dialect::{Dialect, Line};
use rd_doors::{Ends, Run};
use rd_http_tokens::Http;
use rd_lent_book::LentBook;
use rd_pg_tokens::Pg;
use rd_run::{run_in, run_out, run_unmade};
use rd_runner::Ended;
use rd_start::Spawner;
use std::alloc::Global;
use std::marker::{Brand, Model};
use std::sync::Wait;
use std::thread::Threads;

/// Runs sessions by settings: each in the dialect that they name for its side, with a clock, a stopper, a spawner and a
/// book of rows that it keeps.
#[derive(Drop)]
pub struct SessionRunner<P: Spawner, C: Clock, Q: Stopper, B: LentBook, R: Wait + Threads + Copy> {
    rt: R,
    alloc: Global,
    limits: Limits,
    incoming: DialectName,
    outgoing: DialectName,
    rules: NameRules,
    spawner: P,
    clock: C,
    stop: Q,
    book: Option<B>,
}

impl<P: Spawner, C: Clock, Q: Stopper, B: LentBook, R: Wait + Threads + Copy> Model
    for SessionRunner<P, C, Q, B, R> {
    ghost Value = { RunnerTold };

    ghost view = { λ r. record {
      setup = record { limits = r.limits; incoming = r.incoming; outgoing = r.outgoing; rules = r.rules };
      yeses = (Q.tells r.stop).yeses;
      refusals = capped (P.tells r.spawner).refusals;
      span = (C.tells r.clock).span;
      book = book_held B.told r.book;
    } };

    ghost invariant = { λ r. AreLimits r.limits × ((Q.tells r.stop).yeses ≤ 2 ^ 64 - 1) × IsHeld r.book };
}

fn copy_of(alloc: Global, rules: &NameRules) -> Result<NameRules, NoMemory>
    ensures { IfOk result (λ copy. copy ≡ rules.now) }
{
    Ok(NameRules {
        pass: rules.pass.copied(alloc)?,
        firm: rules.firm.copied(alloc)?,
        free: rules.free.copied(alloc)?,
    })
}

impl<P: Spawner, C: Clock, Q: Stopper, B: LentBook, R: Wait + Threads + Copy> SessionRunner<
    P,
    C,
    Q,
    B,
    R,
> {
    /// A runner by these limits, dialects and rules of names, whose spawner and stopper have counted nothing yet. Sessions
    /// of clients ask and tell the book.
    pub fn new(
        rt: R,
        alloc: Global,
        limits: Limits,
        incoming: DialectName,
        outgoing: DialectName,
        rules: NameRules,
        spawner: P,
        clock: C,
        stop: Q,
        book: B,
    ) -> SessionRunner<P, C, Q, B, R>
        requires limits { AreLimits limits }
        requires refusals { (P.tells spawner).refusals ≡ 0 }
        requires yeses { (Q.tells stop).yeses ≡ 0 }
        ensures { result ≡ record {
          setup = record { limits = limits; incoming = incoming; outgoing = outgoing; rules = rules };
          yeses = 0;
          refusals = 0;
          span = (C.tells clock).span;
          book = B.told book;
        } }
    {
        SessionRunner {
            rt,
            alloc,
            limits,
            incoming,
            outgoing,
            rules,
            spawner,
            clock,
            stop,
            book: Some(book),
        }
    }

    /// The spawner, the clock and the stopper that it kept, with what they counted.
    pub fn into_parts(self) -> (P, C, Q)
        ensures refusals { capped (P.tells result.0).refusals ≡ self.refusals }
        ensures span { (C.tells result.1).span ≡ self.span }
        ensures yeses { (Q.tells result.2).yeses ≡ self.yeses }
    {
        let SessionRunner {
            rt: _,
            alloc: _,
            limits: _,
            incoming: _,
            outgoing: _,
            rules: _,
            spawner,
            clock,
            stop,
            book: _,
        } = self;
        (spawner, clock, stop)
    }
}

/// Runs the session of a visit in this dialect, and gives its book back.
fn run_by<
    J: Beginning,
    D: Dialect,
    S: Source + Send + 'static,
    K: Sink,
    P: Spawner,
    C: Clock,
    Q: Stopper,
    B: LentBook,
    R: Wait + Threads + Copy + Send + Sync + 'static,
>(
    rt: R,
    alloc: Global,
    dialect: D,
    limits: Limits,
    side: Side,
    ends: Ends<S, K>,
    spawner: &mut P,
    clock: &mut C,
    stop: &mut Q,
    book: B,
) -> (Ended<S, K, SessionLeft<R>>, B)
    requires limits { AreLimits limits }
    requires fresh { AreFresh limits.copies (ends_told S.tells K.tells ends) }
    requires yeses { (Q.tells stop.old).yeses ≤ 2 ^ 64 - 1 }
    requires began { J.began ≡ B.told book }
    ensures came { CameAsking S (D.grammar dialect) limits side (ends_told S.tells K.tells ends)
        (run_told S.tells K.tells ends.number result.0.run result.0.sinks.items)
        (calls_told (B.told book)) (calls_told (B.told result.1)) }
    ensures asked { Moves Asked (B.told book) (B.told result.1) }
    ensures marks { KeepsMarks (ends_told S.tells K.tells ends)
        (run_told S.tells K.tells ends.number result.0.run result.0.sinks.items) }
    ensures counted { Counted (summary_of result.0.run.left.report)
        (C.tells clock.old) (C.tells clock.new) (Q.tells stop.old) (Q.tells stop.new)
        (P.tells spawner.old).refusals (P.tells spawner.new).refusals }
{
    let Ends {
        number: _,
        sources,
        mut sinks,
    } = ends;
    match side {
        Side::Incoming => {
            let mut asked = AskedBook::<J, B>::new(book);
            let run = run_in(
                rt, alloc, dialect, limits, sources, &mut sinks, spawner, clock, stop, &mut asked,
            );
            (ended(run, sinks), asked.into_book())
        }
        Side::Outgoing => {
            let run = run_out(
                rt, alloc, dialect, limits, sources, &mut sinks, spawner, clock, stop,
            );
            (ended(run, sinks), book)
        }
    }
}

/// A run with its sinks, as it is handed back.
fn ended<S: Source, K, R: Wait + Copy>(
    run: rd_run::Run<S, R>,
    sinks: Vec<K>,
) -> Ended<S, K, SessionLeft<R>>
    ensures report { result.run.left.report ≡ run.report }
    ensures left_over { result.run.left.left_over ≡ run.left_over }
    ensures sources { result.run.sources ≡ run.sources }
    ensures sinks { result.sinks ≡ sinks }
{
    Ended {
        run: Run {
            left: SessionLeft {
                report: run.report,
                left_over: run.left_over,
            },
            sources: run.sources,
        },
        sinks,
    }
}

/// The session of a visit for whose dialect there was no memory.
fn run_none<S: Source, K: Sink, R: Wait + Copy>(
    alloc: Global,
    limits: Limits,
    side: Side,
    ends: Ends<S, K>,
) -> Ended<S, K, SessionLeft<R>>
    ensures came { (g : Grammar) (book : Option (List BookCall))
        → CameAsking S g limits side (ends_told S.tells K.tells ends)
        (run_told S.tells K.tells ends.number result.run result.sinks.items) book book }
    ensures marks { KeepsMarks (ends_told S.tells K.tells ends)
        (run_told S.tells K.tells ends.number result.run result.sinks.items) }
    ensures counted { (clock : ClockTold) (stopper : StopperTold) (refusals : ℕ)
        → stopper.yeses ≤ 2 ^ 64 - 1 → Counted (summary_of result.run.left.report)
        clock clock stopper stopper refusals refusals }
{
    let _ = (limits, side);
    let Ends {
        number: _,
        sources,
        mut sinks,
    } = ends;
    let run = run_unmade(alloc, sources, &mut sinks);
    ended(run, sinks)
}

/// Runs the session of a visit in the dialect of this name, and gives its book back.
fn run_named<
    S: Source + Send + 'static,
    K: Sink,
    P: Spawner,
    C: Clock,
    Q: Stopper,
    B: LentBook,
    R: Wait + Threads + Copy + Send + Sync + 'static,
>(
    rt: R,
    alloc: Global,
    name: DialectName,
    rules: &NameRules,
    limits: Limits,
    side: Side,
    ends: Ends<S, K>,
    spawner: &mut P,
    clock: &mut C,
    stop: &mut Q,
    book: B,
) -> (Ended<S, K, SessionLeft<R>>, B)
    requires limits { AreLimits limits }
    requires fresh { AreFresh limits.copies (ends_told S.tells K.tells ends) }
    requires yeses { (Q.tells stop.old).yeses ≤ 2 ^ 64 - 1 }
    ensures came { CameAsking S (grammar_of name side rules.now) limits side
        (ends_told S.tells K.tells ends)
        (run_told S.tells K.tells ends.number result.0.run result.0.sinks.items)
        (calls_told (B.told book)) (calls_told (B.told result.1)) }
    ensures asked { Moves Asked (B.told book) (B.told result.1) }
    ensures marks { KeepsMarks (ends_told S.tells K.tells ends)
        (run_told S.tells K.tells ends.number result.0.run result.0.sinks.items) }
    ensures counted { Counted (summary_of result.0.run.left.report)
        (C.tells clock.old) (C.tells clock.new) (Q.tells stop.old) (Q.tells stop.new)
        (P.tells spawner.old).refusals (P.tells spawner.new).refusals }
{
    match name {
        DialectName::Line => run_by::<Brand, Line, S, K, P, C, Q, B, R>(
            rt, alloc, Line, limits, side, ends, spawner, clock, stop, book,
        ),
        DialectName::Http => match Http::new(alloc, side, rules) {
            Ok(http) => run_by::<Brand, Http, S, K, P, C, Q, B, R>(
                rt, alloc, http, limits, side, ends, spawner, clock, stop, book,
            ),
            Err(_) => (run_none(alloc, limits, side, ends), book),
        },
        DialectName::Pg => match Pg::new(alloc, side, rules) {
            Ok(pg) => run_by::<Brand, Pg, S, K, P, C, Q, B, R>(
                rt, alloc, pg, limits, side, ends, spawner, clock, stop, book,
            ),
            Err(_) => (run_none(alloc, limits, side, ends), book),
        },
    }
}

/// Runs the session of a visit to its end, in the dialect that the settings name for its side. It stands apart from the
/// runner's methods, since no method of a trait may start threads for any source.
pub fn run_visit<
    S: Source + Send + 'static,
    K: Sink,
    P: Spawner,
    C: Clock,
    Q: Stopper,
    B: LentBook,
    R: Wait + Threads + Copy + Send + Sync + 'static,
>(
    runner: &mut SessionRunner<P, C, Q, B, R>,
    alloc: Global,
    side: Side,
    ends: Ends<S, K>,
) -> Ended<S, K, SessionLeft<R>>
    requires { AreFresh runner.old.setup.limits.copies (ends_told S.tells K.tells ends) }
    ensures ran { Ran (CameTo S) runner.old.setup side (ends_told S.tells K.tells ends)
        (run_told S.tells K.tells ends.number result.run result.sinks.items) }
    ensures counts { Runs (summary_of result.run.left.report) runner.old runner.new }
    ensures came { CameWith S runner.old.setup side (ends_told S.tells K.tells ends)
        (run_told S.tells K.tells ends.number result.run result.sinks.items)
        (calls_told runner.old.book) (calls_told runner.new.book) }
    ensures asked { Moves Asked runner.old.book runner.new.book }
{
    let SessionRunner {
        rt,
        alloc: _,
        limits,
        incoming,
        outgoing,
        rules,
        spawner,
        clock,
        stop,
        book,
    } = runner;
    let Some(lent) = book.take() else {
        unreachable!()
    };
    let name = dialect_on(side, *incoming, *outgoing);
    let (ended, back) = run_named(
        *rt, alloc, name, rules, *limits, side, ends, spawner, clock, stop, lent,
    );
    *book = Some(back);
    ended
}

/// The dialect in which it runs sessions of this side.
pub fn dialect_of<P: Spawner, C: Clock, Q: Stopper, B: LentBook, R: Wait + Threads + Copy>(
    runner: &SessionRunner<P, C, Q, B, R>,
    side: Side,
) -> DialectName
    ensures { result ≡ dialect_on side runner.now.setup }
{
    match side {
        Side::Incoming => runner.incoming,
        Side::Outgoing => runner.outgoing,
    }
}

fn dialect_on(side: Side, incoming: DialectName, outgoing: DialectName) -> DialectName
    ensures { (setup : Setup) → setup.incoming ≡ incoming → setup.outgoing ≡ outgoing
        → result ≡ dialect_on side setup }
{
    match side {
        Side::Incoming => incoming,
        Side::Outgoing => outgoing,
    }
}

/// A further runner by the same settings, which counts from 0. None where memory runs out or no book can be lent.
pub fn another_runner<P: Spawner, C: Clock, Q: Stopper, B: LentBook, R: Wait + Threads + Copy>(
    runner: &mut SessionRunner<P, C, Q, B, R>,
) -> Option<SessionRunner<P, C, Q, B, R>>
    ensures other { IfSome result (λ other. IsAnother runner.old other) }
    ensures same { runner.new ≡ record runner.old { book = runner.new.book } }
    ensures lent { IfSome result (λ other. MovesWith Lends
        runner.old.book other.book runner.new.book) }
    ensures none { IfNone result (runner.new ≡ runner.old) }
{
    let SessionRunner {
        rt,
        alloc,
        limits,
        incoming,
        outgoing,
        rules,
        spawner,
        clock,
        stop,
        book,
    } = runner;
    let rules = copy_of(*alloc, rules).ok()?;
    let Some(own) = book else { unreachable!() };
    let book = own.another()?;
    Some(SessionRunner::new(
        *rt,
        *alloc,
        *limits,
        *incoming,
        *outgoing,
        rules,
        spawner.another(),
        clock.another(),
        stop.another(),
        book,
    ))
}

/// Takes in the counts, the span and the book of a runner that is no longer used.
pub fn take_in_runner<P: Spawner, C: Clock, Q: Stopper, B: LentBook, R: Wait + Threads + Copy>(
    runner: &mut SessionRunner<P, C, Q, B, R>,
    other: SessionRunner<P, C, Q, B, R>,
)
    ensures counts { TakesIn other runner.old runner.new }
    ensures back { MovesWith TakesBack runner.old.book other.book runner.new.book }
{
    let SessionRunner {
        rt: _,
        alloc: _,
        limits: _,
        incoming: _,
        outgoing: _,
        rules: _,
        spawner: their_spawner,
        clock: their_clock,
        stop: their_stop,
        book: their_book,
    } = other;
    let SessionRunner {
        rt: _,
        alloc: _,
        limits: _,
        incoming: _,
        outgoing: _,
        rules: _,
        spawner,
        clock,
        stop,
        book,
    } = runner;
    spawner.join_in(their_spawner);
    clock.join_in(their_clock);
    stop.join_in(their_stop);
    let Some(own) = book else { unreachable!() };
    let Some(back) = their_book else {
        unreachable!()
    };
    own.join_in(back);
}

/// Has each book that it may lend heed its own, once no more sessions come.
pub fn end_lending<P: Spawner, C: Clock, Q: Stopper, B: LentBook, R: Wait + Threads + Copy>(
    runner: &mut SessionRunner<P, C, Q, B, R>,
)
    ensures same { runner.new ≡ record runner.old { book = runner.new.book } }
    ensures heard { IfSome runner.old.book IsHeard }
{
    let SessionRunner {
        rt: _,
        alloc: _,
        limits: _,
        incoming: _,
        outgoing: _,
        rules: _,
        spawner: _,
        clock: _,
        stop: _,
        book,
    } = runner;
    let Some(own) = book else { unreachable!() };
    own.be_heeded();
}
