ghost use Rattle.std.specs.Prelude.{◌≡◌, ◌+◌, ◌≤◌, [], ℕ, Some, map, length, IfOk, vec_len, vec_capacity};
ghost use Rattle.rd_base.specs.Limits.{AreLimits};
ghost use Rattle.rd_reading.specs.Seen.{rules_of};
ghost use Rattle.rd_rules.specs.Exchange.{Rules};
ghost use Rattle.rd_gate.specs.declared.gate.View.{View};
ghost use Rattle.rd_core.specs.Standing.{IsAt};
ghost use Rattle.rd_gate.specs.Gate.{fresh, owner};
ghost use Rattle.rd_turn.specs.Sinks.{AreOpen};
ghost use Rattle.rd_turn.specs.Turns.{Outside, outside, rules_by};
ghost use Rattle.rd_run.specs.Links.{LinksDone};
ghost use Rattle.rd_run.specs.Whole.{RunsBy, may_stay, taken_in, rules_on};

use crate::items::{Items, LeftOver};
use crate::leaving::close_all;
use crate::log::Log;
use crate::session::{Left, leave_unstarted, run_started};
use rd_base::{Clock, Ending, Limits, NoMemory, Rows, Side, Sink, Source, Stopper};
use rd_core::{Session, Setup};
use rd_dialect::Dialect;
use rd_gate::{OwnerPass, Passes, make_gate};
use rd_start::{NotStarted, Reading, Spawner, start_all};
use rd_token_map::{NoBook, TokenBook};
use rd_turn::{Entries, Journal};
use std::alloc::Global;
use std::sync::Wait;
use std::thread::Threads;

/// What a session that has run tells: how it ended, its log, the rows that were told to its steps, and how many exchanges were
/// agreed and places masked in them.
#[derive(Drop)]
pub struct Report<R: Wait + Copy> {
    pub ending: Ending,
    pub log: Log<R>,
    pub told: Rows,
    pub exchanges: u32,
    pub masked: u32,
}

/// A session that has run, its sources in link order, and the items that came to no step.
#[derive(Drop)]
pub struct Run<S: Source, R: Wait + Copy> {
    pub report: Report<R>,
    pub sources: Vec<S>,
    pub left_over: LeftOver,
}

/// Runs a session of a client before its instances, over these sources and sinks in link order. It comes back once the
/// session has ended, each sink is closed and each reader was joined. It waits while nothing is to be done.
pub fn run_in<
    D: Dialect,
    S: Source + Send + 'static,
    K: Sink,
    P: Spawner,
    C: Clock,
    Q: Stopper,
    B: TokenBook,
    R: Wait + Threads + Copy + Send + Sync + 'static,
>(
    rt: R,
    alloc: Global,
    dialect: D,
    limits: Limits,
    sources: Vec<S>,
    sinks: &mut Vec<K>,
    spawner: &mut P,
    clock: &mut C,
    stop: &mut Q,
    book: &mut B,
) -> Run<S, R>
    requires limits { AreLimits limits }
    requires sources { vec_len sources ≡ limits.copies + 1 }
    requires sinks { vec_len sinks.old ≡ limits.copies + 1 }
    requires open { AreOpen (map K.tells sinks.old.items) }
    ensures run { RunsBy (rules_on Side.Incoming (D.grammar dialect) limits)
        (λ v. outside v (C.tells clock.old) (Q.tells stop.old) (B.tells book.old))
        (λ v. outside v (C.tells clock.new) (Q.tells stop.new) (B.tells book.new))
        (P.tells spawner.old).refusals (P.tells spawner.new).refusals
        result (map K.tells sinks.old.items) (map K.tells sinks.new.items) }
    ensures sources { LinksDone (may_stay result) (taken_in result) 0 (map S.tells sources.items)
        (map S.tells result.sources.items) }
{
    let setup = Setup {
        side: Side::Incoming,
        limits,
    };
    run_session(
        rt, alloc, dialect, setup, sources, sinks, spawner, clock, stop, book,
    )
}

/// The same for instances as callers before their backend. No book is asked.
pub fn run_out<
    D: Dialect,
    S: Source + Send + 'static,
    K: Sink,
    P: Spawner,
    C: Clock,
    Q: Stopper,
    R: Wait + Threads + Copy + Send + Sync + 'static,
>(
    rt: R,
    alloc: Global,
    dialect: D,
    limits: Limits,
    sources: Vec<S>,
    sinks: &mut Vec<K>,
    spawner: &mut P,
    clock: &mut C,
    stop: &mut Q,
) -> Run<S, R>
    requires limits { AreLimits limits }
    requires sources { vec_len sources ≡ limits.copies + 1 }
    requires sinks { vec_len sinks.old ≡ limits.copies + 1 }
    requires open { AreOpen (map K.tells sinks.old.items) }
    ensures run { RunsBy (rules_on Side.Outgoing (D.grammar dialect) limits)
        (λ v. outside v (C.tells clock.old) (Q.tells stop.old) None)
        (λ v. outside v (C.tells clock.new) (Q.tells stop.new) None)
        (P.tells spawner.old).refusals (P.tells spawner.new).refusals
        result (map K.tells sinks.old.items) (map K.tells sinks.new.items) }
    ensures sources { LinksDone (may_stay result) (taken_in result) 0 (map S.tells sources.items)
        (map S.tells result.sources.items) }
{
    let setup = Setup {
        side: Side::Outgoing,
        limits,
    };
    let mut book = NoBook;
    run_session(
        rt, alloc, dialect, setup, sources, sinks, spawner, clock, stop, &mut book,
    )
}

/// What a session needs before its readers are started.
#[derive(Drop)]
struct Ready<D: Dialect, S: Source, R: Wait + Threads + Copy> {
    session: Session<D>,
    gate: OwnerPass<R>,
    passes: Passes<R>,
    readings: Vec<Reading<S, R>>,
    unread: Vec<NotStarted<S, R>>,
    back: Vec<S>,
}

fn make_ready<D: Dialect, S: Source, R: Wait + Threads + Copy>(
    rt: R,
    alloc: Global,
    dialect: D,
    setup: Setup,
) -> Result<Ready<D, S, R>, NoMemory>
    requires { AreLimits setup.limits }
    ensures dialect { IfOk result (λ x. x.session.dialect ≡ dialect) }
    ensures setup { IfOk result (λ x. x.session.setup ≡ setup) }
    ensures begins { IfOk result (λ x. IsAt (rules_of (D.grammar dialect) setup) x.session []) }
    ensures gate { IfOk result (λ x. x.gate.knows ≡ owner (setup.limits.copies + 1) [] [] []) }
    ensures passes { IfOk result (λ x. x.passes ≡ fresh x.gate.gate (setup.limits.copies + 1)) }
    ensures readings { IfOk result (λ x. (x.readings.items ≡ [])
        × (setup.limits.copies + 1 ≤ vec_capacity x.readings)) }
    ensures unread { IfOk result (λ x. (x.unread.items ≡ [])
        × (setup.limits.copies + 1 ≤ vec_capacity x.unread)) }
    ensures back { IfOk result (λ x. (x.back.items ≡ [])
        × (setup.limits.copies + 1 ≤ vec_capacity x.back)) }
{
    let links = setup.limits.copies + 1;
    let session = Session::new(alloc, dialect, setup)?;
    let (gate, passes) = make_gate(rt, alloc, links)?;
    Ok(Ready {
        session,
        gate,
        passes,
        readings: Vec::with_capacity(alloc, usize::from(links))?,
        unread: Vec::with_capacity(alloc, usize::from(links))?,
        back: Vec::with_capacity(alloc, usize::from(links))?,
    })
}

/// Runs a session of either side.
fn run_session<
    D: Dialect,
    S: Source + Send + 'static,
    K: Sink,
    P: Spawner,
    C: Clock,
    Q: Stopper,
    B: TokenBook,
    R: Wait + Threads + Copy + Send + Sync + 'static,
>(
    rt: R,
    alloc: Global,
    dialect: D,
    setup: Setup,
    sources: Vec<S>,
    sinks: &mut Vec<K>,
    spawner: &mut P,
    clock: &mut C,
    stop: &mut Q,
    book: &mut B,
) -> Run<S, R>
    requires limits { AreLimits setup.limits }
    requires sources { vec_len sources ≡ setup.limits.copies + 1 }
    requires sinks { vec_len sinks.old ≡ setup.limits.copies + 1 }
    requires open { AreOpen (map K.tells sinks.old.items) }
    ensures run { RunsBy (rules_of (D.grammar dialect) setup)
        (λ v. outside v (C.tells clock.old) (Q.tells stop.old) (B.tells book.old))
        (λ v. outside v (C.tells clock.new) (Q.tells stop.new) (B.tells book.new))
        (P.tells spawner.old).refusals (P.tells spawner.new).refusals
        result (map K.tells sinks.old.items) (map K.tells sinks.new.items) }
    ensures sources { LinksDone (may_stay result) (taken_in result) 0 (map S.tells sources.items)
        (map S.tells result.sources.items) }
{
    let Ok(ready) = make_ready(rt, alloc, dialect, setup) else {
        return run_unmade(alloc, sources, sinks);
    };
    let Ready {
        mut session,
        mut gate,
        mut passes,
        mut readings,
        mut unread,
        mut back,
    } = ready;
    let mut journal = Journal::new(alloc);
    if !start_all(
        spawner,
        rt,
        alloc,
        sources,
        &mut passes,
        &mut readings,
        &mut unread,
    ) {
        let left = leave_unstarted(rt, alloc, &mut gate, readings, unread, &mut back, sinks);
        return run_of(left, journal, gate, back);
    }
    let left = run_started(
        rt,
        alloc,
        &mut session,
        &mut journal,
        &mut gate,
        readings,
        &mut back,
        sinks,
        clock,
        stop,
        book,
    );
    run_of(left, journal, gate, back)
}

/// The run of a session that had a gate.
fn run_of<S: Source, R: Wait + Copy>(
    left: Left,
    journal: Journal,
    gate: OwnerPass<R>,
    sources: Vec<S>,
) -> Run<S, R>
    ensures ending { result.report.ending ≡ left.ending }
    ensures log { result.report.log ≡ record {
      entries = journal.entries.list;
      pass = Some gate.knows;
    } }
    ensures told { result.report.told ≡ journal.told }
    ensures exchanges { result.report.exchanges ≡ left.counts.exchanges }
    ensures masked { result.report.masked ≡ left.counts.masked }
    ensures sources { result.sources ≡ sources }
    ensures left { result.left_over ≡ left.left }
{
    let Left {
        ending,
        failed: _,
        counts,
        left,
    } = left;
    let Journal { entries, told } = journal;
    Run {
        report: Report {
            ending,
            log: Log::of(entries, Some(gate)),
            told,
            exchanges: counts.exchanges,
            masked: counts.masked,
        },
        sources,
        left_over: left,
    }
}

/// The run of a session for which there was no memory to begin with: no source is asked, and each sink is closed.
pub fn run_unmade<S: Source, K: Sink, R: Wait + Copy>(
    alloc: Global,
    sources: Vec<S>,
    sinks: &mut Vec<K>,
) -> Run<S, R>
    ensures run { (r : Rules) (asks : View → Outside) (refusals : ℕ)
        → RunsBy r asks asks refusals refusals
        result (map K.tells sinks.old.items) (map K.tells sinks.new.items) }
    ensures sources { LinksDone (may_stay result) (taken_in result) 0 (map S.tells sources.items)
        (map S.tells result.sources.items) }
{
    close_all(sinks);
    unmade(alloc, sources)
}

/// A session for which there was no memory: no source was asked.
fn unmade<S: Source, R: Wait + Copy>(alloc: Global, sources: Vec<S>) -> Run<S, R>
    ensures ending { result.report.ending ≡ Ending.NoMemory }
    ensures log { result.report.log ≡ record { entries = []; pass = None } }
    ensures told { result.report.told ≡ [] }
    ensures exchanges { result.report.exchanges ≡ 0 }
    ensures masked { result.report.masked ≡ 0 }
    ensures sources { result.sources ≡ sources }
    ensures left { result.left_over ≡ LeftOver.All [] }
{
    Run {
        report: Report {
            ending: Ending::NoMemory,
            log: Log::of(Entries::new(alloc), None),
            told: Rows::new(alloc),
            exchanges: 0,
            masked: 0,
        },
        sources,
        left_over: LeftOver::All(Items::new(alloc)),
    }
}
