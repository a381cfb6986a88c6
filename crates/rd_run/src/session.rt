ghost use Rattle.std.specs.Prelude.{◌≡◌, ◌+◌, ◌≤◌, ◌++◌, [], ℕ, slice_get, Some, map, vec_len, vec_capacity};
ghost use Rattle.rd_base.specs.Limits.{AreLimits};
ghost use Rattle.rd_core.specs.Standing.{IsAt};
ghost use Rattle.rd_gate.specs.Gate.{Known, known, owner, reader, of};
ghost use Rattle.rd_turn.specs.Sinks.{AreOpen};
ghost use Rattle.rd_turn.specs.Turns.{outside, rules_by};
ghost use Rattle.rd_run.specs.Ran.{SessionRan, LinkRead};
ghost use Rattle.rd_run.specs.Links.{AreFresh, LinksDone, TakesAll};
ghost use Rattle.rd_run.specs.Leaving.{AllClosed, Keeps, given_back};

use crate::items::{Items, LeftOver};
use crate::leaving::{close_all, drain, drain_last, keep};
use rd_base::{Clock, Ending, Link, Sink, Source, Stopper};
use rd_core::Session;
use rd_dialect::Dialect;
use rd_gate::{Item, OwnerPass};
use rd_start::{NotStarted, Reading, join_all, take_back};
use rd_token_map::TokenBook;
use rd_turn::{Counts, Journal, Over, run_turns};
use std::alloc::Global;
use std::sync::Wait;
use std::thread::Threads;

/// How a session ended, and what it leaves.
#[derive(Drop)]
pub struct Left {
    pub ending: Ending,
    /// Whose write failed.
    pub failed: Option<Link>,
    pub counts: Counts,
    pub left: LeftOver,
}

/// A session whose readers were all started: its turns, and its end. Its sinks are closed, so that its readers end; what
/// they still hand on is kept, and they are joined.
pub(crate) fn run_started<
    D: Dialect,
    S: Source,
    K: Sink,
    R: Wait + Threads + Copy,
    C: Clock,
    Q: Stopper,
    B: TokenBook,
>(
    rt: R,
    alloc: Global,
    session: &mut Session<D>,
    journal: &mut Journal,
    gate: &mut OwnerPass<R>,
    readings: Vec<Reading<S, R>>,
    sources: &mut Vec<S>,
    sinks: &mut Vec<K>,
    clock: &mut C,
    stop: &mut Q,
    book: &mut B,
) -> Left
    requires count { vec_len sinks.old ≡ session.old.setup.limits.copies + 1 }
    requires limits { AreLimits session.old.setup.limits }
    requires open { AreOpen (map K.tells sinks.old.items) }
    requires log { journal.old.entries.list ≡ [] }
    requires told { journal.old.told ≡ [] }
    requires begins { IsAt (rules_by D.grammar session.old) session.old [] }
    requires gate { gate.old.knows ≡ owner (session.old.setup.limits.copies + 1) [] [] [] }
    requires readings { vec_len readings ≡ session.old.setup.limits.copies + 1 }
    requires passes { (k : ℕ) (r : S × Known) → slice_get readings.items k ≡ Some r
        → r.1 ≡ known gate.old.gate (reader k []) }
    requires room { vec_len readings ≤ vec_capacity sources.old }
    requires nothing { sources.old.items ≡ [] }
    ensures sources { (k : ℕ) (r : S × Known) (s : S) → slice_get readings.items k ≡ Some r
        → slice_get sources.new.items k ≡ Some s
        → LinkRead (of k gate.new.knows.taken) (S.tells r.0) (S.tells s) }
    ensures all_back { vec_len sources.new ≡ vec_len readings }
    ensures run { SessionRan (rules_by D.grammar session.old)
        (outside gate.old.knows (C.tells clock.old) (Q.tells stop.old) (B.tells book.old))
        (outside gate.new.knows (C.tells clock.new) (Q.tells stop.new) (B.tells book.new))
        journal.new.entries.list journal.new.told result (map K.tells sinks.old.items) (map K.tells sinks.new.items) }
{
    let base = clock.now();
    let Over {
        ending,
        failed,
        back,
        counts,
    } = run_turns(
        rt, alloc, session, journal, gate, sinks, clock, stop, book, base,
    );
    close_all(sinks);
    let started = readings.len() as u8;
    let left = drain(rt, gate, left_of(alloc, back), started);
    join_all(gate, readings, sources);
    let left = drain_last(rt, gate, left);
    Left {
        ending,
        failed,
        counts,
        left,
    }
}

/// The item that the last turn gave back.
fn left_of(alloc: Global, back: Option<(Link, Item)>) -> LeftOver
    ensures { Keeps (LeftOver.All []) result (given_back back) }
{
    let left = LeftOver::All(Items::new(alloc));
    match back {
        Some((link, item)) => keep(left, link, item),
        None => left,
    }
}

/// A session of which a reader's start was refused. Its sinks are closed, so that the readers which were started end; what
/// they hand on is kept, and they are joined. The other sources come back behind theirs.
pub(crate) fn leave_unstarted<S: Source, K: Sink, R: Wait + Threads + Copy>(
    rt: R,
    alloc: Global,
    gate: &mut OwnerPass<R>,
    readings: Vec<Reading<S, R>>,
    unread: Vec<NotStarted<S, R>>,
    sources: &mut Vec<S>,
    sinks: &mut Vec<K>,
) -> Left
    requires few { vec_len readings ≤ 9 }
    requires made { gate.old.knows.made ≡ vec_len readings + vec_len unread }
    requires fresh { gate.old.knows.taken ≡ [] }
    requires passes { AreFresh gate.old.gate 0 (map (λ r. r.1) readings.items
        ++ map (λ n. n.pass) unread.items) }
    requires room { vec_len readings + vec_len unread ≤ vec_capacity sources.old }
    requires nothing { sources.old.items ≡ [] }
    ensures ending { result.ending ≡ Ending.Unstarted }
    ensures exchanges { result.counts.exchanges ≡ 0 }
    ensures masked { result.counts.masked ≡ 0 }
    ensures closed { AllClosed (map K.tells sinks.old.items) (map K.tells sinks.new.items) }
    ensures count { vec_len sinks.new ≡ vec_len sinks.old }
    ensures left { TakesAll gate.new.knows result.left }
    ensures sources { LinksDone (Unit {0}) (λ l.
        of l gate.new.knows.taken) 0 (map S.tells (map (λ r. r.0) readings.items
        ++ map (λ n. n.source) unread.items)) (map S.tells sources.new.items) }
{
    close_all(sinks);
    let started = readings.len() as u8;
    let left = drain(rt, gate, left_of(alloc, None), started);
    join_all(gate, readings, sources);
    take_back(gate, unread, sources);
    let left = drain_last(rt, gate, left);
    Left {
        ending: Ending::Unstarted,
        failed: None,
        counts: Counts {
            exchanges: 0,
            masked: 0,
        },
        left,
    }
}
