ghost use Rattle.std.specs.Prelude.{◌≡◌, ◌+◌, [], map, vec_len};
ghost use Rattle.rd_base.specs.History.{History};
ghost use Rattle.rd_base.specs.Limits.{AreLimits};
ghost use Rattle.rd_core.specs.Standing.{IsAt};
ghost use Rattle.rd_turn.specs.Sinks.{AreOpen};
ghost use Rattle.rd_turn.specs.Turns.{outside, rules_by};
ghost use Rattle.rd_turn.specs.Runs.{AreCounts, HasRun};

use crate::log::Journal;
use crate::turn::{Turned, turn};
use rd_base::{Clock, Ending, Link, Sink, Stopper};
use rd_core::Session;
use rd_dialect::Dialect;
use rd_gate::{Item, OwnerPass};
use rd_token_map::TokenBook;
use std::alloc::Global;
use std::sync::Wait;

/// How many exchanges are agreed, and how many places are masked in them.
#[derive(Clone, Copy, Debug, PartialEq, Eq)]
pub struct Counts {
    pub exchanges: u32,
    pub masked: u32,
}

/// How the turns of a session ended.
#[derive(Drop)]
pub struct Over {
    pub ending: Ending,
    /// Whose write failed.
    pub failed: Option<Link>,
    /// The item whose step met want of memory.
    pub back: Option<(Link, Item)>,
    /// Those of the steps that were logged.
    pub counts: Counts,
}

/// The turns of a session's owner, until the session has ended.
pub fn run_turns<D: Dialect, K: Sink, R: Wait + Copy, C: Clock, Q: Stopper, B: TokenBook>(
    rt: R,
    alloc: Global,
    session: &mut Session<D>,
    journal: &mut Journal,
    gate: &mut OwnerPass<R>,
    sinks: &mut Vec<K>,
    clock: &mut C,
    stop: &mut Q,
    book: &mut B,
    base: u64,
) -> Over
    requires count { vec_len sinks.old ≡ session.old.setup.limits.copies + 1 }
    requires limits { AreLimits session.old.setup.limits }
    requires open { AreOpen (map K.tells sinks.old.items) }
    requires log { journal.old.entries.list ≡ [] }
    requires told { journal.old.told ≡ [] }
    requires begins { IsAt (rules_by D.grammar session.old) session.old [] }
    ensures dialect { session.new.dialect ≡ session.old.dialect }
    ensures setup { session.new.setup ≡ session.old.setup }
    ensures count { vec_len sinks.new ≡ vec_len sinks.old }
    ensures is_open { AreOpen (map K.tells sinks.new.items) }
    ensures gate { gate.new.gate ≡ gate.old.gate }
    ensures run { HasRun (rules_by D.grammar session.old) base
        (outside gate.old.knows (C.tells clock.old) (Q.tells stop.old) (B.tells book.old))
        (outside gate.new.knows (C.tells clock.new) (Q.tells stop.new) (B.tells book.new))
        journal.new.entries.list journal.new.told result (map K.tells sinks.old.items) (map K.tells sinks.new.items) }
{
    for _ in rt.forever() {
        let before = counts_of(session);
        if let Some(ending) = session.ending() {
            return Over {
                ending,
                failed: None,
                back: None,
                counts: before,
            };
        }
        match turn(
            alloc, session, journal, gate, sinks, clock, stop, book, base,
        ) {
            Turned::Going => (),
            Turned::WriteFailed(link) => {
                return Over {
                    ending: session.ending().unwrap_or(Ending::LinkFault { link }),
                    failed: Some(link),
                    back: None,
                    counts: counts_of(session),
                };
            }
            Turned::GaveUp(back) => {
                return Over {
                    ending: Ending::NoMemory,
                    failed: None,
                    back,
                    counts: before,
                };
            }
        }
    }
    unreachable!()
}

fn counts_of<D: Dialect>(session: &Session<D>) -> Counts
    ensures { (h : History) → IsAt (rules_by D.grammar session.now) session.now h
        → AreCounts (rules_by D.grammar session.now) h result }
{
    Counts {
        exchanges: session.exchanges(),
        masked: session.masked(),
    }
}
