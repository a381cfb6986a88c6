ghost use Rattle.std.specs.Prelude.{◌≡◌, ◌+◌, map, ℕ, None, Some, vec_len};
ghost use Rattle.rd_base.specs.History.{History};
ghost use Rattle.rd_base.specs.Limits.{AreLimits};
ghost use Rattle.rd_core.specs.Standing.{IsAt};
ghost use Rattle.rd_rules.specs.Wait.{due_moment};
ghost use Rattle.rd_turn.specs.Sinks.{AreOpen};
ghost use Rattle.rd_turn.specs.Turns.{Turn, outside, after_turn, rules_by};
ghost use Rattle.rd_turn.specs.Acts.{TurnsOut, Went, GaveUp, back_of};

use crate::acting::act_on;
use crate::hearing::{Heard, hear};
use crate::log::Journal;
use rd_base::{Clock, Happening, Link, Sink, Stopper, What};
use rd_core::Session;
use rd_dialect::Dialect;
use rd_gate::{Item, OwnerPass};
use rd_token_map::TokenBook;
use std::alloc::Global;
use std::sync::Wait;

/// How a turn of a session's owner ended.
#[derive(Drop)]
pub enum Turned {
    Going,
    /// The write to this link failed.
    WriteFailed(Link),
    /// Memory ran out. The item that was taken is given back.
    GaveUp(Option<(Link, Item)>),
}

/// One turn of a session's owner, while the session is live.
pub(crate) fn turn<D: Dialect, K: Sink, R: Wait + Copy, C: Clock, Q: Stopper, B: TokenBook>(
    alloc: Global,
    session: &mut Session<D>,
    journal: &mut Journal,
    gate: &mut OwnerPass<R>,
    sinks: &mut Vec<K>,
    clock: &mut C,
    stop: &mut Q,
    book: &mut B,
    base: u64,
) -> Turned
    requires count { vec_len sinks.old ≡ session.old.setup.limits.copies + 1 }
    requires limits { AreLimits session.old.setup.limits }
    requires open { AreOpen (map K.tells sinks.old.items) }
    requires live { session.old.ending ≡ None }
    ensures dialect { session.new.dialect ≡ session.old.dialect }
    ensures setup { session.new.setup ≡ session.old.setup }
    ensures count { vec_len sinks.new ≡ vec_len sinks.old }
    ensures is_open { AreOpen (map K.tells sinks.new.items) }
    ensures gate { gate.new.gate ≡ gate.old.gate }
    ensures turn { let r = rules_by D.grammar session.old in (t : Turn)
        × (outside gate.new.knows (C.tells clock.new) (Q.tells stop.new) (B.tells book.new)
        ≡ after_turn (outside gate.old.knows (C.tells clock.old) (Q.tells stop.old) (B.tells book.old)) t)
        × TurnsOut result
        (Went r base (IsAt r session.old) (IsAt r session.new) journal.old.entries.list journal.new.entries.list
        journal.old.told journal.new.told (map K.tells sinks.old.items) (map K.tells sinks.new.items))
        (GaveUp r base (IsAt r session.old) journal.old.entries.list journal.new.entries.list
        journal.old.told journal.new.told (map K.tells sinks.old.items) (map K.tells sinks.new.items)) t }
{
    let due = due_at(session);
    match hear(gate, clock, stop, base, due) {
        Heard::Quiet => Turned::Going,
        Heard::NoMemory(link) => Turned::GaveUp(Some((link, Item::NoMemory))),
        Heard::Step(act, happening) => {
            match act_on(alloc, session, journal, sinks, book, act, &happening) {
                Ok(None) => Turned::Going,
                Ok(Some(link)) => Turned::WriteFailed(link),
                Err(_) => Turned::GaveUp(item_back(happening)),
            }
        }
    }
}

/// The moment at which a live session's wait ends.
fn due_at<D: Dialect>(session: &Session<D>) -> Option<u64>
    requires live { session.now.ending ≡ None }
    ensures due { (h : History) → IsAt (rules_by D.grammar session.now) session.now h
        → result ≡ Some (due_moment (rules_by D.grammar session.now) h) }
{
    match session.due() {
        Some((due, _)) => Some(due),
        None => None,
    }
}

/// The item that a happening was made of.
fn item_back(happening: Happening) -> Option<(Link, Item)>
    ensures { result ≡ back_of happening.what }
{
    match happening.what {
        What::Piece(link, bytes) => Some((link, Item::Piece(bytes))),
        What::End(link) => Some((link, Item::End)),
        What::ReadFail(link) => Some((link, Item::ReadFail)),
        What::WriteFail(_) | What::Timer | What::Stop => None,
    }
}
