ghost use Rattle.std.specs.Prelude.{◌≡◌, ◌+◌, map, vec_len, IfOk, OnErr};
ghost use Rattle.rd_base.specs.Limits.{AreLimits};
ghost use Rattle.rd_core.specs.Standing.{IsAt};
ghost use Rattle.rd_turn.specs.Sinks.{AreOpen};
ghost use Rattle.rd_turn.specs.Acts.{Acts, Stays};
ghost use Rattle.rd_turn.specs.Turns.{IsAmong, rules_by};

use crate::asking::{learn_all, look_up};
use crate::log::{Act, Journal, LogEntry};
use crate::sending::send_all;
use rd_base::{Happening, Link, NoMemory, Sink};
use rd_core::Session;
use rd_dialect::Dialect;
use rd_token_map::TokenBook;
use std::alloc::Global;

/// One act of a session's owner: the step of this happening with the rows that the book has for it, its entry in the log, and
/// what the step sends. It answers a link whose write failed, which has an entry of its own. After want of memory nothing is
/// logged or sent.
pub(crate) fn act_on<D: Dialect, K: Sink, B: TokenBook>(
    alloc: Global,
    session: &mut Session<D>,
    journal: &mut Journal,
    sinks: &mut Vec<K>,
    book: &mut B,
    act: Act,
    happening: &Happening,
) -> Result<Option<Link>, NoMemory>
    requires count { vec_len sinks.old ≡ session.old.setup.limits.copies + 1 }
    requires limits { AreLimits session.old.setup.limits }
    requires open { AreOpen (map K.tells sinks.old.items) }
    ensures dialect { session.new.dialect ≡ session.old.dialect }
    ensures setup { session.new.setup ≡ session.old.setup }
    ensures count { vec_len sinks.new ≡ vec_len sinks.old }
    ensures is_open { AreOpen (map K.tells sinks.new.items) }
    ensures link { IfOk result (IsAmong (vec_len sinks.old)) }
    ensures acts { let r = rules_by D.grammar session.old in IfOk result
        (Acts r happening.now act (IsAt r session.old) (IsAt r session.new) (B.tells book.old) (B.tells book.new)
        journal.old.entries.list journal.new.entries.list journal.old.told journal.new.told
        (map K.tells sinks.old.items) (map K.tells sinks.new.items)) }
    ensures stays { let r = rules_by D.grammar session.old in OnErr result
        (Stays r happening.now (IsAt r session.old) (B.tells book.old) (B.tells book.new)
        journal.old.entries.list journal.new.entries.list journal.old.told journal.new.told
        (map K.tells sinks.old.items) (map K.tells sinks.new.items)) }
{
    journal.entries.reserve(2)?;
    let told = look_up(alloc, session, book, happening)?;
    let sends = session.take(happening, &told)?;
    learn_all(book, session.agreed_rows())?;
    journal.told.push_all(&told)?;
    let at = happening.at;
    journal.entries.push(LogEntry {
        at,
        act,
        told: told.len() as u16,
    });
    match send_all(sinks, &sends) {
        Ok(()) => Ok(None),
        Err(link) => {
            journal.entries.push(LogEntry {
                at,
                act: Act::WriteFail(link),
                told: 0,
            });
            Ok(Some(link))
        }
    }
}
