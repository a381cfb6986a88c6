ghost use Rattle.std.specs.Prelude.{◌≡◌, ◌<◌, ◌≤◌, ◌+◌, ◌-◌, ◌^◌, ◌++◌, ◌∷◌, [], true, false, not, List, IfOk, count_by, find, option_map, option_to_list};
ghost use Rattle.std.specs.List.{list_any};
ghost use Rattle.rd_board.specs.Calls.{Began, Noted, MarkedKept};
ghost use Rattle.rd_board.specs.Notes.{has_id, is_unkept, mark_first};
ghost use Rattle.rd_board.specs.Board.{IsAfter, Follows, Accepts, Draws, empty};

use crate::latest::{BoardNote, Latest};
use rd_base::{NoMemory, SessionNote};
use std::alloc::Global;
use std::marker::Model;

/// The sessions of a serving program: how many are live, what the ended ones came to, and the last 10,000 notes,
/// each marked as kept or not. Sums stop at 2^64-1. Only `make` takes memory.
#[derive(Drop)]
pub struct Board {
    drawn: u64,
    live: u64,
    sessions: u64,
    exchanges: u64,
    masked: u64,
    unkept: u64,
    latest: Latest,
}

impl Model for Board {
    ghost use Rattle.rd_board.specs.Board.{BoardView};

    ghost Value = { BoardView };

    ghost view = { λ b. record {
      drawn = b.drawn;
      live = b.live;
      sessions = b.sessions;
      exchanges = b.exchanges;
      masked = b.masked;
      unkept = b.unkept;
      latest = b.latest;
    } };
}

impl Board {
    /// A board without notes, which draws ids from the one after `last_id` on.
    pub fn make(alloc: Global, last_id: u64) -> Result<Board, NoMemory>
        ensures board { IfOk result (λ b. b ≡ empty last_id) }
        ensures after { IfOk result (λ b. IsAfter b []) }
    {
        match Latest::make(alloc) {
            Ok(latest) => Ok(Board {
                drawn: last_id,
                live: 0,
                sessions: 0,
                exchanges: 0,
                masked: 0,
                unkept: 0,
                latest,
            }),
            Err(_) => Err(NoMemory),
        }
    }

    /// The next id: one more than the last. None where that would be above 2^63-1.
    pub fn draw_id(&mut self) -> Option<u64>
        ensures { Draws self.old result self.new }
    {
        if self.drawn >= i64::MAX as u64 {
            return None;
        }
        self.drawn += 1;
        Some(self.drawn)
    }

    /// A session began. Fewer than 32 are live.
    pub fn began(&mut self)
        requires { self.old.live < 32 }
        ensures live { self.new ≡ record self.old { live = self.old.live + 1 } }
        ensures after { Follows self.old Began self.new }
    {
        self.live += 1;
    }

    /// A live session ended with this note. Answers false, and changes nothing, where one of the last 10,000
    /// notes has its id.
    pub fn note(&mut self, entry: &SessionNote) -> bool
        requires live { 1 ≤ self.old.live }
        requires id { entry.now.id ≤ 2 ^ 63 - 1 }
        requires began { entry.now.began ≤ 2 ^ 63 - 1 }
        requires ended { entry.now.ended ≤ 2 ^ 63 - 1 }
        ensures result { result ≡ not (list_any (has_id entry.now.id) self.old.latest) }
        ensures refused { result ≡ false → self.new ≡ self.old }
        ensures accepted { result ≡ true → Accepts self.old entry.now self.new }
        ensures after { Follows self.old (Noted entry.now) self.new }
    {
        if self.latest.holds(entry.id) {
            return false;
        }
        let gone = self.latest.push(entry);
        self.unkept = self.unkept.saturating_add(unkept_in(gone));
        self.live -= 1;
        self.sessions = self.sessions.saturating_add(1);
        self.exchanges = self.exchanges.saturating_add(entry.exchanges as u64);
        self.masked = self.masked.saturating_add(entry.masked as u64);
        true
    }

    /// The oldest of the last 10,000 notes that isn't marked kept.
    pub fn pending(&self) -> Option<SessionNote>
        ensures { result ≡ option_map (λ n. n.note) (find is_unkept self.now.latest) }
    {
        self.latest.pending()
    }

    /// Marks the note of this id kept. Changes nothing where none of the last 10,000 has it.
    pub fn mark_kept(&mut self, id: u64)
        ensures latest { self.new ≡ record self.old { latest = mark_first id self.old.latest } }
        ensures after { Follows self.old (MarkedKept id) self.new }
    {
        self.latest.mark(id);
    }

    /// The number of sessions that are live.
    pub fn live(&self) -> u64
        ensures { result ≡ self.now.live }
    {
        self.live
    }

    /// The number of accepted notes.
    pub fn sessions(&self) -> u64
        ensures { result ≡ self.now.sessions }
    {
        self.sessions
    }

    /// The sum of the accepted notes' exchanges.
    pub fn exchanges(&self) -> u64
        ensures { result ≡ self.now.exchanges }
    {
        self.exchanges
    }

    /// The sum of the accepted notes' masked places.
    pub fn masked(&self) -> u64
        ensures { result ≡ self.now.masked }
    {
        self.masked
    }

    /// The number of notes that left the last 10,000 without having been marked kept.
    pub fn unkept(&self) -> u64
        ensures { result ≡ self.now.unkept }
    {
        self.unkept
    }
}

/// 1 where a note goes that wasn't marked kept, else 0.
fn unkept_in(gone: Option<BoardNote>) -> u64
    ensures { result ≡ count_by is_unkept (option_to_list gone) }
{
    match gone {
        Some(oldest) => { if oldest.is_kept { 0 } else { 1 } }
        None => 0,
    }
}
