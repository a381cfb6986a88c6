ghost use Rattle.std.specs.Prelude.{◌≡◌, ◌⊎◌, ◌+◌, ◌-◌, ◌^◌, ◌<◌, ◌≤◌, [], List, ◌∷◌, ◌++◌, true, false, Ok, Err, IfOk, IfSome, OnOk, length};
ghost use Rattle.rd_base.specs.Outside.{Rose};
ghost use Rattle.rd_board.specs.Calls.{Began, Noted};
ghost use Rattle.rd_board.specs.Board.{Accepts};
ghost use Rattle.rd_doors.specs.Visits.{Holds, without};
ghost use Rattle.rd_keeper.specs.Keeping.{HasCause};
ghost use Rattle.rd_desk.specs.Desk.{IsAt, Opens, Begins, Keeps, FollowsWith, pending};

use rd_base::SessionNote;
use rd_board::Board;
use rd_doors::take_out;
use rd_keeper::{KeepFail, Keeper};
use std::alloc::Global;
use std::marker::Model;

/// How many sessions are live at most.
const LIVE: usize = 32;

/// How many notes are put in one turn at most.
const TURN: usize = 16;

/// How many notes a board keeps, and so how many are pending at most.
const NOTES: usize = 10_000;

/// What is kept of the sessions that a program serves: the ids of those that are live, the board, and whether a put to
/// the keeper failed. Only `open` takes memory; what a keeper takes is its own.
#[derive(Drop)]
pub struct Desk {
    board: Board,
    ids: Vec<u64>,
    had_fault: bool,
}

impl Model for Desk {
    ghost use Rattle.std.specs.Prelude.{◌≤◌, vec_capacity};
    ghost use Rattle.rd_desk.specs.Desk.{DeskView, IsOrderly};

    ghost Value = { DeskView };

    ghost view = { λ d. record { board = d.board; ids = d.ids.items; had_fault = d.had_fault } };

    ghost invariant = { λ d. IsOrderly d.board d.ids.items × (32 ≤ vec_capacity d.ids) };
}

impl Desk {
    /// A desk without notes, whose ids go on behind the greatest of the keeper's notes. Failed is the keeper's answer.
    pub fn open<Y: Keeper>(alloc: Global, keeper: &mut Y) -> Result<Desk, KeepFail>
        ensures opens { IfOk result (λ desk. Opens desk (Y.tells keeper.old)) }
        ensures notes { (Y.tells keeper.new).notes ≡ (Y.tells keeper.old).notes }
        ensures cause { HasCause result (Y.tells keeper.old) (Y.tells keeper.new) }
        ensures at { IfOk result (λ desk. IsAt
            (record { keeper = Y.tells keeper.old; greatest = desk.board.drawn }) []
            desk (Y.tells keeper.new)) }
    {
        let greatest = keeper.greatest()?.unwrap_or(0);
        let board = Board::make(alloc, greatest)?;
        let Ok(ids) = Vec::with_capacity(alloc, LIVE) else {
            return Err(KeepFail::NoMemory);
        };
        Ok(Desk {
            board,
            ids,
            had_fault: false,
        })
    }

    /// The board, as an operator's pages show it.
    pub fn board(&self) -> &Board
        ensures { result.now ≡ self.now.board }
    {
        &self.board
    }

    /// The number of sessions that are live.
    pub fn live(&self) -> usize
        ensures { result ≡ length self.now.ids }
    {
        self.ids.len()
    }

    /// A session begins, with one id more than the last one. None where that would be above 2^63-1: such a session isn't
    /// counted and has no note. Fewer than 32 are live.
    pub fn began(&mut self) -> Option<u64>
        requires { length self.old.ids < 32 }
        ensures begins { Begins self.old result self.new }
        ensures live { IfSome result (λ id. Holds id self.new.ids) }
        ensures range { IfSome result (λ id. id ≤ 2 ^ 63 - 1) }
        ensures follows { IfSome result (λ id. FollowsWith (Began ∷ []) self.old self.new) }
    {
        let id = self.board.draw_id()?;
        self.board.began();
        self.ids.push_reserved(id);
        Some(id)
    }

    /// A live session ended, and leaves this note under its id. Both moments are at most 2^63-1.
    pub fn ended(&mut self, note: &SessionNote)
        requires id { Holds note.now.id self.old.ids }
        requires began { note.now.began ≤ 2 ^ 63 - 1 }
        requires ended { note.now.ended ≤ 2 ^ 63 - 1 }
        ensures note { Accepts self.old.board note.now self.new.board }
        ensures ids { self.new.ids ≡ without note.now.id self.old.ids }
        ensures had_fault { self.new.had_fault ≡ self.old.had_fault }
        ensures follows { FollowsWith (Noted note.now ∷ []) self.old self.new }
    {
        take_out(&mut self.ids, note.id);
        let _accepted = self.board.note(note);
    }

    /// Puts pending notes to the keeper, the oldest first: at most 16, until none is pending or a put fails, whose answer
    /// comes out. A note whose put failed stays pending.
    pub fn keep_some<Y: Keeper>(&mut self, keeper: &mut Y) -> Result<(), KeepFail>
        ensures keeps { Keeps 16 self.old self.new (Y.tells keeper.old) (Y.tells keeper.new) }
        ensures some { OnOk result ((pending self.new.board.latest ≡ [])
            ⊎ (16 + length (pending self.new.board.latest)
            ≡ length (pending self.old.board.latest))) }
        ensures failed { result ≡ Err KeepFail.Failed
            → Rose (Y.tells keeper.old).faults (Y.tells keeper.new).faults }
        ensures had_fault { result ≡ Err KeepFail.Failed → self.new.had_fault ≡ true }
    {
        self.keep_up_to(keeper, TURN)
    }

    /// Puts all pending notes to the keeper, the oldest first, until a put fails: then its answer comes out, and the rest
    /// stays pending. NoMemory comes too where notes left the board unkept, and no put was ever Failed.
    pub fn keep_all<Y: Keeper>(&mut self, keeper: &mut Y) -> Result<(), KeepFail>
        ensures keeps { Keeps 10000 self.old self.new (Y.tells keeper.old) (Y.tells keeper.new) }
        ensures all { OnOk result (pending self.new.board.latest ≡ []) }
        ensures unkept { OnOk result
            ((self.new.board.unkept ≡ 0) ⊎ (self.new.had_fault ≡ true)) }
        ensures failed { result ≡ Err KeepFail.Failed
            → Rose (Y.tells keeper.old).faults (Y.tells keeper.new).faults }
        ensures had_fault { result ≡ Err KeepFail.Failed → self.new.had_fault ≡ true }
    {
        self.keep_up_to(keeper, NOTES)?;
        if self.board.unkept() > 0 && !self.had_fault {
            return Err(KeepFail::NoMemory);
        }
        Ok(())
    }

    /// Puts at most so many pending notes.
    fn keep_up_to<Y: Keeper>(&mut self, keeper: &mut Y, most: usize) -> Result<(), KeepFail>
        ensures keeps { Keeps most self.old self.new (Y.tells keeper.old) (Y.tells keeper.new) }
        ensures all { OnOk result ((pending self.new.board.latest ≡ [])
            ⊎ (most + length (pending self.new.board.latest)
            ≡ length (pending self.old.board.latest))) }
        ensures failed { result ≡ Err KeepFail.Failed
            → Rose (Y.tells keeper.old).faults (Y.tells keeper.new).faults }
        ensures had_fault { result ≡ Err KeepFail.Failed → self.new.had_fault ≡ true }
    {
        'puts: for _count in 0..most {
            let is_put = self.keep_one(keeper)?;
            if !is_put {
                return Ok(());
            }
        }
        Ok(())
    }

    /// Puts the oldest pending note, and marks it kept where the put was answered. False where none is pending.
    fn keep_one<Y: Keeper>(&mut self, keeper: &mut Y) -> Result<bool, KeepFail>
        ensures keeps { Keeps 1 self.old self.new (Y.tells keeper.old) (Y.tells keeper.new) }
        ensures none { result ≡ Ok false → pending self.new.board.latest ≡ [] }
        ensures some { result ≡ Ok true → 1 + length (pending self.new.board.latest)
            ≡ length (pending self.old.board.latest) }
        ensures failed { result ≡ Err KeepFail.Failed
            → Rose (Y.tells keeper.old).faults (Y.tells keeper.new).faults }
        ensures had_fault { result ≡ Err KeepFail.Failed → self.new.had_fault ≡ true }
    {
        let Some(note) = self.board.pending() else {
            return Ok(false);
        };
        match keeper.put(&note) {
            Ok(_) => {
                self.board.mark_kept(note.id);
                Ok(true)
            }
            Err(KeepFail::Failed) => {
                self.had_fault = true;
                Err(KeepFail::Failed)
            }
            Err(KeepFail::NoMemory) => Err(KeepFail::NoMemory),
        }
    }
}
