ghost use Rattle.std.specs.Prelude.{◌≡◌, ◌<◌, ◌≤◌, ◌-◌, ◌^◌, IfSome, length};
ghost use Rattle.rd_base.specs.Clocks.{Ticks};
ghost use Rattle.rd_desk.specs.Desk.{Begins};
ghost use Rattle.rd_desk.specs.Noted.{Adds, AddsNone, StillUnkept, note_left, without_id};
ghost use Rattle.rd_doors.specs.Visits.{Holds};

use crate::{Desk, session_note};
use rd_base::{Clock, Side};
use rd_runner::Summary;

/// A session that has begun: under which id, where one could be drawn, and when.
#[derive(Clone, Copy, Debug, PartialEq, Eq)]
pub struct Begun {
    pub id: Option<u64>,
    /// In milliseconds of the clock.
    pub at: u64,
}

/// A session begins now, with the next id. Where none can be drawn it isn't counted, and leaves no note. Fewer than 32
/// are live.
pub fn begin_session<C: Clock>(desk: &mut Desk, clock: &mut C) -> Begun
    requires { length desk.old.ids < 32 }
    ensures begins { Begins desk.old result.id desk.new }
    ensures range { IfSome result.id (λ id. id ≤ 2 ^ 63 - 1) }
    ensures notes { AddsNone desk.old desk.new }
    ensures at { Ticks result.at (C.tells clock.old) (C.tells clock.new) }
{
    let id = desk.began();
    Begun {
        id,
        at: clock.now(),
    }
}

/// A session ends now, and leaves a note where it has an id. Answers when that was, in milliseconds of the clock.
pub fn end_session<C: Clock>(
    desk: &mut Desk,
    clock: &mut C,
    begun: Begun,
    side: Side,
    dialect: u8,
    summary: &Summary,
) -> u64
    requires live { IfSome begun.id (λ id. Holds id desk.old.ids) }
    requires range { IfSome begun.id (λ id. id ≤ 2 ^ 63 - 1) }
    ensures note { Adds (note_left begun side dialect result summary.now) desk.old desk.new }
    ensures ids { desk.new.ids ≡ without_id begun.id desk.old.ids }
    ensures drawn { desk.new.board.drawn ≡ desk.old.board.drawn }
    ensures let_go { StillUnkept desk.old desk.new }
    ensures at { Ticks result (C.tells clock.old) (C.tells clock.new) }
{
    let ended = clock.now();
    leave_note(desk, begun, side, dialect, ended, summary);
    ended
}

/// A session ended then, and leaves a note where it has an id.
fn leave_note(desk: &mut Desk, begun: Begun, side: Side, dialect: u8, ended: u64, summary: &Summary)
    requires live { IfSome begun.id (λ id. Holds id desk.old.ids) }
    requires range { IfSome begun.id (λ id. id ≤ 2 ^ 63 - 1) }
    ensures note { Adds (note_left begun side dialect ended summary.now) desk.old desk.new }
    ensures ids { desk.new.ids ≡ without_id begun.id desk.old.ids }
    ensures drawn { desk.new.board.drawn ≡ desk.old.board.drawn }
    ensures let_go { StillUnkept desk.old desk.new }
{
    match begun.id {
        Some(id) => {
            let note = session_note(id, side, dialect, begun.at, ended, summary);
            desk.ended(&note);
        }
        None => (),
    }
}
