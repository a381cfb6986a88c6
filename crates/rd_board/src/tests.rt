ghost use Rattle.std.specs.Prelude.{◌≡◌, ◌≤◌, ◌^◌, ◌-◌, ◌<◌};

use crate::Board;
use rd_base::SessionNote;
use std::rt::HostRuntime;

fn session_note(id: u64, exchanges: u32, masked: u32) -> SessionNote
    ensures id { result.id ≡ id }
    ensures began { result.began ≡ 0 }
    ensures ended { result.ended ≡ 0 }
{
    SessionNote {
        id,
        side: 0,
        dialect: 0,
        began: 0,
        ended: 0,
        events: 5,
        exchanges,
        masked,
        code: 0,
        link: 0,
        exchange: 0,
        place: 0,
        detail: 0,
        dropped: 0,
    }
}

/// A session that begins and ends.
fn run_session(board: &mut Board, id: u64) -> bool {
    if board.live() >= 31 || id > i64::MAX as u64 {
        return false;
    }
    board.began();
    board.note(&session_note(id, 2, 3))
}

#[test]
fn a_noted_session(rt: HostRuntime) {
    let Ok(mut board) = Board::make(rt.alloc(), 6) else {
        panic!(rt; "no board");
    };
    assert_eq!(rt; board.draw_id(), Some(7));
    assert_eq!(rt; board.draw_id(), Some(8));
    assert_eq!(rt; board.pending(), None);
    assert!(rt; run_session(&mut board, 8));
    assert!(rt; run_session(&mut board, 7));
    assert!(rt; !run_session(&mut board, 8));
    assert_eq!(rt; board.live(), 1);
    assert_eq!(rt; board.sessions(), 2);
    assert_eq!(rt; board.exchanges(), 4);
    assert_eq!(rt; board.masked(), 6);
    assert_eq!(rt; board.unkept(), 0);
    assert_eq!(rt; board.pending(), Some(session_note(8, 2, 3)));
    board.mark_kept(7);
    board.mark_kept(9);
    assert_eq!(rt; board.pending(), Some(session_note(8, 2, 3)));
    board.mark_kept(8);
    assert_eq!(rt; board.pending(), None);
}

#[test]
fn the_oldest_of_ten_thousand_goes(rt: HostRuntime) {
    let Ok(mut board) = Board::make(rt.alloc(), 0) else {
        panic!(rt; "no board");
    };
    for id in 1..10_002u64 {
        assert!(rt; run_session(&mut board, id * 3));
        board.mark_kept(id % 2 * id * 3);
    }
    assert_eq!(rt; board.sessions(), 10_001);
    assert_eq!(rt; board.unkept(), 0);
    assert_eq!(rt; board.pending(), Some(session_note(6, 2, 3)));
    assert!(rt; run_session(&mut board, 3 + 16_384));
    assert_eq!(rt; board.unkept(), 1);
    assert_eq!(rt; board.pending(), Some(session_note(12, 2, 3)));
    assert!(rt; run_session(&mut board, 6));
    assert!(rt; !run_session(&mut board, 12));
    assert_eq!(rt; board.unkept(), 1);
    assert_eq!(rt; board.live(), 1);
}

#[test]
fn the_last_id(rt: HostRuntime) {
    let Ok(mut board) = Board::make(rt.alloc(), i64::MAX as u64 - 1) else {
        panic!(rt; "no board");
    };
    assert_eq!(rt; board.draw_id(), Some(i64::MAX as u64));
    assert_eq!(rt; board.draw_id(), None);
    assert_eq!(rt; board.draw_id(), None);
}
