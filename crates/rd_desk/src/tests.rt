use crate::{Desk, session_note};
use rd_base::{Ending, Link, Side};
use rd_keeper::{KeepFail, Keeper, MemKeeper};
use rd_runner::Summary;
use std::rt::HostRuntime;

const BROKEN: Summary = Summary {
    ending: Ending::Broken { link: Link(2) },
    last: 7,
    events: 5,
    exchanges: 1,
    masked: 3,
};

/// A session that begins and ends.
fn run_session(desk: &mut Desk) -> Option<u64> {
    if desk.live() >= 32 {
        return None;
    }
    let id = desk.began()?;
    desk.ended(&session_note(id, Side::Outgoing, 2, 5, u64::MAX, &BROKEN));
    Some(id)
}

/// Notes are put behind those of an earlier run, and again where a put failed.
#[test]
fn notes_outlive_a_put_that_failed(rt: HostRuntime) {
    let alloc = rt.alloc();
    let Ok(failing) = Vec::from_slice(alloc, &[3]) else {
        panic!(rt; "no list");
    };
    let mut keeper = MemKeeper::new(alloc, failing);
    let earlier = session_note(6, Side::Incoming, 0, 1, 2, &BROKEN);
    assert!(rt; keeper.put(&earlier).is_ok());
    let Ok(mut desk) = Desk::open(alloc, &mut keeper) else {
        panic!(rt; "no desk");
    };
    assert_eq!(rt; run_session(&mut desk), Some(7));
    assert_eq!(rt; run_session(&mut desk), Some(8));
    assert_eq!(rt; desk.keep_some(&mut keeper), Err(KeepFail::Failed));
    assert_eq!(rt; keeper.one(8), Ok(None));
    assert_eq!(rt; desk.keep_all(&mut keeper), Ok(()));
    assert_eq!(rt; keeper.one(6), Ok(Some(earlier)));
    let Ok(Some(note)) = keeper.one(8) else {
        panic!(rt; "no note");
    };
    assert_eq!(rt;
        (note.side, note.dialect, note.began, note.ended),
        (1, 2, 5, i64::MAX as u64)
    );
    assert_eq!(rt; (note.events, note.exchanges, note.masked), (5, 1, 3));
    assert_eq!(rt;
        (note.code, note.link, note.exchange, note.place),
        (9, 2, 0, 0)
    );
}
