ghost use Rattle.std.specs.Prelude.{◌≡◌, ◌≤◌, ◌^◌, ◌-◌};

use crate::asking::{ask, gets, shows};
use rd_base::{NoMemory, OperatorEnd, PushFault, SessionNote};
use rd_board::Board;
use rd_keeper::{Keeper, MemKeeper, SqlKeeper};
use std::alloc::Global;
use std::rt::HostRuntime;

/// The note 1.
fn noted() -> SessionNote
    ensures id { result.id ≡ 1 }
    ensures began { result.began ≤ 2 ^ 63 - 1 }
    ensures ended { result.ended ≤ 2 ^ 63 - 1 }
{
    SessionNote {
        id: 1,
        side: 1,
        dialect: 2,
        began: 5,
        ended: i64::MAX as u64,
        events: u32::MAX,
        exchanges: 2,
        masked: 2,
        code: 15,
        link: 8,
        exchange: 6,
        place: 7,
        detail: 101,
        dropped: 4,
    }
}

/// Rows of a method, a target, a status and a body, on an empty board and over a keeper without notes.
fn empty_rows() -> &'static str {
    r#"GET /live 200 {"live":0}
GET /live?x=/1 200 {"live":0}
GET /totals 200 {"exchanges":0,"masked":0,"sessions":0,"unkept":0}
GET /sessions 200 {"sessions":[]}
GET /sessions/from/9223372036854775807 200 {"sessions":[]}
GET /nothing 404 {"error":404}
POST /nothing 404 {"error":404}
GET /sessions/1/2 404 {"error":404}
POST /live 405 {"error":405}
POST /sessions/x 405 {"error":405}
GET /sessions/x 400 {"error":400}
GET /sessions/9223372036854775808 400 {"error":400}
GET /sessions/from/9223372036854775808 400 {"error":400}
GET /sessions/1 404 {"error":404}"#
}

/// Rows over a keeper that has the note 1 alone.
fn noted_rows() -> &'static str {
    r#"GET /sessions 200 {"sessions":[{"began":5,"code":15,"detail":101,"dialect":2,"dropped":4,"ended":9223372036854775807,"events":4294967295,"exchange":6,"exchanges":2,"id":1,"link":8,"masked":2,"place":7,"side":1}]}
GET /sessions/from/01 200 {"sessions":[{"began":5,"code":15,"detail":101,"dialect":2,"dropped":4,"ended":9223372036854775807,"events":4294967295,"exchange":6,"exchanges":2,"id":1,"link":8,"masked":2,"place":7,"side":1}]}
GET /sessions/from/2 200 {"sessions":[]}
GET /sessions/1 200 {"began":5,"code":15,"detail":101,"dialect":2,"dropped":4,"ended":9223372036854775807,"events":4294967295,"exchange":6,"exchanges":2,"id":1,"link":8,"masked":2,"place":7,"side":1}
GET /sessions/2 404 {"error":404}"#
}

/// Rows over a keeper whose calls fail.
fn failing_rows() -> &'static str {
    r#"GET /sessions 503 {"error":503}
GET /sessions/1 503 {"error":503}
GET /sessions/from/0 503 {"error":503}
GET /live 200 {"live":0}
GET /sessions/x 400 {"error":400}"#
}

/// Whether a row's request gets its status and body.
fn is_so<Y: Keeper>(alloc: Global, board: &Board, keeper: &mut Y, row: &str) -> bool {
    let Some((method, rest)) = row.split_once(' ') else {
        return false;
    };
    let Some((target, reply)) = rest.split_once(' ') else {
        return false;
    };
    let Some((status, body)) = reply.split_once(' ') else {
        return false;
    };
    let Ok(request) = format!(in alloc; "{method} {target} HTTP/1.1\r\nHost: h\r\n\r\n") else {
        return false;
    };
    let status = status.parse::<u16>().unwrap_or(0);
    shows(alloc, board, keeper, request.as_bytes(), status, body)
}

/// Whether all rows of a text are so.
fn are_so<Y: Keeper>(alloc: Global, board: &Board, keeper: &mut Y, rows: &str) -> bool {
    for row in rows.lines() {
        if !is_so(alloc, board, keeper, row) {
            return false;
        }
    }
    true
}

/// The two replies that are written out byte for byte.
fn writes_these_bytes<Y: Keeper>(alloc: Global, board: &Board, keeper: &mut Y) -> bool {
    gets(alloc, board, keeper, live_request(), 200, live_reply())
        && gets(
            alloc,
            board,
            keeper,
            posted_request(),
            405,
            not_allowed_reply(),
        )
}

fn live_request() -> &'static [u8] {
    b"GET /live HTTP/1.1\r\nHost: h\r\n\r\n"
}

fn live_reply() -> &'static [u8] {
    b"HTTP/1.1 200 OK\r\nContent-Type: application/json\r\nContent-Length: 10\r\n\
Connection: close\r\n\r\n{\"live\":0}"
}

fn posted_request() -> &'static [u8] {
    b"POST /live HTTP/1.1\r\nHost: h\r\n\r\n"
}

fn not_allowed_reply() -> &'static [u8] {
    b"HTTP/1.1 405 Method Not Allowed\r\nContent-Type: application/json\r\n\
Content-Length: 13\r\nAllow: GET\r\nConnection: close\r\n\r\n{\"error\":405}"
}

/// The sums of a board with the note 1.
fn shows_totals<Y: Keeper>(alloc: Global, keeper: &mut Y) -> bool {
    let Ok(mut board) = Board::make(alloc, 0) else {
        return false;
    };
    board.began();
    board.note(&noted()) && is_so(alloc, &board, keeper, totals_row())
}

fn totals_row() -> &'static str {
    r#"GET /totals 200 {"exchanges":2,"masked":2,"sessions":1,"unkept":0}"#
}

/// Pages of a note, once it is put.
fn shows_notes<Y: Keeper>(alloc: Global, board: &Board, keeper: &mut Y) -> bool {
    keeper.put(&noted()).is_ok()
        && are_so(alloc, board, keeper, noted_rows())
        && shows_totals(alloc, keeper)
}

/// A target without an end, of 65,536 bytes with its method.
fn long_request(alloc: Global) -> Result<Vec<u8>, NoMemory> {
    let mut long = Vec::from_slice(alloc, b"GET /")?;
    for _ in 5..65_536u32 {
        long.push(b'a')?;
    }
    Ok(long)
}

fn bad_request() -> &'static str {
    "{\"error\":400}"
}

fn too_large() -> &'static str {
    "{\"error\":431}"
}

/// A head that is too long, bytes that are no head, and one that ends early.
fn refuses_heads<Y: Keeper>(alloc: Global, board: &Board, keeper: &mut Y) -> bool {
    let Ok(long) = long_request(alloc) else {
        return false;
    };
    shows(alloc, board, keeper, long.as_slice(), 431, too_large())
        && shows(alloc, board, keeper, b"GET live\x00", 400, bad_request())
        && shows(
            alloc,
            board,
            keeper,
            b"GET /live HTTP/1.1\r\n",
            400,
            bad_request(),
        )
}

/// Whether this ends so, with so many bytes written, and the sink closed.
fn ends<Y: Keeper>(
    alloc: Global,
    board: &Board,
    keeper: &mut Y,
    request: &[u8],
    reads: Vec<u64>,
    pushes: Vec<PushFault>,
    end: OperatorEnd,
    written: usize,
) -> bool {
    match ask(alloc, board, keeper, request, reads, pushes) {
        Ok((ended, sink)) => ended == end && sink.is_closed() && sink.as_slice().len() == written,
        Err(_) => false,
    }
}

fn ends_at_once<Y: Keeper>(alloc: Global, board: &Board, keeper: &mut Y) -> bool {
    let (reads, pushes) = (Vec::new(alloc), Vec::new(alloc));
    ends(
        alloc,
        board,
        keeper,
        b"",
        reads,
        pushes,
        OperatorEnd::Nothing,
        0,
    )
}

/// The second read fails.
fn fails_read<Y: Keeper>(alloc: Global, board: &Board, keeper: &mut Y) -> bool {
    let Ok(reads) = Vec::from_slice(alloc, &[1]) else {
        return false;
    };
    let (pushes, end) = (Vec::new(alloc), OperatorEnd::ReadFail);
    ends(alloc, board, keeper, live_request(), reads, pushes, end, 0)
}

/// The write fails behind five bytes.
fn fails_write<Y: Keeper>(alloc: Global, board: &Board, keeper: &mut Y) -> bool {
    let Ok(pushes) = Vec::from_slice(alloc, &[PushFault { call: 0, after: 5 }]) else {
        return false;
    };
    let (reads, end) = (Vec::new(alloc), OperatorEnd::WriteFail);
    ends(alloc, board, keeper, live_request(), reads, pushes, end, 5)
}

fn ends_unanswered<Y: Keeper>(alloc: Global, board: &Board, keeper: &mut Y) -> bool {
    ends_at_once(alloc, board, keeper)
        && fails_read(alloc, board, keeper)
        && fails_write(alloc, board, keeper)
}

/// Every row, over a keeper without notes.
fn answers_all<Y: Keeper>(alloc: Global, board: &Board, keeper: &mut Y) -> bool {
    writes_these_bytes(alloc, board, keeper)
        && are_so(alloc, board, keeper, empty_rows())
        && refuses_heads(alloc, board, keeper)
        && ends_unanswered(alloc, board, keeper)
        && shows_notes(alloc, board, keeper)
}

#[test]
fn answers_over_a_keeper_in_memory(rt: HostRuntime) {
    let alloc = rt.alloc();
    let (Ok(board), Ok(failing)) = (Board::make(alloc, 0), Vec::from_slice(alloc, &[0, 1, 2]))
    else {
        panic!(rt; "no memory");
    };
    let mut keeper = MemKeeper::new(alloc, Vec::new(alloc));
    assert!(rt; answers_all(alloc, &board, &mut keeper));
    let mut faulty = MemKeeper::new(alloc, failing);
    assert!(rt; are_so(alloc, &board, &mut faulty, failing_rows()));
    assert_eq!(rt; faulty.faults(), 3);
}

/// A store in a folder that isn't there fails at each call.
#[test]
fn answers_over_a_table(rt: HostRuntime) {
    let alloc = rt.alloc();
    let (Ok(board), Ok(mut keeper), Ok(mut faulty)) = (
        Board::make(alloc, 0),
        SqlKeeper::in_memory(alloc),
        SqlKeeper::open(&rt, alloc, "no_such_folder/notes.db"),
    ) else {
        panic!(rt; "no keeper");
    };
    assert!(rt; answers_all(alloc, &board, &mut keeper));
    assert!(rt; are_so(alloc, &board, &mut faulty, failing_rows()));
    assert_eq!(rt; faulty.faults(), 3);
}
