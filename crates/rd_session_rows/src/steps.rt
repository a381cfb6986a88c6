use crate::runs::limits;
use rd_base::{Bytes, Ending, Happening, Link, NoMemory, Row, Rows, What, is_row_word};
use rd_dialect::Line;
use rd_in_core::InSession;
use rd_out_core::OutSession;
use std::alloc::Global;
use std::test::Fail;

fn piece(alloc: Global, link: u8, text: &str) -> Result<Happening, NoMemory> {
    let bytes = Bytes::from_slice(alloc, text.as_bytes())?;
    Ok(Happening {
        at: 0,
        what: What::Piece(Link(link), bytes),
    })
}

/// Takes a piece, to which no rows are told.
fn say(alloc: Global, session: &mut InSession<Line>, link: u8, text: &str) -> Result<(), NoMemory> {
    let happening = piece(alloc, link, text)?;
    session.take(&happening, &Rows::new(alloc))?;
    Ok(())
}

fn call(
    alloc: Global,
    session: &mut OutSession<Line>,
    link: u8,
    text: &str,
) -> Result<(), NoMemory> {
    let happening = piece(alloc, link, text)?;
    session.take(&happening)?;
    Ok(())
}

/// Of a thousand exchanges of 4 and three times 3 bytes, no more than one's is open at any time.
#[test]
fn settled_bytes_go(rt: HostRuntime) -> Result<(), Fail> {
    let alloc = rt.alloc();
    let mut session = InSession::new(alloc, Line, limits(false, false))?;
    for _ in 0..1_000 {
        for (link, text, most) in [
            (3, "get\n", 4),
            (0, "ok\n", 7),
            (1, "ok\n", 10),
            (2, "ok\n", 0),
        ] {
            say(alloc, &mut session, link, text)?;
            assert_eq!(rt; session.open_bytes(), most);
        }
    }
    assert_eq!(rt; session.exchanges(), 1_000);
    assert_eq!(rt; session.ending(), None);
    Ok(())
}

/// The same of calls.
#[test]
fn settled_calls_go(rt: HostRuntime) -> Result<(), Fail> {
    let alloc = rt.alloc();
    let mut session = OutSession::new(alloc, Line, limits(false, false))?;
    for _ in 0..1_000 {
        for (link, text, most) in [
            (0, "get\n", 4),
            (1, "get\n", 8),
            (2, "get\n", 12),
            (3, "ok\n", 0),
        ] {
            call(alloc, &mut session, link, text)?;
            assert_eq!(rt; session.open_bytes(), most);
        }
    }
    assert_eq!(rt; session.exchanges(), 1_000);
    assert_eq!(rt; session.masked(), 0);
    Ok(())
}

/// A reply in which each copy has its own word of 16 bytes: it is masked and learnt, and what then is asked of the book.
#[test]
fn words_that_were_shown(rt: HostRuntime) -> Result<(), Fail> {
    let alloc = rt.alloc();
    let mut session = InSession::new(alloc, Line, limits(false, false))?;
    say(alloc, &mut session, 3, "get a\n")?;
    say(alloc, &mut session, 0, "is aaaaaaaaaaaaaaaa\n")?;
    say(alloc, &mut session, 1, "is bbbbbbbbbbbbbbbb\n")?;
    assert_eq!(rt; session.agreed_rows().len(), 0);
    say(alloc, &mut session, 2, "is cccccccccccccccc\n")?;
    assert_eq!(rt; session.masked(), 1);
    let rows = session.agreed_rows();
    assert_eq!(rt; rows.len(), 1);
    assert_eq!(rt; rows.at(0).word(), b"aaaaaaaaaaaaaaaa".as_slice());
    for (request, wanted) in [
        ("get aaaaaaaaaaaaaaaa\n", 0),
        (
            "get dddddddddddddddd dddddddddddddddd aaaaaaaaaaaaaaaa\n",
            1,
        ),
        ("get ddddddddddddddd eeeeeeeeeeeeeeee dddddddddddddddd\n", 2),
        ("get dddddddddddddddd", 0),
    ] {
        let words = session.wanted(&piece(alloc, 3, request)?)?;
        assert_eq!(rt; words.len(), wanted);
    }
    Ok(())
}

/// A told row that has no text for the third copy: that copy gets the word itself.
#[test]
fn a_told_row_of_two_texts(rt: HostRuntime) -> Result<(), Fail> {
    let alloc = rt.alloc();
    let mut told = Rows::new(alloc);
    let shown = b"aaaaaaaaaaaaaaaa".as_slice();
    let own = b"bbbbbbbbbbbbbbbb".as_slice();
    assert!(rt; is_row_word(shown) && is_row_word(own));
    let mut row = Row::start(shown);
    row.push_own(own);
    told.push(&row)?;
    let mut session = InSession::new(alloc, Line, limits(false, false))?;
    let sends = session.take(&piece(alloc, 3, "get aaaaaaaaaaaaaaaa\n")?, &told)?;
    assert_eq!(rt; sends.len(), 3);
    for (place, text) in [
        (0, "get aaaaaaaaaaaaaaaa\n"),
        (1, "get bbbbbbbbbbbbbbbb\n"),
        (2, "get aaaaaaaaaaaaaaaa\n"),
    ] {
        assert_eq!(rt; sends.bytes_at(place), text.as_bytes());
    }
    Ok(())
}

/// A client's piece of 16,384 bytes, the last of which is this one.
fn large_piece(alloc: Global, last: u8) -> Result<Happening, NoMemory> {
    let mut block = [b'a'; 16_384];
    block[16_383] = last;
    let bytes = Bytes::from_slice(alloc, &block)?;
    Ok(Happening {
        at: 0,
        what: What::Piece(Link(3), bytes),
    })
}

/// A session that has heard 63 such pieces, without a line feed.
fn large_session(alloc: Global) -> Result<InSession<Line>, NoMemory> {
    let mut session = InSession::new(alloc, Line, limits(false, false))?;
    for _ in 1..64 {
        session.take(&large_piece(alloc, b'a')?, &Rows::new(alloc))?;
    }
    Ok(session)
}

/// A request of 1,048,576 bytes goes out in the step that brings its line feed.
#[test]
fn the_largest_request(rt: HostRuntime) -> Result<(), Fail> {
    let alloc = rt.alloc();
    let mut session = large_session(alloc)?;
    assert_eq!(rt; session.open_bytes(), 63 * 16_384);
    let sends = session.take(&large_piece(alloc, b'\n')?, &Rows::new(alloc))?;
    assert_eq!(rt; sends.len(), 3);
    assert_eq!(rt; sends.bytes_at(2).len(), 1_048_576);
    assert_eq!(rt; session.ending(), None);
    Ok(())
}

/// Without a line feed as many bytes are open, and one byte more ends the session.
#[test]
fn a_request_that_is_too_large(rt: HostRuntime) -> Result<(), Fail> {
    let alloc = rt.alloc();
    let mut session = large_session(alloc)?;
    session.take(&large_piece(alloc, b'a')?, &Rows::new(alloc))?;
    assert_eq!(rt; session.ending(), None);
    say(alloc, &mut session, 3, "a")?;
    assert_eq!(rt; session.ending(), Some(Ending::TooBig { link: Link(3) }));
    Ok(())
}
