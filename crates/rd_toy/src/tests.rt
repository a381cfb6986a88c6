ghost use Rattle.std.specs.Prelude.{◌≡◌, length, true};
ghost use Rattle.rd_dialect.specs.Grammar.{IsReply};
ghost use Rattle.rd_toy.specs.ToyGrammar.{toy};

use crate::Toy;
use rd_base::{
    Beside, Bytes, Cursor, NoMemory, Note, Part, Phase, Row, Rows, Scan, TokenKind, TokenSpan,
    is_row_word,
};
use rd_dialect::Dialect;
use std::alloc::Global;
use std::process::Abort;
use std::test::Fail;

/// More is needed before the prefix of this length, which tells, and what it tells stays.
fn tells_request(rt: &impl Abort, phase: Phase, bytes: &[u8], told: usize, scan: Scan) {
    for n in 0..bytes.len() {
        let wanted = if n < told { Scan::More } else { scan };
        assert_eq!(rt;
            Toy.scan_request(phase, &bytes[..n]),
            wanted,
            "{n} bytes in {phase:?}"
        );
    }
    assert_eq!(rt;
        Toy.scan_request(phase, bytes),
        scan,
        "{bytes:?} in {phase:?}"
    );
}

#[test]
fn requests(rt: HostRuntime) {
    for (phase, bytes, told, scan) in [
        (0, b"u me 1\n".as_slice(), 7, Scan::Whole(7)),
        (0, b"u\n", 2, Scan::Whole(2)),
        (0, b"u1\nu2\n", 3, Scan::Whole(3)),
        (0, b"u!#", 3, Scan::More),
        (0, b"!\n", 1, Scan::Unsupported(7)),
        (0, b"#\n", 1, Scan::TooBig),
        (0, b"q\n", 1, Scan::Bad),
        (0, b"x\n", 1, Scan::Bad),
        (0, b"\nu\n", 1, Scan::Bad),
        (1, b"q 1\n", 4, Scan::Whole(4)),
        (1, b"r\n", 2, Scan::Whole(2)),
        (1, b"x\nq\n", 2, Scan::Whole(2)),
        (1, b"!\n", 1, Scan::Unsupported(7)),
        (1, b"#\n", 1, Scan::TooBig),
        (1, b"u\n", 1, Scan::Bad),
        (2, b"q\n", 1, Scan::Bad),
        (2, b"x\n", 1, Scan::Bad),
        (2, b"!\n", 1, Scan::Bad),
        (2, b"#\n", 1, Scan::Bad),
        (2, b"", 0, Scan::More),
    ] {
        tells_request(&rt, Phase(phase), bytes, told, scan);
    }
}

/// The same of a reply, whether its link has ended or not.
fn tells_reply(
    rt: &impl Abort,
    phase: Phase,
    note: Note,
    bytes: &[u8],
    told: usize,
    scan: Scan,
    ended: bool,
) {
    for n in 0..bytes.len() {
        let wanted = if n < told { Scan::More } else { scan };
        let front = Toy.scan_reply(phase, note, &bytes[..n], ended);
        assert_eq!(rt; front, wanted, "{n} bytes to {note:?} in {phase:?}");
    }
    let whole = Toy.scan_reply(phase, note, bytes, ended);
    assert_eq!(rt; whole, scan, "{bytes:?} to {note:?} in {phase:?}");
}

#[test]
fn answers(rt: HostRuntime) {
    for (phase, note, bytes, told, scan) in [
        (0, 1, b"y\n".as_slice(), 2, Scan::Whole(2)),
        (0, 1, b"no way\n", 7, Scan::Whole(7)),
        (0, 1, b"+wait\n+\ny b\n", 12, Scan::Whole(12)),
        (0, 1, b"=\n", 1, Scan::Bad),
        (0, 1, b"!", 1, Scan::Unsupported(9)),
        (0, 1, b"#", 1, Scan::TooBig),
        (1, 1, b"= 1\n", 4, Scan::Whole(4)),
        (1, 1, b"+\n= 1\n= 2\n", 6, Scan::Whole(6)),
        (1, 1, b"+a=!#y", 6, Scan::More),
        (1, 1, b"=+!#y", 5, Scan::More),
        (1, 1, b"y\n", 1, Scan::Bad),
        (1, 1, b"+a\n!\n", 4, Scan::Unsupported(9)),
        (1, 1, b"+a\n#\n", 4, Scan::TooBig),
        (1, 1, b"+a\nb\n", 4, Scan::Bad),
        (1, 1, b"+a\n\n", 4, Scan::Bad),
        (1, 3, b"=\n", 1, Scan::Bad),
        (1, 3, b"!\n", 1, Scan::Bad),
        (1, 3, b"", 0, Scan::More),
    ] {
        for ended in [false, true] {
            tells_reply(&rt, Phase(phase), Note(note), bytes, told, scan, ended);
        }
    }
}

#[test]
fn replies_until_the_end(rt: HostRuntime) {
    for (bytes, ended, scan) in [
        (b"".as_slice(), false, Scan::More),
        (b"", true, Scan::More),
        (b"a\n", false, Scan::More),
        (b"a\n", true, Scan::Whole(2)),
        (b"!", false, Scan::More),
        (b"!\n+\n", true, Scan::Whole(4)),
    ] {
        let told = Toy.scan_reply(Phase(1), Note(2), bytes, ended);
        assert_eq!(rt; told, scan, "{bytes:?}, {ended}");
    }
}

#[test]
fn notes_of_requests(rt: HostRuntime) {
    for (phase, unit, note, is_farewell) in [
        (0, b"u me\n".as_slice(), 1, false),
        (1, b"q 1\n", 1, false),
        (1, b"r\n", 2, false),
        (1, b"x\n", 3, true),
    ] {
        let scan = Toy.scan_request(Phase(phase), unit);
        assert_eq!(rt; scan, Scan::Whole(unit.len()));
        assert_eq!(rt; Toy.note_of(Phase(phase), unit), Note(note));
        assert_eq!(rt; Toy.is_farewell(Note(note)), is_farewell);
    }
}

/// Whether these bytes are a whole reply, once their link has ended.
fn is_reply(phase: Phase, note: Note, reply: &[u8]) -> bool
    ensures { result ≡ true → IsReply toy phase note reply.now }
{
    Toy.scan_reply(phase, note, reply, true) == Scan::Whole(reply.len())
}

#[test]
fn phases_and_shown_parts(rt: HostRuntime) {
    for (phase, note, reply, after, from) in [
        (0, 1, b"y\n".as_slice(), 1, 0),
        (0, 1, b"+y\ny me\n", 1, 3),
        (0, 1, b"n\n", 0, 0),
        (0, 1, b"+y\n+\nn\n", 0, 5),
        (1, 1, b"=y\n", 1, 0),
        (1, 1, b"+\n+\n=\n", 1, 4),
        (1, 2, b"y\n", 1, 0),
        (1, 2, b"+\n=\n", 1, 0),
    ] {
        assert!(rt; is_reply(Phase(phase), Note(note), reply));
        assert_eq!(rt;
            Toy.phase_after(Phase(phase), Note(note), reply),
            Phase(after)
        );
        assert_eq!(rt; Toy.shown_from(Phase(phase), Note(note), reply), from);
    }
}

#[test]
fn after_a_farewell(rt: HostRuntime) {
    assert_eq!(rt; Toy.phase_after(Phase(1), Note(3), b""), Phase(2));
    assert_eq!(rt; Toy.shown_from(Phase(1), Note(3), b""), 0);
}

#[test]
fn what_it_is(rt: HostRuntime) {
    assert_eq!(rt; Toy.first_phase(), Phase(0));
    assert_eq!(rt; Toy.first_cursor(), at(0));
    assert!(rt; Toy.early_replies());
    assert!(rt; Toy.learns_rows());
}

#[test]
fn flat_forms(rt: HostRuntime) -> Result<(), Fail> {
    let mut out = Bytes::from_slice(rt.alloc(), b"y\n")?;
    for whole in [false, true] {
        Toy.flat_into(Part::Reply, Phase(1), Note(1), b"+\n=\n", whole, &mut out)?;
    }
    assert_eq!(rt; out.as_slice(), b"y\n+\n=\n+\n=\n".as_slice());
    Ok(())
}

fn at(place: u32) -> Cursor {
    Cursor {
        at: place,
        mode: 0,
        left: 0,
        mark: 0,
        beside: Beside::nothing(),
    }
}

#[test]
fn tokens(rt: HostRuntime) {
    for (flat, whole, start, token) in [
        (b"=ab c\n".as_slice(), true, 0, Some((TokenKind::Firm, 1))),
        (b"=ab c\n", true, 1, Some((TokenKind::Soft, 3))),
        (b"=ab c\n", true, 3, Some((TokenKind::Firm, 4))),
        (b"=ab c\n", true, 4, Some((TokenKind::Soft, 5))),
        (b"=ab c\n", true, 5, Some((TokenKind::Firm, 6))),
        (b"=ab c\n", true, 6, None),
        (b"=ab", true, 1, Some((TokenKind::Soft, 3))),
        (b"=ab", false, 0, Some((TokenKind::Firm, 1))),
        (b"=ab", false, 1, None),
        (b"=ab ", false, 1, Some((TokenKind::Soft, 3))),
        (b"+ab\n=\n", false, 0, Some((TokenKind::Soft, 3))),
    ] {
        let next = Toy.next_token(Part::Reply, Phase(1), Note(1), flat, whole, at(start));
        let wanted = token.map(|(kind, end)| (TokenSpan { kind, start, end }, at(end)));
        assert_eq!(rt; next, wanted, "{flat:?} at {start}");
    }
}

fn row_of(rt: &impl Abort, shown: &[u8], own: &[u8]) -> Row
    ensures { length result ≡ 2 }
{
    assert!(rt; is_row_word(shown) && is_row_word(own));
    let mut row = Row::start(shown);
    row.push_own(own);
    row
}

#[test]
fn requests_for_copies(rt: HostRuntime) -> Result<(), Fail> {
    let alloc = rt.alloc();
    let mut own = Rows::new(alloc);
    own.push(&row_of(&rt, b"aaaaaaaaaaaaaaaa", b"bbbbbbbbbbbbbbbb"))?;
    let told = Rows::new(alloc);
    let unit = b"q aaaaaaaaaaaaaaaa 1\n";
    assert_eq!(rt; Toy.scan_request(Phase(1), unit), Scan::Whole(unit.len()));
    for (copy, wanted) in [
        (0, b"q aaaaaaaaaaaaaaaa 1\n".as_slice()),
        (1, b"q bbbbbbbbbbbbbbbb 1\n"),
        (2, b"q aaaaaaaaaaaaaaaa 1\n"),
    ] {
        let sent = Toy.to_copy(alloc, Phase(1), Note(1), copy, &own, &told, unit)?;
        assert_eq!(rt; sent.as_slice(), wanted, "copy {copy}");
    }
    Ok(())
}

#[test]
fn words_asked(rt: HostRuntime) -> Result<(), Fail> {
    let unit = b"q ab;c\n";
    assert_eq!(rt; Toy.scan_request(Phase(1), unit), Scan::Whole(unit.len()));
    let words = Toy.asked_words(rt.alloc(), Phase(1), Note(1), unit)?;
    assert_eq!(rt; words.len(), 3);
    for (place, word) in [(0, b"q".as_slice()), (1, b"ab"), (2, b"c")] {
        assert!(rt; place < words.len());
        assert_eq!(rt; words.at(place), word);
    }
    Ok(())
}
