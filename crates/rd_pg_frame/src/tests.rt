ghost use Rattle.std.specs.Prelude.{[], codes};

use super::*;
use crate::recorded::RECORDED;
use rd_base::{Note, Phase, Scan, Side};
use std::alloc::{AllocError, Global};
use std::process::Abort;
use std::test::Fail;

/// Where bytes are scanned: in a phase, or after a note on either side.
#[derive(Clone, Copy, Debug, PartialEq, Eq)]
enum At {
    Phase(u8),
    Incoming(u8),
    Outgoing(u8),
}

fn scan_at(at: At, bytes: &[u8]) -> Scan {
    match at {
        At::Phase(phase) => scan_request(Phase(phase), bytes),
        At::Incoming(note) => scan_reply(Side::Incoming, Note(note), bytes),
        At::Outgoing(note) => scan_reply(Side::Outgoing, Note(note), bytes),
    }
}

/// More is needed before the prefix of this length, which tells, and what it tells stays.
fn tells(rt: &impl Abort, at: At, bytes: &[u8], told: usize, scan: Scan) {
    for n in 0..bytes.len() {
        let wanted = if n < told { Scan::More } else { scan };
        assert_eq!(rt; scan_at(at, &bytes[..n]), wanted, "{n} bytes at {at:?}");
    }
    assert_eq!(rt; scan_at(at, bytes), scan, "{bytes:?} at {at:?}");
}

#[test]
fn opening_packets(rt: HostRuntime) -> Result<(), Fail> {
    for (bytes, told, scan) in [
        (b"\0\0\0\x08\x04\xd2\x16\x2f".as_slice(), 8, Scan::Whole(8)),
        (b"\0\0\0\x08\x04\xd2\x16\x30", 8, Scan::Whole(8)),
        (b"\0\0\0\x08\x04\xd2\x16\x2f\0\0", 8, Scan::Whole(8)),
        (b"\0\0\0\x09\x04\xd2\x16\x2f\0", 8, Scan::Bad),
        (
            b"\0\0\0\x10\x04\xd2\x16\x2e\0\0\0\0\0\0\0\0",
            8,
            Scan::Unsupported(80_877_102),
        ),
        (b"\0\0\0\x07\0\x03\0\0", 4, Scan::Bad),
        (b"\0\0\0\x08\0\x03\0\0", 8, Scan::Bad),
        (b"\0\0\0\x09\0\x03\0\0\0", 9, Scan::Whole(9)),
        (b"\0\0\x27\x11\0\x03\0\0", 4, Scan::Bad),
        (b"\0\0\0\x09\0\x02\0\0\0", 8, Scan::Unsupported(131_072)),
        (b"\0\0\0\x09\0\x03\0\x01\0", 8, Scan::Unsupported(196_609)),
        (b"\0\0\0\x09\0\x03\0\x02\0", 8, Scan::Unsupported(196_610)),
        (b"\0\0\0\x08\0\x04\0\0", 8, Scan::Unsupported(262_144)),
        (b"X\0\0\0\x04", 4, Scan::Bad),
        (b"Q\0\0\0\x05\0", 4, Scan::Bad),
    ] {
        tells(&rt, At::Phase(0), bytes, told, scan);
    }
    let mut longest = b"\0\0\x27\x10\0\x03\0\0".to_vec(rt.alloc())?;
    longest.resize(10_000, b'a')?;
    tells(&rt, At::Phase(0), &longest, 10_000, Scan::Whole(10_000));
    Ok(())
}

#[test]
fn answers_to_encryption(rt: HostRuntime) {
    for (note, bytes, scan) in [
        (1, b"N".as_slice(), Scan::Whole(1)),
        (1, b"N\0\0\0\x05", Scan::Whole(1)),
        (1, b"S", Scan::Unsupported(83)),
        (1, b"G", Scan::Bad),
        (1, b"E\0\0\0\x05\0", Scan::Bad),
        (2, b"N", Scan::Whole(1)),
        (2, b"G", Scan::Unsupported(71)),
        (2, b"S", Scan::Bad),
    ] {
        tells(&rt, At::Incoming(note), bytes, 1, scan);
        tells(&rt, At::Outgoing(note), bytes, 1, scan);
    }
}

#[test]
fn messages_of_clients(rt: HostRuntime) {
    for (phase, bytes, told, scan) in [
        (1, b"p\0\0\0\x09abcd\0".as_slice(), 10, Scan::Whole(10)),
        (1, b"p\0\0\0\x04p", 5, Scan::Whole(5)),
        (1, b"X\0\0\0\x04", 5, Scan::Whole(5)),
        (1, b"Q\0\0\0\x05\0", 1, Scan::Bad),
        (1, b"S\0\0\0\x04", 1, Scan::Bad),
        (1, b"H\0\0\0\x04", 1, Scan::Unsupported(72)),
        (2, b"Q\0\0\0\x0dselect 1\0", 14, Scan::Whole(14)),
        (2, b"Q\0\0\0\x05\0Q\0\0\0\x05\0", 6, Scan::Whole(6)),
        (2, b"X\0\0\0\x04", 5, Scan::Whole(5)),
        (2, b"S\0\0\0\x04", 5, Scan::Whole(5)),
        (
            2,
            b"P\0\0\0\x08\0\0\0\0B\0\0\0\x0c\0\0\0\0\0\0\0\0D\0\0\0\x06P\0E\0\0\0\x09\0\0\0\0\0C\0\0\0\x06S\0S\0\0\0\x04",
            51,
            Scan::Whole(51),
        ),
        (
            2,
            b"P\0\0\0\x08\0\0\0\0H\0\0\0\x04",
            10,
            Scan::Unsupported(72),
        ),
        (2, b"P\0\0\0\x08\0\0\0\0X\0\0\0\x04", 10, Scan::Bad),
        (2, b"P\0\0\0\x08\0\0\0\0Q\0\0\0\x05\0", 10, Scan::Bad),
        (2, b"F\0\0\0\x04", 1, Scan::Unsupported(70)),
        (2, b"H\0\0\0\x04", 1, Scan::Unsupported(72)),
        (2, b"d\0\0\0\x04", 1, Scan::Unsupported(100)),
        (2, b"c\0\0\0\x04", 1, Scan::Unsupported(99)),
        (2, b"f\0\0\0\x05\0", 1, Scan::Unsupported(102)),
        (2, b"p\0\0\0\x05\0", 1, Scan::Bad),
        (2, b"\0\0\0\x08\x04\xd2\x16\x2f", 1, Scan::Bad),
        (2, b"Q\0\0\0\x03\0", 5, Scan::Bad),
        (2, b"Q\0\0\0\x04\0", 5, Scan::Whole(5)),
        (2, b"Q\x7f\xff\xff\xff\0", 0, Scan::More),
        (2, b"Q\x80\0\0\0\0", 5, Scan::Bad),
        (2, b"Q\xff\xff\xff\xff\0", 5, Scan::Bad),
        (3, b"X\0\0\0\x04", 1, Scan::Bad),
        (3, b"Q\0\0\0\x05\0", 1, Scan::Bad),
    ] {
        tells(&rt, At::Phase(phase), bytes, told, scan);
    }
}

#[test]
fn authentication_codes(rt: HostRuntime) {
    for code in 0..13 {
        let bytes = [b'R', 0, 0, 0, 8, 0, 0, 0, code];
        let unsupported = Scan::Unsupported(code as u32);
        let (incoming, outgoing, later) = match code {
            0 => (Scan::More, Scan::More, Scan::More),
            3 => (Scan::Whole(9), Scan::Whole(9), unsupported),
            5 => (unsupported, Scan::Whole(9), unsupported),
            _ => (unsupported, unsupported, unsupported),
        };
        for (at, scan) in [
            (At::Incoming(3), incoming),
            (At::Outgoing(3), outgoing),
            (At::Incoming(4), later),
            (At::Outgoing(4), later),
            (At::Incoming(5), Scan::Bad),
        ] {
            let told = if scan == Scan::Bad { 1 } else { 9 };
            tells(&rt, at, &bytes, told, scan);
        }
    }
}

#[test]
fn replies(rt: HostRuntime) {
    for (note, bytes, told, scan) in [
        (
            3,
            b"R\0\0\0\x08\0\0\0\0S\0\0\0\x08a\0b\0K\0\0\0\x0c\0\0\0\x01\0\0\0\x02Z\0\0\0\x05I".as_slice(),
            37,
            Scan::Whole(37),
        ),
        (
            3,
            b"N\0\0\0\x05\0R\0\0\0\x08\0\0\0\x03",
            15,
            Scan::Whole(15),
        ),
        (3, b"E\0\0\0\x05\0", 6, Scan::Whole(6)),
        (3, b"R\0\0\0\x07\0\0\0", 5, Scan::Bad),
        (3, b"R\0\0\0\x0c\0\0\0\x03\0\0\0\0", 13, Scan::Whole(13)),
        (3, b"R\0\0\0\x0c\0\0\0\x0aSASL", 9, Scan::Unsupported(10)),
        (3, b"v\0\0\0\x0c\0\0\0\0\0\0\0\0", 1, Scan::Unsupported(118)),
        (3, b"T\0\0\0\x06\0\0", 1, Scan::Bad),
        (
            4,
            b"N\0\0\0\x05\0R\0\0\0\x08\0\0\0\0Z\0\0\0\x05I",
            21,
            Scan::Whole(21),
        ),
        (4, b"E\0\0\0\x05\0", 6, Scan::Whole(6)),
        (
            5,
            b"N\0\0\0\x05\0T\0\0\0\x06\0\0D\0\0\0\x06\0\0C\0\0\0\x05\0Z\0\0\0\x05I",
            32,
            Scan::Whole(32),
        ),
        (
            5,
            b"C\0\0\0\x05\0C\0\0\0\x05\0Z\0\0\0\x05T",
            18,
            Scan::Whole(18),
        ),
        (5, b"E\0\0\0\x05\0Z\0\0\0\x05E", 12, Scan::Whole(12)),
        (
            5,
            b"I\0\0\0\x04Z\0\0\0\x05IZ\0\0\0\x05I",
            11,
            Scan::Whole(11),
        ),
        (5, b"Z\0\0\0\x05X", 6, Scan::Bad),
        (5, b"Z\0\0\0\x04", 5, Scan::Bad),
        (5, b"Z\0\0\0\x06II", 5, Scan::Bad),
        (
            6,
            b"1\0\0\0\x042\0\0\0\x04n\0\0\0\x04t\0\0\0\x06\0\0s\0\0\0\x043\0\0\0\x04S\0\0\0\x06\0\0Z\0\0\0\x05I",
            45,
            Scan::Whole(45),
        ),
        (5, b"A\0\0\0\x0a\0\0\0\0\0\0", 1, Scan::Unsupported(65)),
        (5, b"G\0\0\0\x07\0\0\0", 1, Scan::Unsupported(71)),
        (5, b"H\0\0\0\x07\0\0\0", 1, Scan::Unsupported(72)),
        (5, b"V\0\0\0\x08\0\0\0\0", 1, Scan::Unsupported(86)),
        (5, b"W\0\0\0\x07\0\0\0", 1, Scan::Unsupported(87)),
        (5, b"c\0\0\0\x04", 1, Scan::Unsupported(99)),
        (5, b"d\0\0\0\x05a", 1, Scan::Unsupported(100)),
        (5, b"K\0\0\0\x0c\0\0\0\0\0\0\0\0", 1, Scan::Bad),
        (5, b"C\0\0\0\x03", 5, Scan::Bad),
        (5, b"C\0\0\0\x04Z\0\0\0\x05I", 11, Scan::Whole(11)),
        (5, b"D\x7f\xff\xff\xffa", 0, Scan::More),
        (5, b"D\x80\0\0\0a", 5, Scan::Bad),
        (7, b"Z\0\0\0\x05I", 1, Scan::Bad),
        (7, b"", 0, Scan::More),
    ] {
        tells(&rt, At::Incoming(note), bytes, told, scan);
        tells(&rt, At::Outgoing(note), bytes, told, scan);
    }
}

/// The replies to a query, with CopyData among them.
struct CopyReply;

impl LetterTable for CopyReply {
    ghost letters = { λ t. record {
      alone = [];
      inner = codes "TDCENIS123nstd";
      last = [];
      authentication = [];
      inner_codes = [];
      last_codes = [];
      status = codes "Z";
      unsupported = codes "AGHVWcv";
    } };

    fn role_of(&self, _is_first: bool, letter: u8) -> Result<Role, Scan> {
        match letter {
            b'T' | b'D' | b'C' | b'E' | b'N' | b'I' | b'S' => Ok(Role::Inner),
            b'1'..=b'3' | b'n' | b's' | b't' | b'd' => Ok(Role::Inner),
            b'Z' => Ok(Role::Status),
            b'A' | b'G' | b'H' | b'V' | b'W' | b'c' | b'v' => Err(Scan::Unsupported(letter as u32)),
            _ => Err(Scan::Bad),
        }
    }

    fn code_ends(&self, code: u32) -> Result<bool, Scan> {
        Err(Scan::Unsupported(code))
    }
}

/// A table with one letter more than a reply to a query has: a line copied out, its tag, and the status.
#[test]
fn a_table_of_its_own(rt: HostRuntime) {
    let bytes = b"d\0\0\0\x061\nC\0\0\0\x0bCOPY 1\0Z\0\0\0\x05I";
    for n in 0..25 {
        assert_eq!(rt;
            scan_messages(&CopyReply, &bytes[..n]),
            Scan::More,
            "{n} bytes"
        );
    }
    assert_eq!(rt; scan_messages(&CopyReply, bytes), Scan::Whole(25));
    assert_eq!(rt;
        scan_messages(&CopyReply, b"c\0\0\0\x04"),
        Scan::Unsupported(99)
    );
    assert_eq!(rt;
        scan_reply(Side::Incoming, Note(5), bytes),
        Scan::Unsupported(100)
    );
}

#[test]
fn notes_of_requests(rt: HostRuntime) {
    for (phase, unit, note) in [
        (0, b"\0\0\0\x08\x04\xd2\x16\x2f".as_slice(), 1),
        (0, b"\0\0\0\x08\x04\xd2\x16\x30", 2),
        (0, b"\0\0\0\x09\0\x03\0\0\0", 3),
        (1, b"p\0\0\0\x05\0", 4),
        (1, b"X\0\0\0\x04", 7),
        (2, b"Q\0\0\0\x05\0", 5),
        (2, b"S\0\0\0\x04", 6),
        (2, b"P\0\0\0\x08\0\0\0\0S\0\0\0\x04", 6),
        (2, b"X\0\0\0\x04", 7),
    ] {
        let scan = scan_request(Phase(phase), unit);
        assert_eq!(rt; scan, Scan::Whole(unit.len()));
        assert_eq!(rt;
            note_of(Phase(phase), unit),
            Note(note),
            "{unit:?} in {phase}"
        );
    }
}

#[test]
fn phases_after_replies(rt: HostRuntime) {
    for (note, reply, phase) in [
        (1, b"N".as_slice(), 0),
        (2, b"N", 0),
        (3, b"R\0\0\0\x08\0\0\0\0Z\0\0\0\x05I", 2),
        (3, b"R\0\0\0\x08\0\0\0\x03", 1),
        (3, b"N\0\0\0\x05\0E\0\0\0\x05\0", 3),
        (3, b"E\0\0\0\x0aZ\0\0\0\x05I", 3),
        (4, b"R\0\0\0\x08\0\0\0\0Z\0\0\0\x05I", 2),
        (4, b"E\0\0\0\x05\0", 3),
        (5, b"E\0\0\0\x05\0Z\0\0\0\x05I", 2),
        (6, b"Z\0\0\0\x05E", 2),
        (7, b"", 3),
    ] {
        assert_eq!(rt;
            phase_after(Note(note), reply),
            Phase(phase),
            "{reply:?} after {note}"
        );
    }
}

#[test]
fn messages_by_place(rt: HostRuntime) {
    let bytes = b"?C\0\0\0\x06abZ\0\0\0\x05I";
    for (at, message) in [
        (1, Some((b'C', 6, 8))),
        (8, Some((b'Z', 13, 14))),
        (0, None),
        (13, None),
        (14, None),
        (usize::MAX, None),
    ] {
        let wanted = message.map(|(letter, from, to)| Message { letter, from, to });
        assert_eq!(rt; message_at(bytes, at), wanted, "at {at}");
    }
    assert_eq!(rt; message_at(&bytes[..7], 1), None);
    assert_eq!(rt; be_u32_at(bytes, 2), 6);
    assert_eq!(rt; be_u16_at(bytes, 5), 0x661);
}

/// Cuts what one connection carried, and gives the notes of its requests.
fn cut_connection(rt: &impl Abort, alloc: Global, connection: u8) -> Result<Vec<u8>, AllocError> {
    let mut notes = Vec::new(alloc);
    let mut reply = Vec::new(alloc);
    let mut phase = Phase(0);
    let mut note = Note(0);
    for (number, writer, bytes) in RECORDED {
        if number != connection {
            continue;
        }
        if writer == b'>' {
            assert!(rt; reply.is_empty(), "a request before the reply's end");
            tells(
                rt,
                At::Phase(phase.0),
                bytes,
                bytes.len(),
                Scan::Whole(bytes.len()),
            );
            let scan = scan_request(phase, bytes);
            assert_eq!(rt; scan, Scan::Whole(bytes.len()));
            note = note_of(phase, bytes);
            notes.push(note.0)?;
        } else {
            reply.extend_from_slice(bytes)?;
            if scan_reply(Side::Incoming, note, &reply) == Scan::More {
                continue;
            }
            tells(
                rt,
                At::Incoming(note.0),
                &reply,
                reply.len(),
                Scan::Whole(reply.len()),
            );
            phase = phase_after(note, &reply);
            reply.clear();
        }
    }
    assert!(rt; reply.is_empty(), "a reply without its end");
    assert_eq!(rt; phase_after(note, &[]), Phase(3));
    Ok(notes)
}

/// Each request is what one read of the client brought; a reply is what came up to the next request.
#[test]
fn recorded_conversations(rt: HostRuntime) -> Result<(), Fail> {
    for (connection, wanted) in [
        (0, b"\x01\x03\x05\x05\x05\x05\x07".as_slice()),
        (1, b"\x01\x03\x07"),
        (2, b"\x01\x03\x06\x06\x06\x07"),
    ] {
        let notes = cut_connection(&rt, rt.alloc(), connection)?;
        assert_eq!(rt; notes.as_slice(), wanted, "connection {connection}");
    }
    Ok(())
}
