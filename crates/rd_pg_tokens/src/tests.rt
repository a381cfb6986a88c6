ghost use Rattle.std.specs.Prelude.{◌≡◌, length, true};

use crate::Pg;
use rd_base::{Bytes, NameRules, Names, NoMemory, Note, Part, Phase, Rows, Scan, Side, TokenKind};
use rd_dialect::Dialect;
use std::alloc::Global;
use std::process::Abort;
use std::test::Fail;

/// Where bytes are read: a request in a phase, or a reply after a note.
#[derive(Clone, Copy, Debug, PartialEq, Eq)]
enum At {
    Phase(u8),
    Note(u8),
}

/// The dialect on this side, where values under `firm` are Firm and values under `free` are no tokens.
fn dialect(alloc: Global, side: Side) -> Result<Pg, Fail> {
    let mut rules = NameRules {
        pass: Names::new(alloc),
        firm: Names::new(alloc),
        free: Names::new(alloc),
    };
    rules.firm.push(b"firm")?;
    rules.free.push(b"free")?;
    Ok(Pg::new(alloc, side, &rules)?)
}

/// The tokens of some bytes, as `F[text]` or `S[text]` each.
fn told(
    rt: &impl Abort,
    alloc: Global,
    pg: &Pg,
    at: At,
    bytes: &[u8],
    whole: bool,
) -> Result<Bytes, Fail> {
    let (part, phase, note) = match at {
        At::Phase(phase) => (Part::Request, Phase(phase), Note(0)),
        At::Note(note) => (Part::Reply, Phase(2), Note(note)),
    };
    assert!(rt; bytes.len() < 10_000);
    let mut told = Bytes::new(alloc);
    let mut cursor = pg.first_cursor();
    for _ in 0..bytes.len() + 1 {
        let Some((span, next)) = pg.next_token(part, phase, note, bytes, whole, cursor) else {
            return Ok(told);
        };
        assert!(rt; span.start <= span.end && span.end as usize <= bytes.len());
        told.push_slice(if span.kind == TokenKind::Firm {
            b"F["
        } else {
            b"S["
        })?;
        told.push_slice(&bytes[span.start as usize..span.end as usize])?;
        told.push_slice(b"]")?;
        cursor = next;
    }
    assert!(rt; false, "more tokens than bytes in {bytes:?}");
    Ok(told)
}

/// Whole units or messages: `q` and a phase or `r` and a note, their bytes, `>` and their tokens. Bytes stand in
/// hexadecimal or between quotes. The text stands in a function so that no proof looks into it.
fn rows_text() -> &'static str {
    "\
# SSLRequest, GSSENCRequest and the answers to them.
q0 00000008 04d2162f > F[04d2162f]
q0 00000008 04d21630 > F[04d21630]
r1 'N' > F['N']
r2 'N' > F['N']
# Startup: with bytes left, with an empty value, and two that end early.
q0 00000010 00030000 'user' 00 'u' 0000 > F[00030000] F['user'] S['u'] F[]
q0 00000012 00030000 'user' 00 'u' 0000 'ab' > F[00030000] F['user'] S['u'] F[] F['ab']
q0 0000000f 00030000 'user' 000000 > F[00030000] F['user'] S[] F[]
q0 0000000b 00030000 'abc' > F[00030000] F['abc']
q0 0000000f 00030000 'firm' 00 'u!' > F[00030000] F['firm'] F['u!']
# Password: a last zero byte isn't its own. Terminate.
q1 'p' 00000008 'abc' 00 > F['p'] S['abc']
q1 'p' 00000007 'abc' > F['p'] S['abc']
q1 'p' 00000008 'a' 000000 > F['p'] S['a' 0000]
q1 'p' 00000004 > F['p'] S[]
q1 'X' 00000004 > F['X']
# Query: bytes behind its text, an empty text, no zero byte.
q2 'Q' 00000014 'select 1 as one' 00 > F['Q'] S['select'] F[' '] S['1'] F[' '] S['as'] F[' '] \
    S['one']
q2 'Q' 00000008 'a' 00 'b' 00 > F['Q'] S['a'] F['b' 00]
q2 'Q' 00000005 00 > F['Q']
q2 'Q' 00000006 'a;' > F['Q'] F['a;']
# Parse: it ends early in the name, in the text. A unit of two messages.
q2 'P' 0000000b 00 'a b' 000000 > F['P'] F[] S['a'] F[' '] S['b'] F[0000]
q2 'P' 00000005 's' > F['P'] F['s']
q2 'P' 00000008 's' 00 'a;' > F['P'] F['s'] F['a;']
q2 'P' 00000008 's' 00 'a' 00 'S' 00000004 > F['P'] F['s'] S['a'] F['S']
# Bind: a value and bytes left, NULL and an empty value, and it ends early in each of its parts.
q2 'B' 00000014 00 's' 0000010001000100000001 'a' 0000 > F['B'] F[] F['s'] F[00010001] F[0001] \
    S['a'] F[0000]
q2 'B' 00000012 000000000002ffff ffff00000000 > F['B'] F[] F[] F[0000] F[0002] F[ffffffff] S[]
q2 'B' 00000005 'p' > F['B'] F['p']
q2 'B' 00000006 00 's' > F['B'] F[] F['s']
q2 'B' 00000007 000001 > F['B'] F[] F[] F[01]
q2 'B' 0000000a 000000020000 > F['B'] F[] F[] F[00020000]
q2 'B' 00000009 0000000001 > F['B'] F[] F[] F[0000] F[01]
q2 'B' 0000000f 00000000000100000002 'a' > F['B'] F[] F[] F[0000] F[0001] F['a']
# What pgbench sent to run a prepared query.
q2 'B' 00000011 00 'P_0' 00 000000000001 0000 'D' 00000006 'P' 00 'E' 00000009 0000000000 \
    'S' 00000004 > F['B'] F[] F['P_0'] F[0000] F[0000] F[00010000] F['D'] F['P' 00] F['E'] \
    F[0000000000] F['S']
# A client's other messages: Describe, Execute, Close, Sync.
q2 'D' 00000006 'Sa' > F['D'] F['Sa']
q2 'E' 00000009 0000000000 > F['E'] F[0000000000]
q2 'C' 00000006 'S' 00 > F['C'] F['S' 00]
q2 'S' 00000004 > F['S']
# Authentication: with a salt, and one that ends early. BackendKeyData. ReadyForQuery.
r3 'R' 00000008 00000000 > F['R'] F[00000000]
r3 'R' 0000000c 00000005 'salt' > F['R'] F[00000005] F['salt']
r3 'R' 00000006 0000 > F['R'] F[0000]
r3 'K' 0000000c '12345678' >
r3 'Z' 00000005 'I' > F['Z'] F['I']
r3 'Z' 00000004 > F['Z']
# ParameterStatus: an empty value, values under names, the server's version; it ends early in each of its parts.
r3 'S' 0000000a 'a' 00 'b c' 00 > F['S'] F['a'] S['b c']
r3 'S' 00000007 'a' 0000 > F['S'] F['a'] S[]
r3 'S' 0000000b 'Firm' 00 'b' 00 > F['S'] F['Firm'] F['b']
r3 'S' 0000000b 'Free' 00 'b' 00 > F['S'] F['Free']
r3 'S' 00000017 'server_version' 00 '16' 00 '!' > F['S'] F['server_version'] F['!']
r3 'S' 00000016 'Server_Version' 00 '16' 00 > F['S'] F['Server_Version'] S['16']
r3 'S' 00000015 'server_version' 00 '16' > F['S'] F['server_version'] F['16']
r3 'S' 00000008 'free' > F['S'] F['free']
r3 'S' 0000000b 'free' 00 'b!' > F['S'] F['free'] F['b!']
# RowDescription: it ends early in each of its parts, and bytes are left.
r5 'T' 0000001a 0001 'a' 000000400b000200 0000170004ffffff ff0000 > F['T'] F[0001] F['a'] \
    F[000000170004ffff ffff0000]
r5 'T' 00000005 01 > F['T'] F[01]
r5 'T' 00000006 0002 > F['T'] F[0002]
r5 'T' 00000008 0001 'ab' > F['T'] F[0001] F['ab']
r5 'T' 0000000b 0001 'a' 00000000 > F['T'] F[0001] F['a'] F[000000]
r5 'T' 0000000f 0001 'a' 0000000000000017 > F['T'] F[0001] F['a'] F[17]
r5 'T' 00000007 0000 'x' > F['T'] F[0000] F['x']
# DataRow: NULL, an empty value, lengths of -2 and past the end, counts and lengths cut off, bytes left.
r5 'D' 0000000a 0001ffffffff > F['D'] F[0001] F[ffffffff]
r5 'D' 0000000a 000100000000 > F['D'] F[0001] S[]
r5 'D' 0000000b 0001fffffffe 'a' > F['D'] F[0001] F[fffffffe 'a']
r5 'D' 0000000b 000100000002 'a' > F['D'] F[0001] F['a']
r5 'D' 00000005 00 > F['D'] F[00]
r5 'D' 00000008 00010000 > F['D'] F[0001] F[0000]
r5 'D' 00000008 0000 'ab' > F['D'] F[0000] F['ab']
# CommandComplete.
r5 'C' 0000000d 'SELECT 1' 00 > F['C'] F['SELECT 1']
r5 'C' 00000006 'DO' > F['C'] F['DO']
# ErrorResponse and NoticeResponse: what a server said of 1/0; bytes left; texts without a zero byte, no last zero byte.
r5 'E' 00000041 'SERROR' 00 'VERROR' 00 'C22012' 00 'Mdivision by zero' 00 'Fint.c' 00 'L869' 00 \
    'Rint4div' 0000 > F['E'] F['S'] F['ERROR'] F['V'] F['ERROR'] F['C'] F['22012'] F['M'] \
    S['division by zero']
r5 'N' 00000011 'VNOTICE' 00 'Da' 0000 '!' > F['N'] F['V'] F['NOTICE'] F['D'] S['a'] F['!']
r5 'E' 00000006 'Ma' > F['E'] F['M'] F['a']
r5 'E' 00000007 'Fab' > F['E'] F['ab']
r5 'E' 00000007 'Ma' 00 > F['E'] F['M'] S['a']
r5 'E' 00000005 'L' > F['E']
# A backend's other messages.
r6 'I' 00000004 '1' 00000004 '2' 00000004 > F['I'] F['1'] F['2']
r6 't' 0000000a 000100000017 > F['t'] F[000100000017]
# What a server said to `select 1 as one`.
r5 'T' 0000001c 0001 'one' 0000000000000000 0000170004ffffff ff0000 'D' 0000000b 000100000001 \
    '1' 'C' 0000000d 'SELECT 1' 00 'Z' 00000005 'I' > F['T'] F[0001] F['one'] F[000000170004ffff \
    ffff0000] F['D'] F[0001] S['1'] F['C'] F['SELECT 1'] F['Z'] F['I']
"
}

/// Rows of a free column, a firm one and one more value, then a row behind another description.
fn columns_text() -> &'static str {
    "\
    'T' 00000034 0002 'Free' 0000000000000000 0000170004ffffff ff0000 'firm' 0000000000000000 \
    000019ffffffffff ff0000 'D' 00000015 000300000001 '1' 00000001 '2' 00000001 '3' 'D' 0000000e \
    0002ffffffffffffffff 'T' 0000001a 0001 'a' 0000000000000000 0000170004ffffff ff0000 'D' 0000000b \
    000100000001 '4'"
}

fn column_tokens_text() -> &'static str {
    "\
    F['T'] F[0002] F['Free'] F[000000170004ffffffff0000] F['firm'] F[00000019ffffffffffff0000] \
    F['D'] F[0003] F['2'] S['3'] F['D'] F[0002] F[ffffffff] F['T'] F[0001] F['a'] \
    F[000000170004ffffffff0000] F['D'] F[0001] S['4']"
}

fn digit(byte: u8) -> Option<u8> {
    match byte {
        b'0'..=b'9' => Some(byte - b'0'),
        b'a'..=b'f' => Some(byte - b'a' + 10),
        _ => None,
    }
}

/// What a text stands for: bytes in hexadecimal or between quotes, and the marks of tokens.
fn unquoted(alloc: Global, text: &str) -> Result<Bytes, NoMemory> {
    let mut bytes = Bytes::new(alloc);
    let mut is_quoted = false;
    let mut high: Option<u8> = None;
    for byte in text.bytes() {
        if byte == b'\'' {
            is_quoted = !is_quoted;
        } else if is_quoted || matches!(byte, b'F' | b'S' | b'[' | b']') {
            bytes.push_slice(&[byte])?;
        } else if let Some(low) = digit(byte) {
            high = match high {
                None => Some(low),
                Some(high) => {
                    bytes.push_slice(&[high << 4 | low])?;
                    None
                }
            };
        }
    }
    Ok(bytes)
}

/// Where a row's bytes are read.
fn at_of(rt: &impl Abort, row: &str) -> At {
    let front = row.as_bytes();
    assert!(rt; front.len() > 2);
    let number = digit(front[1]).unwrap_or(0);
    if front[0] == b'q' {
        At::Phase(number)
    } else {
        At::Note(number)
    }
}

#[test]
fn rows(rt: HostRuntime) -> Result<(), Fail> {
    let alloc = rt.alloc();
    let incoming = dialect(alloc, Side::Incoming)?;
    let outgoing = dialect(alloc, Side::Outgoing)?;
    let mut count = 0u32;
    for row in rows_text().lines() {
        let Some((front, tokens)) = row.split_once('>') else {
            continue;
        };
        let at = at_of(&rt, front);
        let Some((_, bytes)) = front.split_once(' ') else {
            continue;
        };
        let bytes = unquoted(alloc, bytes)?;
        let wanted = unquoted(alloc, tokens)?;
        let found = told(&rt, alloc, &incoming, at, bytes.as_slice(), true)?;
        assert!(rt; found.as_slice() == wanted.as_slice(), "{row}");
        let found = told(&rt, alloc, &outgoing, at, bytes.as_slice(), true)?;
        assert!(rt; found.as_slice() == wanted.as_slice(), "{row}, outgoing");
        count = count.saturating_add(1);
    }
    assert_eq!(rt; count, 75);
    Ok(())
}

/// Of a part the tokens of its whole messages are told.
#[test]
fn parts(rt: HostRuntime) -> Result<(), Fail> {
    let alloc = rt.alloc();
    let pg = dialect(alloc, Side::Incoming)?;
    let unit = unquoted(alloc, columns_text())?;
    let wanted = unquoted(alloc, column_tokens_text())?;
    let all = wanted.len();
    for (len, tokens) in [
        (52, 0),
        (53, 53),
        (74, 53),
        (75, 70),
        (89, 70),
        (90, 86),
        (129, all),
    ] {
        assert!(rt; len <= unit.len() && tokens <= all);
        let found = told(&rt, alloc, &pg, At::Note(5), &unit.as_slice()[..len], false)?;
        assert!(rt;
            found.as_slice() == &wanted.as_slice()[..tokens],
            "{len} bytes"
        );
    }
    Ok(())
}

/// What nothing is said of is cut into blocks of 4,096 bytes.
#[test]
fn raw_blocks(rt: HostRuntime) -> Result<(), Fail> {
    let pg = dialect(rt.alloc(), Side::Incoming)?;
    let mut unit = Bytes::from_slice(rt.alloc(), b"t\0\0\x20\x05")?;
    let mut wanted = Bytes::from_slice(rt.alloc(), b"F[t]F[")?;
    for i in 0..8193u32 {
        unit.push_slice(b"x")?;
        wanted.push_slice(if i == 4096 || i == 8192 {
            b"]F[x"
        } else {
            b"x"
        })?;
    }
    wanted.push_slice(b"]")?;
    let found = told(&rt, rt.alloc(), &pg, At::Note(6), unit.as_slice(), true)?;
    assert!(rt; found.as_slice() == wanted.as_slice());
    Ok(())
}

#[test]
fn calls(rt: HostRuntime) -> Result<(), Fail> {
    let alloc = rt.alloc();
    let pg = dialect(alloc, Side::Incoming)?;
    let unit = b"Q\0\0\0\x0dSELECT 1\0";
    let reply = b"I\0\0\0\x04Z\0\0\0\x05I";
    let scan = pg.scan_request(Phase(2), unit);
    assert_eq!(rt; scan, Scan::Whole(unit.len()));
    assert_eq!(rt; pg.first_phase(), Phase(0));
    assert_eq!(rt; pg.note_of(Phase(2), unit), Note(5));
    assert!(rt; pg.is_farewell(Note(7)) && !pg.is_farewell(Note(5)));
    assert!(rt; pg.early_replies() && !pg.learns_rows());
    let scan = pg.scan_reply(Phase(2), Note(5), reply, false);
    assert_eq!(rt; scan, Scan::Whole(reply.len()));
    let mut out = Bytes::from_slice(alloc, b"a")?;
    pg.flat_into(Part::Request, Phase(2), Note(5), b"bc", false, &mut out)?;
    assert_eq!(rt; out.as_slice(), b"abc".as_slice());
    let rows = Rows::new(alloc);
    let copy = pg.to_copy(alloc, Phase(2), Note(5), 1, &rows, &rows, unit)?;
    assert_eq!(rt; copy.as_slice(), unit.as_slice());
    let words = pg.asked_words(alloc, Phase(2), Note(5), unit)?;
    assert_eq!(rt; words.len(), 0);
    Ok(())
}
