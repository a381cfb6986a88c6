use super::*;
use rd_base::{Bytes, NoMemory, Part, Scan};
use std::alloc::{AllocError, Global};
use std::process::Abort;

/// A request, a HEAD among them, or the reply to HEAD or to another request.
#[derive(Clone, Copy, Debug, PartialEq, Eq)]
enum Unit {
    Request,
    HeadRequest,
    Reply,
    HeadReply,
}

fn scan(unit: Unit, bytes: &[u8], ended: bool) -> Scan {
    match unit {
        Unit::Request | Unit::HeadRequest => scan_request(bytes),
        Unit::Reply => scan_reply(false, bytes, ended),
        Unit::HeadReply => scan_reply(true, bytes, ended),
    }
}

/// Each prefix is open until the last byte has come; then the scan is this.
fn settles(rt: &impl Abort, unit: Unit, bytes: &[u8], answer: Scan) {
    for n in 0..bytes.len() {
        assert_eq!(rt;
            scan(unit, &bytes[..n], false),
            Scan::More,
            "{n} bytes of {bytes:?}"
        );
    }
    assert_eq!(rt; scan(unit, bytes, false), answer, "{bytes:?}");
}

/// A unit that is whole with its last byte, and stays so where another follows it.
fn whole(rt: &impl Abort, alloc: Global, unit: Unit, bytes: &[u8]) -> Result<(), AllocError> {
    settles(rt, unit, bytes, Scan::Whole(bytes.len()));
    let mut two = Vec::from_slice(alloc, bytes)?;
    two.extend_from_slice(bytes)?;
    assert_eq!(rt;
        scan(unit, &two, false),
        Scan::Whole(bytes.len()),
        "{bytes:?}"
    );
    Ok(())
}

#[test]
fn requests(rt: HostRuntime) -> Result<(), AllocError> {
    let taken: [&[u8]; 5] = [
        b"GET /a HTTP/1.1\r\nHost: shop.local\r\nUser-Agent: Mozilla/5.0\r\nAccept: */*\r\nAccept-Encoding: gzip, br\r\nCookie: sid=1\r\n\r\n",
        b"POST / HTTP/1.1\r\nHost: h\r\nContent-Length: 5\r\n\r\nabcde",
        b"POST / HTTP/1.1\r\nContent-Length: 0\r\n\r\n",
        b"\r\nPUT / HTTP/1.1\nTransfer-Encoding: chunked\n\n1\r\na\r\n0\r\n\n",
        b"HEAD / HTTP/1.1\r\nHost: h\r\n\r\n",
    ];
    for bytes in taken {
        whole(&rt, rt.alloc(), Unit::Request, bytes)?;
    }
    let refused: [(&[u8], Scan); 6] = [
        (
            b"POST / HTTP/1.1\r\nHost: h\r\nContent-Length: 5\r\nTransfer-Encoding: chunked\r\n\r\n",
            Scan::Bad,
        ),
        (
            b"GET / HTTP/1.1\r\nHost: h\r\nContent-Length: 1\r\nContent-Length: 1\r\n\r\n",
            Scan::Bad,
        ),
        (
            b"POST / HTTP/1.0\r\nHost: h\r\nTransfer-Encoding: chunked\r\n\r\n",
            Scan::Bad,
        ),
        (
            b"CONNECT h:1 HTTP/1.1\r\nHost: h\r\n\r\n",
            Scan::Unsupported(1),
        ),
        (b"TRACE / HTTP/1.1\r\n\r\n", Scan::Unsupported(2)),
        (b"GET /\x80", Scan::Bad),
    ];
    for (bytes, answer) in refused {
        settles(&rt, Unit::Request, bytes, answer);
    }
    Ok(())
}

/// A request whose chunked body goes on like this.
fn chunked(alloc: Global, body: &[u8]) -> Result<Vec<u8>, AllocError> {
    let mut bytes = Vec::new(alloc);
    bytes.extend_from_slice(b"POST / HTTP/1.1\r\nHost: h\r\nTransfer-Encoding: chunked\r\n\r\n")?;
    bytes.extend_from_slice(body)?;
    Ok(bytes)
}

#[test]
fn chunks(rt: HostRuntime) -> Result<(), AllocError> {
    let taken: [&[u8]; 7] = [
        b"0\r\n\r\n",
        b"00000000\r\n\r\n",
        b"4\r\n<p>h\r\n6\r\ni</p>\n\r\n0\r\n\r\n",
        b"0000000A\r\n0123456789\r\n0\r\n\r\n",
        b"2\r\n\r\n\r\n0\r\n\r\n",
        b"0\r\nA: b\r\nB:\r\n\r\n",
        b"0\r\nA: b\n\n",
    ];
    for body in taken {
        whole(&rt, rt.alloc(), Unit::Request, &chunked(rt.alloc(), body)?)?;
    }
    let refused: [&[u8]; 18] = [
        b"123456789",
        b"000000000",
        b"4;",
        b"4 ",
        b" ",
        b"4\t",
        b";",
        b"\r",
        b"g",
        b"-",
        b"4\n",
        b"4\r4",
        b"1\r\nab",
        b"1\r\na\n",
        b"1\r\na\rb",
        b"0\r\n ",
        b"0\r\nA ",
        b"0\r\nA: b\r\n ",
    ];
    for body in refused {
        settles(&rt, Unit::Request, &chunked(rt.alloc(), body)?, Scan::Bad);
    }
    Ok(())
}

#[test]
fn replies(rt: HostRuntime) -> Result<(), AllocError> {
    let taken: [(Unit, &[u8]); 9] = [
        (
            Unit::HeadReply,
            b"HTTP/1.1 200 OK\r\nContent-Length: 500\r\n\r\n",
        ),
        (Unit::HeadReply, b"HTTP/1.1 200 OK\r\n\r\n"),
        (
            Unit::HeadReply,
            b"HTTP/1.1 200 OK\r\nTransfer-Encoding: chunked\r\n\r\n",
        ),
        (
            Unit::Reply,
            b"HTTP/1.1 100 Continue\r\n\r\nHTTP/1.1 204 No Content\r\n\r\n",
        ),
        (
            Unit::Reply,
            b"HTTP/1.1 103 Early Hints\r\nContent-Length: 9\r\n\r\nHTTP/1.1 199\r\n\r\nHTTP/1.1 200 OK\r\nContent-Length: 2\r\n\r\nok",
        ),
        (
            Unit::Reply,
            b"HTTP/1.1 304 Not Modified\r\nContent-Length: 9\r\n\r\n",
        ),
        (
            Unit::Reply,
            b"HTTP/1.1 204 X\r\nTransfer-Encoding: chunked\r\n\r\n",
        ),
        (
            Unit::Reply,
            b"HTTP/1.1 200 OK\r\nDate: Tue, 15 Nov 1994 08:12:31 GMT\r\nServer: one\r\nContent-Type: text/html\r\nTransfer-Encoding: chunked\r\n\r\n4\r\n<p>h\r\n6\r\ni</p>\n\r\n0\r\n\r\n",
        ),
        (
            Unit::Reply,
            b"HTTP/1.1 200 Fine\r\nServer: two\r\nContent-Type: text/html\r\nContent-Length: 10\r\n\r\n<p>hi</p>\n",
        ),
    ];
    for (unit, bytes) in taken {
        whole(&rt, rt.alloc(), unit, bytes)?;
    }
    let refused: [(&[u8], Scan); 5] = [
        (
            b"HTTP/1.1 101 Switching Protocols\r\n\r\n",
            Scan::Unsupported(101),
        ),
        (
            b"HTTP/1.1 100 Continue\r\n\r\nHTTP/1.1 101 Switching Protocols\r\n\r\n",
            Scan::Unsupported(101),
        ),
        (
            b"HTTP/1.1 200 OK\r\nTransfer-Encoding: chunked\r\n\r\n4;",
            Scan::Bad,
        ),
        (b"HTTP/1.1 100 Continue\r\n\r\nHTTP/1.1 2x", Scan::Bad),
        (
            b"HTTP/1.1 200 OK\r\nContent-Length: 1\r\nTransfer-Encoding: chunked\r\n\r\n",
            Scan::Bad,
        ),
    ];
    for (bytes, answer) in refused {
        settles(&rt, Unit::Reply, bytes, answer);
    }
    Ok(())
}

#[test]
fn ends(rt: HostRuntime) {
    let rows: [(Unit, bool, &[u8], Scan); 5] = [
        (
            Unit::Reply,
            false,
            b"HTTP/1.1 200 OK\r\nContent-Type: text/plain\r\n\r\nok",
            Scan::More,
        ),
        (
            Unit::Reply,
            true,
            b"HTTP/1.1 200 OK\r\nContent-Type: text/plain\r\n\r\nok",
            Scan::Whole(47),
        ),
        (
            Unit::Reply,
            false,
            b"HTTP/1.1 200 OK\r\nContent-Length: 500\r\n\r\n",
            Scan::More,
        ),
        (
            Unit::Reply,
            true,
            b"HTTP/1.1 200 OK\r\nContent-Length: 3\r\n\r\nok",
            Scan::More,
        ),
        (Unit::Reply, true, b"HTTP/1.1 200 OK\r\n", Scan::More),
    ];
    for (unit, ended, bytes, answer) in rows {
        assert_eq!(rt; scan(unit, bytes, ended), answer, "{bytes:?}");
    }
}

/// A chunked request whose trailer has so many fields and is this at its end.
fn trailer(alloc: Global, fields: usize, end: &[u8]) -> Result<Vec<u8>, AllocError> {
    let mut bytes = chunked(alloc, b"0\r\n")?;
    for _ in 0..fields {
        bytes.extend_from_slice(b"A: b\r\n")?;
    }
    bytes.extend_from_slice(end)?;
    Ok(bytes)
}

#[test]
fn most_trailer_fields(rt: HostRuntime) -> Result<(), AllocError> {
    let most = trailer(rt.alloc(), 100, b"\r\n")?;
    settles(&rt, Unit::Request, &most, Scan::Whole(most.len()));
    let over = trailer(rt.alloc(), 101, b"")?;
    settles(&rt, Unit::Request, &over, Scan::TooBig);
    Ok(())
}

/// So many bytes from the front, or all.
fn front(bytes: &[u8], count: usize) -> &[u8] {
    bytes.get(..count).unwrap_or(bytes)
}

#[test]
fn most_trailer_bytes(rt: HostRuntime) -> Result<(), AllocError> {
    // a head of 56 bytes, a size line of 3, then a trailer of 65,536 bytes or one more
    let mut most = chunked(rt.alloc(), b"0\r\nA: ")?;
    for _ in 0..65_529u32 {
        most.push(b'a')?;
    }
    let mut over = most.clone()?;
    most.extend_from_slice(b"\r\n\r\n")?;
    over.extend_from_slice(b"a\r\n\r\n")?;
    for n in 65_395..65_595usize {
        assert_eq!(rt; scan_request(front(&most, n)), Scan::More);
        assert_eq!(rt; scan_request(front(&over, n)), Scan::More);
    }
    assert_eq!(rt; scan_request(&most), Scan::Whole(65_595));
    assert_eq!(rt; scan_request(front(&over, 65_595)), Scan::TooBig);
    assert_eq!(rt; scan_request(&over), Scan::TooBig);
    Ok(())
}

/// The flat form of these bytes is this.
fn flattens(
    rt: &impl Abort,
    alloc: Global,
    unit: Unit,
    whole: bool,
    bytes: &[u8],
    flat: &[u8],
) -> Result<(), NoMemory> {
    let (part, head_request) = match unit {
        Unit::Request => (Part::Request, false),
        Unit::HeadRequest => (Part::Request, true),
        Unit::Reply => (Part::Reply, false),
        Unit::HeadReply => (Part::Reply, true),
    };
    let mut out = Bytes::from_slice(alloc, b"before ")?;
    flat_into(part, head_request, bytes, whole, &mut out)?;
    let mut wanted = Bytes::from_slice(alloc, b"before ")?;
    wanted.push_slice(flat)?;
    assert_eq!(rt; out.as_slice(), wanted.as_slice(), "{bytes:?}");
    Ok(())
}

#[test]
fn flat_forms(rt: HostRuntime) -> Result<(), NoMemory> {
    let rows: [(Unit, bool, &[u8], &[u8]); 10] = [
        (
            Unit::HeadRequest,
            true,
            b"HEAD / HTTP/1.1\r\nContent-Length: 5\r\n\r\nabcde",
            b"HEAD / HTTP/1.1\r\nContent-Length: 5\r\n\r\nabcde\x00\x00\x00\x00",
        ),
        (
            Unit::Request,
            true,
            b"GET / HTTP/1.1\r\n\r\n",
            b"GET / HTTP/1.1\r\n\r\n\x00\x00\x00\x00",
        ),
        (Unit::Request, false, b"GET / HTTP/1.1\r\n\r", b""),
        (
            Unit::Request,
            false,
            b"PUT / HTTP/1.1\r\nContent-Length: 5\r\n\r\nabc",
            b"PUT / HTTP/1.1\r\nContent-Length: 5\r\n\r\nabc",
        ),
        (
            Unit::Reply,
            true,
            b"HTTP/1.1 100 Continue\r\n\r\nHTTP/1.1 204 No Content\r\n\r\n",
            b"HTTP/1.1 204 No Content\r\n\r\n\x00\x00\x00\x00",
        ),
        (
            Unit::Reply,
            true,
            b"HTTP/1.1 200 OK\r\nTransfer-Encoding: chunked\r\n\r\n4\r\n<p>h\r\n6\r\ni</p>\n\r\n0\r\nA: b\r\n\r\n",
            b"HTTP/1.1 200 OK\r\nTransfer-Encoding: chunked\r\n\r\n<p>hi</p>\nA: b\r\n\r\n\x00\x00\x00\x08",
        ),
        (
            Unit::Reply,
            false,
            b"HTTP/1.1 200 OK\r\nTransfer-Encoding: chunked\r\n\r\n4\r\n<p>h\r\n6\r\ni</",
            b"HTTP/1.1 200 OK\r\nTransfer-Encoding: chunked\r\n\r\n<p>hi</",
        ),
        (
            Unit::Reply,
            false,
            b"HTTP/1.1 200 OK\r\nTransfer-Encoding: chunked\r\n\r\n1\r\na\r\n0\r\nA: b\r\n",
            b"HTTP/1.1 200 OK\r\nTransfer-Encoding: chunked\r\n\r\na",
        ),
        (
            Unit::Reply,
            true,
            b"HTTP/1.1 200 OK\r\n\r\nok",
            b"HTTP/1.1 200 OK\r\n\r\nok\x00\x00\x00\x00",
        ),
        (
            Unit::HeadReply,
            true,
            b"HTTP/1.1 200 OK\r\nContent-Length: 500\r\n\r\n",
            b"HTTP/1.1 200 OK\r\nContent-Length: 500\r\n\r\n\x00\x00\x00\x00",
        ),
    ];
    for (unit, whole, bytes, flat) in rows {
        flattens(&rt, rt.alloc(), unit, whole, bytes, flat)?;
    }
    Ok(())
}

/// Where the final head of a reply begins that is whole.
fn shown(reply: &[u8]) -> Option<usize> {
    match scan_reply(false, reply, false) {
        Scan::Whole(len) if len == reply.len() => Some(shown_from(reply)),
        _ => None,
    }
}

#[test]
fn final_heads(rt: HostRuntime) {
    let rows: [(&[u8], usize); 3] = [
        (
            b"HTTP/1.1 100 Continue\r\n\r\nHTTP/1.1 204 No Content\r\n\r\n",
            25,
        ),
        (b"HTTP/1.1 204 No Content\r\n\r\n", 0),
        (
            b"\r\nHTTP/1.1 102\r\n\r\n\nHTTP/1.1 103 Early Hints\r\n\r\n\r\nHTTP/1.1 204 X\r\n\r\n",
            47,
        ),
    ];
    for (reply, from) in rows {
        assert_eq!(rt; shown(reply), Some(from), "{reply:?}");
    }
}
