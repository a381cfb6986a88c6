use super::*;
use rd_base::{Part, Scan};
use std::alloc::{AllocError, Global};
use std::process::Abort;

/// Each prefix is open until the last byte has come; then the scan is this.
fn settles(rt: &impl Abort, part: Part, bytes: &[u8], answer: Scan) {
    for n in 0..bytes.len() {
        assert_eq!(rt;
            scan_head(part, &bytes[..n]),
            Scan::More,
            "{n} bytes of {bytes:?}"
        );
    }
    assert_eq!(rt; scan_head(part, bytes), answer, "{bytes:?}");
}

/// A request head of POST with these fields.
fn post(
    rt: &impl Abort,
    alloc: Global,
    fields: &[u8],
    answer: Option<Scan>,
) -> Result<(), AllocError> {
    let mut head = Vec::new(alloc);
    head.extend_from_slice(b"POST / HTTP/1.1\r\nHost: h\r\n")?;
    head.extend_from_slice(fields)?;
    head.extend_from_slice(b"\r\n")?;
    settles(
        rt,
        Part::Request,
        &head,
        answer.unwrap_or(Scan::Whole(head.len())),
    );
    Ok(())
}

#[test]
fn lengths(rt: HostRuntime) -> Result<(), AllocError> {
    let refused: [&[u8]; 12] = [
        b"Content-Length: 5\r\nTransfer-Encoding: chunked\r\n",
        b"Transfer-Encoding: chunked\r\nContent-Length: 5\r\n",
        b"Content-Length: 1\r\nContent-Length: 1\r\n",
        b"Content-Length: 1, 1\r\n",
        b"Content-Length: +5\r\n",
        b"Content-Length: -5\r\n",
        b"Content-Length: 1 2\r\n",
        b"Content-Length:\r\n",
        b"content-length: 1000000000000000\r\n",
        b"Transfer-Encoding: chunked\r\nTransfer-Encoding: chunked\r\n",
        b"Transfer-Encoding: gzip, chunked\r\n",
        b"Transfer-Encoding: identity\r\n",
    ];
    for fields in refused {
        post(&rt, rt.alloc(), fields, Some(Scan::Bad))?;
    }
    let taken: [&[u8]; 5] = [
        b"",
        b"Content-Length: 0\r\n",
        b"CONTENT-LENGTH:  999999999999999 \r\n",
        b"Transfer-Encoding: chunked\r\n",
        b"transfer-encoding: CHunked\r\n",
    ];
    for fields in taken {
        post(&rt, rt.alloc(), fields, None)?;
    }
    Ok(())
}

#[test]
fn requests(rt: HostRuntime) {
    let rows: [(&[u8], Scan); 21] = [
        (b"GET / HTTP/1.1\r\n\r\n", Scan::Whole(18)),
        (b"\r\n\nGET / HTTP/1.1\nA: b\n\n", Scan::Whole(24)),
        (
            b"GET / HTTP/1.0\r\nTransfer-Encoding: chunked\r\n\r\n",
            Scan::Bad,
        ),
        (
            b"CONNECT h:1 HTTP/1.1\r\nHost: h\r\n\r\n",
            Scan::Unsupported(1),
        ),
        (b"TRACE / HTTP/1.1\r\nHost: h\r\n\r\n", Scan::Unsupported(2)),
        (
            b"CONNECT h:1 HTTP/1.1\r\nContent-Length: x\r\n\r\n",
            Scan::Bad,
        ),
        (b"connect h:1 HTTP/1.1\r\n\r\n", Scan::Whole(24)),
        (b"GET \x7f", Scan::Bad),
        (b"GET /\x80", Scan::Bad),
        (b"GET /\t", Scan::Bad),
        (b"GET  ", Scan::Bad),
        (b" ", Scan::Bad),
        (b"GET\t", Scan::Bad),
        (b"GET / HTTP/2", Scan::Bad),
        (b"GET / HTTP/1.2", Scan::Bad),
        (b"GET / HTTP/1.1\rA", Scan::Bad),
        (b"GET / HTTP/1.1\r\nA: b\rc", Scan::Bad),
        (b"GET / HTTP/1.1\r\nA ", Scan::Bad),
        (b"GET / HTTP/1.1\r\nA: b\r\n ", Scan::Bad),
        (b"GET / HTTP/1.1\r\n:", Scan::Bad),
        (b"GET / HTTP/1.1\r\nA: \x00", Scan::Bad),
    ];
    for (bytes, answer) in rows {
        settles(&rt, Part::Request, bytes, answer);
    }
}

#[test]
fn replies(rt: HostRuntime) {
    let rows: [(&[u8], Scan); 8] = [
        (
            b"HTTP/1.1 200 OK\r\nContent-Length: 3\r\n\r\n",
            Scan::Whole(38),
        ),
        (b"HTTP/1.0 304\n\n", Scan::Whole(14)),
        (b"HTTP/1.1 100 Continue\r\n\r\n", Scan::Whole(25)),
        (
            b"HTTP/1.1 101 Switching Protocols\r\nUpgrade: h2c\r\n\r\n",
            Scan::Unsupported(101),
        ),
        (
            b"HTTP/1.1 200 OK\r\nContent-Length: 3\r\nContent-Length: 3\r\n\r\n",
            Scan::Bad,
        ),
        (
            b"HTTP/1.0 200 OK\r\nTransfer-Encoding: chunked\r\n\r\n",
            Scan::Bad,
        ),
        (b"HTTP/2", Scan::Bad),
        (b"HTTP/1.1 2x", Scan::Bad),
    ];
    for (bytes, answer) in rows {
        settles(&rt, Part::Reply, bytes, answer);
    }
}

#[test]
fn most_fields(rt: HostRuntime) -> Result<(), AllocError> {
    let mut head = Vec::new(rt.alloc());
    head.extend_from_slice(b"GET / HTTP/1.1\r\n")?;
    for _ in 0..100u8 {
        head.extend_from_slice(b"A: b\r\n")?;
    }
    let mut longer = head.clone()?;
    head.extend_from_slice(b"\r\n")?;
    settles(&rt, Part::Request, &head, Scan::Whole(618));
    longer.extend_from_slice(b"A: b\r\n")?;
    settles(&rt, Part::Request, &longer, Scan::TooBig);
    Ok(())
}

/// So many bytes from the front, or all.
fn front(bytes: &[u8], count: usize) -> &[u8] {
    bytes.get(..count).unwrap_or(bytes)
}

#[test]
fn most_bytes(rt: HostRuntime) -> Result<(), AllocError> {
    let mut head = Vec::new(rt.alloc());
    head.extend_from_slice(b"GET / HTTP/1.1\r\nA: ")?;
    for _ in 0..65_513u32 {
        head.push(b'a')?;
    }
    let mut longer = head.clone()?;
    head.extend_from_slice(b"\r\n\r\n")?;
    longer.extend_from_slice(b"a\r\n\r\n")?;
    for n in 65_336..65_536usize {
        assert_eq!(rt; scan_head(Part::Request, front(&head, n)), Scan::More);
        assert_eq!(rt; scan_head(Part::Request, front(&longer, n)), Scan::More);
    }
    assert_eq!(rt; scan_head(Part::Request, &head), Scan::Whole(65_536));
    assert_eq!(rt;
        scan_head(Part::Request, front(&longer, 65_536)),
        Scan::TooBig
    );
    assert_eq!(rt; scan_head(Part::Request, &longer), Scan::TooBig);
    Ok(())
}

/// The bytes that a span covers.
fn at(bytes: &[u8], span: Span) -> &[u8] {
    bytes
        .get(span.start as usize..span.end as usize)
        .unwrap_or(b"?")
}

#[test]
fn places(rt: HostRuntime) {
    let bytes = b"\r\nPOST /a?b HTTP/1.1\r\nHost:h\nEmpty: \t\r\nContent-Length: \t12 \r\n\r\nbody";
    let Some(head) = Head::read(Part::Request, bytes) else {
        panic!(rt; "no head");
    };
    assert_eq!(rt; at(bytes, head.method()), b"POST".as_slice());
    assert_eq!(rt; at(bytes, head.target()), b"/a?b".as_slice());
    assert_eq!(rt; head.status(), 0);
    assert_eq!(rt; head.field_count(), 3);
    let fields: [(&[u8], &[u8]); 3] = [
        (b"Host", b"h"),
        (b"Empty", b""),
        (b"Content-Length", b"12"),
    ];
    for i in 0..fields.len() {
        if i < head.field_count() {
            let (name, value) = fields[i];
            let field = head.field_at(i);
            assert_eq!(rt; at(bytes, field.name), name);
            assert_eq!(rt; at(bytes, field.value), value);
        }
    }
    assert_eq!(rt; body_rule(&head, bytes), BodyRule::Length(12));
    assert!(rt; Head::read(Part::Request, b"POST / HTTP/1.1\r\nHost: h\r\n").is_none());
    assert!(rt; Head::read(Part::Request, b"CONNECT h:1 HTTP/1.1\r\n\r\n").is_none());
}

#[test]
fn body_rules(rt: HostRuntime) {
    let rows: [(Part, &[u8], BodyRule); 11] = [
        (Part::Request, b"GET / HTTP/1.1\r\n\r\n", BodyRule::Empty),
        (
            Part::Request,
            b"PUT / HTTP/1.1\r\nTransfer-Encoding: chunked\r\n\r\n",
            BodyRule::Chunked,
        ),
        (Part::Reply, b"HTTP/1.1 200 OK\r\n\r\n", BodyRule::UntilEnd),
        (
            Part::Reply,
            b"HTTP/1.1 200 OK\r\nContent-Length: 0\r\n\r\n",
            BodyRule::Length(0),
        ),
        (
            Part::Reply,
            b"HTTP/1.1 200\r\nTransfer-Encoding: chunked\r\n\r\n",
            BodyRule::Chunked,
        ),
        (
            Part::Reply,
            b"HTTP/1.1 100 Continue\r\n\r\n",
            BodyRule::Empty,
        ),
        (
            Part::Reply,
            b"HTTP/1.1 199 X\r\nContent-Length: 5\r\n\r\n",
            BodyRule::Empty,
        ),
        (
            Part::Reply,
            b"HTTP/1.1 204 X\r\nContent-Length: 5\r\n\r\n",
            BodyRule::Empty,
        ),
        (
            Part::Reply,
            b"HTTP/1.1 205 X\r\nContent-Length: 5\r\n\r\n",
            BodyRule::Length(5),
        ),
        (
            Part::Reply,
            b"HTTP/1.1 304 X\r\nTransfer-Encoding: chunked\r\n\r\n",
            BodyRule::Empty,
        ),
        (Part::Reply, b"HTTP/1.1 099 X\r\n\r\n", BodyRule::UntilEnd),
    ];
    for (part, bytes, rule) in rows {
        let Some(head) = Head::read(part, bytes) else {
            panic!(rt; "no head");
        };
        assert_eq!(rt; body_rule(&head, bytes), rule);
    }
}
