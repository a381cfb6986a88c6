ghost use Rattle.std.specs.Prelude.{◌≡◌, true};
ghost use Rattle.rd_dialect.specs.Grammar.{IsReply};
ghost use Rattle.rd_http_tokens.specs.HttpOn.{http_on};

use rd_base::{Bytes, NameRules, Names, NoMemory, Note, Part, Phase, Scan, Side, TokenKind};
use rd_dialect::Dialect;
use rd_http_tokens::Http;
use std::alloc::Global;
use std::process::Abort;

const PHASE: Phase = Phase(0);

const NOTE: Note = Note(1);

fn names(alloc: Global, of: &[&[u8]]) -> Result<Names, NoMemory> {
    let mut names = Names::new(alloc);
    for name in of {
        names.push(name)?;
    }
    Ok(names)
}

/// The dialect with these names of firm and free values.
fn dialect(alloc: Global, firm: &[&[u8]], free: &[&[u8]]) -> Result<Http, NoMemory> {
    let rules = NameRules {
        pass: Names::new(alloc),
        firm: names(alloc, firm)?,
        free: names(alloc, free)?,
    };
    Http::new(alloc, Side::Incoming, &rules)
}

fn letter(kind: TokenKind) -> &'static [u8] {
    match kind {
        TokenKind::Soft => b"S",
        TokenKind::Firm => b"F",
        TokenKind::Name => b"N",
    }
}

/// The tokens of a unit or a part of one, each as the letter of its kind, its bytes and a `|`.
fn listed(
    rt: &impl Abort,
    alloc: Global,
    http: &Http,
    part: Part,
    bytes: &[u8],
    whole: bool,
) -> Result<Bytes, NoMemory> {
    let mut flat = Bytes::new(alloc);
    http.flat_into(part, PHASE, NOTE, bytes, whole, &mut flat)?;
    let flat = flat.as_slice();
    assert!(rt; flat.len() < 10_000);
    let mut list = Bytes::new(alloc);
    let mut cursor = http.first_cursor();
    for _ in 0..flat.len() + 2 {
        let Some((span, next)) = http.next_token(part, PHASE, NOTE, flat, whole, cursor) else {
            return Ok(list);
        };
        assert!(rt; span.start <= span.end && span.end as usize <= flat.len());
        list.push_slice(letter(span.kind))?;
        list.push_slice(&flat[span.start as usize..span.end as usize])?;
        list.push_slice(b"|")?;
        cursor = next;
    }
    assert!(rt; false, "too many tokens of {bytes:?}");
    Ok(list)
}

/// Where the first empty line ends.
fn head_len(unit: &[u8]) -> usize {
    let end = b"\r\n\r\n";
    for i in 0..unit.len() {
        if unit[i..].starts_with(end) {
            return i + 4;
        }
    }
    0
}

/// These are the tokens of a whole unit. A part of it has the first ones of them, no fewer than a shorter part, and
/// none before the head is whole.
fn has_tokens(
    rt: &impl Abort,
    alloc: Global,
    http: &Http,
    part: Part,
    unit: &[u8],
    wanted: &[u8],
) -> Result<(), NoMemory> {
    let all = listed(rt, alloc, http, part, unit, true)?;
    assert_eq!(rt; all.as_slice(), wanted, "{unit:?}");
    let head = head_len(unit);
    let mut before = 0;
    for n in 0..unit.len() {
        let some = listed(rt, alloc, http, part, &unit[..n], false)?;
        assert!(rt;
            wanted.starts_with(some.as_slice()),
            "{n} bytes of {unit:?}"
        );
        assert!(rt; some.len() >= before, "{n} bytes of {unit:?}");
        assert!(rt; n >= head || some.len() == 0, "{n} bytes of {unit:?}");
        before = some.len();
    }
    Ok(())
}

/// The closed tokens of a part are these.
fn has_closed(
    rt: &impl Abort,
    alloc: Global,
    http: &Http,
    bytes: &[u8],
    wanted: &[u8],
) -> Result<(), NoMemory> {
    let some = listed(rt, alloc, http, Part::Reply, bytes, false)?;
    assert_eq!(rt; some.as_slice(), wanted, "{bytes:?}");
    Ok(())
}

#[test]
fn a_get(rt: HostRuntime) -> Result<(), NoMemory> {
    let alloc = rt.alloc();
    let http = dialect(alloc, &[], &[])?;
    has_tokens(
        &rt,
        alloc,
        &http,
        Part::Request,
        b"\r\nGET /a?q=1 HTTP/1.1\r\nHost: shop.local\r\nConnection: close\r\nAccept: */*\r\nCookie:sid=1 \r\n\r\n",
        b"FGET|S/a|F?|Sq|F=|S1|NHost|Sshop.local|NAccept|F*|S/|F*|NCookie|Ssid|F=|S1|F|",
    )
}

#[test]
fn replies_that_agree(rt: HostRuntime) -> Result<(), NoMemory> {
    let alloc = rt.alloc();
    let http = dialect(alloc, &[], &[])?;
    let wanted = b"F200|NContent-Type|Stext/html|F|F<|Sp|F>|Shi|F<|S/p|F>|F\n|";
    has_tokens(
        &rt,
        alloc,
        &http,
        Part::Reply,
        b"HTTP/1.1 200 OK\r\nDate: Tue, 15 Nov 1994 08:12:31 GMT\r\nServer: one\r\nContent-Type: text/html\r\nTransfer-Encoding: chunked\r\n\r\n4\r\n<p>h\r\n6\r\ni</p>\n\r\n0\r\n\r\n",
        wanted,
    )?;
    has_tokens(
        &rt,
        alloc,
        &http,
        Part::Reply,
        b"HTTP/1.1 200 Fine\r\nServer: two\r\nContent-Type: text/html\r\nContent-Length: 10\r\n\r\n<p>hi</p>\n",
        wanted,
    )
}

#[test]
fn a_form(rt: HostRuntime) -> Result<(), NoMemory> {
    let alloc = rt.alloc();
    let http = dialect(alloc, &[b"cookie", b"n"], &[b"t", b"X-Id"])?;
    has_tokens(
        &rt,
        alloc,
        &http,
        Part::Request,
        b"POST / HTTP/1.1\r\nContent-Type: Application/x-www-form-urlencoded ; q\r\nX-id: a b\r\nCookie: a;b\r\nContent-Length: 17\r\n\r\nT=ab=c&n=1&k=2&=3",
        b"FPOST|S/|NContent-Type|SApplication/x-www-form-urlencoded|F |F;|F |Sq|NX-id|NCookie|Fa|F;|Fb|F|FT|F=|F&|Fn|F=|F1|F&|Fk|F=|S2|F&|F=|S3|",
    )
}

#[test]
fn json_cut_at_each_byte(rt: HostRuntime) -> Result<(), NoMemory> {
    let alloc = rt.alloc();
    let http = dialect(alloc, &[], &[b"a"])?;
    let unit =
        b"HTTP/1.1 200\r\nContent-Type: application/problem+json\r\nContent-Length: 16\r\n\r\n{\"a\\\"\":-1, \"\"}\r\n";
    let wanted =
        b"F200|NContent-Type|Sapplication/problem+json|F|F{|F\"|Sa\\\"|F\"|F:|S-1|F,|F |F\"|F\"|F}|F\r|F\n|";
    has_tokens(&rt, alloc, &http, Part::Reply, unit, wanted)?;
    // A string waits for its end, past an escaped quote; a run waits for the byte behind it.
    let len = unit.len();
    has_closed(&rt, alloc, &http, &unit[..len - 11], &wanted[..53])?;
    has_closed(&rt, alloc, &http, &unit[..len - 10], &wanted[..61])?;
    has_closed(&rt, alloc, &http, &unit[..len - 7], &wanted[..64])
}

#[test]
fn a_trailer(rt: HostRuntime) -> Result<(), NoMemory> {
    let alloc = rt.alloc();
    let http = dialect(alloc, &[b"etag"], &[b"x"])?;
    let unit =
        b"HTTP/1.1 200 OK\r\nContent-Encoding: gzip\r\nContent-Type: text/plain\r\nTransfer-Encoding: chunked\r\n\r\n2\r\na!\r\n0\r\nX: y\r\nDate: z\r\nETag: 1-!\r\nk:  \r\nl: m \r\n\r\n";
    let wanted =
        b"F200|NContent-Encoding|Sgzip|NContent-Type|Stext/plain|F|Fa!|NX|NETag|F1-|F!|Nk|Nl|Sm|";
    has_tokens(&rt, alloc, &http, Part::Reply, unit, wanted)?;
    has_closed(&rt, alloc, &http, &unit[..unit.len() - 1], &wanted[..57])
}

/// A request that is whole gives this note.
fn is_noted(rt: &impl Abort, http: &Http, request: &[u8], note: Note) {
    assert_eq!(rt;
        http.scan_request(PHASE, request),
        Scan::Whole(request.len())
    );
    assert_eq!(rt; http.note_of(PHASE, request), note);
    assert!(rt; !http.is_farewell(note));
}

/// Whether these bytes are a whole reply.
fn is_reply(http: &Http, note: Note, reply: &[u8]) -> bool
    ensures { result ≡ true
        → IsReply (http_on http.now.side http.now.rules) (record { 0 = 0 }) note reply.now }
{
    http.scan_reply(PHASE, note, reply, false) == Scan::Whole(reply.len())
}

/// The final head of a reply that is whole begins here.
fn is_shown(rt: &impl Abort, http: &Http, reply: &[u8], note: Note, from: usize) {
    assert!(rt; is_reply(http, note, reply));
    assert_eq!(rt; http.shown_from(PHASE, note, reply), from);
    assert_eq!(rt; http.phase_after(PHASE, note, reply), PHASE);
}

#[test]
fn an_exchange(rt: HostRuntime) -> Result<(), NoMemory> {
    let http = dialect(rt.alloc(), &[], &[])?;
    assert_eq!(rt; http.first_phase(), PHASE);
    assert!(rt; http.learns_rows() && !http.early_replies());
    is_noted(&rt, &http, b"HEAD / HTTP/1.1\r\nHost: h\r\n\r\n", Note(2));
    is_noted(&rt, &http, b"\r\nHEADS / HTTP/1.1\r\n\r\n", NOTE);
    is_shown(
        &rt,
        &http,
        b"HTTP/1.1 200 OK\r\nContent-Length: 500\r\n\r\n",
        Note(2),
        0,
    );
    is_shown(
        &rt,
        &http,
        b"HTTP/1.1 100 Continue\r\n\r\nHTTP/1.1 204 No Content\r\n\r\n",
        NOTE,
        25,
    );
    Ok(())
}
