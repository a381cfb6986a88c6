ghost use Rattle.std.specs.Prelude.{◌≡◌, ◌≤◌, length};

use rd_base::{Bytes, NameRules, Names, NoMemory, Note, Phase, Row, Rows, Scan, Side, is_row_word};
use rd_dialect::Dialect;
use rd_http_tokens::Http;
use std::alloc::Global;
use std::process::Abort;

const PHASE: Phase = Phase(0);

const NOTE: Note = Note(1);

/// The dialect before clients, without names of its own.
fn dialect(alloc: Global) -> Result<Http, NoMemory> {
    let rules = NameRules {
        pass: Names::new(alloc),
        firm: Names::new(alloc),
        free: Names::new(alloc),
    };
    Http::new(alloc, Side::Incoming, &rules)
}

/// A row of a shown word, and of what copy 1 has for it.
fn row_of(rt: &impl Abort, shown: &[u8], own: &[u8]) -> Row
    ensures { length result ≡ 2 }
{
    assert!(rt; is_row_word(shown) && is_row_word(own));
    let mut row = Row::start(shown);
    row.push_own(own);
    row
}

/// A whole request goes out to this copy so.
fn is_sent(
    rt: &impl Abort,
    alloc: Global,
    rows: &Rows,
    told: &Rows,
    copy: u8,
    unit: &[u8],
    wanted: &[u8],
) -> Result<(), NoMemory> {
    let http = dialect(alloc)?;
    assert_eq!(rt; http.scan_request(PHASE, unit), Scan::Whole(unit.len()));
    let sent = http.to_copy(alloc, PHASE, NOTE, copy, rows, told, unit)?;
    assert_eq!(rt; sent.as_slice(), wanted);
    Ok(())
}

/// A whole request asks for these words, each with a space behind it.
fn asks(rt: &impl Abort, alloc: Global, unit: &[u8], wanted: &[u8]) -> Result<(), NoMemory> {
    let http = dialect(alloc)?;
    assert_eq!(rt; http.scan_request(PHASE, unit), Scan::Whole(unit.len()));
    let words = http.asked_words(alloc, PHASE, NOTE, unit)?;
    let mut all = Bytes::new(alloc);
    for place in 0..words.len() {
        all.push_slice(words.at(place))?;
        all.push_slice(b" ")?;
    }
    assert_eq!(rt; all.as_slice(), wanted);
    Ok(())
}

#[test]
fn a_form_token(rt: HostRuntime) -> Result<(), NoMemory> {
    let alloc = rt.alloc();
    let third = b"abcdefghijklmnop.q22222".as_slice();
    assert!(rt; is_row_word(third));
    let mut row = row_of(&rt, b"abcdefghijklmnop+q00", b"abcdefghijklmnop+q11");
    row.push_own(third);
    let mut own = Rows::new(alloc);
    own.push(&row)?;
    let told = Rows::new(alloc);
    let unit =
        b"POST /s HTTP/1.1\r\nHost: h\r\nContent-Type: application/x-www-form-urlencoded\r\nContent-Length: 28\r\n\r\nt=abcdefghijklmnop%2Bq00&n=1".as_slice();
    is_sent(&rt, alloc, &own, &told, 0, unit, unit)?;
    is_sent(
        &rt,
        alloc,
        &own,
        &told,
        1,
        unit,
        b"POST /s HTTP/1.1\r\nHost: h\r\nContent-Type: application/x-www-form-urlencoded\r\nContent-Length: 28\r\n\r\nt=abcdefghijklmnop%2Bq11&n=1",
    )?;
    is_sent(
        &rt,
        alloc,
        &own,
        &told,
        2,
        unit,
        b"POST /s HTTP/1.1\r\nHost: h\r\nContent-Type: application/x-www-form-urlencoded\r\nContent-Length: 29\r\n\r\nt=abcdefghijklmnop.q22222&n=1",
    )?;
    is_sent(&rt, alloc, &own, &told, 3, unit, unit)?;
    asks(
        &rt,
        alloc,
        unit,
        b"/s h application/x-www-form-urlencoded abcdefghijklmnop+q00 1 ",
    )
}

#[test]
fn requests_for_a_copy(rt: HostRuntime) -> Result<(), NoMemory> {
    let alloc = rt.alloc();
    let mut own = Rows::new(alloc);
    own.push(&row_of(&rt, b"aaaaaaaaaaaaaaaa", b"bbbbbbbbbbbbbbbbb"))?;
    let mut told = Rows::new(alloc);
    told.push(&row_of(&rt, b"application/json", b"application/xjson"))?;
    told.push(&row_of(&rt, b"bbbbbbbbbbbbbbbbb", b"cccccccccccccccc"))?;
    told.push(&row_of(&rt, b"aaaaaaaaaaaaaaaa", b"dddddddddddddddd"))?;
    let rows: [(&[u8], &[u8]); 9] = [
        // An `&` and a `=` end nothing in a path.
        (
            b"GET /p;aaaaaaaaaaaaaaaa&t=aaaaaaaaaaaaaaaa HTTP/1.1\r\n\r\n",
            b"GET /p;bbbbbbbbbbbbbbbbb&t=bbbbbbbbbbbbbbbbb HTTP/1.1\r\n\r\n",
        ),
        // A second `?` belongs to the query, whose keys stay.
        (
            b"GET /?aaaaaaaaaaaaaaaa&t=aaaaaaaaaaaaaaaa&u=aaaaaaaaaaaaaaaa?x HTTP/1.1\r\n\r\n",
            b"GET /?aaaaaaaaaaaaaaaa&t=bbbbbbbbbbbbbbbbb&u=bbbbbbbbbbbbbbbbb%3Fx HTTP/1.1\r\n\r\n",
        ),
        (
            b"\r\n\nGET /? HTTP/1.1\nX:aaaaaaaaaaaaaaaa,aaaaaaaaaaaaaaaa\t\n\r\n",
            b"\r\n\nGET /? HTTP/1.1\nX:bbbbbbbbbbbbbbbbb,bbbbbbbbbbbbbbbbb\t\n\r\n",
        ),
        (
            b"GET / HTTP/1.1\r\nupGrade: h2c\r\nAccept-Encoding:  \t\r\nUpgrade:\r\naccept-encoding: gzip, br \r\n\r\n",
            b"GET / HTTP/1.1\r\nAccept-Encoding:  \tidentity\r\naccept-encoding: identity \r\n\r\n",
        ),
        // A length stays as it is written where the body stays.
        (
            b"POST / HTTP/1.1\r\nContent-Type: text/plain\r\nContent-Length: 0002\r\n\r\nhi",
            b"POST / HTTP/1.1\r\nContent-Type: text/plain\r\nContent-Length: 0002\r\n\r\nhi",
        ),
        // The kind is that of the head as it came.
        (
            b"POST / HTTP/1.1\r\nContent-Length: 0022\r\nContent-Type: application/json\r\n\r\n[\"aaaaaaaaaaaaaaaa\",1]",
            b"POST / HTTP/1.1\r\nContent-Length: 23\r\nContent-Type: application/xjson\r\n\r\n[\"bbbbbbbbbbbbbbbbb\",1]",
        ),
        // A coded body is Raw, and so is one without a type.
        (
            b"POST / HTTP/1.1\r\nContent-Type: text/plain\r\nContent-Encoding: gzip\r\nContent-Length: 16\r\n\r\naaaaaaaaaaaaaaaa",
            b"POST / HTTP/1.1\r\nContent-Type: text/plain\r\nContent-Encoding: gzip\r\nContent-Length: 16\r\n\r\naaaaaaaaaaaaaaaa",
        ),
        // Chunks stay where the body does, and are one where it changes. A trailer stays.
        (
            b"POST / HTTP/1.1\r\nContent-Type: text/plain\r\nTransfer-Encoding: chunked\r\n\r\n01\r\nh\r\n1\r\ni\r\n000\r\n\r\n",
            b"POST / HTTP/1.1\r\nContent-Type: text/plain\r\nTransfer-Encoding: chunked\r\n\r\n01\r\nh\r\n1\r\ni\r\n000\r\n\r\n",
        ),
        (
            b"POST / HTTP/1.1\r\nContent-Type: text/plain\r\nTransfer-Encoding: chunked\r\n\r\n8\r\naaaaaaaa\r\n9\r\naaaaaaaa!\r\n000\r\nT: aaaaaaaaaaaaaaaa\n\r\n",
            b"POST / HTTP/1.1\r\nContent-Type: text/plain\r\nTransfer-Encoding: chunked\r\n\r\n12\r\nbbbbbbbbbbbbbbbbb!\r\n0\r\nT: aaaaaaaaaaaaaaaa\n\r\n",
        ),
    ];
    for (unit, wanted) in rows {
        is_sent(&rt, alloc, &own, &told, 1, unit, wanted)?;
    }
    Ok(())
}

#[test]
fn words_of_a_request(rt: HostRuntime) -> Result<(), NoMemory> {
    asks(
        &rt,
        rt.alloc(),
        b"POST /a;b?c=d%2Be&f HTTP/1.1\r\nX-Y: g,h\r\nUpgrade: i\r\nAccept-Encoding: j\r\nContent-Type: text/x\r\nContent-Encoding: identity\r\nTransfer-Encoding: chunked\r\n\r\n3\r\nk l\r\n0\r\nT: m\r\n\r\n",
        b"/a b d+e g h text/x identity chunked k l ",
    )
}
