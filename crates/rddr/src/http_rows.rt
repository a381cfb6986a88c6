//! Rows of HTTP, on both sides.
use crate::rows::run_rows;
use crate::settings_tests::answer_under;
use crate::tests::{Answer, script_of, transcript_of};
use std::alloc::Global;
use std::test::Fail;

/// Replies that agree or don't, and requests as each copy gets them.
const AGREED: &str = r#"
row a token more
version 2
ask GET / HTTP/1.1\r\nHost: h\r\n\r\n
01 HTTP/1.1 200 OK\r\nContent-Type: text/plain\r\nContent-Length: 1\r\n\r\na
2 HTTP/1.1 200 OK\r\nContent-Type: text/plain\r\nContent-Length: 2\r\n\r\na!
= 1 end Disagree exchange 1 copy 2 place 5

row a browser
version 2
3 GET /a HTTP/1.1\r\nHost: shop.local\r\nUser-Agent: Mozilla/5.0\r\nAccept: */*\r\nAccept-Encoding: gzip, br\r\nCookie: sid=1\r\n\r\n
> 012 GET /a HTTP/1.1\r\nHost: shop.local\r\nUser-Agent: Mozilla/5.0\r\nAccept: */*\r\nAccept-Encoding: identity\r\nCookie: sid=1\r\n\r\n
0 HTTP/1.1 200 OK\r\nDate: Tue, 15 Nov 1994 08:12:31 GMT\r\nServer: one\r\nContent-Type: text/html\r\nTransfer-Encoding: chunked\r\n\r\n4\r\n<p>h\r\n6\r\ni</p>\n\r\n0\r\n\r\n
12 HTTP/1.1 200 Fine\r\nServer: two\r\nContent-Type: text/html\r\nContent-Length: 10\r\n\r\n<p>hi</p>\n
> 3 HTTP/1.1 200 OK\r\nDate: Tue, 15 Nov 1994 08:12:31 GMT\r\nServer: one\r\nContent-Type: text/html\r\nTransfer-Encoding: chunked\r\n\r\n4\r\n<p>h\r\n6\r\ni</p>\n\r\n0\r\n\r\n
= 0 live

row HEAD
version 2
ask HEAD / HTTP/1.1\r\nHost: h\r\n\r\n
012 HTTP/1.1 200 OK\r\nContent-Length: 500\r\n\r\n
> 3 HTTP/1.1 200 OK\r\nContent-Length: 500\r\n\r\n
= 0 live

row read until close
version 2
ask GET / HTTP/1.1\r\nHost: h\r\n\r\n
01 HTTP/1.1 200 OK\r\nContent-Type: text/plain\r\nContent-Length: 2\r\n\r\nok
2 HTTP/1.1 200 OK\r\nContent-Type: text/plain\r\n\r\nok
end 2
> 3 HTTP/1.1 200 OK\r\nContent-Type: text/plain\r\nContent-Length: 2\r\n\r\nok
= 0 end Closed link 2

row a form token
version 2
ask GET / HTTP/1.1\r\nHost: h\r\n\r\n
0 HTTP/1.1 200 OK\r\nContent-Type: text/html\r\nContent-Length: 43\r\n\r\n<input name=t value="abcdefghijklmnop+q00">
1 HTTP/1.1 200 OK\r\nContent-Type: text/html\r\nContent-Length: 43\r\n\r\n<input name=t value="abcdefghijklmnop+q11">
2 HTTP/1.1 200 OK\r\nContent-Type: text/html\r\nContent-Length: 46\r\n\r\n<input name=t value="abcdefghijklmnop.q22222">
> 3 HTTP/1.1 200 OK\r\nContent-Type: text/html\r\nContent-Length: 43\r\n\r\n<input name=t value="abcdefghijklmnop+q00">
3 POST /s HTTP/1.1\r\nHost: h\r\nContent-Type: application/x-www-form-urlencoded\r\nContent-Length: 28\r\n\r\nt=abcdefghijklmnop%2Bq00&n=1
> 0 POST /s HTTP/1.1\r\nHost: h\r\nContent-Type: application/x-www-form-urlencoded\r\nContent-Length: 28\r\n\r\nt=abcdefghijklmnop%2Bq00&n=1
> 1 POST /s HTTP/1.1\r\nHost: h\r\nContent-Type: application/x-www-form-urlencoded\r\nContent-Length: 28\r\n\r\nt=abcdefghijklmnop%2Bq11&n=1
> 2 POST /s HTTP/1.1\r\nHost: h\r\nContent-Type: application/x-www-form-urlencoded\r\nContent-Length: 29\r\n\r\nt=abcdefghijklmnop.q22222&n=1
= 0 live

row interim replies
version 2
ask GET / HTTP/1.1\r\nHost: h\r\n\r\n
0 HTTP/1.1 100 Continue\r\n\r\nHTTP/1.1 103 Early Hints\r\nLink: a\r\n\r\nHTTP/1.1 204 No Content\r\n\r\n
12 HTTP/1.1 204 Nothing\r\n\r\n
> 3 HTTP/1.1 204 No Content\r\n\r\n
= 0 live

row a reply that is read until close takes what follows
version 2
ask GET / HTTP/1.1\r\nHost: h\r\n\r\n
3 GET /2 HTTP/1.1\r\nHost: h\r\n\r\n
012 HTTP/1.1 200 OK\r\nContent-Type: text/plain\r\n\r\nokHTTP/1.1 200 OK\r\nContent-Length: 0\r\n\r\n
end 0
end 1
end 2
> 012 GET /2 HTTP/1.1\r\nHost: h\r\n\r\n
> 3 HTTP/1.1 200 OK\r\nContent-Type: text/plain\r\n\r\nokHTTP/1.1 200 OK\r\nContent-Length: 0\r\n\r\n
= 1 end Broken link 0

row a chunked body that changes
version 2
ask GET / HTTP/1.1\r\nHost: h\r\n\r\n
0 HTTP/1.1 200 OK\r\nContent-Type: text/plain\r\nContent-Length: 16\r\n\r\naaaaaaaaaaaaaaaa
1 HTTP/1.1 200 OK\r\nContent-Type: text/plain\r\nContent-Length: 16\r\n\r\nbbbbbbbbbbbbbbbb
2 HTTP/1.1 200 OK\r\nContent-Type: text/plain\r\nContent-Length: 18\r\n\r\ncccccccccccccccccc
> 3 HTTP/1.1 200 OK\r\nContent-Type: text/plain\r\nContent-Length: 16\r\n\r\naaaaaaaaaaaaaaaa
3 POST /s HTTP/1.1\r\nHost: h\r\nContent-Type: text/plain\r\nTransfer-Encoding: chunked\r\n\r\na\r\nx=aaaaaaaa\r\n8\r\naaaaaaaa\r\n0\r\nT: aaaaaaaaaaaaaaaa\r\n\r\n
> 0 POST /s HTTP/1.1\r\nHost: h\r\nContent-Type: text/plain\r\nTransfer-Encoding: chunked\r\n\r\na\r\nx=aaaaaaaa\r\n8\r\naaaaaaaa\r\n0\r\nT: aaaaaaaaaaaaaaaa\r\n\r\n
> 1 POST /s HTTP/1.1\r\nHost: h\r\nContent-Type: text/plain\r\nTransfer-Encoding: chunked\r\n\r\n12\r\nx=bbbbbbbbbbbbbbbb\r\n0\r\nT: aaaaaaaaaaaaaaaa\r\n\r\n
> 2 POST /s HTTP/1.1\r\nHost: h\r\nContent-Type: text/plain\r\nTransfer-Encoding: chunked\r\n\r\n14\r\nx=cccccccccccccccccc\r\n0\r\nT: aaaaaaaaaaaaaaaa\r\n\r\n
= 0 live

row a query that changes
version 2
ask GET / HTTP/1.1\r\nHost: h\r\n\r\n
0 HTTP/1.1 200 OK\r\nContent-Type: text/plain\r\nContent-Length: 16\r\n\r\naaaaaaaaaaaaaaaa
1 HTTP/1.1 200 OK\r\nContent-Type: text/plain\r\nContent-Length: 16\r\n\r\nbbbbbbbbbbbbbbbb
2 HTTP/1.1 200 OK\r\nContent-Type: text/plain\r\nContent-Length: 18\r\n\r\ncccccccccccccccccc
> 3 HTTP/1.1 200 OK\r\nContent-Type: text/plain\r\nContent-Length: 16\r\n\r\naaaaaaaaaaaaaaaa
3 GET /p?k=aaaaaaaaaaaaaaaa&j=1 HTTP/1.1\r\nHost: h\r\n\r\n
> 0 GET /p?k=aaaaaaaaaaaaaaaa&j=1 HTTP/1.1\r\nHost: h\r\n\r\n
> 1 GET /p?k=bbbbbbbbbbbbbbbb&j=1 HTTP/1.1\r\nHost: h\r\n\r\n
> 2 GET /p?k=cccccccccccccccccc&j=1 HTTP/1.1\r\nHost: h\r\n\r\n
= 0 live

row another type in one copy
version 2
ask GET / HTTP/1.1\r\nHost: h\r\n\r\n
01 HTTP/1.1 200 OK\r\nContent-Type: text/plain\r\nContent-Length: 1\r\n\r\na
2 HTTP/1.1 200 OK\r\nContent-Type: application/json\r\nContent-Length: 1\r\n\r\na
= 1 end Disagree exchange 1 copy 2 place 2

row another type in the pair
version 2
ask GET / HTTP/1.1\r\nHost: h\r\n\r\n
0 HTTP/1.1 200 OK\r\nContent-Type: text/plain\r\nContent-Length: 5\r\n\r\n"a b"
1 HTTP/1.1 200 OK\r\nContent-Type: application/json\r\nContent-Length: 5\r\n\r\n"a b"
2 HTTP/1.1 200 OK\r\nContent-Type: text/plain\r\nContent-Length: 5\r\n\r\n"a b"
= 1 end Disagree exchange 1 copy 1 place 6

row codings of blanks alone
version 2
3 GET / HTTP/1.1\r\nHost: h\r\nAccept-Encoding:   \r\n\r\n
> 012 GET / HTTP/1.1\r\nHost: h\r\nAccept-Encoding:   identity\r\n\r\n
= 0 live

row no upgrade
version 2
3 GET / HTTP/1.1\r\nHost: h\r\nUpgrade: h2c\r\nConnection: Upgrade\r\n\r\n
> 012 GET / HTTP/1.1\r\nHost: h\r\nConnection: Upgrade\r\n\r\n
= 0 live

row 64 noisy words
version 2
ask GET / HTTP/1.1\r\nHost: h\r\n\r\n
0 HTTP/1.1 200 OK\r\nContent-Type: text/plain\r\nContent-Length: 192\r\n\r\nw0 w0 w0 w0 w0 w0 w0 w0 w0 w0 w0 w0 w0 w0 w0 w0 w0 w0 w0 w0 w0 w0 w0 w0 w0 w0 w0 w0 w0 w0 w0 w0 w0 w0 w0 w0 w0 w0 w0 w0 w0 w0 w0 w0 w0 w0 w0 w0 w0 w0 w0 w0 w0 w0 w0 w0 w0 w0 w0 w0 w0 w0 w0 w0 
1 HTTP/1.1 200 OK\r\nContent-Type: text/plain\r\nContent-Length: 192\r\n\r\nw1 w1 w1 w1 w1 w1 w1 w1 w1 w1 w1 w1 w1 w1 w1 w1 w1 w1 w1 w1 w1 w1 w1 w1 w1 w1 w1 w1 w1 w1 w1 w1 w1 w1 w1 w1 w1 w1 w1 w1 w1 w1 w1 w1 w1 w1 w1 w1 w1 w1 w1 w1 w1 w1 w1 w1 w1 w1 w1 w1 w1 w1 w1 w1 
2 HTTP/1.1 200 OK\r\nContent-Type: text/plain\r\nContent-Length: 192\r\n\r\nw2 w2 w2 w2 w2 w2 w2 w2 w2 w2 w2 w2 w2 w2 w2 w2 w2 w2 w2 w2 w2 w2 w2 w2 w2 w2 w2 w2 w2 w2 w2 w2 w2 w2 w2 w2 w2 w2 w2 w2 w2 w2 w2 w2 w2 w2 w2 w2 w2 w2 w2 w2 w2 w2 w2 w2 w2 w2 w2 w2 w2 w2 w2 w2 
> 3 HTTP/1.1 200 OK\r\nContent-Type: text/plain\r\nContent-Length: 192\r\n\r\nw0 w0 w0 w0 w0 w0 w0 w0 w0 w0 w0 w0 w0 w0 w0 w0 w0 w0 w0 w0 w0 w0 w0 w0 w0 w0 w0 w0 w0 w0 w0 w0 w0 w0 w0 w0 w0 w0 w0 w0 w0 w0 w0 w0 w0 w0 w0 w0 w0 w0 w0 w0 w0 w0 w0 w0 w0 w0 w0 w0 w0 w0 w0 w0 
= 0 live

row 65 noisy words
version 2
ask GET / HTTP/1.1\r\nHost: h\r\n\r\n
0 HTTP/1.1 200 OK\r\nContent-Type: text/plain\r\nContent-Length: 195\r\n\r\nw0 w0 w0 w0 w0 w0 w0 w0 w0 w0 w0 w0 w0 w0 w0 w0 w0 w0 w0 w0 w0 w0 w0 w0 w0 w0 w0 w0 w0 w0 w0 w0 w0 w0 w0 w0 w0 w0 w0 w0 w0 w0 w0 w0 w0 w0 w0 w0 w0 w0 w0 w0 w0 w0 w0 w0 w0 w0 w0 w0 w0 w0 w0 w0 w0 
1 HTTP/1.1 200 OK\r\nContent-Type: text/plain\r\nContent-Length: 195\r\n\r\nw1 w1 w1 w1 w1 w1 w1 w1 w1 w1 w1 w1 w1 w1 w1 w1 w1 w1 w1 w1 w1 w1 w1 w1 w1 w1 w1 w1 w1 w1 w1 w1 w1 w1 w1 w1 w1 w1 w1 w1 w1 w1 w1 w1 w1 w1 w1 w1 w1 w1 w1 w1 w1 w1 w1 w1 w1 w1 w1 w1 w1 w1 w1 w1 w1 
2 HTTP/1.1 200 OK\r\nContent-Type: text/plain\r\nContent-Length: 195\r\n\r\nw2 w2 w2 w2 w2 w2 w2 w2 w2 w2 w2 w2 w2 w2 w2 w2 w2 w2 w2 w2 w2 w2 w2 w2 w2 w2 w2 w2 w2 w2 w2 w2 w2 w2 w2 w2 w2 w2 w2 w2 w2 w2 w2 w2 w2 w2 w2 w2 w2 w2 w2 w2 w2 w2 w2 w2 w2 w2 w2 w2 w2 w2 w2 w2 w2 
= 1 end Noise exchange 1 place 132

row a reply that closes
version 2
ask GET / HTTP/1.1\r\nHost: h\r\n\r\n
012 HTTP/1.1 200 OK\r\nConnection: close\r\nContent-Length: 2\r\n\r\nok
> 3 HTTP/1.1 200 OK\r\nConnection: close\r\nContent-Length: 2\r\n\r\nok
end 0
= 0 end Closed link 0

row escapes in JSON
version 2
ask GET / HTTP/1.1\r\nHost: h\r\n\r\n
0 HTTP/1.1 200 OK\r\nContent-Type: application/json\r\nContent-Length: 12\r\n\r\n{"k":"a\\"b"}
1 HTTP/1.1 200 OK\r\nContent-Type: application/json\r\nContent-Length: 11\r\n\r\n{"k":"c\\\\"}
2 HTTP/1.1 200 OK\r\nContent-Type: application/json\r\nContent-Length: 9\r\n\r\n{"k":"d"}
> 3 HTTP/1.1 200 OK\r\nContent-Type: application/json\r\nContent-Length: 12\r\n\r\n{"k":"a\\"b"}
= 0 live

row calls that are merged
version 2
outgoing
0 GET /x HTTP/1.1\r\nHost: b\r\nDate: 1\r\nAccept-Encoding: gzip\r\n\r\n
1 GET /x HTTP/1.1\r\nHost: b\r\nDate: 2\r\nAccept-Encoding: gzip\r\n\r\n
2 GET /x HTTP/1.1\r\nHost: b\r\nDate: 3\r\nAccept-Encoding: gzip\r\n\r\n
> 3 GET /x HTTP/1.1\r\nHost: b\r\nDate: 1\r\nAccept-Encoding: gzip\r\n\r\n
3 HTTP/1.1 100 Continue\r\n\r\nHTTP/1.1 200 OK\r\nContent-Length: 2\r\n\r\nok
> 012 HTTP/1.1 100 Continue\r\n\r\nHTTP/1.1 200 OK\r\nContent-Length: 2\r\n\r\nok
= 0 live

row a free name
version 2
set free_names = ["x-trace"]
ask GET / HTTP/1.1\r\nHost: h\r\n\r\n
0 HTTP/1.1 200 OK\r\nX-Trace: a\r\nContent-Length: 0\r\n\r\n
1 HTTP/1.1 200 OK\r\nX-Trace: a b\r\nContent-Length: 0\r\n\r\n
2 HTTP/1.1 200 OK\r\nX-Trace: a b c\r\nContent-Length: 0\r\n\r\n
> 3 HTTP/1.1 200 OK\r\nX-Trace: a\r\nContent-Length: 0\r\n\r\n
= 0 live

row a passed name
version 1
set http_pass = ["x-trace"]
ask GET / HTTP/1.1\r\nHost: h\r\n\r\n
0 HTTP/1.1 200 OK\r\nX-Trace: a\r\nContent-Length: 0\r\n\r\n
1 HTTP/1.1 200 OK\r\nX-Trace: a b\r\nContent-Length: 0\r\n\r\n
2 HTTP/1.1 200 OK\r\nContent-Length: 0\r\n\r\n
> 3 HTTP/1.1 200 OK\r\nX-Trace: a\r\nContent-Length: 0\r\n\r\n
= 0 live

row a firm name
version 2
set firm_names = ["set-cookie"]
ask GET / HTTP/1.1\r\nHost: h\r\n\r\n
0 HTTP/1.1 200 OK\r\nSet-Cookie: a0\r\nContent-Length: 0\r\n\r\n
1 HTTP/1.1 200 OK\r\nSet-Cookie: a1\r\nContent-Length: 0\r\n\r\n
2 HTTP/1.1 200 OK\r\nSet-Cookie: a2\r\nContent-Length: 0\r\n\r\n
= 1 end Disagree exchange 1 copy 1 place 2

row no firm name
version 1
ask GET / HTTP/1.1\r\nHost: h\r\n\r\n
0 HTTP/1.1 200 OK\r\nSet-Cookie: a0\r\nContent-Length: 0\r\n\r\n
1 HTTP/1.1 200 OK\r\nSet-Cookie: a1\r\nContent-Length: 0\r\n\r\n
2 HTTP/1.1 200 OK\r\nSet-Cookie: a2\r\nContent-Length: 0\r\n\r\n
> 3 HTTP/1.1 200 OK\r\nSet-Cookie: a0\r\nContent-Length: 0\r\n\r\n
= 0 live
"#;

/// Requests that two readers could frame differently, and others that are refused.
const REFUSED: &str = r#"
row no request at all
version 1
end 3
= 0 end Done

row no reply at all
version 1
ask GET / HTTP/1.1\r\nHost: h\r\n\r\n
end 2
= 1 end Broken link 2

row two length fields
version 1
3 POST / HTTP/1.1\r\nHost: h\r\nContent-Length: 5\r\nTransfer-Encoding: chunked\r\n\r\n
= 1 end Malformed link 3

row a length said twice
version 1
3 GET / HTTP/1.1\r\nHost: h\r\nContent-Length: 1\r\nContent-Length: 1\r\n\r\na
= 1 end Malformed link 3

row a length with a sign
version 1
3 POST / HTTP/1.1\r\nHost: h\r\nContent-Length: +5\r\n\r\n
= 1 end Malformed link 3

row two codings
version 1
3 POST / HTTP/1.1\r\nHost: h\r\nTransfer-Encoding: gzip, chunked\r\n\r\n
= 1 end Malformed link 3

row chunks in HTTP/1.0
version 1
3 POST / HTTP/1.0\r\nHost: h\r\nTransfer-Encoding: chunked\r\n\r\n
= 1 end Malformed link 3

row a size of nine digits
version 1
3 POST / HTTP/1.1\r\nHost: h\r\nTransfer-Encoding: chunked\r\n\r\n123456789
= 1 end Malformed link 3

row CONNECT
version 1
3 CONNECT h:1 HTTP/1.1\r\nHost: h\r\n\r\n
= 1 end Unsupported link 3 code 1

row 101 fields
version 1
3 GET / HTTP/1.1\r\na:b\r\na:b\r\na:b\r\na:b\r\na:b\r\na:b\r\na:b\r\na:b\r\na:b\r\na:b\r\na:b\r\na:b\r\na:b\r\na:b\r\na:b\r\na:b\r\na:b\r\na:b\r\na:b\r\na:b\r\na:b\r\na:b\r\na:b\r\na:b\r\na:b\r\na:b\r\na:b\r\na:b\r\na:b\r\na:b\r\na:b\r\na:b\r\na:b\r\na:b\r\na:b\r\na:b\r\na:b\r\na:b\r\na:b\r\na:b\r\na:b\r\na:b\r\na:b\r\na:b\r\na:b\r\na:b\r\na:b\r\na:b\r\na:b\r\na:b\r\na:b\r\na:b\r\na:b\r\na:b\r\na:b\r\na:b\r\na:b\r\na:b\r\na:b\r\na:b\r\na:b\r\na:b\r\na:b\r\na:b\r\na:b\r\na:b\r\na:b\r\na:b\r\na:b\r\na:b\r\na:b\r\na:b\r\na:b\r\na:b\r\na:b\r\na:b\r\na:b\r\na:b\r\na:b\r\na:b\r\na:b\r\na:b\r\na:b\r\na:b\r\na:b\r\na:b\r\na:b\r\na:b\r\na:b\r\na:b\r\na:b\r\na:b\r\na:b\r\na:b\r\na:b\r\na:b\r\na:b\r\na:b\r\na:b\r\na:b\r\na:b\r\n\r\n
= 1 end TooBig link 3
"#;

#[test]
fn rows_of_http(rt: HostRuntime) -> Result<(), Fail> {
    let faults = run_rows(rt.alloc(), "http", AGREED)?;
    assert_eq!(rt; faults.as_str(), "");
    Ok(())
}

#[test]
fn requests_that_are_refused(rt: HostRuntime) -> Result<(), Fail> {
    let faults = run_rows(rt.alloc(), "http", REFUSED)?;
    assert_eq!(rt; faults.as_str(), "");
    Ok(())
}

const REQUEST: &str =
    "GET /a HTTP/1.1\r\nHost: shop.local\r\nUser-Agent: Mozilla/5.0\r\nAccept: */*\r\nAccept-Encoding: gzip, br\r\nCookie: sid=1\r\n\r\n";

/// The same as each copy is sent it.
const SENT: &str =
    "GET /a HTTP/1.1\r\nHost: shop.local\r\nUser-Agent: Mozilla/5.0\r\nAccept: */*\r\nAccept-Encoding: identity\r\nCookie: sid=1\r\n\r\n";

const FIRST_REPLY: &str =
    "HTTP/1.1 200 OK\r\nDate: Tue, 15 Nov 1994 08:12:31 GMT\r\nServer: one\r\nContent-Type: text/html\r\nTransfer-Encoding: chunked\r\n\r\n4\r\n<p>h\r\n6\r\ni</p>\n\r\n0\r\n\r\n";

const REPLY: &str =
    "HTTP/1.1 200 Fine\r\nServer: two\r\nContent-Type: text/html\r\nContent-Length: 10\r\n\r\n<p>hi</p>\n";

/// What comes of these pieces and of the end of this link.
fn cut_short(alloc: Global, pieces: &[(u8, &str)], link: u8) -> Result<Answer, Fail> {
    let pieces = script_of(alloc, pieces)?;
    let script = format!(in alloc; "{pieces}0 end {link}\n")?;
    let settings = "version = 1\nincoming = \"http\"\n";
    answer_under(alloc, &["replay", "c", "s"], settings, script.as_str())
}

#[test]
fn requests_that_are_cut_short(rt: HostRuntime) -> Result<(), Fail> {
    for count in 1..REQUEST.len() {
        let front = REQUEST.get(..count).unwrap_or("");
        let run = cut_short(rt.alloc(), &[(3, front)], 3)?;
        assert_eq!(rt; run.text.as_str(), "end Broken link 3\n");
        assert_eq!(rt; run.status, 1);
    }
    Ok(())
}

#[test]
fn replies_that_are_cut_short(rt: HostRuntime) -> Result<(), Fail> {
    let alloc = rt.alloc();
    let sends = [(1, 0, SENT), (1, 1, SENT), (1, 2, SENT)];
    let want = transcript_of(alloc, &sends, "end Broken link 2\n")?;
    for count in 1..REPLY.len() {
        let front = REPLY.get(..count).unwrap_or("");
        let pieces = [(3, REQUEST), (0, FIRST_REPLY), (1, REPLY), (2, front)];
        let run = cut_short(alloc, &pieces, 2)?;
        assert_eq!(rt; run.text.as_str(), want.as_str());
        assert_eq!(rt; run.status, 1);
    }
    Ok(())
}
