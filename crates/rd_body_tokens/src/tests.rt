use crate::{BodyKind, next_body_token};
use rd_base::{Beside, Bytes, Cursor, NoMemory, TokenKind};
use std::alloc::Global;
use std::process::Abort;

const FIRST: Cursor = Cursor {
    at: 0,
    mode: 0,
    left: 0,
    mark: 0,
    beside: Beside {
        from: 0,
        to: 0,
        at: 0,
        left: 0,
    },
};

fn letter(kind: TokenKind) -> &'static [u8] {
    match kind {
        TokenKind::Soft => b"S",
        TokenKind::Firm => b"F",
        TokenKind::Name => b"N",
    }
}

/// The tokens of a body or a part of one are these, each as the letter of its kind, its bytes and a `|`.
fn has_tokens(
    rt: &impl Abort,
    alloc: Global,
    kind: BodyKind,
    body: &[u8],
    whole: bool,
    wanted: &[u8],
) -> Result<(), NoMemory> {
    assert!(rt; body.len() < 10_000);
    let mut list = Bytes::new(alloc);
    let mut cursor = FIRST;
    for _ in 0..body.len() + 1 {
        let Some((span, next)) = next_body_token(kind, body, whole, cursor) else {
            assert_eq!(rt; list.as_slice(), wanted, "{body:?}");
            return Ok(());
        };
        assert!(rt; span.start <= span.end && span.end as usize <= body.len());
        list.push_slice(letter(span.kind))?;
        list.push_slice(&body[span.start as usize..span.end as usize])?;
        list.push_slice(b"|")?;
        cursor = next;
    }
    assert!(rt; false, "too many tokens of {body:?}");
    Ok(())
}

#[test]
fn json(rt: HostRuntime) -> Result<(), NoMemory> {
    let alloc = rt.alloc();
    let body = b"{\"a\\\"b\": -1.5, \"\"]x".as_slice();
    let wanted = b"F{|F\"|Sa\\\"b|F\"|F:|F |S-1.5|F,|F |F\"|F\"|F]|Sx|".as_slice();
    has_tokens(&rt, alloc, BodyKind::Json, body, true, wanted)?;
    has_tokens(&rt, alloc, BodyKind::Json, body, false, &wanted[..42])?;
    // Behind the escaped quote and the `b`, and behind the quote that ends the string.
    has_tokens(&rt, alloc, BodyKind::Json, &body[..6], false, &wanted[..6])?;
    has_tokens(&rt, alloc, BodyKind::Json, &body[..7], false, &wanted[..15])
}

#[test]
fn form(rt: HostRuntime) -> Result<(), NoMemory> {
    let alloc = rt.alloc();
    let body = b"=a=b&k&t=c".as_slice();
    let wanted = b"F=|Sa=b|F&|Fk|F&|Ft|F=|Sc|".as_slice();
    has_tokens(&rt, alloc, BodyKind::Form, body, true, wanted)?;
    has_tokens(&rt, alloc, BodyKind::Form, body, false, &wanted[..23])?;
    has_tokens(&rt, alloc, BodyKind::Form, &body[..4], false, &wanted[..3])
}

/// Where the first token ends, and whether another follows it.
fn first_end(kind: BodyKind, body: &[u8], whole: bool) -> Option<(u32, bool)> {
    if body.len() >= 10_000 {
        return None;
    }
    let (span, next) = next_body_token(kind, body, whole, FIRST)?;
    Some((span.end, next_body_token(kind, body, whole, next).is_some()))
}

#[test]
fn blocks(rt: HostRuntime) {
    let body = [7; 5000];
    assert_eq!(rt; first_end(BodyKind::Raw, &body, false), Some((4096, false)));
    assert_eq!(rt; first_end(BodyKind::Raw, &body, true), Some((4096, true)));
}
