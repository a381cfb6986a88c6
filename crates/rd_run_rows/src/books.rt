use crate::links::{Script, Trouble};
use crate::runs::{Outcome, run_scripts};
use rd_base::{Bytes, Ending, NoMemory, Row, Side};
use rd_wire::{Call, MemBook};
use std::alloc::Global;
use std::rt::HostRuntime;
use std::sync::Wait;
use std::test::Fail;
use std::thread::Threads;

/// A page with a word of each instance's own; the last one's differs beside its word where they don't agree.
fn run_page<R: Wait + Threads + Copy + Send + Sync + 'static>(
    rt: R,
    alloc: Global,
    agree: bool,
    book: &mut MemBook<R>,
) -> Result<Outcome, NoMemory> {
    let last: Script = if agree {
        (&[b"id page-word-copy-2 ok\n"], &[5, 6])
    } else {
        (&[b"id page-word-copy-2 no\n"], &[5, 6])
    };
    let scripts: [Script; 4] = [
        (&[b"id page-word-copy-0 ok\n"], &[5, 5]),
        (&[b"id page-word-copy-1 ok\n"], &[5, 6]),
        last,
        (&[b"page\n"], &[0, 23]),
    ];
    let texts: [&[u8]; 4] = [b"page\n", b"page\n", b"page\n", b"id page-word-copy-0 ok\n"];
    run_scripts(
        rt,
        alloc,
        Side::Incoming,
        scripts,
        texts,
        Trouble::None,
        book,
    )
}

/// A form that sends the page's word back, and another one that no page had. Each instance is sent its own word, and answers
/// with two further words of its own.
fn run_form<R: Wait + Threads + Copy + Send + Sync + 'static>(
    rt: R,
    alloc: Global,
    book: &mut MemBook<R>,
) -> Result<Outcome, NoMemory> {
    let scripts: [Script; 4] = [
        (&[b"form-word-copy-0 next-word-copy-0\n"], &[39, 40]),
        (&[b"form-word-copy-1 next-word-copy-1\n"], &[39, 40]),
        (&[b"form-word-copy-2 next-word-copy-2\n"], &[39, 40]),
        (&[b"send page-word-copy-0 lost-word-copy-0\n"], &[0, 34]),
    ];
    let texts: [&[u8]; 4] = [
        b"send page-word-copy-0 lost-word-copy-0\n",
        b"send page-word-copy-1 lost-word-copy-0\n",
        b"send page-word-copy-2 lost-word-copy-0\n",
        b"form-word-copy-0 next-word-copy-0\n",
    ];
    run_scripts(
        rt,
        alloc,
        Side::Incoming,
        scripts,
        texts,
        Trouble::None,
        book,
    )
}

fn push_row(text: &mut Bytes, row: &Row) -> Result<(), NoMemory> {
    for copy in 0..row.len() {
        text.push_slice(b" ")?;
        text.push_slice(row.own(copy))?;
    }
    Ok(())
}

fn push_call(text: &mut Bytes, call: &Call) -> Result<(), NoMemory> {
    match call {
        Call::Found(word, answer) => {
            text.push_slice(b"find ")?;
            text.push_slice(word.as_slice())?;
            match answer {
                Some(row) => {
                    text.push_slice(b":")?;
                    push_row(text, row)?;
                }
                None => (),
            }
        }
        Call::Learned(row) => {
            text.push_slice(b"learn")?;
            push_row(text, row)?;
        }
    }
    text.push_slice(b"\n")
}

/// The calls of a book, a line each.
fn calls_text<R: Wait + Copy>(alloc: Global, book: &MemBook<R>) -> Result<Bytes, NoMemory> {
    let mut text = Bytes::new(alloc);
    for place in 0..book.len() {
        push_call(&mut text, book.at(place))?;
    }
    Ok(text)
}

fn is_over(run: &Outcome) -> bool {
    matches!(run.ending, Ending::Done | Ending::Closed { .. }) && run.exchanges == 1 && run.whole
}

/// One session learns the row of a page. Another one, whose request has the row's word, is told the row: it asks for each
/// word in order, and then learns each row of its reply in order.
#[test]
fn a_book_that_sessions_share(rt: HostRuntime) -> Result<(), Fail> {
    let mut book = MemBook::new(rt, rt.alloc(), 9);
    let page = run_page(rt, rt.alloc(), true, &mut book)?;
    let form = run_form(rt, rt.alloc(), &mut book)?;
    assert!(rt; is_over(&page) && page.held == [5, 5, 5, 23] && page.told == 0);
    assert!(rt; is_over(&form) && form.held == [39, 39, 39, 34] && form.told == 1);
    let calls = calls_text(rt.alloc(), &book)?;
    let wanted: &[u8] = b"learn page-word-copy-0 page-word-copy-1 page-word-copy-2
find page-word-copy-0: page-word-copy-0 page-word-copy-1 page-word-copy-2
find lost-word-copy-0
learn form-word-copy-0 form-word-copy-1 form-word-copy-2
learn next-word-copy-0 next-word-copy-1 next-word-copy-2
";
    assert_eq!(rt; calls.as_slice(), wanted);
    Ok(())
}

/// Of replies that disagree nothing is learnt. A row that isn't taken for want of memory ends its session before its reply is
/// sent, and the item that met it is left over.
#[test]
fn rows_that_are_not_learnt(rt: HostRuntime) -> Result<(), Fail> {
    let mut book = MemBook::new(rt, rt.alloc(), 0);
    let page = run_page(rt, rt.alloc(), false, &mut book)?;
    assert!(rt;
        matches!(
            page.ending,
            Ending::Disagree {
                exchange: 1,
                copy: 2,
                place: 4
            }
        )
    );
    assert!(rt; page.held == [5, 5, 5, 0] && page.whole && book.len() == 0);
    let page = run_page(rt, rt.alloc(), true, &mut book)?;
    assert_eq!(rt; page.ending, Ending::NoMemory);
    assert!(rt; page.held == [5, 5, 5, 0] && page.whole && book.len() == 0);
    Ok(())
}
