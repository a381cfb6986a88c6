ghost use Rattle.std.specs.Prelude.{◌≡◌, ◌≤◌, All, IfOk};
ghost use Rattle.rd_base.specs.MemSource.{IsPiece};

use crate::{WireSink, WireSource, mem_wire};
use rd_base::{Bytes, Give, MemSink, MemSource, NoMemory, PushFault, Sink, Source};
use std::alloc::Global;
use std::rt::HostRuntime;
use std::sync::Wait;
use std::sync::atomic::{AtomicBool, Ordering};
use std::test::Fail;
use std::thread::{Parker, join};
use std::time::Duration;

/// A source of the pieces 'a' and 'b', and a sink with these faults, tied.
fn wires<R: Wait + Copy>(
    rt: R,
    alloc: Global,
    after: &[u32],
    faults: Vec<PushFault>,
) -> Result<(WireSource<R>, WireSink<R>), NoMemory> {
    let source = MemSource::new(alloc, 1, 2, pieces(alloc)?, Vec::new(alloc))?;
    let sink = MemSink::new(alloc, 1, 2, faults);
    mem_wire(rt, alloc, source, after, sink)
}

fn pieces(alloc: Global) -> Result<Vec<Bytes>, NoMemory>
    ensures { IfOk result (λ v. All IsPiece v.items) }
{
    let mut pieces = Vec::new(alloc);
    for letter in [b'a', b'b'] {
        pieces.push(Bytes::from_slice(alloc, &[letter])?)?;
    }
    Ok(pieces)
}

/// The letter of the source's next answer.
fn next<R: Wait + Copy>(alloc: Global, source: &mut WireSource<R>) -> char {
    match source.give(alloc, 16_384) {
        Give::Piece(bytes) => match bytes.as_slice().first() {
            Some(letter) => char::from(*letter),
            None => '-',
        },
        Give::End => '.',
        Give::Failed => '!',
        Give::NoMemory => '?',
    }
}

fn push<R: Wait + Copy>(sink: &mut WireSink<R>, bytes: &[u8]) -> bool {
    !sink.is_closed() && sink.push(bytes).is_ok()
}

/// Sends a request in two parts, a while after the source was asked.
fn ask<R: Wait + Copy>(rt: &R, asked: &AtomicBool, sink: &mut WireSink<R>) -> bool {
    Parker::new().park_timeout(rt, Duration::from_millis(20));
    let first = push(sink, b"get");
    Parker::new().park_timeout(rt, Duration::from_millis(20));
    asked.store(true, Ordering::SeqCst);
    first && push(sink, b" a\n")
}

/// The first answer, and whether the request had been sent when it came.
fn answer<R: Wait + Copy>(
    alloc: Global,
    asked: &AtomicBool,
    source: &mut WireSource<R>,
) -> (char, bool) {
    let letter = next(alloc, source);
    (letter, asked.load(Ordering::SeqCst))
}

/// The first piece comes behind six bytes, and the others at once.
#[test]
fn a_reply_that_waits(rt: HostRuntime) -> Result<(), Fail> {
    let alloc = rt.alloc();
    let (mut source, mut sink) = wires(rt, alloc, &[6], Vec::new(alloc))?;
    let asked = AtomicBool::new(false);
    let (sent, first) = join(
        &rt,
        || ask(&rt, &asked, &mut sink),
        || answer(alloc, &asked, &mut source),
    );
    assert!(rt; sent);
    assert_eq!(rt; first, ('a', true));
    assert_eq!(rt; next(alloc, &mut source), 'b');
    assert_eq!(rt; next(alloc, &mut source), '.');
    assert_eq!(rt; sink.as_slice(), b"get a\n".as_slice());
    Ok(())
}

/// A push that fails after two bytes: an answer that waits for more comes once the sink is closed.
#[test]
fn a_sink_that_fails(rt: HostRuntime) -> Result<(), Fail> {
    let alloc = rt.alloc();
    let faults = vec![in alloc; PushFault { call: 0, after: 2 }]?;
    let (mut source, mut sink) = wires(rt, alloc, &[0, 2, 6], faults)?;
    assert_eq!(rt; next(alloc, &mut source), 'a');
    assert!(rt; !push(&mut sink, b"get a\n"));
    assert_eq!(rt; sink.as_slice(), b"ge".as_slice());
    assert_eq!(rt; sink.faults(), 1);
    assert_eq!(rt; next(alloc, &mut source), 'b');
    sink.close();
    assert!(rt; sink.is_closed());
    assert_eq!(rt; next(alloc, &mut source), '.');
    Ok(())
}
