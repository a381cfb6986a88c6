ghost use Rattle.std.specs.Prelude.{◌≡◌, ◌≤◌, All, IfOk};
ghost use Rattle.rd_base.specs.MemSource.{IsPiece};

use crate::{Item, OwnerPass, ReaderBack, ReaderPass, make_gate, reader_loop};
use rd_base::{Bytes, Link, MemSource, NoMemory};
use std::alloc::Global;
use std::rt::HostRuntime;
use std::sync::Wait;
use std::test::Fail;
use std::time::Duration;

/// A source of one piece a letter, of which the calls of these numbers fail.
fn letters(alloc: Global, text: &[u8], failing: Vec<u64>) -> Result<MemSource, NoMemory> {
    MemSource::new(alloc, 1, 2, pieces(alloc, text)?, failing)
}

fn pieces(alloc: Global, text: &[u8]) -> Result<Vec<Bytes>, NoMemory>
    ensures { IfOk result (λ v. All IsPiece v.items) }
{
    let mut pieces = Vec::new(alloc);
    for letter in text {
        let piece = Bytes::from_slice(alloc, &[*letter])?;
        pieces.push(piece)?;
    }
    Ok(pieces)
}

/// A letter for each item: the first of a piece, or a sign.
fn sign(item: &Item) -> char {
    match item {
        Item::Piece(bytes) => match bytes.as_slice().first() {
            Some(letter) => char::from(*letter),
            None => '-',
        },
        Item::End => '.',
        Item::ReadFail => '!',
        Item::NoMemory => '?',
    }
}

/// All that the gate holds, with a digit for each item's link.
fn taken<R: Wait + Copy>(alloc: Global, owner: &mut OwnerPass<R>) -> Result<String, Fail>
    ensures { owner.new.gate ≡ owner.old.gate }
{
    let mut text = String::new(alloc);
    for _ in 0..100u8 {
        match owner.take() {
            Some((Link(link), item)) => {
                text.push(char::from(b'0'.saturating_add(link)))?;
                text.push(sign(&item))?;
            }
            None => return Ok(text),
        }
    }
    Ok(text)
}

/// Pushes a piece of this letter, and gives the sign of what comes back.
fn push<R: Wait + Copy>(
    alloc: Global,
    reader: &mut ReaderPass<R>,
    letter: u8,
) -> Result<Option<char>, NoMemory> {
    let piece = Bytes::from_slice(alloc, &[letter])?;
    match reader.push(Item::Piece(piece)) {
        Ok(()) => Ok(None),
        Err(back) => Ok(Some(sign(&back))),
    }
}

/// The 65th item comes back, and 64 are taken in order.
#[test]
fn a_full_gate(rt: HostRuntime) -> Result<(), Fail> {
    let alloc = rt.alloc();
    let (mut owner, mut passes) = make_gate(rt, alloc, 4)?;
    let Some(mut reader) = passes.next() else {
        panic!(rt; "no pass");
    };
    let mut want = String::new(alloc);
    for number in 0..64u8 {
        assert_eq!(rt; push(alloc, &mut reader, b'0' + number)?, None);
        want.push('0')?;
        want.push(char::from(b'0' + number))?;
    }
    assert_eq!(rt; push(alloc, &mut reader, b'z')?, Some('z'));
    let text = taken(alloc, &mut owner)?;
    assert_eq!(rt; text.as_str(), want.as_str());
    assert_eq!(rt; push(alloc, &mut reader, b'z')?, None);
    let text = taken(alloc, &mut owner)?;
    assert_eq!(rt; text.as_str(), "0z");
    Ok(())
}

/// What a reader hands on of three pieces where its call of this number fails, and its source's count of faults.
fn read<R: Wait + Copy>(rt: R, alloc: Global, call: u64) -> Result<(String, u64), Fail> {
    let (mut owner, mut passes) = make_gate(rt, alloc, 4)?;
    let Some(pass) = passes.next() else {
        return Ok((String::new(alloc), 0));
    };
    let source = letters(alloc, b"abc", vec![in alloc; call]?)?;
    let ReaderBack { source, pass } = reader_loop(alloc, source, pass);
    let text = taken(alloc, &mut owner)?;
    owner.take_in(pass);
    owner.rest(Duration::from_millis(1));
    Ok((text, source.faults()))
}

#[test]
fn a_reader_whose_calls_fail(rt: HostRuntime) -> Result<(), Fail> {
    for (call, want) in [
        (0u64, "0!"),
        (1, "0a0!"),
        (2, "0a0b0!"),
        (3, "0a0b0c0!"),
        (4, "0a0b0c0."),
    ] {
        let (text, faults) = read(rt, rt.alloc(), call)?;
        assert_eq!(rt; text.as_str(), want);
        assert_eq!(rt; faults, if call < 4 { 1 } else { 0 });
    }
    Ok(())
}
