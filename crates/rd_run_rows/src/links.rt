ghost use Rattle.std.specs.Prelude.{◌≡◌, All, IfOk, false, vec_len};
ghost use Rattle.rd_base.specs.Limits.{AreLimits};
ghost use Rattle.rd_base.specs.MemSink.{sink_tells};
ghost use Rattle.rd_base.specs.MemSource.{IsPiece};

use rd_base::{Bytes, Limits, Link, MaskLimits, MemSink, MemSource, NoMemory, PushFault};
use rd_wire::{WireSink, WireSource, mem_wire};
use std::alloc::Global;
use std::sync::Wait;

/// What goes wrong in a run: the number of a source's call, a sink's push, a start, or the turn of a stop, each from 0.
#[derive(Clone, Copy)]
pub enum Trouble {
    None,
    Read(Link, u64),
    Push(Link, PushFault),
    Start(u64),
    Stop(u64),
}

pub fn limits() -> Limits
    ensures limits { AreLimits result }
    ensures three { result.copies ≡ 3 }
{
    Limits {
        copies: 3,
        unit_max: 1_048_576,
        exchanges_max: 10_000,
        idle_ms: 60_000,
        request_ms: 30_000,
        gather_ms: 5_000,
        reply_ms: 30_000,
        mask: MaskLimits {
            places: 64,
            bytes: 128,
        },
    }
}

/// What a source gives: these pieces and then its end, each once so many bytes were sent to its link.
pub type Script<'a> = (&'a [&'a [u8]], &'a [u32]);

/// A text as pieces of at most 16,384 bytes.
pub fn push_pieces(alloc: Global, pieces: &mut Vec<Bytes>, text: &[u8]) -> Result<(), NoMemory>
    requires { All IsPiece pieces.old.items }
    ensures { All IsPiece pieces.new.items }
{
    for part in text.chunks(16_384) {
        if !part.is_empty() && part.len() <= 16_384 {
            let piece = Bytes::from_slice(alloc, part)?;
            pieces.push(piece)?;
        }
    }
    Ok(())
}

fn pieces(alloc: Global, texts: &[&[u8]]) -> Result<Vec<Bytes>, NoMemory>
    ensures { IfOk result (λ v. All IsPiece v.items) }
{
    let mut pieces = Vec::new(alloc);
    for text in texts {
        push_pieces(alloc, &mut pieces, text)?;
    }
    Ok(pieces)
}

/// The calls of the source of this link that fail.
fn failing_calls(alloc: Global, link: u8, trouble: Trouble) -> Result<Vec<u64>, NoMemory> {
    let mut calls = Vec::new(alloc);
    if let Trouble::Read(Link(of), call) = trouble {
        if of == link {
            calls.push(call)?;
        }
    }
    Ok(calls)
}

/// The pushes to the sink of this link that fail.
fn failing_pushes(alloc: Global, link: u8, trouble: Trouble) -> Result<Vec<PushFault>, NoMemory> {
    let mut pushes = Vec::new(alloc);
    if let Trouble::Push(Link(of), fault) = trouble {
        if of == link {
            pushes.push(fault)?;
        }
    }
    Ok(pushes)
}

/// The starts that are refused.
pub fn refused_starts(alloc: Global, trouble: Trouble) -> Result<Vec<u64>, NoMemory> {
    let mut starts = Vec::new(alloc);
    if let Trouble::Start(start) = trouble {
        starts.push(start)?;
    }
    Ok(starts)
}

/// What the stopper answers.
pub fn stops(alloc: Global, trouble: Trouble) -> Result<Vec<bool>, NoMemory> {
    let mut answers = Vec::new(alloc);
    if let Trouble::Stop(turn) = trouble {
        for _turn in 0..turn {
            answers.push(false)?;
        }
        answers.push(true)?;
    }
    Ok(answers)
}

/// The ends of a link whose source gives these pieces.
fn ends<R: Wait + Copy>(
    rt: R,
    alloc: Global,
    link: u8,
    pieces: Vec<Bytes>,
    after: &[u32],
    trouble: Trouble,
) -> Result<(WireSource<R>, WireSink<R>), NoMemory>
    requires { All IsPiece pieces.items }
    ensures { IfOk result (λ e. (sink_tells e.1).is_closed ≡ false) }
{
    let calls = failing_calls(alloc, link, trouble)?;
    let pushes = failing_pushes(alloc, link, trouble)?;
    let source = MemSource::new(alloc, 7, u64::from(link), pieces, calls)?;
    let sink = MemSink::new(alloc, 7, u64::from(link), pushes);
    mem_wire(rt, alloc, source, after, sink)
}

/// The sources and the sinks of four links, in order.
pub fn links<R: Wait + Copy>(
    rt: R,
    alloc: Global,
    scripts: [Script; 4],
    trouble: Trouble,
) -> Result<(Vec<WireSource<R>>, Vec<WireSink<R>>), NoMemory>
    ensures sources { IfOk result (λ e. vec_len e.0 ≡ 4) }
    ensures sinks { IfOk result (λ e. vec_len e.1 ≡ 4) }
    ensures open { IfOk result (λ e. All (λ s. (sink_tells s).is_closed ≡ false) e.1.items) }
{
    let mut sources = Vec::new(alloc);
    let mut sinks = Vec::new(alloc);
    for link in 0..4u8 {
        let (texts, after) = scripts[usize::from(link)];
        let (source, sink) = ends(rt, alloc, link, pieces(alloc, texts)?, after, trouble)?;
        sources.push(source)?;
        sinks.push(sink)?;
    }
    Ok((sources, sinks))
}

/// A line of so many bytes, in pieces of the greatest size.
fn line_pieces(alloc: Global, bytes: usize) -> Result<Vec<Bytes>, NoMemory>
    ensures { IfOk result (λ v. All IsPiece v.items) }
{
    let mut line = Bytes::new(alloc);
    for _byte in 1..bytes {
        line.push_slice(b"x")?;
    }
    line.push_slice(b"\n")?;
    let mut pieces = Vec::new(alloc);
    push_pieces(alloc, &mut pieces, line.as_slice())?;
    Ok(pieces)
}

/// The links of a client with a request of two pieces of the greatest size, and of instances that reply in one each.
pub fn long_links<R: Wait + Copy>(
    rt: R,
    alloc: Global,
) -> Result<(Vec<WireSource<R>>, Vec<WireSink<R>>), NoMemory>
    ensures sources { IfOk result (λ e. vec_len e.0 ≡ 4) }
    ensures sinks { IfOk result (λ e. vec_len e.1 ≡ 4) }
    ensures open { IfOk result (λ e. All (λ s. (sink_tells s).is_closed ≡ false) e.1.items) }
{
    let mut sources = Vec::new(alloc);
    let mut sinks = Vec::new(alloc);
    for link in 0..4u8 {
        let (bytes, after): (usize, [u32; 3]) = if link == 3 {
            (32_768, [0, 0, 16_384])
        } else {
            (16_384, [32_768, 32_768, 0])
        };
        let pieces = line_pieces(alloc, bytes)?;
        let (source, sink) = ends(rt, alloc, link, pieces, &after, Trouble::None)?;
        sources.push(source)?;
        sinks.push(sink)?;
    }
    Ok((sources, sinks))
}
