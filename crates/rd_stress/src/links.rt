ghost use Rattle.std.specs.Prelude.{◌≡◌, ◌+◌, ◌≤◌, All, IfOk, false, vec_len};
ghost use Rattle.rd_base.specs.MemSink.{sink_tells};
ghost use Rattle.rd_base.specs.MemSource.{IsPiece};

use crate::plan::Plan;
use crate::random::Random;
use crate::source::LateSource;
use rd_base::{Bytes, Link, MemSink, MemSource, NoMemory, PushFault};
use rd_wire::{WireSink, mem_wire};
use std::alloc::Global;
use std::sync::Wait;

/// What a link's source gives, and how many bytes its sink has to hold before each.
#[derive(Drop)]
struct Speech {
    pieces: Vec<Bytes>,
    after: Vec<u32>,
}

impl Speech {
    /// Says a text behind so many bytes, in pieces of at most this size.
    fn say(
        &mut self,
        alloc: Global,
        random: &mut Random,
        text: &[u8],
        most: u32,
        after: u32,
    ) -> Result<(), NoMemory>
        requires { All IsPiece self.old.pieces.items }
        ensures { All IsPiece self.new.pieces.items }
    {
        let mut rest = text;
        let mut after = after;
        for _ in 0..text.len() {
            let count = (1 + random.below(most) as usize).min(rest.len());
            if count == 0 || count > 16_384 {
                break;
            }
            let (piece, more) = rest.split_at(count);
            self.pieces.push(Bytes::from_slice(alloc, piece)?)?;
            self.after.push(after)?;
            rest = more;
            after = 0;
        }
        Ok(())
    }
}

fn bytes_of(text: &String) -> u32 {
    u32::try_from(text.len()).unwrap_or(u32::MAX)
}

/// What this link says in a session of this number.
fn speech_of(
    alloc: Global,
    plan: &Plan,
    session: u32,
    link: Link,
    random: &mut Random,
) -> Result<Speech, NoMemory>
    ensures { IfOk result (λ s. All IsPiece s.pieces.items) }
{
    let asks = plan.asks(link);
    let mut speech = Speech {
        pieces: Vec::new(alloc),
        after: Vec::new(alloc),
    };
    let mut asked: u32 = 0;
    let mut told: u32 = 0;
    for exchange in 0..plan.exchanges {
        let request = plan.request(alloc, session, exchange)?;
        let is_good = !random.hits(plan.troubles);
        let reply = plan.reply(alloc, session, exchange, link, is_good)?;
        let before = told;
        asked = asked.saturating_add(bytes_of(&request));
        told = told.saturating_add(bytes_of(&reply));
        let (text, most, after) = if asks {
            (request.as_bytes(), plan.request_piece, before)
        } else {
            (reply.as_bytes(), plan.reply_piece, asked)
        };
        let after = if random.hits(plan.troubles) { 0 } else { after };
        speech.say(alloc, random, text, most, after)?;
    }
    let last = if asks && plan.ends { told } else { u32::MAX };
    let last = if random.hits(plan.troubles) { 0 } else { last };
    speech.after.push(last)?;
    Ok(speech)
}

/// The ends of this link.
fn ends_of<R: Wait + Copy>(
    rt: R,
    alloc: Global,
    plan: &Plan,
    session: u32,
    link: Link,
    random: &mut Random,
) -> Result<(LateSource<R>, WireSink<R>), NoMemory>
    ensures { IfOk result (λ e. (sink_tells e.1).is_closed ≡ false) }
{
    let speech = speech_of(alloc, plan, session, link, random)?;
    let mut reads = Vec::new(alloc);
    if random.hits(plan.troubles) {
        reads.push(u64::from(random.below(6)))?;
    }
    let mut pushes = Vec::new(alloc);
    if random.hits(plan.troubles) {
        pushes.push(PushFault {
            call: u64::from(random.below(2)),
            after: random.below(40) as usize,
        })?;
    }
    let Speech { pieces, after } = speech;
    let source = MemSource::new(alloc, 7, u64::from(link.0), pieces, reads)?;
    let sink = MemSink::new(alloc, 7, u64::from(link.0), pushes);
    let (source, sink) = mem_wire(rt, alloc, source, after.as_slice(), sink)?;
    let random = Random::new(u64::from(random.below(u32::MAX)));
    Ok((
        LateSource::new(rt, alloc, link, source, random, plan.delays),
        sink,
    ))
}

/// The sources and the sinks of all links, in order.
pub fn links_of<R: Wait + Copy>(
    rt: R,
    alloc: Global,
    plan: &Plan,
    session: u32,
    random: &mut Random,
) -> Result<(Vec<LateSource<R>>, Vec<WireSink<R>>), NoMemory>
    requires { plan.now.copies ≤ 8 }
    ensures sources { IfOk result (λ e. vec_len e.0 ≡ plan.now.copies + 1) }
    ensures sinks { IfOk result (λ e. vec_len e.1 ≡ plan.now.copies + 1) }
    ensures open { IfOk result (λ e. All (λ s. (sink_tells s).is_closed ≡ false) e.1.items) }
{
    let mut sources = Vec::new(alloc);
    let mut sinks = Vec::new(alloc);
    for link in 0..plan.copies + 1 {
        let (source, sink) = ends_of(rt, alloc, plan, session, Link(link), random)?;
        sources.push(source)?;
        sinks.push(sink)?;
    }
    Ok((sources, sinks))
}
