ghost use Rattle.std.specs.Prelude.{◌≡◌, ◌≤◌, ◌<◌, ◌+◌, ℕ, IfOk, length, suc, vec_len, vec_capacity};
ghost use Rattle.rd_doors.specs.Visits.{AreFresh, ends_told};

use crate::flag::Flag;
use crate::links::{TcpSink, TcpSource, make_link, shut};
use rd_base::{NoMemory, Sink, Source};
use rd_doors::Ends;
use std::alloc::Global;
use std::net::TcpStream;
use std::rt::Clock;

/// The most links of a visit.
const MOST_LINKS: u64 = 9;

/// The links of a visit over these connections, in their order. On want of memory all are closed.
pub fn make_ends<R: Clock + Copy>(
    rt: R,
    alloc: Global,
    number: u64,
    streams: Vec<TcpStream>,
    stop: &Flag,
    wait_ms: u64,
) -> Result<Ends<TcpSource, TcpSink<R>>, NoMemory>
    ensures number { IfOk result (λ e. e.number ≡ number) }
    ensures fresh { IfOk result
        (λ e. (copies : ℕ) → length e.sources.items ≡ suc copies → AreFresh copies
        (ends_told ⟦<TcpSource as Source>⟧.tells ⟦<TcpSink<R> as Sink>⟧.tells e)) }
{
    let mut sources = Vec::with_capacity(alloc, MOST_LINKS as usize)?;
    let mut sinks = Vec::with_capacity(alloc, MOST_LINKS as usize)?;
    let mut link = 0;
    let mut is_whole = true;
    for stream in streams {
        if link == MOST_LINKS || !is_whole {
            shut(&stream);
            is_whole = false;
            continue;
        }
        match make_link(rt, alloc, stream, stop, number, link, wait_ms) {
            Ok((source, sink)) => {
                sources.push_reserved(source);
                sinks.push_reserved(sink);
                link += 1;
            }
            Err(NoMemory) => is_whole = false,
        }
    }
    if is_whole {
        return Ok(Ends {
            number,
            sources,
            sinks,
        });
    }
    close_all(sinks);
    Err(NoMemory)
}

/// Closes these.
pub fn close_all<R: Clock + Copy>(sinks: Vec<TcpSink<R>>) {
    for sink in sinks {
        let mut sink = sink;
        sink.close();
    }
}
