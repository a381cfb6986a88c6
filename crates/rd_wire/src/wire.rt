ghost use Rattle.std.specs.Prelude.{◌≡◌, IfOk};

use crate::sink::WireSink;
use crate::source::WireSource;
use rd_base::{MemSink, MemSource, NoMemory};
use std::alloc::Global;
use std::sync::{Arc, Condvar, Mutex, Wait};

/// How many bytes a sink holds, and whether it was closed.
#[derive(Clone, Copy)]
struct Sent {
    bytes: u64,
    closed: bool,
}

/// What a link's source and sink share.
#[derive(Drop)]
pub(crate) struct Wire {
    sent: Mutex<Sent>,
    changed: Condvar,
}

impl Wire {
    /// Tells a source that waits what the sink now holds.
    pub(crate) fn tell<R: Wait>(&self, rt: &R, bytes: usize, closed: bool) {
        let mut sent = self.sent.lock(rt);
        *sent = Sent {
            bytes: bytes as u64,
            closed,
        };
        self.changed.notify_all();
    }

    /// Waits until the sink holds this many bytes, or was closed.
    pub(crate) fn wait_for<R: Wait>(&self, rt: &R, bytes: u64) {
        let _sent = self.changed.wait_while(rt, self.sent.lock(rt), |sent| {
            sent.bytes < bytes && !sent.closed
        });
    }
}

/// Ties a source to the sink of its link: its answer of number i, from 0, waits until the sink holds `after[i]` bytes
/// or was closed. The answers behind these don't wait. What both tell is as it was.
pub fn mem_wire<R: Wait + Copy>(
    rt: R,
    alloc: Global,
    source: MemSource,
    after: &[u32],
    sink: MemSink,
) -> Result<(WireSource<R>, WireSink<R>), NoMemory>
    ensures { IfOk result (λ ends. (ends.0 ≡ source) × (ends.1 ≡ sink)) }
{
    let mut waits = Vec::new(alloc);
    waits.extend_from_slice(after)?;
    let wire = Arc::new(
        alloc,
        Wire {
            sent: Mutex::new(Sent {
                bytes: sink.as_slice().len() as u64,
                closed: sink.is_closed(),
            }),
            changed: Condvar::new(),
        },
    )?;
    let theirs = Arc::try_clone(&wire)?;
    Ok((
        WireSource::new(rt, theirs, waits, source),
        WireSink::new(rt, wire, sink),
    ))
}
