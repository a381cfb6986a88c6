ghost use Rattle.std.specs.Prelude.{◌≡◌, false, true, is_some, Err};
ghost use Rattle.rd_base.specs.Counts.{counted};
ghost use Rattle.rd_base.specs.MemSink.{sink_tells, fault_at, FailsAfter};
ghost use Rattle.rd_base.specs.Outside.{Writes, Closes, failed};

use crate::wire::Wire;
use rd_base::{Failed, MemSink, Sink};
use std::alloc::Global;
use std::marker::Model;
use std::sync::{Arc, Wait};

/// A sink in memory that tells the source of its link what it holds. Contracts see the sink in memory.
#[derive(Drop)]
pub struct WireSink<R: Wait + Copy> {
    rt: R,
    wire: Arc<Wire, Global>,
    sink: MemSink,
}

impl<R: Wait + Copy> Model for WireSink<R> {
    ghost use Rattle.rd_base.specs.MemSink.{MemSinkView};

    ghost Value = { MemSinkView };

    ghost view = { λ s. s.sink };
}

impl<R: Wait + Copy> WireSink<R> {
    pub(crate) fn new(rt: R, wire: Arc<Wire, Global>, sink: MemSink) -> WireSink<R>
        ensures { result ≡ sink }
    {
        WireSink { rt, wire, sink }
    }

    /// The bytes that were written.
    pub fn as_slice(&self) -> &[u8]
        ensures { result.now ≡ self.now.held }
    {
        self.sink.as_slice()
    }

    /// The number of pushes that failed.
    pub fn faults(&self) -> u64
        ensures { result ≡ self.now.faults }
    {
        self.sink.faults()
    }

    pub fn is_closed(&self) -> bool
        ensures { result ≡ self.now.is_closed }
    {
        self.sink.is_closed()
    }

    fn tell(&self) {
        self.wire.tell(&self.rt, self.sink.as_slice().len(), self.sink.is_closed());
    }
}

impl<R: Wait + Copy> Sink for WireSink<R> {
    ghost tells = { sink_tells };

    fn push(&mut self, bytes: &[u8]) -> Result<(), Failed>
        requires { (sink_tells self.old).is_closed ≡ false }
        ensures writes { Writes bytes.now failed result (sink_tells self.old)
            (sink_tells self.new) }
        ensures listed { is_some (fault_at self.old.calls self.old.failing) ≡ true
            → result ≡ Err failed }
        ensures after { FailsAfter
            (fault_at self.old.calls self.old.failing) self.old.held bytes.now self.new.held }
        ensures calls { self.new.calls ≡ counted self.old.calls }
        ensures failing { self.new.failing ≡ self.old.failing }
    {
        let written = self.sink.push(bytes);
        self.tell();
        written
    }

    fn close(&mut self)
        ensures closes { Closes (sink_tells self.old) (sink_tells self.new) }
        ensures calls { self.new.calls ≡ self.old.calls }
        ensures failing { self.new.failing ≡ self.old.failing }
    {
        self.sink.close();
        self.tell();
    }
}
