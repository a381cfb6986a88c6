ghost use Rattle.std.specs.Prelude.{◌≡◌, ◌≤◌};
ghost use Rattle.rd_base.specs.MemSource.{Takes, mem_tells};
ghost use Rattle.rd_base.specs.Sources.{Gives};

use crate::wire::Wire;
use rd_base::{Give, MemSource, Source};
use std::alloc::Global;
use std::marker::Model;
use std::sync::{Arc, Wait};

/// A source in memory whose answers wait for what its link was sent. Contracts see the source in memory.
#[derive(Drop)]
pub struct WireSource<R: Wait + Copy> {
    rt: R,
    wire: Arc<Wire, Global>,
    after: Vec<u32>,
    calls: usize,
    source: MemSource,
}

impl<R: Wait + Copy> Model for WireSource<R> {
    ghost use Rattle.rd_base.specs.MemSource.{MemSourceView};

    ghost Value = { MemSourceView };

    ghost view = { λ s. s.source };
}

impl<R: Wait + Copy> WireSource<R> {
    pub(crate) fn new(
        rt: R,
        wire: Arc<Wire, Global>,
        after: Vec<u32>,
        source: MemSource,
    ) -> WireSource<R>
        ensures { result ≡ source }
    {
        WireSource {
            rt,
            wire,
            after,
            calls: 0,
            source,
        }
    }
}

impl<R: Wait + Copy> Source for WireSource<R> {
    ghost tells = { mem_tells };

    fn give(&mut self, alloc: Global, most: usize) -> Give
        requires { 16384 ≤ most }
        ensures gives { Gives most result (mem_tells self.old) (mem_tells self.new) }
        ensures contents { Takes self.old result self.new.left }
    {
        if let Some(bytes) = self.after.get(self.calls) {
            self.wire.wait_for(&self.rt, u64::from(*bytes));
        }
        self.calls = self.calls.saturating_add(1);
        self.source.give(alloc, most)
    }
}
