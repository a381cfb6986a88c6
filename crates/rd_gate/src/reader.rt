ghost use Rattle.std.specs.Prelude.{◌≡◌};
ghost use Rattle.rd_gate.specs.Reads.{Reads};

use crate::gate::ReaderPass;
use crate::item::Item;
use rd_base::Source;
use std::alloc::Global;
use std::sync::Wait;

/// The pieces that a reader hands on at most; a session has ended with a full log before it takes them all.
const MOST_PIECES: u32 = 1 << 20;

/// The bytes of a piece at most.
const MOST_BYTES: usize = 16_384;

/// A reader that has ended.
#[derive(Drop)]
pub struct ReaderBack<S, R: Wait + Copy> {
    pub source: S,
    pub pass: ReaderPass<R>,
}

/// Hands on each answer of the source, in order, up to the first that is no piece. Behind 1,048,576 pieces it hands on
/// an End of its own. It waits while the gate is full.
pub fn reader_loop<S: Source, R: Wait + Copy>(
    alloc: Global,
    mut source: S,
    mut pass: ReaderPass<R>,
) -> ReaderBack<S, R>
    ensures gate { result.pass.gate ≡ pass.gate }
    ensures reads { Reads (S.tells source) (S.tells result.source) pass.knows result.pass.knows }
{
    for _count in 0..MOST_PIECES {
        let item = Item::of(source.give(alloc, MOST_BYTES));
        let more = item.is_piece();
        pass.send(item);
        if !more {
            return ReaderBack { source, pass };
        }
    }
    pass.send(Item::End);
    ReaderBack { source, pass }
}
