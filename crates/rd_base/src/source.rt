ghost use Rattle.std.specs.Prelude.{◌≤◌};
ghost use Rattle.rd_base.specs.Sources.{SourceTold, Gives};

use crate::bytes::Bytes;
use std::alloc::Global;

/// An answer of a source.
#[derive(Drop)]
pub enum Give {
    /// Bytes that were read: at least one.
    Piece(Bytes),
    /// No more bytes come.
    End,
    /// The read failed.
    Failed,
    NoMemory,
}

/// Where bytes are read from. It counts its faults, up to 2^64-1, and keeps the mark that it was made with.
/// What it answered is told by those in memory alone.
pub trait Source: Drop {
    ghost tells: { Self → SourceTold };

    /// The next answer. A piece has at most `most` bytes, which are 16,384 or more.
    fn give(&mut self, alloc: Global, most: usize) -> Give
        requires { 16384 ≤ most }
        ensures { Gives most result (tells self.old) (tells self.new) };
}
