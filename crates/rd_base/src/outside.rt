ghost use Rattle.std.specs.Prelude.{◌≡◌, ◌≤◌, ◌<◌, ℕ, List, false, Some, length, IfOk};
ghost use Rattle.rd_base.specs.Outside.{SinkTold, Writes, Closes, failed, FilesTold, StaysRead, NamedFile, Rose, file_of};

use crate::bytes::{Bytes, NoMemory};
use std::alloc::Global;

/// A call on the outside failed, and its object's count of faults rose.
#[derive(Clone, Copy, Debug, PartialEq, Eq)]
pub struct Failed;

/// Why a file wasn't read.
#[derive(Clone, Copy, Debug, PartialEq, Eq)]
pub enum FileFail {
    /// The read failed; a missing file is such a failure.
    Failed,
    /// The file has more bytes than were asked for at most.
    TooLong,
    NoMemory,
}

impl From<NoMemory> for FileFail {
    ghost use Rattle.rd_base.specs.declared.outside.FileFail.TheVariants as reason;

    ghost from_gives = { λ _ fail. fail ≡ reason.NoMemory };

    fn from(_none: NoMemory) -> FileFail {
        FileFail::NoMemory
    }
}

/// Where bytes are written to. It counts its faults, up to 2^64-1, and keeps the mark that it was made with.
/// What it holds is told by those in memory alone.
pub trait Sink: Drop {
    ghost tells: { Self → SinkTold };

    /// Writes all these bytes. Where that fails, a prefix of them was written.
    fn push(&mut self, bytes: &[u8]) -> Result<(), Failed>
        requires { (tells self.old).is_closed ≡ false }
        ensures { Writes bytes.now failed result (tells self.old) (tells self.new) };

    /// Ends the connection both ways, so that its reader ends.
    fn close(&mut self)
        ensures { Closes (tells self.old) (tells self.new) };
}

/// Where files are read from. It counts its faults, up to 2^64-1.
/// What its files hold is told by those in memory alone.
pub trait Files: Drop {
    ghost tells: { Self → FilesTold };

    /// All bytes of a file that has no more than these.
    fn read_all(&mut self, alloc: Global, name: &str, most: usize) -> Result<Bytes, FileFail>
        ensures ok { IfOk result
            (λ b. (all : List NamedFile) → (tells self.old).files ≡ Some all
            → file_of name.now all ≡ Some b) }
        ensures fits { IfOk result (λ b. length b ≤ most) }
        ensures too_long { result ≡ Err FileFail.TooLong → (all : List NamedFile)
            → (tells self.old).files ≡ Some all
            → (b : List ℕ) × (file_of name.now all ≡ Some b) × (most < length b) }
        ensures failed { result ≡ Err FileFail.Failed
            → Rose (tells self.old).faults (tells self.new).faults }
        ensures read { StaysRead (tells self.old) (tells self.new) };
}
