ghost use Rattle.std.specs.Prelude.{◌≡◌, ◌≤◌, ◌-◌, ◌^◌, find, filter, nat_le, option_map, take};
ghost use Rattle.rd_keeper.specs.Keeping.{KeeperTold, Answers, HasCause, Puts};
ghost use Rattle.rd_keeper.specs.Notes.{has_id, notes_from, greatest_id};

use crate::notes::Notes;
use rd_base::{NoMemory, SessionNote};

/// What a put came to.
#[derive(Clone, Copy, Debug, PartialEq, Eq)]
pub enum Put {
    /// The note is kept.
    Fresh,
    /// A note of this id was kept before, and stays.
    Repeat,
}

/// Why a keeper didn't answer. Nothing has changed.
#[derive(Clone, Copy, Debug, PartialEq, Eq)]
pub enum KeepFail {
    /// The store failed, and the keeper's count of faults rose.
    Failed,
    NoMemory,
}

impl From<NoMemory> for KeepFail {
    ghost use Rattle.rd_keeper.specs.declared.keeper.KeepFail.TheVariants as fail;

    ghost from_gives = { λ _ e. e ≡ fail.NoMemory };

    fn from(_none: NoMemory) -> KeepFail {
        KeepFail::NoMemory
    }
}

/// Where the notes of ended sessions are kept, one of each id. It counts its faults, up to 2^64-1.
/// What it keeps is told by those in memory alone.
pub trait Keeper: Drop {
    ghost tells: { Self → KeeperTold };

    /// Keeps a note, or leaves all as it was where one of its id is kept. The id and both moments are at most 2^63-1.
    fn put(&mut self, entry: &SessionNote) -> Result<Put, KeepFail>
        requires id { entry.now.id ≤ 2 ^ 63 - 1 }
        requires began { entry.now.began ≤ 2 ^ 63 - 1 }
        requires ended { entry.now.ended ≤ 2 ^ 63 - 1 }
        ensures notes { Puts entry.now result (tells self.old) (tells self.new) }
        ensures cause { HasCause result (tells self.old) (tells self.new) };

    /// The note of this id.
    fn one(&mut self, id: u64) -> Result<Option<SessionNote>, KeepFail>
        ensures found { Answers result (find (has_id id)) (tells self.old) }
        ensures notes { (tells self.new).notes ≡ (tells self.old).notes }
        ensures cause { HasCause result (tells self.old) (tells self.new) };

    /// The notes from this id on, by rising id, and no more than `count`.
    fn page(&mut self, from: u64, count: u16) -> Result<Notes, KeepFail>
        ensures found { Answers result (λ notes. take count (notes_from from notes))
            (tells self.old) }
        ensures notes { (tells self.new).notes ≡ (tells self.old).notes }
        ensures cause { HasCause result (tells self.old) (tells self.new) };

    /// The greatest id of a note.
    fn greatest(&mut self) -> Result<Option<u64>, KeepFail>
        ensures found { Answers result greatest_id (tells self.old) }
        ensures notes { (tells self.new).notes ≡ (tells self.old).notes }
        ensures cause { HasCause result (tells self.old) (tells self.new) };
}
