ghost use Rattle.std.specs.Prelude.{◌≡◌, ◌<◌, ◌≤◌, ◌+◌, ◌-◌, ◌^◌, ◌%◌, ◌++◌, ◌∷◌, [], IfOk, length, find, option_map, slice_index, set};
ghost use Rattle.std.specs.List.{list_any, position_or_len};
ghost use Rattle.rd_board.specs.Latest.{lowered, mark_place, passes_at, raised};
ghost use Rattle.rd_board.specs.Notes.{fresh, has_id, is_unkept, is_unkept_of, latest, let_go, mark_first};

use circular_buffer::HeapCircularBuffer;
use rd_base::SessionNote;
use std::alloc::{AllocError, Global};
use std::marker::Model;

/// How many of the last notes are kept.
pub(crate) const MOST_NOTES: usize = 10_000;

/// Notes are counted by their ids' remainders. Ids that rise by one have a remainder each, as long as there
/// are more remainders than notes.
const BUCKETS: usize = 16_384;

/// A note, and whether it was marked kept.
#[derive(Clone, Copy, Debug, PartialEq, Eq)]
pub struct BoardNote {
    pub note: SessionNote,
    pub is_kept: bool,
}

/// The last 10,000 notes, the oldest first, in room that is taken when it is made.
#[derive(Drop)]
pub(crate) struct Latest {
    notes: HeapCircularBuffer<BoardNote>,
    counts: Vec<u16>,
    first_unkept: usize,
}

impl Model for Latest {
    ghost use Rattle.std.specs.Prelude.{List};
    ghost use Rattle.rd_board.specs.declared.latest.BoardNote.{BoardNote};
    ghost use Rattle.rd_board.specs.Latest.{KeepsLatest};

    ghost Value = { List BoardNote };

    ghost view = { λ l. l.notes.items };

    ghost invariant = { λ l. KeepsLatest l.notes l.counts.items l.first_unkept };
}

impl Latest {
    pub fn make(alloc: Global) -> Result<Latest, AllocError>
        ensures { IfOk result (λ l. l ≡ []) }
    {
        Ok(Latest {
            notes: HeapCircularBuffer::with_capacity(alloc, MOST_NOTES)?,
            counts: Vec::from_elem(alloc, 0, BUCKETS)?,
            first_unkept: 0,
        })
    }

    /// Whether a note has this id.
    pub fn holds(&self, id: u64) -> bool
        ensures { result ≡ list_any (has_id id) self.now }
    {
        self.counts[bucket_of(id)] > 0 && self.notes.iter().any(|kept| kept.note.id == id)
    }

    /// Adds a note that isn't marked kept. Where there are 10,000 the oldest goes, and is handed back.
    pub fn push(&mut self, note: &SessionNote) -> Option<BoardNote>
        ensures notes { self.new ≡ latest (self.old ++ fresh note.now ∷ []) }
        ensures let_go { result ≡ let_go self.old }
    {
        let gone = self.notes.push_back(BoardNote {
            note: *note,
            is_kept: false,
        });
        if let Some(oldest) = gone {
            count_down(&mut self.counts, oldest.note.id);
            self.first_unkept = self.first_unkept.saturating_sub(1);
        }
        count_up(&mut self.counts, note.id);
        self.first_unkept = unkept_from(&self.notes, self.first_unkept);
        gone
    }

    /// Marks the note of this id kept, where one has it.
    pub fn mark(&mut self, id: u64)
        ensures { self.new ≡ mark_first id self.old }
    {
        if self.counts[bucket_of(id)] == 0 {
            return;
        }
        let place = unkept_of(&self.notes, self.first_unkept, id);
        mark_at(&mut self.notes, place);
        self.first_unkept = unkept_from(&self.notes, self.first_unkept);
    }

    /// The oldest note that isn't marked kept.
    pub fn pending(&self) -> Option<SessionNote>
        ensures { result ≡ option_map (λ n. n.note) (find is_unkept self.now) }
    {
        match self.notes.get(self.first_unkept) {
            Some(kept) => Some(kept.note),
            None => None,
        }
    }
}

fn bucket_of(id: u64) -> usize
    ensures value { result ≡ id % 16384 }
    ensures within { result < 16384 }
{
    (id % BUCKETS as u64) as usize
}

fn count_up(counts: &mut Vec<u16>, id: u64)
    requires buckets { length counts.old.items ≡ 16384 }
    requires room { slice_index counts.old.items (id % 16384) < 2 ^ 16 - 1 }
    ensures { counts.new.items ≡ raised counts.old.items id }
{
    counts[bucket_of(id)] += 1;
}

fn count_down(counts: &mut Vec<u16>, id: u64)
    requires buckets { length counts.old.items ≡ 16384 }
    requires some { 0 < slice_index counts.old.items (id % 16384) }
    ensures { counts.new.items ≡ lowered counts.old.items id }
{
    counts[bucket_of(id)] -= 1;
}

/// The place of the first note that isn't marked kept, or behind the last. It isn't before `from`.
fn unkept_from(notes: &HeapCircularBuffer<BoardNote>, from: usize) -> usize
    requires { from ≤ position_or_len is_unkept notes.now.items }
    ensures { result ≡ position_or_len is_unkept notes.now.items }
{
    'notes: for place in from..notes.len() {
        let is_pending = is_unkept_at(notes, place);
        if is_pending {
            return place;
        }
    }
    notes.len()
}

/// The place of the first note of this id that isn't marked kept, or behind the last. It isn't before `from`.
fn unkept_of(notes: &HeapCircularBuffer<BoardNote>, from: usize, id: u64) -> usize
    requires { from ≤ position_or_len (is_unkept_of id) notes.now.items }
    ensures { result ≡ position_or_len (is_unkept_of id) notes.now.items }
{
    'notes: for place in from..notes.len() {
        let is_it = is_unkept_of_at(notes, place, id);
        if is_it {
            return place;
        }
    }
    notes.len()
}

/// Marks the note that stands there kept. Past the last none does.
fn mark_at(notes: &mut HeapCircularBuffer<BoardNote>, place: usize)
    ensures items { notes.new.items ≡ mark_place notes.old.items place }
    ensures capacity { notes.new.capacity ≡ notes.old.capacity }
{
    if let Some(kept) = notes.get_mut(place) {
        kept.is_kept = true;
    }
}

fn is_unkept_at(notes: &HeapCircularBuffer<BoardNote>, place: usize) -> bool
    ensures { result ≡ passes_at is_unkept notes.now.items place }
{
    match notes.get(place) {
        Some(kept) => !kept.is_kept,
        None => false,
    }
}

fn is_unkept_of_at(notes: &HeapCircularBuffer<BoardNote>, place: usize, id: u64) -> bool
    ensures { result ≡ passes_at (is_unkept_of id) notes.now.items place }
{
    match notes.get(place) {
        Some(kept) => kept.note.id == id && !kept.is_kept,
        None => false,
    }
}
