ghost use Rattle.std.specs.Prelude.{◌≡◌, ◌≤◌, ◌-◌, ◌^◌, [], None, Ok, Err, find, filter, length, take, drop, insert, slice_get, IfOk, OnErr, OnOk, if◌then◌else◌};
ghost use Rattle.rd_base.specs.Outside.{Rose};
ghost use Rattle.rd_base.specs.Counts.{counted};
ghost use Rattle.rd_keeper.specs.Keeping.{KeeperTold, Answers, FailsListed, HasCause, Puts, is_listed, mem_tells};
ghost use Rattle.rd_keeper.specs.Notes.{AreRising, has_id, notes_from, greatest_id, is_from, is_below, is_id_in};

use crate::keeper::{KeepFail, Keeper, Put};
use crate::notes::Notes;
use rd_base::{NoMemory, SessionNote};
use std::alloc::Global;
use std::marker::Model;

/// A keeper in memory, for tests and for serving without a store.
#[derive(Drop)]
pub struct MemKeeper {
    alloc: Global,
    notes: Vec<SessionNote>,
    faults: u64,
    calls: u64,
    failing: Vec<u64>,
}

impl Model for MemKeeper {
    ghost use Rattle.rd_keeper.specs.Notes.{AreRising};
    ghost use Rattle.rd_keeper.specs.Keeping.{MemKeeperView};

    ghost Value = { MemKeeperView };

    ghost view = { λ k. record {
      notes = k.notes.items;
      faults = k.faults;
      calls = k.calls;
      failing = k.failing.items;
    } };

    ghost invariant = { λ k. AreRising k.notes.items };
}

impl MemKeeper {
    /// A keeper without notes, and the numbers, from 0, of the calls that are to fail.
    pub fn new(alloc: Global, failing: Vec<u64>) -> MemKeeper
        ensures { result ≡ record { notes = []; faults = 0; calls = 0; failing = failing.items } }
    {
        MemKeeper {
            alloc,
            notes: Vec::new(alloc),
            faults: 0,
            calls: 0,
            failing,
        }
    }

    /// The number of calls that failed.
    pub fn faults(&self) -> u64
        ensures { result ≡ self.now.faults }
    {
        self.faults
    }
}

impl Keeper for MemKeeper {
    ghost tells = { mem_tells };

    fn put(&mut self, entry: &SessionNote) -> Result<Put, KeepFail>
        requires id { entry.now.id ≤ 2 ^ 63 - 1 }
        requires began { entry.now.began ≤ 2 ^ 63 - 1 }
        requires ended { entry.now.ended ≤ 2 ^ 63 - 1 }
        ensures notes { Puts entry.now result (mem_tells self.old) (mem_tells self.new) }
        ensures cause { HasCause result (mem_tells self.old) (mem_tells self.new) }
        ensures listed { FailsListed result self.old self.new }
    {
        count_call(&mut self.calls, &mut self.faults, &self.failing)?;
        let place = place_of(&self.notes, entry.id);
        if is_id_at(&self.notes, place, entry.id) {
            return Ok(Put::Repeat);
        }
        insert_at(&mut self.notes, place, *entry)?;
        Ok(Put::Fresh)
    }

    fn one(&mut self, id: u64) -> Result<Option<SessionNote>, KeepFail>
        ensures found { Answers result (find (has_id id)) (mem_tells self.old) }
        ensures notes { (mem_tells self.new).notes ≡ (mem_tells self.old).notes }
        ensures cause { HasCause result (mem_tells self.old) (mem_tells self.new) }
        ensures listed { FailsListed result self.old self.new }
    {
        count_call(&mut self.calls, &mut self.faults, &self.failing)?;
        let place = place_of(&self.notes, id);
        Ok(note_at(&self.notes, place, id))
    }

    fn page(&mut self, from: u64, count: u16) -> Result<Notes, KeepFail>
        ensures found { Answers result (λ notes. take count (notes_from from notes))
            (mem_tells self.old) }
        ensures notes { (mem_tells self.new).notes ≡ (mem_tells self.old).notes }
        ensures cause { HasCause result (mem_tells self.old) (mem_tells self.new) }
        ensures listed { FailsListed result self.old self.new }
    {
        count_call(&mut self.calls, &mut self.faults, &self.failing)?;
        let rest = &self.notes[place_of(&self.notes, from)..];
        let count = rest.len().min(count as usize);
        Ok(Notes::from_slice(self.alloc, &rest[..count])?)
    }

    fn greatest(&mut self) -> Result<Option<u64>, KeepFail>
        ensures found { Answers result greatest_id (mem_tells self.old) }
        ensures notes { (mem_tells self.new).notes ≡ (mem_tells self.old).notes }
        ensures cause { HasCause result (mem_tells self.old) (mem_tells self.new) }
        ensures listed { FailsListed result self.old self.new }
    {
        count_call(&mut self.calls, &mut self.faults, &self.failing)?;
        match self.notes.last() {
            Some(note) => Ok(Some(note.id)),
            None => Ok(None),
        }
    }
}

/// Counts a call, which fails where its number is listed.
fn count_call(calls: &mut u64, faults: &mut u64, failing: &[u64]) -> Result<(), KeepFail>
    ensures ok { OnOk result (faults.new ≡ faults.old) }
    ensures rose { OnErr result (Rose faults.old faults.new) }
    ensures value { result ≡ (if is_listed calls.old failing.now
        then Err KeepFail.Failed else Ok tt) }
    ensures calls { calls.new ≡ counted calls.old }
{
    let call = *calls;
    *calls = calls.saturating_add(1);
    if failing.contains(&call) {
        *faults = faults.saturating_add(1);
        return Err(KeepFail::Failed);
    }
    Ok(())
}

/// The place of the first note from this id on, or behind the last.
fn place_of(notes: &[SessionNote], id: u64) -> usize
    requires { AreRising notes.now }
    ensures within { result ≤ length notes.now }
    ensures below { filter (is_below id) notes.now ≡ take result notes.now }
    ensures from { filter (is_from id) notes.now ≡ drop result notes.now }
{
    notes.partition_point(|note| note.id < id)
}

/// Whether the note that stands there has this id.
fn is_id_at(notes: &[SessionNote], place: usize, id: u64) -> bool
    ensures { result ≡ is_id_in id (slice_get notes.now place) }
{
    match notes.get(place) {
        Some(note) => note.id == id,
        None => false,
    }
}

/// The note that stands there, where it has this id.
fn note_at(notes: &[SessionNote], place: usize, id: u64) -> Option<SessionNote>
    ensures { result ≡ (if is_id_in id (slice_get notes.now place)
        then slice_get notes.now place else None) }
{
    match notes.get(place) {
        Some(note) if note.id == id => Some(*note),
        _ => None,
    }
}

/// Puts a note before the one that stands there.
fn insert_at(notes: &mut Vec<SessionNote>, place: usize, note: SessionNote) -> Result<(), NoMemory>
    requires { place ≤ length notes.old.items }
    ensures ok { OnOk result (notes.new.items ≡ insert notes.old.items place note) }
    ensures err { OnErr result (notes.new.items ≡ notes.old.items) }
{
    match notes.insert(place, note) {
        Ok(()) => Ok(()),
        Err(_) => Err(NoMemory),
    }
}
