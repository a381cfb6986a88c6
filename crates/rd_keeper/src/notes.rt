ghost use Rattle.std.specs.Prelude.{◌≡◌, ◌<◌, length, slice_index_or, IfOk, OnOk, OnErr, ◌++◌, ◌∷◌, []};

use rd_base::{NoMemory, SessionNote};
use std::alloc::Global;
use std::marker::Model;

/// A list of notes.
#[derive(Drop)]
pub struct Notes {
    kept: Vec<SessionNote>,
}

impl Model for Notes {
    ghost use Rattle.std.specs.Prelude.{List};
    ghost use Rattle.rd_base.specs.declared.session_note.SessionNote.{SessionNote};

    ghost Value = { List SessionNote };

    ghost view = { λ n. n.kept.items };
}

impl Notes {
    /// The empty list.
    pub(crate) fn new(alloc: Global) -> Notes
        ensures { result ≡ [] }
    {
        Notes {
            kept: Vec::new(alloc),
        }
    }

    /// A copy of these notes.
    pub(crate) fn from_slice(alloc: Global, notes: &[SessionNote]) -> Result<Notes, NoMemory>
        ensures { IfOk result (λ n. n ≡ notes.now) }
    {
        match Vec::from_slice(alloc, notes) {
            Ok(kept) => Ok(Notes { kept }),
            Err(_) => Err(NoMemory),
        }
    }

    /// Appends a note.
    pub(crate) fn push(&mut self, note: SessionNote) -> Result<(), NoMemory>
        ensures ok { OnOk result (self.new ≡ self.old ++ note ∷ []) }
        ensures err { OnErr result (self.new ≡ self.old) }
    {
        match self.kept.push(note) {
            Ok(()) => Ok(()),
            Err(_) => Err(NoMemory),
        }
    }

    /// The number of notes.
    pub fn len(&self) -> usize
        ensures { result ≡ length self.now }
    {
        self.kept.len()
    }

    /// The note that stands there, from 0.
    pub fn at(&self, place: usize) -> &SessionNote
        requires { place < length self.now }
        ensures { result.now ≡ slice_index_or self.now place result.now }
    {
        &self.kept[place]
    }
}
