ghost use Rattle.std.specs.Prelude.{◌≡◌, ◌≢◌, ◌<◌, ◌++◌, [], ◌∷◌, List, ℕ, length, slice_index_or, slice_get, option_map, Some, OnOk, OnErr, All};
ghost use Rattle.rd_base.specs.declared.sends.Send.{Send};

use crate::bytes::{Bytes, NoMemory};
use crate::values::Link;
use std::alloc::Global;
use std::marker::Model;

/// Bytes for one link.
#[derive(Drop)]
pub struct Send {
    pub link: Link,
    pub bytes: Bytes,
}

/// What one step sends: in the order of links, none without bytes, each link at most once.
#[derive(Drop)]
pub struct Sends {
    kept: Vec<Send>,
}

impl Model for Sends {
    ghost Value = { List Send };

    ghost view = { λ s. s.kept.items };
}

impl Sends {
    /// Nothing is sent.
    pub fn new(alloc: Global) -> Sends
        ensures { result ≡ [] }
    {
        Sends {
            kept: Vec::new(alloc),
        }
    }

    /// Adds the bytes of a further link.
    pub fn push(&mut self, link: Link, bytes: Bytes) -> Result<(), NoMemory>
        requires some { 0 < length bytes }
        requires rising { All (λ (s : Send). s.link.0 < link.0) self.old }
        ensures ok { OnOk result
            (self.new ≡ self.old ++ record { link = link; bytes = bytes } ∷ []) }
        ensures err { OnErr result (self.new ≡ self.old) }
    {
        match self.kept.push(Send { link, bytes }) {
            Ok(()) => Ok(()),
            Err(_) => Err(NoMemory),
        }
    }

    /// The number of links that are sent to.
    pub fn len(&self) -> usize
        ensures { result ≡ length self.now }
    {
        self.kept.len()
    }

    /// The link of the send that stands there, from 0.
    pub fn link_at(&self, place: usize) -> Link
        requires { place < length self.now }
        ensures { option_map (λ s. s.link) (slice_get self.now place) ≡ Some result }
    {
        self.kept[place].link
    }

    /// The bytes of the send that stands there, from 0.
    pub fn bytes_at(&self, place: usize) -> &[u8]
        requires { place < length self.now }
        ensures { option_map (λ s. s.bytes) (slice_get self.now place) ≡ Some result.now }
    {
        self.kept[place].bytes.as_slice()
    }
}
