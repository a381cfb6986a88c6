ghost use Rattle.std.specs.Prelude.{◌≡◌, ◌≤◌, ◌<◌, ◌++◌, [], ◌∷◌, List, ℕ, length, map, slice_index_or, IfOk, OnOk, OnErr};
ghost use Rattle.std.specs.List.{list_any};
ghost use Rattle.std.specs.Char.{to_ascii_lowercase};
ghost use Rattle.std.specs.Str.{str_eq_ignore_ascii_case};

use crate::bytes::{Bytes, NoMemory};
use std::alloc::Global;
use std::marker::Model;

/// A list of names in lower-case ASCII.
#[derive(Drop)]
pub struct Names {
    kept: Vec<Bytes>,
    alloc: Global,
}

impl Model for Names {
    ghost Value = { List (List ℕ) };

    ghost view = { λ n. n.kept.items };
}

impl Names {
    /// The empty list.
    pub fn new(alloc: Global) -> Names
        ensures { result ≡ [] }
    {
        Names {
            kept: Vec::new(alloc),
            alloc,
        }
    }

    /// Appends this name, in lower-case ASCII.
    pub fn push(&mut self, name: &[u8]) -> Result<(), NoMemory>
        ensures ok { OnOk result (self.new ≡ self.old ++ map to_ascii_lowercase name.now ∷ []) }
        ensures err { OnErr result (self.new ≡ self.old) }
    {
        let lower = Bytes::lower_case(self.alloc, name)?;
        match self.kept.push(lower) {
            Ok(()) => Ok(()),
            Err(_) => Err(NoMemory),
        }
    }

    /// A copy of the list.
    pub fn copied(&self, alloc: Global) -> Result<Names, NoMemory>
        ensures { IfOk result (λ n. n ≡ self.now) }
    {
        let mut names = Names::new(alloc);
        for name in self.kept.as_slice() {
            let name = Bytes::from_slice(alloc, name.as_slice())?;
            if names.kept.push(name).is_err() {
                return Err(NoMemory);
            }
        }
        Ok(names)
    }

    /// Whether this name is in the list, whatever the case of its ASCII letters.
    pub fn has(&self, name: &[u8]) -> bool
        ensures { result ≡ list_any (λ kept. str_eq_ignore_ascii_case kept name.now) self.now }
    {
        let names = self.kept.as_slice();
        names.iter().any(|kept| is_same_name(kept, name))
    }

    pub fn len(&self) -> usize
        ensures { result ≡ length self.now }
    {
        self.kept.len()
    }

    pub fn at(&self, place: usize) -> &[u8]
        requires { place < length self.now }
        ensures { result.now ≡ slice_index_or self.now place result.now }
    {
        self.kept[place].as_slice()
    }
}

fn is_same_name(kept: &Bytes, name: &[u8]) -> bool
    ensures { result ≡ str_eq_ignore_ascii_case kept.now name.now }
{
    kept.as_slice().eq_ignore_ascii_case(name)
}

/// Names of values by which a session treats them otherwise: not compared, never masked, always noise.
#[derive(Drop)]
pub struct NameRules {
    pub pass: Names,
    pub firm: Names,
    pub free: Names,
}
