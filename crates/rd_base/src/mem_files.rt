ghost use Rattle.std.specs.Prelude.{◌≡◌, ◌≤◌, ◌<◌, ◌++◌, [], ◌∷◌, Some, None, true, ℕ, List, IfOk, ◌-◌, ◌+◌, map, find, option_map, length, bytes_eq, OnOk, OnErr, MatchOption};
ghost use Rattle.rd_base.specs.Outside.{NamedFile, Rose, StaysRead, file_of, is_listed};
ghost use Rattle.rd_base.specs.MemFiles.{files_tell, seen_file};
ghost use Rattle.rd_base.specs.Counts.{counted};

use crate::bytes::{Bytes, NoMemory};
use crate::outside::{FileFail, Files};
use std::alloc::Global;
use std::marker::Model;

#[derive(Drop)]
struct MemFile {
    name: Bytes,
    bytes: Bytes,
}

/// Files in memory, for tests.
#[derive(Drop)]
pub struct MemFiles {
    alloc: Global,
    files: Vec<MemFile>,
    faults: u64,
    calls: u64,
    failing: Vec<u64>,
}

impl Model for MemFiles {
    ghost use Rattle.std.specs.Prelude.{map};
    ghost use Rattle.rd_base.specs.MemFiles.{MemFilesView, seen_file};

    ghost Value = { MemFilesView };

    ghost view = { λ f. record {
      files = map seen_file f.files.items;
      faults = f.faults;
      calls = f.calls;
      failing = f.failing.items;
    } };
}

impl MemFiles {
    /// No files, and the numbers, from 0, of the calls that are to fail.
    pub fn new(alloc: Global, failing: Vec<u64>) -> MemFiles
        ensures { result ≡ record { files = []; faults = 0; calls = 0; failing = failing.items } }
    {
        MemFiles {
            alloc,
            files: Vec::new(alloc),
            faults: 0,
            calls: 0,
            failing,
        }
    }

    /// Adds a file behind the others. Of two files of one name the first counts.
    pub fn add(&mut self, name: &str, bytes: &[u8]) -> Result<(), NoMemory>
        ensures ok { OnOk result
            (self.new.files ≡ self.old.files
            ++ record { name = name.now; bytes = bytes.now } ∷ []) }
        ensures faults { self.new.faults ≡ self.old.faults }
        ensures calls { self.new.calls ≡ self.old.calls }
        ensures failing { self.new.failing ≡ self.old.failing }
        ensures err { OnErr result (self.new ≡ self.old) }
    {
        let file = MemFile {
            name: Bytes::from_slice(self.alloc, name.as_bytes())?,
            bytes: Bytes::from_slice(self.alloc, bytes)?,
        };
        Ok(self.files.push(file)?)
    }

    /// The number of reads that failed.
    pub fn faults(&self) -> u64
        ensures { result ≡ self.now.faults }
    {
        self.faults
    }
}

impl Files for MemFiles {
    ghost tells = { files_tell };

    fn read_all(&mut self, alloc: Global, name: &str, most: usize) -> Result<Bytes, FileFail>
        ensures ok { IfOk result
            (λ b. (all : List NamedFile) → (files_tell self.old).files ≡ Some all
            → file_of name.now all ≡ Some b) }
        ensures fits { IfOk result (λ b. length b ≤ most) }
        ensures too_long { result ≡ Err FileFail.TooLong → (all : List NamedFile)
            → (files_tell self.old).files ≡ Some all
            → (b : List ℕ) × (file_of name.now all ≡ Some b) × (most < length b) }
        ensures failed { result ≡ Err FileFail.Failed
            → Rose (files_tell self.old).faults (files_tell self.new).faults }
        ensures read { StaysRead (files_tell self.old) (files_tell self.new) }
        ensures listed { is_listed self.old.calls self.old.failing ≡ true
            → result ≡ Err FileFail.Failed }
        ensures calls { self.new.calls ≡ counted self.old.calls }
        ensures failing { self.new.failing ≡ self.old.failing }
    {
        let call = self.calls;
        self.calls = self.calls.saturating_add(1);
        if is_listed_call(call, &self.failing) {
            self.faults = self.faults.saturating_add(1);
            return Err(FileFail::Failed);
        }
        match find_file(self.files.as_slice(), name) {
            Some(bytes) => {
                if bytes.len() > most {
                    Err(FileFail::TooLong)
                } else {
                    Ok(Bytes::from_slice(alloc, bytes)?)
                }
            }
            None => {
                self.faults = self.faults.saturating_add(1);
                Err(FileFail::Failed)
            }
        }
    }
}

/// Whether this call is among those that are to fail.
pub(crate) fn is_listed_call(call: u64, failing: &[u64]) -> bool
    ensures { result ≡ is_listed call failing.now }
{
    failing.iter().any(|number| *number == call)
}

/// What is in the first file of this name.
fn find_file<'a>(files: &'a [MemFile], name: &str) -> Option<&'a [u8]>
    ensures { option_map (λ b. b.now) result ≡ file_of name.now (map seen_file files.now) }
{
    for file in files {
        if file.name.as_slice() == name.as_bytes() {
            return Some(file.bytes.as_slice());
        }
    }
    None
}
