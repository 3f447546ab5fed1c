// Files by name, in memory.
ghost use Rattle.std.specs.Prelude.{◌≡◌, ℕ, List, OnOk, OnErr, IsErrOf, Option, Some, option_copied};
ghost use Rattle.std.specs.FinMap.{get, insert};
ghost use Rattle.sm_io.specs.Files.{Folder, Holds, ReadsFile};

use crate::FileRefusal;
use std::alloc::{AllocError, Global};

/// Files by name. Of two with one name the first counts.
#[derive(Drop)]
pub(super) struct NamedFiles {
    alloc: Global,
    files: Vec<(String, Vec<u8>)>,
}

impl NamedFiles {
    ghost use Rattle.sm_io.specs.steps.Named.{alloc_of, files_of, map_of, IsFilePlace};

    /// These files.
    pub(super) fn new(alloc: Global, files: Vec<(String, Vec<u8>)>) -> Self
        ensures alloc { alloc_of result ≡ alloc }
        ensures files { files_of result ≡ files.items }
    {
        NamedFiles { alloc, files }
    }

    /// The allocator for copies of the files.
    pub(super) fn alloc(&self) -> Global
        ensures { result ≡ alloc_of self.now }
    {
        self.alloc
    }

    /// The bytes of the file, if there is one of that name.
    pub(super) fn get(&self, name: &str) -> Option<&[u8]>
        ensures { option_copied result ≡ get (map_of self.now) name.now }
    {
        match self.place(name) {
            Some(place) => Some(self.files[place].1.as_slice()),
            None => None,
        }
    }

    /// Puts a file of these bytes in the place of the one of that name, or adds one.
    pub(super) fn put(&mut self, name: &str, bytes: &[u8]) -> Result<(), AllocError>
        ensures put { OnOk result (map_of self.new ≡ insert (map_of self.old) name.now bytes.now) }
        ensures kept { OnErr result (files_of self.new ≡ files_of self.old) }
        ensures alloc { alloc_of self.new ≡ alloc_of self.old }
    {
        let copy = Vec::from_slice(self.alloc, bytes)?;
        match self.place(name) {
            Some(place) => self.files[place].1 = copy,
            None => self
                .files
                .push((String::from_str(self.alloc, name)?, copy))?,
        }
        Ok(())
    }

    // The place of the first file of that name.
    fn place(&self, name: &str) -> Option<usize>
        ensures { IsFilePlace (files_of self.now) name.now result }
    {
        for (index, file) in self.files.iter().enumerate() {
            if file.0.as_str() == name {
                return Some(index);
            }
        }
        None
    }
}

// A copy of the bytes of a file, if they are within the limit.
pub(super) fn copy_within(alloc: Global, bytes: &[u8], limit: u64) -> Result<Vec<u8>, FileRefusal>
    // Whatever name stands for these bytes.
    ensures read { (told : Option Folder) (name : List ℕ) → Holds told name (Some bytes.now)
        → ReadsFile told name limit result }
    ensures calm { IsErrOf result FileRefusal.Failed → ⊥ }
{
    if bytes.len() as u64 > limit {
        return Err(FileRefusal::TooLong);
    }
    match Vec::from_slice(alloc, bytes) {
        Ok(copy) => Ok(copy),
        Err(_) => Err(FileRefusal::NoMemory),
    }
}
