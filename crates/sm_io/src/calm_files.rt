// Files in memory whose reads and writes never fail: their counts of faults are the constant 0.
ghost use Rattle.std.specs.Prelude.{◌≡◌, ⊤, Some, OnOk, OnErr, IsErrOf, option_copied};
ghost use Rattle.std.specs.FinMap.{get};
ghost use Rattle.sm_io.specs.Files.{folder_of, with_file, WritesFile};
ghost use Rattle.sm_io.specs.Files.Others.{empty_file};

use crate::named::{NamedFiles, copy_within};
use crate::{FileRefusal, Files};
use std::alloc::{AllocError, Global};

/// Files in memory that never fail, where every name without a file stands for an empty one.
#[derive(Drop)]
pub struct CalmFiles {
    files: NamedFiles,
}

impl CalmFiles {
    ghost use Rattle.sm_io.specs.Memory.{calm_folder};

    /// These files. Of two with one name the first counts.
    pub fn new(alloc: Global, files: Vec<(String, Vec<u8>)>) -> Self
        ensures { ⟦<CalmFiles as Files>⟧.held result ≡ Some (folder_of files.items empty_file) }
    {
        CalmFiles {
            files: NamedFiles::new(alloc, files),
        }
    }

    /// The bytes that are kept under this name, or `None` where none are kept and the name stands for an empty file.
    pub fn file(&self, name: &str) -> Option<&[u8]>
        ensures { option_copied result ≡ get (calm_folder self.now).named name.now }
    {
        self.files.get(name)
    }
}

impl Files for CalmFiles {
    ghost use Rattle.sm_io.specs.Memory.{calm_folder};

    ghost held = { λ s. Some (calm_folder s) };

    ghost read_faults = { λ s. 0 };

    ghost write_faults = { λ s. 0 };

    ghost lets_read = { λ s name. ⊤ };

    ghost lets_write = { λ s name. ⊤ };

    fn read(&mut self, name: &str, limit: u64) -> Result<Vec<u8>, FileRefusal> {
        match self.files.get(name) {
            Some(bytes) => copy_within(self.files.alloc(), bytes, limit),
            None => Ok(Vec::new(self.files.alloc())),
        }
    }

    fn write(&mut self, name: &str, bytes: &[u8]) -> Result<(), FileRefusal>
        ensures bytes { WritesFile (Some (calm_folder self.old)) (Some (calm_folder self.new)) name.now bytes.now result }
        ensures calm { IsErrOf result FileRefusal.Failed → ⊥ }
        ensures written { OnOk result (calm_folder self.new ≡ with_file (calm_folder self.old) name.now bytes.now) }
        ensures nothing { OnErr result (calm_folder self.new ≡ calm_folder self.old) }
    {
        match self.files.put(name, bytes) {
            Ok(()) => Ok(()),
            Err(AllocError) => Err(FileRefusal::NoMemory),
        }
    }
}
