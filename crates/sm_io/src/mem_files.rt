// Files in memory whose reads and writes fail in the calls they were told, and reads of names without a file.
ghost use Rattle.std.specs.Prelude.{◌≡◌, ◌≤◌, ◌↔◌, ◌⊎◌, [], ⊤, None, Some, OnOk, OnErr, IsErrOf, IsTrue, option_copied};
ghost use Rattle.sm_io.specs.Causes.{HasCause, count_after};
ghost use Rattle.sm_io.specs.Files.{file_at, file_failed, folder_of, with_file, ReadsFile, WritesFile};
ghost use Rattle.sm_io.specs.Files.Others.{nothing};
ghost use Rattle.sm_io.specs.Script.{script_after, is_failing};

use crate::named::{NamedFiles, copy_within};
use crate::script::FailingCalls;
use crate::{FileRefusal, Files};
use std::alloc::{AllocError, Global};

/// Files in memory that fail in the calls they were told. Every name without a file stands for nothing, and reading it fails.
#[derive(Drop)]
pub struct MemFiles {
    files: NamedFiles,
    failing: FailingCalls,
    read_faults: u64,
    write_faults: u64,
}

impl MemFiles {
    ghost use Rattle.sm_io.specs.Memory.{mem_folder, files_script};

    /// These files. Of two with one name the first counts.
    /// The reads and writes that `failing` lists, counted from 1 in one sequence, fail.
    pub fn new(alloc: Global, files: Vec<(String, Vec<u8>)>, failing: Vec<u64>) -> Self
        ensures held { ⟦<MemFiles as Files>⟧.held result ≡ Some (folder_of files.items nothing) }
        ensures read_faults { ⟦<MemFiles as Files>⟧.read_faults result ≡ 0 }
        ensures write_faults { ⟦<MemFiles as Files>⟧.write_faults result ≡ 0 }
        ensures script { files_script result ≡ record { cuts = []; failing = failing.items; calls = 0 } }
    {
        MemFiles {
            files: NamedFiles::new(alloc, files),
            failing: FailingCalls { failing, calls: 0 },
            read_faults: 0,
            write_faults: 0,
        }
    }

    /// The bytes of the file that the name stands for, or `None` where it stands for nothing.
    pub fn file(&self, name: &str) -> Option<&[u8]>
        ensures { option_copied result ≡ file_at (mem_folder self.now) name.now }
    {
        self.files.get(name)
    }
}

impl Files for MemFiles {
    ghost use Rattle.sm_io.specs.Memory.{mem_folder, files_script};

    ghost held = { λ s. Some (mem_folder s) };

    ghost read_faults = { λ s. s.read_faults };

    ghost write_faults = { λ s. s.write_faults };

    ghost lets_read = { λ s name. ⊤ };

    ghost lets_write = { λ s name. ⊤ };

    fn read(&mut self, name: &str, limit: u64) -> Result<Vec<u8>, FileRefusal>
        ensures bytes { ReadsFile (Some (mem_folder self.old)) name.now limit result }
        ensures held { mem_folder self.new ≡ mem_folder self.old }
        ensures later { ⟦<MemFiles as Files>⟧.read_faults self.old ≤ ⟦<MemFiles as Files>⟧.read_faults self.new }
        ensures other_count { ⟦<MemFiles as Files>⟧.write_faults self.new ≡ ⟦<MemFiles as Files>⟧.write_faults self.old }
        ensures cause { HasCause (IsErrOf result FileRefusal.Failed) (⟦<MemFiles as Files>⟧.read_faults self.old)
            (⟦<MemFiles as Files>⟧.read_faults self.new) }
        ensures faults { ⟦<MemFiles as Files>⟧.read_faults self.new ≡ count_after (file_failed result)
            (⟦<MemFiles as Files>⟧.read_faults self.old) }
        ensures script { files_script self.new ≡ script_after (files_script self.old) }
        ensures failing { IsErrOf result FileRefusal.Failed
            ↔ IsTrue (is_failing (files_script self.new)) ⊎ (file_at (mem_folder self.old) name.now ≡ None) }
    {
        if self.failing.next_fails() {
            self.read_faults = self.read_faults.saturating_add(1);
            return Err(FileRefusal::Failed);
        }
        match self.files.get(name) {
            Some(bytes) => copy_within(self.files.alloc(), bytes, limit),
            None => {
                self.read_faults = self.read_faults.saturating_add(1);
                Err(FileRefusal::Failed)
            }
        }
    }

    fn write(&mut self, name: &str, bytes: &[u8]) -> Result<(), FileRefusal>
        ensures bytes { WritesFile (Some (mem_folder self.old)) (Some (mem_folder self.new)) name.now bytes.now result }
        ensures later { ⟦<MemFiles as Files>⟧.write_faults self.old ≤ ⟦<MemFiles as Files>⟧.write_faults self.new }
        ensures other_count { ⟦<MemFiles as Files>⟧.read_faults self.new ≡ ⟦<MemFiles as Files>⟧.read_faults self.old }
        ensures cause { HasCause (IsErrOf result FileRefusal.Failed) (⟦<MemFiles as Files>⟧.write_faults self.old)
            (⟦<MemFiles as Files>⟧.write_faults self.new) }
        ensures faults { ⟦<MemFiles as Files>⟧.write_faults self.new ≡ count_after (file_failed result)
            (⟦<MemFiles as Files>⟧.write_faults self.old) }
        ensures script { files_script self.new ≡ script_after (files_script self.old) }
        ensures failing { IsErrOf result FileRefusal.Failed ↔ IsTrue (is_failing (files_script self.new)) }
        ensures written { OnOk result (mem_folder self.new ≡ with_file (mem_folder self.old) name.now bytes.now) }
        ensures nothing { OnErr result (mem_folder self.new ≡ mem_folder self.old) }
    {
        if self.failing.next_fails() {
            self.write_faults = self.write_faults.saturating_add(1);
            return Err(FileRefusal::Failed);
        }
        match self.files.put(name, bytes) {
            Ok(()) => Ok(()),
            Err(AllocError) => Err(FileRefusal::NoMemory),
        }
    }
}
