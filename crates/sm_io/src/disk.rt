// Files by their paths, over the files of std. They tell nothing of what they hold.
ghost use Rattle.std.specs.Prelude.{◌≡◌, ◌≤◌, length, ⊤, None, IfOk, IsErrOf};
ghost use Rattle.sm_io.specs.Causes.{HasCause, count_after};
ghost use Rattle.sm_io.specs.Files.{ReadsFile, WritesFile, file_failed};

use crate::{FileRefusal, Files, ReadRefusal, StdSource, read_all};
use std::alloc::Global;
use std::{fs, rt};

/// Files whose names are paths, as the runtime `R` opens them. Each name may be read and written.
#[derive(Drop)]
pub struct DiskFiles<R> {
    runtime: R,
    alloc: Global,
    read_faults: u64,
    write_faults: u64,
}

impl<R: rt::Files> DiskFiles<R> {
    /// The files of this runtime, without a fault so far.
    pub fn new(alloc: Global, runtime: R) -> Self
        ensures read_faults { ⟦<DiskFiles<R> as Files>⟧.read_faults result ≡ 0 }
        ensures write_faults { ⟦<DiskFiles<R> as Files>⟧.write_faults result ≡ 0 }
    {
        DiskFiles {
            runtime,
            alloc,
            read_faults: 0,
            write_faults: 0,
        }
    }
}

// The bytes of a file. At most `limit` bytes and one buffer are held at a time; no clause says so.
fn load<R: rt::Files>(
    alloc: Global,
    runtime: &R,
    path: &str,
    limit: u64,
) -> Result<Vec<u8>, ReadRefusal>
    ensures { IfOk result (λ bytes. length bytes.items ≤ limit) }
{
    match fs::open(runtime, path) {
        Ok(file) => read_all(alloc, &mut StdSource::new(file), limit),
        Err(_) => Err(ReadRefusal::Failed),
    }
}

impl<R: rt::Files> Files for DiskFiles<R> {
    ghost held = { λ s. None };

    ghost read_faults = { λ s. s.read_faults };

    ghost write_faults = { λ s. s.write_faults };

    ghost lets_read = { λ s name. ⊤ };

    ghost lets_write = { λ s name. ⊤ };

    fn read(&mut self, name: &str, limit: u64) -> Result<Vec<u8>, FileRefusal>
        ensures bytes { ReadsFile None name.now limit result }
        ensures later { ⟦<DiskFiles<R> as Files>⟧.read_faults self.old ≤ ⟦<DiskFiles<R> as Files>⟧.read_faults self.new }
        ensures other_count { ⟦<DiskFiles<R> as Files>⟧.write_faults self.new ≡ ⟦<DiskFiles<R> as Files>⟧.write_faults self.old }
        ensures cause { HasCause (IsErrOf result FileRefusal.Failed) (⟦<DiskFiles<R> as Files>⟧.read_faults self.old)
            (⟦<DiskFiles<R> as Files>⟧.read_faults self.new) }
        ensures faults { ⟦<DiskFiles<R> as Files>⟧.read_faults self.new ≡ count_after (file_failed result)
            (⟦<DiskFiles<R> as Files>⟧.read_faults self.old) }
    {
        match load(self.alloc, &self.runtime, name, limit) {
            Ok(bytes) => Ok(bytes),
            Err(ReadRefusal::TooLong) => Err(FileRefusal::TooLong),
            Err(ReadRefusal::NoMemory) => Err(FileRefusal::NoMemory),
            Err(ReadRefusal::Failed) => {
                self.read_faults = self.read_faults.saturating_add(1);
                Err(FileRefusal::Failed)
            }
        }
    }

    fn write(&mut self, name: &str, bytes: &[u8]) -> Result<(), FileRefusal>
        ensures bytes { WritesFile None None name.now bytes.now result }
        ensures later { ⟦<DiskFiles<R> as Files>⟧.write_faults self.old ≤ ⟦<DiskFiles<R> as Files>⟧.write_faults self.new }
        ensures other_count { ⟦<DiskFiles<R> as Files>⟧.read_faults self.new ≡ ⟦<DiskFiles<R> as Files>⟧.read_faults self.old }
        ensures cause { HasCause (IsErrOf result FileRefusal.Failed) (⟦<DiskFiles<R> as Files>⟧.write_faults self.old)
            (⟦<DiskFiles<R> as Files>⟧.write_faults self.new) }
        ensures faults { ⟦<DiskFiles<R> as Files>⟧.write_faults self.new ≡ count_after (file_failed result)
            (⟦<DiskFiles<R> as Files>⟧.write_faults self.old) }
    {
        match fs::write(&self.runtime, name, bytes) {
            Ok(()) => Ok(()),
            Err(_) => {
                self.write_faults = self.write_faults.saturating_add(1);
                Err(FileRefusal::Failed)
            }
        }
    }
}
