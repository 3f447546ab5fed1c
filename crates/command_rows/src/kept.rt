// Files in memory of which a read or a write of the next run may fail, or a read come behind a change.
ghost use Rattle.std.specs.Prelude.{◌≡◌, None, ⊤};

use sm_io::{FileRefusal, Files, MemFiles};
use sm_tree::NoMemory;
use std::alloc::Global;

/// A change of a file: before this read, counted from 1, the name comes to stand for these bytes.
#[derive(Drop)]
pub struct Change {
    read: u64,
    name: String,
    bytes: Vec<u8>,
}

impl Change {
    /// Before this read the name comes to stand for this text.
    pub fn new(alloc: Global, read: u64, name: &str, text: &str) -> Result<Self, NoMemory> {
        let name = String::from_str(alloc, name)?;
        let bytes = Vec::from_slice(alloc, text.as_bytes())?;
        Ok(Change { read, name, bytes })
    }
}

/// Files in memory. They tell nothing of what they hold, since one may change between two reads.
#[derive(Drop)]
pub struct KeptFiles {
    files: MemFiles,
    change: Option<Change>,
    failing: u64,
    reads: u64,
    failing_write: u64,
    writes: u64,
    read_faults: u64,
    write_faults: u64,
}

impl KeptFiles {
    /// No files. Reading a name without a file fails.
    pub fn new(alloc: Global) -> Self {
        KeptFiles {
            files: MemFiles::new(alloc, Vec::new(alloc), Vec::new(alloc)),
            change: None,
            failing: 0,
            reads: 0,
            failing_write: 0,
            writes: 0,
            read_faults: 0,
            write_faults: 0,
        }
    }

    /// Before the next run the change that was asked for last is this.
    pub fn change(&mut self, change: Change) {
        self.change = Some(change);
    }

    /// A run begins, of which this read and this write fail, counted from 1; 0 fails none.
    pub fn begin(&mut self, read: u64, write: u64) {
        self.failing = read;
        self.reads = 0;
        self.failing_write = write;
        self.writes = 0;
    }

    /// It has ended: what was asked of its reads and writes counts no more.
    pub fn end(&mut self) {
        self.failing = 0;
        self.failing_write = 0;
        self.change = None;
    }

    /// The bytes for which the name stands.
    pub fn file(&self, name: &str) -> Option<&[u8]> {
        self.files.file(name)
    }

    // Does the change before the read at which it is due.
    fn change_now(&mut self)
        ensures reads { self.new.read_faults ≡ self.old.read_faults }
        ensures writes { self.new.write_faults ≡ self.old.write_faults }
    {
        if let Some(change) = &self.change {
            if change.read == self.reads {
                let _ = self
                    .files
                    .write(change.name.as_str(), change.bytes.as_slice());
            }
        }
    }
}

impl Files for KeptFiles {
    ghost held = { λ s. None };

    ghost read_faults = { λ s. s.read_faults };

    ghost write_faults = { λ s. s.write_faults };

    ghost lets_read = { λ s name. ⊤ };

    ghost lets_write = { λ s name. ⊤ };

    fn read(&mut self, name: &str, limit: u64) -> Result<Vec<u8>, FileRefusal> {
        self.reads = self.reads.saturating_add(1);
        if self.reads == self.failing {
            self.read_faults = self.read_faults.saturating_add(1);
            return Err(FileRefusal::Failed);
        }
        self.change_now();
        match self.files.read(name, limit) {
            Ok(bytes) => Ok(bytes),
            Err(FileRefusal::TooLong) => Err(FileRefusal::TooLong),
            Err(FileRefusal::NoMemory) => Err(FileRefusal::NoMemory),
            Err(FileRefusal::Failed) => {
                self.read_faults = self.read_faults.saturating_add(1);
                Err(FileRefusal::Failed)
            }
        }
    }

    fn write(&mut self, name: &str, bytes: &[u8]) -> Result<(), FileRefusal> {
        self.writes = self.writes.saturating_add(1);
        if self.writes == self.failing_write {
            self.write_faults = self.write_faults.saturating_add(1);
            return Err(FileRefusal::Failed);
        }
        match self.files.write(name, bytes) {
            Ok(()) => Ok(()),
            Err(_) => {
                self.write_faults = self.write_faults.saturating_add(1);
                Err(FileRefusal::Failed)
            }
        }
    }
}
