// Files by name.
ghost use Rattle.std.specs.Prelude.{◌≡◌, ◌≤◌, List, ℕ, Option, IsErrOf};
ghost use Rattle.sm_io.specs.Causes.{HasCause};
ghost use Rattle.sm_io.specs.Files.{Folder, ReadsFile, WritesFile, LetsSame};

use thiserror::Error;

/// Why a file wasn't read or written.
#[derive(Clone, Copy, Debug, Error, PartialEq, Eq)]
pub enum FileRefusal {
    /// The outside failed, or the name to be read stands for nothing. A file that should have been written may hold anything.
    #[error("the file could not be read or written")]
    Failed,
    /// The file has more bytes than the limit.
    #[error("the file is longer than the limit")]
    TooLong,
    /// Memory ran out. A file that should have been written may hold anything.
    #[error("out of memory")]
    NoMemory,
}

/// Files by name, to be read and written whole.
pub trait Files {
    /// What the names stand for, where it is told.
    ghost held: { Self → Option Folder };

    /// A count of faults of reads. It never falls, and a read answers `Failed` only where it rose or stands at 2^64 - 1.
    ghost read_faults: { Self → ℕ };

    /// A count of faults of writes. It never falls, and a write answers `Failed` only where it rose or stands at 2^64 - 1.
    ghost write_faults: { Self → ℕ };

    /// The names, by their bytes, that may be read.
    ghost lets_read: { Self → List ℕ → Type 0 };

    /// The names, by their bytes, that may be written.
    ghost lets_write: { Self → List ℕ → Type 0 };

    /// The bytes of the file `name`, of which there are at most `limit`.
    /// `TooLong`: there are more. `Failed`: the outside failed, or the name stands for nothing.
    fn read(&mut self, name: &str, limit: u64) -> Result<Vec<u8>, FileRefusal>
        requires let_name { lets_read self.old name.now }
        ensures bytes { ReadsFile (held self.old) name.now limit result }
        ensures held { held self.new ≡ held self.old }
        ensures later { read_faults self.old ≤ read_faults self.new }
        ensures other_count { write_faults self.new ≡ write_faults self.old }
        ensures cause { HasCause (IsErrOf result FileRefusal.Failed) (read_faults self.old) (read_faults self.new) }
        ensures same_reads { LetsSame (lets_read self.old) (lets_read self.new) }
        ensures same_writes { LetsSame (lets_write self.old) (lets_write self.new) };

    /// Puts a file of these bytes in the place of the file `name`, or makes one. It is never `TooLong`.
    /// `Failed`: the outside failed. `NoMemory`: memory ran out. After both that one file may hold anything.
    fn write(&mut self, name: &str, bytes: &[u8]) -> Result<(), FileRefusal>
        requires let_name { lets_write self.old name.now }
        ensures bytes { WritesFile (held self.old) (held self.new) name.now bytes.now result }
        ensures later { write_faults self.old ≤ write_faults self.new }
        ensures other_count { read_faults self.new ≡ read_faults self.old }
        ensures cause { HasCause (IsErrOf result FileRefusal.Failed) (write_faults self.old) (write_faults self.new) }
        ensures same_reads { LetsSame (lets_read self.old) (lets_read self.new) }
        ensures same_writes { LetsSame (lets_write self.old) (lets_write self.new) };
}
