// Where bytes go.
ghost use Rattle.std.specs.Prelude.{◌≡◌, ◌≤◌, ◌++◌, List, ℕ, Option, OnOk, OnErr, IsErrOf};
ghost use Rattle.sm_io.specs.Causes.{HasCause};
ghost use Rattle.sm_io.specs.Writing.{Puts};

use thiserror::Error;

/// Why a piece wasn't written.
#[derive(Clone, Copy, Debug, Error, PartialEq, Eq)]
pub enum PutRefusal {
    /// The outside failed, and may have taken a prefix of the piece.
    #[error("the write failed")]
    Failed,
    /// Memory ran out, and nothing was written.
    #[error("out of memory")]
    NoMemory,
}

/// A stream of bytes to write.
pub trait Sink {
    /// The bytes written so far, where they are told.
    ghost written: { Self → Option (List ℕ) };

    /// A count of faults. It never falls, and a call answers `Failed` only where it rose or stands at 2^64 - 1.
    ghost faults: { Self → ℕ };

    /// Writes the whole piece behind what was written so far.
    /// `Failed`: the outside failed, and a prefix of the piece may have been written. `NoMemory`: nothing was written.
    fn put(&mut self, piece: &[u8]) -> Result<(), PutRefusal>
        ensures bytes { Puts (written self.old) (written self.new) piece.now result }
        ensures later { faults self.old ≤ faults self.new }
        ensures cause { HasCause (IsErrOf result PutRefusal.Failed) (faults self.old) (faults self.new) };
}

// Appends the piece to bytes in memory, which is never `Failed`.
pub(super) fn append(bytes: &mut Vec<u8>, piece: &[u8]) -> Result<(), PutRefusal>
    ensures ok { OnOk result (bytes.new.items ≡ bytes.old.items ++ piece.now) }
    ensures err { OnErr result (bytes.new.items ≡ bytes.old.items) }
    ensures calm { IsErrOf result PutRefusal.Failed → ⊥ }
{
    match bytes.extend_from_slice(piece) {
        Ok(()) => Ok(()),
        Err(_) => Err(PutRefusal::NoMemory),
    }
}
