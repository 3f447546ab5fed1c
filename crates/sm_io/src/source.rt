// Where bytes come from.
ghost use Rattle.std.specs.Prelude.{◌<◌, ◌≤◌, List, ℕ, length, IsErr, Option};
ghost use Rattle.std.specs.Io.{ReadsAtMost};
ghost use Rattle.sm_io.specs.Causes.{HasCause};
ghost use Rattle.sm_io.specs.Reading.{TakesBytes};

use thiserror::Error;

/// A fault of the outside. The count of the object that answers it rose, or stands at its last number.
#[derive(Clone, Copy, Debug, Error, PartialEq, Eq)]
#[error("an object of the outside failed")]
pub struct Failed;

/// A stream of bytes to read.
pub trait Source {
    /// The bytes that are left, where they are told.
    ghost left: { Self → Option (List ℕ) };

    /// A count of faults. It never falls, and a call answers `Failed` only where it rose or stands at 2^64 - 1.
    ghost faults: { Self → ℕ };

    /// Moves bytes that are left to the start of `buf` and gives their count, which is 0 exactly at the end.
    /// `Failed`: the outside failed, and the bytes left are as before.
    fn take(&mut self, buf: &mut [u8]) -> Result<usize, Failed>
        requires room { 0 < length buf.old }
        ensures bound { ReadsAtMost result buf.new }
        ensures bytes { TakesBytes (left self.old) (left self.new) buf.new result }
        ensures later { faults self.old ≤ faults self.new }
        ensures cause { HasCause (IsErr result) (faults self.old) (faults self.new) };
}
