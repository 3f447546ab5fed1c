// A source read to its end, within a limit.
ghost use Rattle.std.specs.Prelude.{◌≤◌, IsErrOf};
ghost use Rattle.sm_io.specs.Causes.{HasCause};
ghost use Rattle.sm_io.specs.Reading.{ReadsAll};

use crate::{Failed, Source};
use std::alloc::{AllocError, Global};
use thiserror::Error;

/// The most bytes of one read. The number is free: a larger one means fewer calls and more room.
const BUFFER: usize = 16384;

/// Why a source wasn't read to its end.
#[derive(Clone, Copy, Debug, Error, PartialEq, Eq)]
pub enum ReadRefusal {
    /// The source failed.
    #[error("the read failed")]
    Failed,
    /// More bytes were left than the limit.
    #[error("more bytes than the limit")]
    TooLong,
    /// Memory ran out.
    #[error("out of memory")]
    NoMemory,
}

/// All bytes that the source has left, of which there are at most `limit`.
/// `TooLong`: there are more. `Failed`: the source failed. `NoMemory`: memory ran out.
/// After a refusal a prefix of the bytes, perhaps none, is no longer left.
// At most `limit` bytes and one buffer are held at a time; no clause says so.
pub fn read_all<S: Source>(
    alloc: Global,
    source: &mut S,
    limit: u64,
) -> Result<Vec<u8>, ReadRefusal>
    ensures bytes { ReadsAll (S.left source.old) (S.left source.new) limit result }
    ensures later { S.faults source.old ≤ S.faults source.new }
    ensures cause { HasCause (IsErrOf result ReadRefusal.Failed) (S.faults source.old) (S.faults source.new) }
{
    let mut bytes = Vec::new(alloc);
    let mut buffer = [0; BUFFER];
    loop {
        let count = match source.take(&mut buffer) {
            Ok(0) => return Ok(bytes),
            Ok(count) => count,
            Err(Failed) => return Err(ReadRefusal::Failed),
        };
        if limit - (bytes.len() as u64) < count as u64 {
            return Err(ReadRefusal::TooLong);
        }
        match bytes.extend_from_slice(&buffer[..count]) {
            Ok(()) => {}
            Err(AllocError) => return Err(ReadRefusal::NoMemory),
        }
    }
}
