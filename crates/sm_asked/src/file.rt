// A model file that a command reads.
ghost use Rattle.std.specs.Prelude.{◌≡◌, ◌≤◌};
ghost use Rattle.sm_io.specs.Files.{LetsSame};
ghost use Rattle.sm_io.specs.Seen.{files_seen};
ghost use Rattle.sm_asked.specs.steps.FileSteps.{OpensFile};

use crate::lines::limit_line;
use crate::stop::{CommandStop, past};
use sm_io::{FileRefusal, Files};
use std::alloc::Global;

/// The greatest length of a model file, in bytes.
const FILE_LIMIT: u64 = 4_194_304;

/// The bytes of the file of this name, or the line of one that is too long.
pub(crate) fn open_file<F: Files>(
    alloc: Global,
    files: &mut F,
    name: &str,
) -> Result<Vec<u8>, CommandStop>
    requires { F.lets_read files.old name.now }
    ensures opens { OpensFile
        (files_seen (F.held files.old) (F.read_faults files.old) (F.write_faults files.old))
        (files_seen (F.held files.new) (F.read_faults files.new) (F.write_faults files.new))
        name.now result }
    ensures held { F.held files.new ≡ F.held files.old }
    ensures read_faults { F.read_faults files.old ≤ F.read_faults files.new }
    ensures write_faults { F.write_faults files.new ≡ F.write_faults files.old }
    ensures same_reads { LetsSame (F.lets_read files.old) (F.lets_read files.new) }
    ensures same_writes { LetsSame (F.lets_write files.old) (F.lets_write files.new) }
{
    match files.read(name, FILE_LIMIT) {
        Ok(file) => Ok(file),
        Err(FileRefusal::Failed) => Err(CommandStop::ReadFault),
        Err(FileRefusal::TooLong) => Err(past(limit_line(alloc, "file", FILE_LIMIT))),
        Err(FileRefusal::NoMemory) => Err(CommandStop::NoMemory),
    }
}
