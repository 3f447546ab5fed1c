// The model files of a command, which are all read before the first is looked at.
ghost use Rattle.std.specs.Prelude.{◌≡◌, ◌≤◌, ◌++◌, ◌∷◌, [], List, ℕ, Contains, OnOk};
ghost use Rattle.sm_io.specs.Files.{LetsSame};
ghost use Rattle.sm_io.specs.Seen.{files_seen};
ghost use Rattle.sm_load.specs.ModelFiles.{file_given, given_files};
ghost use Rattle.sm_asked.specs.steps.LoadSteps.{ReadsModels};

use crate::file::open_file;
use crate::lines::limit_line;
use crate::stop::{CommandStop, past};
use sm_io::Files;
use sm_load::ModelFile;
use sm_tree::{NoMemory, Text};
use std::alloc::Global;

/// The greatest length of all model files of a command together, in bytes.
const BYTES_LIMIT: usize = 33_554_432;

/// The files of these names, in their order, each read once; or the line of the first that is too long, or with which all are.
pub(crate) fn read_models<F: Files>(
    alloc: Global,
    files: &mut F,
    names: &[Text],
) -> Result<Vec<ModelFile>, CommandStop>
    requires { (name : List ℕ) → Contains names.now name → F.lets_read files.old name }
    ensures reads { ReadsModels
        (files_seen (F.held files.old) (F.read_faults files.old) (F.write_faults files.old))
        (files_seen (F.held files.new) (F.read_faults files.new) (F.write_faults files.new))
        names.now result }
    ensures held { F.held files.new ≡ F.held files.old }
    ensures read_faults { F.read_faults files.old ≤ F.read_faults files.new }
    ensures write_faults { F.write_faults files.new ≡ F.write_faults files.old }
    ensures same_reads { LetsSame (F.lets_read files.old) (F.lets_read files.new) }
    ensures same_writes { LetsSame (F.lets_write files.old) (F.lets_write files.new) }
{
    let mut total: usize = 0;
    let mut read = Vec::new(alloc);
    for word in names {
        let name = word.as_str();
        match open_file(alloc, files, name) {
            Ok(bytes) => {
                if bytes.len() > BYTES_LIMIT - total {
                    return Err(past(limit_line(alloc, "bytes", BYTES_LIMIT as u64)));
                }
                total += bytes.len();
                put_file(alloc, &mut read, name, bytes)?;
            }
            Err(stop) => return Err(stop),
        }
    }
    Ok(read)
}

/// Puts a file behind others.
pub(crate) fn put_file(
    alloc: Global,
    files: &mut Vec<ModelFile>,
    name: &str,
    bytes: Vec<u8>,
) -> Result<(), NoMemory>
    ensures { OnOk result (given_files files.new.items ≡ given_files files.old.items ++ file_given name.now bytes.items ∷ []) }
{
    let name = Text::copy(alloc, name)?;
    files.push(ModelFile { name, bytes })?;
    Ok(())
}
