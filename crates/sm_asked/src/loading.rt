// The model of the model files of a command: they are read, and loaded.
ghost use Rattle.std.specs.Prelude.{◌≡◌, ◌≤◌, List, [], ◌∷◌, ℕ, Contains, Err, map};
ghost use Rattle.sm_io.specs.Files.{LetsSame};
ghost use Rattle.sm_io.specs.Seen.{files_seen};
ghost use Rattle.sm_load.specs.Loading.{LoadsTo};
ghost use Rattle.sm_load.specs.ModelFiles.{FileGiven, file_given, given_files};
ghost use Rattle.sm_asked.specs.declared.lines.Shown.TheVariants.{Errors};
ghost use Rattle.sm_asked.specs.Loading.{Loads};
ghost use Rattle.sm_asked.specs.steps.LoadSteps.{NamesFirst, StopsLoad, LoadsModel};

use crate::file::open_file;
use crate::files::{put_file, read_models};
use crate::idl::text_line;
use crate::lines::{Shown, event_lines, limit_line, size_limit_line};
use crate::stop::{CommandStop, past, refused};
use sm_io::Files;
use sm_load::{LoadRefusal, Model, ModelFile, load};
use sm_tree::Text;
use std::alloc::Global;

/// The greatest number of model files.
const FILES_LIMIT: usize = 64;

// Why files load to no model, as it is printed; the name is that of the file that says no statements.
fn not_loaded(alloc: Global, shown: Shown, name: &str, refusal: LoadRefusal) -> CommandStop
    ensures { (read : List FileGiven) → NamesFirst read refusal name.now → LoadsTo read (Err refusal) → StopsLoad shown read result }
{
    match refusal {
        LoadRefusal::Text(_, place) => refused(text_line(alloc, name, &place)),
        LoadRefusal::Limit(kind) => past(size_limit_line(alloc, kind)),
        LoadRefusal::Rejected(events) => refused(event_lines(alloc, shown, events.as_slice())),
        LoadRefusal::NoMemory => CommandStop::NoMemory,
    }
}

// The name of the file that says no statements, where there is one.
fn name_of<'a>(names: &'a [Text], refusal: &LoadRefusal) -> &'a str
    ensures { (read : List FileGiven) → map (λ f. f.name) read ≡ names.now → LoadsTo read (Err refusal.now)
        → NamesFirst read refusal.now result.now }
{
    match refusal {
        LoadRefusal::Text(number, _) => match names.get(*number as usize) {
            Some(name) => name.as_str(),
            None => "",
        },
        _ => "",
    }
}

// The model of files that were read, which have these names.
fn model_of(
    alloc: Global,
    shown: Shown,
    names: &[Text],
    read: Vec<ModelFile>,
) -> Result<Model, CommandStop>
    requires { map (λ f. f.name) (given_files read.items) ≡ names.now }
    ensures { LoadsModel shown (given_files read.items) result }
{
    match load(alloc, read) {
        Ok(model) => Ok(model),
        Err(refusal) => {
            let name = name_of(names, &refusal);
            Err(not_loaded(alloc, shown, name, refusal))
        }
    }
}

/// The model of these model files.
///
/// # Errors
///
/// In this order: more than 64 files; file by file one that can't be read, is too long, or with which all are too long; file by
/// file a text that isn't JSON, a tree that is no model, or an IDL text that isn't UTF-8 or no model; a graph past a limit on its size;
/// what is told of a model that is rejected, as far as it is shown. At any step memory may run out.
pub fn load_models<F: Files>(
    alloc: Global,
    shown: Shown,
    files: &mut F,
    models: &[Text],
) -> Result<Model, CommandStop>
    requires { (name : List ℕ) → Contains models.now name → F.lets_read files.old name }
    ensures loads { Loads shown
        (files_seen (F.held files.old) (F.read_faults files.old) (F.write_faults files.old))
        (files_seen (F.held files.new) (F.read_faults files.new) (F.write_faults files.new))
        models.now result }
    ensures held { F.held files.new ≡ F.held files.old }
    ensures read_faults { F.read_faults files.old ≤ F.read_faults files.new }
    ensures write_faults { F.write_faults files.new ≡ F.write_faults files.old }
    ensures same_reads { LetsSame (F.lets_read files.old) (F.lets_read files.new) }
    ensures same_writes { LetsSame (F.lets_write files.old) (F.lets_write files.new) }
{
    if models.len() > FILES_LIMIT {
        return Err(past(limit_line(alloc, "files", FILES_LIMIT as u64)));
    }
    match read_models(alloc, files, models) {
        Ok(read) => model_of(alloc, shown, models, read),
        Err(stop) => Err(stop),
    }
}

/// The model of one model file.
///
/// # Errors
///
/// Those of `load_models` for the one name.
pub fn load_file<F: Files>(alloc: Global, files: &mut F, name: &str) -> Result<Model, CommandStop>
    requires { F.lets_read files.old name.now }
    ensures loads { Loads Errors
        (files_seen (F.held files.old) (F.read_faults files.old) (F.write_faults files.old))
        (files_seen (F.held files.new) (F.read_faults files.new) (F.write_faults files.new))
        (name.now ∷ []) result }
    ensures held { F.held files.new ≡ F.held files.old }
    ensures read_faults { F.read_faults files.old ≤ F.read_faults files.new }
    ensures write_faults { F.write_faults files.new ≡ F.write_faults files.old }
    ensures same_reads { LetsSame (F.lets_read files.old) (F.lets_read files.new) }
    ensures same_writes { LetsSame (F.lets_write files.old) (F.lets_write files.new) }
{
    match open_file(alloc, files, name) {
        Ok(bytes) => model_of_one(alloc, name, bytes),
        Err(stop) => Err(stop),
    }
}

// The model of one file that was read.
fn model_of_one(alloc: Global, name: &str, bytes: Vec<u8>) -> Result<Model, CommandStop>
    ensures { LoadsModel Errors (file_given name.now bytes.items ∷ []) result }
{
    let mut files = Vec::new(alloc);
    put_file(alloc, &mut files, name, bytes)?;
    match load(alloc, files) {
        Ok(model) => Ok(model),
        Err(refusal) => Err(not_loaded(alloc, Shown::Errors, name, refusal)),
    }
}
