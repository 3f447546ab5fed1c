// The command `check`: the events of the model of model files.
ghost use Rattle.std.specs.Prelude.{◌≡◌, ◌≤◌, List, ℕ, Contains};
ghost use Rattle.sm_io.specs.Files.{LetsSame};
ghost use Rattle.sm_io.specs.Seen.{files_seen};
ghost use Rattle.sm_model_commands.specs.Check.{Checks};
ghost use Rattle.sm_model_commands.specs.steps.CheckSteps.{TellsEvents};

use crate::words::CheckWords;
use sm_asked::sm_load::Model;
use sm_asked::{CommandStop, Shown, event_lines, load_models};
use sm_io::Files;
use sm_tree::NoMemory;
use std::alloc::Global;

/// The lines of all events of the model of these model files, in order.
///
/// # Errors
///
/// Those of `load_models`, and memory may run out.
pub fn check<F: Files>(
    alloc: Global,
    words: CheckWords<'_>,
    files: &mut F,
) -> Result<Vec<u8>, CommandStop>
    requires { (name : List ℕ) → Contains words.models.now name → F.lets_read files.old name }
    ensures comes { Checks
        (files_seen (F.held files.old) (F.read_faults files.old) (F.write_faults files.old))
        (files_seen (F.held files.new) (F.read_faults files.new) (F.write_faults files.new))
        words.entry.models.now result }
    ensures held { F.held files.new ≡ F.held files.old }
    ensures read_faults { F.read_faults files.old ≤ F.read_faults files.new }
    ensures write_faults { F.write_faults files.new ≡ F.write_faults files.old }
    ensures same_reads { LetsSame (F.lets_read files.old) (F.lets_read files.new) }
    ensures same_writes { LetsSame (F.lets_write files.old) (F.lets_write files.new) }
{
    match load_models(alloc, Shown::All, files, words.models) {
        Ok(model) => told(alloc, model),
        Err(stop) => Err(stop),
    }
}

// The lines of a model's events. Its graph is dropped before there is any of them.
fn told(alloc: Global, model: Model) -> Result<Vec<u8>, CommandStop>
    ensures { TellsEvents model.events result }
{
    let Model { graph, events } = model;
    drop(graph);
    match event_lines(alloc, Shown::All, events.as_slice()) {
        Ok(lines) => Ok(lines),
        Err(NoMemory) => Err(CommandStop::NoMemory),
    }
}
