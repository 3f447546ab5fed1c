// The command `select`: the ids that a selector picks in the graph of model files.
ghost use Rattle.std.specs.Prelude.{◌≡◌, ◌≤◌, List, ℕ, Contains, IfOk, Err};
ghost use Rattle.sm_io.specs.Files.{LetsSame};
ghost use Rattle.sm_io.specs.Seen.{files_seen};
ghost use Rattle.sm_model.specs.GraphView.{maps_of};
ghost use Rattle.sm_select.specs.Answers.{ParsesSelector, ArePicked};
ghost use Rattle.sm_select.specs.Selectors.{steps_of};
ghost use Rattle.sm_select.specs.View.{selector_view};
ghost use Rattle.sm_model_commands.specs.SelectLines.{id_lines as the_id_lines};
ghost use Rattle.sm_model_commands.specs.Select.{NoSelectorSays, SelectorSays, Selects};
ghost use Rattle.sm_asked.specs.Comes.{StepComesTo, StepStops};

use crate::lines::{broken_selector_line, id_lines, other_selector_line};
use crate::words::SelectWords;
use sm_asked::{CommandStop, Shown, load_models, refused};
use sm_io::Files;
use sm_model::Graph;
use sm_select::{Selector, SelectorRefusal, parse_selector, select as picked};
use sm_tree::NoMemory;
use std::alloc::Global;

/// Why a text is no selector: its place.
pub fn no_selector(alloc: Global, refusal: SelectorRefusal) -> CommandStop
    ensures { (text : List ℕ) → ParsesSelector text (Err refusal) → StepStops (NoSelectorSays text) ⊥ (Unit {0}) result }
{
    match refusal {
        SelectorRefusal::Syntax(at) => refused(broken_selector_line(alloc, at)),
        SelectorRefusal::OutOfProfile(at) => refused(other_selector_line(alloc, at)),
        SelectorRefusal::NoMemory => CommandStop::NoMemory,
    }
}

// The ids that a selector picks, one a line.
fn picked_lines(alloc: Global, graph: &Graph, selector: &Selector) -> Result<Vec<u8>, NoMemory>
    ensures { IfOk result (λ lines. (ids : List (List ℕ)) × ArePicked (maps_of graph.now) (steps_of (selector_view selector.now)) ids
        × (lines.items ≡ the_id_lines ids)) }
{
    let ids = picked(alloc, graph, selector)?;
    id_lines(alloc, ids.as_slice())
}

// What a text comes to for a graph.
fn selected(alloc: Global, graph: &Graph, text: &str) -> Result<Vec<u8>, CommandStop>
    ensures { StepComesTo (SelectorSays (maps_of graph.now) text.now) ⊥ (Unit {0}) result }
{
    match parse_selector(alloc, text) {
        Ok(selector) => match picked_lines(alloc, graph, &selector) {
            Ok(lines) => Ok(lines),
            Err(NoMemory) => Err(CommandStop::NoMemory),
        },
        Err(refusal) => Err(no_selector(alloc, refusal)),
    }
}

/// The ids that a selector picks in the graph of these model files, in order, one a line.
///
/// # Errors
///
/// Those of `load_models`, then a text that is no selector. At any step memory may run out.
pub fn select<F: Files>(
    alloc: Global,
    words: SelectWords<'_>,
    files: &mut F,
) -> Result<Vec<u8>, CommandStop>
    requires { (name : List ℕ) → Contains words.models.now name → F.lets_read files.old name }
    ensures comes { Selects
        (files_seen (F.held files.old) (F.read_faults files.old) (F.write_faults files.old))
        (files_seen (F.held files.new) (F.read_faults files.new) (F.write_faults files.new))
        words.entry.models.now words.entry.selector.now result }
    ensures held { F.held files.new ≡ F.held files.old }
    ensures read_faults { F.read_faults files.old ≤ F.read_faults files.new }
    ensures write_faults { F.write_faults files.new ≡ F.write_faults files.old }
    ensures same_reads { LetsSame (F.lets_read files.old) (F.lets_read files.new) }
    ensures same_writes { LetsSame (F.lets_write files.old) (F.lets_write files.new) }
{
    match load_models(alloc, Shown::Errors, files, words.models) {
        Ok(model) => selected(alloc, &model.graph, words.selector),
        Err(stop) => Err(stop),
    }
}
