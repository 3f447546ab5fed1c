// The command `transform`: the graph of model files after a change, written as one text of the JSON AST.
ghost use Rattle.std.specs.Prelude.{◌≡◌, ◌≤◌, List, ℕ, Contains, Err, IfOk};
ghost use Rattle.sm_io.specs.Files.{LetsSame};
ghost use Rattle.sm_io.specs.Seen.{files_seen};
ghost use Rattle.sm_model.specs.Graphs.{GraphMaps};
ghost use Rattle.sm_model.specs.GraphView.{maps_of};
ghost use Rattle.sm_transform.specs.Changed.{Change};
ghost use Rattle.sm_transformed.specs.Transformed.{IsSaid, TransformsTo, change_of};
ghost use Rattle.sm_model_commands.specs.asked.Comes.{StepComesTo, StepStops};
ghost use Rattle.sm_transform_command.specs.Transform.{ChangedSays, GraphSays, Transforms, namespace_line as the_namespace_line};
ghost use Rattle.sm_transform_command.specs.TransformForm.{HasNamespaces, change_asked};
ghost use Rattle.sm_transform_command.specs.steps.TransformSteps.{MayTransform, MeansChange, ReadsSelector};

use crate::words::{ChangeWords, TransformWords};
use sm_io::Files;
use sm_model::Graph;
use sm_model_commands::convert::ast_text;
use sm_model_commands::select::no_selector;
use sm_model_commands::sm_asked::{CommandStop, Shown, event_lines, load_models, refused};
use sm_select::{Selector, parse_selector};
use sm_transformed::{Transform, TransformRefusal, transform as transformed};
use sm_tree::{NoMemory, Text};
use std::alloc::Global;

// A text as a selector.
fn selector_of(alloc: Global, text: &str) -> Result<Selector, CommandStop>
    ensures { ReadsSelector text.now result }
{
    match parse_selector(alloc, text) {
        Ok(selector) => Ok(selector),
        Err(refusal) => Err(no_selector(alloc, refusal)),
    }
}

// Two names, owned.
fn names_of(alloc: Global, from: &str, to: &str) -> Result<(Text, Text), NoMemory>
    ensures from { IfOk result (λ both. both.0 ≡ from.now) }
    ensures to { IfOk result (λ both. both.1 ≡ to.now) }
{
    let from = Text::copy(alloc, from)?;
    let to = Text::copy(alloc, to)?;
    Ok((from, to))
}

// The change that is asked.
fn change_meant(alloc: Global, asked: ChangeWords<'_>) -> Result<Transform, CommandStop>
    ensures { MeansChange (change_asked asked.entry) result }
{
    match asked {
        ChangeWords::Include(text) => match selector_of(alloc, text) {
            Ok(selector) => Ok(Transform::Include(selector)),
            Err(stop) => Err(stop),
        },
        ChangeWords::Exclude(text) => match selector_of(alloc, text) {
            Ok(selector) => Ok(Transform::Exclude(selector)),
            Err(stop) => Err(stop),
        },
        ChangeWords::Rename(from, to) => match names_of(alloc, from, to) {
            Ok((from, to)) => Ok(Transform::Rename(from, to)),
            Err(NoMemory) => Err(CommandStop::NoMemory),
        },
    }
}

// The line of a namespace that gets no other name.
fn namespace_line(alloc: Global) -> Result<Vec<u8>, NoMemory>
    ensures { IfOk result (λ line. line.items ≡ the_namespace_line) }
{
    let mut line = Vec::new(alloc);
    line.extend_from_slice(b"Namespace\n")?;
    Ok(line)
}

// Why a change makes no model, as it is printed.
fn no_model(alloc: Global, refusal: TransformRefusal) -> CommandStop
    ensures { (g : GraphMaps) (change : Change) → TransformsTo g change (Err refusal)
        → StepStops (ChangedSays g change) ⊥ (Unit {0}) result }
{
    match refusal {
        TransformRefusal::Namespace => refused(namespace_line(alloc)),
        TransformRefusal::Rejected(events) => {
            refused(event_lines(alloc, Shown::Errors, events.as_slice()))
        }
        TransformRefusal::NoMemory => CommandStop::NoMemory,
    }
}

// The text of what a change makes of a graph. The graph is dropped before there is any of it.
fn changed_text(alloc: Global, graph: Graph, change: &Transform) -> Result<Vec<u8>, CommandStop>
    requires may { MayTransform (maps_of graph) }
    requires said { IsSaid (change_of change.now) }
    ensures { StepComesTo (ChangedSays (maps_of graph) (change_of change.now)) ⊥ (Unit {0}) result }
{
    let made = transformed(alloc, &graph, change);
    drop(graph);
    match made {
        Ok(model) => match ast_text(alloc, model.graph) {
            Ok(text) => Ok(text),
            Err(NoMemory) => Err(CommandStop::NoMemory),
        },
        Err(refusal) => Err(no_model(alloc, refusal)),
    }
}

// What is asked of a graph.
fn answered(alloc: Global, graph: Graph, asked: ChangeWords<'_>) -> Result<Vec<u8>, CommandStop>
    requires may { MayTransform (maps_of graph) }
    requires named { HasNamespaces (change_asked asked) }
    ensures { StepComesTo (GraphSays (maps_of graph) (change_asked asked.entry)) ⊥ (Unit {0}) result }
{
    match change_meant(alloc, asked) {
        Ok(change) => changed_text(alloc, graph, &change),
        Err(stop) => Err(stop),
    }
}

/// The graph of these model files after a change, as a text of the JSON AST with a line feed.
///
/// # Errors
///
/// Those of `load_models`, then a text that is no selector, a namespace that gets no other name, and a changed graph that a rule rejects,
/// with its errors. At any step memory may run out.
pub fn transform<F: Files>(
    alloc: Global,
    words: TransformWords<'_>,
    files: &mut F,
) -> Result<Vec<u8>, CommandStop>
    requires named { HasNamespaces (change_asked words.change) }
    requires reads { (name : List ℕ) → Contains words.models.now name → F.lets_read files.old name }
    ensures comes { Transforms
        (files_seen (F.held files.old) (F.read_faults files.old) (F.write_faults files.old))
        (files_seen (F.held files.new) (F.read_faults files.new) (F.write_faults files.new))
        words.entry.models.now (change_asked words.entry.change) result }
    ensures held { F.held files.new ≡ F.held files.old }
    ensures read_faults { F.read_faults files.old ≤ F.read_faults files.new }
    ensures write_faults { F.write_faults files.new ≡ F.write_faults files.old }
    ensures same_reads { LetsSame (F.lets_read files.old) (F.lets_read files.new) }
    ensures same_writes { LetsSame (F.lets_write files.old) (F.lets_write files.new) }
{
    sm_transformed::laws::accepted_may_change();
    match load_models(alloc, Shown::Errors, files, words.models) {
        Ok(model) => answered(alloc, model.graph, words.change),
        Err(stop) => Err(stop),
    }
}
