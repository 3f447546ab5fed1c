// The command `schema`: the JSON Schema of a shape of a model, as a text.
ghost use Rattle.std.specs.Prelude.{◌≡◌, ◌≤◌, ◌<◌, IfOk, false, true};
ghost use Rattle.sm_io.specs.Files.{LetsSame};
ghost use Rattle.sm_io.specs.Seen.{Stream, files_seen};
ghost use Rattle.sm_model.specs.GraphView.{IsShapeNumber, maps_of};
ghost use Rattle.sm_model.specs.Reaching.{id_of_number};
ghost use Rattle.sm_tree.specs.Json.{IsJson};
ghost use Rattle.sm_tree.specs.View.{node_of};
ghost use Rattle.sm_shapes.specs.InOrder.{Shaped};
ghost use Rattle.sm_shapes.specs.TableData.{shape_count};
ghost use Rattle.sm_shapes.specs.TableView.{table_data};
ghost use Rattle.sm_compile.specs.Answers.{seen_store};
ghost use Rattle.sm_asked_shape.specs.asked.CommandAsked.{OnlyAdds};
ghost use Rattle.sm_asked_shape.specs.asked.Comes.{CommandComesTo};
ghost use Rattle.sm_asked_shape.specs.asked.Outside.{inputs_seen};
ghost use Rattle.sm_schema.specs.Definitions.{HaveTargetsValues};
ghost use Rattle.sm_schema_command.specs.Schema.{schema_asked, schema_text};
ghost use Rattle.sm_schema_command.specs.steps.SchemaSteps.{IsNotedText, IsSchemaText};

use crate::words::SchemaWords;
use sm_asked_shape::sm_asked::{CommandStop, load_file};
use sm_asked_shape::sm_load::Model;
use sm_asked_shape::{LoadedShape, filled_shape, load_shape, table_named};
use sm_io::Files;
use sm_json::write_tree;
use sm_model::Graph;
use sm_notes::notes_of;
use sm_schema::{schema_described, schema_of_compiled};
use sm_shapes::Patterns;
use sm_shapes::tables::Table;
use sm_tree::{NoMemory, Tree};
use std::alloc::Global;

// A tree as a text, with a line feed.
fn printed(alloc: Global, tree: &Tree) -> Result<Vec<u8>, NoMemory>
    requires { IsJson (node_of tree.now) }
    ensures { IfOk result (λ text. text.items ≡ schema_text (node_of tree.now)) }
{
    let mut text = Vec::new(alloc);
    match write_tree(alloc, tree, &mut text) {
        Ok(()) => {
            text.push(b'\n')?;
            Ok(text)
        }
        Err(NoMemory) => Err(NoMemory),
    }
}

// The text that is printed for a shape of a table.
fn schema_text<P: Patterns>(
    alloc: Global,
    table: &Table,
    shape: u32,
    json_names: bool,
    patterns: &P,
) -> Result<Vec<u8>, NoMemory>
    requires shaped { Shaped (table_data table.now) }
    requires shape { shape < shape_count (table_data table.now) }
    requires values { HaveTargetsValues (table_data table.now) }
    ensures { IfOk result (λ text. IsSchemaText (table_data table.now) json_names shape text.items) }
{
    let tree = schema_of_compiled(alloc, table, shape, json_names, patterns)?;
    printed(alloc, &tree)
}

// The text that is printed for it with what the graph says to people, whose shape of this id it is.
fn noted_text<P: Patterns>(
    alloc: Global,
    graph: &Graph,
    root: u32,
    one: &LoadedShape,
    json_names: bool,
    patterns: &P,
) -> Result<Vec<u8>, NoMemory>
    requires root { IsShapeNumber graph.now root }
    requires shaped { Shaped (table_data one.now.table) }
    requires shape { one.now.shape < shape_count (table_data one.now.table) }
    requires values { HaveTargetsValues (table_data one.now.table) }
    ensures { IfOk result (λ text. IsNotedText (maps_of graph.now) (id_of_number graph.now root) (table_data one.now.table) json_names
        one.now.shape text.items) }
{
    match notes_of(alloc, graph, root) {
        Ok(notes) => {
            let tree = schema_described(
                alloc, &one.table, one.shape, json_names, &notes, patterns,
            )?;
            printed(alloc, &tree)
        }
        Err(NoMemory) => Err(NoMemory),
    }
}

// The same of the shape with this id. Its table was made, so the graph has it, and the last answer never comes.
fn named_text<P: Patterns>(
    alloc: Global,
    graph: &Graph,
    shape: &str,
    one: &LoadedShape,
    json_names: bool,
    patterns: &P,
) -> Result<Vec<u8>, NoMemory>
    requires shaped { Shaped (table_data one.now.table) }
    requires shape { one.now.shape < shape_count (table_data one.now.table) }
    requires values { HaveTargetsValues (table_data one.now.table) }
    ensures { IfOk result (λ text. IsNotedText (maps_of graph.now) shape.now (table_data one.now.table) json_names one.now.shape text.items) }
{
    match graph.number(shape) {
        Some(root) => noted_text(alloc, graph, root, one, json_names, patterns),
        None => Err(NoMemory),
    }
}

// The schema as it stands in what is accepted alone.
fn plain_schema<F: Files, P: Patterns>(
    alloc: Global,
    words: SchemaWords<'_>,
    files: &mut F,
    patterns: &mut P,
) -> Result<Vec<u8>, CommandStop>
    requires { F.lets_read files.old words.model.now }
    ensures comes { let before = seen_store (P.added patterns.old) (P.refused patterns.old) (P.refusals patterns.old) in
        let after = seen_store (P.added patterns.new) (P.refused patterns.new) (P.refusals patterns.new) in
        (input : Stream) → CommandComesTo
        (inputs_seen (files_seen (F.held files.old) (F.read_faults files.old) (F.write_faults files.old)) input P.test before)
        (inputs_seen (files_seen (F.held files.new) (F.read_faults files.new) (F.write_faults files.new)) input P.test after)
        (schema_asked words.entry.model.now words.entry.shape.now words.entry.json_names false) result }
    ensures held { F.held files.new ≡ F.held files.old }
    ensures read_faults { F.read_faults files.old ≤ F.read_faults files.new }
    ensures write_faults { F.write_faults files.new ≡ F.write_faults files.old }
    ensures same_reads { LetsSame (F.lets_read files.old) (F.lets_read files.new) }
    ensures same_writes { LetsSame (F.lets_write files.old) (F.lets_write files.new) }
    ensures added { OnlyAdds (P.added patterns.old) (P.added patterns.new) }
{
    match load_shape(alloc, files, words.model, words.shape, patterns) {
        Ok(one) => match schema_text(alloc, &one.table, one.shape, words.json_names, patterns) {
            Ok(text) => Ok(text),
            Err(NoMemory) => Err(CommandStop::NoMemory),
        },
        Err(stop) => Err(stop),
    }
}

// The schema with what the model says to people in it.
fn described_schema<F: Files, P: Patterns>(
    alloc: Global,
    words: SchemaWords<'_>,
    files: &mut F,
    patterns: &mut P,
) -> Result<Vec<u8>, CommandStop>
    requires { F.lets_read files.old words.model.now }
    ensures comes { let before = seen_store (P.added patterns.old) (P.refused patterns.old) (P.refusals patterns.old) in
        let after = seen_store (P.added patterns.new) (P.refused patterns.new) (P.refusals patterns.new) in
        (input : Stream) → CommandComesTo
        (inputs_seen (files_seen (F.held files.old) (F.read_faults files.old) (F.write_faults files.old)) input P.test before)
        (inputs_seen (files_seen (F.held files.new) (F.read_faults files.new) (F.write_faults files.new)) input P.test after)
        (schema_asked words.entry.model.now words.entry.shape.now words.entry.json_names true) result }
    ensures held { F.held files.new ≡ F.held files.old }
    ensures read_faults { F.read_faults files.old ≤ F.read_faults files.new }
    ensures write_faults { F.write_faults files.new ≡ F.write_faults files.old }
    ensures same_reads { LetsSame (F.lets_read files.old) (F.lets_read files.new) }
    ensures same_writes { LetsSame (F.lets_write files.old) (F.lets_write files.new) }
    ensures added { OnlyAdds (P.added patterns.old) (P.added patterns.new) }
{
    let Model { graph, events } = match load_file(alloc, files, words.model) {
        Ok(model) => model,
        Err(stop) => return Err(stop),
    };
    drop(events);
    sm_asked_shape::sm_load::laws::sound_models();
    let made = match table_named(alloc, &graph, words.shape, patterns) {
        Ok(made) => made,
        Err(stop) => return Err(stop),
    };
    match filled_shape(alloc, made, patterns) {
        Ok(one) => {
            match named_text(alloc, &graph, words.shape, &one, words.json_names, patterns) {
                Ok(text) => Ok(text),
                Err(NoMemory) => Err(CommandStop::NoMemory),
            }
        }
        Err(stop) => Err(stop),
    }
}

/// The JSON Schema of this shape of the model in this file, with a line feed; with what the model says to people in it, where that is asked
/// for.
///
/// # Errors
///
/// Those of `load_shape`, and memory may run out.
pub fn schema<F: Files, P: Patterns>(
    alloc: Global,
    words: SchemaWords<'_>,
    files: &mut F,
    patterns: &mut P,
) -> Result<Vec<u8>, CommandStop>
    requires { F.lets_read files.old words.model.now }
    ensures comes { let before = seen_store (P.added patterns.old) (P.refused patterns.old) (P.refusals patterns.old) in
        let after = seen_store (P.added patterns.new) (P.refused patterns.new) (P.refusals patterns.new) in
        (input : Stream) → CommandComesTo
        (inputs_seen (files_seen (F.held files.old) (F.read_faults files.old) (F.write_faults files.old)) input P.test before)
        (inputs_seen (files_seen (F.held files.new) (F.read_faults files.new) (F.write_faults files.new)) input P.test after)
        (schema_asked words.entry.model.now words.entry.shape.now words.entry.json_names words.entry.described) result }
    ensures held { F.held files.new ≡ F.held files.old }
    ensures read_faults { F.read_faults files.old ≤ F.read_faults files.new }
    ensures write_faults { F.write_faults files.new ≡ F.write_faults files.old }
    ensures same_reads { LetsSame (F.lets_read files.old) (F.lets_read files.new) }
    ensures same_writes { LetsSame (F.lets_write files.old) (F.lets_write files.new) }
    ensures added { OnlyAdds (P.added patterns.old) (P.added patterns.new) }
{
    if words.described {
        described_schema(alloc, words, files, patterns)
    } else {
        plain_schema(alloc, words, files, patterns)
    }
}
