// The table of a shape of a model file.
ghost use Rattle.std.specs.Prelude.{◌≡◌, ◌≤◌, IfOk};
ghost use Rattle.sm_io.specs.Files.{LetsSame};
ghost use Rattle.sm_io.specs.Seen.{files_seen};
ghost use Rattle.sm_model.specs.GraphView.{maps_of};
ghost use Rattle.sm_shapes.specs.DefaultPuts.{HasNoDefault};
ghost use Rattle.sm_shapes.specs.InOrder.{Shaped, AreStored};
ghost use Rattle.sm_shapes.specs.TableView.{table_data};
ghost use Rattle.sm_codec.specs.Defaults.{filled};
ghost use Rattle.sm_codec.specs.FilledLaws.{IsFilled};
ghost use Rattle.sm_compile.specs.Answers.{seen_store};
ghost use Rattle.sm_compile.specs.Sound.{Sound};
ghost use Rattle.sm_asked.specs.CommandAsked.{OnlyAdds};
ghost use Rattle.sm_asked_shape.specs.LoadsShape.{IsReadable, LoadsShape};
ghost use Rattle.sm_asked_shape.specs.ShapeTables.{FillsShape, IsReady, MakesTable};

use sm_asked::sm_load::Model;
use sm_asked::{CommandStop, load_file, refused, refused_pattern};
use sm_codec::fill_defaults;
use sm_compile::{CompileRefusal, OneShape, Served, compile_shape};
use sm_ids::ShapeId;
use sm_io::Files;
use sm_lines::{line, unserved_line};
use sm_model::Graph;
use sm_shapes::Patterns;
use sm_shapes::tables::Table;
use sm_tree::NoMemory;
use std::alloc::Global;

/// A shape whose values are served.
#[derive(Debug, Drop)]
pub struct LoadedShape {
    /// The shapes that it reaches, with the defaults that count.
    pub table: Table,
    /// Its number in the table.
    pub shape: u32,
}

// The table of the shape with this id, of which one can be made; or why there is none.
fn compiled<P: Patterns>(
    alloc: Global,
    graph: &Graph,
    id: &ShapeId,
    patterns: &mut P,
) -> Result<OneShape, CommandStop>
    requires { Sound (maps_of graph.now) id.now }
    ensures makes { let before = seen_store (P.added patterns.old) (P.refused patterns.old) (P.refusals patterns.old) in
        let after = seen_store (P.added patterns.new) (P.refused patterns.new) (P.refusals patterns.new) in
        MakesTable (maps_of graph.now) id.now P.test before after result }
    ensures added { OnlyAdds (P.added patterns.old) (P.added patterns.new) }
{
    let shape = id.as_ref();
    match compile_shape(alloc, graph, &shape, patterns) {
        Ok(one) => Ok(one),
        Err(CompileRefusal::NoShape) => Err(refused(line(alloc, "NoShape", id.as_str()))),
        Err(CompileRefusal::Pattern(carrier)) => {
            Err(refused_pattern(line(alloc, "Pattern", carrier.as_str())))
        }
        Err(CompileRefusal::NoMemory) => Err(CommandStop::NoMemory),
    }
}

/// The table of the shape with this id in a graph, in which no default is set yet. The caller must know that the shape is sound, as each
/// shape of a model that is loaded is. n log n in what the shape reaches.
///
/// # Errors
///
/// In this order: an id of no shape that has values; a pattern that the store refuses. At any step memory may run out.
pub fn table_named<P: Patterns>(
    alloc: Global,
    graph: &Graph,
    shape: &str,
    patterns: &mut P,
) -> Result<OneShape, CommandStop>
    requires { Sound (maps_of graph.now) shape.now }
    ensures makes { let before = seen_store (P.added patterns.old) (P.refused patterns.old) (P.refusals patterns.old) in
        let after = seen_store (P.added patterns.new) (P.refused patterns.new) (P.refusals patterns.new) in
        MakesTable (maps_of graph.now) shape.now P.test before after result }
    ensures added { OnlyAdds (P.added patterns.old) (P.added patterns.new) }
{
    match graph.number(shape) {
        Some(number) => compiled(alloc, graph, graph.id(number), patterns),
        None => Err(refused(line(alloc, "NoShape", shape))),
    }
}

// The table with the defaults that count.
fn filled_table<P: Patterns>(
    alloc: Global,
    mut table: Table,
    patterns: &mut P,
) -> Result<Table, NoMemory>
    requires shaped { Shaped (table_data table) }
    requires none { HasNoDefault (table_data table) }
    requires stored { AreStored (table_data table).patterns (P.added patterns.old) }
    ensures filled { IfOk result (λ made. table_data made ≡ filled (table_data table) P.test) }
    ensures in_order { IfOk result (λ made. IsFilled (table_data made) P.test) }
    ensures added { P.added patterns.new ≡ P.added patterns.old }
    ensures refused { P.refused patterns.new ≡ P.refused patterns.old }
    ensures refusals { P.refusals patterns.new ≡ P.refusals patterns.old }
{
    match fill_defaults(alloc, &mut table, patterns) {
        Ok(()) => Ok(table),
        Err(NoMemory) => Err(NoMemory),
    }
}

/// The shape with its table, in which the defaults that count are set now, where values of the shape are served.
///
/// # Errors
///
/// A shape whose values can't be carried; and memory may run out.
pub fn filled_shape<P: Patterns>(
    alloc: Global,
    one: OneShape,
    patterns: &mut P,
) -> Result<LoadedShape, CommandStop>
    requires { IsReady (table_data one.table) one.shape (P.added patterns.old) }
    ensures fills { FillsShape one P.test (P.added patterns.new) result }
    ensures added { P.added patterns.new ≡ P.added patterns.old }
    ensures refused { P.refused patterns.new ≡ P.refused patterns.old }
    ensures refusals { P.refusals patterns.new ≡ P.refusals patterns.old }
{
    let OneShape {
        table,
        shape,
        served,
    } = one;
    match served {
        Served::Yes => match filled_table(alloc, table, patterns) {
            Ok(table) => Ok(LoadedShape { table, shape }),
            Err(NoMemory) => Err(CommandStop::NoMemory),
        },
        Served::Unserved(path) => Err(refused(unserved_line(alloc, path.as_str()))),
    }
}

/// The shape with this id in the model of this file, by whose table values can be read and written. The graph of the model is dropped.
///
/// # Errors
///
/// In this order: those of `load_file`; an id of no shape that has values; a pattern that the store refuses; a shape whose values can't be
/// carried. At any step memory may run out.
pub fn load_shape<F: Files, P: Patterns>(
    alloc: Global,
    files: &mut F,
    model: &str,
    shape: &str,
    patterns: &mut P,
) -> Result<LoadedShape, CommandStop>
    requires { F.lets_read files.old model.now }
    ensures loads { LoadsShape
        (files_seen (F.held files.old) (F.read_faults files.old) (F.write_faults files.old))
        (files_seen (F.held files.new) (F.read_faults files.new) (F.write_faults files.new))
        P.test (seen_store (P.added patterns.old) (P.refused patterns.old) (P.refusals patterns.old))
        (seen_store (P.added patterns.new) (P.refused patterns.new) (P.refusals patterns.new)) model.now shape.now result }
    ensures readable { IfOk result (λ one. IsReadable (table_data one.table) one.shape P.test (P.added patterns.new)) }
    ensures held { F.held files.new ≡ F.held files.old }
    ensures read_faults { F.read_faults files.old ≤ F.read_faults files.new }
    ensures write_faults { F.write_faults files.new ≡ F.write_faults files.old }
    ensures same_reads { LetsSame (F.lets_read files.old) (F.lets_read files.new) }
    ensures same_writes { LetsSame (F.lets_write files.old) (F.lets_write files.new) }
    ensures added { OnlyAdds (P.added patterns.old) (P.added patterns.new) }
{
    let Model { graph, events } = match load_file(alloc, files, model) {
        Ok(model) => model,
        Err(stop) => return Err(stop),
    };
    drop(events);
    sm_asked::sm_load::laws::sound_models();
    let made = table_named(alloc, &graph, shape, patterns);
    drop(graph);
    match made {
        Ok(one) => filled_shape(alloc, one, patterns),
        Err(stop) => Err(stop),
    }
}
