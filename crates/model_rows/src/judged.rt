// Whether a table can be made of a shape of a model, and the table that is made.
ghost use Rattle.std.specs.Prelude.{IfOk};
ghost use Rattle.sm_ids.specs.IdText.{printed};
ghost use Rattle.sm_ids.specs.View.{id_of};
ghost use Rattle.sm_model.specs.Formed.{AreFormed};
ghost use Rattle.sm_model.specs.GraphView.{Stands, maps_of};
ghost use Rattle.sm_model.specs.SaidView.{statements_view};
ghost use Rattle.sm_compile.specs.Sound.{Sound, TellsSound};

use crate::table::show_table;
use sm_ast::read_ast;
use sm_compile::sound;
use sm_ids::ShapeIdRef;
use sm_json::read_tree;
use sm_merge::{MergeRefusal, merge};
use sm_model::{Graph, Statement};
use sm_tree::NoMemory;
use std::alloc::Global;

/// What is asked of a shape.
#[derive(Debug, Clone, Copy)]
pub enum ShapeQuestion {
    /// Whether a table can be made of it.
    Sound,
    /// Its table, over a store that refuses this call of `add`, counted from 1, or none.
    Table(Option<u64>),
}

/// Appends what is answered of the shape with this id, in the graph of the model that a text says.
pub fn show_asked(
    alloc: Global,
    asked: ShapeQuestion,
    id: &str,
    text: &str,
    out: &mut String,
) -> Result<(), NoMemory> {
    out.push_str(" => ")?;
    let Ok(tree) = read_tree(alloc, text.as_bytes()) else {
        return Ok(out.push_str("no JSON")?);
    };
    let Ok(statements) = read_ast(alloc, &tree) else {
        return Ok(out.push_str("no model")?);
    };
    match merged(alloc, statements) {
        Ok(graph) => show_of_graph(alloc, asked, &graph, id, out),
        Err(MergeRefusal::NoMemory) => Err(NoMemory),
        Err(_) => Ok(out.push_str("no graph")?),
    }
}

// The graph of one file.
fn merged(alloc: Global, statements: Vec<Statement>) -> Result<Graph, MergeRefusal>
    requires { AreFormed (statements_view statements.items) }
{
    let mut files = Vec::new(alloc);
    match files.push(statements) {
        Ok(()) => merge(alloc, files.as_slice()),
        Err(_) => Err(MergeRefusal::NoMemory),
    }
}

fn show_of_graph(
    alloc: Global,
    asked: ShapeQuestion,
    graph: &Graph,
    id: &str,
    out: &mut String,
) -> Result<(), NoMemory> {
    let Ok(id) = ShapeIdRef::parse(id) else {
        return Ok(out.push_str("no id")?);
    };
    match graph.shape(&id) {
        Some(number) => show_of_shape(alloc, asked, graph, number, &id, out),
        None => Ok(out.push_str("no shape")?),
    }
}

fn show_of_shape(
    alloc: Global,
    asked: ShapeQuestion,
    graph: &Graph,
    number: u32,
    id: &ShapeIdRef<'_>,
    out: &mut String,
) -> Result<(), NoMemory>
    requires { Stands graph.now number (printed (id_of id.now)) }
{
    match is_sound(alloc, graph, number, id) {
        Ok(true) => show_of_sound(alloc, asked, graph, id, out),
        Ok(false) => Ok(out.push_str("unsound")?),
        Err(NoMemory) => Err(NoMemory),
    }
}

fn show_of_sound(
    alloc: Global,
    asked: ShapeQuestion,
    graph: &Graph,
    id: &ShapeIdRef<'_>,
    out: &mut String,
) -> Result<(), NoMemory>
    requires { Sound (maps_of graph.now) (printed (id_of id.now)) }
{
    match asked {
        ShapeQuestion::Sound => Ok(out.push_str("sound")?),
        ShapeQuestion::Table(refused) => show_table(alloc, graph, id, refused, out),
    }
}

// Whether a table can be made of the shape at the number of this id.
fn is_sound(
    alloc: Global,
    graph: &Graph,
    number: u32,
    id: &ShapeIdRef<'_>,
) -> Result<bool, NoMemory>
    requires { Stands graph.now number (printed (id_of id.now)) }
    ensures { IfOk result (λ b. TellsSound (maps_of graph.now) (printed (id_of id.now)) b) }
{
    sound(alloc, graph, number)
}
