// What compiling a shape of a model answers: its patterns by their numbers and whether it is served, or why there is no table.
ghost use Rattle.sm_ids.specs.IdText.{printed};
ghost use Rattle.sm_ids.specs.View.{id_of};
ghost use Rattle.sm_model.specs.GraphView.{maps_of};
ghost use Rattle.sm_compile.specs.Sound.{Sound};

use sm_compile::{CompileRefusal, OneShape, Served, compile_shape};
use sm_ids::ShapeIdRef;
use sm_model::Graph;
use sm_shapes::LiteralPatterns;
use sm_tree::NoMemory;
use std::alloc::Global;
use std::fmt::Write;

/// Appends what compiling the shape with this id answers, over a store that refuses one call of `add`, or none.
pub fn show_table(
    alloc: Global,
    graph: &Graph,
    id: &ShapeIdRef<'_>,
    refused: Option<u64>,
    out: &mut String,
) -> Result<(), NoMemory>
    requires { Sound (maps_of graph.now) (printed (id_of id.now)) }
{
    let mut failing = Vec::new(alloc);
    if let Some(call) = refused {
        failing.push(call)?;
    }
    let mut patterns = LiteralPatterns::new(alloc, failing);
    match compile_shape(alloc, graph, id, &mut patterns) {
        Ok(one) => show_one(&one, out),
        Err(CompileRefusal::NoShape) => Ok(out.push_str("NoShape")?),
        Err(CompileRefusal::Pattern(id)) => {
            out.push_str("Pattern ")?;
            Ok(out.push_str(id.as_str())?)
        }
        Err(CompileRefusal::NoMemory) => Err(NoMemory),
    }
}

fn show_one(one: &OneShape, out: &mut String) -> Result<(), NoMemory> {
    for row in one.table.patterns.as_slice() {
        write!(out, "{}:{} ", row.0, row.1.as_str())?;
    }
    match &one.served {
        Served::Yes => Ok(out.push_str("served")?),
        Served::Unserved(path) => Ok(write!(out, "unserved \"{}\"", path.as_str())?),
    }
}
