// The table of a shape with all that it reaches.
ghost use Rattle.std.specs.Prelude.{◌≡◌, MatchOption};
ghost use Rattle.sm_ids.specs.IdText.{printed};
ghost use Rattle.sm_ids.specs.View.{id_of};
ghost use Rattle.sm_model.specs.GraphView.{IsShapeNumber, maps_of};
ghost use Rattle.sm_model.specs.Reaching.{id_of_number};
ghost use Rattle.sm_compile.specs.Answers.{CompilesShape, seen_store};
ghost use Rattle.sm_compile.specs.Sound.{IsValueShape, Sound};

use crate::compiled::{CompileRefusal, OneShape};
use crate::parts::row_at;
use crate::reach::reached;
use crate::soundness::is_value_shape;
use crate::tabled::{Tabled, compile_marked};
use crate::way_room::served;
use sm_ids::ShapeIdRef;
use sm_model::Graph;
use sm_shapes::Patterns;
use std::alloc::Global;

/// The table of a shape and of all that it reaches by members and targets, whose patterns are added to the store. The caller sees by
/// `sound` that a table can be made of it. `NoShape` where the id is no shape that has values; `Pattern` where the store refuses a
/// pattern that is reached, with the least id that carries it; `NoMemory` where what is reached finds no room, or the store none for
/// a pattern. n log n in what is reached.
pub fn compile_shape<P: Patterns>(
    alloc: Global,
    graph: &Graph,
    shape: &ShapeIdRef<'_>,
    patterns: &mut P,
) -> Result<OneShape, CompileRefusal>
    requires sound { Sound (maps_of graph.now) (printed (id_of shape.now)) }
    ensures { CompilesShape (maps_of graph.now) (printed (id_of shape.now)) P.test
        (seen_store (P.added patterns.old) (P.refused patterns.old) (P.refusals patterns.old))
        (seen_store (P.added patterns.new) (P.refused patterns.new) (P.refusals patterns.new)) result }
{
    match value_number(graph, shape) {
        Some(root) => compile_root(alloc, graph, root, patterns),
        None => Err(CompileRefusal::NoShape),
    }
}

// The number of the shape that has values and this id.
fn value_number(graph: &Graph, shape: &ShapeIdRef<'_>) -> Option<u32>
    ensures { MatchOption result
        (IsValueShape (maps_of graph.now) (printed (id_of shape.now)) → ⊥)
        (λ root. IsShapeNumber graph.now root × (id_of_number graph.now root ≡ printed (id_of shape.now))
        × IsValueShape (maps_of graph.now) (printed (id_of shape.now))) }
{
    match graph.shape(shape) {
        Some(number) => {
            if is_value_shape(graph, number) {
                Some(number)
            } else {
                None
            }
        }
        None => None,
    }
}

// The table of the shape at a number.
fn compile_root<P: Patterns>(
    alloc: Global,
    graph: &Graph,
    root: u32,
    patterns: &mut P,
) -> Result<OneShape, CompileRefusal>
    requires number { IsShapeNumber graph.now root }
    requires value { IsValueShape (maps_of graph.now) (id_of_number graph.now root) }
    requires sound { Sound (maps_of graph.now) (id_of_number graph.now root) }
    ensures { CompilesShape (maps_of graph.now) (id_of_number graph.now root) P.test
        (seen_store (P.added patterns.old) (P.refused patterns.old) (P.refusals patterns.old))
        (seen_store (P.added patterns.new) (P.refused patterns.new) (P.refusals patterns.new)) result }
{
    let marks = match reached(alloc, graph, &[root]) {
        Ok(marks) => marks,
        Err(_) => return Err(CompileRefusal::NoMemory),
    };
    let Tabled { table, shapes } = match compile_marked(alloc, graph, marks.as_slice(), patterns) {
        Ok(tabled) => tabled,
        Err(refusal) => return Err(refusal),
    };
    let row = row_at(shapes.as_slice(), root);
    match served(alloc, graph, root) {
        Ok(served) => Ok(OneShape {
            table,
            shape: row,
            served,
        }),
        Err(_) => Err(CompileRefusal::NoMemory),
    }
}
