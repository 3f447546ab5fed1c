// The table of several shapes with all that they reach.
ghost use Rattle.std.specs.Prelude.{map};
ghost use Rattle.sm_model.specs.GraphView.{AreShapeNumbers, maps_of};
ghost use Rattle.sm_model.specs.Reaching.{id_of_number};
ghost use Rattle.sm_compile.specs.Answers.{seen_store};
ghost use Rattle.sm_compile.specs.Roots.{AreSoundRoots, CompilesRoots};

use crate::compiled::CompileRefusal;
use crate::reach::reached;
use crate::tabled::{Tabled, compile_marked};
use sm_model::Graph;
use sm_shapes::Patterns;
use std::alloc::Global;

/// The table of the shapes with these numbers and of all that they reach by members and targets, whose patterns are added to the store. The
/// caller sees by `sound` that a table can be made of each. `Pattern` where the store refuses a pattern that is reached, with the least id
/// that carries it; `NoMemory` where what is reached finds no room, or the store none for a pattern. n log n in what is reached.
pub fn compile_roots<P: Patterns>(
    alloc: Global,
    graph: &Graph,
    roots: &[u32],
    patterns: &mut P,
) -> Result<Tabled, CompileRefusal>
    requires numbers { AreShapeNumbers graph.now roots.now }
    requires sound { AreSoundRoots (maps_of graph.now) (map (id_of_number graph.now) roots.now) }
    ensures { CompilesRoots graph.now roots.now P.test
        (seen_store (P.added patterns.old) (P.refused patterns.old) (P.refusals patterns.old))
        (seen_store (P.added patterns.new) (P.refused patterns.new) (P.refusals patterns.new)) result }
{
    let marks = match reached(alloc, graph, roots) {
        Ok(marks) => marks,
        Err(_) => return Err(CompileRefusal::NoMemory),
    };
    match compile_marked(alloc, graph, marks.as_slice(), patterns) {
        Ok(tabled) => Ok(tabled),
        Err(refusal) => Err(refusal),
    }
}
