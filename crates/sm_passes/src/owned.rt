// Shapes outside of the prelude.
ghost use Rattle.std.specs.Prelude.{◌≡◌};
ghost use Rattle.sm_model.specs.GraphView.{IsShapeNumber, maps_of};
ghost use Rattle.sm_model.specs.Reaching.{id_of_number};
ghost use Rattle.sm_passes.specs.Owned.{is_own_shape, own_kind};

use sm_compile::{id_text, kind_of};
use sm_model::{Graph, Kind, is_in_prelude};

/// Whether this is the number of a shape outside of the prelude, and of no member.
pub fn is_own_shape(graph: &Graph, number: u32) -> bool
    requires { IsShapeNumber graph.now number }
    ensures { result ≡ is_own_shape (maps_of graph.now) (id_of_number graph.now number) }
{
    kind_of(graph, number).is_some() && !is_in_prelude(id_text(graph, number))
}

/// The type of a shape outside of the prelude. No memory.
pub fn own_kind(graph: &Graph, number: u32) -> Option<Kind>
    requires { IsShapeNumber graph.now number }
    ensures { result ≡ own_kind (maps_of graph.now) (id_of_number graph.now number) }
{
    if is_in_prelude(id_text(graph, number)) {
        None
    } else {
        kind_of(graph, number)
    }
}
