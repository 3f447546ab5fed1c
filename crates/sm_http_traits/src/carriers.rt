// What carries the traits of HTTP: operations and structures outside of the prelude.
ghost use Rattle.std.specs.Prelude.{◌≡◌};
ghost use Rattle.sm_model.specs.GraphView.{IsShapeNumber, maps_of};
ghost use Rattle.sm_model.specs.Reaching.{id_of_number};
ghost use Rattle.sm_http_traits.specs.Carriers.{is_operation, is_own_operation, is_own_structure, is_structure};

use sm_compile::{id_text, kind_of};
use sm_model::{Graph, Kind, is_in_prelude};

/// Whether this is the number of a structure outside of the prelude. No memory.
pub fn is_own_structure(graph: &Graph, number: u32) -> bool
    requires { IsShapeNumber graph.now number }
    ensures { result ≡ is_own_structure (maps_of graph.now) (id_of_number graph.now number) }
{
    is_structure(kind_of(graph, number)) && !is_in_prelude(id_text(graph, number))
}

fn is_structure(kind: Option<Kind>) -> bool
    ensures { result ≡ is_structure kind }
{
    match kind {
        Some(kind) => match kind {
            Kind::Structure => true,
            _ => false,
        },
        None => false,
    }
}

/// Whether this is the number of an operation outside of the prelude. No memory.
pub fn is_own_operation(graph: &Graph, number: u32) -> bool
    requires { IsShapeNumber graph.now number }
    ensures { result ≡ is_own_operation (maps_of graph.now) (id_of_number graph.now number) }
{
    is_operation(kind_of(graph, number)) && !is_in_prelude(id_text(graph, number))
}

fn is_operation(kind: Option<Kind>) -> bool
    ensures { result ≡ is_operation kind }
{
    match kind {
        Some(kind) => match kind {
            Kind::Operation => true,
            _ => false,
        },
        None => false,
    }
}
