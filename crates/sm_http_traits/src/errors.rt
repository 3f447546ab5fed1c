// What `httpError` and `error` of a structure say.
ghost use Rattle.std.specs.Prelude.{◌≡◌};
ghost use Rattle.std.specs.Option.{option_copied};
ghost use Rattle.sm_model.specs.GraphView.{IsShapeNumber, maps_of};
ghost use Rattle.sm_model.specs.Reaching.{id_of_number};
ghost use Rattle.sm_http_traits.specs.Errors.{status_seen, whose_error};

use crate::carriers::is_own_structure;
use sm_compile::trait_ids::{ERROR, HTTP_ERROR};
use sm_compile::{number_of, text_in_trait, trait_node};
use sm_model::Graph;

/// The status of a structure outside of the prelude. No memory.
pub fn status_of(graph: &Graph, number: u32) -> Option<i64>
    requires { IsShapeNumber graph.now number }
    ensures { result ≡ status_seen (maps_of graph.now) (id_of_number graph.now number) }
{
    if is_own_structure(graph, number) {
        number_of(trait_node(graph, number, HTTP_ERROR))
    } else {
        None
    }
}

/// Whose error it is: the text of `error`. No memory.
pub fn whose_error(graph: &Graph, number: u32) -> Option<&str>
    requires { IsShapeNumber graph.now number }
    ensures { option_copied result ≡ whose_error (maps_of graph.now) (id_of_number graph.now number) }
{
    text_in_trait(trait_node(graph, number, ERROR))
}
