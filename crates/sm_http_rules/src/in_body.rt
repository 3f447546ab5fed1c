// Operations whose output has a member in the body of the response.
ghost use Rattle.std.specs.Prelude.{◌≡◌, IfOk, length, map};
ghost use Rattle.std.specs.List.{list_any};
ghost use Rattle.sm_model.specs.GraphView.{AreShapeNumbers, IsShapeNumber, entries_of, maps_of};
ghost use Rattle.sm_model.specs.Reaching.{AreMarks, id_of_number};
ghost use Rattle.sm_select.specs.Ways.{AreWays};
ghost use Rattle.sm_rules.specs.Http.{HasOutputBody};
ghost use Rattle.sm_http_rules.specs.steps.InBody.{has_body_member, is_body_member, is_unbound};

use sm_compile::members_of;
use sm_compile::trait_ids::{HTTP_HEADER, HTTP_PAYLOAD, HTTP_PREFIX_HEADERS, HTTP_RESPONSE_CODE};
use sm_model::{Graph, Relation};
use sm_passes::carried::{carries, is_member};
use sm_passes::marked::{NumberTest, marked_where};
use sm_passes::owned::is_own_shape;
use sm_select::{Ways, image_along};
use sm_tree::NoMemory;
use std::alloc::Global;

#[derive(Drop)]
struct WithBody;

impl NumberTest for WithBody {
    ghost passes = { λ test. has_body_member };

    fn passes(&self, graph: &Graph, number: u32) -> bool {
        is_own_shape(graph, number) && has_body_member(graph, members_of(graph, number))
    }
}

/// The operations whose output has a member in the body, as marks.
pub fn with_output_body(alloc: Global, graph: &Graph, ways: &Ways) -> Result<Vec<bool>, NoMemory>
    requires { AreWays graph.now ways.now }
    ensures { IfOk result (λ marks. AreMarks (length (entries_of graph.now))
        (λ k. HasOutputBody (maps_of graph.now) (id_of_number graph.now k)) marks.items) }
{
    let bodied = marked_where(alloc, graph, &WithBody)?;
    let marks = image_along(alloc, graph, ways, &[Relation::Output], true, &bodied)?;
    Ok(marks)
}

// Whether one of these is a member that stands in the body.
fn has_body_member(graph: &Graph, members: &[u32]) -> bool
    requires { AreShapeNumbers graph.now members.now }
    ensures { result ≡ list_any (is_body_member (maps_of graph.now)) (map (id_of_number graph.now) members.now) }
{
    for member in members {
        if is_body_member(graph, *member) {
            return true;
        }
    }
    false
}

fn is_body_member(graph: &Graph, number: u32) -> bool
    requires { IsShapeNumber graph.now number }
    ensures { result ≡ is_body_member (maps_of graph.now) (id_of_number graph.now number) }
{
    is_member(graph, number) && (carries(graph, number, HTTP_PAYLOAD) || is_unbound(graph, number))
}

fn is_unbound(graph: &Graph, number: u32) -> bool
    requires { IsShapeNumber graph.now number }
    ensures { result ≡ is_unbound (maps_of graph.now) (id_of_number graph.now number) }
{
    !(carries(graph, number, HTTP_HEADER)
        || carries(graph, number, HTTP_PREFIX_HEADERS)
        || carries(graph, number, HTTP_PAYLOAD)
        || carries(graph, number, HTTP_RESPONSE_CODE))
}
