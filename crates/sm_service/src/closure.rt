// A service of a graph, and all that it leads to.
ghost use Rattle.std.specs.Prelude.{◌≡◌, IfOk, MatchOption, length};
ghost use Rattle.sm_ids.specs.IdText.{printed};
ghost use Rattle.sm_ids.specs.View.{id_of};
ghost use Rattle.sm_model.specs.GraphView.{IsShapeNumber, entries_of, maps_of};
ghost use Rattle.sm_model.specs.Reaching.{AreMarks, id_of_number};
ghost use Rattle.sm_rules.specs.Ready.{IsOfService};
ghost use Rattle.sm_rules.specs.Words.{IsService};
ghost use Rattle.sm_select.specs.Ways.{AreWays};
ghost use Rattle.sm_service.specs.steps.OwnServices.{is_own_service, is_service};

use sm_compile::{id_text, kind_of};
use sm_ids::ShapeIdRef;
use sm_model::{Graph, Kind, is_in_prelude, no_marks};
use sm_select::{Ways, image_of_walk};
use sm_tree::NoMemory;
use std::alloc::Global;

/// The number of the service with this id; `None` where the id is no service's. No memory.
pub(crate) fn service_number(graph: &Graph, id: &ShapeIdRef<'_>) -> Option<u32>
    ensures { MatchOption result
        (IsService (maps_of graph.now) (printed (id_of id.now)) → ⊥)
        (λ number. IsShapeNumber graph.now number × (id_of_number graph.now number ≡ printed (id_of id.now))
        × IsService (maps_of graph.now) (printed (id_of id.now))) }
{
    match graph.shape(id) {
        Some(number) => {
            if is_own_service(graph, number) {
                Some(number)
            } else {
                None
            }
        }
        None => None,
    }
}

// Whether a service outside of the prelude stands there. No memory.
fn is_own_service(graph: &Graph, number: u32) -> bool
    requires { IsShapeNumber graph.now number }
    ensures { result ≡ is_own_service (maps_of graph.now) (id_of_number graph.now number) }
{
    is_service(kind_of(graph, number)) && !is_in_prelude(id_text(graph, number))
}

fn is_service(kind: Option<Kind>) -> bool
    ensures { result ≡ is_service kind }
{
    match kind {
        Some(kind) => match kind {
            Kind::Service => true,
            _ => false,
        },
        None => false,
    }
}

/// The service at a number, and all that it leads to, as marks of all numbers. Each link is taken once.
pub(crate) fn closure(
    alloc: Global,
    graph: &Graph,
    ways: &Ways,
    service: u32,
) -> Result<Vec<bool>, NoMemory>
    requires number { IsShapeNumber graph.now service }
    requires ways { AreWays graph.now ways.now }
    requires service { IsService (maps_of graph.now) (id_of_number graph.now service) }
    ensures { IfOk result (λ marks. AreMarks (length (entries_of graph.now))
        (λ k. IsOfService (maps_of graph.now) (id_of_number graph.now service) (id_of_number graph.now k)) marks.items) }
{
    let mut starts = no_marks(alloc, graph.count() as usize)?;
    starts[service as usize] = true;
    let mut marks = image_of_walk(alloc, graph, ways, false, starts.as_slice())?;
    marks[service as usize] = true;
    Ok(marks)
}
