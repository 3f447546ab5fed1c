// Numbers of a graph: all of them, and which of them something holds of.
ghost use Rattle.std.specs.Prelude.{◌≡◌, ◌⊎◌, ◌↔◌, IfOk, IsTrue, false, get_or, length, true};
ghost use Rattle.sm_model.specs.GraphView.{IsShapeNumber, entries_of, maps_of};
ghost use Rattle.sm_model.specs.Reaching.{AreMarks, id_of_number};
ghost use Rattle.sm_select.specs.Picks.{IsPicked};
ghost use Rattle.sm_select.specs.Selectors.{steps_of};
ghost use Rattle.sm_select.specs.View.{selector_view};
ghost use Rattle.sm_select.specs.Ways.{AreWays};
ghost use Rattle.sm_transform.specs.Namespaces.{is_of_api};
ghost use Rattle.sm_transform.specs.steps.Steps.{AreAllBelow};

use sm_ids::namespace_and_name;
use sm_model::Graph;
use sm_select::{Selector, Ways, select_among};
use sm_tree::NoMemory;
use std::alloc::Global;

/// The numbers below a count, in order.
pub(crate) fn numbers_below(alloc: Global, count: u32) -> Result<Vec<u32>, NoMemory>
    ensures { IfOk result (λ numbers. AreAllBelow count numbers.items) }
{
    let mut numbers = Vec::with_capacity(alloc, count as usize)?;
    for number in 0..count {
        numbers.push(number)?;
    }
    Ok(numbers)
}

/// The numbers of what a selector picks, as marks.
pub(crate) fn picked_marks(
    alloc: Global,
    graph: &Graph,
    ways: &Ways,
    selector: &Selector,
) -> Result<Vec<bool>, NoMemory>
    requires { AreWays graph.now ways.now }
    ensures { IfOk result (λ marks. AreMarks (length (entries_of graph.now))
        (λ k. IsPicked (maps_of graph.now) (steps_of (selector_view selector.now)) (id_of_number graph.now k)) marks.items) }
{
    let numbers = numbers_below(alloc, graph.count())?;
    select_among(alloc, graph, ways, selector, numbers.as_slice())
}

/// Whether the id at a number is of the namespace `smithy.api`. No memory.
pub(crate) fn is_of_api_at(graph: &Graph, number: u32) -> bool
    requires { IsShapeNumber graph.now number }
    ensures { result ≡ is_of_api (id_of_number graph.now number) }
{
    namespace_and_name(graph.id(number).as_str()).0 == "smithy.api"
}
