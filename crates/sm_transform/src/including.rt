// The part of a graph that a selector picks, with all that this needs.
ghost use Rattle.std.specs.Prelude.{◌≡◌, ◌⊎◌, ◌↔◌, IfOk, length, true};
ghost use Rattle.sm_model.specs.FormedGraph.{IsFormedGraph};
ghost use Rattle.sm_model.specs.GraphView.{IsShapeNumber, entries_of, maps_of};
ghost use Rattle.sm_model.specs.Reaching.{AreMarks, IsMarked, id_of_number};
ghost use Rattle.sm_select.specs.Selectors.{steps_of};
ghost use Rattle.sm_select.specs.View.{selector_view};
ghost use Rattle.sm_transform.specs.Changed.{Changed, include};
ghost use Rattle.sm_transform.specs.Included.{StaysIncluded};
ghost use Rattle.sm_transform.specs.Namespaces.{is_of_api};

use crate::copies::marked_copies;
use crate::needs::needed_rows;
use crate::numbers::{is_of_api_at, picked_marks};
use sm_model::{Graph, mark_at};
use sm_select::{Selector, Ways, reached};
use sm_tree::{NoMemory, copy_pairs};
use std::alloc::Global;

/// The shapes that a selector picks, with all that they need: what any relation leads to from them, and the shapes of their traits.
/// Shapes of the namespace `smithy.api` and the metadata are kept too. n log n. `NoMemory` where the allocator refuses memory.
pub fn included(alloc: Global, graph: &Graph, selector: &Selector) -> Result<Graph, NoMemory>
    requires { IsFormedGraph (maps_of graph.now) }
    ensures { IfOk result
        (λ h. Changed (maps_of graph.now) (include (steps_of (selector_view selector.now))) (maps_of h)) }
{
    let marks = staying_marks(alloc, graph, selector)?;
    let shapes = marked_copies(alloc, graph, marks.as_slice())?;
    let metadata = copy_pairs(alloc, graph.metadata())?;
    Graph::build(alloc, shapes, metadata)
}

// The numbers of what stays, as marks.
fn staying_marks(alloc: Global, graph: &Graph, selector: &Selector) -> Result<Vec<bool>, NoMemory>
    ensures { IfOk result (λ marks. AreMarks (length (entries_of graph.now))
        (λ k. StaysIncluded (maps_of graph.now) (steps_of (selector_view selector.now)) (id_of_number graph.now k)) marks.items) }
{
    let ways = Ways::new(alloc, graph)?;
    let picked = picked_marks(alloc, graph, &ways, selector)?;
    let rows = needed_rows(alloc, graph, &ways)?;
    let led = reached(alloc, &rows, picked.as_slice())?;
    with_api(alloc, graph, picked.as_slice(), led.as_slice())
}

// The numbers that are marked in either, and those of the namespace `smithy.api`.
fn with_api(
    alloc: Global,
    graph: &Graph,
    picked: &[bool],
    led: &[bool],
) -> Result<Vec<bool>, NoMemory>
    ensures { IfOk result (λ marks. AreMarks (length (entries_of graph.now))
        (λ k. (IsMarked picked.now k ⊎ IsMarked led.now k) ⊎ (is_of_api (id_of_number graph.now k) ≡ true)) marks.items) }
{
    let mut marks = Vec::with_capacity(alloc, graph.count() as usize)?;
    for number in 0..graph.count() {
        marks.push(stays_at(graph, picked, led, number))?;
    }
    Ok(marks)
}

// Whether a number is marked in either, or of the namespace.
fn stays_at(graph: &Graph, picked: &[bool], led: &[bool], number: u32) -> bool
    requires { IsShapeNumber graph.now number }
    ensures { (result ≡ true) ↔
        ((IsMarked picked.now number ⊎ IsMarked led.now number) ⊎ (is_of_api (id_of_number graph.now number) ≡ true)) }
{
    if mark_at(picked, number) {
        return true;
    }
    if mark_at(led, number) {
        return true;
    }
    is_of_api_at(graph, number)
}
