// A graph without what a selector picks, and without all that can't be without it.
ghost use Rattle.std.specs.Prelude.{◌≡◌, ◌⊎◌, ◌↔◌, IfOk, false, length, true};
ghost use Rattle.sm_model.specs.FormedGraph.{IsFormedGraph};
ghost use Rattle.sm_model.specs.GraphView.{IsShapeNumber, entries_of, ids, maps_of};
ghost use Rattle.sm_model.specs.Reaching.{AreMarks, IsMarked, id_of_number};
ghost use Rattle.sm_select.specs.Selectors.{steps_of};
ghost use Rattle.sm_select.specs.View.{selector_view};
ghost use Rattle.sm_transform.specs.Changed.{Changed, IsMadeOf, exclude, unless};
ghost use Rattle.sm_transform.specs.Excluded.{IsOut};
ghost use Rattle.sm_transform.specs.IdChanges.{entry_after, id_after};
ghost use Rattle.sm_transform.specs.Namespaces.{is_of_api};
ghost use Rattle.sm_transform.specs.steps.Changing.{IsLeft, IsSafeFor};
ghost use Rattle.sm_transform.specs.steps.Steps.{is_marked_id};

use crate::changed_shapes::changed_graph;
use crate::copies::copied_id;
use crate::ids::ChangesIds;
use crate::losses::lost_rows;
use crate::numbers::{is_of_api_at, picked_marks};
use sm_ids::ShapeId;
use sm_model::{Graph, mark_at};
use sm_select::{Selector, Ways, reached};
use sm_tree::{NoMemory, Text};
use std::alloc::Global;

/// A graph without the shapes that a selector picks, and without all that can't be without these: members of a shape or with a target
/// that is gone, lists and maps without a member, operations without an input or an output. Traits whose shapes are gone are left out, and
/// so are references to what is gone, with each field that they leave empty. Nothing of the namespace `smithy.api` is taken out, and the
/// metadata is kept. n log n. `NoMemory` where the allocator refuses memory.
pub fn excluded(alloc: Global, graph: &Graph, selector: &Selector) -> Result<Graph, NoMemory>
    requires { IsFormedGraph (maps_of graph.now) }
    ensures { IfOk result
        (λ h. Changed (maps_of graph.now) (exclude (steps_of (selector_view selector.now))) (maps_of h)) }
{
    let out = out_marks(alloc, graph, selector)?;
    without(alloc, graph, out.as_slice())
}

// A graph without what is marked.
fn without(alloc: Global, graph: &Graph, out: &[bool]) -> Result<Graph, NoMemory>
    requires formed { IsFormedGraph (maps_of graph.now) }
    requires safe { IsSafeFor (maps_of graph.now) (unless (is_marked_id (ids graph.now) out.now)) }
    ensures { IfOk result (λ h. IsMadeOf (IsLeft (unless (is_marked_id (ids graph.now) out.now)))
        (id_after (unless (is_marked_id (ids graph.now) out.now)))
        (entry_after (unless (is_marked_id (ids graph.now) out.now))) (maps_of graph.now) (maps_of h)) }
{
    let change = Unless { graph, out };
    changed_graph(alloc, graph, &change)
}

// Ids stay, but those at marked numbers.
#[derive(Drop)]
struct Unless<'a> {
    graph: &'a Graph,
    out: &'a [bool],
}

impl ChangesIds for Unless<'_> {
    ghost after = { λ s. unless (is_marked_id (ids s.graph.now) s.out.now) };

    fn keeps(&self, id: &str) -> bool {
        !is_out(self.graph, self.out, id)
    }

    fn text(&self, alloc: Global, id: &str) -> Result<Option<Text>, NoMemory> {
        if is_out(self.graph, self.out, id) {
            return Ok(None);
        }
        let copy = Text::copy(alloc, id)?;
        Ok(Some(copy))
    }

    fn id(&self, alloc: Global, id: &ShapeId) -> Result<Option<ShapeId>, NoMemory> {
        if is_out(self.graph, self.out, id.as_str()) {
            return Ok(None);
        }
        let copy = copied_id(alloc, id)?;
        Ok(Some(copy))
    }
}

// Whether the number of an id is marked.
fn is_out(graph: &Graph, out: &[bool], id: &str) -> bool
    ensures { result ≡ is_marked_id (ids graph.now) out.now id.now }
{
    match graph.number(id) {
        Some(number) => mark_at(out, number),
        None => false,
    }
}

// The numbers of what is out, as marks.
fn out_marks(alloc: Global, graph: &Graph, selector: &Selector) -> Result<Vec<bool>, NoMemory>
    ensures { IfOk result (λ marks. AreMarks (length (entries_of graph.now))
        (λ k. IsOut (maps_of graph.now) (steps_of (selector_view selector.now)) (id_of_number graph.now k)) marks.items) }
{
    let ways = Ways::new(alloc, graph)?;
    let picked = picked_marks(alloc, graph, &ways, selector)?;
    let starts = own_marks(alloc, graph, picked.as_slice())?;
    let rows = lost_rows(alloc, graph, &ways)?;
    let led = reached(alloc, &rows, starts.as_slice())?;
    either_marks(alloc, graph, starts.as_slice(), led.as_slice())
}

// Those that are marked and aren't of the namespace `smithy.api`.
fn own_marks(alloc: Global, graph: &Graph, picked: &[bool]) -> Result<Vec<bool>, NoMemory>
    ensures { IfOk result (λ marks. AreMarks (length (entries_of graph.now))
        (λ k. IsMarked picked.now k × (is_of_api (id_of_number graph.now k) ≡ false)) marks.items) }
{
    let mut marks = Vec::with_capacity(alloc, graph.count() as usize)?;
    for number in 0..graph.count() {
        marks.push(is_own(graph, picked, number))?;
    }
    Ok(marks)
}

fn is_own(graph: &Graph, picked: &[bool], number: u32) -> bool
    requires { IsShapeNumber graph.now number }
    ensures { (result ≡ true) ↔ (IsMarked picked.now number × (is_of_api (id_of_number graph.now number) ≡ false)) }
{
    if mark_at(picked, number) {
        !is_of_api_at(graph, number)
    } else {
        false
    }
}

// Those that are marked in either.
fn either_marks(
    alloc: Global,
    graph: &Graph,
    first: &[bool],
    second: &[bool],
) -> Result<Vec<bool>, NoMemory>
    ensures { IfOk result (λ marks. AreMarks (length (entries_of graph.now))
        (λ k. IsMarked first.now k ⊎ IsMarked second.now k) marks.items) }
{
    let mut marks = Vec::with_capacity(alloc, graph.count() as usize)?;
    for number in 0..graph.count() {
        marks.push(is_either(first, second, number))?;
    }
    Ok(marks)
}

fn is_either(first: &[bool], second: &[bool], number: u32) -> bool
    ensures { (result ≡ true) ↔ (IsMarked first.now number ⊎ IsMarked second.now number) }
{
    if mark_at(first, number) {
        return true;
    }
    mark_at(second, number)
}
