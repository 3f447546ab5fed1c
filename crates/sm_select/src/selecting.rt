// Which shapes and members of a graph a selector picks.
ghost use Rattle.std.specs.Prelude.{◌≡◌, ◌++◌, ◌∷◌, [], IfOk, OnOk, false, get_or, length, not};
ghost use Rattle.sm_model.specs.GraphView.{IsShapeNumber, entries_of, ids, maps_of};
ghost use Rattle.sm_model.specs.PreludeShapes.{is_prelude_id};
ghost use Rattle.sm_model.specs.Reaching.{AreMarks, id_of_number};
ghost use Rattle.sm_select.specs.Answers.{ArePicked};
ghost use Rattle.sm_select.specs.Picks.{IsPicked};
ghost use Rattle.sm_select.specs.Selectors.{steps_of};
ghost use Rattle.sm_select.specs.View.{selector_view};
ghost use Rattle.sm_select.specs.Ways.{AreWays};
ghost use Rattle.sm_select.specs.steps.Imaging.{marked_ids};

use crate::images::image_of;
use crate::selector::Selector;
use crate::ways::Ways;
use sm_ids::ShapeId;
use sm_model::{Graph, is_in_prelude};
use sm_tree::NoMemory;
use std::alloc::Global;

/// The ids of the shapes and members that a selector picks from some shape or member outside of the prelude, in their order, each
/// once. Each step is asked of all at once, and walks share what they reach: a step costs a pass over the graph and its links.
/// `NoMemory` where links, marks, texts to compare and ids find no room.
pub fn select(alloc: Global, graph: &Graph, selector: &Selector) -> Result<Vec<ShapeId>, NoMemory>
    ensures { IfOk result (λ ids. ArePicked (maps_of graph.now) (steps_of (selector_view selector.now)) ids.items) }
{
    let ways = Ways::new(alloc, graph)?;
    let picked = picked_marks(alloc, graph, &ways, selector)?;
    ids_of_marked(alloc, graph, &picked)
}

/// The numbers of what a selector picks from some start, as marks.
pub(crate) fn picked_marks(
    alloc: Global,
    graph: &Graph,
    ways: &Ways,
    selector: &Selector,
) -> Result<Vec<bool>, NoMemory>
    requires { AreWays graph.now ways.now }
    ensures { IfOk result (λ marks. AreMarks (length (entries_of graph.now))
        (λ k. IsPicked (maps_of graph.now) (steps_of (selector_view selector.now)) (id_of_number graph.now k)) marks.items) }
{
    let starts = starts_of(alloc, graph)?;
    image_of(alloc, graph, ways, selector.as_slice(), &starts)
}

// The numbers of shapes and members outside of the prelude.
fn starts_of(alloc: Global, graph: &Graph) -> Result<Vec<bool>, NoMemory>
    ensures { IfOk result (λ marks. AreMarks (length (entries_of graph.now))
        (λ k. is_prelude_id (id_of_number graph.now k) ≡ false) marks.items) }
{
    let mut marks = Vec::with_capacity(alloc, graph.count() as usize)?;
    for number in 0..graph.count() {
        marks.push(is_start(graph, number))?;
    }
    Ok(marks)
}

/// Whether what stands at a number is outside of the prelude.
pub(crate) fn is_start(graph: &Graph, number: u32) -> bool
    requires { IsShapeNumber graph.now number }
    ensures { result ≡ not (is_prelude_id (id_of_number graph.now number)) }
{
    !is_in_prelude(graph.id(number).as_str())
}

// The ids of marked numbers.
fn ids_of_marked(alloc: Global, graph: &Graph, marks: &[bool]) -> Result<Vec<ShapeId>, NoMemory>
    requires { length marks.now ≡ length (entries_of graph.now) }
    ensures { IfOk result (λ found. found.items ≡ marked_ids marks.now (ids graph.now)) }
{
    let mut found = Vec::new(alloc);
    for number in 0..graph.count() {
        push_marked(alloc, graph, marks, number, &mut found)?;
    }
    Ok(found)
}

// Appends the id of a number that is marked.
fn push_marked(
    alloc: Global,
    graph: &Graph,
    marks: &[bool],
    number: u32,
    found: &mut Vec<ShapeId>,
) -> Result<(), NoMemory>
    requires count { length marks.now ≡ length (entries_of graph.now) }
    requires number { IsShapeNumber graph.now number }
    ensures { OnOk result (found.new.items
        ≡ found.old.items ++ marked_ids (get_or marks.now number false ∷ []) (id_of_number graph.now number ∷ [])) }
{
    if marks[number as usize] {
        found.push(id_at(alloc, graph, number)?)?;
        Ok(())
    } else {
        Ok(())
    }
}

fn id_at(alloc: Global, graph: &Graph, number: u32) -> Result<ShapeId, NoMemory>
    requires { IsShapeNumber graph.now number }
    ensures { IfOk result (λ id. id ≡ id_of_number graph.now number) }
{
    match ShapeId::new(alloc, &graph.id(number).as_ref()) {
        Ok(id) => Ok(id),
        Err(_) => Err(NoMemory),
    }
}
