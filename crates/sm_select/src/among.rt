// Which of some numbers of a graph a selector picks.
ghost use Rattle.std.specs.Prelude.{◌≡◌, ◌<◌, ℕ, IfOk, false, get_or, length, true};
ghost use Rattle.std.specs.List.{Contains};
ghost use Rattle.sm_model.specs.GraphView.{IsShapeNumber};
ghost use Rattle.sm_model.specs.PreludeShapes.{is_prelude_id};
ghost use Rattle.sm_model.specs.Reaching.{AreMarks, IsMarked, id_of_number};
ghost use Rattle.sm_select.specs.Answers.{ArePickedAmong};
ghost use Rattle.sm_select.specs.Selectors.{steps_of};
ghost use Rattle.sm_select.specs.View.{selector_view, step_views};
ghost use Rattle.sm_select.specs.Ways.{AreWays};
ghost use Rattle.sm_select.specs.steps.Staying.{all_stay};

use crate::selecting::{is_start, picked_marks};
use crate::selector::{Selector, SelectorStep};
use crate::staying::{all_stay, still_of};
use crate::ways::Ways;
use sm_model::Graph;
use sm_tree::NoMemory;
use std::alloc::Global;

/// Whether a selector picks what stands at each of these numbers from some shape or member outside of the prelude, as marks by their
/// places. Where none of its steps follows a relation, within `:is`, `:not` and `:test` neither, a step costs a look at each of these
/// numbers; else a pass over the graph and its links. `NoMemory` where marks and texts to compare find no room.
pub fn select_among(
    alloc: Global,
    graph: &Graph,
    ways: &Ways,
    selector: &Selector,
    numbers: &[u32],
) -> Result<Vec<bool>, NoMemory>
    requires ways { AreWays graph.now ways.now }
    requires numbers { (k : ℕ) → Contains numbers.now k → IsShapeNumber graph.now k }
    ensures { IfOk result
        (λ marks. ArePickedAmong graph.now (steps_of (selector_view selector.now)) numbers.now marks.items) }
{
    let steps = selector.as_slice();
    if all_stay(steps) {
        still_among(alloc, graph, steps, numbers)
    } else {
        let picked = picked_marks(alloc, graph, ways, selector)?;
        marks_at(alloc, &picked, numbers)
    }
}

// Which of the numbers are picked by steps that don't move.
fn still_among(
    alloc: Global,
    graph: &Graph,
    steps: &[SelectorStep],
    numbers: &[u32],
) -> Result<Vec<bool>, NoMemory>
    requires stays { all_stay (steps_of (step_views steps.now)) ≡ true }
    requires numbers { (k : ℕ) → Contains numbers.now k → IsShapeNumber graph.now k }
    ensures { IfOk result (λ marks. ArePickedAmong graph.now (steps_of (step_views steps.now)) numbers.now marks.items) }
{
    let starts = starts_among(alloc, graph, numbers)?;
    still_of(alloc, graph, steps, numbers, &starts)
}

// The places of those outside of the prelude.
fn starts_among(alloc: Global, graph: &Graph, numbers: &[u32]) -> Result<Vec<bool>, NoMemory>
    requires { (k : ℕ) → Contains numbers.now k → IsShapeNumber graph.now k }
    ensures { IfOk result (λ marks. AreMarks (length numbers.now)
        (λ i. is_prelude_id (id_of_number graph.now (get_or numbers.now i 0)) ≡ false) marks.items) }
{
    let mut marks = Vec::with_capacity(alloc, numbers.len())?;
    for number in numbers {
        marks.push(is_start(graph, *number))?;
    }
    Ok(marks)
}

// The places of those that are marked.
fn marks_at(alloc: Global, marks: &[bool], numbers: &[u32]) -> Result<Vec<bool>, NoMemory>
    requires { (k : ℕ) → Contains numbers.now k → k < length marks.now }
    ensures { IfOk result (λ at. AreMarks (length numbers.now) (λ i. IsMarked marks.now (get_or numbers.now i 0)) at.items) }
{
    let mut at = Vec::with_capacity(alloc, numbers.len())?;
    for number in numbers {
        at.push(marks[*number as usize])?;
    }
    Ok(at)
}
