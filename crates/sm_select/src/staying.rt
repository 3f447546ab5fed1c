// Selectors without a step along a relation, asked of some numbers of a graph alone.
ghost use Rattle.std.specs.Prelude.{◌≡◌, ℕ, IfOk, length, map, true};
ghost use Rattle.std.specs.List.{Contains};
ghost use Rattle.sm_model.specs.GraphView.{IsShapeNumber, maps_of};
ghost use Rattle.sm_select.specs.Picks.{Compares, Goes, PickedByOne, Picks, folded};
ghost use Rattle.sm_select.specs.Selectors.{alternatives_of, steps_of};
ghost use Rattle.sm_select.specs.View.{path_view, selector_views, step_view, step_views};
ghost use Rattle.sm_select.specs.steps.Staying.{AreKeptAmong, AreStill, all_stay, each_stays, stays};

use crate::compare::folded_values;
use crate::filters::{ByKind, ByPath, ByText, kept_among};
use crate::marks::{kept_where, mark_too, same_marks};
use crate::selector::{Compare, Selector, SelectorStep};
use sm_model::{Graph, no_marks};
use sm_tree::NoMemory;
use std::alloc::Global;

/// Whether no step moves, within `:is`, `:not` and `:test` neither. No memory.
#[cycle(staying)]
pub(crate) fn all_stay(steps: &[SelectorStep]) -> bool
    ensures { result ≡ all_stay (steps_of (step_views steps.now)) }
{
    for step in steps {
        if !stays(step) {
            return false;
        }
    }
    true
}

// Whether so it is in each of these.
#[cycle(staying)]
fn each_stays(selectors: &[Selector]) -> bool
    ensures { result ≡ each_stays (alternatives_of (map steps_of (selector_views selectors.now))) }
{
    for selector in selectors {
        if !all_stay(selector.as_slice()) {
            return false;
        }
    }
    true
}

#[cycle(staying)]
fn stays(step: &SelectorStep) -> bool
    ensures { result ≡ stays (step_view step.now) }
{
    match step {
        SelectorStep::Any
        | SelectorStep::Named(_)
        | SelectorStep::Has(_)
        | SelectorStep::Compare(_) => true,
        SelectorStep::Forward | SelectorStep::Back | SelectorStep::Walk | SelectorStep::Along(_) =>
            false,
        SelectorStep::Is(selectors) => each_stays(selectors.as_slice()),
        SelectorStep::Not(selector) => all_stay(selector.as_slice()),
        SelectorStep::Test(selectors) => each_stays(selectors.as_slice()),
    }
}

/// The marked places of these numbers that the steps keep.
#[cycle(still)]
pub(crate) fn still_of(
    alloc: Global,
    graph: &Graph,
    steps: &[SelectorStep],
    numbers: &[u32],
    starts: &[bool],
) -> Result<Vec<bool>, NoMemory>
    requires stays { all_stay (steps_of (step_views steps.now)) ≡ true }
    requires numbers { (k : ℕ) → Contains numbers.now k → IsShapeNumber graph.now k }
    requires count { length starts.now ≡ length numbers.now }
    ensures { IfOk result (λ marks. AreStill graph.now numbers.now starts.now
        (Picks (maps_of graph.now) (steps_of (step_views steps.now))) marks.items) }
{
    let mut marks = same_marks(alloc, starts)?;
    for step in steps {
        marks = still_of_step(alloc, graph, step, numbers, &marks)?;
    }
    Ok(marks)
}

// Those that any of these keeps.
#[cycle(still)]
fn still_of_any(
    alloc: Global,
    graph: &Graph,
    selectors: &[Selector],
    numbers: &[u32],
    starts: &[bool],
) -> Result<Vec<bool>, NoMemory>
    requires stays { each_stays (alternatives_of (map steps_of (selector_views selectors.now))) ≡ true }
    requires numbers { (k : ℕ) → Contains numbers.now k → IsShapeNumber graph.now k }
    requires count { length starts.now ≡ length numbers.now }
    ensures { IfOk result (λ marks. AreStill graph.now numbers.now starts.now
        (PickedByOne (maps_of graph.now) (alternatives_of (map steps_of (selector_views selectors.now)))) marks.items) }
{
    let mut marks = no_marks(alloc, starts.len())?;
    for selector in selectors {
        let more = still_of(alloc, graph, selector.as_slice(), numbers, starts)?;
        mark_too(&mut marks, &more);
    }
    Ok(marks)
}

// Those that a step keeps.
#[cycle(still)]
fn still_of_step(
    alloc: Global,
    graph: &Graph,
    step: &SelectorStep,
    numbers: &[u32],
    starts: &[bool],
) -> Result<Vec<bool>, NoMemory>
    requires stays { stays (step_view step.now) ≡ true }
    requires numbers { (k : ℕ) → Contains numbers.now k → IsShapeNumber graph.now k }
    requires count { length starts.now ≡ length numbers.now }
    ensures { IfOk result (λ marks. AreStill graph.now numbers.now starts.now (Goes (maps_of graph.now) (step_view step.now)) marks.items) }
{
    match step {
        SelectorStep::Any => same_marks(alloc, starts),
        SelectorStep::Named(named) => {
            kept_among(alloc, graph, &ByKind { named: *named }, numbers, starts)
        }
        SelectorStep::Has(path) => kept_among(alloc, graph, &ByPath { path }, numbers, starts),
        SelectorStep::Compare(compare) => kept_by_text(alloc, graph, compare, numbers, starts),
        SelectorStep::Forward | SelectorStep::Back | SelectorStep::Walk | SelectorStep::Along(_) =>
            unreachable!(),
        SelectorStep::Is(selectors) => {
            still_of_any(alloc, graph, selectors.as_slice(), numbers, starts)
        }
        SelectorStep::Not(selector) => {
            let some = still_of(alloc, graph, selector.as_slice(), numbers, starts)?;
            kept_where(alloc, starts, &some, false)
        }
        SelectorStep::Test(selectors) => {
            still_of_any(alloc, graph, selectors.as_slice(), numbers, starts)
        }
    }
}

// Those at which the value of a path shows a text that is asked for.
fn kept_by_text(
    alloc: Global,
    graph: &Graph,
    compare: &Compare,
    numbers: &[u32],
    starts: &[bool],
) -> Result<Vec<bool>, NoMemory>
    requires numbers { (k : ℕ) → Contains numbers.now k → IsShapeNumber graph.now k }
    requires count { length starts.now ≡ length numbers.now }
    ensures { IfOk result (λ marks. AreKeptAmong graph.now numbers.now starts.now
        (λ id. Compares (maps_of graph.now) id (path_view compare.now.path) compare.now.op compare.now.fold
        (map (folded compare.now.fold) compare.now.values)) marks.items) }
{
    let values = folded_values(alloc, compare.fold, compare.values.as_slice())?;
    kept_among(
        alloc,
        graph,
        &ByText::of(compare, values.as_slice()),
        numbers,
        starts,
    )
}
