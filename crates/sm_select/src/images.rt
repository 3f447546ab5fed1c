// Images of sets: the numbers to which steps of a selector lead from marked ones, or from which they lead to marked ones. Each step
// is asked of all numbers at once.
ghost use Rattle.std.specs.Prelude.{◌≡◌, IfOk, length, map, true};
ghost use Rattle.sm_model.specs.GraphView.{entries_of, maps_of};
ghost use Rattle.sm_select.specs.Images.{AreImage, turned};
ghost use Rattle.sm_select.specs.Picks.{Goes, PickedByOne, Picks};
ghost use Rattle.sm_select.specs.Selectors.{alternatives_of, steps_of};
ghost use Rattle.sm_select.specs.View.{selector_views, step_view, step_views};
ghost use Rattle.sm_select.specs.steps.Imaging.{ArePicking, AreWays};

use crate::filters::{kept_by_kind, kept_by_path, kept_by_text};
use crate::marks::{all_marked, kept_where, mark_too, same_marks};
use crate::selector::{Selector, SelectorStep};
use crate::ways::{Ways, image_along, image_of_one, image_of_walk};
use sm_model::{Graph, no_marks};
use sm_tree::NoMemory;
use std::alloc::Global;

/// The numbers to which the steps lead from marked ones, one after the other.
#[cycle(images)]
pub(crate) fn image_of(
    alloc: Global,
    graph: &Graph,
    ways: &Ways,
    steps: &[SelectorStep],
    starts: &[bool],
) -> Result<Vec<bool>, NoMemory>
    requires count { length starts.now ≡ length (entries_of graph.now) }
    requires ways { AreWays graph.now ways.now }
    ensures { IfOk result (λ marks. AreImage graph.now starts.now
        (Picks (maps_of graph.now) (steps_of (step_views steps.now))) marks.items) }
{
    let mut marks = same_marks(alloc, starts)?;
    for step in steps {
        marks = image_of_step(alloc, graph, ways, step, false, &marks)?;
    }
    Ok(marks)
}

// The numbers from which the steps lead to marked ones.
#[cycle(images)]
fn origin_of(
    alloc: Global,
    graph: &Graph,
    ways: &Ways,
    steps: &[SelectorStep],
    ends: &[bool],
) -> Result<Vec<bool>, NoMemory>
    requires count { length ends.now ≡ length (entries_of graph.now) }
    requires ways { AreWays graph.now ways.now }
    ensures { IfOk result (λ marks. AreImage graph.now ends.now
        (turned true (Picks (maps_of graph.now) (steps_of (step_views steps.now)))) marks.items) }
{
    let mut marks = same_marks(alloc, ends)?;
    for done in 0..steps.len() {
        let step = &steps[steps.len() - 1 - done];
        marks = image_of_step(alloc, graph, ways, step, true, &marks)?;
    }
    Ok(marks)
}

// Either of the two.
#[cycle(images)]
fn image(
    alloc: Global,
    graph: &Graph,
    ways: &Ways,
    steps: &[SelectorStep],
    back: bool,
    starts: &[bool],
) -> Result<Vec<bool>, NoMemory>
    requires count { length starts.now ≡ length (entries_of graph.now) }
    requires ways { AreWays graph.now ways.now }
    ensures { IfOk result (λ marks. AreImage graph.now starts.now
        (turned back (Picks (maps_of graph.now) (steps_of (step_views steps.now)))) marks.items) }
{
    if back {
        origin_of(alloc, graph, ways, steps, starts)
    } else {
        image_of(alloc, graph, ways, steps, starts)
    }
}

// The numbers to which any of these leads from marked ones, or with `back` from which one leads to them.
#[cycle(images)]
fn image_of_any(
    alloc: Global,
    graph: &Graph,
    ways: &Ways,
    selectors: &[Selector],
    back: bool,
    starts: &[bool],
) -> Result<Vec<bool>, NoMemory>
    requires count { length starts.now ≡ length (entries_of graph.now) }
    requires ways { AreWays graph.now ways.now }
    ensures { IfOk result (λ marks. AreImage graph.now starts.now
        (turned back (PickedByOne (maps_of graph.now) (alternatives_of (map steps_of (selector_views selectors.now))))) marks.items) }
{
    let mut marks = no_marks(alloc, starts.len())?;
    for selector in selectors {
        let more = image(alloc, graph, ways, selector.as_slice(), back, starts)?;
        mark_too(&mut marks, &more);
    }
    Ok(marks)
}

// The numbers from which the steps pick something.
#[cycle(images)]
fn picking(
    alloc: Global,
    graph: &Graph,
    ways: &Ways,
    steps: &[SelectorStep],
) -> Result<Vec<bool>, NoMemory>
    requires { AreWays graph.now ways.now }
    ensures { IfOk result (λ marks. ArePicking graph.now (Picks (maps_of graph.now) (steps_of (step_views steps.now))) marks.items) }
{
    let all = all_marked(alloc, graph.count())?;
    origin_of(alloc, graph, ways, steps, &all)
}

// The numbers from which any of these picks something.
#[cycle(images)]
fn picking_any(
    alloc: Global,
    graph: &Graph,
    ways: &Ways,
    selectors: &[Selector],
) -> Result<Vec<bool>, NoMemory>
    requires { AreWays graph.now ways.now }
    ensures { IfOk result (λ marks. ArePicking graph.now
        (PickedByOne (maps_of graph.now) (alternatives_of (map steps_of (selector_views selectors.now)))) marks.items) }
{
    let all = all_marked(alloc, graph.count())?;
    image_of_any(alloc, graph, ways, selectors, true, &all)
}

// The numbers to which a step leads from marked ones, or with `back` from which it leads to them.
#[cycle(images)]
fn image_of_step(
    alloc: Global,
    graph: &Graph,
    ways: &Ways,
    step: &SelectorStep,
    back: bool,
    starts: &[bool],
) -> Result<Vec<bool>, NoMemory>
    requires count { length starts.now ≡ length (entries_of graph.now) }
    requires ways { AreWays graph.now ways.now }
    ensures { IfOk result (λ marks. AreImage graph.now starts.now
        (turned back (Goes (maps_of graph.now) (step_view step.now))) marks.items) }
{
    match step {
        SelectorStep::Any => same_marks(alloc, starts),
        SelectorStep::Named(named) => kept_by_kind(alloc, graph, *named, starts),
        SelectorStep::Has(path) => kept_by_path(alloc, graph, path, starts),
        SelectorStep::Compare(compare) => kept_by_text(alloc, graph, compare, starts),
        SelectorStep::Forward => image_of_one(alloc, graph, ways, back, starts),
        SelectorStep::Back => image_of_one(alloc, graph, ways, !back, starts),
        SelectorStep::Walk => image_of_walk(alloc, graph, ways, back, starts),
        SelectorStep::Along(names) => {
            image_along(alloc, graph, ways, names.as_slice(), back, starts)
        }
        SelectorStep::Is(selectors) => {
            image_of_any(alloc, graph, ways, selectors.as_slice(), back, starts)
        }
        SelectorStep::Not(selector) => {
            let some = picking(alloc, graph, ways, selector.as_slice())?;
            kept_where(alloc, starts, &some, false)
        }
        SelectorStep::Test(selectors) => {
            let some = picking_any(alloc, graph, ways, selectors.as_slice())?;
            kept_where(alloc, starts, &some, true)
        }
    }
}
