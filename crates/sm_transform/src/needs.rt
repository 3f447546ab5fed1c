// What the shapes and members that are kept need: all that a relation leads to from them, and the shapes of their traits.
ghost use Rattle.std.specs.Prelude.{◌≡◌, IfOk, OnOk, length};
ghost use Rattle.sm_tree.specs.View.{members_view};
ghost use Rattle.sm_model.specs.GraphView.{IsShapeNumber, entries_of, maps_of};
ghost use Rattle.sm_model.specs.declared.relation.Relation.TheVariants.{Member};
ghost use Rattle.sm_model.specs.steps.Linking.{Adds, RunsTo};
ghost use Rattle.sm_select.specs.Ways.{AreWays};
ghost use Rattle.sm_transform.specs.steps.Steps.{AreLedBy, IsNeeded, LeadBy, StepsToTraits, TraitSteps, TraitStepsBelow};

use crate::steps::{push_along, push_step};
use sm_model::{Graph, Link};
use sm_select::{Neighbors, Ways};
use sm_tree::{NoMemory, Text, Tree};
use std::alloc::Global;

/// For each number of a graph the numbers of what is needed there. n log n, by one search a trait.
pub(crate) fn needed_rows(alloc: Global, graph: &Graph, ways: &Ways) -> Result<Neighbors, NoMemory>
    requires { AreWays graph.now ways.now }
    ensures { IfOk result (λ rows. LeadBy graph.now (IsNeeded (maps_of graph.now)) rows) }
{
    let steps = needed_steps(alloc, graph, ways)?;
    Neighbors::new(alloc, graph.count(), steps.as_slice(), false)
}

// The steps from all numbers to those of what is needed.
fn needed_steps(alloc: Global, graph: &Graph, ways: &Ways) -> Result<Vec<Link>, NoMemory>
    requires { AreWays graph.now ways.now }
    ensures { IfOk result (λ steps. AreLedBy graph.now (IsNeeded (maps_of graph.now)) steps.items) }
{
    let mut steps = Vec::new(alloc);
    push_along(ways.links.as_slice(), &mut steps)?;
    put_all_traits(graph, &mut steps)?;
    Ok(steps)
}

// Appends the steps to the shapes of traits.
fn put_all_traits(graph: &Graph, steps: &mut Vec<Link>) -> Result<(), NoMemory>
    ensures { OnOk result (Adds (TraitStepsBelow graph.now (length (entries_of graph.now))) steps.old.items steps.new.items) }
{
    for number in 0..graph.count() {
        put_own_traits(graph, number, steps)?;
    }
    Ok(())
}

// Appends those from a number.
fn put_own_traits(graph: &Graph, number: u32, steps: &mut Vec<Link>) -> Result<(), NoMemory>
    requires { IsShapeNumber graph.now number }
    ensures { OnOk result (Adds (StepsToTraits graph.now number) steps.old.items steps.new.items) }
{
    put_traits(graph, number, graph.traits(number), steps)
}

// Appends those to the shapes of these traits.
fn put_traits(
    graph: &Graph,
    number: u32,
    traits: &[(Text, Tree)],
    steps: &mut Vec<Link>,
) -> Result<(), NoMemory>
    ensures { OnOk result (Adds (TraitSteps graph.now number (members_view traits.now)) steps.old.items steps.new.items) }
{
    for pair in traits {
        put_trait(graph, number, pair.0.as_str(), steps)?;
    }
    Ok(())
}

// Appends that to the shape of a trait, where there is one.
fn put_trait(graph: &Graph, number: u32, id: &str, steps: &mut Vec<Link>) -> Result<(), NoMemory>
    ensures { OnOk result (Adds (RunsTo graph.now Member number (λ i. id.now ≡ i)) steps.old.items steps.new.items) }
{
    match graph.number(id) {
        Some(to) => push_step(number, to, steps),
        None => Ok(()),
    }
}
