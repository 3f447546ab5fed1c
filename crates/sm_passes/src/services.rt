// What is told of services, where those with the same references are looked at together.
ghost use Rattle.std.specs.Prelude.{◌≡◌, ◌↔◌, ◌<◌, ◌≤◌, ℕ, List, IfOk, OnOk, false, length, take};
ghost use Rattle.std.specs.Cmp.Lexicographic.{slice_cmp};
ghost use Rattle.std.specs.List.{Contains};
ghost use Rattle.std.specs.Map.{values_of};
ghost use Rattle.std.specs.Ordering.{nat_cmp};
ghost use Rattle.sm_model.specs.EventView.{EventTold};
ghost use Rattle.sm_model.specs.GraphView.{IsShapeNumber};
ghost use Rattle.sm_model.specs.Joins.{Joins};
ghost use Rattle.sm_rules.specs.RuleEvents.{Puts};
ghost use Rattle.sm_passes.specs.Closures.{AreOwnServices, IsClosureOf, IsOwnServiceNumber, ToldOfServices};
ghost use Rattle.sm_passes.specs.steps.Groups.{AreAllServices, AreServiceRows, HaveOneClosure, HaveSteps, IsClear};
ghost use Rattle.sm_passes.specs.Putting.{ToldOf};
ghost use Rattle.sm_select.specs.Neighbors.{HasStep};
ghost use Rattle.sm_select.specs.Ways.{AreWays};

use crate::closures::{Closure, is_own_service};
use crate::numbers::{numbers_of, rising};
use crate::once::kept_once;
use crate::putting::{Events, Put};
use sm_model::Graph;
use sm_select::Ways;
use sm_tree::NoMemory;
use std::alloc::Global;
use std::cmp::Ordering;

/// What a rule tells of services that lead to the same.
pub trait OfServices {
    ghost use Rattle.std.specs.Prelude.{ℕ};
    ghost use Rattle.sm_model.specs.EventView.{EventTold};
    ghost use Rattle.sm_model.specs.declared.graph.Graph.{Graph};

    /// What it tells of a service.
    ghost tells: { Self → Graph → ℕ → EventTold → Type 0 };
    /// What it knows of the graph.
    ghost knows: { Self → Graph → Type 0 };

    /// Whether something may be told of these services. Where nothing may, their closure isn't walked.
    fn may_tell(&self, graph: &Graph, services: &[u32]) -> bool
        requires own { AreOwnServices graph.now services.now }
        requires knows { knows self.now graph.now }
        ensures { result ≡ false → (k : ℕ) → Contains services.now k → (e : EventTold) → tells self.now graph.now k e → ⊥ };

    /// Puts the events of these services, one or more that lead to the same, by their closure.
    fn put_of_services(
        &self,
        alloc: Global,
        graph: &Graph,
        services: &[u32],
        closure: &Closure,
        events: &mut Events,
    ) -> Put
        requires own { AreOwnServices graph.now services.now }
        requires some { 0 < length services.now }
        requires closure { IsClosureOf graph.now services.now closure.now }
        requires knows { knows self.now graph.now }
        ensures { OnOk result (Puts (ToldOf (tells self.now graph.now) services.now) events.old.items events.new.items) };
}

/// Puts the events of all services outside of the prelude. Those with the same references, in any order and any number of times, are
/// handed over together, with what they lead to. n log n in services and references, and a mark for each number. Besides, it takes a walk
/// of the closure of each such group of which something may be told, and what the rule takes.
pub fn put_by_closures<R: OfServices>(
    alloc: Global,
    graph: &Graph,
    ways: &Ways,
    rule: &R,
    events: &mut Events,
) -> Put
    requires ways { AreWays graph.now ways.now }
    requires knows { R.knows rule.now graph.now }
    ensures { OnOk result (Puts (ToldOfServices graph.now (R.tells rule.now graph.now)) events.old.items events.new.items) }
{
    let rows = rows_by_steps(alloc, graph, ways)?;
    let mut closure = Closure::new(alloc, graph)?;
    put_runs(
        alloc,
        graph,
        ways,
        rule,
        rows.as_slice(),
        &mut closure,
        events,
    )?;
    Ok(())
}

// Puts those of the services of these rows, run by run.
fn put_runs<R: OfServices>(
    alloc: Global,
    graph: &Graph,
    ways: &Ways,
    rule: &R,
    rows: &[(Vec<u32>, u32)],
    closure: &mut Closure,
    events: &mut Events,
) -> Put
    requires ways { AreWays graph.now ways.now }
    requires rows { AreServiceRows graph.now ways.now.on rows.now }
    requires clear { IsClear graph.now closure.old }
    requires knows { R.knows rule.now graph.now }
    ensures { OnOk result (Puts (ToldOf (R.tells rule.now graph.now) (values_of rows.now)) events.old.items events.new.items) }
{
    let mut begin = 0;
    let mut last = events.len();
    while begin < rows.len() {
        begin += put_run(alloc, graph, ways, rule, &rows[begin..], closure, events)?;
        last = kept_once(alloc, events, last);
    }
    Ok(())
}

// Puts those of the run that comes first, and says how many it has.
fn put_run<R: OfServices>(
    alloc: Global,
    graph: &Graph,
    ways: &Ways,
    rule: &R,
    rows: &[(Vec<u32>, u32)],
    closure: &mut Closure,
    events: &mut Events,
) -> Result<usize, NoMemory>
    requires ways { AreWays graph.now ways.now }
    requires rows { AreServiceRows graph.now ways.now.on rows.now }
    requires some { 0 < length rows.now }
    requires clear { IsClear graph.now closure.old }
    requires knows { R.knows rule.now graph.now }
    ensures some { IfOk result (λ count. 0 < count) }
    ensures within { IfOk result (λ count. count ≤ length rows.now) }
    ensures clear { OnOk result (IsClear graph.now closure.new) }
    ensures told { IfOk result
        (λ count. Puts (ToldOf (R.tells rule.now graph.now) (values_of (take count rows.now))) events.old.items events.new.items) }
{
    let count = run_len(rows);
    let services = numbers_of(alloc, &rows[..count])?;
    put_group(
        alloc,
        graph,
        ways,
        rule,
        services.as_slice(),
        closure,
        events,
    )?;
    Ok(count)
}

// Puts those of services that lead to the same. Their closure is walked where something may be told of them.
fn put_group<R: OfServices>(
    alloc: Global,
    graph: &Graph,
    ways: &Ways,
    rule: &R,
    services: &[u32],
    closure: &mut Closure,
    events: &mut Events,
) -> Put
    requires ways { AreWays graph.now ways.now }
    requires own { AreOwnServices graph.now services.now }
    requires some { 0 < length services.now }
    requires one { HaveOneClosure graph.now services.now }
    requires clear { IsClear graph.now closure.old }
    requires knows { R.knows rule.now graph.now }
    ensures clear { OnOk result (IsClear graph.now closure.new) }
    ensures told { OnOk result (Puts (ToldOf (R.tells rule.now graph.now) services.now) events.old.items events.new.items) }
{
    if !rule.may_tell(graph, services) {
        return Ok(());
    }
    closure.walk(graph, ways, services[0])?;
    rule.put_of_services(alloc, graph, services, closure, events)?;
    closure.clear();
    Ok(())
}

// How many rows from the first one on have its steps.
fn run_len(rows: &[(Vec<u32>, u32)]) -> usize
    requires { 0 < length rows.now }
    ensures some { 0 < result }
    ensures within { result ≤ length rows.now }
    ensures one { (numbers : List ℕ) × HaveSteps numbers (take result rows.now) }
{
    let steps = rows[0].0.as_slice();
    for place in 1..rows.len() {
        if rows[place].0.as_slice() != steps {
            return place;
        }
    }
    rows.len()
}

// All services outside of the prelude, in the order of what a step leads to from them: those with the same references stand together.
fn rows_by_steps(
    alloc: Global,
    graph: &Graph,
    ways: &Ways,
) -> Result<Vec<(Vec<u32>, u32)>, NoMemory>
    requires { AreWays graph.now ways.now }
    ensures services { IfOk result (λ rows. AreAllServices graph.now (values_of rows.items)) }
    ensures rows { IfOk result (λ rows. AreServiceRows graph.now ways.now.on rows.items) }
{
    let mut rows = service_rows(alloc, graph, ways)?;
    rows.sort_unstable_by(|a, b| order_of(a.0.as_slice(), b.0.as_slice()));
    Ok(rows)
}

fn order_of(a: &[u32], b: &[u32]) -> Ordering
    ensures { result ≡ slice_cmp nat_cmp a.now b.now }
{
    a.cmp(b)
}

// The services, each with the numbers that a step leads to from it, rising.
fn service_rows(alloc: Global, graph: &Graph, ways: &Ways) -> Result<Vec<(Vec<u32>, u32)>, NoMemory>
    requires { AreWays graph.now ways.now }
    ensures services { IfOk result (λ rows. AreAllServices graph.now (values_of rows.items)) }
    ensures rows { IfOk result (λ rows. AreServiceRows graph.now ways.now.on rows.items) }
{
    let mut rows = Vec::new(alloc);
    for number in 0..graph.count() {
        put_row(alloc, graph, ways, number, &mut rows)?;
    }
    Ok(rows)
}

// Puts a number, if it is a service's.
fn put_row(
    alloc: Global,
    graph: &Graph,
    ways: &Ways,
    number: u32,
    rows: &mut Vec<(Vec<u32>, u32)>,
) -> Result<(), NoMemory>
    requires number { IsShapeNumber graph.now number }
    requires ways { AreWays graph.now ways.now }
    requires rows { AreServiceRows graph.now ways.now.on rows.old.items }
    ensures services { OnOk result (Joins (Contains (values_of rows.old.items)) (λ k. (k ≡ number) × IsOwnServiceNumber graph.now k)
        (Contains (values_of rows.new.items))) }
    ensures rows { OnOk result (AreServiceRows graph.now ways.now.on rows.new.items) }
{
    if is_own_service(graph, number) {
        let steps = steps_once(alloc, ways, number)?;
        rows.push((steps, number))?;
    }
    Ok(())
}

// The numbers that a step leads to from a number, rising, each once.
fn steps_once(alloc: Global, ways: &Ways, number: u32) -> Result<Vec<u32>, NoMemory>
    requires { number < length ways.now.on }
    ensures { IfOk result (λ steps. (b : ℕ) → Contains steps.items b ↔ HasStep ways.now.on number b) }
{
    let mut steps = Vec::new(alloc);
    steps.extend_from_slice(ways.on.row(number))?;
    Ok(rising(steps))
}
