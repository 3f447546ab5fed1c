// Http.Routes: no two operations of a closure have one method and one pattern, whatever the names of labels.
ghost use Rattle.std.specs.Prelude.{◌≡◌, ◌<◌, ◌≤◌, ◌+◌, ℕ, IfOk, None, OnOk, Some, false, get_or, length};
ghost use Rattle.std.specs.List.{Contains};
ghost use Rattle.sm_model.specs.GraphView.{IsShapeNumber, maps_of};
ghost use Rattle.sm_model.specs.Reaching.{id_of_number};
ghost use Rattle.sm_model.specs.Joins.{Joins};
ghost use Rattle.sm_rules.specs.Http.{HasSameRoute};
ghost use Rattle.sm_rules.specs.RuleEvents.{IsEventIn, IsEventOf, Puts};
ghost use Rattle.sm_rules.specs.declared.rule.Rule.TheVariants.{HttpRoutes};
ghost use Rattle.sm_passes.specs.Putting.{ToldOf};
ghost use Rattle.sm_select.specs.Ways.{AreWays};
ghost use Rattle.sm_http_rules.specs.steps.Routes.{closure_of_route};
ghost use Rattle.sm_http_rules.specs.steps.SameRoutes.{AreByFirsts, AreSameRoutes, AreUnder, IsEitherTold, IsPairTold, IsRunFrom};
ghost use Rattle.sm_http_rules.specs.steps.SameRoutes.{ToldOfNumbers, ToldOfRows};

use crate::same_routes::same_routes;
use sm_compile::id_text;
use sm_model::Graph;
use sm_passes::closures::Closure;
use sm_passes::putting::{Events, Put, put_event};
use sm_passes::services::{OfServices, put_by_closures};
use sm_rules::Rule;
use sm_select::Ways;
use sm_tree::NoMemory;
use std::alloc::Global;

/// Puts the events of the rule, by the ways of the graph. n log n where no two operations of the graph have one method and one pattern.
/// Else beside that, for each group of services with the same references: a walk of its closure, n log n in what it has of routes that
/// stand twice, and an event for each pair in it. So time is pairs times groups that lead to both; memory is the answer's and a group's.
pub fn put_routes(alloc: Global, graph: &Graph, ways: &Ways, events: &mut Events) -> Put
    requires { AreWays graph.now ways.now }
    ensures { OnOk result
        (Puts (IsEventOf HttpRoutes (HasSameRoute (maps_of graph.now))) events.old.items events.new.items) }
{
    let firsts = same_routes(alloc, graph)?;
    if !has_any(firsts.as_slice()) {
        return Ok(());
    }
    put_by_firsts(alloc, graph, ways, firsts.as_slice(), events)?;
    Ok(())
}

// Whether anything stands there.
fn has_any(firsts: &[Option<u32>]) -> bool
    ensures { result ≡ false → (k : ℕ) → get_or firsts.now k None ≡ None }
{
    for first in firsts {
        if first.is_some() {
            return true;
        }
    }
    false
}

fn put_by_firsts(
    alloc: Global,
    graph: &Graph,
    ways: &Ways,
    firsts: &[Option<u32>],
    events: &mut Events,
) -> Put
    requires ways { AreWays graph.now ways.now }
    requires firsts { AreSameRoutes graph.now firsts.now }
    ensures { OnOk result
        (Puts (IsEventOf HttpRoutes (HasSameRoute (maps_of graph.now))) events.old.items events.new.items) }
{
    put_by_closures(alloc, graph, ways, &Routes { firsts }, events)?;
    Ok(())
}

// The operations with one route, which are the same for each closure.
#[derive(Drop)]
struct Routes<'a> {
    firsts: &'a [Option<u32>],
}

impl OfServices for Routes<'_> {
    ghost tells = { λ rule g k. IsEventIn HttpRoutes (HasSameRoute (maps_of g)) (closure_of_route (maps_of g)) (id_of_number g k) };

    ghost knows = { λ rule g. AreSameRoutes g rule.firsts.now };

    fn may_tell(&self, graph: &Graph, services: &[u32]) -> bool {
        true
    }

    fn put_of_services(
        &self,
        alloc: Global,
        graph: &Graph,
        services: &[u32],
        closure: &Closure,
        events: &mut Events,
    ) -> Put {
        put_inside(alloc, graph, self.firsts, closure.numbers(), events)?;
        Ok(())
    }
}

// Of what is in a closure.
fn put_inside(
    alloc: Global,
    graph: &Graph,
    firsts: &[Option<u32>],
    numbers: &[u32],
    events: &mut Events,
) -> Put
    requires { AreSameRoutes graph.now firsts.now }
    ensures { OnOk result
        (Puts (ToldOfNumbers graph.now firsts.now numbers.now) events.old.items events.new.items) }
{
    let mut rows = rows_under(alloc, firsts, numbers)?;
    rows.sort_unstable_by(|a, b| a.0.cmp(&b.0));
    put_rows(alloc, graph, rows.as_slice(), events)?;
    Ok(())
}

// Of these numbers those whose route another has too, each behind the first of its route.
fn rows_under(
    alloc: Global,
    firsts: &[Option<u32>],
    numbers: &[u32],
) -> Result<Vec<(u32, u32)>, NoMemory>
    ensures { IfOk result (λ rows. AreUnder firsts.now numbers.now rows.items) }
{
    let mut rows = Vec::new(alloc);
    for number in numbers {
        push_row(firsts, *number, &mut rows)?;
    }
    Ok(rows)
}

fn push_row(firsts: &[Option<u32>], number: u32, rows: &mut Vec<(u32, u32)>) -> Result<(), NoMemory>
    ensures { OnOk result (Joins (Contains rows.old.items) (λ r. (r.1 ≡ number) × (get_or firsts.now r.1 None ≡ Some r.0))
        (Contains rows.new.items)) }
{
    match first_of(firsts, number) {
        Some(first) => {
            rows.push((first, number))?;
            Ok(())
        }
        None => Ok(()),
    }
}

fn first_of(firsts: &[Option<u32>], number: u32) -> Option<u32>
    ensures { result ≡ get_or firsts.now number None }
{
    match firsts.get(number as usize) {
        Some(first) => *first,
        None => None,
    }
}

// Of each two rows with one first.
fn put_rows(alloc: Global, graph: &Graph, rows: &[(u32, u32)], events: &mut Events) -> Put
    requires order { AreByFirsts rows.now }
    requires numbers { (r : ℕ × ℕ) → Contains rows.now r → IsShapeNumber graph.now r.1 }
    ensures { OnOk result (Puts (ToldOfRows graph.now rows.now) events.old.items events.new.items) }
{
    let mut begin = 0;
    for place in 0..rows.len() {
        begin = run_begin(rows, begin, place);
        let before = &rows[..place];
        put_with(alloc, graph, &before[begin..], rows[place].1, events)?;
    }
    Ok(())
}

// Where the run of a place begins, by where that of the place before it does.
fn run_begin(rows: &[(u32, u32)], begin: usize, place: usize) -> usize
    requires order { AreByFirsts rows.now }
    requires place { place < length rows.now }
    requires run { IsRunFrom rows.now begin place }
    ensures within { result ≤ place }
    ensures run { IsRunFrom rows.now result (place + 1) }
{
    if rows[begin].0 == rows[place].0 {
        return begin;
    }
    place
}

// Of a number with each of these.
fn put_with(
    alloc: Global,
    graph: &Graph,
    others: &[(u32, u32)],
    number: u32,
    events: &mut Events,
) -> Put
    requires others { (r : ℕ × ℕ) → Contains others.now r → IsShapeNumber graph.now r.1 }
    requires number { IsShapeNumber graph.now number }
    ensures { OnOk result
        (Puts (ToldOf (λ r. IsEitherTold graph.now r.1 number) others.now) events.old.items events.new.items) }
{
    for other in others {
        put_pair(alloc, graph, other.1, number, events)?;
    }
    Ok(())
}

fn put_pair(alloc: Global, graph: &Graph, one: u32, other: u32, events: &mut Events) -> Put
    requires one { IsShapeNumber graph.now one }
    requires other { IsShapeNumber graph.now other }
    ensures { OnOk result (Puts (IsEitherTold graph.now one other) events.old.items events.new.items) }
{
    if one < other {
        put_told(alloc, graph, one, other, events)?;
        return Ok(());
    }
    if other < one {
        put_told(alloc, graph, other, one, events)?;
    }
    Ok(())
}

// At the greater, with the smaller.
fn put_told(alloc: Global, graph: &Graph, smaller: u32, greater: u32, events: &mut Events) -> Put
    requires smaller { IsShapeNumber graph.now smaller }
    requires greater { IsShapeNumber graph.now greater }
    requires order { smaller < greater }
    ensures { OnOk result (Puts (IsPairTold graph.now smaller greater) events.old.items events.new.items) }
{
    put_event(
        alloc,
        graph,
        Rule::HttpRoutes,
        greater,
        id_text(graph, smaller),
        events,
    )?;
    Ok(())
}
