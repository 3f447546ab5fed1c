// What is told of labels, and of members that are bound to labels, by rows of their names.
ghost use Rattle.std.specs.Prelude.{◌≡◌, ◌&&◌, ℕ, List, OnOk, is_none, is_some, not};
ghost use Rattle.std.specs.List.{Contains};
ghost use Rattle.sm_model.specs.GraphView.{IsShapeNumber, maps_of};
ghost use Rattle.sm_model.specs.Reaching.{id_of_number};
ghost use Rattle.sm_rules.specs.Bindings.{is_string, passes, targets};
ghost use Rattle.sm_rules.specs.RuleEvents.{Puts};
ghost use Rattle.sm_passes.specs.Firsts.{number_in};
ghost use Rattle.sm_passes.specs.Putting.{ToldOf};
ghost use Rattle.sm_http_rules.specs.steps.Labels.{ToldByRows, ToldLabel, ToldMember, is_wrong_member};

use crate::targets::{Wanted, targets_at};
use sm_compile::trait_ids::REQUIRED;
use sm_model::Graph;
use sm_passes::carried::carries;
use sm_passes::firsts::{first_numbers, first_of};
use sm_passes::putting::{Events, Put, put_if};
use sm_rules::Rule;
use sm_tree::Text;
use std::alloc::Global;
use std::collections::BTreeMap;

/// By the rows of all labels, of the greedy ones, and of members.
pub(crate) fn put_by_rows(
    alloc: Global,
    graph: &Graph,
    operation: u32,
    labels: &[(Text, u32)],
    greedy: &[(Text, u32)],
    bound: &[(Text, u32)],
    events: &mut Events,
) -> Put
    requires operation { IsShapeNumber graph.now operation }
    requires members { (r : List ℕ × ℕ) → Contains bound.now r → IsShapeNumber graph.now r.1 }
    ensures { OnOk result
        (Puts (ToldByRows graph.now (id_of_number graph.now operation) labels.now greedy.now bound.now) events.old.items events.new.items) }
{
    let by_label = first_numbers(alloc, labels)?;
    let by_greedy = first_numbers(alloc, greedy)?;
    let by_member = first_numbers(alloc, bound)?;
    put_unbound(alloc, graph, operation, &by_member, labels, events)?;
    put_bound(
        alloc, graph, operation, &by_label, &by_greedy, bound, events,
    )?;
    Ok(())
}

// Of labels to which no member is bound.
fn put_unbound(
    alloc: Global,
    graph: &Graph,
    operation: u32,
    by_member: &BTreeMap<&str, u32>,
    labels: &[(Text, u32)],
    events: &mut Events,
) -> Put
    requires { IsShapeNumber graph.now operation }
    ensures { OnOk result
        (Puts (ToldOf (ToldLabel (id_of_number graph.now operation) (number_in by_member.now)) labels.now)
        events.old.items events.new.items) }
{
    for row in labels {
        put_label(alloc, graph, operation, by_member, row, events)?;
    }
    Ok(())
}

fn put_label(
    alloc: Global,
    graph: &Graph,
    operation: u32,
    by_member: &BTreeMap<&str, u32>,
    row: &(Text, u32),
    events: &mut Events,
) -> Put
    requires { IsShapeNumber graph.now operation }
    ensures { OnOk result
        (Puts (ToldLabel (id_of_number graph.now operation) (number_in by_member.now) row.now) events.old.items events.new.items) }
{
    let name = row.0.as_str();
    let unbound = is_missing(first_of(by_member, name));
    put_if(
        alloc,
        graph,
        Rule::HttpLabels,
        operation,
        unbound,
        name,
        events,
    )?;
    Ok(())
}

// Of members that are bound to no label, aren't required, or target no string where the label is greedy.
fn put_bound(
    alloc: Global,
    graph: &Graph,
    operation: u32,
    by_label: &BTreeMap<&str, u32>,
    by_greedy: &BTreeMap<&str, u32>,
    bound: &[(Text, u32)],
    events: &mut Events,
) -> Put
    requires operation { IsShapeNumber graph.now operation }
    requires members { (r : List ℕ × ℕ) → Contains bound.now r → IsShapeNumber graph.now r.1 }
    ensures { OnOk result
        (Puts (ToldOf (ToldMember graph.now (id_of_number graph.now operation) (number_in by_label.now) (number_in by_greedy.now))
        bound.now) events.old.items events.new.items) }
{
    for row in bound {
        put_member(alloc, graph, operation, by_label, by_greedy, row, events)?;
    }
    Ok(())
}

fn put_member(
    alloc: Global,
    graph: &Graph,
    operation: u32,
    by_label: &BTreeMap<&str, u32>,
    by_greedy: &BTreeMap<&str, u32>,
    row: &(Text, u32),
    events: &mut Events,
) -> Put
    requires operation { IsShapeNumber graph.now operation }
    requires member { IsShapeNumber graph.now row.now.1 }
    ensures { OnOk result
        (Puts (ToldMember graph.now (id_of_number graph.now operation) (number_in by_label.now) (number_in by_greedy.now) row.now)
        events.old.items events.new.items) }
{
    let name = row.0.as_str();
    let wrong = is_wrong_member(
        graph,
        row.1,
        first_of(by_label, name),
        first_of(by_greedy, name),
    );
    put_if(
        alloc,
        graph,
        Rule::HttpLabels,
        operation,
        wrong,
        name,
        events,
    )?;
    Ok(())
}

fn is_wrong_member(graph: &Graph, member: u32, label: Option<u32>, greedy: Option<u32>) -> bool
    requires { IsShapeNumber graph.now member }
    ensures { result ≡ is_wrong_member (maps_of graph.now) (id_of_number graph.now member) label greedy }
{
    is_missing(label) || !carries(graph, member, REQUIRED) || is_other_shape(graph, member, greedy)
}

fn is_missing(found: Option<u32>) -> bool
    ensures { result ≡ is_none found }
{
    match found {
        Some(_) => false,
        None => true,
    }
}

// Where the label is greedy, whether the target is no string.
fn is_other_shape(graph: &Graph, member: u32, greedy: Option<u32>) -> bool
    requires { IsShapeNumber graph.now member }
    ensures { result ≡ (is_some greedy && not (targets (passes is_string) (maps_of graph.now) (id_of_number graph.now member))) }
{
    match greedy {
        Some(_) => !targets_at(graph, Wanted::Text, member),
        None => false,
    }
}
