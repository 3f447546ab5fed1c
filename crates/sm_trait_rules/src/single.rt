// Trait.Single: traits that one member of a structure may carry.
ghost use Rattle.std.specs.Prelude.{◌≡◌, ◌&&◌, ◌||◌, MatchOption, OnOk, false, map, true};
ghost use Rattle.sm_model.specs.GraphView.{AreShapeNumbers, IsShapeNumber, maps_of};
ghost use Rattle.sm_model.specs.Reaching.{id_of_number};
ghost use Rattle.sm_rules.specs.Traits.{CarriesTwice};
ghost use Rattle.sm_rules.specs.RuleEvents.{IsEventAt, IsEventOf, Puts};
ghost use Rattle.sm_rules.specs.declared.rule.Rule.TheVariants.{TraitSingle};
ghost use Rattle.sm_http_traits.specs.Carriers.{is_own_structure};
ghost use Rattle.sm_trait_rules.specs.steps.Twice.{ToldTwice, carried_twice};
ghost use Rattle.sm_passes.specs.Carrying.{carries};

use sm_compile::trait_ids::{
    HTTP_PAYLOAD, HTTP_PREFIX_HEADERS, HTTP_QUERY_PARAMS, HTTP_RESPONSE_CODE, IDEMPOTENCY_TOKEN,
};
use sm_compile::{members_of, trait_node};
use sm_http_traits::carriers::is_own_structure;
use sm_model::Graph;
use sm_passes::putting::{Events, Put, put_if};
use sm_rules::Rule;
use std::alloc::Global;

/// Puts the events of the rule.
pub fn put_single(alloc: Global, graph: &Graph, events: &mut Events) -> Put
    ensures { OnOk result
        (Puts (IsEventOf TraitSingle (CarriesTwice (maps_of graph.now))) events.old.items events.new.items) }
{
    for number in 0..graph.count() {
        put_single_at(alloc, graph, number, events)?;
    }
    Ok(())
}

fn put_single_at(alloc: Global, graph: &Graph, number: u32, events: &mut Events) -> Put
    requires { IsShapeNumber graph.now number }
    ensures { OnOk result
        (Puts (IsEventAt TraitSingle (CarriesTwice (maps_of graph.now)) (id_of_number graph.now number))
        events.old.items events.new.items) }
{
    if is_own_structure(graph, number) {
        put_single_of(alloc, graph, number, events)
    } else {
        Ok(())
    }
}

fn put_single_of(alloc: Global, graph: &Graph, number: u32, events: &mut Events) -> Put
    requires number { IsShapeNumber graph.now number }
    requires own { is_own_structure (maps_of graph.now) (id_of_number graph.now number) ≡ true }
    ensures { OnOk result
        (Puts (IsEventAt TraitSingle (CarriesTwice (maps_of graph.now)) (id_of_number graph.now number))
        events.old.items events.new.items) }
{
    put_if_twice(alloc, graph, number, IDEMPOTENCY_TOKEN, events)?;
    put_if_twice(alloc, graph, number, HTTP_PAYLOAD, events)?;
    put_if_twice(alloc, graph, number, HTTP_PREFIX_HEADERS, events)?;
    put_if_twice(alloc, graph, number, HTTP_QUERY_PARAMS, events)?;
    put_if_twice(alloc, graph, number, HTTP_RESPONSE_CODE, events)?;
    Ok(())
}

fn put_if_twice(alloc: Global, graph: &Graph, number: u32, name: &str, events: &mut Events) -> Put
    requires { IsShapeNumber graph.now number }
    ensures { OnOk result
        (Puts (ToldTwice (maps_of graph.now) (id_of_number graph.now number) name.now) events.old.items events.new.items) }
{
    let twice = is_carried_twice(graph, members_of(graph, number), name);
    put_if(alloc, graph, Rule::TraitSingle, number, twice, name, events)?;
    Ok(())
}

// Whether two of these carry a trait.
fn is_carried_twice(graph: &Graph, members: &[u32], name: &str) -> bool
    requires { AreShapeNumbers graph.now members.now }
    ensures { result ≡ carried_twice (maps_of graph.now) name.now (map (id_of_number graph.now) members.now) }
{
    let mut seen = false;
    for member in members {
        match seen_now(graph, *member, name, seen) {
            Some(now) => seen = now,
            None => return true,
        }
    }
    false
}

// Whether a member that carries the trait was seen, with this one; `None` where it is the second.
fn seen_now(graph: &Graph, member: u32, name: &str, seen: bool) -> Option<bool>
    requires { IsShapeNumber graph.now member }
    ensures { MatchOption result
        ((carries (maps_of graph.now) name.now (id_of_number graph.now member) && seen) ≡ true)
        (λ now. ((carries (maps_of graph.now) name.now (id_of_number graph.now member) && seen) ≡ false)
        × (now ≡ (seen || carries (maps_of graph.now) name.now (id_of_number graph.now member)))) }
{
    match trait_node(graph, member, name) {
        Some(_) => if seen { None } else { Some(true) },
        None => Some(seen),
    }
}
