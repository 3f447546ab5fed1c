// Enum.Values: enums have members, and these have values that differ.
ghost use Rattle.std.specs.Prelude.{◌≡◌, OnOk, Some, length};
ghost use Rattle.sm_model.specs.GraphView.{AreShapeNumbers, IsShapeNumber, maps_of};
ghost use Rattle.sm_model.specs.Reaching.{id_of_number};
ghost use Rattle.sm_model.specs.Joins.{Joins};
ghost use Rattle.sm_rules.specs.Constraints.{HasWrongEnum};
ghost use Rattle.sm_rules.specs.RuleEvents.{IsEventAt, IsEventIn, IsEventOf, Puts};
ghost use Rattle.sm_rules.specs.declared.rule.Rule.TheVariants.{EnumValues};
ghost use Rattle.sm_passes.specs.Putting.{Below};
ghost use Rattle.sm_value_rules.specs.steps.Enums as tests;
ghost use Rattle.sm_value_rules.specs.steps.Enums.{HasNone, HasWrong, ToldValue, ToldValueAt, home_of, own_enum, value_at};
ghost use Rattle.sm_value_rules.specs.steps.SeenValues.{Holds};

use crate::seen_values::{SeenValues, value_of};
use sm_compile::members_of;
use sm_model::{Graph, Kind};
use sm_passes::each::{AtEach, put_each};
use sm_passes::owned::own_kind;
use sm_passes::putting::{Events, Put, put_event, put_if};
use sm_rules::Rule;
use std::alloc::Global;

/// Puts the events of the rule. n log n.
pub fn put_enums(alloc: Global, graph: &Graph, events: &mut Events) -> Put
    ensures { OnOk result
        (Puts (IsEventOf EnumValues (HasWrongEnum (maps_of graph.now))) events.old.items events.new.items) }
{
    put_each(alloc, graph, &Empty, events)?;
    put_each(alloc, graph, &Wrong, events)?;
    Ok(())
}

// The type of an enum or intEnum outside of the prelude.
fn own_enum(graph: &Graph, number: u32) -> Option<Kind>
    requires { IsShapeNumber graph.now number }
    ensures { result ≡ own_enum (maps_of graph.now) (id_of_number graph.now number) }
{
    match own_kind(graph, number) {
        Some(kind) => enum_of(kind),
        None => None,
    }
}

fn enum_of(kind: Kind) -> Option<Kind>
    ensures { result ≡ tests.enum_of kind }
{
    match kind {
        Kind::Enum => Some(Kind::Enum),
        Kind::IntEnum => Some(Kind::IntEnum),
        _ => None,
    }
}

// Those that have no members.
#[derive(Drop)]
struct Empty;

impl AtEach for Empty {
    ghost tells = { λ rule g id. IsEventAt EnumValues (HasNone g) id };

    ghost knows = { λ rule g. Unit {0} };

    fn put_at(&self, alloc: Global, graph: &Graph, number: u32, events: &mut Events) -> Put {
        match own_enum(graph, number) {
            Some(_) => {
                let none = are_none(members_of(graph, number));
                put_if(alloc, graph, Rule::EnumValues, number, none, "", events)?;
                Ok(())
            }
            None => Ok(()),
        }
    }
}

// Whether there are no members.
fn are_none(members: &[u32]) -> bool
    ensures { result ≡ tests.are_none members.now }
{
    members.is_empty()
}

// Members with wrong values.
#[derive(Drop)]
struct Wrong;

impl AtEach for Wrong {
    ghost tells = { λ rule g. IsEventIn EnumValues (HasWrong g) (home_of g) };

    ghost knows = { λ rule g. Unit {0} };

    fn put_at(&self, alloc: Global, graph: &Graph, number: u32, events: &mut Events) -> Put {
        match own_enum(graph, number) {
            Some(kind) => {
                put_values(alloc, graph, kind, members_of(graph, number), events)?;
                Ok(())
            }
            None => Ok(()),
        }
    }
}

// Of these members of an enum of this type.
fn put_values(alloc: Global, graph: &Graph, kind: Kind, members: &[u32], events: &mut Events) -> Put
    requires { AreShapeNumbers graph.now members.now }
    ensures { OnOk result
        (Puts (Below (ToldValueAt graph.now kind members.now) (length members.now)) events.old.items events.new.items) }
{
    let mut seen = SeenValues::new(alloc);
    for member in members {
        put_value(alloc, graph, kind, *member, &mut seen, events)?;
    }
    Ok(())
}

fn put_value<'a>(
    alloc: Global,
    graph: &'a Graph,
    kind: Kind,
    member: u32,
    seen: &mut SeenValues<'a>,
    events: &mut Events,
) -> Put
    requires { IsShapeNumber graph.now member }
    ensures seen { OnOk result (Joins (Holds seen.old) (λ n. value_at graph.now kind member ≡ Some n) (Holds seen.new)) }
    ensures told { OnOk result
        (Puts (ToldValue graph.now (Holds seen.old) (value_at graph.now kind member) member) events.old.items events.new.items) }
{
    match value_of(graph, kind, member) {
        Some(value) => {
            let new = seen.take(value)?;
            put_if(alloc, graph, Rule::EnumValues, member, !new, "", events)?;
            Ok(())
        }
        None => {
            put_event(alloc, graph, Rule::EnumValues, member, "", events)?;
            Ok(())
        }
    }
}
