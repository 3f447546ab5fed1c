// Target.Kind: what references name is of a type that may stand there.
ghost use Rattle.std.specs.Prelude.{◌≡◌, OnOk, Some};
ghost use Rattle.std.specs.FinMap as fin;
ghost use Rattle.sm_model.specs.GraphView.{AreShapeNumbers, IsShapeNumber, maps_of};
ghost use Rattle.sm_model.specs.Reaching.{id_of_number};
ghost use Rattle.sm_compile.specs.Looked.{targets_unit};
ghost use Rattle.sm_rules.specs.Targets as targets;
ghost use Rattle.sm_rules.specs.Targets.{RefersToOther, TargetsOther};
ghost use Rattle.sm_rules.specs.RuleEvents.{IsEventIn, IsEventOf, Puts};
ghost use Rattle.sm_rules.specs.declared.rule.Rule.TheVariants.{TargetKind};
ghost use Rattle.sm_passes.specs.Putting.{ToldOf};
ghost use Rattle.sm_reference_rules.specs.steps.Targets as tests;
ghost use Rattle.sm_reference_rules.specs.steps.Targets.{ToldMember, ToldReferred};

use crate::references::{AtReference, put_bodies};
use sm_compile::trait_ids::ERROR;
use sm_compile::{
    has_trait, has_values, id_text, is_text_kind, kind_of, may_target, member_name, members_of,
    target_of, targets_unit,
};
use sm_model::{Graph, Kind, Relation};
use sm_passes::each::{AtEach, put_each};
use sm_passes::owned::own_kind;
use sm_passes::putting::{Events, Put, put_if};
use sm_passes::rows::kinds::is_kind;
use sm_rules::Rule;
use std::alloc::Global;

/// Puts the events of the rule. n log n.
pub fn put_kinds(alloc: Global, graph: &Graph, events: &mut Events) -> Put
    ensures { OnOk result
        (Puts (IsEventOf TargetKind (RefersToOther (maps_of graph.now))) events.old.items events.new.items) }
{
    put_each(alloc, graph, &Targets, events)?;
    put_bodies(alloc, graph, &Referred, events)?;
    Ok(())
}

// What members target.
#[derive(Drop)]
struct Targets;

impl AtEach for Targets {
    ghost tells = { λ rule g. IsEventIn TargetKind (TargetsOther g) (λ from id h. h.shape) };

    ghost knows = { λ rule g. Unit {0} };

    fn put_at(&self, alloc: Global, graph: &Graph, number: u32, events: &mut Events) -> Put {
        match own_kind(graph, number) {
            Some(home) => {
                put_members(
                    alloc,
                    graph,
                    number,
                    home,
                    members_of(graph, number),
                    events,
                )?;
                Ok(())
            }
            None => Ok(()),
        }
    }
}

// Of these members of a shape of this type.
fn put_members(
    alloc: Global,
    graph: &Graph,
    shape: u32,
    home: Kind,
    members: &[u32],
    events: &mut Events,
) -> Put
    requires shape { IsShapeNumber graph.now shape }
    requires numbers { AreShapeNumbers graph.now members.now }
    ensures { OnOk result
        (Puts (ToldOf (ToldMember graph.now home shape) members.now) events.old.items events.new.items) }
{
    for member in members {
        put_member(alloc, graph, shape, home, *member, events)?;
    }
    Ok(())
}

fn put_member(
    alloc: Global,
    graph: &Graph,
    shape: u32,
    home: Kind,
    member: u32,
    events: &mut Events,
) -> Put
    requires shape { IsShapeNumber graph.now shape }
    requires member { IsShapeNumber graph.now member }
    ensures { OnOk result
        (Puts (ToldMember graph.now home shape member) events.old.items events.new.items) }
{
    match target_of(graph, member) {
        Some(target) => {
            let key = is_key(graph, shape, member);
            let other = !may_stand(graph, home, key, targets_unit(graph, member), target);
            put_if(
                alloc,
                graph,
                Rule::TargetKind,
                member,
                other,
                id_text(graph, target),
                events,
            )?;
            Ok(())
        }
        None => Ok(()),
    }
}

// Whether the member is the key of a map, where its shape is one.
fn is_key(graph: &Graph, shape: u32, member: u32) -> bool
    requires shape { IsShapeNumber graph.now shape }
    requires member { IsShapeNumber graph.now member }
    ensures { result ≡ targets.is_key (id_of_number graph.now shape) (id_of_number graph.now member) }
{
    match member_name(graph, shape, member) {
        Some(name) => name == "key",
        None => false,
    }
}

// Whether a member of a shape of this type may target what stands at a number.
fn may_stand(graph: &Graph, home: Kind, key: bool, unit: bool, target: u32) -> bool
    requires { IsShapeNumber graph.now target }
    ensures { result ≡ tests.may_stand_where home key unit (fin.get (maps_of graph.now).shapes (id_of_number graph.now target)) }
{
    match kind_of(graph, target) {
        Some(kind) => may_be_target(home, key, unit, kind),
        None => false,
    }
}

fn may_be_target(home: Kind, key: bool, unit: bool, kind: Kind) -> bool
    ensures { result ≡ targets.may_be_target home key unit kind }
{
    match home {
        Kind::Map => {
            if key {
                is_text_kind(kind)
            } else {
                may_target(home, unit, kind)
            }
        }
        _ => may_target(home, unit, kind),
    }
}

// What bodies refer to.
#[derive(Drop)]
struct Referred;

impl AtReference for Referred {
    ghost tells = { λ rule g. ToldReferred g };

    fn put_for(
        &self,
        alloc: Global,
        graph: &Graph,
        from: u32,
        relation: Relation,
        id: &str,
        events: &mut Events,
    ) -> Put {
        match graph.number(id) {
            Some(to) => {
                let other = !may_be_referred(graph, relation, to);
                put_if(alloc, graph, Rule::TargetKind, from, other, id, events)?;
                Ok(())
            }
            None => Ok(()),
        }
    }
}

// Whether a relation of a body may lead to what stands at a number.
fn may_be_referred(graph: &Graph, relation: Relation, number: u32) -> bool
    requires { IsShapeNumber graph.now number }
    ensures { result ≡ tests.may_be_where relation (fin.get (maps_of graph.now).shapes (id_of_number graph.now number)) }
{
    match kind_of(graph, number) {
        Some(kind) => may_be_of(relation, kind, has_trait(graph, number, ERROR)),
        None => false,
    }
}

// The same by its type, and whether it is an error.
fn may_be_of(relation: Relation, kind: Kind, error: bool) -> bool
    ensures { result ≡ tests.may_be_of relation kind error }
{
    match relation {
        Relation::Input | Relation::Output => is_kind(Kind::Structure, kind) && !error,
        Relation::Error => is_kind(Kind::Structure, kind) && error,
        Relation::Operation => is_kind(Kind::Operation, kind),
        Relation::Resource => is_kind(Kind::Resource, kind),
        Relation::Identifier => is_kind(Kind::Text, kind),
        Relation::Property => has_values(kind),
        Relation::Member | Relation::Container | Relation::Target => true,
    }
}
