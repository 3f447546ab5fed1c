// Http.Target: what is bound to a part of a message targets what may stand there, and nothing is in the document beside a payload.
ghost use Rattle.std.specs.Prelude.{◌≡◌, ◌<◌, ◌&&◌, OnOk, false, get_or, length, map, true};
ghost use Rattle.sm_model.specs.GraphView.{AreShapeNumbers, IsShapeNumber, entries_of, maps_of};
ghost use Rattle.sm_model.specs.Reaching.{id_of_number};
ghost use Rattle.sm_select.specs.Ways.{AreWays};
ghost use Rattle.sm_rules.specs.Http.{IsBoundWrongly};
ghost use Rattle.sm_rules.specs.RuleEvents.{IsEventIn, IsEventOf, Puts};
ghost use Rattle.sm_rules.specs.declared.rule.Rule.TheVariants.{HttpTarget};
ghost use Rattle.sm_http_traits.specs.Bindings.{side_said};
ghost use Rattle.sm_passes.specs.Owned.{is_own_shape};
ghost use Rattle.sm_passes.specs.Putting.{ToldOf};
ghost use Rattle.sm_http_rules.specs.steps.BoundTargets.{ToldBeside, ToldBinding, ToldBoundMember, ToldOnSide, has_payload};
ghost use Rattle.sm_http_rules.specs.steps.BoundTargets.{home_of_binding, is_bound_by, is_in_document_at, is_wrong_target, marks_of};
ghost use Rattle.sm_http_rules.specs.steps.LeftOut.{AreLeading};
ghost use Rattle.sm_http_rules.specs.Sides.{AreSides};

use crate::allows::allows;
use crate::left_out::leading_to_left_out;
use crate::sides::Sides;
use sm_compile::members_of;
use sm_compile::trait_ids::HTTP_PAYLOAD;
use sm_http_traits::bindings::{
    BindingKind, BindingSide, binding_name, bindings_of, carries_binding, carries_one,
};
use sm_model::Graph;
use sm_passes::carried::is_member;
use sm_passes::each::{AtEach, put_each};
use sm_passes::owned::is_own_shape;
use sm_passes::putting::{Events, Put, put_if};
use sm_rules::Rule;
use sm_select::Ways;
use std::alloc::Global;

/// Puts the events of the rule, by the ways of the graph and the shapes on each side. n log n.
pub fn put_bound_targets(
    alloc: Global,
    graph: &Graph,
    ways: &Ways,
    sides: &Sides,
    events: &mut Events,
) -> Put
    requires ways { AreWays graph.now ways.now }
    requires sides { AreSides graph.now sides.now }
    ensures { OnOk result
        (Puts (IsEventOf HttpTarget (IsBoundWrongly (maps_of graph.now))) events.old.items events.new.items) }
{
    let leading = leading_to_left_out(alloc, graph, &ways.links)?;
    put_by_marks(alloc, graph, sides, leading.as_slice(), events)?;
    Ok(())
}

fn put_by_marks(
    alloc: Global,
    graph: &Graph,
    sides: &Sides,
    leading: &[bool],
    events: &mut Events,
) -> Put
    requires sides { AreSides graph.now sides.now }
    requires leading { AreLeading graph.now leading.now }
    ensures { OnOk result
        (Puts (IsEventOf HttpTarget (IsBoundWrongly (maps_of graph.now))) events.old.items events.new.items) }
{
    put_each(alloc, graph, &BoundTargets { sides, leading }, events)?;
    Ok(())
}

#[derive(Drop)]
struct BoundTargets<'a> {
    sides: &'a Sides,
    // Marks of what leads to values that aren't carried.
    leading: &'a [bool],
}

impl AtEach for BoundTargets<'_> {
    ghost tells = { λ rule g. IsEventIn HttpTarget (IsBoundWrongly g) (home_of_binding g) };

    ghost knows = { λ rule g. AreSides g rule.sides.now × AreLeading g rule.leading.now };

    fn put_at(&self, alloc: Global, graph: &Graph, number: u32, events: &mut Events) -> Put {
        if is_own_shape(graph, number) {
            put_on_side(alloc, graph, self, number, BindingSide::Input, events)?;
            put_on_side(alloc, graph, self, number, BindingSide::Output, events)?;
            put_on_side(alloc, graph, self, number, BindingSide::Error, events)?;
            Ok(())
        } else {
            Ok(())
        }
    }
}

// Of a shape, on one side.
fn put_on_side(
    alloc: Global,
    graph: &Graph,
    rule: &BoundTargets<'_>,
    shape: u32,
    side: BindingSide,
    events: &mut Events,
) -> Put
    requires shape { IsShapeNumber graph.now shape }
    requires own { is_own_shape (maps_of graph.now) (id_of_number graph.now shape) ≡ true }
    requires sides { AreSides graph.now rule.now.sides.now }
    requires leading { AreLeading graph.now rule.now.leading.now }
    ensures { OnOk result
        (Puts (ToldOnSide (maps_of graph.now) (side_said side) (id_of_number graph.now shape)) events.old.items events.new.items) }
{
    if is_on(rule.sides, side, shape as usize) {
        put_of_members(
            alloc,
            graph,
            rule.leading,
            side,
            members_of(graph, shape),
            events,
        )?;
        Ok(())
    } else {
        Ok(())
    }
}

fn is_on(sides: &Sides, side: BindingSide, number: usize) -> bool
    requires inputs { number < length sides.now.inputs.items }
    requires outputs { number < length sides.now.outputs.items }
    requires errors { number < length sides.now.errors.items }
    ensures { result ≡ get_or (marks_of sides.now side) number false }
{
    match side {
        BindingSide::Input => sides.inputs[number],
        BindingSide::Output => sides.outputs[number],
        BindingSide::Error => sides.errors[number],
    }
}

// Of the members of a shape on a side.
fn put_of_members(
    alloc: Global,
    graph: &Graph,
    leading: &[bool],
    side: BindingSide,
    members: &[u32],
    events: &mut Events,
) -> Put
    requires members { AreShapeNumbers graph.now members.now }
    requires leading { length leading.now ≡ length (entries_of graph.now) }
    ensures { OnOk result
        (Puts (ToldOf (ToldBoundMember graph.now leading.now side
        (has_payload (maps_of graph.now) (map (id_of_number graph.now) members.now))) members.now)
        events.old.items events.new.items) }
{
    let payload = has_payload(graph, members);
    for member in members {
        put_member(alloc, graph, leading, side, payload, *member, events)?;
    }
    Ok(())
}

// Whether one of these is the payload.
fn has_payload(graph: &Graph, members: &[u32]) -> bool
    requires { AreShapeNumbers graph.now members.now }
    ensures { result ≡ has_payload (maps_of graph.now) (map (id_of_number graph.now) members.now) }
{
    for member in members {
        if is_bound_by(graph, BindingKind::Payload, *member) {
            return true;
        }
    }
    false
}

fn put_member(
    alloc: Global,
    graph: &Graph,
    leading: &[bool],
    side: BindingSide,
    payload: bool,
    member: u32,
    events: &mut Events,
) -> Put
    requires member { IsShapeNumber graph.now member }
    requires leading { length leading.now ≡ length (entries_of graph.now) }
    ensures { OnOk result
        (Puts (ToldBoundMember graph.now leading.now side payload member) events.old.items events.new.items) }
{
    put_bindings(alloc, graph, leading, member, bindings_of(side), events)?;
    put_beside(alloc, graph, side, payload, member, events)?;
    Ok(())
}

// Where the target isn't what one of these bindings allows.
fn put_bindings(
    alloc: Global,
    graph: &Graph,
    leading: &[bool],
    member: u32,
    bindings: &[BindingKind],
    events: &mut Events,
) -> Put
    requires member { IsShapeNumber graph.now member }
    requires leading { length leading.now ≡ length (entries_of graph.now) }
    ensures { OnOk result
        (Puts (ToldOf (ToldBinding graph.now leading.now member) bindings.now) events.old.items events.new.items) }
{
    for binding in bindings {
        put_binding(alloc, graph, leading, member, *binding, events)?;
    }
    Ok(())
}

fn put_binding(
    alloc: Global,
    graph: &Graph,
    leading: &[bool],
    member: u32,
    binding: BindingKind,
    events: &mut Events,
) -> Put
    requires member { IsShapeNumber graph.now member }
    requires leading { length leading.now ≡ length (entries_of graph.now) }
    ensures { OnOk result (Puts (ToldBinding graph.now leading.now member binding) events.old.items events.new.items) }
{
    let wrong = is_wrong_target(graph, leading, binding, member);
    put_if(
        alloc,
        graph,
        Rule::HttpTarget,
        member,
        wrong,
        binding_name(binding),
        events,
    )?;
    Ok(())
}

// What leads to a value that isn't carried isn't looked at.
fn is_wrong_target(graph: &Graph, leading: &[bool], binding: BindingKind, member: u32) -> bool
    requires member { IsShapeNumber graph.now member }
    requires leading { length leading.now ≡ length (entries_of graph.now) }
    ensures { result ≡ is_wrong_target graph.now leading.now member binding }
{
    is_bound_by(graph, binding, member)
        && (!leading[member as usize] && !allows(graph, binding, member))
}

fn is_bound_by(graph: &Graph, binding: BindingKind, member: u32) -> bool
    requires { IsShapeNumber graph.now member }
    ensures { result ≡ is_bound_by (maps_of graph.now) binding (id_of_number graph.now member) }
{
    is_member(graph, member) && carries_binding(graph, binding, member)
}

// Where the shape has a payload, and this member stands in the document.
fn put_beside(
    alloc: Global,
    graph: &Graph,
    side: BindingSide,
    payload: bool,
    member: u32,
    events: &mut Events,
) -> Put
    requires { IsShapeNumber graph.now member }
    ensures { OnOk result (Puts (ToldBeside graph.now side payload member) events.old.items events.new.items) }
{
    let beside = is_beside(graph, side, payload, member);
    put_if(
        alloc,
        graph,
        Rule::HttpTarget,
        member,
        beside,
        HTTP_PAYLOAD,
        events,
    )?;
    Ok(())
}

fn is_beside(graph: &Graph, side: BindingSide, payload: bool, member: u32) -> bool
    requires { IsShapeNumber graph.now member }
    ensures { result ≡ (payload && is_in_document_at (maps_of graph.now) side (id_of_number graph.now member)) }
{
    payload && is_in_document(graph, side, member)
}

fn is_in_document(graph: &Graph, side: BindingSide, member: u32) -> bool
    requires { IsShapeNumber graph.now member }
    ensures { result ≡ is_in_document_at (maps_of graph.now) side (id_of_number graph.now member) }
{
    is_member(graph, member) && !carries_one(graph, bindings_of(side), member)
}
