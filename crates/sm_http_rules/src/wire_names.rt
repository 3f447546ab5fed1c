// Wire.Names: names of members in messages differ, and no header begins with a prefix of its shape.
ghost use Rattle.std.specs.Prelude.{◌≡◌, ◌<◌, OnOk, length, true};
ghost use Rattle.sm_model.specs.GraphView.{IsShapeNumber, maps_of};
ghost use Rattle.sm_model.specs.Reaching.{id_of_number};
ghost use Rattle.sm_rules.specs.WireNames.{HasWireNameAgain};
ghost use Rattle.sm_rules.specs.RuleEvents.{IsEventIn, IsEventOf, Puts};
ghost use Rattle.sm_rules.specs.declared.rule.Rule.TheVariants.{WireNames};
ghost use Rattle.sm_passes.specs.Owned.{is_own_shape};
ghost use Rattle.sm_http_rules.specs.Sides.{AreSides};
ghost use Rattle.sm_http_rules.specs.steps.WireNames.{ToldHeaders, ToldJson, ToldNames, ToldQueries, home_of, is_named, is_on_side};

use crate::again::put_again;
use crate::naming::Naming;
use crate::prefixes::put_prefixed;
use crate::sides::Sides;
use sm_compile::kind_of;
use sm_model::{Graph, Kind, mark_at};
use sm_passes::each::{AtEach, put_each};
use sm_passes::owned::is_own_shape;
use sm_passes::putting::{Events, Put};
use std::alloc::Global;

/// Puts the events of the rule, by the shapes on each side. n log n.
pub fn put_wire_names(alloc: Global, graph: &Graph, sides: &Sides, events: &mut Events) -> Put
    requires { AreSides graph.now sides.now }
    ensures { OnOk result
        (Puts (IsEventOf WireNames (HasWireNameAgain (maps_of graph.now))) events.old.items events.new.items) }
{
    put_each(alloc, graph, &Named { sides }, events)?;
    Ok(())
}

#[derive(Drop)]
struct Named<'a> {
    sides: &'a Sides,
}

impl AtEach for Named<'_> {
    ghost tells = { λ rule g. IsEventIn WireNames (HasWireNameAgain g) (home_of g) };

    ghost knows = { λ rule g. AreSides g rule.sides.now };

    fn put_at(&self, alloc: Global, graph: &Graph, number: u32, events: &mut Events) -> Put {
        if is_own_shape(graph, number) {
            put_names(alloc, graph, self.sides, number, events)?;
            Ok(())
        } else {
            Ok(())
        }
    }
}

// Of the members of a shape.
fn put_names(alloc: Global, graph: &Graph, sides: &Sides, shape: u32, events: &mut Events) -> Put
    requires shape { IsShapeNumber graph.now shape }
    requires own { is_own_shape (maps_of graph.now) (id_of_number graph.now shape) ≡ true }
    requires sides { AreSides graph.now sides.now }
    ensures { OnOk result (Puts (ToldNames (maps_of graph.now) (id_of_number graph.now shape)) events.old.items events.new.items) }
{
    put_headers(alloc, graph, sides, shape, events)?;
    put_queries(alloc, graph, sides, shape, events)?;
    put_json(alloc, graph, shape, events)?;
    Ok(())
}

fn put_headers(alloc: Global, graph: &Graph, sides: &Sides, shape: u32, events: &mut Events) -> Put
    requires shape { IsShapeNumber graph.now shape }
    requires own { is_own_shape (maps_of graph.now) (id_of_number graph.now shape) ≡ true }
    requires sides { AreSides graph.now sides.now }
    ensures { OnOk result (Puts (ToldHeaders (maps_of graph.now) (id_of_number graph.now shape)) events.old.items events.new.items) }
{
    if is_on_side(sides, shape as usize) {
        put_again(alloc, graph, Naming::Header, shape, events)?;
        put_prefixed(alloc, graph, shape, events)?;
        Ok(())
    } else {
        Ok(())
    }
}

fn is_on_side(sides: &Sides, number: usize) -> bool
    requires inputs { number < length sides.now.inputs.items }
    requires outputs { number < length sides.now.outputs.items }
    requires errors { number < length sides.now.errors.items }
    ensures { result ≡ is_on_side sides.now number }
{
    sides.inputs[number] || sides.outputs[number] || sides.errors[number]
}

fn put_queries(alloc: Global, graph: &Graph, sides: &Sides, shape: u32, events: &mut Events) -> Put
    requires shape { IsShapeNumber graph.now shape }
    requires own { is_own_shape (maps_of graph.now) (id_of_number graph.now shape) ≡ true }
    requires sides { AreSides graph.now sides.now }
    ensures { OnOk result (Puts (ToldQueries (maps_of graph.now) (id_of_number graph.now shape)) events.old.items events.new.items) }
{
    if mark_at(sides.inputs.as_slice(), shape) {
        put_again(alloc, graph, Naming::Query, shape, events)?;
        Ok(())
    } else {
        Ok(())
    }
}

fn put_json(alloc: Global, graph: &Graph, shape: u32, events: &mut Events) -> Put
    requires shape { IsShapeNumber graph.now shape }
    requires own { is_own_shape (maps_of graph.now) (id_of_number graph.now shape) ≡ true }
    ensures { OnOk result (Puts (ToldJson (maps_of graph.now) (id_of_number graph.now shape)) events.old.items events.new.items) }
{
    if is_named(kind_of(graph, shape)) {
        put_again(alloc, graph, Naming::Json, shape, events)?;
        Ok(())
    } else {
        Ok(())
    }
}

fn is_named(kind: Option<Kind>) -> bool
    ensures { result ≡ is_named kind }
{
    match kind {
        Some(kind) => match kind {
            Kind::Structure | Kind::Union => true,
            _ => false,
        },
        None => false,
    }
}
