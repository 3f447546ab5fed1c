// Constraint.Bounds: bounds of `length` and of `range` are in order, and no length is negative.
ghost use Rattle.std.specs.Prelude.{◌≡◌, OnOk, false};
ghost use Rattle.std.specs.Option.{option_map};
ghost use Rattle.sm_tree.specs.View.{node_of};
ghost use Rattle.sm_model.specs.GraphView.{IsShapeNumber, maps_of};
ghost use Rattle.sm_model.specs.PreludeShapes.{is_prelude_id};
ghost use Rattle.sm_model.specs.Reaching.{id_of_number};
ghost use Rattle.sm_rules.specs.Constraints.{HasWrongBounds};
ghost use Rattle.sm_rules.specs.RuleEvents.{IsEventAt, IsEventOf, Puts};
ghost use Rattle.sm_rules.specs.declared.rule.Rule.TheVariants.{ConstraintBounds};
ghost use Rattle.sm_value_rules.specs.steps.Silent.{no_bounds};
ghost use Rattle.sm_value_rules.specs.steps.Bounding.{is_wrong_length, is_wrong_range};

use sm_compile::trait_ids::{LENGTH, RANGE};
use sm_compile::{
    are_lengths_where, are_ordered_where, are_whole_bounds_where, is_range_where, trait_node,
};
use sm_model::{Graph, Kind};
use sm_passes::each::{AtOwn, put_outside};
use sm_passes::putting::{Events, Put, put_if};
use sm_rules::Rule;
use sm_tree::Tree;
use std::alloc::Global;

#[derive(Drop)]
struct Bounds;

impl AtOwn for Bounds {
    ghost tells = { λ rule g id. IsEventAt ConstraintBounds (HasWrongBounds g) id };

    ghost knows = { λ rule g. Unit {0} };

    fn put_own(&self, alloc: Global, graph: &Graph, number: u32, events: &mut Events) -> Put {
        put_both_bounds(alloc, graph, number, events)?;
        Ok(())
    }

    ghost silent = { λ rule. no_bounds };
}

/// Puts the events of the rule.
pub fn put_bounds(alloc: Global, graph: &Graph, events: &mut Events) -> Put
    ensures { OnOk result
        (Puts (IsEventOf ConstraintBounds (HasWrongBounds (maps_of graph.now))) events.old.items events.new.items) }
{
    put_outside(alloc, graph, &Bounds, events)?;
    Ok(())
}

// Those of a shape or member outside of the prelude.
fn put_both_bounds(alloc: Global, graph: &Graph, number: u32, events: &mut Events) -> Put
    requires number { IsShapeNumber graph.now number }
    requires own { is_prelude_id (id_of_number graph.now number) ≡ false }
    ensures { OnOk result
        (Puts (IsEventAt ConstraintBounds (HasWrongBounds (maps_of graph.now)) (id_of_number graph.now number))
        events.old.items events.new.items) }
{
    let length = is_wrong_length(trait_node(graph, number, LENGTH));
    put_if(
        alloc,
        graph,
        Rule::ConstraintBounds,
        number,
        length,
        "length",
        events,
    )?;
    let range = is_wrong_range(trait_node(graph, number, RANGE));
    put_if(
        alloc,
        graph,
        Rule::ConstraintBounds,
        number,
        range,
        "range",
        events,
    )?;
    Ok(())
}

// Whether a value of `length` reads, and is wrong.
fn is_wrong_length(tree: Option<&Tree>) -> bool
    ensures { result ≡ is_wrong_length (option_map (λ t. node_of t.now) tree.entry) }
{
    are_whole_bounds_where(tree) && !(are_ordered_where(tree) && are_lengths_where(tree))
}

// The same of `range`, whose value one of its rows takes.
fn is_wrong_range(tree: Option<&Tree>) -> bool
    ensures { result ≡ is_wrong_range (option_map (λ t. node_of t.now) tree.entry) }
{
    (is_range_where(Kind::Integer, tree) || is_range_where(Kind::Float, tree))
        && !are_ordered_where(tree)
}
