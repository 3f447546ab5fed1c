// Trait.Unknown: each trait has a row in the table, or the model defines it.
ghost use Rattle.std.specs.Prelude.{◌≡◌, OnOk, is_some};
ghost use Rattle.sm_model.specs.GraphView.{IsShapeNumber, maps_of};
ghost use Rattle.sm_model.specs.Reaching.{id_of_number};
ghost use Rattle.sm_compile.specs.Sound.{trait_of};
ghost use Rattle.sm_compile.specs.TraitIds.{trait_id};
ghost use Rattle.sm_rules.specs.RuleEvents.{IsEventAt, IsEventOf, Puts, rule_event};
ghost use Rattle.sm_rules.specs.declared.rule.Rule.TheVariants.{TraitUnknown};
ghost use Rattle.sm_rules.specs.Traits.{HasUnknownTrait};
ghost use Rattle.sm_trait_rules.specs.steps.Knowing.{ToldUnknown, is_defined, is_unknown};
ghost use Rattle.sm_trait_rules.specs.steps.Silent.{no_unknown};
ghost use Rattle.sm_passes.specs.Putting.{IsWhere, ToldOf};

use crate::known::has_row;
use sm_compile::trait_ids::TRAIT;
use sm_compile::trait_node;
use sm_model::{Graph, is_in_prelude};
use sm_passes::each::{AtOwn, put_outside};
use sm_passes::putting::{Events, Put, put_if};
use sm_rules::Rule;
use sm_tree::{Text, Tree};
use std::alloc::Global;

#[derive(Drop)]
struct Unknown;

impl AtOwn for Unknown {
    ghost tells = { λ rule g id. IsEventAt TraitUnknown (HasUnknownTrait g) id };

    ghost knows = { λ rule g. Unit {0} };

    fn put_own(&self, alloc: Global, graph: &Graph, number: u32, events: &mut Events) -> Put {
        put_each_unknown(alloc, graph, number, graph.traits(number), events)?;
        Ok(())
    }

    ghost silent = { λ rule. no_unknown };
}

/// Puts the events of the rule. n log n.
pub fn put_unknown(alloc: Global, graph: &Graph, events: &mut Events) -> Put
    ensures { OnOk result
        (Puts (IsEventOf TraitUnknown (HasUnknownTrait (maps_of graph.now))) events.old.items events.new.items) }
{
    put_outside(alloc, graph, &Unknown, events)?;
    Ok(())
}

// Of these traits of a shape or member.
fn put_each_unknown(
    alloc: Global,
    graph: &Graph,
    number: u32,
    traits: &[(Text, Tree)],
    events: &mut Events,
) -> Put
    requires { IsShapeNumber graph.now number }
    ensures { OnOk result
        (Puts (ToldOf (ToldUnknown (maps_of graph.now) (id_of_number graph.now number)) traits.now) events.old.items events.new.items) }
{
    for pair in traits {
        put_if_unknown(alloc, graph, number, pair.0.as_str(), events)?;
    }
    Ok(())
}

fn put_if_unknown(alloc: Global, graph: &Graph, number: u32, name: &str, events: &mut Events) -> Put
    requires { IsShapeNumber graph.now number }
    ensures { OnOk result
        (Puts (IsWhere (is_unknown (maps_of graph.now) name.now) (rule_event TraitUnknown (id_of_number graph.now number) name.now))
        events.old.items events.new.items) }
{
    let unknown = is_unknown(graph, name);
    put_if(
        alloc,
        graph,
        Rule::TraitUnknown,
        number,
        unknown,
        name,
        events,
    )?;
    Ok(())
}

fn is_unknown(graph: &Graph, name: &str) -> bool
    ensures { result ≡ is_unknown (maps_of graph.now) name.now }
{
    !has_row(name) && !is_defined(graph, name)
}

// Whether the model has a shape or member of this id that is a trait.
fn is_defined(graph: &Graph, name: &str) -> bool
    ensures { result ≡ is_defined (maps_of graph.now) name.now }
{
    match graph.number(name) {
        Some(number) => is_trait(graph, number) && !is_in_prelude(name),
        None => false,
    }
}

fn is_trait(graph: &Graph, number: u32) -> bool
    requires { IsShapeNumber graph.now number }
    ensures { result ≡ is_some (trait_of (maps_of graph.now) (id_of_number graph.now number) trait_id) }
{
    trait_node(graph, number, TRAIT).is_some()
}
