// Target.Missing: references name shapes.
ghost use Rattle.std.specs.Prelude.{◌≡◌, OnOk};
ghost use Rattle.std.specs.Option.{option_copied};
ghost use Rattle.sm_model.specs.GraphView.{IsShapeNumber, maps_of};
ghost use Rattle.sm_model.specs.Reaching.{id_of_number};
ghost use Rattle.sm_compile.specs.Looked.{target_under};
ghost use Rattle.sm_rules.specs.Targets.{RefersToNothing};
ghost use Rattle.sm_rules.specs.RuleEvents.{IsEventAt, IsEventOf, Puts};
ghost use Rattle.sm_rules.specs.declared.rule.Rule.TheVariants.{TargetMissing};
ghost use Rattle.sm_reference_rules.specs.steps.Missing.{TargetsNothing, ToldMissing};
ghost use Rattle.sm_reference_rules.specs.steps.Silent.{none_targeted};

use crate::references::{AtReference, put_bodies};
use sm_model::{Graph, Relation};
use sm_passes::each::{AtOwn, put_outside};
use sm_passes::putting::{Events, Put, put_event};
use sm_rules::Rule;
use std::alloc::Global;

/// Puts the events of the rule. n log n.
pub fn put_missing(alloc: Global, graph: &Graph, events: &mut Events) -> Put
    ensures { OnOk result
        (Puts (IsEventOf TargetMissing (RefersToNothing (maps_of graph.now))) events.old.items events.new.items) }
{
    put_outside(alloc, graph, &Targeted, events)?;
    put_bodies(alloc, graph, &Named, events)?;
    Ok(())
}

// What members target.
#[derive(Drop)]
struct Targeted;

impl AtOwn for Targeted {
    ghost tells = { λ rule g id. IsEventAt TargetMissing (TargetsNothing g) id };

    ghost knows = { λ rule g. Unit {0} };

    fn put_own(&self, alloc: Global, graph: &Graph, number: u32, events: &mut Events) -> Put {
        match target_text(graph, number) {
            Some(id) => {
                put_if_missing(alloc, graph, number, id, events)?;
                Ok(())
            }
            None => Ok(()),
        }
    }

    ghost silent = { λ rule. none_targeted };
}

// The text of the id that a member targets.
fn target_text(graph: &Graph, number: u32) -> Option<&str>
    requires { IsShapeNumber graph.now number }
    ensures { option_copied result ≡ target_under (maps_of graph.now) (id_of_number graph.now number) }
{
    if graph.is_member(number) {
        Some(graph.target_id(number).as_str())
    } else {
        None
    }
}

// What bodies refer to.
#[derive(Drop)]
struct Named;

impl AtReference for Named {
    ghost tells = { λ rule g from relation. ToldMissing g from };

    fn put_for(
        &self,
        alloc: Global,
        graph: &Graph,
        from: u32,
        _: Relation,
        id: &str,
        events: &mut Events,
    ) -> Put {
        put_if_missing(alloc, graph, from, id, events)?;
        Ok(())
    }
}

// Of an id that the graph doesn't have.
fn put_if_missing(alloc: Global, graph: &Graph, from: u32, id: &str, events: &mut Events) -> Put
    requires { IsShapeNumber graph.now from }
    ensures { OnOk result
        (Puts (ToldMissing (maps_of graph.now) (id_of_number graph.now from) id.now) events.old.items events.new.items) }
{
    match graph.number(id) {
        Some(_) => Ok(()),
        None => {
            put_event(alloc, graph, Rule::TargetMissing, from, id, events)?;
            Ok(())
        }
    }
}
