// Trait.Conflict, by the table: of some traits a shape or member carries one at most.
ghost use Rattle.std.specs.Prelude.{◌≡◌, false, OnOk};
ghost use Rattle.std.specs.List.{list_any};
ghost use Rattle.std.specs.Ordering.{is_lt};
ghost use Rattle.sm_model.specs.Graphs.{text_cmp};
ghost use Rattle.sm_model.specs.GraphView.{IsShapeNumber, maps_of};
ghost use Rattle.sm_model.specs.PreludeShapes.{is_prelude_id};
ghost use Rattle.sm_model.specs.Reaching.{id_of_number};
ghost use Rattle.sm_compile.specs.TraitIds.{binding_ids};
ghost use Rattle.sm_rules.specs.Traits.{HasExclusiveTraits};
ghost use Rattle.sm_compile.specs.steps.Naming.{texts_of_all};
ghost use Rattle.sm_rules.specs.RuleEvents.{IsEventAt, IsEventOf, Puts, rule_event};
ghost use Rattle.sm_rules.specs.declared.rule.Rule.TheVariants.{TraitConflict};
ghost use Rattle.sm_trait_rules.specs.steps.Excluding.{ToldGreater, is_greater, is_smaller, of_methods, of_sides};
ghost use Rattle.sm_trait_rules.specs.steps.Silent.{no_exclusive};
ghost use Rattle.sm_passes.specs.Putting.{IsWhere, ToldOf};

use sm_compile::trait_ids::{
    ERROR, HTTP_HEADER, HTTP_LABEL, HTTP_PAYLOAD, HTTP_PREFIX_HEADERS, HTTP_QUERY,
    HTTP_QUERY_PARAMS, HTTP_RESPONSE_CODE, IDEMPOTENT, INPUT, OUTPUT, READONLY,
};
use sm_model::Graph;
use sm_passes::carried::carries;
use sm_passes::each::{AtOwn, put_outside};
use sm_passes::putting::{Events, Put, put_if};
use sm_rules::Rule;
use std::alloc::Global;

#[derive(Drop)]
struct Exclusive;

impl AtOwn for Exclusive {
    ghost tells = { λ rule g id. IsEventAt TraitConflict (HasExclusiveTraits g) id };

    ghost knows = { λ rule g. Unit {0} };

    fn put_own(&self, alloc: Global, graph: &Graph, number: u32, events: &mut Events) -> Put {
        put_groups(alloc, graph, number, events)?;
        Ok(())
    }

    ghost silent = { λ rule. no_exclusive };
}

/// Puts the events of the rule.
pub fn put_exclusive(alloc: Global, graph: &Graph, events: &mut Events) -> Put
    ensures { OnOk result
        (Puts (IsEventOf TraitConflict (HasExclusiveTraits (maps_of graph.now))) events.old.items events.new.items) }
{
    put_outside(alloc, graph, &Exclusive, events)?;
    Ok(())
}

fn put_groups(alloc: Global, graph: &Graph, number: u32, events: &mut Events) -> Put
    requires number { IsShapeNumber graph.now number }
    requires own { is_prelude_id (id_of_number graph.now number) ≡ false }
    ensures { OnOk result
        (Puts (IsEventAt TraitConflict (HasExclusiveTraits (maps_of graph.now)) (id_of_number graph.now number))
        events.old.items events.new.items) }
{
    put_group(alloc, graph, number, of_methods(), events)?;
    put_group(alloc, graph, number, of_sides(), events)?;
    put_group(alloc, graph, number, of_bindings(), events)?;
    Ok(())
}

fn of_methods() -> &'static [&'static str]
    ensures { texts_of_all result.now ≡ of_methods }
{
    &[READONLY, IDEMPOTENT]
}

fn of_sides() -> &'static [&'static str]
    ensures { texts_of_all result.now ≡ of_sides }
{
    &[INPUT, OUTPUT, ERROR]
}

fn of_bindings() -> &'static [&'static str]
    ensures { texts_of_all result.now ≡ binding_ids }
{
    &[
        HTTP_LABEL,
        HTTP_QUERY,
        HTTP_QUERY_PARAMS,
        HTTP_HEADER,
        HTTP_PREFIX_HEADERS,
        HTTP_PAYLOAD,
        HTTP_RESPONSE_CODE,
    ]
}

// Puts each of these traits that stands there behind a smaller one.
fn put_group(alloc: Global, graph: &Graph, number: u32, group: &[&str], events: &mut Events) -> Put
    requires { IsShapeNumber graph.now number }
    ensures { OnOk result
        (Puts (ToldOf (ToldGreater (maps_of graph.now) (id_of_number graph.now number) (texts_of_all group.now)) group.now)
        events.old.items events.new.items) }
{
    for name in group {
        put_if_greater(alloc, graph, number, group, *name, events)?;
    }
    Ok(())
}

fn put_if_greater(
    alloc: Global,
    graph: &Graph,
    number: u32,
    group: &[&str],
    name: &str,
    events: &mut Events,
) -> Put
    requires { IsShapeNumber graph.now number }
    ensures { OnOk result
        (Puts (IsWhere (is_greater (maps_of graph.now) (id_of_number graph.now number) (texts_of_all group.now) name.now)
        (rule_event TraitConflict (id_of_number graph.now number) name.now)) events.old.items events.new.items) }
{
    let greater = is_greater(graph, number, group, name);
    put_if(
        alloc,
        graph,
        Rule::TraitConflict,
        number,
        greater,
        name,
        events,
    )?;
    Ok(())
}

fn is_greater(graph: &Graph, number: u32, group: &[&str], name: &str) -> bool
    requires { IsShapeNumber graph.now number }
    ensures { result ≡ is_greater (maps_of graph.now) (id_of_number graph.now number) (texts_of_all group.now) name.now }
{
    carries(graph, number, name) && some_smaller(graph, number, group, name)
}

fn some_smaller(graph: &Graph, number: u32, group: &[&str], name: &str) -> bool
    requires { IsShapeNumber graph.now number }
    ensures { result
        ≡ list_any (is_smaller (maps_of graph.now) (id_of_number graph.now number) name.now) (texts_of_all group.now) }
{
    for other in group {
        if is_smaller(graph, number, name, *other) {
            return true;
        }
    }
    false
}

fn is_smaller(graph: &Graph, number: u32, name: &str, other: &str) -> bool
    requires { IsShapeNumber graph.now number }
    ensures { result ≡ is_smaller (maps_of graph.now) (id_of_number graph.now number) name.now other.now }
{
    is_before(other, name) && carries(graph, number, other)
}

fn is_before(a: &str, b: &str) -> bool
    ensures { result ≡ is_lt (text_cmp a.now b.now) }
{
    a.cmp(b).is_lt()
}
