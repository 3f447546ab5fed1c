// The events of a graph, in order, each once.
ghost use Rattle.std.specs.Prelude.{IfOk, OnOk};
ghost use Rattle.sm_model.specs.GraphView.{maps_of};
ghost use Rattle.sm_rules.specs.RuleEvents.{Puts};
ghost use Rattle.sm_load.specs.Events.{AreModelEvents};
ghost use Rattle.sm_load.specs.steps.Passes.{IsOfRule};
ghost use Rattle.sm_load.specs.steps.Sharing.{AreShared};

use crate::shared::Shared;
use crate::suppressed::without_suppressed;
use sm_http_rules::bound_targets::put_bound_targets;
use sm_http_rules::codes::put_codes;
use sm_http_rules::labels::put_labels;
use sm_http_rules::methods::put_methods;
use sm_http_rules::routes::put_routes;
use sm_http_rules::uris::put_uris;
use sm_http_rules::wire_names::put_wire_names;
use sm_merge::sorted_events;
use sm_model::{Graph, ModelEvent, ModelEvents};
use sm_name_rules::case::put_twins;
use sm_name_rules::names::put_names;
use sm_name_rules::repeats::put_repeats;
use sm_reference_rules::finite::put_infinite;
use sm_reference_rules::kinds::put_kinds;
use sm_reference_rules::missing::put_missing;
use sm_reference_rules::unused::put_unused;
use sm_trait_rules::both_places::put_places;
use sm_trait_rules::conflicts::put_conflicts;
use sm_trait_rules::single::put_single;
use sm_trait_rules::unknown::put_unknown;
use sm_tree::NoMemory;
use sm_value_rules::bounds::put_bounds;
use sm_value_rules::defaults::put_defaults;
use sm_value_rules::enums::put_enums;
use sm_value_rules::values::put_values;
use std::alloc::Global;

/// The events of a graph: all that fails by the rules of models and isn't suppressed, in order, each once and as grave as its rule.
/// `NoMemory` where memory is refused. n log n, beside the selectors of traits and the closures of services.
pub fn events(alloc: Global, graph: &Graph) -> Result<Vec<ModelEvent>, NoMemory>
    ensures { IfOk result (λ es. AreModelEvents (maps_of graph.now) es.items) }
{
    let told = told_events(alloc, graph)?;
    Ok(told.into_inner())
}

/// The events of a graph as one value.
pub(crate) fn told_events(alloc: Global, graph: &Graph) -> Result<ModelEvents, NoMemory>
    ensures { IfOk result (λ es. AreModelEvents (maps_of graph.now) es) }
{
    let shared = Shared::new(alloc, graph)?;
    let mut events = Vec::new(alloc);
    put_rules(alloc, graph, &shared, &mut events)?;
    let kept = without_suppressed(alloc, graph, events)?;
    Ok(sorted_events(kept))
}

// Puts the events of each rule, one rule after the other, by what they share.
fn put_rules(
    alloc: Global,
    graph: &Graph,
    shared: &Shared,
    events: &mut Vec<ModelEvent>,
) -> Result<(), NoMemory>
    requires { AreShared graph.now shared.now }
    ensures { OnOk result (Puts (IsOfRule (maps_of graph.now)) events.old.items events.new.items) }
{
    put_twins(alloc, graph, events)?;
    put_repeats(alloc, graph, events)?;
    put_missing(alloc, graph, events)?;
    put_kinds(alloc, graph, events)?;
    put_unknown(alloc, graph, events)?;
    put_values(alloc, graph, &shared.marks, events)?;
    put_places(alloc, graph, &shared.ways, events)?;
    put_conflicts(alloc, graph, events)?;
    put_single(alloc, graph, events)?;
    put_infinite(alloc, graph, &shared.ways, events)?;
    put_enums(alloc, graph, events)?;
    put_defaults(alloc, graph, &shared.marks, events)?;
    put_bounds(alloc, graph, events)?;
    put_names(alloc, graph, &shared.ways, events)?;
    put_uris(alloc, graph, events)?;
    put_labels(alloc, graph, &shared.ways, events)?;
    put_bound_targets(alloc, graph, &shared.ways, &shared.sides, events)?;
    put_wire_names(alloc, graph, &shared.sides, events)?;
    put_routes(alloc, graph, &shared.ways, events)?;
    put_codes(alloc, graph, &shared.ways, events)?;
    put_methods(alloc, graph, events)?;
    put_unused(alloc, graph, &shared.ways, events)?;
    Ok(())
}
