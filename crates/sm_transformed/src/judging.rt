// What the rules say of a graph that was made.
ghost use Rattle.std.specs.Prelude.{◌≡◌};
ghost use Rattle.sm_model.specs.GraphView.{maps_of};
ghost use Rattle.sm_load.specs.Events.{AreModelEvents};
ghost use Rattle.sm_rules.specs.RuleList.{is_error};
ghost use Rattle.sm_transformed.specs.Transformed.{Judges, some_grave};

use crate::change::TransformRefusal;
use sm_load::{Model, events};
use sm_model::{Graph, ModelEvent, ModelEvents, Severity};
use std::alloc::Global;

/// The model of a graph, unless a rule rejects it.
pub(crate) fn judged(alloc: Global, graph: Graph) -> Result<Model, TransformRefusal>
    ensures { Judges (maps_of graph) result }
{
    match events(alloc, &graph) {
        Ok(told) => with_events(graph, ModelEvents::new(told)),
        Err(_) => Err(TransformRefusal::NoMemory),
    }
}

// With its events.
fn with_events(graph: Graph, events: ModelEvents) -> Result<Model, TransformRefusal>
    requires { AreModelEvents (maps_of graph) events }
    ensures { Judges (maps_of graph) result }
{
    if has_grave(events.as_slice()) {
        return Err(TransformRefusal::Rejected(events));
    }
    Ok(Model { graph, events })
}

// Whether an event rejects a model, and whether one of several does.
fn is_grave(event: &ModelEvent) -> bool
    ensures { result ≡ is_error event.now.severity }
{
    match event.severity {
        Severity::Error => true,
        Severity::Danger | Severity::Warning | Severity::Note => false,
    }
}

fn has_grave(events: &[ModelEvent]) -> bool
    ensures { result ≡ some_grave events.now }
{
    for event in events {
        if is_grave(event) {
            return true;
        }
    }
    false
}
