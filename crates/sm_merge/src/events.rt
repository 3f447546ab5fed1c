// Events in their order, each once.
ghost use Rattle.std.specs.Prelude.{◌≡◌, ◌↔◌, IfOk};
ghost use Rattle.std.specs.List.{Contains};
ghost use Rattle.std.specs.Ordering.{is_eq};
ghost use Rattle.sm_model.specs.EventView.{AreErrors, AreInOrder, EventTold, event_cmp, events_view, event_view};
ghost use Rattle.sm_model.specs.declared.event.ModelEvent.{ModelEvent};
ghost use Rattle.sm_model.specs.declared.event.Severity.TheVariants.{Error};
ghost use Rattle.sm_merge.specs.Merged.{model_event};
ghost use Rattle.sm_merge.specs.steps.EventLists.{HaveSameEvents};

use sm_ids::ShapeId;
use sm_model::{ModelEvent, ModelEvents, Severity};
use sm_tree::{NoMemory, Text};
use std::alloc::Global;
use std::cmp::Ordering;

/// An event of merging.
pub(crate) fn event(
    alloc: Global,
    shape: ShapeId,
    id: &str,
    detail: &str,
) -> Result<ModelEvent, NoMemory>
    ensures told { IfOk result (λ event. event_view event ≡ model_event shape id.now detail.now) }
    ensures severity { IfOk result (λ event. event.severity ≡ Error) }
{
    let id = Text::copy(alloc, id)?;
    let detail = Text::copy(alloc, detail)?;
    Ok(ModelEvent {
        id,
        severity: Severity::Error,
        shape,
        detail,
    })
}

/// Events in their order, each once. No memory.
pub fn sorted_events(mut events: Vec<ModelEvent>) -> ModelEvents
    ensures order { AreInOrder (events_view result) }
    ensures same { (e : EventTold) → Contains (events_view events.items) e ↔ Contains (events_view result) e }
    ensures kept { (e : ModelEvent) → Contains result e → Contains events.items e }
{
    events.sort_unstable_by(|a, b| order_of(a, b));
    events.dedup_by(|a, b| are_one(a, b));
    ModelEvents::new(events)
}

/// Errors in their order, each once: those of a list of events that are errors.
pub(crate) fn in_order(events: Vec<ModelEvent>) -> ModelEvents
    requires { AreErrors events.items }
    ensures order { AreInOrder (events_view result) }
    ensures same { HaveSameEvents (events_view events.items) (events_view result) }
    ensures errors { AreErrors result }
{
    sorted_events(events)
}

// By their shapes, then their ids, then their details.
fn order_of(a: &ModelEvent, b: &ModelEvent) -> Ordering
    ensures { result ≡ event_cmp (event_view a.now) (event_view b.now) }
{
    let details = a.detail.as_str().cmp(b.detail.as_str());
    let ids = a.id.as_str().cmp(b.id.as_str());
    a.shape.cmp(&b.shape).then(ids.then(details))
}

fn are_one(a: &ModelEvent, b: &ModelEvent) -> bool
    ensures { result ≡ is_eq (event_cmp (event_view a.now) (event_view b.now)) }
{
    order_of(a, b).is_eq()
}
