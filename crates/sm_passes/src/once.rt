// Events that several put alike, kept once.
ghost use Rattle.std.specs.Prelude.{◌↔◌};
ghost use Rattle.std.specs.List.{Contains};
ghost use Rattle.sm_model.specs.EventView.{EventTold, events_view};
ghost use Rattle.sm_model.specs.declared.event.ModelEvent.{ModelEvent};

use crate::putting::Events;
use sm_merge::sorted_events;
use sm_model::ModelEvent;
use std::alloc::Global;
use std::mem;

/// Keeps each event once, where they have become more than twice as many as they were the last time, and answers how many they are
/// then. However often each is put, no more are held than twice those that differ, and those put since. n log n in all that are put.
pub(crate) fn kept_once(alloc: Global, events: &mut Events, last: usize) -> usize
    ensures same { (e : EventTold) → Contains (events_view events.old.items) e ↔ Contains (events_view events.new.items) e }
    ensures kept { (e : ModelEvent) → Contains events.new.items e → Contains events.old.items e }
{
    if events.len() / 2 <= last {
        return last;
    }
    keep_once(alloc, events);
    events.len()
}

// Each event once, in their order.
fn keep_once(alloc: Global, events: &mut Events)
    ensures same { (e : EventTold) → Contains (events_view events.old.items) e ↔ Contains (events_view events.new.items) e }
    ensures kept { (e : ModelEvent) → Contains events.new.items e → Contains events.old.items e }
{
    let all = mem::replace(events, Vec::new(alloc));
    *events = sorted_events(all).into_inner();
}
