// What is wrong, or odd, in a model: events that merging and the rules of models tell.
ghost use Rattle.std.specs.Prelude.{◌≡◌};

use sm_ids::ShapeId;
use sm_tree::Text;
use std::marker::Model;

/// How grave an event is.
#[derive(Debug, Clone, Copy, PartialEq, Eq, Drop)]
pub enum Severity {
    /// Something that is allowed and worth a look.
    Note,
    /// Something that is likely to be wrong.
    Warning,
    /// Something that is likely to break callers.
    Danger,
    /// Something for which the model is rejected.
    Error,
}

/// An event of a model.
#[derive(Debug, Drop)]
pub struct ModelEvent {
    /// The id of the event, as `Model.Shape`.
    pub id: Text,
    /// How grave it is.
    pub severity: Severity,
    /// The shape or member that it speaks of.
    pub shape: ShapeId,
    /// What else there is to say, or the empty text.
    pub detail: Text,
}

/// Events, in order. Contracts see a list.
#[derive(Debug, Drop)]
pub struct ModelEvents {
    events: Vec<ModelEvent>,
}

impl Model for ModelEvents {
    ghost use Rattle.std.specs.Prelude.{List};
    ghost use Rattle.sm_model.specs.declared.event.ModelEvent.{ModelEvent};

    ghost Value = { List ModelEvent };

    ghost view = { λ a. a.events.items };
}

impl ModelEvents {
    /// The events that a vector holds. No memory.
    pub fn new(events: Vec<ModelEvent>) -> Self
        ensures { result ≡ events.items }
    {
        ModelEvents { events }
    }

    /// The vector. No memory.
    pub fn into_inner(self) -> Vec<ModelEvent>
        ensures { result.items ≡ self }
    {
        self.events
    }

    /// The events, in order. No memory.
    pub fn as_slice(&self) -> &[ModelEvent]
        ensures { result.now ≡ self.now }
    {
        self.events.as_slice()
    }
}
