// Changes of models, and why one makes no model.
use sm_model::ModelEvents;
use sm_select::Selector;
use sm_tree::Text;

/// A change of a model.
#[derive(Drop)]
pub enum Transform {
    /// What the selector picks is kept, with all that it needs.
    Include(Selector),
    /// What the selector picks is taken out, and all that can't be without it.
    Exclude(Selector),
    /// The first namespace gets the name of the second.
    Rename(Text, Text),
}

/// Why a change makes no model.
#[derive(Debug, Drop)]
pub enum TransformRefusal {
    /// A namespace gets no other name: it is `smithy.api`, no shape has it, or the graph knows the other.
    Namespace,
    /// What a rule rejects: all events of the changed graph, in order.
    Rejected(ModelEvents),
    /// The allocator refuses memory.
    NoMemory,
}
