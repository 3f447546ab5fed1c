// Why files don't merge.
use crate::limit::LimitKind;
use sm_model::ModelEvents;

/// Why files merge to no graph. A limit goes before events.
#[derive(Debug, Drop)]
pub enum MergeRefusal {
    /// The graph is past a limit: the first in the order of `LimitKind`.
    Limit(LimitKind),
    /// What is wrong, in order: at least one event, and all are errors.
    Rejected(ModelEvents),
    /// The allocator refused the memory that merging needs.
    NoMemory,
}
