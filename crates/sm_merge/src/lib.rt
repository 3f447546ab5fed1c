// The statements of several model files come to one graph, with the prelude, `apply` and mixins (Smithy 2.0, "Merging models",
// "Mixins", "apply statement", "Prelude").
#![tactic(auto)]

mod body;
mod effective;
mod effective_local;
mod effective_members;
mod effective_mixins;
mod effective_rows;
mod effective_traits;
mod events;
mod events_all;
mod events_members;
mod events_places;
mod firsts;
mod graph_made;
pub mod laws;
mod limit;
mod limits;
mod look;
mod meaning;
mod members;
mod merging;
mod mixin_events;
mod mixins;
mod mixins_once;
mod names;
mod node;
mod parts;
mod prelude_graph;
mod refusal;
mod shape_parts;
mod shapes;
mod stated;
mod table;
mod tables;
mod told;
mod value;
mod walk;

pub use events::sorted_events;
pub use limit::{ALL_MEMBER_LIMIT, LimitKind, MEMBER_LIMIT, SHAPE_LIMIT, TRAIT_LIMIT};
pub use merging::merge;
pub use prelude_graph::prelude;
pub use refusal::MergeRefusal;
pub use stated::copied_id;
