// Models as data (Smithy 2.0, "The Smithy model"): the statements that a model file says, before files are merged, and
// the graph of shapes that they come to.
#![tactic(auto)]

mod event;
mod graph;
mod kind;
mod link;
mod prelude;
mod property;
mod raw;
mod reach;
mod reference;
mod relation;
mod statement;
mod used;

pub use event::{ModelEvent, ModelEvents, Severity};
pub use graph::{Graph, GraphMember, GraphMembers, GraphShape};
pub use kind::Kind;
pub use link::Link;
pub use prelude::is_in_prelude;
pub use property::{PropertyForm, fields_of};
pub use raw::{RawItems, RawNode, RawPairs};
pub use reach::{Steps, mark, mark_all, mark_at, no_marks, spread};
pub use reference::{Ref, Refs, Uses};
pub use relation::Relation;
pub use sm_tree::{entries_of, pairs_of, text_of, tree_under};
pub use statement::{
    MemberStatement, MemberStatements, ShapeStatement, Statement, TraitUse, TraitUses,
};
