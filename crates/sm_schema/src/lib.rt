// JSON Schema of shapes: which trees a schema accepts, the schema of a shape of a table, and that it accepts what spells the
// shape's values.
#![tactic(auto)]

mod aggregates;
mod annotations;
mod definitions;
mod describing;
pub mod laws;
mod listing;
mod nodes;
mod notes;
mod trees;

pub use describing::{schema, schema_described, schema_of_compiled};
pub use notes::{MemberNotes, Notes, ShapeNotes};
