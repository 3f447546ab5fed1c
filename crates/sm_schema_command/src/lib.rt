// The command `schema`: the JSON Schema of a shape of a model.
#![tactic(auto)]

pub mod laws;
pub mod schema;
mod words;

pub use words::{SchemaWords, schema_words};
