// Models in the Smithy IDL 2.0 (Smithy 2.0, "Smithy IDL"): which statements a text says, and where one stops being a model's.
#![tactic(auto)]

mod docs;
mod fields;
mod file;
mod home;
mod ids;
pub mod laws;
mod leaf;
mod made;
mod members;
mod names;
mod node;
mod operations;
mod read;
mod reader;
mod references;
mod refusal;
mod shapes;
mod take;
mod traits;
mod unknown;
mod values;
mod word;
mod write;

pub use read::read_idl;
pub use refusal::IdlRefusal;
pub use write::write_idl;
