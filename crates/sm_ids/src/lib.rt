// Shape ids (Smithy 2.0, "Shape ID"): the names of shapes and of their members, borrowed from a text or owned.
#![tactic(auto)]

mod fold;
mod id;
mod identifier;
pub mod laws;
mod owned;
mod refusal;
mod scan;
mod text_parts;

pub use fold::folds_to;
pub use id::ShapeIdRef;
pub use identifier::{is_identifier, is_namespace};
pub use owned::ShapeId;
pub use refusal::{IdRefusal, NoMemory};
pub use text_parts::{has_member, is_absolute, member_name, namespace_and_name, without_member};
