// Bindings of HTTP (Smithy 2.0, "HTTP binding traits"): which binding of a member counts, what stands in the document, and the table by
// which documents are read.
#![tactic(auto)]

mod bindings;
mod documents;
mod members;
mod parts;
mod place;
mod side;

pub use bindings::Bindings;
pub use members::{has_document, is_in_document, is_payload_at, is_tree_at};
pub use parts::Parts;
pub use place::BoundPlace;
pub use side::{PartSide, counts};
pub use sm_service;
