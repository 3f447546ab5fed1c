// The parts of a message as the value of the structure that they are parts of (Smithy 2.0, "HTTP binding traits"), or their first fault in
// model order.
#![tactic(auto)]

mod bodies;
mod body;
mod bound;
mod coming;
mod fields;
mod first_fault;
mod joining;
mod maps;
mod payload;
mod pending;
mod single;
mod sources;
mod taken;

pub use body::PartBody;
pub use joining::join_parts;
pub use sm_bind;
pub use sm_messages;
pub use sm_messages::sm_service;
