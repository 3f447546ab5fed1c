// Bodies that are written for values by HTTP bindings (Smithy 2.0, "HTTP binding traits", "httpPayload trait"): documents and payloads.
#![tactic(auto)]

mod document;
mod payload;
mod written;

pub use sm_bind_write;
pub use written::{raw_body, written_body};
