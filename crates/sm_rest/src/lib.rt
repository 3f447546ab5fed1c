// restJson1 as a form of messages, and what is kept of a service for it (Smithy 2.0, "AWS restJson1 protocol", "HTTP binding traits").
// Messages are read in sm_rest_read, and written in sm_rest_write.
#![tactic(auto)]

mod context;
pub mod laws;

pub use context::Rest;
pub use sm_bind_bodies;
pub use sm_bind_bodies::sm_bind_write;
pub use sm_bind_read;
pub use sm_bind_read::{sm_bind, sm_messages, sm_service};
pub use sm_rest_heads;
