// The protocols of messages, each by its own crates: a match on the protocol, and nothing else.
#![tactic(auto)]

mod body;
mod carrying;
mod heads;
pub mod laws;
mod spoken;
mod writing;

pub use body::ProtocolBody;
pub use carrying::{uncarried_input, uncarried_reply};
pub use heads::{begin_request, begin_response, operation_of, restriction};
pub use sm_awsjson::{sm_messages, sm_service};
pub use sm_rest_laws::sm_rest;
pub use spoken::Spoken;
pub use writing::{append_request, write_request, write_response};
