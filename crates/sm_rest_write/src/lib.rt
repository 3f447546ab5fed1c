// Messages of restJson1 as they are written (Smithy 2.0, "AWS restJson1 protocol", "HTTP binding traits"): the one for an input or a reply, as
// a message or as its text; and which values are carried.
#![tactic(auto)]

mod body;
mod carried;
mod fields;
mod outline;
mod places;
mod request;
mod response;
mod statuses;
mod types;

pub use carried::{is_input_carried, is_reply_carried, uncarried_input, uncarried_reply};
pub use request::{append_request, write_request};
pub use response::{append_response, write_response};
