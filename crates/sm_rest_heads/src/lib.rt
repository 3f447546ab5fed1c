// Heads of restJson1: which operation a request is for, the parts of a message that stand in its head, and what stands in its body.
#![tactic(auto)]

mod asked;
mod bodies;
mod copies;
mod parts;
mod rows;

pub use asked::operation_asked;
pub use bodies::{BodyPart, body_part};
pub use parts::{kept_request, kept_response, request_parts, response_parts};
pub use rows::routes_of;
