// Messages of a service between its ends, whatever the protocol: which answer a message has, what is written for a value, and what all
// protocols look up in heads.
#![tactic(auto)]

mod bodies;
mod carrying;
mod goals;
mod heads;
mod judging;
mod messages;
mod names;
mod objects;
mod pieces;
mod refusal;
mod reply;
mod values;
mod written;

pub use bodies::{input_body, reply_body, reply_status};
pub use carrying::{carried_on, not_carried_on};
pub use goals::{error_at, input_shape, operation_at, output_shape};
pub use heads::{has_type, is_empty, is_plain, is_right_type, is_success};
pub use judging::{ResponseAddress, judge_request, judge_response};
pub use messages::{append_request_to, append_response_of, request_to, response_of};
pub use names::{
    behind_text, error_name, error_told, operation_named, text_under, told_by_body, told_by_head,
};
pub use objects::named_body;
pub use pieces::{fed_value, fed_with, message_begun, message_with};
pub use refusal::MessageRefusal;
pub use reply::Reply;
pub use sm_service;
pub use values::{body_refused, syntax_refused, whole_reply, whole_request, whole_value};
pub use written::{
    fault_status, request_fields, request_with, response_fields, response_with, written_field,
};
