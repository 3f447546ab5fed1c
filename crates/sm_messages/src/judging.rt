// What a head comes to before its body is read.
ghost use Rattle.std.specs.Prelude.{◌≡◌, ◌<◌, length};
ghost use Rattle.std.specs.Option.{option_map};
ghost use Rattle.sm_service.specs.Servable.{Servable};
ghost use Rattle.sm_service.specs.ServiceView.{service_data, served_said};
ghost use Rattle.sm_messages.specs.HeadAnswers.{error_answer};
ghost use Rattle.sm_messages.specs.Judging.{
  IsOperationNumber,
  JudgesRequest,
  JudgesResponse,
  asked_answer,
  operation_answer,
  told_answer,
};

use crate::goals::operation_at;
use crate::heads::{is_plain, is_right_type, is_success};
use crate::names::error_told;
use crate::refusal::MessageRefusal;
use sm_http::Head;
use sm_service::{OperationServed, Service};
use std::alloc::Global;

/// Where a response goes by its head.
#[derive(Debug, Clone, Copy, Drop)]
pub enum ResponseAddress {
    /// To the output.
    Output,
    /// To the error at this place.
    Error(u32),
    /// To the error that its body names.
    Named,
}

// A request for an operation that is served or not, whose body is of its type or not.
fn judge_operation(
    alloc: Global,
    served: &OperationServed,
    right: bool,
    operation: u32,
) -> Result<u32, MessageRefusal>
    ensures { JudgesRequest (operation_answer (served_said served.now) right operation) result }
{
    match served {
        OperationServed::Yes => {
            if right {
                Ok(operation)
            } else {
                Err(MessageRefusal::MediaType)
            }
        }
        OperationServed::Unserved(path) => match path.print(alloc) {
            Ok(text) => Err(MessageRefusal::Unserved(text)),
            Err(_) => Err(MessageRefusal::NoMemory),
        },
    }
}

/// What the head of a request for an operation, or for none, comes to: of a protocol that serves what the model serves, and wants this
/// content type of a body that isn't empty.
///
/// # Errors
///
/// `UnknownOperation`, `Unserved`, `MediaType`, in this order; `NoMemory`.
pub fn judge_request(
    alloc: Global,
    service: &Service,
    head: &Head,
    operation: Option<u32>,
    wanted: Option<&str>,
    empty: bool,
) -> Result<u32, MessageRefusal>
    requires number { IsOperationNumber (service_data service.now) operation }
    ensures { JudgesRequest
        (asked_answer (service_data service.now) head.now empty (option_map (λ text. text.now) wanted.entry) operation) result }
{
    match operation {
        None => Err(MessageRefusal::UnknownOperation),
        Some(number) => {
            let right = is_plain(head) && is_right_type(head, wanted, empty);
            judge_operation(alloc, &operation_at(service, number).served, right, number)
        }
    }
}

// An error that a head tells with a text, or leaves to the body.
fn judge_error(
    service: &Service,
    operation: u32,
    told: Option<&[u8]>,
) -> Result<ResponseAddress, MessageRefusal>
    requires servable { Servable (service_data service.now) }
    requires number { operation < length (service_data service.now).operations }
    ensures { JudgesResponse operation
        (error_answer (service_data service.now) operation (option_map (λ text. text.now) told.entry)) result }
{
    let Some(text) = told else {
        return Ok(ResponseAddress::Named);
    };
    match error_told(&operation_at(service, operation).errors, text) {
        Some(place) => Ok(ResponseAddress::Error(place as u32)),
        None => Err(MessageRefusal::UnknownError),
    }
}

/// What the head of a response to an operation comes to, whose head may tell an error with a text. No memory.
///
/// # Errors
///
/// `MediaType`, `UnknownError`, in this order.
pub fn judge_response(
    service: &Service,
    operation: u32,
    head: &Head,
    told: Option<&[u8]>,
) -> Result<ResponseAddress, MessageRefusal>
    requires servable { Servable (service_data service.now) }
    requires number { operation < length (service_data service.now).operations }
    ensures { JudgesResponse operation
        (told_answer (service_data service.now) head.now (option_map (λ text. text.now) told.entry) operation) result }
{
    if !is_plain(head) {
        return Err(MessageRefusal::MediaType);
    }
    if is_success(&head.start) {
        return Ok(ResponseAddress::Output);
    }
    judge_error(service, operation, told)
}
