// What the head of a request comes to before its body is read.
ghost use Rattle.std.specs.Prelude.{◌≡◌, ◌<◌, IfOk, Some, length};
ghost use Rattle.sm_rest.specs.service.Servable.{Servable};
ghost use Rattle.sm_rest.specs.service.ServiceView.{service_data};
ghost use Rattle.sm_rest.specs.messages.HeadAnswers.{is_request_type, request_answer, unserved};
ghost use Rattle.sm_rest.specs.messages.Judging.{IsOperationNumber, JudgesRequest};
ghost use Rattle.sm_rest.specs.RestForm.{rest_form};

use crate::places::{input_place, part_at};
use sm_http::Head;
use sm_rest::Rest;
use sm_rest::sm_messages::{MessageRefusal, is_plain, is_right_type, operation_at};
use sm_rest::sm_service::{OperationServed, Service};
use sm_tree::{NoMemory, Text};
use std::alloc::Global;

// The path by which an operation isn't served: by its model, or else by the protocol.
fn unserved_path(
    alloc: Global,
    rest: &Rest,
    service: &Service,
    operation: u32,
) -> Result<Option<Text>, NoMemory>
    requires servable { Servable (service_data service.now) }
    requires number { operation < length (service_data service.now).operations }
    ensures { IfOk result (λ path. path ≡ unserved rest_form (service_data service.now) operation) }
{
    match &operation_at(service, operation).served {
        OperationServed::Yes => rest.restriction(alloc, service, operation),
        OperationServed::Unserved(path) => match path.print(alloc) {
            Ok(text) => Ok(Some(text)),
            Err(refusal) => Err(refusal),
        },
    }
}

// Whether the body of a request for an operation is sent as it is, and of the type that is looked at.
fn is_request_type(service: &Service, operation: u32, head: &Head, empty: bool) -> bool
    requires servable { Servable (service_data service.now) }
    requires number { operation < length (service_data service.now).operations }
    ensures { result ≡ is_request_type rest_form (service_data service.now) operation head.now empty }
{
    let part = part_at(&input_place(service, operation));
    is_plain(head) && is_right_type(head, part.wanted(), empty)
}

// What a request for an operation comes to.
fn judge_operation(
    alloc: Global,
    rest: &Rest,
    service: &Service,
    head: &Head,
    operation: u32,
    empty: bool,
) -> Result<u32, MessageRefusal>
    requires servable { Servable (service_data service.now) }
    requires number { operation < length (service_data service.now).operations }
    ensures { JudgesRequest (request_answer rest_form (service_data service.now) head.now empty (Some operation)) result }
{
    match unserved_path(alloc, rest, service, operation) {
        Ok(Some(path)) => Err(MessageRefusal::Unserved(path)),
        Ok(None) => {
            if is_request_type(service, operation, head, empty) {
                Ok(operation)
            } else {
                Err(MessageRefusal::MediaType)
            }
        }
        Err(_) => Err(MessageRefusal::NoMemory),
    }
}

/// What the head of a request comes to that names this operation, or none.
///
/// # Errors
///
/// `UnknownOperation`, `Unserved`, `MediaType`, in this order; `NoMemory`.
pub(crate) fn judge_named(
    alloc: Global,
    rest: &Rest,
    service: &Service,
    head: &Head,
    named: Option<u32>,
    empty: bool,
) -> Result<u32, MessageRefusal>
    requires servable { Servable (service_data service.now) }
    requires number { IsOperationNumber (service_data service.now) named }
    ensures { JudgesRequest (request_answer rest_form (service_data service.now) head.now empty named) result }
{
    match named {
        Some(operation) => judge_operation(alloc, rest, service, head, operation, empty),
        None => Err(MessageRefusal::UnknownOperation),
    }
}
