// Messages begun at their heads.
ghost use Rattle.std.specs.Prelude.{◌≡◌, ◌<◌, Bool, IfOk, None, [], cond, length};
ghost use Rattle.sm_shapes.specs.Fitting.{Test};
ghost use Rattle.sm_shapes.specs.TableData.{shape_count};
ghost use Rattle.sm_http.specs.declared.message.Message.{Message};
ghost use Rattle.sm_rest.specs.service.Servable.{Servable};
ghost use Rattle.sm_rest.specs.service.ServiceView.{service_data};
ghost use Rattle.sm_rest.specs.messages.Goals.{HasGoal, a_request, a_response, goal_of, the_error, the_input, the_output};
ghost use Rattle.sm_rest.specs.messages.HeadAnswers.{IsJudged, addressed, to_goal, to_named_error};
ghost use Rattle.sm_rest.specs.messages.IsForm.{ServesOperation};
ghost use Rattle.sm_rest.specs.messages.Pieces.{BeginsAs, IsLive, UnlessMemory};
ghost use Rattle.sm_rest.specs.bind.BindingsView.{bindings_data, body_at, bound_side, parts_data};
ghost use Rattle.sm_rest.specs.bind.PartsData.{PartsData};
ghost use Rattle.sm_rest.specs.RestForm.{rest_form};
ghost use Rattle.sm_rest.specs.RestOf.{IsRestOf};
ghost use Rattle.sm_rest.specs.declared.context.Rest.{Rest};
ghost use Rattle.sm_rest_read.specs.Begun.{RestBegun, rest_state};
ghost use Rattle.sm_rest_read.specs.declared.body.RestBody.TheVariants.{Held};
ghost use Rattle.sm_rest_read.specs.steps.Starting.{Begins, StartsRest};

use crate::body::RestBody;
use crate::judging::judge_named;
use crate::places::{error_place, input_place, is_unread, output_place};
use sm_bodies::{Body, JsonBody};
use sm_http::{Head, Message};
use sm_rest::Rest;
use sm_rest::sm_bind::{Bindings, BoundPlace, Parts};
use sm_rest::sm_messages::{MessageRefusal, ResponseAddress, judge_response, told_by_head};
use sm_rest::sm_rest_heads::{kept_request, kept_response, request_parts, response_parts};
use sm_rest::sm_service::Service;
use sm_tree::NoMemory;
use std::alloc::Global;

// The shape of the table of documents by which a body is read that may be empty: none where it is held.
fn fed_shape(bindings: &Bindings, place: &BoundPlace<'_>, empty: bool) -> Option<u32>
    ensures { result ≡ cond empty None (body_at (bindings_data bindings.now) (bound_side place.now.side) place.now.shape) }
{
    if empty {
        None
    } else {
        bindings.document(place.side, place.shape)
    }
}

// A body that is held.
fn held(
    operation: u32,
    message: Result<Message, NoMemory>,
    dropped: bool,
) -> Result<RestBody, MessageRefusal>
    ensures { (m : Message) → IfOk message (λ made. made ≡ m) → UnlessMemory (λ body. body ≡ Held operation m dropped) result }
{
    match message {
        Ok(message) => Ok(RestBody::Held {
            operation,
            message,
            dropped,
        }),
        Err(_) => Err(MessageRefusal::NoMemory),
    }
}

// A body that is fed.
fn fed(
    alloc: Global,
    bindings: &Bindings,
    operation: u32,
    shape: u32,
    parts: Result<Parts, NoMemory>,
) -> Result<RestBody, MessageRefusal>
    requires { shape < shape_count (bindings_data bindings.now).documents }
    ensures { (given : PartsData) → IfOk parts (λ all. parts_data all ≡ given)
        → UnlessMemory (StartsRest (bindings_data bindings.now) operation shape given) result }
{
    let Ok(parts) = parts else {
        return Err(MessageRefusal::NoMemory);
    };
    let documents = bindings.documents();
    let begun: Result<JsonBody, NoMemory> = Body::begin(alloc, documents, shape);
    match begun {
        Ok(Body { reader, decoder }) => Ok(RestBody::Fed {
            operation,
            parts,
            reader,
            decoder,
        }),
        Err(_) => Err(MessageRefusal::NoMemory),
    }
}

// The body of a request for an operation.
fn request_begun(
    alloc: Global,
    rest: &Rest,
    service: &Service,
    operation: u32,
    head: &Head,
    empty: bool,
) -> Result<RestBody, MessageRefusal>
    requires servable { Servable (service_data service.now) }
    requires rest { IsRestOf (service_data service.now) rest.now }
    requires number { operation < length (service_data service.now).operations }
    ensures { (test : Test)
        → IsJudged rest_form (service_data service.now) a_request head.now empty (addressed (to_goal (goal_of operation the_input)))
        → Begins rest.now (service_data service.now) test a_request head.now empty result }
{
    let place = input_place(service, operation);
    match fed_shape(&rest.bindings, &place, empty) {
        Some(shape) => {
            let parts = request_parts(alloc, service, operation, head);
            fed(alloc, &rest.bindings, operation, shape, parts)
        }
        None => held(operation, kept_request(alloc, head), is_unread(&place)),
    }
}

// The body of an output.
fn output_begun(
    alloc: Global,
    rest: &Rest,
    service: &Service,
    operation: u32,
    head: &Head,
    empty: bool,
) -> Result<RestBody, MessageRefusal>
    requires servable { Servable (service_data service.now) }
    requires rest { IsRestOf (service_data service.now) rest.now }
    requires served { ServesOperation rest_form (service_data service.now) operation }
    ensures { (test : Test)
        → IsJudged rest_form (service_data service.now) (a_response operation) head.now empty
        (addressed (to_goal (goal_of operation the_output)))
        → Begins rest.now (service_data service.now) test (a_response operation) head.now empty result }
{
    let place = output_place(service, operation);
    match fed_shape(&rest.bindings, &place, empty) {
        Some(shape) => {
            let parts = response_parts(alloc, head);
            fed(alloc, &rest.bindings, operation, shape, parts)
        }
        None => held(operation, kept_response(alloc, head), is_unread(&place)),
    }
}

// The body of the error at a place.
fn error_begun(
    alloc: Global,
    service: &Service,
    operation: u32,
    error: u32,
    head: &Head,
) -> Result<RestBody, MessageRefusal>
    requires servable { Servable (service_data service.now) }
    requires served { ServesOperation rest_form (service_data service.now) operation }
    requires goal { HasGoal (service_data service.now) (goal_of operation (the_error error)) }
    ensures { (rest : Rest) (test : Test) (empty : Bool)
        → IsJudged rest_form (service_data service.now) (a_response operation) head.now empty
        (addressed (to_goal (goal_of operation (the_error error))))
        → Begins rest (service_data service.now) test (a_response operation) head.now empty result }
{
    let place = error_place(service, operation, error);
    held(operation, kept_response(alloc, head), is_unread(&place))
}

// The body of an error that it is to name.
fn named_begun(
    alloc: Global,
    service: &Service,
    operation: u32,
    head: &Head,
) -> Result<RestBody, MessageRefusal>
    requires served { ServesOperation rest_form (service_data service.now) operation }
    ensures { (rest : Rest) (test : Test) (empty : Bool)
        → IsJudged rest_form (service_data service.now) (a_response operation) head.now empty (addressed (to_named_error operation))
        → Begins rest (service_data service.now) test (a_response operation) head.now empty result }
{
    let _service = service;
    held(operation, kept_response(alloc, head), false)
}

/// Begins to read a request with this head, whose body is empty or not.
///
/// # Errors
///
/// `UnknownOperation`, `Unserved`, `MediaType`, in this order; `NoMemory`.
pub fn begin_request(
    alloc: Global,
    rest: &Rest,
    service: &Service,
    head: &Head,
    empty: bool,
) -> Result<RestBody, MessageRefusal>
    requires servable { Servable (service_data service.now) }
    requires rest { IsRestOf (service_data service.now) rest.now }
    ensures { (test : Test) → BeginsAs (IsJudged rest_form (service_data service.now) a_request head.now empty)
        (λ body. IsLive (rest_state body)
        × RestBegun rest.now (service_data service.now) test a_request body head.now empty []) result }
{
    let named = rest.operation_of(service, head);
    match judge_named(alloc, rest, service, head, named, empty) {
        Ok(operation) => request_begun(alloc, rest, service, operation, head, empty),
        Err(refusal) => Err(refusal),
    }
}

/// Begins to read the response to an operation with this head, whose body is empty or not.
///
/// # Errors
///
/// `MediaType`, `UnknownError` where the head names the error, in this order; `NoMemory`.
pub fn begin_response(
    alloc: Global,
    rest: &Rest,
    service: &Service,
    operation: u32,
    head: &Head,
    empty: bool,
) -> Result<RestBody, MessageRefusal>
    requires servable { Servable (service_data service.now) }
    requires rest { IsRestOf (service_data service.now) rest.now }
    requires served { ServesOperation rest_form (service_data service.now) operation }
    ensures { (test : Test)
        → BeginsAs (IsJudged rest_form (service_data service.now) (a_response operation) head.now empty)
        (λ body. IsLive (rest_state body)
        × RestBegun rest.now (service_data service.now) test (a_response operation) body head.now empty []) result }
{
    let told = told_by_head(head);
    match judge_response(service, operation, head, told) {
        Ok(ResponseAddress::Output) => {
            output_begun(alloc, rest, service, operation, head, empty)
        }
        Ok(ResponseAddress::Error(error)) => error_begun(alloc, service, operation, error, head),
        Ok(ResponseAddress::Named) => named_begun(alloc, service, operation, head),
        Err(refusal) => Err(refusal),
    }
}
