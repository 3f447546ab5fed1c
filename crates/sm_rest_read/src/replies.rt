// What messages come to that are held whole.
ghost use Rattle.std.specs.Prelude.{◌≡◌, ◌<◌, length};
ghost use Rattle.sm_shapes.specs.InOrder.{AreStored, DefaultsPass};
ghost use Rattle.sm_rest.specs.service.Servable.{Servable};
ghost use Rattle.sm_rest.specs.service.ServiceView.{service_data};
ghost use Rattle.sm_rest.specs.messages.Answers.{AnswersRequest, AnswersResponse};
ghost use Rattle.sm_rest.specs.messages.Goals.{HasGoal, goal_of, the_error, the_input, the_output};
ghost use Rattle.sm_rest.specs.messages.HeadAnswers.{Address, addressed, response_answer, to_goal, to_named_error};
ghost use Rattle.sm_rest.specs.messages.IsForm.{ServesOperation};
ghost use Rattle.sm_rest.specs.RestForm.{rest_form};
ghost use Rattle.sm_rest.specs.RestOf.{IsRestOf};
ghost use Rattle.sm_rest_read.specs.steps.Contents.{ReplyJoins};
ghost use Rattle.sm_rest_read.specs.steps.RestAnswers.{RestAnswers};

use crate::naming::error_named;
use crate::places::{error_place, input_place, output_place};
use crate::values::whole_value;
use sm_http::{Head, Message};
use sm_rest::Rest;
use sm_rest::sm_messages::{MessageRefusal, Reply, ResponseAddress, judge_response, told_by_head};
use sm_rest::sm_rest_heads::{request_parts, response_parts};
use sm_rest::sm_service::Service;
use sm_shapes::Patterns;
use sm_shapes::values::Value;
use sm_tree::Bytes;
use std::alloc::Global;

/// What a request for an operation comes to that is held whole. The store must have the patterns of the service's table, and isn't changed.
///
/// # Errors
///
/// `Syntax`, `Fault`, in this order; `NoMemory`.
pub(crate) fn held_request<P: Patterns>(
    alloc: Global,
    rest: &Rest,
    service: &Service,
    operation: u32,
    message: Message,
    patterns: &mut P,
) -> Result<(u32, Value), MessageRefusal>
    requires servable { Servable (service_data service.now) }
    requires serves { rest_form.serves (service_data service.now) }
    requires rest { IsRestOf (service_data service.now) rest.now }
    requires served { ServesOperation rest_form (service_data service.now) operation }
    requires stored { AreStored (service_data service.now).table.patterns (P.added patterns.old) }
    requires pass { DefaultsPass (service_data service.now).table P.test }
    ensures request { AnswersRequest
        (RestAnswers (service_data service.now) P.test (to_goal (goal_of operation the_input)) message.head message.body) result }
    ensures added { P.added patterns.new ≡ P.added patterns.old }
    ensures refused { P.refused patterns.new ≡ P.refused patterns.old }
    ensures refusals { P.refusals patterns.new ≡ P.refusals patterns.old }
{
    let Message { head, body } = message;
    let place = input_place(service, operation);
    let parts = request_parts(alloc, service, operation, &head);
    match whole_value(alloc, &rest.bindings, &place, parts, body, patterns) {
        Ok(value) => Ok((operation, value)),
        Err(refusal) => Err(refusal),
    }
}

// An output.
fn output_reply<P: Patterns>(
    alloc: Global,
    rest: &Rest,
    service: &Service,
    operation: u32,
    head: &Head,
    body: Bytes,
    patterns: &mut P,
) -> Result<Reply, MessageRefusal>
    requires servable { Servable (service_data service.now) }
    requires serves { rest_form.serves (service_data service.now) }
    requires rest { IsRestOf (service_data service.now) rest.now }
    requires served { ServesOperation rest_form (service_data service.now) operation }
    requires stored { AreStored (service_data service.now).table.patterns (P.added patterns.old) }
    requires pass { DefaultsPass (service_data service.now).table P.test }
    ensures reply { ReplyJoins (service_data service.now) P.test (goal_of operation the_output) head.now body result }
    ensures added { P.added patterns.new ≡ P.added patterns.old }
    ensures refused { P.refused patterns.new ≡ P.refused patterns.old }
    ensures refusals { P.refusals patterns.new ≡ P.refusals patterns.old }
{
    let place = output_place(service, operation);
    let parts = response_parts(alloc, head);
    match whole_value(alloc, &rest.bindings, &place, parts, body, patterns) {
        Ok(value) => Ok(Reply::Output(value)),
        Err(refusal) => Err(refusal),
    }
}

// The error at a place.
fn error_reply<P: Patterns>(
    alloc: Global,
    rest: &Rest,
    service: &Service,
    operation: u32,
    error: u32,
    head: &Head,
    body: Bytes,
    patterns: &mut P,
) -> Result<Reply, MessageRefusal>
    requires servable { Servable (service_data service.now) }
    requires serves { rest_form.serves (service_data service.now) }
    requires rest { IsRestOf (service_data service.now) rest.now }
    requires served { ServesOperation rest_form (service_data service.now) operation }
    requires goal { HasGoal (service_data service.now) (goal_of operation (the_error error)) }
    requires stored { AreStored (service_data service.now).table.patterns (P.added patterns.old) }
    requires pass { DefaultsPass (service_data service.now).table P.test }
    ensures reply { ReplyJoins (service_data service.now) P.test (goal_of operation (the_error error)) head.now body result }
    ensures added { P.added patterns.new ≡ P.added patterns.old }
    ensures refused { P.refused patterns.new ≡ P.refused patterns.old }
    ensures refusals { P.refusals patterns.new ≡ P.refusals patterns.old }
{
    let place = error_place(service, operation, error);
    let parts = response_parts(alloc, head);
    match whole_value(alloc, &rest.bindings, &place, parts, body, patterns) {
        Ok(value) => Ok(Reply::Error(error, value)),
        Err(refusal) => Err(refusal),
    }
}

// An error that its body names: that is read for the name, and then as the error has it.
fn named_reply<P: Patterns>(
    alloc: Global,
    rest: &Rest,
    service: &Service,
    operation: u32,
    head: &Head,
    body: Bytes,
    patterns: &mut P,
) -> Result<Reply, MessageRefusal>
    requires servable { Servable (service_data service.now) }
    requires serves { rest_form.serves (service_data service.now) }
    requires rest { IsRestOf (service_data service.now) rest.now }
    requires served { ServesOperation rest_form (service_data service.now) operation }
    requires stored { AreStored (service_data service.now).table.patterns (P.added patterns.old) }
    requires pass { DefaultsPass (service_data service.now).table P.test }
    ensures reply { AnswersResponse operation
        (RestAnswers (service_data service.now) P.test (to_named_error operation) head.now body) result }
    ensures added { P.added patterns.new ≡ P.added patterns.old }
    ensures refused { P.refused patterns.new ≡ P.refused patterns.old }
    ensures refusals { P.refusals patterns.new ≡ P.refusals patterns.old }
{
    match error_named(alloc, service, operation, body.as_slice()) {
        Ok(error) => error_reply(alloc, rest, service, operation, error, head, body, patterns),
        Err(refusal) => Err(refusal),
    }
}

/// What the response to an operation comes to that is held whole. The store must have the patterns of the service's table, and isn't changed.
///
/// # Errors
///
/// `Syntax`, `UnknownError`, `Fault`, in this order; `NoMemory`.
pub(crate) fn held_reply<P: Patterns>(
    alloc: Global,
    rest: &Rest,
    service: &Service,
    operation: u32,
    message: Message,
    patterns: &mut P,
) -> Result<Reply, MessageRefusal>
    requires servable { Servable (service_data service.now) }
    requires serves { rest_form.serves (service_data service.now) }
    requires rest { IsRestOf (service_data service.now) rest.now }
    requires served { ServesOperation rest_form (service_data service.now) operation }
    requires stored { AreStored (service_data service.now).table.patterns (P.added patterns.old) }
    requires pass { DefaultsPass (service_data service.now).table P.test }
    ensures reply { (there : Address) → response_answer rest_form (service_data service.now) message.head operation ≡ addressed there
        → AnswersResponse operation (RestAnswers (service_data service.now) P.test there message.head message.body) result }
    ensures added { P.added patterns.new ≡ P.added patterns.old }
    ensures refused { P.refused patterns.new ≡ P.refused patterns.old }
    ensures refusals { P.refusals patterns.new ≡ P.refusals patterns.old }
{
    let Message { head, body } = message;
    let told = told_by_head(&head);
    match judge_response(service, operation, &head, told) {
        Ok(ResponseAddress::Output) => {
            output_reply(alloc, rest, service, operation, &head, body, patterns)
        }
        Ok(ResponseAddress::Error(error)) => error_reply(
            alloc, rest, service, operation, error, &head, body, patterns,
        ),
        Ok(ResponseAddress::Named) => {
            named_reply(alloc, rest, service, operation, &head, body, patterns)
        }
        Err(refusal) => Err(refusal),
    }
}
