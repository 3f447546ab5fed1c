// Whole messages.
ghost use Rattle.std.specs.Prelude.{◌≡◌};
ghost use Rattle.sm_shapes.specs.InOrder.{AreStored, DefaultsPass};
ghost use Rattle.sm_rest.specs.service.Servable.{Servable};
ghost use Rattle.sm_rest.specs.service.ServiceView.{service_data};
ghost use Rattle.sm_rest.specs.messages.Answers.{AnswersRequest, AnswersResponse};
ghost use Rattle.sm_rest.specs.messages.Goals.{a_request, a_response};
ghost use Rattle.sm_rest.specs.messages.IsForm.{ServesOperation};
ghost use Rattle.sm_rest.specs.messages.MessageAnswers.{MessageAnswers};
ghost use Rattle.sm_rest.specs.RestForm.{rest_form};
ghost use Rattle.sm_rest.specs.RestOf.{IsRestOf};

use crate::beginning::{begin_request, begin_response};
use sm_http::Message;
use sm_rest::Rest;
use sm_rest::sm_messages::{MessageRefusal, Reply, is_empty};
use sm_rest::sm_service::Service;
use sm_shapes::Patterns;
use sm_shapes::values::Value;
use std::alloc::Global;

/// What a request comes to: the number of its operation, and its value. The store must have the patterns of the service's table, and isn't
/// changed.
///
/// # Errors
///
/// `UnknownOperation`, `Unserved`, `MediaType`, `Syntax`, `Fault`, in this order; `NoMemory`.
pub fn read_request<P: Patterns>(
    alloc: Global,
    rest: &Rest,
    service: &Service,
    message: &Message,
    patterns: &mut P,
) -> Result<(u32, Value), MessageRefusal>
    requires servable { Servable (service_data service.now) }
    requires serves { rest_form.serves (service_data service.now) }
    requires rest { IsRestOf (service_data service.now) rest.now }
    requires stored { AreStored (service_data service.now).table.patterns (P.added patterns.old) }
    requires pass { DefaultsPass (service_data service.now).table P.test }
    ensures answers { AnswersRequest (MessageAnswers rest_form (service_data service.now) P.test a_request message.now.head
        message.now.body) result }
    ensures added { P.added patterns.new ≡ P.added patterns.old }
    ensures refused { P.refused patterns.new ≡ P.refused patterns.old }
    ensures refusals { P.refusals patterns.new ≡ P.refusals patterns.old }
{
    let bytes = message.body.as_slice();
    let empty = is_empty(bytes);
    let mut body = match begin_request(alloc, rest, service, &message.head, empty) {
        Ok(body) => body,
        Err(refusal) => return Err(refusal),
    };
    match body.piece(alloc, rest, service, bytes, patterns) {
        Ok(()) => body.finish_request(alloc, rest, service, patterns),
        Err(_) => Err(MessageRefusal::NoMemory),
    }
}

/// What the response to an operation that is served comes to. The store must have the patterns of the service's table, and isn't changed.
///
/// # Errors
///
/// `MediaType`, `UnknownError` where the head names the error, `Syntax`, `UnknownError` else, `Fault`, in this order; `NoMemory`.
pub fn read_response<P: Patterns>(
    alloc: Global,
    rest: &Rest,
    service: &Service,
    operation: u32,
    message: &Message,
    patterns: &mut P,
) -> Result<Reply, MessageRefusal>
    requires servable { Servable (service_data service.now) }
    requires serves { rest_form.serves (service_data service.now) }
    requires rest { IsRestOf (service_data service.now) rest.now }
    requires served { ServesOperation rest_form (service_data service.now) operation }
    requires stored { AreStored (service_data service.now).table.patterns (P.added patterns.old) }
    requires pass { DefaultsPass (service_data service.now).table P.test }
    ensures answers { AnswersResponse operation (MessageAnswers rest_form (service_data service.now) P.test (a_response operation)
        message.now.head message.now.body) result }
    ensures added { P.added patterns.new ≡ P.added patterns.old }
    ensures refused { P.refused patterns.new ≡ P.refused patterns.old }
    ensures refusals { P.refusals patterns.new ≡ P.refusals patterns.old }
{
    let bytes = message.body.as_slice();
    let empty = is_empty(bytes);
    let mut body = match begin_response(alloc, rest, service, operation, &message.head, empty) {
        Ok(body) => body,
        Err(refusal) => return Err(refusal),
    };
    match body.piece(alloc, rest, service, bytes, patterns) {
        Ok(()) => body.finish_response(alloc, rest, service, patterns),
        Err(_) => Err(MessageRefusal::NoMemory),
    }
}
