// A value of one side on the other: what is written for it, where it is carried.
ghost use Rattle.std.specs.Prelude.{List, ℕ};
ghost use Rattle.sm_shapes.specs.Fitting.{Fits, any_text};
ghost use Rattle.sm_shapes.specs.ValueView.{val_of};
ghost use Rattle.sm_shapes.specs.declared.fault.FaultKind.TheVariants.{NotCarried};
ghost use Rattle.sm_protocols.specs.service.Servable.{Servable};
ghost use Rattle.sm_protocols.specs.service.ServiceView.{service_data};
ghost use Rattle.sm_protocols.specs.messages.Answers.{reply_role, reply_val};
ghost use Rattle.sm_protocols.specs.messages.Goals.{HasGoal, goal_of, the_input};
ghost use Rattle.sm_protocols.specs.messages.IsForm.{ServesOperation};
ghost use Rattle.sm_protocols.specs.messages.MessageAnswers.{by_fault};
ghost use Rattle.sm_protocols.specs.messages.TreeBodies.{goal_place};
ghost use Rattle.sm_protocols.specs.Forms.{form_of};
ghost use Rattle.sm_protocols.specs.Kept.{protocol_of};
ghost use Rattle.sm_gateway.specs.Answers.{IsSaid};
ghost use Rattle.sm_gateway.specs.steps.Reading.{AsksFor, TellsFor, WritesFor};

use crate::answers::{back_refused_answer, refused_answer};
use crate::body::GatewayCall;
use crate::gateway::Gateway;
use sm_http::Message;
use sm_protocols::sm_messages::{MessageRefusal, Reply};
use sm_protocols::{
    append_request, uncarried_input, uncarried_reply, write_request, write_response,
};
use sm_session::Turn;
use sm_shapes::values::Value;
use sm_shapes::{Fault, FaultKind};
use sm_tree::{NoMemory, Path};
use std::alloc::Global;

// The refusal of a value that isn't carried.
fn uncarried_refusal(path: Path) -> MessageRefusal
    ensures { IsSaid result (by_fault path NotCarried) }
{
    MessageRefusal::Fault(Fault {
        path,
        kind: FaultKind::NotCarried,
    })
}

/// Puts an input to the back, behind what is in `out`, or answers that the back doesn't carry it.
pub(crate) fn ask(
    alloc: Global,
    gateway: &Gateway,
    operation: u32,
    value: &Value,
    out: &mut Vec<u8>,
) -> Result<Turn<GatewayCall>, NoMemory>
    requires servable { Servable (service_data gateway.now.service) }
    requires served { ServesOperation (form_of (protocol_of gateway.now.back)) (service_data gateway.now.service) operation }
    requires fits { Fits (service_data gateway.now.service).table any_text
        (goal_place (service_data gateway.now.service) (goal_of operation the_input)) (val_of value.now) }
    ensures { AsksFor (form_of (protocol_of gateway.now.back)) (service_data gateway.now.service) gateway.now.host
        (goal_of operation the_input)
        (val_of value.now) out.old.items out.new.items result }
{
    let service = &gateway.service;
    let back = &gateway.back;
    match uncarried_input(alloc, back, service, operation, value) {
        Ok(None) => {
            let host = gateway.host.as_str();
            match append_request(alloc, back, service, operation, value, host, out) {
                Ok(()) => Ok(Turn::Asking(GatewayCall { operation })),
                Err(NoMemory) => Err(NoMemory),
            }
        }
        Ok(Some(path)) => match refused_answer(alloc, &uncarried_refusal(path)) {
            Ok(answer) => Ok(Turn::Answered(answer)),
            Err(NoMemory) => Err(NoMemory),
        },
        Err(NoMemory) => Err(NoMemory),
    }
}

/// The request to the back that is written for an input, or that the back doesn't carry it.
pub(crate) fn ask_whole(
    alloc: Global,
    gateway: &Gateway,
    operation: u32,
    value: &Value,
) -> Result<Message, MessageRefusal>
    requires servable { Servable (service_data gateway.now.service) }
    requires served { ServesOperation (form_of (protocol_of gateway.now.back)) (service_data gateway.now.service) operation }
    requires fits { Fits (service_data gateway.now.service).table any_text
        (goal_place (service_data gateway.now.service) (goal_of operation the_input)) (val_of value.now) }
    ensures { WritesFor (form_of (protocol_of gateway.now.back)) (service_data gateway.now.service) gateway.now.host
        (goal_of operation the_input)
        (val_of value.now) result }
{
    let service = &gateway.service;
    let back = &gateway.back;
    match uncarried_input(alloc, back, service, operation, value) {
        Ok(None) => {
            let host = gateway.host.as_str();
            match write_request(alloc, back, service, operation, value, host) {
                Ok(message) => Ok(message),
                Err(NoMemory) => Err(MessageRefusal::NoMemory),
            }
        }
        Ok(Some(first)) => Err(uncarried_refusal(first)),
        Err(NoMemory) => Err(MessageRefusal::NoMemory),
    }
}

/// The response to the front that is written for a reply, or that the front doesn't carry it.
pub(crate) fn tell_whole(
    alloc: Global,
    gateway: &Gateway,
    operation: u32,
    reply: &Reply,
) -> Result<Message, MessageRefusal>
    requires servable { Servable (service_data gateway.now.service) }
    requires goal { HasGoal (service_data gateway.now.service) (goal_of operation (reply_role reply.now)) }
    requires fits { Fits (service_data gateway.now.service).table any_text
        (goal_place (service_data gateway.now.service) (goal_of operation (reply_role reply.now))) (reply_val reply.now) }
    ensures { (host : List ℕ) → WritesFor (form_of (protocol_of gateway.now.front)) (service_data gateway.now.service) host
        (goal_of operation (reply_role reply.now)) (reply_val reply.now) result }
{
    let service = &gateway.service;
    let front = &gateway.front;
    match uncarried_reply(alloc, front, service, operation, reply) {
        Ok(None) => match write_response(alloc, front, service, operation, reply) {
            Ok(message) => Ok(message),
            Err(NoMemory) => Err(MessageRefusal::NoMemory),
        },
        Ok(Some(path)) => Err(uncarried_refusal(path)),
        Err(NoMemory) => Err(MessageRefusal::NoMemory),
    }
}

/// The answer to the front for a reply of the back, or the answer that the front doesn't carry it.
pub(crate) fn tell(
    alloc: Global,
    gateway: &Gateway,
    operation: u32,
    reply: &Reply,
) -> Result<Message, NoMemory>
    requires servable { Servable (service_data gateway.now.service) }
    requires goal { HasGoal (service_data gateway.now.service) (goal_of operation (reply_role reply.now)) }
    requires fits { Fits (service_data gateway.now.service).table any_text
        (goal_place (service_data gateway.now.service) (goal_of operation (reply_role reply.now))) (reply_val reply.now) }
    ensures { (host : List ℕ) → TellsFor (form_of (protocol_of gateway.now.front)) (service_data gateway.now.service) host
        (goal_of operation (reply_role reply.now)) (reply_val reply.now) result }
{
    match tell_whole(alloc, gateway, operation, reply) {
        Ok(message) => Ok(message),
        Err(refusal) => back_refused_answer(alloc, &refusal),
    }
}
