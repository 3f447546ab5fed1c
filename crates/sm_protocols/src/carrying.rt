// Which values a protocol carries. AWS JSON and RPC v2 CBOR tell it by the side of a message, restJson1 by the goal.
ghost use Rattle.std.specs.Prelude.{◌≡◌, ◌<◌, IfOk, length};
ghost use Rattle.sm_shapes.specs.Fitting.{Fits, any_text};
ghost use Rattle.sm_shapes.specs.ValueView.{val_of};
ghost use Rattle.sm_codec.specs.Encoded.{first_path};
ghost use Rattle.sm_awsjson.specs.service.Servable.{Servable};
ghost use Rattle.sm_awsjson.specs.service.ServiceView.{service_data};
ghost use Rattle.sm_awsjson.specs.messages.Answers.{reply_role, reply_val};
ghost use Rattle.sm_awsjson.specs.messages.Carrying.{FitsOn, TellsFirst};
ghost use Rattle.sm_awsjson.specs.messages.Goals.{HasGoal, goal_of, the_input};
ghost use Rattle.sm_awsjson.specs.messages.TreeBodies.{goal_place};
ghost use Rattle.sm_awsjson.specs.Messages.{aws_form};
ghost use Rattle.sm_rest_laws.specs.rest.RestForm.{rest_form};
ghost use Rattle.sm_rpc.specs.Messages.{rpc_form};
ghost use Rattle.sm_protocols.specs.Forms.{form_of};
ghost use Rattle.sm_protocols.specs.Kept.{protocol_of};

use crate::body::{AWS_10, AWS_11};
use crate::spoken::Spoken;
use sm_awsjson::AwsJson;
use sm_awsjson::sm_messages::Reply;
use sm_awsjson::sm_service::Service;
use sm_http::MessageSide;
use sm_rest_write::{is_input_carried, is_reply_carried};
use sm_rpc::Rpc;
use sm_shapes::values::Value;
use sm_tree::{NoMemory, Path};
use std::alloc::Global;

// The way to the first part of a value of a message on this side, in model order, that AWS JSON doesn't carry, if there is one. It takes
// memory only then.
fn uncarried_by_aws(
    alloc: Global,
    protocol: &AwsJson,
    service: &Service,
    operation: u32,
    side: MessageSide,
    value: &Value,
) -> Result<Option<Path>, NoMemory>
    requires servable { Servable (service_data service.now) }
    requires number { operation < length (service_data service.now).operations }
    requires fits { FitsOn (service_data service.now) operation side (val_of value.now) }
    ensures { IfOk result (λ path. TellsFirst ((aws_form protocol.now.version).uncarried (service_data service.now))
        (service_data service.now) operation side (val_of value.now) path) }
{
    if protocol.carried(service, operation, side, value) {
        return Ok(None);
    }
    protocol.not_carried(alloc, service, operation, side, value)
}

// That way, where RPC v2 CBOR doesn't carry it.
fn uncarried_by_rpc(
    alloc: Global,
    service: &Service,
    operation: u32,
    side: MessageSide,
    value: &Value,
) -> Result<Option<Path>, NoMemory>
    requires servable { Servable (service_data service.now) }
    requires number { operation < length (service_data service.now).operations }
    requires fits { FitsOn (service_data service.now) operation side (val_of value.now) }
    ensures { IfOk result (λ path. TellsFirst (rpc_form.uncarried (service_data service.now)) (service_data service.now) operation side
        (val_of value.now) path) }
{
    if Rpc.carried(service, operation, side, value) {
        return Ok(None);
    }
    Rpc.not_carried(alloc, service, operation, side, value)
}

// That way, where restJson1 doesn't carry an input.
fn input_uncarried_by_rest(
    alloc: Global,
    service: &Service,
    operation: u32,
    value: &Value,
) -> Result<Option<Path>, NoMemory>
    requires servable { Servable (service_data service.now) }
    requires number { operation < length (service_data service.now).operations }
    requires fits { Fits (service_data service.now).table any_text
        (goal_place (service_data service.now) (goal_of operation the_input)) (val_of value.now) }
    ensures { IfOk result (λ path. path
        ≡ first_path (rest_form.uncarried (service_data service.now) (goal_of operation the_input) (val_of value.now))) }
{
    if is_input_carried(service, operation, value) {
        return Ok(None);
    }
    sm_rest_write::uncarried_input(alloc, service, operation, value)
}

// That way, where restJson1 doesn't carry the value of a reply.
fn reply_uncarried_by_rest(
    alloc: Global,
    service: &Service,
    operation: u32,
    reply: &Reply,
) -> Result<Option<Path>, NoMemory>
    requires servable { Servable (service_data service.now) }
    requires goal { HasGoal (service_data service.now) (goal_of operation (reply_role reply.now)) }
    requires fits { Fits (service_data service.now).table any_text
        (goal_place (service_data service.now) (goal_of operation (reply_role reply.now))) (reply_val reply.now) }
    ensures { IfOk result (λ path. path
        ≡ first_path (rest_form.uncarried (service_data service.now) (goal_of operation (reply_role reply.now)) (reply_val reply.now))) }
{
    if is_reply_carried(service, operation, reply) {
        return Ok(None);
    }
    sm_rest_write::uncarried_reply(alloc, service, operation, reply)
}

/// The way to the first part of an input, in model order, that isn't carried, if there is one. It takes memory only then.
///
/// # Errors
///
/// `NoMemory`.
pub fn uncarried_input(
    alloc: Global,
    spoken: &Spoken,
    service: &Service,
    operation: u32,
    value: &Value,
) -> Result<Option<Path>, NoMemory>
    requires servable { Servable (service_data service.now) }
    requires number { operation < length (service_data service.now).operations }
    requires fits { Fits (service_data service.now).table any_text
        (goal_place (service_data service.now) (goal_of operation the_input)) (val_of value.now) }
    ensures { IfOk result (λ path. path ≡ first_path ((form_of (protocol_of spoken.now)).uncarried (service_data service.now)
        (goal_of operation the_input) (val_of value.now))) }
{
    let side = MessageSide::Request;
    match spoken {
        Spoken::AwsJson10 => uncarried_by_aws(alloc, &AWS_10, service, operation, side, value),
        Spoken::AwsJson11 => uncarried_by_aws(alloc, &AWS_11, service, operation, side, value),
        Spoken::RestJson1(_) => input_uncarried_by_rest(alloc, service, operation, value),
        Spoken::RpcV2Cbor => uncarried_by_rpc(alloc, service, operation, side, value),
    }
}

// The value of a reply.
fn value_of(reply: &Reply) -> &Value
    ensures { val_of result.now ≡ reply_val reply.now }
{
    match reply {
        Reply::Output(value) => value,
        Reply::Error(_, value) => value,
    }
}

/// The way to the first part of a reply's value, in model order, that isn't carried, if there is one. It takes memory only then.
///
/// # Errors
///
/// `NoMemory`.
pub fn uncarried_reply(
    alloc: Global,
    spoken: &Spoken,
    service: &Service,
    operation: u32,
    reply: &Reply,
) -> Result<Option<Path>, NoMemory>
    requires servable { Servable (service_data service.now) }
    requires goal { HasGoal (service_data service.now) (goal_of operation (reply_role reply.now)) }
    requires fits { Fits (service_data service.now).table any_text
        (goal_place (service_data service.now) (goal_of operation (reply_role reply.now))) (reply_val reply.now) }
    ensures { IfOk result (λ path. path ≡ first_path ((form_of (protocol_of spoken.now)).uncarried (service_data service.now)
        (goal_of operation (reply_role reply.now)) (reply_val reply.now))) }
{
    let side = MessageSide::Response;
    let value = value_of(reply);
    match spoken {
        Spoken::AwsJson10 => uncarried_by_aws(alloc, &AWS_10, service, operation, side, value),
        Spoken::AwsJson11 => uncarried_by_aws(alloc, &AWS_11, service, operation, side, value),
        Spoken::RestJson1(_) => reply_uncarried_by_rest(alloc, service, operation, reply),
        Spoken::RpcV2Cbor => uncarried_by_rpc(alloc, service, operation, side, value),
    }
}
