// Messages of a protocol, written.
ghost use Rattle.std.specs.Prelude.{◌≡◌, ◌++◌, [], IfOk, List, OnErr, OnOk, ℕ};
ghost use Rattle.sm_http.specs.Written.{written};
ghost use Rattle.sm_shapes.specs.Fitting.{Fits, any_text};
ghost use Rattle.sm_shapes.specs.ValueView.{val_of};
ghost use Rattle.sm_awsjson.specs.service.Servable.{Servable};
ghost use Rattle.sm_awsjson.specs.service.ServiceView.{service_data};
ghost use Rattle.sm_awsjson.specs.messages.Answers.{reply_role, reply_val};
ghost use Rattle.sm_awsjson.specs.messages.Goals.{HasGoal, goal_of, the_input};
ghost use Rattle.sm_awsjson.specs.messages.IsForm.{ServesOperation};
ghost use Rattle.sm_awsjson.specs.messages.TreeBodies.{goal_place};
ghost use Rattle.sm_protocols.specs.Forms.{form_of};
ghost use Rattle.sm_protocols.specs.Kept.{protocol_of};

use crate::body::{AWS_10, AWS_11};
use crate::spoken::Spoken;
use sm_awsjson::sm_messages::Reply;
use sm_awsjson::sm_service::Service;
use sm_http::Message;
use sm_rpc::Rpc;
use sm_shapes::values::Value;
use sm_tree::NoMemory;
use std::alloc::Global;

/// Appends the text of the request to a host that is written for an input, all of which is carried, of an operation that the protocol
/// serves.
///
/// # Errors
///
/// `NoMemory`, and then `out` is as before.
pub fn append_request(
    alloc: Global,
    spoken: &Spoken,
    service: &Service,
    operation: u32,
    value: &Value,
    host: &str,
    out: &mut Vec<u8>,
) -> Result<(), NoMemory>
    requires servable { Servable (service_data service.now) }
    requires served { ServesOperation (form_of (protocol_of spoken.now)) (service_data service.now) operation }
    requires fits { Fits (service_data service.now).table any_text
        (goal_place (service_data service.now) (goal_of operation the_input)) (val_of value.now) }
    requires carried { (form_of (protocol_of spoken.now)).uncarried (service_data service.now) (goal_of operation the_input)
        (val_of value.now) ≡ [] }
    ensures written { OnOk result (out.new.items ≡ out.old.items ++ written
        ((form_of (protocol_of spoken.now)).written (service_data service.now) (goal_of operation the_input) host.now (val_of value.now))) }
    ensures unchanged { OnErr result (out.new.items ≡ out.old.items) }
{
    match spoken {
        Spoken::AwsJson10 => { AWS_10.append_request(alloc, service, operation, value, host, out) }
        Spoken::AwsJson11 => { AWS_11.append_request(alloc, service, operation, value, host, out) }
        Spoken::RestJson1(_) => sm_rest_write::append_request(
            alloc, service, operation, value, host, out,
        ),
        Spoken::RpcV2Cbor => Rpc.append_request(alloc, service, operation, value, host, out),
    }
}

/// The one request to a host that is written for an input, all of which is carried, of an operation that the protocol serves.
///
/// # Errors
///
/// `NoMemory`.
pub fn write_request(
    alloc: Global,
    spoken: &Spoken,
    service: &Service,
    operation: u32,
    value: &Value,
    host: &str,
) -> Result<Message, NoMemory>
    requires servable { Servable (service_data service.now) }
    requires served { ServesOperation (form_of (protocol_of spoken.now)) (service_data service.now) operation }
    requires fits { Fits (service_data service.now).table any_text
        (goal_place (service_data service.now) (goal_of operation the_input)) (val_of value.now) }
    requires carried { (form_of (protocol_of spoken.now)).uncarried (service_data service.now) (goal_of operation the_input)
        (val_of value.now) ≡ [] }
    ensures { IfOk result (λ message. message
        ≡ (form_of (protocol_of spoken.now)).written (service_data service.now) (goal_of operation the_input) host.now (val_of value.now)) }
{
    match spoken {
        Spoken::AwsJson10 => AWS_10.write_request(alloc, service, operation, value, host),
        Spoken::AwsJson11 => AWS_11.write_request(alloc, service, operation, value, host),
        Spoken::RestJson1(_) => sm_rest_write::write_request(
            alloc, service, operation, value, host,
        ),
        Spoken::RpcV2Cbor => Rpc.write_request(alloc, service, operation, value, host),
    }
}

/// The one response that is written for a reply, all of whose value is carried.
///
/// # Errors
///
/// `NoMemory`.
pub fn write_response(
    alloc: Global,
    spoken: &Spoken,
    service: &Service,
    operation: u32,
    reply: &Reply,
) -> Result<Message, NoMemory>
    requires servable { Servable (service_data service.now) }
    requires goal { HasGoal (service_data service.now) (goal_of operation (reply_role reply.now)) }
    requires fits { Fits (service_data service.now).table any_text
        (goal_place (service_data service.now) (goal_of operation (reply_role reply.now))) (reply_val reply.now) }
    requires carried { (form_of (protocol_of spoken.now)).uncarried (service_data service.now) (goal_of operation (reply_role reply.now))
        (reply_val reply.now) ≡ [] }
    ensures { (host : List ℕ) → IfOk result (λ message. message
        ≡ (form_of (protocol_of spoken.now)).written (service_data service.now) (goal_of operation (reply_role reply.now)) host
        (reply_val reply.now)) }
{
    match spoken {
        Spoken::AwsJson10 => AWS_10.write_response(alloc, service, operation, reply),
        Spoken::AwsJson11 => AWS_11.write_response(alloc, service, operation, reply),
        Spoken::RestJson1(_) => sm_rest_write::write_response(alloc, service, operation, reply),
        Spoken::RpcV2Cbor => Rpc.write_response(alloc, service, operation, reply),
    }
}
