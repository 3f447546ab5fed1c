// Heads of messages of a protocol: which operation they ask for, and where a body is begun.
ghost use Rattle.std.specs.Prelude.{◌≡◌, ◌<◌, IfOk, length};
ghost use Rattle.sm_awsjson.specs.service.Servable.{Servable};
ghost use Rattle.sm_awsjson.specs.service.ServiceView.{service_data};
ghost use Rattle.sm_awsjson.specs.messages.HeadAnswers.{IsNamed};
ghost use Rattle.sm_awsjson.specs.messages.IsForm.{ServesOperation};
ghost use Rattle.sm_protocols.specs.Forms.{form_of};
ghost use Rattle.sm_protocols.specs.Kept.{IsKeptOf, protocol_of};
ghost use Rattle.sm_protocols.specs.ProtocolBodies.{BeginsRequest, BeginsResponse};

use crate::body::{AWS_10, AWS_11, ProtocolBody};
use crate::spoken::Spoken;
use sm_awsjson::sm_messages::MessageRefusal;
use sm_awsjson::sm_service::Service;
use sm_http::Head;
use sm_rest_read::{begin_request as begin_rest_request, begin_response as begin_rest_response};
use sm_rpc::Rpc;
use sm_tree::{NoMemory, Text};
use std::alloc::Global;

/// The number of the operation that a request's head asks for, served or not. No memory.
pub fn operation_of(spoken: &Spoken, service: &Service, head: &Head) -> Option<u32>
    requires servable { Servable (service_data service.now) }
    requires kept { IsKeptOf (service_data service.now) spoken.now }
    ensures { IsNamed (form_of (protocol_of spoken.now)) (service_data service.now) head.now result }
{
    match spoken {
        Spoken::AwsJson10 => AWS_10.operation_of(service, head),
        Spoken::AwsJson11 => AWS_11.operation_of(service, head),
        Spoken::RestJson1(rest) => rest.operation_of(service, head),
        Spoken::RpcV2Cbor => Rpc.operation_of(service, head),
    }
}

/// The path by which the protocol doesn't serve an operation, if there is one.
///
/// # Errors
///
/// `NoMemory`.
pub fn restriction(
    alloc: Global,
    spoken: &Spoken,
    service: &Service,
    operation: u32,
) -> Result<Option<Text>, NoMemory>
    requires servable { Servable (service_data service.now) }
    requires number { operation < length (service_data service.now).operations }
    ensures { IfOk result (λ path. path
        ≡ (form_of (protocol_of spoken.now)).restriction (service_data service.now) operation) }
{
    match spoken {
        Spoken::AwsJson10 => AWS_10.restriction(service, operation),
        Spoken::AwsJson11 => AWS_11.restriction(service, operation),
        Spoken::RestJson1(rest) => rest.restriction(alloc, service, operation),
        Spoken::RpcV2Cbor => Rpc.restriction(service, operation),
    }
}

/// Begins to read a request with this head, whose body is empty or not, and says which operation it is for.
///
/// # Errors
///
/// `Protocol`, `UnknownOperation`, `Unserved`, `MediaType`, in this order; `NoMemory`.
pub fn begin_request(
    alloc: Global,
    spoken: &Spoken,
    service: &Service,
    head: &Head,
    empty: bool,
) -> Result<(u32, ProtocolBody), MessageRefusal>
    requires servable { Servable (service_data service.now) }
    requires kept { IsKeptOf (service_data service.now) spoken.now }
    ensures { BeginsRequest spoken.now (service_data service.now) head.now empty result }
{
    match spoken {
        Spoken::AwsJson10 => match AWS_10.begin_request(alloc, service, head, empty) {
            Ok(body) => Ok((body.operation(), ProtocolBody::Aws(body))),
            Err(refusal) => Err(refusal),
        },
        Spoken::AwsJson11 => match AWS_11.begin_request(alloc, service, head, empty) {
            Ok(body) => Ok((body.operation(), ProtocolBody::Aws(body))),
            Err(refusal) => Err(refusal),
        },
        Spoken::RestJson1(rest) => match begin_rest_request(alloc, rest, service, head, empty) {
            Ok(body) => Ok((body.operation(), ProtocolBody::Rest(body))),
            Err(refusal) => Err(refusal),
        },
        Spoken::RpcV2Cbor => match Rpc.begin_request(alloc, service, head, empty) {
            Ok(body) => Ok((body.operation(), ProtocolBody::Rpc(body))),
            Err(refusal) => Err(refusal),
        },
    }
}

/// Begins to read the response to an operation that the protocol serves with this head, whose body is empty or not.
///
/// # Errors
///
/// `Protocol`, `MediaType`, `UnknownError` where the head names the error, in this order; `NoMemory`.
pub fn begin_response(
    alloc: Global,
    spoken: &Spoken,
    service: &Service,
    operation: u32,
    head: &Head,
    empty: bool,
) -> Result<ProtocolBody, MessageRefusal>
    requires servable { Servable (service_data service.now) }
    requires kept { IsKeptOf (service_data service.now) spoken.now }
    requires served { ServesOperation (form_of (protocol_of spoken.now)) (service_data service.now) operation }
    ensures { BeginsResponse spoken.now (service_data service.now) operation head.now empty result }
{
    match spoken {
        Spoken::AwsJson10 => {
            match AWS_10.begin_response(alloc, service, operation, head, empty) {
                Ok(body) => Ok(ProtocolBody::Aws(body)),
                Err(refusal) => Err(refusal),
            }
        }
        Spoken::AwsJson11 => {
            match AWS_11.begin_response(alloc, service, operation, head, empty) {
                Ok(body) => Ok(ProtocolBody::Aws(body)),
                Err(refusal) => Err(refusal),
            }
        }
        Spoken::RestJson1(rest) => {
            match begin_rest_response(alloc, rest, service, operation, head, empty) {
                Ok(body) => Ok(ProtocolBody::Rest(body)),
                Err(refusal) => Err(refusal),
            }
        }
        Spoken::RpcV2Cbor => match Rpc.begin_response(alloc, service, operation, head, empty) {
            Ok(body) => Ok(ProtocolBody::Rpc(body)),
            Err(refusal) => Err(refusal),
        },
    }
}
