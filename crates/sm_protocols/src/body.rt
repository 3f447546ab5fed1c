// The body of a message of a protocol, while its pieces come.
ghost use Rattle.std.specs.Prelude.{◌≡◌, ◌++◌, Bool, List, OnOk, ℕ};
ghost use Rattle.sm_shapes.specs.InOrder.{AreStored, DefaultsPass};
ghost use Rattle.sm_http.specs.declared.message.Head.{Head};
ghost use Rattle.sm_awsjson.specs.service.Servable.{Servable};
ghost use Rattle.sm_awsjson.specs.service.ServiceView.{service_data};
ghost use Rattle.sm_awsjson.specs.messages.Answers.{AnswersRequest, AnswersResponse};
ghost use Rattle.sm_awsjson.specs.messages.Goals.{Asked, a_request, a_response};
ghost use Rattle.sm_awsjson.specs.messages.MessageAnswers.{MessageAnswers};
ghost use Rattle.sm_awsjson.specs.messages.Pieces.{HasAll, OfAll};
ghost use Rattle.sm_protocols.specs.Forms.{form_of};
ghost use Rattle.sm_protocols.specs.Kept.{IsKeptOf, protocol_of};
ghost use Rattle.sm_protocols.specs.ProtocolBodies.{HoldsFewOn, ProtocolBegun, SomeBegun};

use crate::spoken::Spoken;
use sm_awsjson::sm_messages::{MessageRefusal, Reply};
use sm_awsjson::sm_service::Service;
use sm_awsjson::{AwsBody, AwsJson, AwsVersion};
use sm_rest_read::RestBody;
use sm_rpc::{Rpc, RpcBody};
use sm_shapes::Patterns;
use sm_shapes::values::Value;
use sm_tree::NoMemory;
use std::alloc::Global;

pub(crate) const AWS_10: AwsJson = AwsJson {
    version: AwsVersion::V10,
};

pub(crate) const AWS_11: AwsJson = AwsJson {
    version: AwsVersion::V11,
};

/// The body of a message of some protocol, while its pieces come.
#[derive(Drop)]
pub enum ProtocolBody {
    /// One of AWS JSON, of either version.
    Aws(AwsBody),
    /// One of restJson1.
    Rest(RestBody),
    /// One of Smithy RPC v2 CBOR.
    Rpc(RpcBody),
}

impl ProtocolBody {
    /// Takes the next piece of a body that was begun for the protocol. The store must have the patterns of the service's table, and isn't
    /// changed. What the body holds is few, by the bytes that have come.
    ///
    /// # Errors
    ///
    /// `NoMemory`.
    pub fn piece<P: Patterns>(
        &mut self,
        alloc: Global,
        spoken: &Spoken,
        service: &Service,
        bytes: &[u8],
        patterns: &mut P,
    ) -> Result<(), NoMemory>
        requires servable { Servable (service_data service.now) }
        requires kept { IsKeptOf (service_data service.now) spoken.now }
        requires stored { AreStored (service_data service.now).table.patterns (P.added patterns.old) }
        requires begun { SomeBegun spoken.now (service_data service.now) P.test self.old }
        ensures begun { OnOk result ((asked : Asked) (head : Head) (empty : Bool) (come : List ℕ)
            → ProtocolBegun spoken.now (service_data service.now) P.test asked self.old head empty come
            → ProtocolBegun spoken.now (service_data service.now) P.test asked self.new head empty (come ++ bytes.now)) }
        ensures few { OnOk result (HoldsFewOn spoken.now (service_data service.now) P.test self.old self.new bytes.now) }
        ensures added { P.added patterns.new ≡ P.added patterns.old }
        ensures refused { P.refused patterns.new ≡ P.refused patterns.old }
        ensures refusals { P.refusals patterns.new ≡ P.refusals patterns.old }
    {
        match spoken {
            Spoken::AwsJson10 => match self {
                ProtocolBody::Aws(body) => body.piece(alloc, &AWS_10, service, bytes, patterns),
                ProtocolBody::Rest(_) => unreachable!(),
                ProtocolBody::Rpc(_) => unreachable!(),
            },
            Spoken::AwsJson11 => match self {
                ProtocolBody::Aws(body) => body.piece(alloc, &AWS_11, service, bytes, patterns),
                ProtocolBody::Rest(_) => unreachable!(),
                ProtocolBody::Rpc(_) => unreachable!(),
            },
            Spoken::RestJson1(rest) => match self {
                ProtocolBody::Aws(_) => unreachable!(),
                ProtocolBody::Rest(body) => body.piece(alloc, rest, service, bytes, patterns),
                ProtocolBody::Rpc(_) => unreachable!(),
            },
            Spoken::RpcV2Cbor => match self {
                ProtocolBody::Aws(_) => unreachable!(),
                ProtocolBody::Rest(_) => unreachable!(),
                ProtocolBody::Rpc(body) => body.piece(alloc, &Rpc, service, bytes, patterns),
            },
        }
    }

    /// What a request comes to, all of whose bytes have come: the number of its operation, and its value. The store must have the
    /// patterns of the service's table, and isn't changed.
    ///
    /// # Errors
    ///
    /// `Syntax`, `Fault`, in this order; `NoMemory`.
    pub fn finish_request<P: Patterns>(
        self,
        alloc: Global,
        spoken: &Spoken,
        service: &Service,
        patterns: &mut P,
    ) -> Result<(u32, Value), MessageRefusal>
        requires servable { Servable (service_data service.now) }
        requires serves { (form_of (protocol_of spoken.now)).serves (service_data service.now) }
        requires kept { IsKeptOf (service_data service.now) spoken.now }
        requires stored { AreStored (service_data service.now).table.patterns (P.added patterns.old) }
        requires pass { DefaultsPass (service_data service.now).table P.test }
        requires begun { HasAll (ProtocolBegun spoken.now (service_data service.now) P.test a_request self) }
        ensures answers { OfAll (ProtocolBegun spoken.now (service_data service.now) P.test a_request self)
            (λ head bytes. AnswersRequest (MessageAnswers (form_of (protocol_of spoken.now)) (service_data service.now) P.test a_request
            head bytes)
            result) }
        ensures added { P.added patterns.new ≡ P.added patterns.old }
        ensures refused { P.refused patterns.new ≡ P.refused patterns.old }
        ensures refusals { P.refusals patterns.new ≡ P.refusals patterns.old }
    {
        match spoken {
            Spoken::AwsJson10 => match self {
                ProtocolBody::Aws(body) => body.finish_request(alloc, &AWS_10, service, patterns),
                ProtocolBody::Rest(_) => unreachable!(),
                ProtocolBody::Rpc(_) => unreachable!(),
            },
            Spoken::AwsJson11 => match self {
                ProtocolBody::Aws(body) => body.finish_request(alloc, &AWS_11, service, patterns),
                ProtocolBody::Rest(_) => unreachable!(),
                ProtocolBody::Rpc(_) => unreachable!(),
            },
            Spoken::RestJson1(rest) => match self {
                ProtocolBody::Aws(_) => unreachable!(),
                ProtocolBody::Rest(body) => body.finish_request(alloc, rest, service, patterns),
                ProtocolBody::Rpc(_) => unreachable!(),
            },
            Spoken::RpcV2Cbor => match self {
                ProtocolBody::Aws(_) => unreachable!(),
                ProtocolBody::Rest(_) => unreachable!(),
                ProtocolBody::Rpc(body) => body.finish_request(alloc, &Rpc, service, patterns),
            },
        }
    }

    /// What the response to an operation comes to, all of whose bytes have come. The store must have the patterns of the service's table,
    /// and isn't changed.
    ///
    /// # Errors
    ///
    /// `Syntax`, `UnknownError`, `Fault`, in this order; `NoMemory`.
    pub fn finish_response<P: Patterns>(
        self,
        alloc: Global,
        spoken: &Spoken,
        service: &Service,
        patterns: &mut P,
    ) -> Result<Reply, MessageRefusal>
        requires servable { Servable (service_data service.now) }
        requires serves { (form_of (protocol_of spoken.now)).serves (service_data service.now) }
        requires kept { IsKeptOf (service_data service.now) spoken.now }
        requires stored { AreStored (service_data service.now).table.patterns (P.added patterns.old) }
        requires pass { DefaultsPass (service_data service.now).table P.test }
        requires begun { (o : ℕ) × HasAll (ProtocolBegun spoken.now (service_data service.now) P.test (a_response o) self) }
        ensures answers { (o : ℕ) → OfAll (ProtocolBegun spoken.now (service_data service.now) P.test (a_response o) self)
            (λ head bytes. AnswersResponse o (MessageAnswers (form_of (protocol_of spoken.now)) (service_data service.now) P.test
            (a_response o) head bytes)
            result) }
        ensures added { P.added patterns.new ≡ P.added patterns.old }
        ensures refused { P.refused patterns.new ≡ P.refused patterns.old }
        ensures refusals { P.refusals patterns.new ≡ P.refusals patterns.old }
    {
        match spoken {
            Spoken::AwsJson10 => match self {
                ProtocolBody::Aws(body) => body.finish_response(alloc, &AWS_10, service, patterns),
                ProtocolBody::Rest(_) => unreachable!(),
                ProtocolBody::Rpc(_) => unreachable!(),
            },
            Spoken::AwsJson11 => match self {
                ProtocolBody::Aws(body) => body.finish_response(alloc, &AWS_11, service, patterns),
                ProtocolBody::Rest(_) => unreachable!(),
                ProtocolBody::Rpc(_) => unreachable!(),
            },
            Spoken::RestJson1(rest) => match self {
                ProtocolBody::Aws(_) => unreachable!(),
                ProtocolBody::Rest(body) => body.finish_response(alloc, rest, service, patterns),
                ProtocolBody::Rpc(_) => unreachable!(),
            },
            Spoken::RpcV2Cbor => match self {
                ProtocolBody::Aws(_) => unreachable!(),
                ProtocolBody::Rest(_) => unreachable!(),
                ProtocolBody::Rpc(body) => body.finish_response(alloc, &Rpc, service, patterns),
            },
        }
    }
}
