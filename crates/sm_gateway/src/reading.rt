// Messages of a gateway, read: begun at their heads, and their values once all their bytes have come.
ghost use Rattle.std.specs.Prelude.{◌≡◌, ◌<◌, [], IfOk, None, OnOk, Some, length};
ghost use Rattle.sm_shapes.specs.Fitting.{Test};
ghost use Rattle.sm_shapes.specs.InOrder.{AreStored, DefaultsPass};
ghost use Rattle.sm_http.specs.declared.message.Message.{Message};
ghost use Rattle.sm_protocols.specs.service.Servable.{Servable};
ghost use Rattle.sm_protocols.specs.service.ServiceView.{service_data};
ghost use Rattle.sm_session.specs.Responding.{HasRead, HasReadReply, HasReadRequest, HoldsOn, ReadsOn, begun_for};
ghost use Rattle.sm_protocols.specs.messages.Answers.{AnswersRequest, AtHead, RefusedAs};
ghost use Rattle.sm_protocols.specs.messages.Crossings.{or_by};
ghost use Rattle.sm_protocols.specs.messages.Goals.{a_request};
ghost use Rattle.sm_protocols.specs.messages.HeadAnswers.{IsJudged, refused_at_head};
ghost use Rattle.sm_protocols.specs.messages.IsForm.{ServesOperation};
ghost use Rattle.sm_protocols.specs.Forms.{form_of};
ghost use Rattle.sm_protocols.specs.Kept.{protocol_of};
ghost use Rattle.sm_gateway.specs.GatewayData.{ServesBoth};
ghost use Rattle.sm_gateway.specs.GatewayView.{KeepsBoth, gateway_data};
ghost use Rattle.sm_gateway.specs.steps.Reading.{AdmitsBody, AnsweredAs, AnswersReply, GatewayHolds, GatewayReads, IsMediaType, ReadsBoth};
ghost use Rattle.sm_gateway.specs.steps.Reading.{RefusesBody, WasAsked, both_spoken, with_number};

use crate::body::{GatewayBody, GatewayCall};
use crate::gateway::Gateway;
use sm_http::Head;
use sm_protocols::sm_messages::{MessageRefusal, Reply};
use sm_protocols::{begin_request, begin_response, operation_of};
use sm_shapes::Patterns;
use sm_shapes::values::Value;
use sm_tree::{NoMemory, Text};
use std::alloc::Global;

// The path by which one of the protocols doesn't serve an operation, if there is one.
fn restriction_of(gateway: &Gateway, operation: u32) -> &Option<Text>
    requires { operation < length (service_data gateway.now.service).operations }
    ensures { result.now ≡ or_by ((form_of (protocol_of gateway.now.front)).restriction (service_data gateway.now.service) operation)
        ((form_of (protocol_of gateway.now.back)).restriction (service_data gateway.now.service) operation) }
{
    &gateway.restrictions[operation as usize]
}

// A message that is refused at its head.
fn refused_body(refusal: MessageRefusal) -> Result<GatewayBody, NoMemory>
    ensures { RefusesBody refusal result }
{
    match refusal {
        MessageRefusal::NoMemory => Err(NoMemory),
        MessageRefusal::Protocol => Ok(GatewayBody::Refused(MessageRefusal::Protocol)),
        MessageRefusal::UnknownOperation => {
            Ok(GatewayBody::Refused(MessageRefusal::UnknownOperation))
        }
        MessageRefusal::Unserved(path) => {
            Ok(GatewayBody::Refused(MessageRefusal::Unserved(path)))
        }
        MessageRefusal::MediaType => Ok(GatewayBody::Refused(MessageRefusal::MediaType)),
        MessageRefusal::UnknownError => Ok(GatewayBody::Refused(MessageRefusal::UnknownError)),
        MessageRefusal::Syntax(why) => Ok(GatewayBody::Refused(MessageRefusal::Syntax(why))),
        MessageRefusal::Fault(fault) => Ok(GatewayBody::Refused(MessageRefusal::Fault(fault))),
    }
}

// A request for an operation that the front serves, unless the back doesn't.
fn admitted(
    alloc: Global,
    gateway: &Gateway,
    operation: u32,
    body: GatewayBody,
) -> Result<GatewayBody, NoMemory>
    requires { operation < length (service_data gateway.now.service).operations }
    ensures { AdmitsBody (or_by ((form_of (protocol_of gateway.now.front)).restriction (service_data gateway.now.service) operation)
        ((form_of (protocol_of gateway.now.back)).restriction (service_data gateway.now.service) operation)) body result }
{
    match restriction_of(gateway, operation) {
        None => Ok(body),
        Some(path) => match Text::copy(alloc, path.as_str()) {
            Ok(path) => Ok(GatewayBody::Refused(MessageRefusal::Unserved(path))),
            Err(_) => Err(NoMemory),
        },
    }
}

fn is_media_type(refusal: &MessageRefusal) -> bool
    ensures { IsMediaType refusal.now result }
{
    match refusal {
        MessageRefusal::MediaType => true,
        MessageRefusal::Protocol => false,
        MessageRefusal::UnknownOperation => false,
        MessageRefusal::Unserved(_) => false,
        MessageRefusal::UnknownError => false,
        MessageRefusal::Syntax(_) => false,
        MessageRefusal::Fault(_) => false,
        MessageRefusal::NoMemory => false,
    }
}

// A request that the front refuses at its head. That the back doesn't serve its operation goes before its media type.
fn refused_front(
    alloc: Global,
    gateway: &Gateway,
    head: &Head,
    empty: bool,
    refusal: MessageRefusal,
) -> Result<GatewayBody, NoMemory>
    requires servable { Servable (service_data gateway.now.service) }
    requires kept { KeepsBoth gateway.now }
    requires reads { ReadsBoth (gateway_data gateway.now) }
    requires refused { RefusedAs (AtHead (λ r. IsJudged (form_of (protocol_of gateway.now.front)) (service_data gateway.now.service)
        a_request head.now
        empty (refused_at_head r))) refusal }
    ensures { (test : Test) → ServesBoth (gateway_data gateway.now) test → IfOk result (λ body.
        GatewayReads (both_spoken gateway.now) (gateway_data gateway.now) test body
        (record { request = None; head = head.now; empty = empty }) []) }
{
    let _empty = empty;
    if is_media_type(&refusal) {
        return match operation_of(&gateway.front, &gateway.service, head) {
            Some(operation) => {
                let body = GatewayBody::Refused(MessageRefusal::MediaType);
                admitted(alloc, gateway, operation, body)
            }
            None => unreachable!(),
        };
    }
    refused_body(refusal)
}

/// Begins to read a request of the front.
pub(crate) fn begin_front(
    alloc: Global,
    gateway: &Gateway,
    head: &Head,
    empty: bool,
) -> Result<GatewayBody, NoMemory>
    requires servable { Servable (service_data gateway.now.service) }
    requires kept { KeepsBoth gateway.now }
    requires reads { ReadsBoth (gateway_data gateway.now) }
    ensures { (test : Test) → ServesBoth (gateway_data gateway.now) test → IfOk result (λ body.
        GatewayReads (both_spoken gateway.now) (gateway_data gateway.now) test body
        (record { request = None; head = head.now; empty = empty }) []) }
{
    match begin_request(alloc, &gateway.front, &gateway.service, head, empty) {
        Ok((operation, body)) => admitted(alloc, gateway, operation, GatewayBody::Request(body)),
        Err(refusal) => refused_front(alloc, gateway, head, empty, refusal),
    }
}

/// Begins to read the back's answer to what it was asked, of an operation that it serves.
pub(crate) fn begin_back(
    alloc: Global,
    gateway: &Gateway,
    call: GatewayCall,
    head: &Head,
    empty: bool,
) -> Result<GatewayBody, NoMemory>
    requires servable { Servable (service_data gateway.now.service) }
    requires kept { KeepsBoth gateway.now }
    requires reads { ReadsBoth (gateway_data gateway.now) }
    requires served { ServesOperation (form_of (protocol_of gateway.now.back)) (service_data gateway.now.service) call.operation }
    ensures { (test : Test) → ServesBoth (gateway_data gateway.now) test → IfOk result (λ body.
        (m : Message) → WasAsked (gateway_data gateway.now) test call.operation m
        → GatewayReads (both_spoken gateway.now) (gateway_data gateway.now) test body
        (record { request = Some m; head = head.now; empty = empty }) []) }
{
    let operation = call.operation;
    match begin_response(
        alloc,
        &gateway.back,
        &gateway.service,
        operation,
        head,
        empty,
    ) {
        Ok(body) => Ok(GatewayBody::Reply(operation, body)),
        Err(refusal) => refused_body(refusal),
    }
}

/// Reads a piece of a message, of which little is held. The store isn't changed.
pub(crate) fn read_on<P: Patterns>(
    alloc: Global,
    gateway: &Gateway,
    body: &mut GatewayBody,
    piece: &[u8],
    patterns: &mut P,
) -> Result<(), NoMemory>
    requires servable { Servable (service_data gateway.now.service) }
    requires kept { KeepsBoth gateway.now }
    requires stored { AreStored (service_data gateway.now.service).table.patterns (P.added patterns.old) }
    requires begun { HasRead (GatewayReads (both_spoken gateway.now) (gateway_data gateway.now) P.test body.old) }
    ensures reads { OnOk result (ReadsOn (GatewayReads (both_spoken gateway.now) (gateway_data gateway.now) P.test body.old)
        (GatewayReads (both_spoken gateway.now) (gateway_data gateway.now) P.test body.new) piece.now) }
    ensures few { DefaultsPass (service_data gateway.now.service).table P.test
        → OnOk result (HoldsOn (GatewayReads (both_spoken gateway.now) (gateway_data gateway.now) P.test body.old)
        (GatewayHolds (both_spoken gateway.now) (gateway_data gateway.now) body.new) piece.now) }
    ensures added { P.added patterns.new ≡ P.added patterns.old }
    ensures refused { P.refused patterns.new ≡ P.refused patterns.old }
    ensures refusals { P.refusals patterns.new ≡ P.refusals patterns.old }
{
    match body {
        GatewayBody::Refused(_) => Ok(()),
        GatewayBody::Request(body) => {
            body.piece(alloc, &gateway.front, &gateway.service, piece, patterns)
        }
        GatewayBody::Reply(_, body) => {
            body.piece(alloc, &gateway.back, &gateway.service, piece, patterns)
        }
    }
}

/// What a request comes to, all of whose bytes have come: the number of its operation and its value, or why it is refused. The store isn't
/// changed.
pub(crate) fn finish_front<P: Patterns>(
    alloc: Global,
    gateway: &Gateway,
    body: GatewayBody,
    patterns: &mut P,
) -> Result<(u32, Value), MessageRefusal>
    requires serves { ServesBoth (gateway_data gateway.now) P.test }
    requires kept { KeepsBoth gateway.now }
    requires stored { AreStored (service_data gateway.now.service).table.patterns (P.added patterns.old) }
    requires whole { HasReadRequest (GatewayReads (both_spoken gateway.now) (gateway_data gateway.now) P.test body) }
    ensures answers { (m : Message) → GatewayReads (both_spoken gateway.now) (gateway_data gateway.now) P.test body (begun_for None m)
        m.body
        → AnswersRequest (AnsweredAs (gateway_data gateway.now) P.test None m.head m.body) result }
    ensures added { P.added patterns.new ≡ P.added patterns.old }
    ensures refused { P.refused patterns.new ≡ P.refused patterns.old }
    ensures refusals { P.refusals patterns.new ≡ P.refusals patterns.old }
{
    match body {
        GatewayBody::Refused(refusal) => Err(refusal),
        GatewayBody::Request(body) => {
            body.finish_request(alloc, &gateway.front, &gateway.service, patterns)
        }
        GatewayBody::Reply(_, _) => unreachable!(),
    }
}

// The reply of an operation, or why there is none.
fn replied(
    operation: u32,
    reply: Result<Reply, MessageRefusal>,
) -> Result<(u32, Reply), MessageRefusal>
    ensures { result ≡ with_number operation reply }
{
    match reply {
        Ok(reply) => Ok((operation, reply)),
        Err(refusal) => Err(refusal),
    }
}

/// What the back's answer to a request comes to, all of whose bytes have come: the number of its operation and its reply, or why it is
/// refused. The store isn't changed.
pub(crate) fn finish_back<P: Patterns>(
    alloc: Global,
    gateway: &Gateway,
    body: GatewayBody,
    patterns: &mut P,
) -> Result<(u32, Reply), MessageRefusal>
    requires serves { ServesBoth (gateway_data gateway.now) P.test }
    requires kept { KeepsBoth gateway.now }
    requires reads { ReadsBoth (gateway_data gateway.now) }
    requires stored { AreStored (service_data gateway.now.service).table.patterns (P.added patterns.old) }
    requires whole { HasReadReply (GatewayReads (both_spoken gateway.now) (gateway_data gateway.now) P.test body) }
    ensures answers { (m : Message) (said : Message)
        → GatewayReads (both_spoken gateway.now) (gateway_data gateway.now) P.test body (begun_for (Some m) said) said.body
        → AnswersReply (gateway_data gateway.now) P.test m said result }
    ensures added { P.added patterns.new ≡ P.added patterns.old }
    ensures refused { P.refused patterns.new ≡ P.refused patterns.old }
    ensures refusals { P.refusals patterns.new ≡ P.refusals patterns.old }
{
    match body {
        GatewayBody::Refused(refusal) => Err(refusal),
        GatewayBody::Request(_) => unreachable!(),
        GatewayBody::Reply(operation, body) => {
            let reply = body.finish_response(alloc, &gateway.back, &gateway.service, patterns);
            replied(operation, reply)
        }
    }
}
