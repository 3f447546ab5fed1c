// The body of a message of restJson1 by pieces.
ghost use Rattle.std.specs.Prelude.{◌≡◌, ◌≤◌, ◌+◌, ◌-◌, ◌*◌, ◌^◌, ◌++◌, Bool, ℕ, IfOk, List, OnErr, OnOk, length, min, true};
ghost use Rattle.sm_bytes.specs.Lengths.{length_word};
ghost use Rattle.sm_tree.specs.Limits.{most_levels};
ghost use Rattle.sm_json.specs.Stands.{json_source};
ghost use Rattle.sm_shapes.specs.Fitting.{Test};
ghost use Rattle.sm_shapes.specs.InOrder.{AreStored, DefaultsPass, Shaped, most_defaults};
ghost use Rattle.sm_shapes.specs.TableView.{table_data};
ghost use Rattle.sm_codec.specs.Codec.{codec_of};
ghost use Rattle.sm_codec.specs.Conventions.{json_convention};
ghost use Rattle.sm_bodies.specs.Fed.{SomeFed};
ghost use Rattle.sm_http.specs.declared.message.Head.{Head};
ghost use Rattle.sm_rest.specs.service.Servable.{Servable};
ghost use Rattle.sm_rest.specs.service.ServiceData.{ServiceData};
ghost use Rattle.sm_rest.specs.service.ServiceView.{service_data};
ghost use Rattle.sm_rest.specs.messages.Answers.{AnswersRequest, AnswersResponse};
ghost use Rattle.sm_rest.specs.messages.Goals.{Asked, a_request, a_response};
ghost use Rattle.sm_rest.specs.messages.MessageAnswers.{MessageAnswers};
ghost use Rattle.sm_rest.specs.messages.Pieces.{FeedsOn, HasAll, MayTake, OfAll, frames_in, nodes_in, number_in};
ghost use Rattle.sm_rest.specs.bind.BindingsView.{bindings_data};
ghost use Rattle.sm_rest.specs.RestForm.{rest_form};
ghost use Rattle.sm_rest.specs.RestOf.{IsRestOf};
ghost use Rattle.sm_rest.specs.declared.context.Rest.{Rest};
ghost use Rattle.sm_bounds.specs.FewHeld.{HoldsFew};
ghost use Rattle.sm_rest_read.specs.Begun.{RestBegun, TakesRest, held_with, rest_codec, rest_state};
ghost use Rattle.sm_rest_read.specs.declared.body.RestBody.TheVariants.{Failed};

use crate::contents::LEAVES;
use crate::places::{input_place, output_place};
use crate::replies::{held_reply, held_request};
use crate::values::fed_value;
use sm_bodies::{Body, JsonBody};
use sm_bounds::laws::holds_few;
use sm_codec::Decoder;
use sm_http::Message;
use sm_json::JsonReader;
use sm_rest::Rest;
use sm_rest::sm_bind::Parts;
use sm_rest::sm_messages::{MessageRefusal, Reply, message_with};
use sm_rest::sm_service::Service;
use sm_shapes::Patterns;
use sm_shapes::tables::Table;
use sm_shapes::values::Value;
use sm_tree::{EventSource, NoMemory};
use std::alloc::Global;
use std::mem;

/// The body of a message, while its pieces come.
#[derive(Drop)]
pub enum RestBody {
    /// Memory ran out.
    Failed,
    /// The body of an error, an empty one, the bytes of a payload, or one that isn't read: the message, with all of its head. The bytes of
    /// one that isn't read are dropped.
    Held {
        operation: u32,
        message: Message,
        dropped: bool,
    },
    /// Every other body: the parts of its head, what reads its bytes, and what takes the events of its tree.
    Fed {
        operation: u32,
        parts: Parts,
        reader: JsonReader,
        decoder: Decoder,
    },
}

// Feeds a piece to a reader and to the decoder beside it.
fn fed_with<P: Patterns>(
    alloc: Global,
    documents: &Table,
    patterns: &mut P,
    piece: &[u8],
    reader: JsonReader,
    decoder: Decoder,
) -> Result<JsonBody, NoMemory>
    requires shaped { Shaped (table_data documents.now) }
    requires stored { AreStored (table_data documents.now).patterns (P.added patterns.old) }
    requires fed { SomeFed json_source (codec_of (table_data documents.now) (json_convention true) P.test) reader decoder }
    ensures fed { IfOk result (λ body. FeedsOn json_source (codec_of (table_data documents.now) (json_convention true) P.test)
        reader decoder piece.now body.reader body.decoder) }
    ensures added { P.added patterns.new ≡ P.added patterns.old }
    ensures refused { P.refused patterns.new ≡ P.refused patterns.old }
    ensures refusals { P.refusals patterns.new ≡ P.refusals patterns.old }
{
    let mut body = Body { reader, decoder };
    match body.piece(alloc, documents, &LEAVES, patterns, piece) {
        Ok(()) => Ok(body),
        Err(refusal) => Err(refusal),
    }
}

// A message that is held with a piece behind its body, or as it is where bytes are dropped.
fn held_with(message: Message, dropped: bool, piece: &[u8]) -> Result<Message, NoMemory>
    ensures { IfOk result (λ longer. longer ≡ held_with dropped message piece.now) }
{
    if dropped {
        Ok(message)
    } else {
        message_with(message, piece)
    }
}

// The body with a piece behind its bytes.
fn taken<P: Patterns>(
    alloc: Global,
    rest: &Rest,
    service: &Service,
    bytes: &[u8],
    patterns: &mut P,
    body: RestBody,
) -> Result<RestBody, NoMemory>
    requires rest { IsRestOf (service_data service.now) rest.now }
    requires stored { AreStored (service_data service.now).table.patterns (P.added patterns.old) }
    requires takes { MayTake json_source (rest_codec rest.now P.test) (rest_state body) }
    ensures takes { IfOk result (λ now. TakesRest (rest_codec rest.now P.test) body bytes.now now) }
    ensures added { P.added patterns.new ≡ P.added patterns.old }
    ensures refused { P.refused patterns.new ≡ P.refused patterns.old }
    ensures refusals { P.refusals patterns.new ≡ P.refusals patterns.old }
{
    let _service = service;
    match body {
        RestBody::Failed => Err(NoMemory),
        RestBody::Held {
            operation,
            message,
            dropped,
        } => match held_with(message, dropped, bytes) {
            Ok(message) => Ok(RestBody::Held {
                operation,
                message,
                dropped,
            }),
            Err(refusal) => Err(refusal),
        },
        RestBody::Fed {
            operation,
            parts,
            reader,
            decoder,
        } => {
            let documents = rest.bindings.documents();
            match fed_with(alloc, documents, patterns, bytes, reader, decoder) {
                Ok(Body { reader, decoder }) => Ok(RestBody::Fed {
                    operation,
                    parts,
                    reader,
                    decoder,
                }),
                Err(refusal) => Err(refusal),
            }
        }
    }
}

impl RestBody {
    /// Takes the next piece, and decodes what the bytes so far complete. What is kept of the service must be that by which the body was
    /// begun. The store must have the patterns of the service's table, and isn't changed. Only memory stops it: where the bytes are refused,
    /// the end tells that. A body that is out of memory stays so. What it holds is few, by the bytes that have come.
    ///
    /// # Errors
    ///
    /// `NoMemory`.
    pub fn piece<P: Patterns>(
        &mut self,
        alloc: Global,
        rest: &Rest,
        service: &Service,
        bytes: &[u8],
        patterns: &mut P,
    ) -> Result<(), NoMemory>
        requires rest { IsRestOf (service_data service.now) rest.now }
        requires stored { AreStored (service_data service.now).table.patterns (P.added patterns.old) }
        requires takes { MayTake json_source (rest_codec rest.now P.test) (rest_state self.old) }
        ensures takes { OnOk result (TakesRest (rest_codec rest.now P.test) self.old bytes.now self.new) }
        ensures begun { OnOk result ((asked : Asked) (head : Head) (empty : Bool) (come : List ℕ)
            → RestBegun rest.now (service_data service.now) P.test asked self.old head empty come
            → RestBegun rest.now (service_data service.now) P.test asked self.new head empty (come ++ bytes.now)) }
        ensures few { OnOk result ((asked : Asked) (head : Head) (empty : Bool) (come : List ℕ)
            → DefaultsPass (service_data service.now).table P.test
            → RestBegun rest.now (service_data service.now) P.test asked self.old head empty come
            → HoldsFew (bindings_data rest.now.bindings).documents (come ++ bytes.now) (rest_state self.new)) }
        ensures failed { OnErr result (self.new ≡ Failed) }
        ensures added { P.added patterns.new ≡ P.added patterns.old }
        ensures refused { P.refused patterns.new ≡ P.refused patterns.old }
        ensures refusals { P.refusals patterns.new ≡ P.refusals patterns.old }
    {
        holds_few::<JsonReader>();
        let body = mem::replace(self, RestBody::Failed);
        match taken(alloc, rest, service, bytes, patterns, body) {
            Ok(body) => {
                *self = body;
                Ok(())
            }
            Err(refusal) => Err(refusal),
        }
    }

    /// What a request comes to, all of whose bytes have come. What is kept of the service must be that by which the body was begun. The
    /// store must have the patterns of the service's table, and isn't changed.
    ///
    /// # Errors
    ///
    /// `Syntax`, `Fault`, in this order; `NoMemory`.
    pub fn finish_request<P: Patterns>(
        self,
        alloc: Global,
        rest: &Rest,
        service: &Service,
        patterns: &mut P,
    ) -> Result<(u32, Value), MessageRefusal>
        requires servable { Servable (service_data service.now) }
        requires serves { rest_form.serves (service_data service.now) }
        requires rest { IsRestOf (service_data service.now) rest.now }
        requires stored { AreStored (service_data service.now).table.patterns (P.added patterns.old) }
        requires pass { DefaultsPass (service_data service.now).table P.test }
        requires begun { HasAll (RestBegun rest.now (service_data service.now) P.test a_request self) }
        ensures answers { OfAll (RestBegun rest.now (service_data service.now) P.test a_request self)
            (λ head bytes. AnswersRequest (MessageAnswers rest_form (service_data service.now) P.test a_request head bytes) result) }
        ensures added { P.added patterns.new ≡ P.added patterns.old }
        ensures refused { P.refused patterns.new ≡ P.refused patterns.old }
        ensures refusals { P.refusals patterns.new ≡ P.refusals patterns.old }
    {
        match self {
            RestBody::Failed => Err(MessageRefusal::NoMemory),
            RestBody::Held {
                operation,
                message,
                ..
            } => held_request(alloc, rest, service, operation, message, patterns),
            RestBody::Fed {
                operation,
                parts,
                reader,
                decoder,
            } => {
                let place = input_place(service, operation);
                match fed_value(
                    alloc,
                    &rest.bindings,
                    &place,
                    &parts,
                    patterns,
                    reader,
                    decoder,
                ) {
                    Ok(value) => Ok((operation, value)),
                    Err(refusal) => Err(refusal),
                }
            }
        }
    }

    /// What the response to an operation comes to, all of whose bytes have come. What is kept of the service must be that by which the body
    /// was begun. The store must have the patterns of the service's table, and isn't changed.
    ///
    /// # Errors
    ///
    /// `Syntax`, `UnknownError`, `Fault`, in this order; `NoMemory`.
    pub fn finish_response<P: Patterns>(
        self,
        alloc: Global,
        rest: &Rest,
        service: &Service,
        patterns: &mut P,
    ) -> Result<Reply, MessageRefusal>
        requires servable { Servable (service_data service.now) }
        requires serves { rest_form.serves (service_data service.now) }
        requires rest { IsRestOf (service_data service.now) rest.now }
        requires stored { AreStored (service_data service.now).table.patterns (P.added patterns.old) }
        requires pass { DefaultsPass (service_data service.now).table P.test }
        requires begun { (o : ℕ) × HasAll (RestBegun rest.now (service_data service.now) P.test (a_response o) self) }
        ensures answers { (o : ℕ) → OfAll (RestBegun rest.now (service_data service.now) P.test (a_response o) self)
            (λ head bytes. AnswersResponse o (MessageAnswers rest_form (service_data service.now) P.test (a_response o) head bytes)
            result) }
        ensures added { P.added patterns.new ≡ P.added patterns.old }
        ensures refused { P.refused patterns.new ≡ P.refused patterns.old }
        ensures refusals { P.refusals patterns.new ≡ P.refusals patterns.old }
    {
        match self {
            RestBody::Failed => Err(MessageRefusal::NoMemory),
            RestBody::Held {
                operation,
                message,
                ..
            } => held_reply(alloc, rest, service, operation, message, patterns),
            RestBody::Fed {
                operation,
                parts,
                reader,
                decoder,
            } => {
                let place = output_place(service, operation);
                match fed_value(
                    alloc,
                    &rest.bindings,
                    &place,
                    &parts,
                    patterns,
                    reader,
                    decoder,
                ) {
                    Ok(value) => Ok(Reply::Output(value)),
                    Err(refusal) => Err(refusal),
                }
            }
        }
    }

    /// The number of its operation, or 0 where memory ran out. No memory.
    pub fn operation(&self) -> u32
        ensures { result ≡ number_in (rest_state self.now) }
    {
        match self {
            RestBody::Failed => 0,
            RestBody::Held { operation, .. } => *operation,
            RestBody::Fed { operation, .. } => *operation,
        }
    }

    /// How many nodes the values have that its decoder holds, or the greatest `u64` where that is more; 0 where it has none. At most two for
    /// each byte that has come, and the defaults of one structure of the table of documents with each. No memory.
    pub fn nodes(&self) -> u64
        ensures exact { result ≡ length_word (nodes_in (rest_state self.now)) }
        ensures few { (rest : Rest) (s : ServiceData) (added : List (List ℕ)) (test : Test) (asked : Asked) (head : Head) (empty : Bool)
            (bytes : List ℕ) → IsRestOf s rest → AreStored s.table.patterns added → DefaultsPass s.table test
            → RestBegun rest s test asked self.now head empty bytes
            → nodes_in (rest_state self.now) ≤ (1 + most_defaults (bindings_data rest.bindings).documents) * (2 * length bytes) }
    {
        JsonReader::laws();
        sm_codec::laws::kept_is_bounded();
        match self {
            RestBody::Failed => 0,
            RestBody::Held { .. } => 0,
            RestBody::Fed { decoder, .. } => decoder.nodes(),
        }
    }

    /// How many frames its decoder has, or the greatest `u32` where these are more; 0 where it has none. At most one for each of 100 levels,
    /// and one more. No memory.
    pub fn depth(&self) -> u32
        ensures exact { result ≡ min (frames_in (rest_state self.now)) (2 ^ 32 - 1) }
        ensures few { (rest : Rest) (s : ServiceData) (added : List (List ℕ)) (test : Test) (asked : Asked) (head : Head) (empty : Bool)
            (bytes : List ℕ) → IsRestOf s rest → AreStored s.table.patterns added → DefaultsPass s.table test
            → RestBegun rest s test asked self.now head empty bytes
            → frames_in (rest_state self.now) ≤ most_levels + 1 }
    {
        JsonReader::laws();
        sm_codec::laws::kept_is_bounded();
        sm_tree::laws::opens_no_more();
        match self {
            RestBody::Failed => 0,
            RestBody::Held { .. } => 0,
            RestBody::Fed { decoder, .. } => decoder.depth(),
        }
    }
}
