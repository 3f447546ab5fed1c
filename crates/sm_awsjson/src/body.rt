// The body of a message of AWS JSON by pieces.
ghost use Rattle.std.specs.Prelude.{◌≡◌, ◌≤◌, ◌<◌, ◌+◌, ◌-◌, ◌*◌, ◌^◌, ◌++◌, Bool, ℕ, IfOk, List, OnErr, OnOk, length, min};
ghost use Rattle.sm_bytes.specs.Lengths.{length_word};
ghost use Rattle.sm_tree.specs.Limits.{most_levels};
ghost use Rattle.sm_json.specs.JsonText.{json_syntax};
ghost use Rattle.sm_json.specs.Stands.{json_source};
ghost use Rattle.sm_shapes.specs.Fitting.{Test};
ghost use Rattle.sm_shapes.specs.InOrder.{AreStored, DefaultsPass, most_defaults};
ghost use Rattle.sm_http.specs.declared.message.Head.{Head};
ghost use Rattle.sm_service.specs.Servable.{Servable};
ghost use Rattle.sm_service.specs.ServiceData.{ServiceData};
ghost use Rattle.sm_service.specs.ServiceView.{service_data};
ghost use Rattle.sm_messages.specs.Answers.{AnswersRequest, AnswersResponse};
ghost use Rattle.sm_messages.specs.Goals.{Asked, a_request, a_response};
ghost use Rattle.sm_messages.specs.HeadAnswers.{Address, addressed, response_answer};
ghost use Rattle.sm_messages.specs.MessageAnswers.{MessageAnswers};
ghost use Rattle.sm_messages.specs.Names.{told_by_body};
ghost use Rattle.sm_messages.specs.Pieces.{HasAll, MayTake, OfAll, TakesPiece, frames_in, nodes_in, number_in};
ghost use Rattle.sm_messages.specs.TreeAnswers.{TreeAnswers};
ghost use Rattle.sm_messages.specs.TreeBodies.{tree_codec};
ghost use Rattle.sm_bounds.specs.FewHeld.{HoldsFew};
ghost use Rattle.sm_awsjson.specs.Begun.{AwsBegun, aws_state};
ghost use Rattle.sm_awsjson.specs.Messages.{aws_convention, aws_form};
ghost use Rattle.sm_awsjson.specs.declared.body.AwsBody.TheVariants.{Failed};
ghost use Rattle.sm_awsjson.specs.declared.version.AwsVersion.{AwsVersion};

use crate::context::AwsJson;
use crate::writing::LEAVES;
use sm_bodies::{Body, BodyForm};
use sm_bounds::laws::holds_few;
use sm_codec::Decoder;
use sm_http::Message;
use sm_json::JsonReader;
use sm_messages::{
    MessageRefusal, Reply, fed_value, fed_with, judge_response, message_with, told_by_head,
    whole_reply, whole_request,
};
use sm_service::Service;
use sm_shapes::Patterns;
use sm_shapes::values::Value;
use sm_tree::{EventSource, NoMemory};
use std::alloc::Global;
use std::mem;

/// The body of a message, while its pieces come.
#[derive(Drop)]
pub enum AwsBody {
    /// Memory ran out.
    Failed,
    /// The body of an error, or an empty one: the message, with what its answer still looks at of its head.
    Held {
        operation: u32,
        message: Message,
    },
    /// Every other body: what reads its bytes, and what takes the events of its tree.
    Fed {
        operation: u32,
        reader: JsonReader,
        decoder: Decoder,
    },
}

// The body with a piece behind its bytes.
fn taken<P: Patterns>(
    alloc: Global,
    service: &Service,
    bytes: &[u8],
    patterns: &mut P,
    body: AwsBody,
) -> Result<AwsBody, NoMemory>
    requires servable { Servable (service_data service.now) }
    requires stored { AreStored (service_data service.now).table.patterns (P.added patterns.old) }
    requires takes { MayTake json_source (tree_codec aws_convention (service_data service.now) P.test) (aws_state body) }
    ensures takes { IfOk result (λ now. TakesPiece json_source (tree_codec aws_convention (service_data service.now) P.test) (aws_state body)
        bytes.now (aws_state now)) }
    ensures added { P.added patterns.new ≡ P.added patterns.old }
    ensures refused { P.refused patterns.new ≡ P.refused patterns.old }
    ensures refusals { P.refusals patterns.new ≡ P.refusals patterns.old }
{
    match body {
        AwsBody::Failed => Err(NoMemory),
        AwsBody::Held { operation, message } => match message_with(message, bytes) {
            Ok(message) => Ok(AwsBody::Held { operation, message }),
            Err(refusal) => Err(refusal),
        },
        AwsBody::Fed {
            operation,
            reader,
            decoder,
        } => match fed_with(alloc, service, &LEAVES, patterns, bytes, reader, decoder) {
            Ok(Body { reader, decoder }) => Ok(AwsBody::Fed {
                operation,
                reader,
                decoder,
            }),
            Err(refusal) => Err(refusal),
        },
    }
}

// The answer to a response that was held.
fn held_reply<P: Patterns>(
    alloc: Global,
    service: &Service,
    operation: u32,
    message: &Message,
    patterns: &mut P,
) -> Result<Reply, MessageRefusal>
    requires servable { Servable (service_data service.now) }
    requires number { operation < length (service_data service.now).operations }
    requires stored { AreStored (service_data service.now).table.patterns (P.added patterns.old) }
    requires pass { DefaultsPass (service_data service.now).table P.test }
    ensures reply { (version : AwsVersion) (there : Address) → response_answer (aws_form version) (service_data service.now) message.now.head
        operation ≡ addressed there
        → AnswersResponse operation (TreeAnswers json_syntax (tree_codec aws_convention (service_data service.now) P.test)
        (service_data service.now) told_by_body there message.now.body) result }
    ensures added { P.added patterns.new ≡ P.added patterns.old }
    ensures refused { P.refused patterns.new ≡ P.refused patterns.old }
    ensures refusals { P.refusals patterns.new ≡ P.refusals patterns.old }
{
    let told = told_by_head(&message.head);
    match judge_response(service, operation, &message.head, told) {
        Ok(there) => whole_reply(
            alloc,
            BodyForm::Json,
            service,
            operation,
            there,
            true,
            message.body.as_slice(),
            &LEAVES,
            patterns,
        ),
        Err(refusal) => Err(refusal),
    }
}

impl AwsBody {
    /// Takes the next piece, and decodes what the bytes so far complete. The store must have the patterns of the service's table, and isn't
    /// changed. Only memory stops it: where the bytes are refused, the end tells that. A body that is out of memory stays so. What it holds
    /// is few, by the bytes that have come.
    ///
    /// # Errors
    ///
    /// `NoMemory`.
    pub fn piece<P: Patterns>(
        &mut self,
        alloc: Global,
        protocol: &AwsJson,
        service: &Service,
        bytes: &[u8],
        patterns: &mut P,
    ) -> Result<(), NoMemory>
        requires servable { Servable (service_data service.now) }
        requires stored { AreStored (service_data service.now).table.patterns (P.added patterns.old) }
        requires takes { MayTake json_source (tree_codec aws_convention (service_data service.now) P.test) (aws_state self.old) }
        ensures takes { OnOk result (TakesPiece json_source (tree_codec aws_convention (service_data service.now) P.test)
            (aws_state self.old) bytes.now (aws_state self.new)) }
        ensures begun { OnOk result ((asked : Asked) (head : Head) (empty : Bool) (come : List ℕ)
            → AwsBegun protocol.now.version (service_data service.now) P.test asked self.old head empty come
            → AwsBegun protocol.now.version (service_data service.now) P.test asked self.new head empty (come ++ bytes.now)) }
        ensures few { OnOk result ((asked : Asked) (head : Head) (empty : Bool) (come : List ℕ)
            → DefaultsPass (service_data service.now).table P.test
            → AwsBegun protocol.now.version (service_data service.now) P.test asked self.old head empty come
            → HoldsFew (service_data service.now).table (come ++ bytes.now) (aws_state self.new)) }
        ensures failed { OnErr result (self.new ≡ Failed) }
        ensures added { P.added patterns.new ≡ P.added patterns.old }
        ensures refused { P.refused patterns.new ≡ P.refused patterns.old }
        ensures refusals { P.refusals patterns.new ≡ P.refusals patterns.old }
    {
        holds_few::<JsonReader>();
        let _protocol = protocol;
        let body = mem::replace(self, AwsBody::Failed);
        match taken(alloc, service, bytes, patterns, body) {
            Ok(body) => {
                *self = body;
                Ok(())
            }
            Err(refusal) => Err(refusal),
        }
    }

    /// What a request comes to, all of whose bytes have come. The store must have the patterns of the service's table, and isn't changed.
    ///
    /// # Errors
    ///
    /// `Syntax`, `Fault`, in this order; `NoMemory`.
    pub fn finish_request<P: Patterns>(
        self,
        alloc: Global,
        protocol: &AwsJson,
        service: &Service,
        patterns: &mut P,
    ) -> Result<(u32, Value), MessageRefusal>
        requires servable { Servable (service_data service.now) }
        requires stored { AreStored (service_data service.now).table.patterns (P.added patterns.old) }
        requires pass { DefaultsPass (service_data service.now).table P.test }
        requires begun { HasAll (AwsBegun protocol.now.version (service_data service.now) P.test a_request self) }
        ensures answers { OfAll (AwsBegun protocol.now.version (service_data service.now) P.test a_request self)
            (λ head bytes. AnswersRequest (MessageAnswers (aws_form protocol.now.version) (service_data service.now) P.test a_request head
            bytes) result) }
        ensures added { P.added patterns.new ≡ P.added patterns.old }
        ensures refused { P.refused patterns.new ≡ P.refused patterns.old }
        ensures refusals { P.refusals patterns.new ≡ P.refusals patterns.old }
    {
        let _protocol = protocol;
        match self {
            AwsBody::Failed => Err(MessageRefusal::NoMemory),
            AwsBody::Held { operation, message } => whole_request(
                alloc,
                BodyForm::Json,
                service,
                operation,
                message.body.as_slice(),
                &LEAVES,
                patterns,
            ),
            AwsBody::Fed {
                operation,
                reader,
                decoder,
            } => match fed_value(alloc, service, &LEAVES, patterns, reader, decoder) {
                Ok(value) => Ok((operation, value)),
                Err(refusal) => Err(refusal),
            },
        }
    }

    /// What the response to an operation comes to, all of whose bytes have come. The store must have the patterns of the service's table, and
    /// isn't changed.
    ///
    /// # Errors
    ///
    /// `Syntax`, `UnknownError`, `Fault`, in this order; `NoMemory`.
    pub fn finish_response<P: Patterns>(
        self,
        alloc: Global,
        protocol: &AwsJson,
        service: &Service,
        patterns: &mut P,
    ) -> Result<Reply, MessageRefusal>
        requires servable { Servable (service_data service.now) }
        requires stored { AreStored (service_data service.now).table.patterns (P.added patterns.old) }
        requires pass { DefaultsPass (service_data service.now).table P.test }
        requires begun { (o : ℕ) × HasAll (AwsBegun protocol.now.version (service_data service.now) P.test (a_response o) self) }
        ensures answers { (o : ℕ) → OfAll (AwsBegun protocol.now.version (service_data service.now) P.test (a_response o) self)
            (λ head bytes. AnswersResponse o (MessageAnswers (aws_form protocol.now.version) (service_data service.now) P.test (a_response o)
            head bytes) result) }
        ensures added { P.added patterns.new ≡ P.added patterns.old }
        ensures refused { P.refused patterns.new ≡ P.refused patterns.old }
        ensures refusals { P.refusals patterns.new ≡ P.refusals patterns.old }
    {
        let _protocol = protocol;
        match self {
            AwsBody::Failed => Err(MessageRefusal::NoMemory),
            AwsBody::Held { operation, message } => {
                held_reply(alloc, service, operation, &message, patterns)
            }
            AwsBody::Fed {
                operation,
                reader,
                decoder,
            } => {
                let _operation = operation;
                match fed_value(alloc, service, &LEAVES, patterns, reader, decoder) {
                    Ok(value) => Ok(Reply::Output(value)),
                    Err(refusal) => Err(refusal),
                }
            }
        }
    }

    /// The number of its operation, or 0 where memory ran out. No memory.
    pub fn operation(&self) -> u32
        ensures { result ≡ number_in (aws_state self.now) }
    {
        match self {
            AwsBody::Failed => 0,
            AwsBody::Held { operation, .. } => *operation,
            AwsBody::Fed { operation, .. } => *operation,
        }
    }

    /// How many nodes the values have that its decoder holds, or the greatest `u64` where that is more; 0 where it has none. At most two for
    /// each byte that has come, and the defaults of one structure with each. No memory.
    pub fn nodes(&self) -> u64
        ensures exact { result ≡ length_word (nodes_in (aws_state self.now)) }
        ensures few { (version : AwsVersion) (s : ServiceData) (test : Test) (asked : Asked) (head : Head) (empty : Bool) (bytes : List ℕ)
            → Servable s → DefaultsPass s.table test → AwsBegun version s test asked self.now head empty bytes
            → nodes_in (aws_state self.now) ≤ (1 + most_defaults s.table) * (2 * length bytes) }
    {
        JsonReader::laws();
        sm_codec::laws::kept_is_bounded();
        match self {
            AwsBody::Failed => 0,
            AwsBody::Held { .. } => 0,
            AwsBody::Fed { decoder, .. } => decoder.nodes(),
        }
    }

    /// How many frames its decoder has, or the greatest `u32` where these are more; 0 where it has none. At most one for each of 100 levels,
    /// and one more. No memory.
    pub fn depth(&self) -> u32
        ensures exact { result ≡ min (frames_in (aws_state self.now)) (2 ^ 32 - 1) }
        ensures few { (version : AwsVersion) (s : ServiceData) (test : Test) (asked : Asked) (head : Head) (empty : Bool) (bytes : List ℕ)
            → Servable s → DefaultsPass s.table test → AwsBegun version s test asked self.now head empty bytes
            → frames_in (aws_state self.now) ≤ most_levels + 1 }
    {
        JsonReader::laws();
        sm_codec::laws::kept_is_bounded();
        sm_tree::laws::opens_no_more();
        match self {
            AwsBody::Failed => 0,
            AwsBody::Held { .. } => 0,
            AwsBody::Fed { decoder, .. } => decoder.depth(),
        }
    }
}
