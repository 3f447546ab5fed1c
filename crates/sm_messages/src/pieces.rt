// The parts of a body that comes in pieces: the message that is held, and the reader and the decoder that are fed.
ghost use Rattle.std.specs.Prelude.{◌≡◌, ◌++◌, ℕ, false, [], IfOk, List, Option};
ghost use Rattle.sm_tree.specs.Node.{Node};
ghost use Rattle.sm_shapes.specs.InOrder.{AreStored, DefaultsPass, Shaped};
ghost use Rattle.sm_shapes.specs.TableView.{table_data};
ghost use Rattle.sm_codec.specs.Codec.{codec_of};
ghost use Rattle.sm_bodies.specs.Fed.{BodyFed, SomeFed};
ghost use Rattle.sm_service.specs.ServiceView.{service_data};
ghost use Rattle.sm_messages.specs.Begun.{is_held};
ghost use Rattle.sm_messages.specs.Goals.{Goal, goal_shape};
ghost use Rattle.sm_messages.specs.HeadAnswers.{to_goal};
ghost use Rattle.sm_messages.specs.Heads.{is_empty};
ghost use Rattle.sm_messages.specs.Pieces.{FeedsOn};
ghost use Rattle.sm_messages.specs.TreeAnswers.{AnswersGoal, TreeAnswers};
ghost use Rattle.sm_messages.specs.WrittenHeads.{with_fields};

use crate::refusal::MessageRefusal;
use crate::values::body_refused;
use sm_bodies::Body;
use sm_codec::{Decoder, Leaves};
use sm_http::{Field, FieldList, Head, Message, Start};
use sm_service::Service;
use sm_shapes::Patterns;
use sm_shapes::values::Value;
use sm_tree::{Bytes, EventSource, NoMemory, Text};
use std::alloc::Global;

fn copy_start(alloc: Global, start: &Start) -> Result<Start, NoMemory>
    ensures { IfOk result (λ copy. copy ≡ start.now) }
{
    match start {
        Start::Request { method, target } => {
            let method = Text::copy(alloc, method.as_str())?;
            let target = Text::copy(alloc, target.as_str())?;
            Ok(Start::Request { method, target })
        }
        Start::Response { status } => Ok(Start::Response { status: *status }),
    }
}

/// A message with this start and these fields, to which no byte of its body has come.
///
/// # Errors
///
/// `NoMemory`.
pub fn message_begun(alloc: Global, start: &Start, fields: Vec<Field>) -> Result<Message, NoMemory>
    ensures { IfOk result (λ message. message ≡ with_fields start.now fields.items []) }
{
    let start = copy_start(alloc, start)?;
    Ok(Message {
        head: Head {
            start,
            fields: FieldList::new(fields),
        },
        body: Bytes::new(Vec::new(alloc)),
    })
}

/// The message with a piece behind its body.
///
/// # Errors
///
/// `NoMemory`.
pub fn message_with(message: Message, piece: &[u8]) -> Result<Message, NoMemory>
    ensures { IfOk result (λ longer. longer ≡ record { head = message.head; body = message.body ++ piece.now }) }
{
    let Message { head, body } = message;
    let mut bytes = body.into_inner();
    bytes.extend_from_slice(piece)?;
    Ok(Message {
        head,
        body: Bytes::new(bytes),
    })
}

/// Feeds a piece to a reader and to the decoder beside it. The store must have the patterns of the service's table, and isn't changed. Only
/// memory stops it.
///
/// # Errors
///
/// `NoMemory`.
pub fn fed_with<S: EventSource + Drop, L: Leaves, P: Patterns>(
    alloc: Global,
    service: &Service,
    leaves: &L,
    patterns: &mut P,
    piece: &[u8],
    reader: S,
    decoder: Decoder,
) -> Result<Body<S>, NoMemory>
    requires shaped { Shaped (table_data service.now.table) }
    requires stored { AreStored (table_data service.now.table).patterns (P.added patterns.old) }
    requires fed { SomeFed S.source (codec_of (table_data service.now.table) (L.convention leaves.now) P.test) reader decoder }
    ensures fed { IfOk result (λ body. FeedsOn S.source (codec_of (table_data service.now.table) (L.convention leaves.now) P.test)
        reader decoder piece.now body.reader body.decoder) }
    ensures added { P.added patterns.new ≡ P.added patterns.old }
    ensures refused { P.refused patterns.new ≡ P.refused patterns.old }
    ensures refusals { P.refusals patterns.new ≡ P.refusals patterns.old }
{
    let mut body = Body { reader, decoder };
    match body.piece(alloc, &service.table, leaves, patterns, piece) {
        Ok(()) => Ok(body),
        Err(refusal) => Err(refusal),
    }
}

/// The value of a goal of which a reader and the decoder beside it were fed the body. The store must have the patterns of the service's table,
/// and isn't changed.
///
/// # Errors
///
/// `Syntax`, `Fault`, in this order; `NoMemory`.
pub fn fed_value<S: EventSource + Drop, L: Leaves, P: Patterns>(
    alloc: Global,
    service: &Service,
    leaves: &L,
    patterns: &mut P,
    reader: S,
    decoder: Decoder,
) -> Result<Value, MessageRefusal>
    requires shaped { Shaped (table_data service.now.table) }
    requires stored { AreStored (table_data service.now.table).patterns (P.added patterns.old) }
    requires pass { DefaultsPass (table_data service.now.table) P.test }
    requires fed { SomeFed S.source (codec_of (table_data service.now.table) (L.convention leaves.now) P.test) reader decoder }
    ensures value { (g : Goal) (told : Node → Option (List ℕ)) (bytes : List ℕ) → is_held (to_goal g) (is_empty bytes) ≡ false
        → BodyFed S.source (codec_of (table_data service.now.table) (L.convention leaves.now) P.test)
        (goal_shape (service_data service.now) g) reader decoder bytes
        → AnswersGoal (TreeAnswers (S.source).syntax (codec_of (table_data service.now.table) (L.convention leaves.now) P.test)
        (service_data service.now) told (to_goal g) bytes) g result }
    ensures added { P.added patterns.new ≡ P.added patterns.old }
    ensures refused { P.refused patterns.new ≡ P.refused patterns.old }
    ensures refusals { P.refusals patterns.new ≡ P.refusals patterns.old }
{
    let body = Body { reader, decoder };
    match body.finish(alloc, &service.table, leaves, patterns) {
        Ok(value) => Ok(value),
        Err(refusal) => Err(body_refused(refusal)),
    }
}
