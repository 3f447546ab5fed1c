// The value of a message whose head has been read, by what of its body counts.
ghost use Rattle.std.specs.Prelude.{◌≡◌, ℕ, IfOk, List, Some, false};
ghost use Rattle.sm_json.specs.Stands.{json_source};
ghost use Rattle.sm_shapes.specs.InOrder.{AreStored, DefaultsPass};
ghost use Rattle.sm_bodies.specs.Fed.{BodyFed, SomeFed};
ghost use Rattle.sm_rest.specs.messages.Heads.{is_empty};
ghost use Rattle.sm_rest.specs.messages.MessageForm.{BodyUse};
ghost use Rattle.sm_rest.specs.bind.BindingsView.{bindings_data, body_at, bound_side, parts_data};
ghost use Rattle.sm_rest.specs.bind.BoundView.{bound_of};
ghost use Rattle.sm_rest.specs.bind.PartsData.{PartsData};
ghost use Rattle.sm_rest_read.specs.Begun.{FoundMemory, bindings_codec};
ghost use Rattle.sm_rest_read.specs.steps.Contents.{BodyJoins, GivesContent, JoinsAt, is_document};
ghost use Rattle.sm_rest_read.specs.steps.Places.{IsJoinable};

use crate::contents::{fed_content, whole_content};
use crate::places::part_at;
use sm_codec::{Decoder, Refusal};
use sm_json::JsonReader;
use sm_rest::sm_bind::{Bindings, BoundPlace, Parts};
use sm_rest::sm_bind_read::{PartBody, join_parts};
use sm_rest::sm_messages::MessageRefusal;
use sm_rest::sm_rest_heads::BodyPart;
use sm_shapes::Patterns;
use sm_shapes::values::Value;
use sm_tree::{Bytes, NoMemory};
use std::alloc::Global;

// The value of these parts and of what counts of a body; or why that is none.
fn joined_value<P: Patterns>(
    alloc: Global,
    bindings: &Bindings,
    place: &BoundPlace<'_>,
    parts: &Parts,
    content: Result<PartBody, MessageRefusal>,
    patterns: &mut P,
) -> Result<Value, MessageRefusal>
    requires place { IsJoinable (bound_of place.now) (bindings_data bindings.now) }
    requires stored { AreStored (bound_of place.now).table.patterns (P.added patterns.old) }
    ensures joins { (used : BodyUse) (bytes : List ℕ) → GivesContent (bound_of place.now) used
        (bindings_codec (bindings_data bindings.now) P.test)
        (body_at (bindings_data bindings.now) (bound_side place.now.side) place.now.shape) bytes content
        → BodyJoins (bound_of place.now) P.test (parts_data parts.now) used bytes result }
    ensures added { P.added patterns.new ≡ P.added patterns.old }
    ensures refused { P.refused patterns.new ≡ P.refused patterns.old }
    ensures refusals { P.refusals patterns.new ≡ P.refusals patterns.old }
{
    match content {
        Ok(body) => match join_parts(alloc, bindings, place, parts, body, patterns) {
            Ok(value) => Ok(value),
            Err(Refusal::Fault(fault)) => Err(MessageRefusal::Fault(fault)),
            Err(Refusal::NoMemory) => Err(MessageRefusal::NoMemory),
        },
        Err(refusal) => Err(refusal),
    }
}

/// The value of a message with these parts, and with this whole body. The store must have the patterns of the service's table, and isn't
/// changed.
///
/// # Errors
///
/// `Syntax`, `Fault`, in this order; `NoMemory`.
pub(crate) fn whole_value<P: Patterns>(
    alloc: Global,
    bindings: &Bindings,
    place: &BoundPlace<'_>,
    parts: Result<Parts, NoMemory>,
    bytes: Bytes,
    patterns: &mut P,
) -> Result<Value, MessageRefusal>
    requires place { IsJoinable (bound_of place.now) (bindings_data bindings.now) }
    requires stored { AreStored (bound_of place.now).table.patterns (P.added patterns.old) }
    requires pass { DefaultsPass (bound_of place.now).table P.test }
    ensures joins { (given : PartsData) → IfOk parts (λ all. parts_data all ≡ given)
        → JoinsAt (bound_of place.now) P.test given bytes result }
    ensures added { P.added patterns.new ≡ P.added patterns.old }
    ensures refused { P.refused patterns.new ≡ P.refused patterns.old }
    ensures refusals { P.refusals patterns.new ≡ P.refusals patterns.old }
{
    match parts {
        Ok(parts) => {
            let content = whole_content(alloc, bindings, place, bytes, patterns);
            joined_value(alloc, bindings, place, &parts, content, patterns)
        }
        Err(_) => Err(MessageRefusal::NoMemory),
    }
}

// Whether what stands in a body is a document.
fn is_document(part: BodyPart) -> bool
    ensures { result ≡ is_document part }
{
    match part {
        BodyPart::Document => true,
        BodyPart::Tree => false,
        BodyPart::Raw(_) => false,
        BodyPart::Nothing => false,
    }
}

/// The value of a message with these parts, whose body isn't empty, and that a reader and the decoder beside it were fed. The store must have
/// the patterns of the service's table, and isn't changed.
///
/// # Errors
///
/// `Syntax`, `Fault`, in this order; `NoMemory`.
pub(crate) fn fed_value<P: Patterns>(
    alloc: Global,
    bindings: &Bindings,
    place: &BoundPlace<'_>,
    parts: &Parts,
    patterns: &mut P,
    reader: JsonReader,
    decoder: Decoder,
) -> Result<Value, MessageRefusal>
    requires place { IsJoinable (bound_of place.now) (bindings_data bindings.now) }
    requires stored { AreStored (bound_of place.now).table.patterns (P.added patterns.old) }
    requires pass { DefaultsPass (bound_of place.now).table P.test }
    requires fed { SomeFed json_source (bindings_codec (bindings_data bindings.now) P.test) reader decoder }
    requires memory { FoundMemory reader }
    ensures joins { (shape : ℕ) (bytes : List ℕ)
        → body_at (bindings_data bindings.now) (bound_side place.now.side) place.now.shape ≡ Some shape → is_empty bytes ≡ false
        → BodyFed json_source (bindings_codec (bindings_data bindings.now) P.test) shape reader decoder bytes
        → JoinsAt (bound_of place.now) P.test (parts_data parts.now) bytes result }
    ensures added { P.added patterns.new ≡ P.added patterns.old }
    ensures refused { P.refused patterns.new ≡ P.refused patterns.old }
    ensures refusals { P.refusals patterns.new ≡ P.refusals patterns.old }
{
    let document = is_document(part_at(place));
    let documents = bindings.documents();
    let content = fed_content(alloc, documents, document, patterns, reader, decoder);
    joined_value(alloc, bindings, place, parts, content, patterns)
}
