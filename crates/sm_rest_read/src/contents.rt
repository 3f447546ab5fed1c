// What of a body counts where parts are joined.
ghost use Rattle.std.specs.Prelude.{◌≡◌, ◌<◌, ℕ, List, Some, false, true};
ghost use Rattle.sm_tree.specs.Node.{Node};
ghost use Rattle.sm_json.specs.Stands.{json_source};
ghost use Rattle.sm_shapes.specs.InOrder.{AreStored, DefaultsPass, Shaped};
ghost use Rattle.sm_shapes.specs.Places.{root_place};
ghost use Rattle.sm_shapes.specs.TableData.{shape_count};
ghost use Rattle.sm_shapes.specs.TableView.{table_data};
ghost use Rattle.sm_codec.specs.Codec.{Codec, codec_of};
ghost use Rattle.sm_codec.specs.Conventions.{json_convention};
ghost use Rattle.sm_codec.specs.FrameView.{outcome_of};
ghost use Rattle.sm_codec.specs.Kept.{IsOutcome};
ghost use Rattle.sm_codec.specs.Named.{is_null};
ghost use Rattle.sm_codec.specs.Readings.{reading};
ghost use Rattle.sm_bodies.specs.Fed.{BodyFed, SomeFed};
ghost use Rattle.sm_rest.specs.messages.Heads.{is_empty};
ghost use Rattle.sm_rest.specs.messages.MessageForm.{as_text};
ghost use Rattle.sm_rest.specs.bind.BindingsView.{bindings_data, body_at, bound_side};
ghost use Rattle.sm_rest.specs.bind.BoundView.{bound_of};
ghost use Rattle.sm_rest.specs.bind.Roles.{has_document};
ghost use Rattle.sm_rest.specs.bind_read.Outcomes.{IsTreeOf};
ghost use Rattle.sm_rest.specs.rest_heads.BodyParts.{rest_use};
ghost use Rattle.sm_rest_read.specs.Begun.{FoundMemory, bindings_codec};
ghost use Rattle.sm_rest_read.specs.steps.Contents.{GivesContent, GivesTree};
ghost use Rattle.sm_rest_read.specs.steps.Places.{IsJoinable};

use crate::places::part_at;
use sm_bodies::{Body, BodyRefusal, JsonBody};
use sm_codec::{Decoder, JsonLeaves, Outcome};
use sm_json::JsonReader;
use sm_rest::sm_bind::{Bindings, BoundPlace};
use sm_rest::sm_bind_read::PartBody;
use sm_rest::sm_messages::{MessageRefusal, is_empty};
use sm_rest::sm_rest_heads::BodyPart;
use sm_shapes::Patterns;
use sm_shapes::tables::Table;
use sm_tree::{Bytes, NoMemory};
use std::alloc::Global;

/// How leaves are spelled in documents and payloads, and members named.
pub(crate) const LEAVES: JsonLeaves = JsonLeaves { json_names: true };

// A tree that comes to this: a payload that is null is absent.
fn tree_body(document: bool, absent: bool, outcome: Outcome) -> PartBody
    ensures { (c : Codec) (shape : ℕ) (n : Node) → absent ≡ is_null n → IsOutcome (reading c n (root_place shape)) (outcome_of outcome)
        → IsTreeOf document c (Some shape) n result }
{
    if document {
        return PartBody::Tree(outcome);
    }
    if absent {
        PartBody::Empty
    } else {
        PartBody::Tree(outcome)
    }
}

/// What the bytes of a document, or else of a payload, come to that a reader and the decoder beside it were fed. The store must have the
/// patterns of the table, and isn't changed.
///
/// # Errors
///
/// `Syntax`; `NoMemory`.
pub(crate) fn fed_content<P: Patterns>(
    alloc: Global,
    documents: &Table,
    document: bool,
    patterns: &mut P,
    reader: JsonReader,
    decoder: Decoder,
) -> Result<PartBody, MessageRefusal>
    requires shaped { Shaped (table_data documents.now) }
    requires stored { AreStored (table_data documents.now).patterns (P.added patterns.old) }
    requires pass { DefaultsPass (table_data documents.now) P.test }
    requires fed { SomeFed json_source (codec_of (table_data documents.now) (json_convention true) P.test) reader decoder }
    requires memory { FoundMemory reader }
    ensures content { (shape : ℕ) (bytes : List ℕ) → shape < shape_count (table_data documents.now)
        → BodyFed json_source (codec_of (table_data documents.now) (json_convention true) P.test) shape reader decoder bytes
        → GivesTree document (codec_of (table_data documents.now) (json_convention true) P.test) shape bytes result }
    ensures added { P.added patterns.new ≡ P.added patterns.old }
    ensures refused { P.refused patterns.new ≡ P.refused patterns.old }
    ensures refusals { P.refusals patterns.new ≡ P.refusals patterns.old }
{
    let absent = reader.is_null();
    let body = Body { reader, decoder };
    match body.finish(alloc, documents, &LEAVES, patterns) {
        Ok(value) => Ok(tree_body(document, absent, Outcome::Good(value))),
        Err(BodyRefusal::Fault(fault)) => Ok(tree_body(document, absent, Outcome::Bad(fault))),
        Err(BodyRefusal::Syntax(refusal)) => Err(MessageRefusal::Syntax(refusal)),
        Err(BodyRefusal::NoMemory) => Err(MessageRefusal::NoMemory),
    }
}

/// The same of whole bytes.
pub(crate) fn text_content<P: Patterns>(
    alloc: Global,
    documents: &Table,
    document: bool,
    shape: u32,
    bytes: &[u8],
    patterns: &mut P,
) -> Result<PartBody, MessageRefusal>
    requires number { shape < shape_count (table_data documents.now) }
    requires shaped { Shaped (table_data documents.now) }
    requires stored { AreStored (table_data documents.now).patterns (P.added patterns.old) }
    requires pass { DefaultsPass (table_data documents.now) P.test }
    ensures content { GivesTree document (codec_of (table_data documents.now) (json_convention true) P.test) shape bytes.now result }
    ensures added { P.added patterns.new ≡ P.added patterns.old }
    ensures refused { P.refused patterns.new ≡ P.refused patterns.old }
    ensures refusals { P.refusals patterns.new ≡ P.refusals patterns.old }
{
    let begun: Result<JsonBody, NoMemory> = Body::begin(alloc, documents, shape);
    let mut body = match begun {
        Ok(body) => body,
        Err(_) => return Err(MessageRefusal::NoMemory),
    };
    match body.piece(alloc, documents, &LEAVES, patterns, bytes) {
        Ok(()) => {
            let Body { reader, decoder } = body;
            fed_content(alloc, documents, document, patterns, reader, decoder)
        }
        Err(_) => Err(MessageRefusal::NoMemory),
    }
}

// The same where bindings tell the shape: no bytes are nothing.
fn json_content<P: Patterns>(
    alloc: Global,
    bindings: &Bindings,
    place: &BoundPlace<'_>,
    document: bool,
    bytes: &[u8],
    patterns: &mut P,
) -> Result<PartBody, MessageRefusal>
    requires place { IsJoinable (bound_of place.now) (bindings_data bindings.now) }
    requires stored { AreStored (bound_of place.now).table.patterns (P.added patterns.old) }
    requires pass { DefaultsPass (bound_of place.now).table P.test }
    requires document { has_document (bound_of place.now) ≡ document }
    requires json { rest_use (bound_of place.now) false ≡ as_text }
    ensures content { GivesContent (bound_of place.now) (rest_use (bound_of place.now) (is_empty bytes.now))
        (bindings_codec (bindings_data bindings.now) P.test)
        (body_at (bindings_data bindings.now) (bound_side place.now.side) place.now.shape) bytes.now result }
    ensures added { P.added patterns.new ≡ P.added patterns.old }
    ensures refused { P.refused patterns.new ≡ P.refused patterns.old }
    ensures refusals { P.refusals patterns.new ≡ P.refusals patterns.old }
{
    let Some(shape) = bindings.document(place.side, place.shape) else {
        unreachable!();
    };
    if is_empty(bytes) {
        return Ok(PartBody::Empty);
    }
    let documents = bindings.documents();
    text_content(alloc, documents, document, shape, bytes, patterns)
}

/// What counts of the whole body of a message. The store must have the patterns of the service's table, and isn't changed.
///
/// # Errors
///
/// `Syntax`; `NoMemory`.
pub(crate) fn whole_content<P: Patterns>(
    alloc: Global,
    bindings: &Bindings,
    place: &BoundPlace<'_>,
    bytes: Bytes,
    patterns: &mut P,
) -> Result<PartBody, MessageRefusal>
    requires place { IsJoinable (bound_of place.now) (bindings_data bindings.now) }
    requires stored { AreStored (bound_of place.now).table.patterns (P.added patterns.old) }
    requires pass { DefaultsPass (bound_of place.now).table P.test }
    ensures content { GivesContent (bound_of place.now) (rest_use (bound_of place.now) (is_empty bytes))
        (bindings_codec (bindings_data bindings.now) P.test)
        (body_at (bindings_data bindings.now) (bound_side place.now.side) place.now.shape) bytes result }
    ensures added { P.added patterns.new ≡ P.added patterns.old }
    ensures refused { P.refused patterns.new ≡ P.refused patterns.old }
    ensures refusals { P.refusals patterns.new ≡ P.refusals patterns.old }
{
    match part_at(place) {
        BodyPart::Document => {
            json_content(alloc, bindings, place, true, bytes.as_slice(), patterns)
        }
        BodyPart::Tree => json_content(alloc, bindings, place, false, bytes.as_slice(), patterns),
        BodyPart::Raw(_) => Ok(PartBody::Raw(bytes)),
        BodyPart::Nothing => Ok(PartBody::Empty),
    }
}
