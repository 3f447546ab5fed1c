// The value of a body: its bytes go through a reader of their format into a decoder, and no tree is made.
ghost use Rattle.std.specs.Prelude.{◌≡◌, ◌<◌, OnOk};
ghost use Rattle.sm_shapes.specs.InOrder.{Shaped, AreStored, DefaultsPass};
ghost use Rattle.sm_shapes.specs.TableData.{shape_count};
ghost use Rattle.sm_shapes.specs.TableView.{table_data};
ghost use Rattle.sm_codec.specs.Codec.{codec_of};
ghost use Rattle.sm_codec.specs.DecodingView.{decoding_of, IsWhole};
ghost use Rattle.sm_bodies.specs.Sides.{side_of};
ghost use Rattle.sm_bodies.specs.Bodies.{DecodesAs};
ghost use Rattle.sm_bodies.specs.steps.Reading.{AnswersRead, FinishesAs, body_refusal};

use crate::body::Body;
use crate::form::BodyForm;
use sm_cbor::CborReader;
use sm_codec::{Decoder, Leaves, Refusal};
use sm_json::JsonReader;
use sm_shapes::tables::Table;
use sm_shapes::values::Value;
use sm_shapes::{Fault, Patterns};
use sm_tree::{EventSource, SyntaxRefusal};
use std::alloc::Global;

/// Why a body has no value.
#[derive(Debug, Drop)]
pub enum BodyRefusal {
    /// Its bytes are no text or item: the word and the place, and never `NoMemory`.
    Syntax(SyntaxRefusal),
    /// The first fault of its tree.
    Fault(Fault),
    /// Out of memory.
    NoMemory,
}

// Why a body has no value of which a reader says this.
fn refused(refusal: SyntaxRefusal) -> BodyRefusal
    ensures { result ≡ body_refusal refusal }
{
    match refusal {
        SyntaxRefusal::Bad(at) => BodyRefusal::Syntax(SyntaxRefusal::Bad(at)),
        SyntaxRefusal::Ended => BodyRefusal::Syntax(SyntaxRefusal::Ended),
        SyntaxRefusal::TooDeep(at) => BodyRefusal::Syntax(SyntaxRefusal::TooDeep(at)),
        SyntaxRefusal::KeyKind(at) => BodyRefusal::Syntax(SyntaxRefusal::KeyKind(at)),
        SyntaxRefusal::NoMemory => BodyRefusal::NoMemory,
    }
}

// What a whole decoder answers.
fn finished(decoder: Decoder) -> Result<Value, BodyRefusal>
    requires whole { IsWhole (decoding_of decoder) }
    ensures { FinishesAs (decoding_of decoder) result }
{
    match decoder.finish() {
        Ok(value) => Ok(value),
        Err(Refusal::Fault(fault)) => Err(BodyRefusal::Fault(fault)),
        Err(Refusal::NoMemory) => Err(BodyRefusal::NoMemory),
    }
}

// What a decoder answers to which a body's events were handed, or as many as there are.
pub(crate) fn answered(
    decoder: Decoder,
    read: Result<(), SyntaxRefusal>,
) -> Result<Value, BodyRefusal>
    requires whole { OnOk read (IsWhole (decoding_of decoder)) }
    ensures { AnswersRead (decoding_of decoder) read result }
{
    match read {
        Ok(()) => finished(decoder),
        Err(refusal) => Err(refused(refusal)),
    }
}

// Gives the bytes to a body that was begun, in pieces of at most so many, and then its end.
fn value_by<S: EventSource + Drop, L: Leaves, P: Patterns>(
    alloc: Global,
    table: &Table,
    shape: u32,
    leaves: &L,
    patterns: &mut P,
    bytes: &[u8],
    piece: usize,
) -> Result<Value, BodyRefusal>
    requires piece { 0 < piece }
    requires number { shape < shape_count (table_data table.now) }
    requires shaped { Shaped (table_data table.now) }
    requires stored { AreStored (table_data table.now).patterns (P.added patterns.old) }
    requires pass { DefaultsPass (table_data table.now) P.test }
    ensures value { DecodesAs (S.source).syntax (codec_of (table_data table.now) (L.convention leaves.now) P.test) shape bytes.now
        result }
    ensures added { P.added patterns.new ≡ P.added patterns.old }
    ensures refused { P.refused patterns.new ≡ P.refused patterns.old }
    ensures refusals { P.refusals patterns.new ≡ P.refusals patterns.old }
{
    let mut body: Body<S> = match Body::begin(alloc, table, shape) {
        Ok(body) => body,
        Err(_) => return Err(BodyRefusal::NoMemory),
    };
    let mut at = 0;
    while at < bytes.len() {
        let end = at + piece.min(bytes.len() - at);
        match body.piece(alloc, table, leaves, patterns, &bytes[at..end]) {
            Ok(()) => at = end,
            Err(_) => return Err(BodyRefusal::NoMemory),
        }
    }
    body.finish(alloc, table, leaves, patterns)
}

/// The value of a body of this form, whose bytes come in pieces of at most so many. The store must have the table's patterns, and
/// isn't changed.
///
/// # Errors
///
/// `Syntax`, where the bytes are no text or item; else `Fault`, the first of its tree; `NoMemory`.
pub fn body_value<L: Leaves, P: Patterns>(
    alloc: Global,
    form: BodyForm,
    table: &Table,
    shape: u32,
    leaves: &L,
    patterns: &mut P,
    bytes: &[u8],
    piece: usize,
) -> Result<Value, BodyRefusal>
    requires piece { 0 < piece }
    requires number { shape < shape_count (table_data table.now) }
    requires shaped { Shaped (table_data table.now) }
    requires stored { AreStored (table_data table.now).patterns (P.added patterns.old) }
    requires pass { DefaultsPass (table_data table.now) P.test }
    ensures value { DecodesAs (side_of form).syntax (codec_of (table_data table.now) (L.convention leaves.now) P.test) shape bytes.now
        result }
    ensures added { P.added patterns.new ≡ P.added patterns.old }
    ensures refused { P.refused patterns.new ≡ P.refused patterns.old }
    ensures refusals { P.refusals patterns.new ≡ P.refusals patterns.old }
{
    match form {
        BodyForm::Json => {
            value_by::<JsonReader, L, P>(alloc, table, shape, leaves, patterns, bytes, piece)
        }
        BodyForm::Cbor => {
            value_by::<CborReader, L, P>(alloc, table, shape, leaves, patterns, bytes, piece)
        }
    }
}
