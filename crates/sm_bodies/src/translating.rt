// From a body of one side to a body of the other: the bytes of the near side to the value that they spell, and the value to the bytes of
// the far side.
ghost use Rattle.std.specs.Prelude.{◌≡◌, ◌<◌, IfOk};
ghost use Rattle.sm_shapes.specs.Fitting.{Fits, any_text};
ghost use Rattle.sm_shapes.specs.InOrder.{Shaped, AreStored, DefaultsPass};
ghost use Rattle.sm_shapes.specs.Places.{root_place};
ghost use Rattle.sm_shapes.specs.TableData.{shape_count};
ghost use Rattle.sm_shapes.specs.TableView.{table_data};
ghost use Rattle.sm_shapes.specs.ValueView.{val_of};
ghost use Rattle.sm_codec.specs.Codec.{codec_of};
ghost use Rattle.sm_bodies.specs.Sides.{side_of};
ghost use Rattle.sm_bodies.specs.Bodies.{DecodesAs, WritesBody};
ghost use Rattle.sm_bodies.specs.TextAnswers.{TextAnswers};
ghost use Rattle.sm_bodies.specs.AnswerView.{text_answer};
ghost use Rattle.sm_bodies.specs.steps.Translating.{AnswersValue, AnswersRefusal};

use crate::form::BodyForm;
use crate::reading::{BodyRefusal, body_value};
use crate::writing::{WrittenBody, write_body};
use sm_codec::{CborLeaves, JsonLeaves};
use sm_shapes::tables::Table;
use sm_shapes::values::Value;
use sm_shapes::{Fault, FaultKind, Patterns};
use sm_tree::{NoMemory, SyntaxRefusal};
use std::alloc::Global;

/// What a body comes to on the other side.
#[derive(Debug, Drop)]
pub enum BodyAnswer {
    /// The far side's text of its value.
    Text(Vec<u8>),
    /// Its bytes are no text of the near side: the word and the place, and never `NoMemory`.
    Syntax(SyntaxRefusal),
    /// Its first fault; or where it has none, `NotCarried` at the first leaf that the far side can't spell.
    Fault(Fault),
}

// The value of a body of the near side.
fn near_value<P: Patterns>(
    alloc: Global,
    near: BodyForm,
    table: &Table,
    shape: u32,
    patterns: &mut P,
    body: &[u8],
) -> Result<Value, BodyRefusal>
    requires number { shape < shape_count (table_data table.now) }
    requires shaped { Shaped (table_data table.now) }
    requires stored { AreStored (table_data table.now).patterns (P.added patterns.old) }
    requires pass { DefaultsPass (table_data table.now) P.test }
    ensures value { DecodesAs (side_of near).syntax (codec_of (table_data table.now) (side_of near).leaves P.test) shape body.now result }
    ensures added { P.added patterns.new ≡ P.added patterns.old }
    ensures refused { P.refused patterns.new ≡ P.refused patterns.old }
    ensures refusals { P.refusals patterns.new ≡ P.refusals patterns.old }
{
    match near {
        BodyForm::Json => body_value(
            alloc,
            BodyForm::Json,
            table,
            shape,
            &JsonLeaves { json_names: false },
            patterns,
            body,
            usize::MAX,
        ),
        BodyForm::Cbor => body_value(
            alloc,
            BodyForm::Cbor,
            table,
            shape,
            &CborLeaves,
            patterns,
            body,
            usize::MAX,
        ),
    }
}

// What is written for a value on the far side.
fn far_written(
    alloc: Global,
    far: BodyForm,
    table: &Table,
    shape: u32,
    value: &Value,
) -> Result<WrittenBody, NoMemory>
    requires shaped { Shaped (table_data table.now) }
    requires shape { shape < shape_count (table_data table.now) }
    requires fits { Fits (table_data table.now) any_text (root_place shape) (val_of value.now) }
    ensures { IfOk result (λ made.
        WritesBody (side_of far).text (table_data table.now) (side_of far).leaves (root_place shape) (val_of value.now) made) }
{
    sm_codec::laws::json_leaves_written();
    sm_codec::laws::cbor_leaves_written();
    match far {
        BodyForm::Json => write_body(
            alloc,
            BodyForm::Json,
            table,
            shape,
            value,
            &JsonLeaves { json_names: false },
        ),
        BodyForm::Cbor => write_body(alloc, BodyForm::Cbor, table, shape, value, &CborLeaves),
    }
}

// The answer to a body of this value.
fn far_answer(
    alloc: Global,
    far: BodyForm,
    table: &Table,
    shape: u32,
    value: &Value,
) -> Result<BodyAnswer, NoMemory>
    requires shaped { Shaped (table_data table.now) }
    requires shape { shape < shape_count (table_data table.now) }
    requires fits { Fits (table_data table.now) any_text (root_place shape) (val_of value.now) }
    ensures { IfOk result (λ answer. AnswersValue far (table_data table.now) (root_place shape) (val_of value.now) (text_answer answer)) }
{
    match far_written(alloc, far, table, shape, value) {
        Ok(WrittenBody::Bytes(bytes)) => Ok(BodyAnswer::Text(bytes)),
        Ok(WrittenBody::NotCarried(path)) => Ok(BodyAnswer::Fault(Fault {
            path,
            kind: FaultKind::NotCarried,
        })),
        Err(NoMemory) => Err(NoMemory),
    }
}

// The answer to a body that has no value.
fn refused_answer(refusal: BodyRefusal) -> Result<BodyAnswer, NoMemory>
    ensures { IfOk result (λ answer. AnswersRefusal refusal (text_answer answer)) }
{
    match refusal {
        BodyRefusal::Syntax(refusal) => Ok(BodyAnswer::Syntax(refusal)),
        BodyRefusal::Fault(fault) => Ok(BodyAnswer::Fault(fault)),
        BodyRefusal::NoMemory => Err(NoMemory),
    }
}

/// What a body of the near side comes to on the far side, for the shape with this number. The store must have the table's patterns, and
/// isn't changed. Its syntax is told before any fault, and the first fault before a leaf that the far side can't spell.
pub fn translated<P: Patterns>(
    alloc: Global,
    near: BodyForm,
    far: BodyForm,
    table: &Table,
    shape: u32,
    patterns: &mut P,
    body: &[u8],
) -> Result<BodyAnswer, NoMemory>
    requires number { shape < shape_count (table_data table.now) }
    requires shaped { Shaped (table_data table.now) }
    requires stored { AreStored (table_data table.now).patterns (P.added patterns.old) }
    requires pass { DefaultsPass (table_data table.now) P.test }
    ensures answers { IfOk result (λ answer. TextAnswers near far (table_data table.now) P.test (root_place shape) body.now
        (text_answer answer)) }
    ensures added { P.added patterns.new ≡ P.added patterns.old }
    ensures refused { P.refused patterns.new ≡ P.refused patterns.old }
    ensures refusals { P.refusals patterns.new ≡ P.refusals patterns.old }
{
    match near_value(alloc, near, table, shape, patterns, body) {
        Ok(value) => far_answer(alloc, far, table, shape, &value),
        Err(refusal) => refused_answer(refusal),
    }
}
