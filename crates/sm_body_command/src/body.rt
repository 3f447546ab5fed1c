// The command `body`: a body of one shape, read in the form of one side and written in that of the other.
ghost use Rattle.std.specs.Prelude.{◌≡◌, ◌≤◌, ◌<◌};
ghost use Rattle.sm_io.specs.Files.{LetsSame};
ghost use Rattle.sm_io.specs.Reading.{LosesPrefix};
ghost use Rattle.sm_io.specs.Seen.{files_seen, stream};
ghost use Rattle.sm_shapes.specs.InOrder.{Shaped, AreStored, DefaultsPass};
ghost use Rattle.sm_shapes.specs.TableData.{shape_count};
ghost use Rattle.sm_shapes.specs.TableView.{table_data};
ghost use Rattle.sm_bodies.specs.AnswerView.{text_answer};
ghost use Rattle.sm_compile.specs.Answers.{seen_store};
ghost use Rattle.sm_body_command.specs.Body.{body_asked, printed};
ghost use Rattle.sm_asked_shape.specs.asked.Outside.{inputs_seen};
ghost use Rattle.sm_asked_shape.specs.asked.CommandAsked.{OnlyAdds};
ghost use Rattle.sm_asked_shape.specs.asked.Comes.{CommandComesTo, StepComesTo};
ghost use Rattle.sm_body_command.specs.steps.BodySteps.{InputComesTo, PrintsText};

use crate::words::BodyWords;
use sm_asked_shape::load_shape;
use sm_asked_shape::sm_asked::{CommandStop, limit_line, past, refused};
use sm_bodies::{BodyAnswer, translated};
use sm_io::{Files, ReadRefusal, Source, read_all};
use sm_lines::{fault_line, syntax_line};
use sm_shapes::Patterns;
use sm_shapes::tables::Table;
use sm_tree::NoMemory;
use std::alloc::Global;

/// The greatest length of a body, in bytes.
const BODY_LIMIT: u64 = 1_048_576;

// What is printed for what a body comes to.
fn printed_answer(alloc: Global, answer: BodyAnswer) -> Result<Vec<u8>, CommandStop>
    ensures { StepComesTo (λ a. a ≡ printed (text_answer answer)) ⊥ (Unit {0}) result }
{
    match answer {
        BodyAnswer::Text(text) => Ok(text),
        BodyAnswer::Syntax(refusal) => Err(refused(syntax_line(alloc, refusal))),
        BodyAnswer::Fault(fault) => Err(refused(fault_line(alloc, &fault))),
    }
}

// What the bytes of a body come to.
fn far_body<P: Patterns>(
    alloc: Global,
    words: BodyWords<'_>,
    table: &Table,
    shape: u32,
    patterns: &mut P,
    body: &[u8],
) -> Result<Vec<u8>, CommandStop>
    requires number { shape < shape_count (table_data table.now) }
    requires shaped { Shaped (table_data table.now) }
    requires stored { AreStored (table_data table.now).patterns (P.added patterns.old) }
    requires pass { DefaultsPass (table_data table.now) P.test }
    ensures comes { StepComesTo
        (PrintsText words.entry.near words.entry.far (table_data table.now) P.test shape body.now) ⊥ (Unit {0}) result }
    ensures added { P.added patterns.new ≡ P.added patterns.old }
    ensures refused { P.refused patterns.new ≡ P.refused patterns.old }
    ensures refusals { P.refusals patterns.new ≡ P.refusals patterns.old }
{
    match translated(alloc, words.near, words.far, table, shape, patterns, body) {
        Ok(answer) => printed_answer(alloc, answer),
        Err(NoMemory) => Err(CommandStop::NoMemory),
    }
}

// What the whole input comes to.
fn far_input<S: Source, P: Patterns>(
    alloc: Global,
    words: BodyWords<'_>,
    table: &Table,
    shape: u32,
    patterns: &mut P,
    input: &mut S,
) -> Result<Vec<u8>, CommandStop>
    requires number { shape < shape_count (table_data table.now) }
    requires shaped { Shaped (table_data table.now) }
    requires stored { AreStored (table_data table.now).patterns (P.added patterns.old) }
    requires pass { DefaultsPass (table_data table.now) P.test }
    ensures comes { InputComesTo words.entry.near words.entry.far (table_data table.now) P.test shape
        (stream (S.left input.old) (S.faults input.old))
        (stream (S.left input.new) (S.faults input.new)) result }
    ensures added { P.added patterns.new ≡ P.added patterns.old }
    ensures refused { P.refused patterns.new ≡ P.refused patterns.old }
    ensures refusals { P.refusals patterns.new ≡ P.refusals patterns.old }
    ensures prefix { LosesPrefix (S.left input.old) (S.left input.new) }
    ensures input_faults { S.faults input.old ≤ S.faults input.new }
{
    match read_all(alloc, input, BODY_LIMIT) {
        Ok(body) => far_body(alloc, words, table, shape, patterns, &body),
        Err(ReadRefusal::Failed) => Err(CommandStop::ReadFault),
        Err(ReadRefusal::TooLong) => Err(past(limit_line(alloc, "body", BODY_LIMIT))),
        Err(ReadRefusal::NoMemory) => Err(CommandStop::NoMemory),
    }
}

/// The far body of the input, which spells a value of this shape of the model in this file. The graph of the model is dropped before the
/// input is read.
///
/// # Errors
///
/// In this order: those of `load_shape`; an input that can't be read or is too long; a body that is no text or has a fault, or whose value
/// the far side doesn't carry. At any step memory may run out.
pub fn body<F: Files, S: Source, P: Patterns>(
    alloc: Global,
    words: BodyWords<'_>,
    files: &mut F,
    input: &mut S,
    patterns: &mut P,
) -> Result<Vec<u8>, CommandStop>
    requires { F.lets_read files.old words.model.now }
    ensures comes { let before = inputs_seen (files_seen (F.held files.old) (F.read_faults files.old) (F.write_faults files.old))
        (stream (S.left input.old) (S.faults input.old))
        P.test (seen_store (P.added patterns.old) (P.refused patterns.old) (P.refusals patterns.old)) in
        let after = inputs_seen (files_seen (F.held files.new) (F.read_faults files.new) (F.write_faults files.new))
        (stream (S.left input.new) (S.faults input.new))
        P.test (seen_store (P.added patterns.new) (P.refused patterns.new) (P.refusals patterns.new)) in
        CommandComesTo before after (body_asked words.entry.model.now words.entry.shape.now words.entry.near words.entry.far) result }
    ensures held { F.held files.new ≡ F.held files.old }
    ensures read_faults { F.read_faults files.old ≤ F.read_faults files.new }
    ensures write_faults { F.write_faults files.new ≡ F.write_faults files.old }
    ensures same_reads { LetsSame (F.lets_read files.old) (F.lets_read files.new) }
    ensures same_writes { LetsSame (F.lets_write files.old) (F.lets_write files.new) }
    ensures prefix { LosesPrefix (S.left input.old) (S.left input.new) }
    ensures input_faults { S.faults input.old ≤ S.faults input.new }
    ensures added { OnlyAdds (P.added patterns.old) (P.added patterns.new) }
{
    match load_shape(alloc, files, words.model, words.shape, patterns) {
        Ok(one) => far_input(alloc, words, &one.table, one.shape, patterns, input),
        Err(stop) => Err(stop),
    }
}
