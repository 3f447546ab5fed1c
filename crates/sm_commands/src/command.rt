// The commands: what the program does for its words, over any files, input and output.
ghost use Rattle.std.specs.Prelude.{◌≡◌, ◌≤◌, List, ℕ, Contains};
ghost use Rattle.sm_io.specs.Files.{LetsSame};
ghost use Rattle.sm_io.specs.Reading.{LosesPrefix};
ghost use Rattle.sm_io.specs.Seen.{files_seen, stream};
ghost use Rattle.sm_compile.specs.Answers.{seen_store};
ghost use Rattle.sm_model_commands.specs.asked.CommandAsked.{OnlyAdds};
ghost use Rattle.sm_model_commands.specs.asked.Comes.{CommandComesTo};
ghost use Rattle.sm_model_commands.specs.asked.Outside.{inputs_seen, outside};
ghost use Rattle.sm_cross_command.specs.asked_ends.AskedEnds.{AskedEnds};
ghost use Rattle.sm_commands.specs.Commands.{IsCommandForm, LetsRead, LetsWrite, asked_of};
ghost use Rattle.sm_commands.specs.Run.{KeepsFiles, RunAnswers, WritingNone};
ghost use Rattle.sm_commands.specs.steps.CarrySteps.{KeepsUnnamed, NamingNone};
ghost use Rattle.sm_commands.specs.steps.FormSteps.{command_of, whole_command};

use crate::words::{CommandForm, WholeForm, form_of};
use sm_body_command::body::body;
use sm_cross_command::cross::cross;
use sm_cross_command::sm_asked_ends::print;
use sm_io::{Files, Sink, Source};
use sm_model_commands::check::check;
use sm_model_commands::convert::convert;
use sm_model_commands::select::select;
use sm_model_commands::sm_asked::{CommandStop, Status};
use sm_schema_command::schema::schema;
use sm_shapes::Patterns;
use sm_transform_command::transform::transform;
use sm_tree::Text;
use std::alloc::Global;

// What a command comes to: what it prints, or why it ends before.
fn come_to<F: Files, S: Source, P: Patterns>(
    alloc: Global,
    form: WholeForm<'_>,
    files: &mut F,
    input: &mut S,
    patterns: &mut P,
) -> Result<Vec<u8>, CommandStop>
    requires formed { (words : List (List ℕ)) × IsCommandForm words (whole_command form) }
    requires reads { (name : List ℕ) → Contains (asked_of (whole_command form)).reads name → F.lets_read files.old name }
    ensures comes { let before = inputs_seen (files_seen (F.held files.old) (F.read_faults files.old) (F.write_faults files.old))
        (stream (S.left input.old) (S.faults input.old))
        P.test (seen_store (P.added patterns.old) (P.refused patterns.old) (P.refusals patterns.old)) in
        let after = inputs_seen (files_seen (F.held files.new) (F.read_faults files.new) (F.write_faults files.new))
        (stream (S.left input.new) (S.faults input.new))
        P.test (seen_store (P.added patterns.new) (P.refused patterns.new) (P.refusals patterns.new)) in
        CommandComesTo before after (asked_of (whole_command form.entry)) result }
    ensures held { F.held files.new ≡ F.held files.old }
    ensures read_faults { F.read_faults files.old ≤ F.read_faults files.new }
    ensures write_faults { F.write_faults files.new ≡ F.write_faults files.old }
    ensures same_reads { LetsSame (F.lets_read files.old) (F.lets_read files.new) }
    ensures same_writes { LetsSame (F.lets_write files.old) (F.lets_write files.new) }
    ensures prefix { LosesPrefix (S.left input.old) (S.left input.new) }
    ensures input_faults { S.faults input.old ≤ S.faults input.new }
    ensures added { OnlyAdds (P.added patterns.old) (P.added patterns.new) }
{
    match form {
        WholeForm::Check(words) => check(alloc, words, files),
        WholeForm::Body(words) => body(alloc, words, files, input, patterns),
        WholeForm::Convert(words) => convert(alloc, words, files),
        WholeForm::Select(words) => select(alloc, words, files),
        WholeForm::Schema(words) => schema(alloc, words, files, patterns),
        WholeForm::Transform(words) => transform(alloc, words, files),
    }
}

// Carries out a command, and prints what it came to, but for one that puts its answer as it comes.
fn carry_out<F: Files, S: Source, K: Sink, P: Patterns>(
    alloc: Global,
    form: CommandForm<'_>,
    files: &mut F,
    input: &mut S,
    out: &mut K,
    patterns: &mut P,
) -> Status
    requires formed { (words : List (List ℕ)) × IsCommandForm words (command_of form) }
    requires reads { (name : List ℕ) → Contains (asked_of (command_of form)).reads name → F.lets_read files.old name }
    requires writes { (name : List ℕ) → Contains (asked_of (command_of form)).writes name → F.lets_write files.old name }
    ensures ends { let before = inputs_seen (files_seen (F.held files.old) (F.read_faults files.old) (F.write_faults files.old))
        (stream (S.left input.old) (S.faults input.old))
        P.test (seen_store (P.added patterns.old) (P.refused patterns.old) (P.refusals patterns.old)) in
        let after = inputs_seen (files_seen (F.held files.new) (F.read_faults files.new) (F.write_faults files.new))
        (stream (S.left input.new) (S.faults input.new))
        P.test (seen_store (P.added patterns.new) (P.refused patterns.new) (P.refusals patterns.new)) in
        AskedEnds (outside before (stream (K.written out.old) (K.faults out.old)))
        (outside after (stream (K.written out.new) (K.faults out.new))) (asked_of (command_of form.entry)) result }
    ensures files { KeepsUnnamed (asked_of (command_of form.entry)) (F.held files.old) (F.held files.new) }
    ensures held { NamingNone (asked_of (command_of form.entry)) (F.held files.new ≡ F.held files.old) }
    ensures write_faults { NamingNone (asked_of (command_of form.entry)) (F.write_faults files.new ≡ F.write_faults files.old) }
    ensures read_faults { F.read_faults files.old ≤ F.read_faults files.new }
    ensures write_later { F.write_faults files.old ≤ F.write_faults files.new }
    ensures same_reads { LetsSame (F.lets_read files.old) (F.lets_read files.new) }
    ensures same_writes { LetsSame (F.lets_write files.old) (F.lets_write files.new) }
    ensures prefix { LosesPrefix (S.left input.old) (S.left input.new) }
    ensures input_faults { S.faults input.old ≤ S.faults input.new }
    ensures output_faults { K.faults out.old ≤ K.faults out.new }
    ensures added { OnlyAdds (P.added patterns.old) (P.added patterns.new) }
{
    match form {
        CommandForm::Whole(form) => {
            let came = come_to(alloc, form, files, input, patterns);
            print(out, came)
        }
        CommandForm::Cross(words) => cross(alloc, words, files, input, out, patterns),
    }
}

/// Does what the words ask for, and answers the status of the process. `body MODELFILE SHAPE NEAR FAR` prints the far body of the value
/// that the input spells (0), or the line of the first thing that is refused: the model file (7 or 1, as for `convert`), the shape (1), a
/// pattern that it reaches (6), a shape whose values can't be carried (1); the input's length (7), its syntax, its faults, a leaf that
/// the far side doesn't carry (1). NEAR and FAR are `json` or `cbor`.
/// The input is touched only where nothing that stands before it is refused. `convert MODEL+ FORM` prints the graph that model files merge
/// to, as its one text of the JSON AST where FORM is `ast`, and as that of a namespace in the IDL where it is `idl:NAMESPACE` (0); or the
/// lines of the first that is refused: the number of its files, their lengths (7), their texts and models, file by file (1), the size of
/// the graph (7), the events that reject the model (1); it doesn't touch the input. `select MODEL+ SELECTOR` prints the ids that the
/// selector picks in their graph, one a line (0); what `convert` refuses is refused here too, and then a text that is no selector (1).
/// `check MODEL+` prints all events of their model, one a line (0, or 1 where one of them rejects it); else what `convert` refuses.
/// `schema MODELFILE SHAPE NAMES` prints the JSON Schema of a shape (0), by the names of members or by their JSON names, and where
/// `described` stands behind these words, with what the model says to people in it; what `body` refuses before its input is refused here
/// too. `cross MODEL+ SERVICE FRONT BACK HOST BACKFILE OUTFILE` runs a session of a gateway over the input, whose answers are put, and over
/// the answers of the back in BACKFILE; the requests to the back are written to OUTFILE. Its status is that of the session's end: closed
/// (0), ended or broken off by the front or the back (1), past the most turns (7); before it the models, the service (1), a pattern that it
/// reaches (6) and the length of BACKFILE (7) are refused. `transform MODEL+ VERB ARG` prints the graph of model files after a change as
/// its one text of the JSON AST (0): VERB and ARG are `include` or `exclude` with a selector, or `rename` with `A=B`; what `convert` refuses
/// is refused here too, and then a text that is no selector, a namespace that gets no other name, and a changed graph that a rule rejects (1).
///
/// 2: the words have no form, and nothing is touched. 3: a read of a file or of the input failed, and nothing is put, but by `cross` the
/// answers to what was read. 4: the output failed, and holds a prefix of what was to be put, or OUTFILE couldn't be written. 5: memory ran
/// out, and nothing is put, but by `cross` a prefix.
/// 3 and 4 come only where that object's count of faults rose, and 6 only where the store's count of refusals did. To the store patterns
/// are only added.
pub fn run<F: Files, S: Source, K: Sink, P: Patterns>(
    alloc: Global,
    words: &[Text],
    files: &mut F,
    input: &mut S,
    out: &mut K,
    patterns: &mut P,
) -> u8
    requires reads { LetsRead (F.lets_read files.old) words.now }
    requires writes { LetsWrite (F.lets_write files.old) words.now }
    ensures answers { let before = inputs_seen (files_seen (F.held files.old) (F.read_faults files.old) (F.write_faults files.old))
        (stream (S.left input.old) (S.faults input.old))
        P.test (seen_store (P.added patterns.old) (P.refused patterns.old) (P.refusals patterns.old)) in
        let after = inputs_seen (files_seen (F.held files.new) (F.read_faults files.new) (F.write_faults files.new))
        (stream (S.left input.new) (S.faults input.new))
        P.test (seen_store (P.added patterns.new) (P.refused patterns.new) (P.refusals patterns.new)) in
        RunAnswers words.now (outside before (stream (K.written out.old) (K.faults out.old)))
        (outside after (stream (K.written out.new) (K.faults out.new))) result }
    ensures files { KeepsFiles words.now (F.held files.old) (F.held files.new) }
    ensures held { WritingNone words.now (F.held files.new ≡ F.held files.old) }
    ensures write_faults { WritingNone words.now (F.write_faults files.new ≡ F.write_faults files.old) }
    ensures read_faults { F.read_faults files.old ≤ F.read_faults files.new }
    ensures write_later { F.write_faults files.old ≤ F.write_faults files.new }
    ensures same_reads { LetsSame (F.lets_read files.old) (F.lets_read files.new) }
    ensures same_writes { LetsSame (F.lets_write files.old) (F.lets_write files.new) }
    ensures prefix { LosesPrefix (S.left input.old) (S.left input.new) }
    ensures input_faults { S.faults input.old ≤ S.faults input.new }
    ensures output_faults { K.faults out.old ≤ K.faults out.new }
    ensures added { OnlyAdds (P.added patterns.old) (P.added patterns.new) }
{
    match form_of(words) {
        Some(form) => carry_out(alloc, form, files, input, out, patterns).code(),
        None => Status::Usage.code(),
    }
}
