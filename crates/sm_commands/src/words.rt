// The command that words ask for.
ghost use Rattle.std.specs.Prelude.{MatchOption};
ghost use Rattle.sm_commands.specs.Commands.{IsCommandForm, IsNoForm};
ghost use Rattle.sm_commands.specs.steps.FormSteps.{command_of};

use sm_body_command::{BodyWords, body_words};
use sm_cross_command::{CrossWords, cross_words};
use sm_model_commands::{
    CheckWords, ConvertWords, SelectWords, check_words, convert_words, select_words,
};
use sm_schema_command::{SchemaWords, schema_words};
use sm_transform_command::{TransformWords, transform_words};
use sm_tree::Text;

/// The forms of commands that put their answer as one piece and write no file.
#[derive(Debug, Clone, Copy)]
pub enum WholeForm<'a> {
    /// `check MODEL+`.
    Check(CheckWords<'a>),
    /// `body MODELFILE SHAPE NEAR FAR`.
    Body(BodyWords<'a>),
    /// `convert MODEL+ FORM`.
    Convert(ConvertWords<'a>),
    /// `select MODEL+ SELECTOR`.
    Select(SelectWords<'a>),
    /// `schema MODELFILE SHAPE NAMES`, behind which `described` may stand.
    Schema(SchemaWords<'a>),
    /// `transform MODEL+ VERB ARG`.
    Transform(TransformWords<'a>),
}

/// The forms that words may have.
#[derive(Debug, Clone, Copy)]
pub enum CommandForm<'a> {
    /// Those of a command that puts its answer as one piece and writes no file.
    Whole(WholeForm<'a>),
    /// `cross MODEL+ SERVICE FRONT BACK HOST BACKFILE OUTFILE`.
    Cross(CrossWords<'a>),
}

/// What the words ask for; `None` where they have none of the forms.
pub(crate) fn form_of(words: &[Text]) -> Option<CommandForm<'_>>
    ensures { MatchOption result (IsNoForm words.now) (λ form. IsCommandForm words.now (command_of form)) }
{
    if let Some(words) = check_words(words) {
        return Some(CommandForm::Whole(WholeForm::Check(words)));
    }
    if let Some(words) = body_words(words) {
        return Some(CommandForm::Whole(WholeForm::Body(words)));
    }
    if let Some(words) = convert_words(words) {
        return Some(CommandForm::Whole(WholeForm::Convert(words)));
    }
    if let Some(words) = select_words(words) {
        return Some(CommandForm::Whole(WholeForm::Select(words)));
    }
    if let Some(words) = schema_words(words) {
        return Some(CommandForm::Whole(WholeForm::Schema(words)));
    }
    if let Some(words) = cross_words(words) {
        return Some(CommandForm::Cross(words));
    }
    if let Some(words) = transform_words(words) {
        return Some(CommandForm::Whole(WholeForm::Transform(words)));
    }
    None
}
