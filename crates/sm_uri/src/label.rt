// The name of a label, and how the label ends.
ghost use Rattle.sm_uri.specs.steps.UriReading.{TakesLabelEnd, TakesName};

use crate::bytes::{Cut, LowLines, NameBytes, cut_run, may_end, strip};
use sm_ids::is_identifier;

/// How a label ends.
#[derive(Clone, Copy)]
pub(crate) struct LabelEnd<'a> {
    /// Whether it is greedy.
    pub greedy: bool,
    /// What is behind it.
    pub behind: &'a str,
}

/// The name that stands first, or what is left where none can.
pub(crate) fn name_at(text: &str) -> Result<Cut<'_>, &str>
    ensures { TakesName text.now result }
{
    let cut = cut_run::<NameBytes>(text);
    if is_identifier(cut.taken) {
        Ok(cut)
    } else {
        Err(cut_run::<LowLines>(text).behind)
    }
}

/// The end of a label, behind its name, or what is left where it doesn't end.
pub(crate) fn label_end(text: &str) -> Result<LabelEnd<'_>, &str>
    ensures { TakesLabelEnd text.now result }
{
    let (greedy, closing) = match strip(text, '+') {
        Some(more) => (true, more),
        None => (false, text),
    };
    match strip(closing, '}') {
        Some(behind) => {
            if may_end(behind) {
                Ok(LabelEnd { greedy, behind })
            } else {
                Err(behind)
            }
        }
        None => Err(closing),
    }
}
