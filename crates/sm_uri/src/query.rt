// The literals of a pattern's query.
ghost use Rattle.sm_uri.specs.steps.UriReading.{ReadsQuery, TakesLiteral};

use crate::bytes::{KeyBytes, ValueBytes, cut_run, strip};
use crate::stop::PatternStop;
use sm_tree::Text;
use std::alloc::Global;

/// A literal, and what is behind it.
#[derive(Drop)]
pub(crate) struct LiteralRead<'a> {
    /// Its key, and its value where one is given.
    pub literal: (Text, Option<Text>),
    /// What is behind it.
    pub behind: &'a str,
}

/// Reads the literals behind a `?`.
pub(crate) fn read_query<'a>(
    alloc: Global,
    text: &'a str,
) -> Result<Vec<(Text, Option<Text>)>, PatternStop<'a>>
    ensures { ReadsQuery text.now result }
{
    let mut literals = Vec::new(alloc);
    let mut rest = text;
    'literals: loop {
        let read = match literal_at(alloc, rest) {
            Ok(read) => read,
            Err(stop) => return Err(stop),
        };
        let behind = read.behind;
        literals.push(read.literal)?;
        rest = match strip(behind, '&') {
            Some(rest) => rest,
            None => {
                if behind.is_empty() {
                    return Ok(literals);
                }
                return Err(PatternStop::At(behind));
            }
        };
    }
}

/// Reads the literal that stands first.
fn literal_at<'a>(alloc: Global, text: &'a str) -> Result<LiteralRead<'a>, PatternStop<'a>>
    ensures { TakesLiteral text.now result }
{
    let key = cut_run::<KeyBytes>(text);
    if key.taken.is_empty() {
        return Err(PatternStop::At(text));
    }
    let name = Text::copy(alloc, key.taken)?;
    match strip(key.behind, '=') {
        Some(more) => {
            let value = cut_run::<ValueBytes>(more);
            Ok(LiteralRead {
                literal: (name, Some(Text::copy(alloc, value.taken)?)),
                behind: value.behind,
            })
        }
        None => Ok(LiteralRead {
            literal: (name, None),
            behind: key.behind,
        }),
    }
}
