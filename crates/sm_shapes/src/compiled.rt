// What a pattern's text compiles to, by the parts that the crate `regex` is made of and within its limits. A program borrows nothing,
// and neither does the automaton that searches for it, so both can be kept beside each other.
ghost use Rattle.std.specs.Prelude.{◌≡◌, is_some, IfOk, OnOk, IsErrOf};
ghost use Rattle.regex.specs.Patterns.{find_str};
ghost use Rattle.regex.specs.Utf8.{MatchesText};
ghost use Rattle.regex_meta.specs.Programs.{pattern_of};
ghost use Rattle.sm_shapes.specs.Regexes.{FindsAsWritten, IsRegex, IsRefusedByCrate};

use crate::PatternRefusal;
use regex_meta::{Program, Searcher};
use regex_syntax::{Config, ErrorKind, Parsed};
use sm_tree::NoMemory;
use std::alloc::Global;

/// How large the tables of a program may be, in bytes: the limit of the crate `regex`.
const SIZE_LIMIT: usize = 10 << 20;

/// Compiles a text under the options that `regex` has by default. `Refused`: it is no pattern, or its program would be too big.
pub(crate) fn compiled(alloc: Global, text: &str) -> Result<Program, PatternRefusal>
    ensures finds { IfOk result (λ program. FindsAsWritten (pattern_of program) text.now) }
    ensures whole { IfOk result (λ program. MatchesText (pattern_of program)) }
    ensures read { OnOk result (IsRegex text.now) }
    ensures refused { IsErrOf result PatternRefusal.Refused → IsRefusedByCrate text.now }
{
    let Parsed { hir, names } = match regex_syntax::parse(alloc, text, &Config::default()) {
        Ok(parsed) => parsed,
        Err(error) => {
            return match error.kind {
                ErrorKind::OutOfMemory => Err(PatternRefusal::NoMemory),
                _ => Err(PatternRefusal::Refused),
            };
        }
    };
    let Ok(groups) = u32::try_from(names.len()) else {
        return Err(PatternRefusal::Refused);
    };
    match Program::new(alloc, hir, groups, SIZE_LIMIT) {
        Ok(program) => Ok(program),
        Err(regex_compile::Error::OutOfMemory) => Err(PatternRefusal::NoMemory),
        Err(_) => Err(PatternRefusal::Refused),
    }
}

/// Whether some part of the text matches, by all engines of the crate, which are made for this text alone. A match that begins within a
/// character is none.
pub(crate) fn finds_anew(alloc: Global, program: &Program, text: &str) -> Result<bool, NoMemory>
    ensures { IfOk result (λ found. found ≡ is_some (find_str (pattern_of program.now) text.now 0)) }
{
    let bytes = text.as_bytes();
    let mut searcher = Searcher::new(alloc, program)?;
    let mut at = 0;
    loop {
        let Some((from, _)) = searcher.find(bytes, at) else {
            return Ok(false);
        };
        if text.is_char_boundary(from) {
            return Ok(true);
        }
        at = from + 1;
    }
}
