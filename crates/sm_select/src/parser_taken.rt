// The ids, numbers and quoted texts of attributes: which stands at the start of a text, and what is left behind it.
ghost use Rattle.std.specs.Prelude.{◌≡◌, ◌<◌, MatchBool, drop, length};
ghost use Rattle.sm_ids.specs.IdText.{IsIdText};
ghost use Rattle.sm_select.specs.steps.Reader.{IsRunAt};
ghost use Rattle.sm_select.specs.steps.Taking.{IsIdToken, IsIdentifierToken, IsKeyToken, IsLongerWord, IsNumeralToken, IsQuotedAt};
ghost use Rattle.sm_select.specs.steps.Taking.{IsQuotedToken, IsRunId, IsTaken, IsValueToken};

use crate::parser_number::number_len;
use crate::parser_text::run_at;
use sm_ids::{ShapeIdRef, is_identifier};

/// What is read of a token, and what stands behind it.
#[derive(Debug, Clone, Copy)]
pub struct Taken<'a> {
    /// The text that was read.
    pub text: &'a str,
    /// What stands behind the token.
    pub behind: &'a str,
}

// The text that these marks stand around.
fn quoted_by(rest: &str, mark: char) -> Option<Taken<'_>>
    requires { mark < 128 }
    ensures { IsQuotedAt mark rest.now result }
{
    match rest.strip_prefix(mark) {
        Some(inside) => match inside.split_once(mark) {
            Some((text, behind)) => Some(Taken { text, behind }),
            None => None,
        },
        None => None,
    }
}

/// Quoted text.
pub fn quoted_at(rest: &str) -> Option<Taken<'_>>
    ensures { IsTaken IsQuotedToken rest.now result }
{
    match quoted_by(rest, '"') {
        Some(taken) => Some(taken),
        None => quoted_by(rest, '\''),
    }
}

/// A number, the longest that may end.
pub fn number_at(rest: &str) -> Option<Taken<'_>>
    ensures { IsTaken IsNumeralToken rest.now result }
{
    let len = number_len(rest.as_bytes());
    if len == 0 {
        return None;
    }
    let (text, behind) = rest.split_at(len);
    Some(Taken { text, behind })
}

// The run that stands first, and what stands behind it.
fn behind_run<'a>(rest: &'a str, run: &'a str) -> Taken<'a>
    requires { IsRunAt rest.now run.now }
    ensures text { result.text.now ≡ run.now }
    ensures behind { result.behind.now ≡ drop (length run.now) rest.now }
{
    Taken {
        text: run,
        behind: rest.split_at(run.len()).1,
    }
}

// The run that stands first, a `$` and another run.
fn longer_word<'a>(rest: &'a str, run: &str) -> Option<Taken<'a>>
    requires { IsRunAt rest.now run.now }
    ensures { IsLongerWord rest.now run.now result }
{
    match rest.split_at(run.len()).1.strip_prefix('$') {
        Some(more) => {
            let member = run_at(more);
            if member.is_empty() {
                return None;
            }
            let (text, behind) = rest.split_at(run.len() + 1 + member.len());
            Some(Taken { text, behind })
        }
        None => None,
    }
}

// Whether a text is an absolute id.
fn is_id(text: &str) -> bool
    ensures { MatchBool result (IsIdText text.now) (IsIdText text.now → ⊥) }
{
    match ShapeIdRef::parse(text) {
        Ok(_) => true,
        Err(_) => false,
    }
}

// The run that stands first, where it is an id.
fn run_id<'a>(rest: &'a str, run: &'a str) -> Option<Taken<'a>>
    requires { IsRunAt rest.now run.now }
    ensures { IsRunId rest.now run.now result }
{
    if is_id(run) {
        Some(behind_run(rest, run))
    } else {
        None
    }
}

/// An absolute id, that of a member where one stands.
pub fn id_at(rest: &str) -> Option<Taken<'_>>
    ensures { IsTaken IsIdToken rest.now result }
{
    let run = run_at(rest);
    match longer_word(rest, run) {
        Some(taken) => {
            if is_id(taken.text) {
                Some(taken)
            } else {
                run_id(rest, run)
            }
        }
        None => run_id(rest, run),
    }
}

/// An identifier.
pub fn identifier_at(rest: &str) -> Option<Taken<'_>>
    ensures { IsTaken IsIdentifierToken rest.now result }
{
    let run = run_at(rest);
    if is_identifier(run) {
        Some(behind_run(rest, run))
    } else {
        None
    }
}

/// A value: quoted text, a number, or an id.
pub fn value_at(rest: &str) -> Option<Taken<'_>>
    ensures { IsTaken IsValueToken rest.now result }
{
    match quoted_at(rest) {
        Some(taken) => Some(taken),
        None => match number_at(rest) {
            Some(taken) => Some(taken),
            None => id_at(rest),
        },
    }
}

/// A key: an identifier, or quoted text.
pub fn key_at(rest: &str) -> Option<Taken<'_>>
    ensures { IsTaken IsKeyToken rest.now result }
{
    match identifier_at(rest) {
        Some(taken) => Some(taken),
        None => quoted_at(rest),
    }
}
