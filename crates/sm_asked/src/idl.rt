// The line of a model file that says no statements.
ghost use Rattle.std.specs.Prelude.{◌≡◌, IfOk, string_bytes};
ghost use Rattle.sm_asked.specs.IdlLines.{idl_line as the_idl_line, idl_text as the_idl_text, lex_text as the_lex_text};
ghost use Rattle.sm_asked.specs.IdlLines.{text_line as the_text_line, utf8_line as the_utf8_line};

use crate::lines::{ast_line, json_line};
use sm_idl::IdlRefusal;
use sm_lex::LexRefusal;
use sm_lines::line;
use sm_load::TextPlace;
use sm_tree::NoMemory;
use std::alloc::Global;

// The word of a text without tokens, and its place.
fn lex_text(alloc: Global, refusal: LexRefusal) -> Result<String, NoMemory>
    ensures { IfOk result (λ text. string_bytes text ≡ the_lex_text refusal) }
{
    match refusal {
        LexRefusal::Bad(at) => Ok(format!(in alloc; "Bad {at}")?),
        LexRefusal::UnclosedString(at) => Ok(format!(in alloc; "UnclosedString {at}")?),
        LexRefusal::UnclosedBlock(at) => Ok(format!(in alloc; "UnclosedBlock {at}")?),
        LexRefusal::BadEscape(at) => Ok(format!(in alloc; "BadEscape {at}")?),
        LexRefusal::NoMemory => Ok(String::from_str(alloc, "NoMemory")?),
    }
}

// Why a text is no model.
fn idl_text(alloc: Global, refusal: IdlRefusal) -> Result<String, NoMemory>
    ensures { IfOk result (λ text. string_bytes text ≡ the_idl_text refusal) }
{
    match refusal {
        IdlRefusal::Lex(reason) => {
            let mut text = String::from_str(alloc, "Lex ")?;
            text.push_str(lex_text(alloc, reason)?.as_str())?;
            Ok(text)
        }
        IdlRefusal::Syntax(at) => Ok(format!(in alloc; "Syntax {at}")?),
        IdlRefusal::Version => Ok(String::from_str(alloc, "Version")?),
        IdlRefusal::NoMemory => Ok(String::from_str(alloc, "NoMemory")?),
    }
}

// The line of a model file whose text is no model.
fn idl_line(alloc: Global, file: &str, refusal: IdlRefusal) -> Result<Vec<u8>, NoMemory>
    ensures { IfOk result (λ line. line.items ≡ the_idl_line file.now refusal) }
{
    let mut text = String::from_str(alloc, "Idl ")?;
    text.push_str(idl_text(alloc, refusal)?.as_str())?;
    line(alloc, file, text.as_str())
}

// The line of a model file that isn't UTF-8.
fn utf8_line(alloc: Global, file: &str, at: u64) -> Result<Vec<u8>, NoMemory>
    ensures { IfOk result (λ line. line.items ≡ the_utf8_line file.now at) }
{
    let text = format!(in alloc; "Utf8 {at}")?;
    line(alloc, file, text.as_str())
}

/// The line of a model file that says no statements, and why.
pub(crate) fn text_line(alloc: Global, file: &str, place: &TextPlace) -> Result<Vec<u8>, NoMemory>
    ensures { IfOk result (λ line. line.items ≡ the_text_line file.now place.now) }
{
    match place {
        TextPlace::Utf8(at) => utf8_line(alloc, file, *at),
        TextPlace::Json(refusal) => json_line(alloc, file, *refusal),
        TextPlace::Ast(refusal) => ast_line(alloc, file, refusal),
        TextPlace::Idl(refusal) => idl_line(alloc, file, *refusal),
    }
}
