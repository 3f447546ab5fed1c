// The text of documentation comments (Smithy 2.0, "Smithy IDL", "Documentation comment").
ghost use Rattle.std.specs.Prelude.{◌≡◌, IfOk, [], ◌∷◌, string_bytes};
ghost use Rattle.std.specs.Option.{option_map, option_copied, option_to_list};
ghost use Rattle.sm_lex.specs.Space.{docs_joined, without_space};
ghost use Rattle.sm_lex.specs.steps.LexSteps.{doc_of};
ghost use Rattle.sm_lex.specs.Answers.{HasDocs};

use crate::space::space_part;
use sm_tree::NoMemory;
use std::alloc::Global;

/// The documentation so far, with one more line.
fn with_line(alloc: Global, docs: Option<String>, line: &str) -> Result<Option<String>, NoMemory>
    ensures { IfOk result (λ all. option_map string_bytes all ≡ docs_joined (option_map string_bytes docs) (line.now ∷ [])) }
{
    match docs {
        None => {
            let text = String::from_str(alloc, line)?;
            Ok(Some(text))
        }
        Some(text) => {
            let mut text = text;
            text.push_str("\n")?;
            text.push_str(line)?;
            Ok(Some(text))
        }
    }
}

/// The text without one leading space.
fn without_space(text: &str) -> &str
    ensures { result.now ≡ without_space text.now }
{
    match text.as_bytes() {
        [b' ', ..] => text.split_at(1).1,
        _ => text,
    }
}

/// The text of a piece of whitespace that is a documentation comment.
fn doc_line(piece: &str) -> Option<&str>
    ensures { option_copied result ≡ doc_of piece.now }
{
    match piece.as_bytes() {
        [b'/', b'/', b'/', ..] => Some(without_space(piece.split_at(3).1)),
        _ => None,
    }
}

/// The documentation so far, with the text of one more piece of whitespace.
fn with_piece(alloc: Global, docs: Option<String>, piece: &str) -> Result<Option<String>, NoMemory>
    ensures { IfOk result (λ all. option_map string_bytes all ≡ docs_joined (option_map string_bytes docs)
        (option_to_list (doc_of piece.now))) }
{
    match doc_line(piece) {
        Some(line) => with_line(alloc, docs, line),
        None => Ok(docs),
    }
}

/// What the documentation comments before the first token of a text say: their texts joined with LF, or `None` where there are
/// none. For those before another token, pass the text from the end of the token before it.
///
/// # Errors
///
/// `NoMemory`.
pub fn documentation(alloc: Global, text: &str) -> Result<Option<String>, NoMemory>
    ensures { HasDocs text.now result }
{
    let mut docs = None;
    let mut rest = text;
    while let Some(part) = space_part(rest.as_bytes()) {
        let (piece, behind) = rest.split_at(part.len());
        match with_piece(alloc, docs, piece) {
            Ok(all) => docs = all,
            Err(refusal) => return Err(refusal),
        }
        rest = behind;
    }
    Ok(docs)
}
