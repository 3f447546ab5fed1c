// The lines of refusals that the program prints and a gateway answers.
ghost use Rattle.std.specs.Prelude.{◌≡◌, IfOk, string_bytes};
ghost use Rattle.sm_lines.specs.Lines.{line as the_line, fault_line as the_fault_line, unserved_line as the_unserved_line};
ghost use Rattle.sm_lines.specs.Lines.{syntax_line as the_syntax_line, syntax_text as the_syntax_text};

use sm_shapes::Fault;
use sm_tree::{NoMemory, SyntaxRefusal};
use std::alloc::Global;

/// A word, a blank and a text, with a line feed.
pub fn line(alloc: Global, word: &str, text: &str) -> Result<Vec<u8>, NoMemory>
    ensures { IfOk result (λ line. line.items ≡ the_line word.now text.now) }
{
    let mut line = Vec::with_capacity(
        alloc,
        word.len().saturating_add(text.len()).saturating_add(2),
    )?;
    line.extend_from_slice(word.as_bytes())?;
    line.push(b' ')?;
    line.extend_from_slice(text.as_bytes())?;
    line.push(b'\n')?;
    Ok(line)
}

/// The line of a fault: its path as a JSON Pointer (RFC 6901), and its kind.
pub fn fault_line(alloc: Global, fault: &Fault) -> Result<Vec<u8>, NoMemory>
    ensures { IfOk result (λ line. line.items ≡ the_fault_line fault.now.path fault.now.kind) }
{
    let mut text = fault.path.print(alloc)?;
    text.push_str(" ")?;
    text.push_str(fault.kind.word())?;
    line(alloc, "Fault", text.as_str())
}

/// The line of a shape whose values can't be carried: the member path to one that can't.
pub fn unserved_line(alloc: Global, path: &str) -> Result<Vec<u8>, NoMemory>
    ensures { IfOk result (λ line. line.items ≡ the_unserved_line path.now) }
{
    line(alloc, "Unserved", path)
}

/// The line of a body that is no text.
pub fn syntax_line(alloc: Global, refusal: SyntaxRefusal) -> Result<Vec<u8>, NoMemory>
    ensures { IfOk result (λ line. line.items ≡ the_syntax_line refusal) }
{
    let text = syntax_text(alloc, refusal)?;
    line(alloc, "Syntax", text.as_str())
}

/// The word of a refusal, and its place.
pub fn syntax_text(alloc: Global, refusal: SyntaxRefusal) -> Result<String, NoMemory>
    ensures { IfOk result (λ text. string_bytes text ≡ the_syntax_text refusal) }
{
    match refusal {
        SyntaxRefusal::Bad(at) => Ok(format!(in alloc; "Bad {at}")?),
        SyntaxRefusal::Ended => Ok(String::from_str(alloc, "Ended")?),
        SyntaxRefusal::TooDeep(at) => Ok(format!(in alloc; "TooDeep {at}")?),
        SyntaxRefusal::KeyKind(at) => Ok(format!(in alloc; "KeyKind {at}")?),
        SyntaxRefusal::NoMemory => Ok(String::from_str(alloc, "NoMemory")?),
    }
}
