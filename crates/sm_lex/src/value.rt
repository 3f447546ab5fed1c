// What tokens mean: the text of a string and of a text block, and the tree of a number (Smithy 2.0, "Smithy
// IDL", "Node values").
ghost use Rattle.std.specs.Prelude.{◌≡◌, Ok, IfOk, IsOk, drop, map, string_bytes};
ghost use Rattle.sm_tree.specs.Numbers.{NumberText};
ghost use Rattle.sm_tree.specs.View.{node_of};
ghost use Rattle.sm_lex.specs.Lines.{line_end_len, lines_text};
ghost use Rattle.sm_lex.specs.Values.{string_inside, block_inside, opener_len, string_value, block_value};
ghost use Rattle.sm_lex.specs.Shapes.{IsQuoted};
ghost use Rattle.sm_lex.specs.declared.token.TokenKind.TheVariants.{Number as a_number, Text as a_string, Block as a_block};
ghost use Rattle.sm_lex.specs.steps.LexSteps.{line_of, lines_left, line_kept, IsFine, PutsLine};

use crate::judge::{indent_of, kept_line};
use crate::lines::{Line, Lines};
use crate::part::{Part, first_part};
use crate::runs::line_end_len;
use crate::token::Token;
use sm_tree::number::number_tree;
use sm_tree::{NoMemory, Tree};
use std::alloc::Global;

/// Appends the text of a line, and a line feed where another line follows.
fn put_line(line: Line, last: bool, out: &mut String) -> Result<(), NoMemory>
    requires { IsFine last (line_of line) }
    ensures { IfOk result (λ done. PutsLine last (line_of line.entry) (string_bytes out.old) (string_bytes out.new)) }
{
    let mut rest = line.text;
    while !rest.is_empty() {
        match first_part(rest.as_bytes(), last) {
            Part::Plain(len) => {
                let (plain, behind) = rest.split_at(len);
                out.push_str(plain)?;
                rest = behind;
            }
            Part::Escaped(escape) => {
                out.push(escape.character)?;
                rest = rest.split_at(1 + escape.count).1;
            }
            Part::Joins => return Ok(()),
            Part::Bad => unreachable!(),
        }
    }
    if last {
        return Ok(());
    }
    out.push('\n')?;
    Ok(())
}

/// The text of lines, from each of which the indent goes.
fn lines_value(alloc: Global, lines: Lines, indent: Option<usize>) -> Result<String, NoMemory>
    requires { IsOk (lines_text (map (line_kept indent) (lines_left lines))) }
    ensures { IfOk result (λ text. lines_text (map (line_kept indent) (lines_left lines.entry)) ≡ Ok (string_bytes text)) }
{
    let mut text = String::new(alloc);
    let mut lines = lines;
    while let Some(line) = lines.next() {
        match put_line(kept_line(line, indent), lines.is_done(), &mut text) {
            Ok(()) => {}
            Err(refusal) => return Err(refusal),
        }
    }
    Ok(text)
}

/// What stands between the quotation marks of a string.
fn string_inside(text: &str) -> &str
    requires { IsQuoted 1 1 text.now }
    ensures { result.now ≡ string_inside text.now }
{
    let (_, behind) = text.split_at(1);
    behind.split_at(behind.len() - 1).0
}

/// What stands between the first line end of a text block, which has this length, and its last quotation marks.
fn block_inside(text: &str, line_end: usize) -> &str
    requires quoted { IsQuoted (opener_len text.now) 3 text.now }
    requires line_end { line_end ≡ line_end_len (drop 3 text.now) }
    ensures { result.now ≡ block_inside text.now }
{
    let (_, behind) = text.split_at(3);
    let (_, behind) = behind.split_at(line_end);
    behind.split_at(behind.len() - 3).0
}

/// The characters of a string: escapes stand for what they mean, and every line end for LF.
///
/// # Errors
///
/// `NoMemory` alone.
pub fn string_value(alloc: Global, token: &Token<'_>) -> Result<String, NoMemory>
    requires { token.now.kind ≡ a_string }
    ensures { IfOk result (λ text. string_value token.now.start token.now.text.now ≡ Ok (string_bytes text)) }
{
    let inside = string_inside(token.text);
    lines_value(alloc, Lines::new(inside, token.start as usize + 1), None)
}

/// The characters of a text block: its indent goes, then the spaces and tabs at the ends of its lines, and
/// then escapes stand for what they mean.
///
/// # Errors
///
/// `NoMemory` alone.
pub fn block_value(alloc: Global, token: &Token<'_>) -> Result<String, NoMemory>
    requires { token.now.kind ≡ a_block }
    ensures { IfOk result (λ text. block_value token.now.start token.now.text.now ≡ Ok (string_bytes text)) }
{
    let line_end = line_end_len(&token.text.as_bytes()[3..]);
    let inside = block_inside(token.text, line_end);
    let lines = Lines::new(inside, token.start as usize + (3 + line_end));
    lines_value(alloc, lines, Some(indent_of(lines)))
}

/// The tree of a number, as JSON has it: an integer that 64 bits hold, else its text.
///
/// # Errors
///
/// `NoMemory` alone.
pub fn number_value(alloc: Global, token: &Token<'_>) -> Result<Tree, NoMemory>
    requires { token.now.kind ≡ a_number }
    ensures { IfOk result (λ tree. NumberText (node_of tree) token.now.text.now) }
{
    number_tree(alloc, token.text.as_bytes())
}
