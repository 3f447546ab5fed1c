// One text read, one tree written, and one text cut into tokens, many times over. Each turn does the whole work anew, in
// memory of its own.
ghost use Rattle.std.specs.Prelude.{◌≡◌, IfOk, IsTrue};
ghost use Rattle.sm_tree.specs.Json.{IsJson};
ghost use Rattle.sm_tree.specs.Syntax.{Reads};
ghost use Rattle.sm_tree.specs.View.{node_of};
ghost use Rattle.speeds.specs.FormatTurns.{syntax_of, CanWrite, text_of, Counts};

use crate::formats::command::MeasuredFormat;
use sm_lex::{LexRefusal, tokens};
use sm_tree::{NoMemory, SyntaxRefusal, Tree};
use std::alloc::Global;

fn read_once(alloc: Global, format: MeasuredFormat, bytes: &[u8]) -> Result<Tree, SyntaxRefusal>
    ensures reads { Reads (syntax_of format) bytes.now result }
    ensures json { IfOk result (λ tree. format ≡ MeasuredFormat.Json → IsJson (node_of tree)) }
{
    match format {
        MeasuredFormat::Json => sm_json::read_tree(alloc, bytes),
        MeasuredFormat::Cbor => sm_cbor::read_tree(alloc, bytes),
    }
}

/// The tree of a text that is read so many times, and at least once.
///
/// # Errors
///
/// Those of `read_tree`.
pub fn read_times(
    alloc: Global,
    format: MeasuredFormat,
    bytes: &[u8],
    turns: u32,
) -> Result<Tree, SyntaxRefusal>
    ensures reads { Reads (syntax_of format) bytes.now result }
    ensures json { IfOk result (λ tree. format ≡ MeasuredFormat.Json → IsJson (node_of tree)) }
{
    for _ in 1..turns {
        match read_once(alloc, format, bytes) {
            Ok(_) => {}
            Err(refusal) => return Err(refusal),
        }
    }
    read_once(alloc, format, bytes)
}

/// Whether a tree that was read can be written in its format.
pub fn can_write(format: MeasuredFormat, tree: &Tree) -> bool
    requires { format ≡ MeasuredFormat.Json → IsJson (node_of tree.now) }
    ensures { IsTrue result → CanWrite format (node_of tree.now) }
{
    match format {
        MeasuredFormat::Json => true,
        MeasuredFormat::Cbor => sm_cbor::is_writable(tree),
    }
}

fn write_once(alloc: Global, format: MeasuredFormat, tree: &Tree) -> Result<Vec<u8>, NoMemory>
    requires { CanWrite format (node_of tree.now) }
    ensures { IfOk result (λ out. out.items ≡ text_of format 1 (node_of tree.now)) }
{
    let mut out = Vec::new(alloc);
    match format {
        MeasuredFormat::Json => sm_json::write_tree(alloc, tree, &mut out)?,
        MeasuredFormat::Cbor => sm_cbor::write_tree(alloc, tree, &mut out)?,
    }
    Ok(out)
}

/// The text of a tree that is written so many times: none where it is written no time.
///
/// # Errors
///
/// `NoMemory`.
pub fn write_times(
    alloc: Global,
    format: MeasuredFormat,
    tree: &Tree,
    turns: u32,
) -> Result<Vec<u8>, NoMemory>
    requires { CanWrite format (node_of tree.now) }
    ensures { IfOk result (λ out. out.items ≡ text_of format turns (node_of tree.now)) }
{
    if turns == 0 {
        return Ok(Vec::new(alloc));
    }
    for _ in 1..turns {
        write_once(alloc, format, tree)?;
    }
    write_once(alloc, format, tree)
}

/// How many tokens a text has that is cut so many times, and at least once.
///
/// # Errors
///
/// Those of `tokens`.
pub fn token_count(alloc: Global, text: &str, turns: u32) -> Result<usize, LexRefusal>
    ensures { Counts text.now result }
{
    for _ in 1..turns {
        match tokens(alloc, text) {
            Ok(_) => {}
            Err(refusal) => return Err(refusal),
        }
    }
    match tokens(alloc, text) {
        Ok(found) => Ok(found.len()),
        Err(refusal) => Err(refusal),
    }
}
