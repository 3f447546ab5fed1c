// The statements of one model file, or why it says none.
ghost use Rattle.std.specs.Prelude.{◌↔◌, List, ℕ, IsTrue, IfOk};
ghost use Rattle.sm_tree.specs.Json.{IsJson};
ghost use Rattle.sm_tree.specs.View.{node_of};
ghost use Rattle.sm_load.specs.ModelFiles.{EndsInJson, file_given, file_view};
ghost use Rattle.sm_load.specs.steps.Stages.{ReadsFile, ReadsTree};

use crate::model::{LoadRefusal, ModelFile, TextPlace};
use sm_ast::{AstRefusal, read_ast};
use sm_idl::{IdlRefusal, read_idl};
use sm_json::read_tree;
use sm_model::Statement;
use sm_tree::{SyntaxRefusal, Tree};
use std::alloc::Global;

// Whether the name is that of a file in the JSON AST.
fn ends_in_json(name: &str) -> bool
    ensures { IsTrue result ↔ EndsInJson name.now }
{
    name.as_bytes().ends_with(b".json")
}

// The tree of a file in the JSON AST.
fn tree_in(alloc: Global, number: u64, bytes: &[u8]) -> Result<Tree, LoadRefusal>
    ensures reads { (name : List ℕ) → EndsInJson name → ReadsTree (file_given name bytes.now) number result }
    ensures json { IfOk result (λ tree. IsJson (node_of tree)) }
{
    match read_tree(alloc, bytes) {
        Ok(tree) => Ok(tree),
        Err(refusal) => match refusal {
            SyntaxRefusal::NoMemory => Err(LoadRefusal::NoMemory),
            _ => Err(LoadRefusal::Text(number, TextPlace::Json(refusal))),
        },
    }
}

// The statements of a file in the JSON AST, whose text is dropped before there is any, and its tree behind them.
fn tree_statements(
    alloc: Global,
    number: u64,
    bytes: Vec<u8>,
) -> Result<Vec<Statement>, LoadRefusal>
    ensures { (name : List ℕ) → EndsInJson name → ReadsFile (file_given name bytes.items) number result }
{
    let tree = match tree_in(alloc, number, &bytes) {
        Ok(tree) => tree,
        Err(refusal) => return Err(refusal),
    };
    drop(bytes);
    match read_ast(alloc, &tree) {
        Ok(statements) => Ok(statements),
        Err(refusal) => match refusal {
            AstRefusal::NoMemory => Err(LoadRefusal::NoMemory),
            _ => Err(LoadRefusal::Text(number, TextPlace::Ast(refusal))),
        },
    }
}

// The statements of any other file.
fn text_statements(alloc: Global, number: u64, bytes: &[u8]) -> Result<Vec<Statement>, LoadRefusal>
    ensures { (name : List ℕ) → (EndsInJson name → ⊥) → ReadsFile (file_given name bytes.now) number result }
{
    let text = match str::from_utf8(bytes) {
        Ok(text) => text,
        Err(error) => {
            let place = TextPlace::Utf8(error.valid_up_to() as u64);
            return Err(LoadRefusal::Text(number, place));
        }
    };
    match read_idl(alloc, text) {
        Ok(statements) => Ok(statements),
        Err(refusal) => match refusal {
            IdlRefusal::NoMemory => Err(LoadRefusal::NoMemory),
            _ => Err(LoadRefusal::Text(number, TextPlace::Idl(refusal))),
        },
    }
}

/// The statements of a file, which has this number.
///
/// # Errors
///
/// `Text` with the number, where the file says none; or memory runs out.
pub(crate) fn statements_in(
    alloc: Global,
    number: u64,
    file: ModelFile,
) -> Result<Vec<Statement>, LoadRefusal>
    ensures { ReadsFile (file_view file) number result }
{
    let ModelFile { name, bytes } = file;
    if ends_in_json(name.as_str()) {
        return tree_statements(alloc, number, bytes);
    }
    text_statements(alloc, number, &bytes)
}
