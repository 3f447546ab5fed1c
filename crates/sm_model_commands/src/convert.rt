// The command `convert`: the graph of model files, written as one text of the JSON AST, or a namespace of it in the IDL.
ghost use Rattle.std.specs.Prelude.{◌≡◌, ◌≤◌, List, ℕ, Contains, IfOk};
ghost use Rattle.sm_io.specs.Files.{LetsSame};
ghost use Rattle.sm_io.specs.Seen.{files_seen};
ghost use Rattle.sm_tree.specs.Json.{IsJson};
ghost use Rattle.sm_model.specs.GraphView.{maps_of};
ghost use Rattle.sm_ast.specs.Written.{written_ast};
ghost use Rattle.sm_model_commands.specs.Forms.{as_ast};
ghost use Rattle.sm_model_commands.specs.Convert.{converted, Converts};
ghost use Rattle.sm_model_commands.specs.Forms.{graph_form};

use crate::words::{ConvertForm, ConvertWords};
use sm_asked::{CommandStop, Shown, load_models};
use sm_ast::write_ast;
use sm_idl::write_idl;
use sm_io::Files;
use sm_json::write_tree;
use sm_model::Graph;
use sm_tree::NoMemory;
use std::alloc::Global;

// The text that is printed for a graph in this form.
fn graph_text(alloc: Global, graph: Graph, form: ConvertForm<'_>) -> Result<Vec<u8>, NoMemory>
    requires { IsJson (written_ast (maps_of graph)) }
    ensures { IfOk result (λ text. text.items ≡ converted (graph_form form.entry) (maps_of graph)) }
{
    match form {
        ConvertForm::Ast => ast_text(alloc, graph),
        ConvertForm::Idl(namespace) => write_idl(alloc, &graph, namespace),
    }
}

/// The text of a graph in the JSON AST, with a line feed. The graph is dropped before there is any of it.
pub fn ast_text(alloc: Global, graph: Graph) -> Result<Vec<u8>, NoMemory>
    requires { IsJson (written_ast (maps_of graph)) }
    ensures { IfOk result (λ text. text.items ≡ converted as_ast (maps_of graph)) }
{
    let tree = write_ast(alloc, &graph)?;
    drop(graph);
    let mut text = Vec::new(alloc);
    match write_tree(alloc, &tree, &mut text) {
        Ok(()) => {
            text.push(b'\n')?;
            Ok(text)
        }
        Err(NoMemory) => Err(NoMemory),
    }
}

/// The graph of these model files as a text of the JSON AST, with a line feed, or a namespace of it as a text of the IDL.
///
/// # Errors
///
/// Those of `load_models`, and memory may run out.
pub fn convert<F: Files>(
    alloc: Global,
    words: ConvertWords<'_>,
    files: &mut F,
) -> Result<Vec<u8>, CommandStop>
    requires { (name : List ℕ) → Contains words.models.now name → F.lets_read files.old name }
    ensures comes { Converts
        (files_seen (F.held files.old) (F.read_faults files.old) (F.write_faults files.old))
        (files_seen (F.held files.new) (F.read_faults files.new) (F.write_faults files.new))
        words.entry.models.now (graph_form words.entry.form) result }
    ensures held { F.held files.new ≡ F.held files.old }
    ensures read_faults { F.read_faults files.old ≤ F.read_faults files.new }
    ensures write_faults { F.write_faults files.new ≡ F.write_faults files.old }
    ensures same_reads { LetsSame (F.lets_read files.old) (F.lets_read files.new) }
    ensures same_writes { LetsSame (F.lets_write files.old) (F.lets_write files.new) }
{
    match load_models(alloc, Shown::Errors, files, words.models) {
        Ok(model) => match graph_text(alloc, model.graph, words.form) {
            Ok(text) => Ok(text),
            Err(NoMemory) => Err(CommandStop::NoMemory),
        },
        Err(stop) => Err(stop),
    }
}
