// What is answered of a service of a model: the model is loaded, and the service compiled over a store of regular expressions, or over one
// that refuses.
ghost use Rattle.std.specs.Prelude.{List, ℕ, IfOk};
ghost use Rattle.sm_ids.specs.IdText.{printed};
ghost use Rattle.sm_ids.specs.View.{id_of};
ghost use Rattle.sm_model.specs.GraphView.{maps_of};
ghost use Rattle.sm_rules.specs.Ready.{Ready};

use crate::compiled::show_compiled;
use crate::refusal::show_refusal;
use crate::row::ServiceQuestion;
use sm_ids::ShapeIdRef;
use sm_load::{LoadRefusal, Model, ModelFile, load};
use sm_model::Graph;
use sm_shapes::{LiteralPatterns, RegexPatterns};
use sm_tree::NoMemory;
use std::alloc::Global;

/// Appends what is answered of the service with this id, in the model of these files, over a store that refuses this call of `add`, or
/// over one of regular expressions.
pub fn show_asked(
    alloc: Global,
    asked: ServiceQuestion,
    files: Vec<ModelFile>,
    refused: Option<u64>,
    id: &str,
    out: &mut String,
) -> Result<(), NoMemory> {
    out.push_str(" => ")?;
    let Ok(id) = ShapeIdRef::parse(id) else {
        return Ok(out.push_str("no id")?);
    };
    match loaded(alloc, files) {
        Ok(model) => show_of_graph(alloc, asked, &model.graph, refused, &id, out),
        Err(refusal) => show_refusal(&refusal, out),
    }
}

// The model of files, of which each service can be compiled.
fn loaded(alloc: Global, files: Vec<ModelFile>) -> Result<Model, LoadRefusal>
    ensures { IfOk result (λ model. (service : List ℕ) → Ready (maps_of model.graph) service) }
{
    sm_load::laws::sound_models();
    match load(alloc, files) {
        Ok(model) => Ok(model),
        Err(refusal) => Err(refusal),
    }
}

fn show_of_graph(
    alloc: Global,
    asked: ServiceQuestion,
    graph: &Graph,
    refused: Option<u64>,
    id: &ShapeIdRef<'_>,
    out: &mut String,
) -> Result<(), NoMemory>
    requires { Ready (maps_of graph.now) (printed (id_of id.now)) }
{
    match refused {
        Some(call) => {
            let failing = vec![in alloc; call]?;
            let mut patterns = LiteralPatterns::new(alloc, failing);
            show_compiled(alloc, asked, graph, id, &mut patterns, out)
        }
        None => {
            let mut patterns = RegexPatterns::new(alloc);
            show_compiled(alloc, asked, graph, id, &mut patterns, out)
        }
    }
}
