// What is answered: the model is loaded, and transformed.
ghost use Rattle.std.specs.Prelude.{IfOk};
ghost use Rattle.sm_model.specs.FormedGraph.{IsFormedGraph};
ghost use Rattle.sm_model.specs.GraphView.{maps_of};
ghost use Rattle.sm_transform.specs.Renamed.{HasTraitIds};

use crate::changing::{Unasked, change_asked};
use crate::refusal::{show_refusal, show_unloaded};
use crate::row::Verb;
use crate::tree::show_tree;
use sm_ast::write_ast;
use sm_load::{LoadRefusal, Model, ModelFile, load};
use sm_model::Graph;
use sm_transformed::transform;
use sm_tree::NoMemory;
use std::alloc::Global;

/// Appends what is answered of the model of these files, of this verb and its argument.
pub fn show_asked(
    alloc: Global,
    verb: Verb,
    files: Vec<ModelFile>,
    text: &str,
    out: &mut String,
) -> Result<(), NoMemory> {
    out.push_str(" => ")?;
    match loaded(alloc, files) {
        Ok(model) => show_changed(alloc, &model.graph, verb, text, out),
        Err(refusal) => show_unloaded(&refusal, out),
    }
}

// The model of files, which may be changed.
fn loaded(alloc: Global, files: Vec<ModelFile>) -> Result<Model, LoadRefusal>
    ensures formed { IfOk result (λ model. IsFormedGraph (maps_of model.graph)) }
    ensures traits { IfOk result (λ model. HasTraitIds (maps_of model.graph)) }
{
    sm_transformed::laws::accepted_may_change();
    match load(alloc, files) {
        Ok(model) => Ok(model),
        Err(refusal) => Err(refusal),
    }
}

fn show_changed(
    alloc: Global,
    graph: &Graph,
    verb: Verb,
    text: &str,
    out: &mut String,
) -> Result<(), NoMemory>
    requires formed { IsFormedGraph (maps_of graph.now) }
    requires traits { HasTraitIds (maps_of graph.now) }
{
    match change_asked(alloc, verb, text) {
        Ok(change) => match transform(alloc, graph, &change) {
            Ok(model) => show_graph(alloc, &model.graph, out),
            Err(refusal) => show_refusal(&refusal, out),
        },
        Err(Unasked::Text) => Ok(out.push_str("no change")?),
        Err(Unasked::NoMemory) => Err(NoMemory),
    }
}

// Appends a graph as it is printed.
fn show_graph(alloc: Global, graph: &Graph, out: &mut String) -> Result<(), NoMemory> {
    let tree = write_ast(alloc, graph)?;
    show_tree(alloc, &tree, out)
}
