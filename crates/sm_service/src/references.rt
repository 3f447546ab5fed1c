// What operations and services refer to, in order.
ghost use Rattle.std.specs.Prelude.{◌≡◌, IfOk};
ghost use Rattle.std.specs.Option.{option_copied, unwrap_or};
ghost use Rattle.sm_tree.specs.Node.{no_nodes, nodes_of};
ghost use Rattle.sm_tree.specs.Parts.{entries_in};
ghost use Rattle.sm_tree.specs.View.{node_of, nodes_view};
ghost use Rattle.sm_model.specs.Graphs.{ShapeEntry, shape_entry};
ghost use Rattle.sm_model.specs.GraphView.{IsShapeAt, IsShapeNumber, maps_of};
ghost use Rattle.sm_model.specs.Reaching.{id_of_number};
ghost use Rattle.sm_model.specs.Relations.{HasEntry};
ghost use Rattle.sm_compile.specs.steps.Naming.{texts_of_all};
ghost use Rattle.sm_service.specs.References.{reference_in, references_in, texts_among};

use sm_compile::{field_of, text_in_trait};
use sm_model::Graph;
use sm_tree::{NoMemory, Tree, entries_of, text_of};
use std::alloc::Global;

/// The id that a field of a shape's body names, where it refers to one shape.
pub(crate) fn reference<'a>(graph: &'a Graph, shape: u32, name: &str) -> Option<&'a str>
    requires number { IsShapeNumber graph.now shape }
    requires is_shape { IsShapeAt graph.now shape }
    ensures { (s : ShapeEntry) → HasEntry (maps_of graph.now) (id_of_number graph.now shape) (shape_entry s)
        → option_copied result ≡ reference_in name.now s }
{
    text_in_trait(field_of(graph.properties(shape), name))
}

/// Those that one names which refers to several, in order.
pub(crate) fn references<'a>(
    alloc: Global,
    graph: &'a Graph,
    shape: u32,
    name: &str,
) -> Result<Vec<&'a str>, NoMemory>
    requires number { IsShapeNumber graph.now shape }
    requires is_shape { IsShapeAt graph.now shape }
    ensures { IfOk result (λ ids.
        (s : ShapeEntry) → HasEntry (maps_of graph.now) (id_of_number graph.now shape) (shape_entry s)
        → texts_of_all ids.items ≡ references_in name.now s) }
{
    match field_of(graph.properties(shape), name) {
        Some(tree) => texts_in(alloc, tree),
        None => Ok(Vec::new(alloc)),
    }
}

// The texts among the entries of a list.
fn texts_in(alloc: Global, tree: &Tree) -> Result<Vec<&str>, NoMemory>
    ensures { IfOk result (λ texts. texts_of_all texts.items ≡ texts_among (unwrap_or (entries_in (node_of tree.now)) no_nodes)) }
{
    match entries_of(tree) {
        Some(entries) => texts_among(alloc, entries),
        None => Ok(Vec::new(alloc)),
    }
}

fn texts_among(alloc: Global, trees: &[Tree]) -> Result<Vec<&str>, NoMemory>
    ensures { IfOk result (λ texts. texts_of_all texts.items ≡ texts_among (nodes_of (nodes_view trees.now))) }
{
    let mut texts = Vec::new(alloc);
    for tree in trees {
        match text_of(tree) {
            Some(text) => match texts.push(text) {
                Ok(()) => {}
                Err(_) => return Err(NoMemory),
            },
            None => {}
        }
    }
    Ok(texts)
}
