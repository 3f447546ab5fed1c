// The nodes of defaults.
ghost use Rattle.std.specs.Prelude.{◌≡◌, ◌↔◌, IfOk, IsTrue, None, Some, cond, length};
ghost use Rattle.std.specs.Option.{option_map};
ghost use Rattle.sm_tree.specs.View.{node_of};
ghost use Rattle.sm_model.specs.GraphView.{IsShapeNumber, maps_of};
ghost use Rattle.sm_model.specs.Reaching.{id_of_number};
ghost use Rattle.sm_model.specs.declared.kind.Kind.TheVariants.{Structure};
ghost use Rattle.sm_compile.specs.Said as said;
ghost use Rattle.sm_compile.specs.Said.{node_where};
ghost use Rattle.sm_compile.specs.steps.Seeing.{default_under, is_null_node};

use crate::kinds::table_kind;
use crate::look::trait_node;
use crate::seen::is_bound;
use crate::trait_ids::DEFAULT;
use sm_model::{Graph, Kind};
use sm_shapes::kinds::ShapeKind;
use sm_tree::{NoMemory, Text, Tree, copy_tree};
use std::alloc::Global;

/// A copy of the node of a member's default, where all that needs no reader holds of it. `home` and `target` are the types of the shape
/// that it stands in and of its target.
pub(crate) fn default_node(
    alloc: Global,
    graph: &Graph,
    home: Kind,
    member: u32,
    target: Kind,
) -> Result<Option<Tree>, NoMemory>
    requires { IsShapeNumber graph.now member }
    ensures { IfOk result (λ node. option_map node_of node
        ≡ default_under (maps_of graph.now) (id_of_number graph.now member) home target) }
{
    match home {
        Kind::Structure => default_of_member(alloc, graph, member, target),
        _ => Ok(None),
    }
}

fn default_of_member(
    alloc: Global,
    graph: &Graph,
    member: u32,
    target: Kind,
) -> Result<Option<Tree>, NoMemory>
    requires { IsShapeNumber graph.now member }
    ensures { IfOk result (λ node. option_map node_of node
        ≡ default_under (maps_of graph.now) (id_of_number graph.now member) Structure target) }
{
    if is_bound(graph, member) {
        Ok(None)
    } else {
        node_where(
            alloc,
            table_kind(target),
            trait_node(graph, member, DEFAULT),
        )
    }
}

// A copy of the node that may be there, where a member whose target is of this kind may have it as its default.
fn node_where(alloc: Global, kind: ShapeKind, tree: Option<&Tree>) -> Result<Option<Tree>, NoMemory>
    ensures { IfOk result (λ node. option_map node_of node ≡ node_where kind (option_map (λ t. node_of t.now) tree.entry)) }
{
    match tree {
        Some(tree) => node_if(alloc, may_have_node(kind, tree), tree),
        None => Ok(None),
    }
}

fn node_if(alloc: Global, may: bool, tree: &Tree) -> Result<Option<Tree>, NoMemory>
    ensures { IfOk result (λ node. option_map node_of node ≡ cond may (Some (node_of tree.now)) None) }
{
    if may {
        Ok(Some(copy_tree(alloc, tree)?))
    } else {
        Ok(None)
    }
}

fn may_have_node(kind: ShapeKind, tree: &Tree) -> bool
    ensures { result ≡ said.may_have_node kind (node_of tree.now) }
{
    match kind {
        ShapeKind::List | ShapeKind::Map => is_empty_node(tree),
        ShapeKind::Structure | ShapeKind::Union | ShapeKind::LeftOut => false,
        _ => !is_null(tree),
    }
}

fn is_empty_node(tree: &Tree) -> bool
    ensures { result ≡ said.is_empty_node (node_of tree.now) }
{
    match tree {
        Tree::List(items) => no_items(items.as_slice()),
        Tree::Object(pairs) => no_pairs(pairs.as_slice()),
        _ => false,
    }
}

fn no_items(items: &[Tree]) -> bool
    ensures { IsTrue result ↔ (length items.now ≡ 0) }
{
    items.is_empty()
}

fn no_pairs(pairs: &[(Text, Tree)]) -> bool
    ensures { IsTrue result ↔ (length pairs.now ≡ 0) }
{
    pairs.is_empty()
}

fn is_null(tree: &Tree) -> bool
    ensures { result ≡ is_null_node (node_of tree.now) }
{
    match tree {
        Tree::Null => true,
        _ => false,
    }
}
