// What the values of one trait of one place come to.
ghost use Rattle.std.specs.Prelude.{◌≡◌, ◌↔◌, ◌∷◌, ◌++◌, IfOk, IsTrue, MatchResult};
ghost use Rattle.sm_bytes.specs.Lengths.{length_word};
ghost use Rattle.sm_tree.specs.Node.{list, nodes_of};
ghost use Rattle.sm_tree.specs.Same.{IsNode, Same};
ghost use Rattle.sm_tree.specs.Size.{node_size};
ghost use Rattle.sm_tree.specs.View.{items_view, node_of, nodes_view};
ghost use Rattle.sm_merge.specs.Values.{Differ};
ghost use Rattle.sm_merge.specs.steps.Folding.{AreNodes, HasTaken, HasTakenFrom, IsFolded, IsNoArray, IsRunning};

use sm_tree::{Items, NoMemory, Tree, is_same, tree_size};
use std::alloc::Global;

/// What values came to.
#[derive(Drop)]
pub(crate) struct Folded {
    /// The value.
    pub value: Tree,
    /// How much it counts.
    pub size: u64,
    /// Whether some values were in conflict.
    pub conflict: bool,
}

/// What a first value comes to with more, in order.
pub(crate) fn fold_values(alloc: Global, first: Tree, more: Vec<Tree>) -> Result<Folded, NoMemory>
    requires first { IsNode (node_of first) }
    requires more { AreNodes (nodes_view more.items) }
    ensures { IfOk result (IsFolded (node_of first ∷ nodes_view more.items)) }
{
    let size = tree_size(&first);
    let mut folded = Folded {
        value: first,
        size,
        conflict: false,
    };
    for next in more {
        folded = taken(alloc, folded, next)?;
    }
    Ok(folded)
}

// The next value is taken.
fn taken(alloc: Global, folded: Folded, next: Tree) -> Result<Folded, NoMemory>
    requires running { IsRunning folded }
    requires next { IsNode (node_of next) }
    ensures { IfOk result (HasTaken folded (node_of next)) }
{
    let size = tree_size(&next);
    if are_same(alloc, &folded.value, folded.size, &next, size)? {
        return Ok(folded);
    }
    match into_entries(folded.value) {
        Err(value) => Ok(Folded {
            value,
            size: folded.size,
            conflict: true,
        }),
        Ok(items) => extended(items, folded.size, folded.conflict, next, size),
    }
}

// An array that is taken with a next value, which isn't the same.
fn extended(
    items: Items,
    size: u64,
    conflict: bool,
    next: Tree,
    next_size: u64,
) -> Result<Folded, NoMemory>
    requires items { IsNode (list (nodes_of (items_view items))) }
    requires next { IsNode (node_of next) }
    requires size { size ≡ length_word (node_size (list (nodes_of (items_view items)))) }
    requires next_size { next_size ≡ length_word (node_size (node_of next)) }
    requires differ { Differ (list (nodes_of (items_view items))) (node_of next) }
    ensures { IfOk result (HasTakenFrom (list (nodes_of (items_view items))) conflict (node_of next)) }
{
    match into_entries(next) {
        Err(_) => Ok(Folded {
            value: Tree::List(items),
            size,
            conflict: true,
        }),
        Ok(more) => Ok(Folded {
            value: Tree::List(joined(items, more)?),
            size: size.saturating_add(next_size - 1),
            conflict,
        }),
    }
}

// The entries of an array, or the tree where it is none.
fn into_entries(tree: Tree) -> Result<Items, Tree>
    ensures { MatchResult result (λ items. node_of tree ≡ list (nodes_of (items_view items))) (IsNoArray (node_of tree)) }
{
    match tree {
        Tree::List(items) => Ok(items),
        Tree::Null => Err(Tree::Null),
        Tree::Bool(value) => Err(Tree::Bool(value)),
        Tree::Int(value) => Err(Tree::Int(value)),
        Tree::Number(text) => Err(Tree::Number(text)),
        Tree::Text(text) => Err(Tree::Text(text)),
        Tree::Bytes(bytes) => Err(Tree::Bytes(bytes)),
        Tree::Tag(number, content) => Err(Tree::Tag(number, content)),
        Tree::Opaque(byte) => Err(Tree::Opaque(byte)),
        Tree::Object(pairs) => Err(Tree::Object(pairs)),
    }
}

// Whether trees of these sizes are the same. Trees that count differently aren't, so a long one isn't gone through for each short one.
pub(crate) fn are_same(
    alloc: Global,
    a: &Tree,
    a_size: u64,
    b: &Tree,
    b_size: u64,
) -> Result<bool, NoMemory>
    requires a { IsNode (node_of a.now) }
    requires b { IsNode (node_of b.now) }
    requires a_size { a_size ≡ length_word (node_size (node_of a.now)) }
    requires b_size { b_size ≡ length_word (node_size (node_of b.now)) }
    ensures { IfOk result (λ same. IsTrue same ↔ Same (node_of a.now) (node_of b.now)) }
{
    if a_size != b_size {
        return Ok(false);
    }
    is_same(alloc, a, b)
}

// Entries of one array, and behind them those of another.
fn joined(items: Items, more: Items) -> Result<Items, NoMemory>
    ensures { IfOk result (λ all. items_view all ≡ items_view items ++ items_view more) }
{
    let mut all = items.into_inner();
    let mut behind = more.into_inner();
    all.append(&mut behind)?;
    Ok(Items::new(all))
}
