// Trees that JSON can spell, and the pairs and entries of such trees. Each value keeps that fact, so that the schema can be written.
ghost use Rattle.std.specs.Prelude.{◌≡◌, [], IfOk, IsTrue};
ghost use Rattle.sm_tree.specs.Node.{bool, int, members_of, nodes_of};
ghost use Rattle.sm_tree.specs.Node as nodes;
ghost use Rattle.sm_tree.specs.View.{members_view, node_of, nodes_view};
ghost use Rattle.sm_schema.specs.steps.Plain.{is_plain, are_plain, are_plain_under};

use sm_tree::{NoMemory, Text, Tree};
use std::alloc::Global;

/// A tree that JSON can spell.
#[derive(Debug, Drop)]
pub(crate) struct JsonTree {
    /// The tree.
    pub(crate) tree: Tree,
    pub ghost plain: { IsTrue (is_plain (node_of tree)) },
}

/// Pairs of an object that JSON can spell.
#[derive(Debug, Drop)]
pub(crate) struct JsonPairs {
    /// The pairs, in their order.
    pub(crate) pairs: Vec<(Text, Tree)>,
    pub ghost plain: { IsTrue (are_plain_under (members_of (members_view pairs.items))) },
}

/// Entries of a list that JSON can spell.
#[derive(Debug, Drop)]
pub(crate) struct JsonEntries {
    /// The entries, in their order.
    pub(crate) entries: Vec<Tree>,
    pub ghost plain: { IsTrue (are_plain (nodes_of (nodes_view entries.items))) },
}

/// A whole number.
#[tactic(auto, using(crate::proofs::PlainTrees::plain_int))]
pub(crate) fn number_tree(number: i64) -> JsonTree
    ensures { node_of result.tree ≡ int number }
{
    JsonTree {
        tree: Tree::Int(number),
    }
}

/// A truth value.
#[tactic(auto, using(crate::proofs::PlainTrees::plain_bool))]
pub(crate) fn bool_tree(truth: bool) -> JsonTree
    ensures { node_of result.tree ≡ bool truth }
{
    JsonTree {
        tree: Tree::Bool(truth),
    }
}

/// A text.
#[tactic(auto, using(crate::proofs::PlainTrees::plain_text))]
pub(crate) fn text_tree(alloc: Global, words: &str) -> Result<JsonTree, NoMemory>
    ensures { IfOk result (λ made. node_of made.tree ≡ nodes.text words.now) }
{
    let words = Text::copy(alloc, words)?;
    Ok(JsonTree {
        tree: Tree::Text(words),
    })
}

/// No pairs yet.
pub(crate) fn no_pairs(alloc: Global) -> JsonPairs
    ensures { members_view result.pairs.items ≡ [] }
{
    JsonPairs {
        pairs: Vec::new(alloc),
    }
}

/// No entries yet.
pub(crate) fn no_entries(alloc: Global) -> JsonEntries
    ensures { nodes_view result.entries.items ≡ [] }
{
    JsonEntries {
        entries: Vec::new(alloc),
    }
}
