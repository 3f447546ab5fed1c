// What a tree says: whether it is a text, and its text, entries and pairs, or none.
ghost use Rattle.std.specs.Prelude.{◌≡◌};
ghost use Rattle.sm_tree.specs.Node.{nodes_of, members_of};
ghost use Rattle.sm_tree.specs.View.{node_of, nodes_view, members_view};
ghost use Rattle.sm_tree.specs.Parts.{text_in};
ghost use Rattle.sm_ast.specs.Faults.{is_this};
ghost use Rattle.sm_ast.specs.PartsSaid.{entries_said, pairs_said, text_said};

use sm_tree::{Text, Tree, entries_of, pairs_of, text_of};

/// Whether a tree is this text. No memory.
pub(crate) fn says(tree: &Tree, wanted: &str) -> bool
    ensures { result ≡ is_this wanted.now (text_in (node_of tree.now)) }
{
    match text_of(tree) {
        Some(text) => text == wanted,
        None => false,
    }
}

/// The text that a tree is, or the empty one. No memory.
pub(crate) fn text_or_empty(tree: &Tree) -> &str
    ensures { result.now ≡ text_said (node_of tree.now) }
{
    match text_of(tree) {
        Some(text) => text,
        None => "",
    }
}

/// The entries of a list, or none. No memory.
pub(crate) fn entries_or_none(tree: &Tree) -> &[Tree]
    ensures { nodes_of (nodes_view result.now) ≡ entries_said (node_of tree.now) }
{
    match entries_of(tree) {
        Some(entries) => entries,
        None => &[],
    }
}

/// The pairs of an object, or none. No memory.
pub(crate) fn pairs_or_none(tree: &Tree) -> &[(Text, Tree)]
    ensures { members_of (members_view result.now) ≡ pairs_said (node_of tree.now) }
{
    match pairs_of(tree) {
        Some(pairs) => pairs,
        None => &[],
    }
}
