// What a tree is: its text, its entries, its pairs, and what stands under a name.
ghost use Rattle.std.specs.Prelude.{◌≡◌, ℕ, List, MatchOption, None, Some};
ghost use Rattle.sm_tree.specs.Node.{Members, Nodes, list, members_of, nodes_of, object, text};
ghost use Rattle.sm_tree.specs.Parts.{text_in, entries_in, pairs_in, tree_named};
ghost use Rattle.sm_tree.specs.View.{members_view, node_of, nodes_view};

use crate::text::Text;
use crate::tree::Tree;

/// The text that a tree is; `None` for any other tree. No memory.
#[tactic(auto, using(crate::proofs::Views::node_text))]
pub fn text_of(tree: &Tree) -> Option<&str>
    ensures part { MatchOption result (text_in (node_of tree.now) ≡ None) (λ t. text_in (node_of tree.now) ≡ Some t.now) }
    ensures node { MatchOption result
        ((t : List ℕ) → node_of tree.now ≡ text t → ⊥)
        (λ t. node_of tree.now ≡ text t.now) }
{
    match tree {
        Tree::Text(text) => Some(text.as_str()),
        _ => None,
    }
}

/// The entries of a list; `None` for any other tree. No memory.
#[tactic(auto, using(crate::proofs::Views::node_list_items))]
pub fn entries_of(tree: &Tree) -> Option<&[Tree]>
    ensures part { MatchOption result (entries_in (node_of tree.now) ≡ None)
        (λ items. entries_in (node_of tree.now) ≡ Some (nodes_of (nodes_view items.now))) }
    ensures node { MatchOption result
        ((ns : Nodes) → node_of tree.now ≡ list ns → ⊥)
        (λ items. node_of tree.now ≡ list (nodes_of (nodes_view items.now))) }
{
    match tree {
        Tree::List(items) => Some(items.as_slice()),
        _ => None,
    }
}

/// The pairs of an object; `None` for any other tree. No memory.
#[tactic(auto, using(crate::proofs::Views::node_object_pairs))]
pub fn pairs_of(tree: &Tree) -> Option<&[(Text, Tree)]>
    ensures part { MatchOption result (pairs_in (node_of tree.now) ≡ None)
        (λ pairs. pairs_in (node_of tree.now) ≡ Some (members_of (members_view pairs.now))) }
    ensures node { MatchOption result
        ((ms : Members) → node_of tree.now ≡ object ms → ⊥)
        (λ pairs. node_of tree.now ≡ object (members_of (members_view pairs.now))) }
{
    match tree {
        Tree::Object(pairs) => Some(pairs.as_slice()),
        _ => None,
    }
}

/// The first tree under a name; `None` where no pair has the name. No memory.
pub fn tree_under<'a>(pairs: &'a [(Text, Tree)], name: &str) -> Option<&'a Tree>
    ensures { MatchOption result
        (tree_named name.now (members_of (members_view pairs.now)) ≡ None)
        (λ t. tree_named name.now (members_of (members_view pairs.now)) ≡ Some (node_of t.now)) }
{
    for pair in pairs {
        if pair.0.as_str() == name {
            return Some(&pair.1);
        }
    }
    None
}
