// How much a tree counts: its nodes, and the bytes of its texts, numbers and names.
ghost use Rattle.std.specs.Prelude.{◌≡◌, ◌+◌, length};
ghost use Rattle.sm_bytes.specs.Lengths.{length_word};
ghost use Rattle.sm_tree.specs.Node.{nodes_of, members_of};
ghost use Rattle.sm_tree.specs.Size.{node_size, nodes_size, members_size};
ghost use Rattle.sm_tree.specs.View.{node_of, nodes_view, members_view};

use crate::text::Text;
use crate::tree::Tree;

/// How many nodes a tree has and how many bytes its texts, numbers and names have together, or the greatest `u64` where that is
/// more. Trees that are the same, in whose objects no name repeats, count the same. No memory.
#[cycle(size)]
pub fn tree_size(tree: &Tree) -> u64
    ensures { result ≡ length_word (node_size (node_of tree.now)) }
{
    match tree {
        Tree::Null => 1,
        Tree::Bool(_) => 1,
        Tree::Int(_) => 1,
        Tree::Number(text) => text_size(text),
        Tree::Text(text) => text_size(text),
        Tree::Bytes(bytes) => (bytes.as_slice().len() as u64).saturating_add(1),
        Tree::Tag(_, content) => tree_size(content).saturating_add(1),
        Tree::Opaque(_) => 1,
        Tree::List(items) => list_size(items.as_slice()),
        Tree::Object(pairs) => object_size(pairs.as_slice()),
    }
}

fn text_size(text: &Text) -> u64
    ensures { result ≡ length_word (1 + length text.now) }
{
    (text.as_str().len() as u64).saturating_add(1)
}

#[cycle(size)]
fn list_size(items: &[Tree]) -> u64
    ensures { result ≡ length_word (1 + nodes_size (nodes_of (nodes_view items.now))) }
{
    let mut size: u64 = 0;
    for item in items {
        size = size.saturating_add(tree_size(item));
    }
    size.saturating_add(1)
}

#[cycle(size)]
fn object_size(pairs: &[(Text, Tree)]) -> u64
    ensures { result ≡ length_word (1 + members_size (members_of (members_view pairs.now))) }
{
    let mut size: u64 = 0;
    for pair in pairs {
        let name = pair.0.as_str().len() as u64;
        size = size.saturating_add(name).saturating_add(tree_size(&pair.1));
    }
    size.saturating_add(1)
}
