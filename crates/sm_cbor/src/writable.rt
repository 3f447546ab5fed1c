// Which trees can be written as CBOR items. Whoever has a tree of another format asks here before it is written.
ghost use Rattle.std.specs.Prelude.{◌↔◌, IsTrue};
ghost use Rattle.sm_tree.specs.Json.{IsCbor, AreCbor, AreCborMembers};
ghost use Rattle.sm_tree.specs.Node.{nodes_of, members_of};
ghost use Rattle.sm_tree.specs.View.{node_of, nodes_view, members_view};

use crate::seen::{see_bytes, see_int, see_number, see_text};
use sm_tree::{Text, Tree};

#[cycle(writable)]
fn entries_are_writable(items: &[Tree]) -> bool
    ensures { IsTrue result ↔ AreCbor (nodes_of (nodes_view items.now)) }
{
    for item in items {
        if !is_writable(item) {
            return false;
        }
    }
    true
}

#[cycle(writable)]
fn pairs_are_writable(pairs: &[(Text, Tree)]) -> bool
    ensures { IsTrue result ↔ AreCborMembers (members_of (members_view pairs.now)) }
{
    for pair in pairs {
        see_text(&pair.0);
        if !is_writable(&pair.1) {
            return false;
        }
    }
    true
}

/// Whether a tree can be written as an item: no float, no simple value and no number past 64 bits is in it. No memory.
#[cycle(writable)]
pub fn is_writable(tree: &Tree) -> bool
    ensures { IsTrue result ↔ IsCbor (node_of tree.now) }
{
    match tree {
        Tree::Null | Tree::Bool(_) => true,
        Tree::Int(value) => {
            see_int(*value);
            true
        }
        Tree::Text(text) => {
            see_text(text);
            true
        }
        Tree::Bytes(bytes) => {
            see_bytes(bytes.as_slice());
            true
        }
        Tree::Tag(number, content) => {
            see_number(*number);
            is_writable(content)
        }
        Tree::List(items) => entries_are_writable(items.as_slice()),
        Tree::Object(pairs) => pairs_are_writable(pairs.as_slice()),
        Tree::Number(_) | Tree::Opaque(_) => false,
    }
}
