// Nodes: the values of traits and of metadata, in which no bare id stands.
ghost use Rattle.std.specs.Prelude.{◌≡◌, IfOk};
ghost use Rattle.sm_tree.specs.Json.{IsJson, AreJson, AreJsonMembers};
ghost use Rattle.sm_tree.specs.Node.{nodes_of, members_of};
ghost use Rattle.sm_tree.specs.View.{node_of, nodes_view, members_view};
ghost use Rattle.sm_model.specs.Raw.{raw_of, node_raws, member_raws};
ghost use Rattle.sm_model.specs.RawView.{raw_view, raws_view, raw_members_view};

use sm_model::{RawItems, RawNode, RawPairs};
use sm_tree::{NoMemory, Text, Tree};
use std::alloc::Global;

/// The node that a tree says.
#[cycle(copy)]
pub(crate) fn raw_node(alloc: Global, tree: &Tree) -> Result<RawNode, NoMemory>
    requires { IsJson (node_of tree.now) }
    ensures { IfOk result (λ said. raw_view said ≡ raw_of (node_of tree.now)) }
{
    match tree {
        Tree::Null => Ok(RawNode::Leaf(Tree::Null)),
        Tree::Bool(value) => Ok(RawNode::Leaf(Tree::Bool(*value))),
        Tree::Int(value) => Ok(RawNode::Leaf(Tree::Int(*value))),
        Tree::Number(text) => Ok(RawNode::Leaf(Tree::Number(Text::copy(alloc, text.as_str())?))),
        Tree::Text(text) => Ok(RawNode::Leaf(Tree::Text(Text::copy(alloc, text.as_str())?))),
        Tree::Bytes(_) => unreachable!(),
        Tree::Tag(_, _) => unreachable!(),
        Tree::Opaque(_) => unreachable!(),
        Tree::List(items) => {
            let entries = raw_entries(alloc, items.as_slice())?;
            Ok(RawNode::List(RawItems::new(entries)))
        }
        Tree::Object(pairs) => {
            let members = raw_pairs(alloc, pairs.as_slice())?;
            Ok(RawNode::Object(RawPairs::new(members)))
        }
    }
}

#[cycle(copy)]
fn raw_entries(alloc: Global, items: &[Tree]) -> Result<Vec<RawNode>, NoMemory>
    requires { AreJson (nodes_of (nodes_view items.now)) }
    ensures { IfOk result (λ said. raws_view said.items ≡ node_raws (nodes_of (nodes_view items.now))) }
{
    let mut entries = Vec::new(alloc);
    for item in items {
        entries.push(raw_node(alloc, item)?)?;
    }
    Ok(entries)
}

#[cycle(copy)]
fn raw_pairs(alloc: Global, pairs: &[(Text, Tree)]) -> Result<Vec<(Text, RawNode)>, NoMemory>
    requires { AreJsonMembers (members_of (members_view pairs.now)) }
    ensures { IfOk result (λ said. raw_members_view said.items ≡ member_raws (members_of (members_view pairs.now))) }
{
    let mut members = Vec::new(alloc);
    for pair in pairs {
        let value = raw_node(alloc, &pair.1)?;
        members.push((Text::copy(alloc, pair.0.as_str())?, value))?;
    }
    Ok(members)
}
