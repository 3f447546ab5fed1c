// Copies of trees.
ghost use Rattle.std.specs.Prelude.{◌≡◌, IfOk};
ghost use Rattle.sm_tree.specs.View.{node_of, nodes_view, members_view};

use crate::NoMemory;
use crate::text::{Bytes, Text};
use crate::tree::{Items, Pairs, Tree};
use std::alloc::Global;

/// A copy of a tree.
#[cycle(copy)]
pub fn copy_tree(alloc: Global, tree: &Tree) -> Result<Tree, NoMemory>
    ensures { IfOk result (λ copy. node_of copy ≡ node_of tree.now) }
{
    match tree {
        Tree::Null => Ok(Tree::Null),
        Tree::Bool(value) => Ok(Tree::Bool(*value)),
        Tree::Int(value) => Ok(Tree::Int(*value)),
        Tree::Number(text) => Ok(Tree::Number(Text::copy(alloc, text.as_str())?)),
        Tree::Text(text) => Ok(Tree::Text(Text::copy(alloc, text.as_str())?)),
        Tree::Bytes(bytes) => Ok(Tree::Bytes(copy_bytes(alloc, bytes)?)),
        Tree::Tag(number, content) => {
            let copy = copy_tree(alloc, content)?;
            Ok(Tree::Tag(*number, Box::new(alloc, copy)?))
        }
        Tree::Opaque(byte) => Ok(Tree::Opaque(*byte)),
        Tree::List(items) => {
            let entries = copy_entries(alloc, items.as_slice())?;
            Ok(Tree::List(Items::new(entries)))
        }
        Tree::Object(pairs) => {
            let members = copy_pairs(alloc, pairs.as_slice())?;
            Ok(Tree::Object(Pairs::new(members)))
        }
    }
}

fn copy_bytes(alloc: Global, bytes: &Bytes) -> Result<Bytes, NoMemory>
    ensures { IfOk result (λ copy. copy ≡ bytes.now) }
{
    Ok(Bytes::new(bytes.as_slice().to_vec(alloc)?))
}

#[cycle(copy)]
fn copy_entries(alloc: Global, items: &[Tree]) -> Result<Vec<Tree>, NoMemory>
    ensures { IfOk result (λ copy. nodes_view copy.items ≡ nodes_view items.now) }
{
    let mut entries = Vec::new(alloc);
    for item in items {
        entries.push(copy_tree(alloc, item)?)?;
    }
    Ok(entries)
}

/// A copy of names with their trees, in the same order.
#[cycle(copy)]
pub fn copy_pairs(alloc: Global, pairs: &[(Text, Tree)]) -> Result<Vec<(Text, Tree)>, NoMemory>
    ensures { IfOk result (λ copy. members_view copy.items ≡ members_view pairs.now) }
{
    let mut members = Vec::new(alloc);
    for pair in pairs {
        let value = copy_tree(alloc, &pair.1)?;
        members.push((Text::copy(alloc, pair.0.as_str())?, value))?;
    }
    Ok(members)
}
