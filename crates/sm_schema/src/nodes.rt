// Objects and lists that are put together, one pair or one entry behind the other.
ghost use Rattle.std.specs.Prelude.{◌≡◌, IfOk, OnOk};
ghost use Rattle.sm_tree.specs.Node.{Members, Nodes, list, member, no_members, no_nodes, node, object};
ghost use Rattle.sm_tree.specs.Node as nodes;
ghost use Rattle.sm_tree.specs.View.{members_view, node_of, nodes_view};
ghost use Rattle.sm_schema.specs.Described as the;
ghost use Rattle.sm_schema.specs.steps.Joined.{joined, entries_joined};

use crate::trees::{
    JsonEntries, JsonPairs, JsonTree, no_entries, no_pairs, number_tree, text_tree,
};
use sm_tree::{Items, NoMemory, Pairs, Text, Tree};
use std::alloc::Global;

/// Puts a pair behind those that are there.
#[tactic(auto, using(crate::proofs::JoinedParts::pair_put))]
pub(crate) fn put(
    alloc: Global,
    pairs: &mut JsonPairs,
    name: &str,
    tree: JsonTree,
) -> Result<(), NoMemory>
    ensures { OnOk result ((more : Members) → joined (members_view pairs.new.pairs.items) more
        ≡ joined (members_view pairs.old.pairs.items) (member name.now (node_of tree.tree) more)) }
{
    let JsonTree { tree } = tree;
    let name = Text::copy(alloc, name)?;
    pairs.pairs.push((name, tree))?;
    Ok(())
}

/// Puts a pair of a name and a text behind those that are there.
pub(crate) fn put_text(
    alloc: Global,
    pairs: &mut JsonPairs,
    name: &str,
    words: &str,
) -> Result<(), NoMemory>
    ensures { OnOk result ((more : Members) → joined (members_view pairs.new.pairs.items) more
        ≡ joined (members_view pairs.old.pairs.items) (member name.now (nodes.text words.now) more)) }
{
    let tree = text_tree(alloc, words)?;
    put(alloc, pairs, name, tree)
}

/// Puts a bound behind the pairs that are there, where there is one.
pub(crate) fn put_bound(
    alloc: Global,
    pairs: &mut JsonPairs,
    name: &str,
    bound: Option<i64>,
) -> Result<(), NoMemory>
    ensures { OnOk result ((more : Members) → joined (members_view pairs.new.pairs.items) more
        ≡ joined (members_view pairs.old.pairs.items) (the.with_bound name.now bound more)) }
{
    match bound {
        Some(number) => put(alloc, pairs, name, number_tree(number)),
        None => Ok(()),
    }
}

/// The object of these pairs. No memory.
#[tactic(auto, using(crate::proofs::JoinedParts::object_joined))]
pub(crate) fn object_of(pairs: JsonPairs) -> JsonTree
    ensures { node_of result.tree ≡ object (joined (members_view pairs.pairs.items) no_members) }
{
    let JsonPairs { pairs } = pairs;
    JsonTree {
        tree: Tree::Object(Pairs::new(pairs)),
    }
}

/// Puts an entry behind those that are there.
#[tactic(auto, using(crate::proofs::JoinedParts::entry_put))]
pub(crate) fn put_entry(entries: &mut JsonEntries, tree: JsonTree) -> Result<(), NoMemory>
    ensures { OnOk result ((more : Nodes) → entries_joined (nodes_view entries.new.entries.items) more
        ≡ entries_joined (nodes_view entries.old.entries.items) (node (node_of tree.tree) more)) }
{
    let JsonTree { tree } = tree;
    entries.entries.push(tree)?;
    Ok(())
}

/// The list of these entries. No memory.
#[tactic(auto, using(crate::proofs::JoinedParts::list_joined))]
pub(crate) fn list_of(entries: JsonEntries) -> JsonTree
    ensures { node_of result.tree ≡ list (entries_joined (nodes_view entries.entries.items) no_nodes) }
{
    let JsonEntries { entries } = entries;
    JsonTree {
        tree: Tree::List(Items::new(entries)),
    }
}

/// An object of one pair.
pub(crate) fn one_pair(alloc: Global, name: &str, tree: JsonTree) -> Result<JsonTree, NoMemory>
    ensures { IfOk result (λ made. node_of made.tree ≡ object (member name.now (node_of tree.tree) no_members)) }
{
    let mut pairs = no_pairs(alloc);
    put(alloc, &mut pairs, name, tree)?;
    Ok(object_of(pairs))
}

/// The keyword of a type.
pub(crate) fn typed(alloc: Global, name: &str) -> Result<JsonPairs, NoMemory>
    ensures { IfOk result (λ pairs. (more : Members) → object (joined (members_view pairs.pairs.items) more) ≡ the.typed name.now more) }
{
    let mut pairs = no_pairs(alloc);
    put_text(alloc, &mut pairs, "type", name)?;
    Ok(pairs)
}

/// The texts of an enum.
pub(crate) fn text_nodes(alloc: Global, texts: &[Text]) -> Result<JsonTree, NoMemory>
    ensures { IfOk result (λ tree. node_of tree.tree ≡ list (the.text_nodes texts.now)) }
{
    let mut entries = no_entries(alloc);
    for text in texts {
        let tree = text_tree(alloc, text.as_str())?;
        put_entry(&mut entries, tree)?;
    }
    Ok(list_of(entries))
}

/// The numbers of an intEnum.
pub(crate) fn number_nodes(alloc: Global, numbers: &[i64]) -> Result<JsonTree, NoMemory>
    ensures { IfOk result (λ tree. node_of tree.tree ≡ list (the.number_nodes numbers.now)) }
{
    let mut entries = no_entries(alloc);
    for number in numbers {
        put_entry(&mut entries, number_tree(*number))?;
    }
    Ok(list_of(entries))
}
