// Nodes of statements whose bare ids come to the texts of what they mean.
ghost use Rattle.std.specs.Prelude.{◌≡◌, IfOk};
ghost use Rattle.sm_tree.specs.View.{node_of, nodes_view, members_view};
ghost use Rattle.sm_model.specs.RawView.{raw_view, raws_view, raw_members_view};
ghost use Rattle.sm_merge.specs.Meaning.{node_meant};
ghost use Rattle.sm_merge.specs.steps.Known.{known};
ghost use Rattle.sm_merge.specs.steps.Meant.{entries_meant, pairs_meant};

use crate::meaning::meaning;
use crate::names::Names;
use sm_model::RawNode;
use sm_tree::{Items, NoMemory, Pairs, Text, Tree, copy_tree};
use std::alloc::Global;

/// The node.
#[tactic(auto, using(crate::proofs::MeantViews::list_meant, crate::proofs::MeantViews::object_meant))]
#[cycle(meant)]
pub(crate) fn meant_node(alloc: Global, names: &Names<'_>, node: &RawNode) -> Result<Tree, NoMemory>
    ensures { IfOk result (λ tree. node_of tree ≡ node_meant (known names.now) (raw_view node.now)) }
{
    match node {
        RawNode::Leaf(tree) => copy_tree(alloc, tree),
        RawNode::Id(reference) => Ok(Tree::Text(meaning(alloc, names, reference)?)),
        RawNode::List(items) => {
            let entries = meant_entries(alloc, names, items.as_slice())?;
            Ok(Tree::List(Items::new(entries)))
        }
        RawNode::Object(pairs) => {
            let members = meant_pairs(alloc, names, pairs.as_slice())?;
            Ok(Tree::Object(Pairs::new(members)))
        }
    }
}

#[cycle(meant)]
fn meant_entries(alloc: Global, names: &Names<'_>, items: &[RawNode]) -> Result<Vec<Tree>, NoMemory>
    ensures { IfOk result (λ trees. nodes_view trees.items ≡ entries_meant (known names.now) (raws_view items.now)) }
{
    let mut entries = Vec::with_capacity(alloc, items.len())?;
    for item in items {
        entries.push(meant_node(alloc, names, item)?)?;
    }
    Ok(entries)
}

#[cycle(meant)]
fn meant_pairs(
    alloc: Global,
    names: &Names<'_>,
    pairs: &[(Text, RawNode)],
) -> Result<Vec<(Text, Tree)>, NoMemory>
    ensures { IfOk result (λ trees. members_view trees.items ≡ pairs_meant (known names.now) (raw_members_view pairs.now)) }
{
    let mut members = Vec::with_capacity(alloc, pairs.len())?;
    for pair in pairs {
        let value = meant_node(alloc, names, &pair.1)?;
        members.push((Text::copy(alloc, pair.0.as_str())?, value))?;
    }
    Ok(members)
}
