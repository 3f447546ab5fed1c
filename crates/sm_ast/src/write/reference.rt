// References that are written: `{"target": ID}`.
ghost use Rattle.std.specs.Prelude.{◌≡◌, IfOk};
ghost use Rattle.sm_tree.specs.Node.{members_of, nodes_of};
ghost use Rattle.sm_tree.specs.View.{node_of, members_view, nodes_view};
ghost use Rattle.sm_ast.specs.Written.{written_entries, written_pairs, written_reference};

use super::field::put_field;
use sm_tree::{NoMemory, Pairs, Text, Tree, copy_tree};
use std::alloc::Global;

/// The reference to the shape with this id.
pub(crate) fn reference_to(alloc: Global, id: &Tree) -> Result<Tree, NoMemory>
    ensures { IfOk result (λ tree. node_of tree ≡ written_reference (node_of id.now)) }
{
    let id = copy_tree(alloc, id)?;
    let mut fields = Vec::new(alloc);
    put_field(alloc, "target", id, &mut fields)?;
    Ok(Tree::Object(Pairs::new(fields)))
}

/// References to the shapes with these ids, in the same order.
pub(crate) fn reference_entries(alloc: Global, ids: &[Tree]) -> Result<Vec<Tree>, NoMemory>
    ensures { IfOk result (λ entries. nodes_view entries.items ≡ written_entries (nodes_of (nodes_view ids.now))) }
{
    let mut entries = Vec::new(alloc);
    for id in ids {
        entries.push(reference_to(alloc, id)?)?;
    }
    Ok(entries)
}

/// References under the same names.
pub(crate) fn reference_pairs(
    alloc: Global,
    ids: &[(Text, Tree)],
) -> Result<Vec<(Text, Tree)>, NoMemory>
    ensures { IfOk result (λ pairs. members_view pairs.items ≡ written_pairs (members_of (members_view ids.now))) }
{
    let mut pairs = Vec::new(alloc);
    for pair in ids {
        let value = reference_to(alloc, &pair.1)?;
        pairs.push((Text::copy(alloc, pair.0.as_str())?, value))?;
    }
    Ok(pairs)
}
