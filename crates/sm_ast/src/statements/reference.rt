// References: the ids of shapes.
ghost use Rattle.std.specs.Prelude.{◌≡◌, IfOk};
ghost use Rattle.sm_tree.specs.Node.{members_of, nodes_of};
ghost use Rattle.sm_tree.specs.View.{node_of, members_view, nodes_view};
ghost use Rattle.sm_model.specs.References as references;
ghost use Rattle.sm_tree.specs.Parts.{tree_named};
ghost use Rattle.sm_ast.specs.steps.Saying.{reference_said, references_said, references_there, target_said};

use crate::part::{entries_or_none, pairs_or_none, text_or_empty};
use sm_model::{Ref, Refs, Uses};
use sm_tree::{NoMemory, Text, Tree, tree_under};
use std::alloc::Global;

/// A reference by an absolute id.
pub(crate) fn absolute(alloc: Global, text: &str, in_trait: bool) -> Result<Ref, NoMemory>
    ensures { IfOk result (λ r. r ≡ references.absolute text.now in_trait) }
{
    let text = Text::copy(alloc, text)?;
    Ok(Ref {
        text,
        namespace: None,
        uses: Uses::none(),
        in_trait,
    })
}

/// The target that the pairs of a reference or a member say.
pub(crate) fn target(alloc: Global, pairs: &[(Text, Tree)]) -> Result<Ref, NoMemory>
    ensures { IfOk result (λ r. r ≡ target_said (members_of (members_view pairs.now))) }
{
    match tree_under(pairs, "target") {
        Some(tree) => absolute(alloc, text_or_empty(tree), false),
        None => absolute(alloc, "", false),
    }
}

/// A reference.
pub(crate) fn reference(alloc: Global, tree: &Tree) -> Result<Ref, NoMemory>
    ensures { IfOk result (λ r. r ≡ reference_said (node_of tree.now)) }
{
    target(alloc, pairs_or_none(tree))
}

/// The references under a name.
pub(crate) fn references_under(
    alloc: Global,
    pairs: &[(Text, Tree)],
    name: &str,
) -> Result<Refs, NoMemory>
    ensures { IfOk result (λ rs. rs ≡ references_there (tree_named name.now (members_of (members_view pairs.now)))) }
{
    match tree_under(pairs, name) {
        Some(tree) => Ok(Refs::new(references(alloc, entries_or_none(tree))?)),
        None => Ok(Refs::new(Vec::new(alloc))),
    }
}

fn references(alloc: Global, entries: &[Tree]) -> Result<Vec<Ref>, NoMemory>
    ensures { IfOk result (λ rs. rs.items ≡ references_said (nodes_of (nodes_view entries.now))) }
{
    let mut references = Vec::new(alloc);
    for entry in entries {
        references.push(reference(alloc, entry)?)?;
    }
    Ok(references)
}
