// Traits: nodes under the ids of traits.
ghost use Rattle.std.specs.Prelude.{◌≡◌, IfOk};
ghost use Rattle.sm_tree.specs.Json.{AreJsonMembers};
ghost use Rattle.sm_tree.specs.Node.{members_of};
ghost use Rattle.sm_tree.specs.View.{members_view};
ghost use Rattle.sm_model.specs.SaidView.{traits_of, traits_view};
ghost use Rattle.sm_ast.specs.Layout.{traits_name};
ghost use Rattle.sm_tree.specs.Parts.{tree_named};
ghost use Rattle.sm_ast.specs.steps.Saying.{traits_said, traits_there};

use super::node::raw_node;
use super::reference::absolute;
use crate::part::pairs_or_none;
use sm_model::{TraitUse, TraitUses};
use sm_tree::{NoMemory, Text, Tree, tree_under};
use std::alloc::Global;

/// The traits of a shape or member with these pairs.
pub(crate) fn traits_under(alloc: Global, pairs: &[(Text, Tree)]) -> Result<TraitUses, NoMemory>
    requires { AreJsonMembers (members_of (members_view pairs.now)) }
    ensures { IfOk result (λ ts. traits_of ts ≡ traits_there (tree_named traits_name (members_of (members_view pairs.now)))) }
{
    match tree_under(pairs, "traits") {
        Some(tree) => Ok(TraitUses::new(trait_uses(alloc, pairs_or_none(tree))?)),
        None => Ok(TraitUses::new(Vec::new(alloc))),
    }
}

fn trait_uses(alloc: Global, pairs: &[(Text, Tree)]) -> Result<Vec<TraitUse>, NoMemory>
    requires { AreJsonMembers (members_of (members_view pairs.now)) }
    ensures { IfOk result (λ ts. traits_view ts.items ≡ traits_said (members_of (members_view pairs.now))) }
{
    let mut uses = Vec::new(alloc);
    for pair in pairs {
        let id = absolute(alloc, pair.0.as_str(), true)?;
        let value = raw_node(alloc, &pair.1)?;
        uses.push(TraitUse { id, value })?;
    }
    Ok(uses)
}
