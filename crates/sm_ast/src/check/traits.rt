// Traits: an object of nodes under their ids.
ghost use Rattle.sm_tree.specs.View.{node_of};
ghost use Rattle.sm_ast.specs.Faults.{traits_fault};
ghost use Rattle.sm_ast.specs.steps.Checks.{Checks};

use super::node::check_node;
use super::pairs::{PairRule, check_pairs};
use crate::id::is_shape_id;
use crate::refusal::AstRefusal;
use sm_tree::{Text, Tree, pairs_of};
use std::alloc::Global;

#[derive(Drop)]
struct IsTrait;

impl PairRule for IsTrait {
    ghost use Rattle.sm_ast.specs.Faults.{trait_fault};

    ghost fault = { λ _ k n. trait_fault k n };

    fn check(&self, alloc: Global, name: &Text, tree: &Tree) -> Result<(), AstRefusal> {
        if is_shape_id(name.as_str()) {
            check_node(alloc, tree)
        } else {
            Err(AstRefusal::bad_id(alloc))
        }
    }
}

/// The traits of a shape or member.
pub(crate) fn check_traits(alloc: Global, tree: &Tree) -> Result<(), AstRefusal>
    ensures { Checks (traits_fault (node_of tree.now)) result }
{
    match pairs_of(tree) {
        Some(pairs) => check_pairs(alloc, &IsTrait, pairs),
        None => Err(AstRefusal::wrong_type(alloc)),
    }
}
