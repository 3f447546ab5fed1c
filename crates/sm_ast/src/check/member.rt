// Members: a reference that may have traits, and objects of members under identifiers.
ghost use Rattle.sm_tree.specs.View.{node_of};
ghost use Rattle.sm_ast.specs.Faults.{member_fault, named_members_fault};
ghost use Rattle.sm_ast.specs.steps.Checks.{Checks};

use super::pairs::{PairRule, check_object, check_pairs};
use super::reference::check_target;
use super::traits::check_traits;
use crate::id::is_name;
use crate::refusal::AstRefusal;
use sm_tree::{Text, Tree, pairs_of};
use std::alloc::Global;

#[derive(Drop)]
struct IsPartOfMember;

impl PairRule for IsPartOfMember {
    ghost use Rattle.sm_ast.specs.Faults.{part_of_member_fault};

    ghost fault = { λ _ k n. part_of_member_fault k n };

    fn check(&self, alloc: Global, name: &Text, tree: &Tree) -> Result<(), AstRefusal> {
        if name.as_str() == "traits" {
            check_traits(alloc, tree)
        } else {
            check_target(alloc, name.as_str(), tree)
        }
    }
}

/// A member.
pub(crate) fn check_member(alloc: Global, tree: &Tree) -> Result<(), AstRefusal>
    ensures { Checks (member_fault (node_of tree.now)) result }
{
    match pairs_of(tree) {
        Some(pairs) => check_object(alloc, &IsPartOfMember, &["target"], pairs),
        None => Err(AstRefusal::wrong_type(alloc)),
    }
}

#[derive(Drop)]
struct IsNamedMember;

impl PairRule for IsNamedMember {
    ghost use Rattle.sm_ast.specs.Faults.{named_member_fault};

    ghost fault = { λ _ k n. named_member_fault k n };

    fn check(&self, alloc: Global, name: &Text, tree: &Tree) -> Result<(), AstRefusal> {
        if is_name(name.as_str()) {
            check_member(alloc, tree)
        } else {
            Err(AstRefusal::bad_id(alloc))
        }
    }
}

/// An object of members.
pub(crate) fn check_named_members(alloc: Global, tree: &Tree) -> Result<(), AstRefusal>
    ensures { Checks (named_members_fault (node_of tree.now)) result }
{
    match pairs_of(tree) {
        Some(pairs) => check_pairs(alloc, &IsNamedMember, pairs),
        None => Err(AstRefusal::wrong_type(alloc)),
    }
}
