// Objects of `shapes`: a shape by its type, under the id of a shape, or, where traits are applied, of a member.
ghost use Rattle.std.specs.Prelude.{◌≡◌, []};
ghost use Rattle.sm_tree.specs.Node.{members_of};
ghost use Rattle.sm_tree.specs.View.{node_of, members_view};
ghost use Rattle.sm_ast.specs.Faults.{is_apply, is_shape_key, pairs_fault, shape_fault, shape_pairs_fault, shape_value_fault};
ghost use Rattle.sm_tree.specs.Parts.{tree_named};
ghost use Rattle.sm_ast.specs.Layout.{type_name};
ghost use Rattle.sm_ast.specs.steps.Checks.{Checks};

use super::field::check_fields;
use super::node::check_members;
use super::pairs::{PairRule, check_pairs};
use crate::id::is_shape_id;
use crate::layout::type_of;
use crate::part::says;
use crate::refusal::AstRefusal;
use sm_ids::has_member;
use sm_tree::{Text, Tree, pairs_of, tree_under};
use std::alloc::Global;

#[derive(Drop)]
struct IsShape;

impl PairRule for IsShape {
    ghost use Rattle.sm_ast.specs.Faults.{shape_fault};

    ghost fault = { λ _ k n. shape_fault k n };

    fn check(&self, alloc: Global, name: &Text, tree: &Tree) -> Result<(), AstRefusal> {
        if may_be_key(name.as_str(), tree) {
            check_shape(alloc, tree)
        } else {
            Err(AstRefusal::bad_id(alloc))
        }
    }
}

/// The pairs of `shapes`.
pub(crate) fn check_shapes(alloc: Global, pairs: &[(Text, Tree)]) -> Result<(), AstRefusal>
    ensures { Checks (pairs_fault shape_fault [] (members_of (members_view pairs.now))) result }
{
    check_pairs(alloc, &IsShape, pairs)
}

fn may_be_key(name: &str, tree: &Tree) -> bool
    ensures { result ≡ is_shape_key name.now (node_of tree.now) }
{
    is_shape_id(name) && (!has_member(name) || applies(tree))
}

// Whether a tree is an object that applies traits.
fn applies(tree: &Tree) -> bool
    ensures { result ≡ is_apply (node_of tree.now) }
{
    match pairs_of(tree) {
        Some(pairs) => match tree_under(pairs, "type") {
            Some(named) => says(named, "apply"),
            None => false,
        },
        None => false,
    }
}

fn check_shape(alloc: Global, tree: &Tree) -> Result<(), AstRefusal>
    ensures { Checks (shape_value_fault (node_of tree.now)) result }
{
    match pairs_of(tree) {
        Some(pairs) => check_shape_pairs(alloc, pairs),
        None => Err(AstRefusal::wrong_type(alloc)),
    }
}

fn check_shape_pairs(alloc: Global, pairs: &[(Text, Tree)]) -> Result<(), AstRefusal>
    ensures { Checks (shape_pairs_fault (tree_named type_name (members_of (members_view pairs.now)))
        (members_of (members_view pairs.now))) result }
{
    match tree_under(pairs, "type") {
        Some(named) => match type_of(named) {
            Some(shape_type) => check_fields(alloc, shape_type, pairs),
            None => Err(AstRefusal::wrong_type(alloc)),
        },
        None => match check_members(alloc, pairs) {
            Ok(()) => Err(AstRefusal::field(alloc)),
            Err(refusal) => Err(refusal),
        },
    }
}
