// The top object: `smithy`, and what may stand beside it.
ghost use Rattle.std.specs.Prelude.{[]};
ghost use Rattle.sm_tree.specs.View.{node_of};
ghost use Rattle.sm_ast.specs.Faults.{ast_fault, is_version, members_fault, of_object, pairs_fault, shape_fault, unless, version};
ghost use Rattle.sm_ast.specs.steps.Checks.{Checks};

use super::node::check_members;
use super::pairs::{PairRule, check_object};
use super::shape::check_shapes;
use crate::part::says;
use crate::refusal::AstRefusal;
use sm_tree::{Text, Tree, pairs_of};
use std::alloc::Global;

#[derive(Drop)]
struct IsTopPair;

impl PairRule for IsTopPair {
    ghost use Rattle.sm_ast.specs.Faults.{top_fault};

    ghost fault = { λ _ k n. top_fault k n };

    fn check(&self, alloc: Global, name: &Text, tree: &Tree) -> Result<(), AstRefusal> {
        match name.as_str() {
            "smithy" => check_version(tree),
            "metadata" => check_metadata(alloc, tree),
            "shapes" => check_shapes_object(alloc, tree),
            _ => Err(AstRefusal::field(alloc)),
        }
    }
}

fn check_version(tree: &Tree) -> Result<(), AstRefusal>
    ensures { Checks (unless (is_version (node_of tree.now)) version) result }
{
    if says(tree, "2.0") || says(tree, "2") {
        Ok(())
    } else {
        Err(AstRefusal::Version)
    }
}

fn check_metadata(alloc: Global, tree: &Tree) -> Result<(), AstRefusal>
    ensures { Checks (of_object (members_fault []) (node_of tree.now)) result }
{
    match pairs_of(tree) {
        Some(pairs) => check_members(alloc, pairs),
        None => Err(AstRefusal::wrong_type(alloc)),
    }
}

fn check_shapes_object(alloc: Global, tree: &Tree) -> Result<(), AstRefusal>
    ensures { Checks (of_object (pairs_fault shape_fault []) (node_of tree.now)) result }
{
    match pairs_of(tree) {
        Some(pairs) => check_shapes(alloc, pairs),
        None => Err(AstRefusal::wrong_type(alloc)),
    }
}

/// A whole tree.
pub(crate) fn check_model(alloc: Global, tree: &Tree) -> Result<(), AstRefusal>
    ensures { Checks (ast_fault (node_of tree.now)) result }
{
    match pairs_of(tree) {
        Some(pairs) => check_object(alloc, &IsTopPair, &["smithy"], pairs),
        None => Err(AstRefusal::wrong_type(alloc)),
    }
}
