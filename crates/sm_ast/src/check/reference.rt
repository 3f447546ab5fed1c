// References: an object of one pair, `target`; lists of them, and objects.
ghost use Rattle.sm_tree.specs.Node.{nodes_of};
ghost use Rattle.sm_tree.specs.View.{node_of, nodes_view};
ghost use Rattle.sm_ast.specs.Faults.{entries_fault, named_references_fault, reference_fault, references_fault, target_fault};
ghost use Rattle.sm_ast.specs.steps.Checks.{Checks};

use super::pairs::{PairRule, check_object, check_pairs};
use super::text::check_id;
use crate::refusal::AstRefusal;
use sm_tree::{Text, Tree, entries_of, pairs_of};
use std::alloc::Global;

/// A pair of a reference is its target.
#[derive(Drop)]
pub(crate) struct IsTarget;

impl PairRule for IsTarget {
    ghost use Rattle.sm_ast.specs.Faults.{target_fault};

    ghost fault = { λ _ k n. target_fault k n };

    fn check(&self, alloc: Global, name: &Text, tree: &Tree) -> Result<(), AstRefusal> {
        check_target(alloc, name.as_str(), tree)
    }
}

/// A pair that has to be a target.
pub(crate) fn check_target(alloc: Global, name: &str, tree: &Tree) -> Result<(), AstRefusal>
    ensures { Checks (target_fault name.now (node_of tree.now)) result }
{
    if name == "target" {
        check_id(alloc, tree)
    } else {
        Err(AstRefusal::field(alloc))
    }
}

/// A reference.
pub(crate) fn check_reference(alloc: Global, tree: &Tree) -> Result<(), AstRefusal>
    ensures { Checks (reference_fault (node_of tree.now)) result }
{
    match pairs_of(tree) {
        Some(pairs) => check_object(alloc, &IsTarget, &["target"], pairs),
        None => Err(AstRefusal::wrong_type(alloc)),
    }
}

/// A list of references.
pub(crate) fn check_references(alloc: Global, tree: &Tree) -> Result<(), AstRefusal>
    ensures { Checks (references_fault (node_of tree.now)) result }
{
    match entries_of(tree) {
        Some(entries) => check_entries(alloc, entries),
        None => Err(AstRefusal::wrong_type(alloc)),
    }
}

fn check_entries(alloc: Global, entries: &[Tree]) -> Result<(), AstRefusal>
    ensures { Checks (entries_fault reference_fault 0 (nodes_of (nodes_view entries.now))) result }
{
    let mut at: u64 = 0;
    for entry in entries {
        match check_reference(alloc, entry) {
            Ok(()) => {}
            Err(refusal) => return Err(refusal.under_index(at)),
        }
        at += 1;
    }
    Ok(())
}

/// References, under any names.
#[derive(Drop)]
struct IsReference;

impl PairRule for IsReference {
    ghost use Rattle.sm_ast.specs.Faults.{reference_fault};

    ghost fault = { λ _ _ n. reference_fault n };

    fn check(&self, alloc: Global, _name: &Text, tree: &Tree) -> Result<(), AstRefusal> {
        check_reference(alloc, tree)
    }
}

/// An object of references.
pub(crate) fn check_named_references(alloc: Global, tree: &Tree) -> Result<(), AstRefusal>
    ensures { Checks (named_references_fault (node_of tree.now)) result }
{
    match pairs_of(tree) {
        Some(pairs) => check_pairs(alloc, &IsReference, pairs),
        None => Err(AstRefusal::wrong_type(alloc)),
    }
}
