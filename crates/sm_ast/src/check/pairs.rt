// Pairs of an object, each judged by a rule. A name that comes again is refused before its value is looked at.
ghost use Rattle.std.specs.Prelude.{◌≡◌, ℕ, List, [], map, Option};
ghost use Rattle.sm_tree.specs.Node.{Node, members_of};
ghost use Rattle.sm_tree.specs.View.{node_of, members_view};
ghost use Rattle.sm_ast.specs.Faults.{AstFault, are_there, field, names_of, object_fault, pairs_fault, stands_in};
ghost use Rattle.sm_ast.specs.steps.Checks.{Checks};

use crate::names::stands_again;
use crate::refusal::AstRefusal;
use sm_tree::{Text, Tree, tree_under};
use std::alloc::Global;
use std::collections::BTreeSet;

/// What an object asks of each of its pairs.
pub(crate) trait PairRule {
    ghost fault: { Self → List ℕ → Node → Option AstFault };

    /// No fault at this pair or in it, or the first.
    fn check(&self, alloc: Global, name: &Text, tree: &Tree) -> Result<(), AstRefusal>
        ensures { Checks (fault self.now name.now (node_of tree.now)) result };
}

/// The pairs, in their order.
pub(crate) fn check_pairs<R: PairRule>(
    alloc: Global,
    rule: &R,
    pairs: &[(Text, Tree)],
) -> Result<(), AstRefusal>
    ensures { Checks (pairs_fault (R.fault rule.now) [] (members_of (members_view pairs.now))) result }
{
    let mut seen: BTreeSet<&str> = BTreeSet::new(alloc);
    for pair in pairs {
        if stands_again(&mut seen, pair.0.as_str())? {
            return Err(AstRefusal::field(alloc).under_key(alloc, &pair.0));
        }
        match rule.check(alloc, &pair.0, &pair.1) {
            Ok(()) => {}
            Err(refusal) => return Err(refusal.under_key(alloc, &pair.0)),
        }
    }
    Ok(())
}

/// The pairs, in their order, and then whether each wanted name stands among them.
#[tactic(auto, using(crate::proofs::Telling::tells_first))]
pub(crate) fn check_object<R: PairRule>(
    alloc: Global,
    rule: &R,
    wanted: &[&str],
    pairs: &[(Text, Tree)],
) -> Result<(), AstRefusal>
    ensures { Checks (object_fault (R.fault rule.now) (map (λ k. k.now) wanted.now) (members_of (members_view pairs.now))) result }
{
    match check_pairs(alloc, rule, pairs) {
        Ok(()) => {
            if are_named(wanted, pairs) {
                Ok(())
            } else {
                Err(AstRefusal::field(alloc))
            }
        }
        Err(refusal) => Err(refusal),
    }
}

fn are_named(wanted: &[&str], pairs: &[(Text, Tree)]) -> bool
    ensures { result ≡ are_there (map (λ k. k.now) wanted.now) (names_of (members_of (members_view pairs.now))) }
{
    for name in wanted {
        if !is_named(name, pairs) {
            return false;
        }
    }
    true
}

fn is_named(name: &str, pairs: &[(Text, Tree)]) -> bool
    ensures { result ≡ stands_in name.now (names_of (members_of (members_view pairs.now))) }
{
    match tree_under(pairs, name) {
        Some(_) => true,
        None => false,
    }
}
