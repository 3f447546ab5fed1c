// Nodes, the values of traits and of metadata: no name stands twice in any of their objects.
ghost use Rattle.std.specs.Prelude.{[]};
ghost use Rattle.sm_tree.specs.Node.{nodes_of, members_of};
ghost use Rattle.sm_tree.specs.View.{node_of, nodes_view, members_view};
ghost use Rattle.sm_ast.specs.Faults.{members_fault, node_fault, nodes_fault};
ghost use Rattle.sm_ast.specs.steps.Checks.{Checks};

use crate::names::stands_again;
use crate::refusal::AstRefusal;
use sm_tree::{Text, Tree};
use std::alloc::Global;
use std::collections::BTreeSet;

/// A node.
#[cycle(check)]
pub(crate) fn check_node(alloc: Global, tree: &Tree) -> Result<(), AstRefusal>
    ensures { Checks (node_fault (node_of tree.now)) result }
{
    match tree {
        Tree::List(items) => check_nodes(alloc, items.as_slice()),
        Tree::Object(pairs) => check_members(alloc, pairs.as_slice()),
        _ => Ok(()),
    }
}

#[cycle(check)]
fn check_nodes(alloc: Global, items: &[Tree]) -> Result<(), AstRefusal>
    ensures { Checks (nodes_fault 0 (nodes_of (nodes_view items.now))) result }
{
    let mut at: u64 = 0;
    for item in items {
        match check_node(alloc, item) {
            Ok(()) => {}
            Err(refusal) => return Err(refusal.under_index(at)),
        }
        at += 1;
    }
    Ok(())
}

/// The pairs of an object.
#[cycle(check)]
pub(crate) fn check_members(alloc: Global, pairs: &[(Text, Tree)]) -> Result<(), AstRefusal>
    ensures { Checks (members_fault [] (members_of (members_view pairs.now))) result }
{
    let mut seen: BTreeSet<&str> = BTreeSet::new(alloc);
    for pair in pairs {
        if stands_again(&mut seen, pair.0.as_str())? {
            return Err(AstRefusal::field(alloc).under_key(alloc, &pair.0));
        }
        match check_node(alloc, &pair.1) {
            Ok(()) => {}
            Err(refusal) => return Err(refusal.under_key(alloc, &pair.0)),
        }
    }
    Ok(())
}
