// Nodes checked for shapes: one table of all shapes that a pass asks for, with the defaults that count.
ghost use Rattle.std.specs.Prelude.{ℕ, IfOk};
ghost use Rattle.std.specs.List.{Contains};
ghost use Rattle.sm_tree.specs.View.{node_of};
ghost use Rattle.sm_shapes.specs.AnyStore.{any_texts, no_refusals, none_refused};
ghost use Rattle.sm_shapes.specs.Fitting.{any_text};
ghost use Rattle.sm_compile.specs.Answers.{seen_store};
ghost use Rattle.sm_compile.specs.Roots.{IsTableOfRoots};
ghost use Rattle.sm_value_rules.specs.steps.Nodes.{IsCheckedNumber, IsNodeTable, IsReady, IsSameTable, TellsRow};

use sm_codec::{NodeLeaves, Refusal, decode, fill_defaults};
use sm_compile::{Tabled, compile_roots, row_at};
use sm_model::Graph;
use sm_shapes::{AnyPatterns, FaultKind};
use sm_tree::{NoMemory, Tree};
use std::alloc::Global;

/// A table of shapes for which nodes are checked, and of all that they reach.
#[derive(Drop)]
pub(crate) struct NodeTable {
    // The table, and the numbers of its shapes in the graph.
    tabled: Tabled,
    // Its patterns, of which none is applied.
    patterns: AnyPatterns,
}

impl NodeTable {
    /// The table of these shapes. n log n in what they reach.
    pub(crate) fn new(alloc: Global, graph: &Graph, roots: &[u32]) -> Result<Self, NoMemory>
        requires { (k : ℕ) → Contains roots.now k → IsCheckedNumber graph.now k }
        ensures { IfOk result (λ nodes. IsNodeTable graph.now (Contains roots.now) nodes) }
    {
        let mut patterns = AnyPatterns::new(alloc);
        let mut tabled = table_of(alloc, graph, roots, &mut patterns)?;
        fill_defaults(alloc, &mut tabled.table, &mut patterns)?;
        Ok(NodeTable { tabled, patterns })
    }

    /// The kind of the first fault of a node for a shape of the table.
    pub(crate) fn first_fault(
        &mut self,
        alloc: Global,
        root: u32,
        tree: &Tree,
    ) -> Result<Option<FaultKind>, NoMemory>
        requires ready { IsReady self.old }
        requires there { Contains self.old.tabled.shapes.items root }
        ensures told { IfOk result (λ found. TellsRow self.old.tabled root (node_of tree.now) found) }
        ensures same { IsSameTable self.old self.new }
    {
        let row = row_at(self.tabled.shapes.as_slice(), root);
        let leaves = NodeLeaves { raw_blobs: false };
        match decode(
            alloc,
            &self.tabled.table,
            row,
            tree,
            &leaves,
            &mut self.patterns,
        ) {
            Ok(_) => Ok(None),
            Err(refusal) => match refusal {
                Refusal::Fault(fault) => Ok(Some(fault.kind)),
                Refusal::NoMemory => Err(NoMemory),
            },
        }
    }
}

// The table of these shapes, without defaults. No pattern is refused.
fn table_of(
    alloc: Global,
    graph: &Graph,
    roots: &[u32],
    patterns: &mut AnyPatterns,
) -> Result<Tabled, NoMemory>
    requires { (k : ℕ) → Contains roots.now k → IsCheckedNumber graph.now k }
    ensures { IfOk result (λ made. IsTableOfRoots graph.now roots.now any_text
        (seen_store (any_texts patterns.old) (none_refused patterns.old) (no_refusals patterns.old))
        (seen_store (any_texts patterns.new) (none_refused patterns.new) (no_refusals patterns.new)) made) }
{
    match compile_roots(alloc, graph, roots, patterns) {
        Ok(tabled) => Ok(tabled),
        Err(_) => Err(NoMemory),
    }
}
