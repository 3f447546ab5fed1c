// Numbers of a graph that pass a test, as marks.
ghost use Rattle.std.specs.Prelude.{◌≡◌, ℕ, Bool, List, IfOk, length, true};
ghost use Rattle.sm_model.specs.GraphView.{IsShapeNumber, entries_of, maps_of};
ghost use Rattle.sm_model.specs.Graphs.{GraphMaps};
ghost use Rattle.sm_model.specs.Reaching.{AreMarks, id_of_number};

use sm_model::Graph;
use sm_tree::NoMemory;
use std::alloc::Global;

/// A test of what stands at a number.
pub trait NumberTest {
    ghost passes: { Self → GraphMaps → List ℕ → Bool };

    /// Whether it passes.
    fn passes(&self, graph: &Graph, number: u32) -> bool
        requires { IsShapeNumber graph.now number }
        ensures { result ≡ passes self.now (maps_of graph.now) (id_of_number graph.now number) };
}

/// The numbers that pass, as marks.
pub fn marked_where<T: NumberTest>(
    alloc: Global,
    graph: &Graph,
    test: &T,
) -> Result<Vec<bool>, NoMemory>
    ensures { IfOk result (λ marks. AreMarks (length (entries_of graph.now))
        (λ k. T.passes test.now (maps_of graph.now) (id_of_number graph.now k) ≡ true) marks.items) }
{
    let mut marks = Vec::with_capacity(alloc, graph.count() as usize)?;
    for number in 0..graph.count() {
        marks.push(test.passes(graph, number))?;
    }
    Ok(marks)
}
