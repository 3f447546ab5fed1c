// Which shapes of a graph are known to be served before any walk goes: those that lead to none that isn't.
ghost use Rattle.std.specs.Prelude.{◌≡◌, ◌<◌, ◌↔◌, IfOk, IsTrue, false, get_or, length};
ghost use Rattle.sm_model.specs.GraphView.{entries_of, maps_of};
ghost use Rattle.sm_model.specs.Reaching.{AreMarks, id_of_number};
ghost use Rattle.sm_compile.specs.Served.{IsUnserved};
ghost use Rattle.sm_compile.specs.WayRooms.{AreKnownServed};
ghost use Rattle.sm_select.specs.Ways.{AreWays};

use sm_compile::is_unserved;
use sm_model::Graph;
use sm_select::{Ways, image_of_walk};
use sm_tree::NoMemory;
use std::alloc::Global;

/// The shapes from which no link leads to one that isn't served, as marks of all numbers. Each link is taken once.
pub(crate) fn known_served(alloc: Global, graph: &Graph, ways: &Ways) -> Result<Vec<bool>, NoMemory>
    requires { AreWays graph.now ways.now }
    ensures { IfOk result (λ known. AreKnownServed graph.now known.items) }
{
    let unserved = unserved_marks(alloc, graph)?;
    let leading = image_of_walk(alloc, graph, ways, true, unserved.as_slice())?;
    neither_marked(alloc, unserved.as_slice(), leading.as_slice())
}

// The shapes that aren't served by themselves.
fn unserved_marks(alloc: Global, graph: &Graph) -> Result<Vec<bool>, NoMemory>
    ensures { IfOk result (λ marks. AreMarks (length (entries_of graph.now))
        (λ k. IsUnserved (maps_of graph.now) (id_of_number graph.now k)) marks.items) }
{
    let mut marks = Vec::with_capacity(alloc, graph.count() as usize)?;
    for number in 0..graph.count() {
        marks.push(is_unserved(graph, number))?;
    }
    Ok(marks)
}

// The numbers that are marked in neither.
fn neither_marked(alloc: Global, some: &[bool], others: &[bool]) -> Result<Vec<bool>, NoMemory>
    requires { length some.now ≡ length others.now }
    ensures { IfOk result (λ marks. AreMarks (length some.now)
        (λ k. (get_or some.now k false ≡ false) × (get_or others.now k false ≡ false)) marks.items) }
{
    let mut marks = Vec::with_capacity(alloc, some.len())?;
    for number in 0..some.len() {
        marks.push(is_neither(some, others, number))?;
    }
    Ok(marks)
}

fn is_neither(some: &[bool], others: &[bool], number: usize) -> bool
    requires some { number < length some.now }
    requires others { number < length others.now }
    ensures { IsTrue result ↔ ((get_or some.now number false ≡ false) × (get_or others.now number false ≡ false)) }
{
    if some[number] { false } else { !others[number] }
}
