// Which shapes and members of a graph stand as traits at some shape or member, as marks.
ghost use Rattle.std.specs.Prelude.{◌≡◌, ◌<◌, IfOk, length};
ghost use Rattle.sm_model.specs.GraphView.{entries_of};
ghost use Rattle.sm_model.specs.Reaching.{IsMarked};
ghost use Rattle.sm_model.specs.Joins.{Joins};
ghost use Rattle.sm_trait_rules.specs.steps.Placing.{IsNamed, IsNamedOf};
ghost use Rattle.sm_value_rules.specs.Used.{AreUsed};

use sm_model::{Graph, no_marks};
use sm_tree::{NoMemory, Text, Tree};
use std::alloc::Global;

/// The numbers of all that stands as a trait somewhere, as marks. n log n.
pub(crate) fn used_traits(alloc: Global, graph: &Graph) -> Result<Vec<bool>, NoMemory>
    ensures { IfOk result (λ marks. AreUsed graph.now marks.items) }
{
    let mut marks = no_marks(alloc, graph.count() as usize)?;
    for number in 0..graph.count() {
        mark_traits(graph, graph.traits(number), &mut marks);
    }
    Ok(marks)
}

// Marks the numbers of these traits.
fn mark_traits(graph: &Graph, traits: &[(Text, Tree)], marks: &mut Vec<bool>)
    requires { length marks.old.items ≡ length (entries_of graph.now) }
    ensures count { length marks.new.items ≡ length marks.old.items }
    ensures named { Joins (IsMarked marks.old.items) (IsNamedOf graph.now traits.now) (IsMarked marks.new.items) }
{
    for pair in traits {
        mark_named(graph, pair.0.as_str(), marks);
    }
}

// Marks the number of an id, where the graph has it.
fn mark_named(graph: &Graph, name: &str, marks: &mut Vec<bool>)
    requires { length marks.old.items ≡ length (entries_of graph.now) }
    ensures count { length marks.new.items ≡ length marks.old.items }
    ensures named { Joins (IsMarked marks.old.items) (IsNamed graph.now name.now) (IsMarked marks.new.items) }
{
    match graph.number(name) {
        Some(number) => mark(marks, number),
        None => {}
    }
}

fn mark(marks: &mut Vec<bool>, number: u32)
    requires { number < length marks.old.items }
    ensures count { length marks.new.items ≡ length marks.old.items }
    ensures marked { Joins (IsMarked marks.old.items) (λ k. number ≡ k) (IsMarked marks.new.items) }
{
    marks[number as usize] = true;
}
