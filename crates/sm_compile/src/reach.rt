// What is reached by members and targets, by number; and marks that are taken back.
ghost use Rattle.std.specs.Prelude.{◌≡◌, ◌↔◌, ℕ, IfOk, false, length, replicate};
ghost use Rattle.std.specs.List.{Contains};
ghost use Rattle.sm_model.specs.GraphView.{AreShapeNumbers, entries_of};
ghost use Rattle.sm_model.specs.Reaching.{AreMarks, IsMarked, id_of_number};
ghost use Rattle.sm_compile.specs.steps.Looked.{IsReachedFrom, LeadsByNumber};

use crate::look::{members_of, target_of};
use sm_model::{Graph, Steps, mark, mark_all, no_marks, spread};
use sm_tree::NoMemory;
use std::alloc::Global;

// The steps of a graph from a shape to its members and from a member to its target.
#[derive(Drop)]
struct MemberSteps<'a> {
    graph: &'a Graph,
}

impl Steps for MemberSteps<'_> {
    ghost leads = { λ steps. LeadsByNumber steps.graph.now };

    ghost bound = { λ steps. length (entries_of steps.graph.now) };

    ghost keeps = { λ steps. Unit {0} };

    fn visit(
        &self,
        number: u32,
        marks: &mut Vec<bool>,
        found: &mut Vec<u32>,
    ) -> Result<(), NoMemory> {
        match target_of(self.graph, number) {
            Some(target) => mark(target, marks, found),
            None => mark_all(members_of(self.graph, number), marks, found),
        }
    }
}

/// The numbers that are reached from some of these, which are reached too, as marks. `NoMemory` where memory is
/// refused. n log n in what is reached.
pub(crate) fn reached(alloc: Global, graph: &Graph, roots: &[u32]) -> Result<Vec<bool>, NoMemory>
    requires { AreShapeNumbers graph.now roots.now }
    ensures { IfOk result (λ marks. AreMarks (length (entries_of graph.now))
        (λ k. IsReachedFrom graph.now roots.now (id_of_number graph.now k)) marks.items) }
{
    let mut marks = no_marks(alloc, graph.count() as usize)?;
    let mut found = Vec::new(alloc);
    mark_all(roots, &mut marks, &mut found)?;
    spread(&MemberSteps { graph }, &mut marks, &mut found)?;
    Ok(marks)
}

/// Takes back the marks of these numbers, which are all that are marked. No memory.
pub fn unmark_all(numbers: &[u32], marks: &mut Vec<bool>)
    requires { (k : ℕ) → Contains numbers.now k ↔ IsMarked marks.old.items k }
    ensures { marks.new.items ≡ replicate (length marks.old.items) false }
{
    for number in numbers {
        marks[*number as usize] = false;
    }
}
