// Where one step or more lead to from a set of numbers.
ghost use Rattle.std.specs.Prelude.{◌≡◌, ◌<◌, ◌^◌, IfOk, OnOk, length};
ghost use Rattle.sm_model.specs.Reaching.{AreFound, Finds};
ghost use Rattle.sm_select.specs.Neighbors.{AreReached, HasStep, StayBelow};
ghost use Rattle.sm_select.specs.steps.Reaching.{StepsFrom, StepsFromStart};

use crate::neighbors::Neighbors;
use sm_model::{Steps, mark_all, no_marks, spread};
use sm_tree::NoMemory;
use std::alloc::Global;

/// The numbers to which one step or more lead from a start, as marks. The steps from each number are looked at once or twice.
/// `NoMemory` where the marks and the worklist find no room.
pub fn reached(alloc: Global, neighbors: &Neighbors, starts: &[bool]) -> Result<Vec<bool>, NoMemory>
    requires count { length starts.now ≡ length neighbors.now }
    requires few { length neighbors.now < 2 ^ 32 }
    requires below { StayBelow (length neighbors.now) neighbors.now }
    ensures count { IfOk result (λ marks. length marks.items ≡ length neighbors.now) }
    ensures marked { IfOk result (λ marks. AreReached neighbors.now starts.now marks.items) }
{
    let mut marks = no_marks(alloc, starts.len())?;
    let mut found = Vec::new(alloc);
    visit_starts(neighbors, starts, &mut marks, &mut found)?;
    spread(neighbors, &mut marks, &mut found)?;
    Ok(marks)
}

// Finds what a step leads to from each start.
fn visit_starts(
    neighbors: &Neighbors,
    starts: &[bool],
    marks: &mut Vec<bool>,
    found: &mut Vec<u32>,
) -> Result<(), NoMemory>
    requires count { length starts.now ≡ length neighbors.now }
    requires few { length neighbors.now < 2 ^ 32 }
    requires marks { length marks.old.items ≡ length neighbors.now }
    requires below { StayBelow (length neighbors.now) neighbors.now }
    requires are { AreFound marks.old.items found.old.items }
    ensures { OnOk result
        (Finds (StepsFrom neighbors.now starts.now (length starts.now)) marks.old.items found.old.items marks.new.items found.new.items) }
{
    for number in 0..starts.len() as u32 {
        visit_start(neighbors, starts, number, marks, found)?;
    }
    Ok(())
}

// Finds what a step leads to from a number, where it is a start.
fn visit_start(
    neighbors: &Neighbors,
    starts: &[bool],
    number: u32,
    marks: &mut Vec<bool>,
    found: &mut Vec<u32>,
) -> Result<(), NoMemory>
    requires count { length starts.now ≡ length neighbors.now }
    requires within { number < length starts.now }
    requires marks { length marks.old.items ≡ length neighbors.now }
    requires below { StayBelow (length neighbors.now) neighbors.now }
    requires are { AreFound marks.old.items found.old.items }
    ensures { OnOk result
        (Finds (StepsFromStart neighbors.now starts.now number) marks.old.items found.old.items marks.new.items found.new.items) }
{
    if starts[number as usize] {
        neighbors.visit(number, marks, found)
    } else {
        Ok(())
    }
}

impl Steps for Neighbors {
    ghost leads = { λ rows. HasStep rows };

    ghost bound = { λ rows. length rows };

    ghost keeps = { λ rows. StayBelow (length rows) rows };

    fn visit(
        &self,
        number: u32,
        marks: &mut Vec<bool>,
        found: &mut Vec<u32>,
    ) -> Result<(), NoMemory> {
        mark_all(self.row(number), marks, found)
    }
}
