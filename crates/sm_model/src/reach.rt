// Sets of numbers as marks, and a worklist over them: where no step or more lead to from some numbers, over any steps.
ghost use Rattle.std.specs.Prelude.{◌≡◌, ◌<◌, ℕ, IfOk, OnOk, false, get_or, length, replicate};
ghost use Rattle.std.specs.List.{Contains};
ghost use Rattle.sm_model.specs.Reaching.{AreFound, AreLedTo, Finds};

use sm_tree::NoMemory;
use std::alloc::Global;

/// Steps between numbers.
pub trait Steps {
    /// A step leads from one number to another.
    ghost leads: { Self → ℕ → ℕ → Type 0 };
    /// Steps lead between numbers below this one.
    ghost bound: { Self → ℕ };
    /// What else is asked of the steps.
    ghost keeps: { Self → Type 0 };

    /// Marks each number that a step leads to from this one, and appends those that weren't found before. `NoMemory` where they
    /// find no room.
    fn visit(
        &self,
        number: u32,
        marks: &mut Vec<bool>,
        found: &mut Vec<u32>,
    ) -> Result<(), NoMemory>
        requires steps { keeps self.now }
        requires within { number < bound self.now }
        requires marks { length marks.old.items ≡ bound self.now }
        requires are { AreFound marks.old.items found.old.items }
        ensures { OnOk result
            (Finds (leads self.now number) marks.old.items found.old.items marks.new.items found.new.items) };
}

/// So many numbers without marks.
pub fn no_marks(alloc: Global, count: usize) -> Result<Vec<bool>, NoMemory>
    ensures { IfOk result (λ marks. marks.items ≡ replicate count false) }
{
    let mut marks = Vec::with_capacity(alloc, count)?;
    for _ in 0..count {
        marks.push(false)?;
    }
    Ok(marks)
}

/// Whether a number is marked; one behind the marks isn't. No memory.
pub fn mark_at(marks: &[bool], number: u32) -> bool
    ensures { result ≡ get_or marks.now number false }
{
    match marks.get(number as usize) {
        Some(mark) => *mark,
        None => false,
    }
}

/// Marks these numbers, and appends those that weren't found before.
pub fn mark_all(
    numbers: &[u32],
    marks: &mut Vec<bool>,
    found: &mut Vec<u32>,
) -> Result<(), NoMemory>
    requires within { (k : ℕ) → Contains numbers.now k → k < length marks.old.items }
    requires are { AreFound marks.old.items found.old.items }
    ensures { OnOk result
        (Finds (Contains numbers.now) marks.old.items found.old.items marks.new.items found.new.items) }
{
    for number in numbers {
        mark(*number, marks, found)?;
    }
    Ok(())
}

/// Marks a number, and appends it where it wasn't found before.
pub fn mark(number: u32, marks: &mut Vec<bool>, found: &mut Vec<u32>) -> Result<(), NoMemory>
    requires within { number < length marks.old.items }
    requires are { AreFound marks.old.items found.old.items }
    ensures { OnOk result
        (Finds (λ k. number ≡ k) marks.old.items found.old.items marks.new.items found.new.items) }
{
    if marks[number as usize] {
        return Ok(());
    }
    marks[number as usize] = true;
    found.push(number)?;
    Ok(())
}

/// Takes the steps from each number that was found, the later ones too: what is marked is then what was found. Each number is
/// visited once. `NoMemory` where a visit runs out of it.
pub fn spread<S: Steps>(
    steps: &S,
    marks: &mut Vec<bool>,
    found: &mut Vec<u32>,
) -> Result<(), NoMemory>
    requires steps { S.keeps steps.now }
    requires marks { length marks.old.items ≡ S.bound steps.now }
    requires are { AreFound marks.old.items found.old.items }
    ensures count { OnOk result (length marks.new.items ≡ S.bound steps.now) }
    ensures are { OnOk result (AreFound marks.new.items found.new.items) }
    ensures marked { OnOk result (AreLedTo (S.leads steps.now) found.old.items marks.new.items) }
{
    for at in 0..marks.len() {
        if at >= found.len() {
            return Ok(());
        }
        steps.visit(found[at], marks, found)?;
    }
    Ok(())
}
