// Sets of the numbers of a graph, as marks.
ghost use Rattle.std.specs.Prelude.{◌≡◌, ◌<◌, ◌⊎◌, ◌↔◌, ℕ, IfOk, IsTrue, false, get_or, length, true};
ghost use Rattle.sm_model.specs.Reaching.{AreMarks, IsMarked};

use sm_tree::NoMemory;
use std::alloc::Global;

/// All of so many numbers, as marks. `NoMemory` where they find no room.
pub fn all_marked(alloc: Global, count: u32) -> Result<Vec<bool>, NoMemory>
    ensures { IfOk result (λ marks. AreMarks count (λ k. Unit {0}) marks.items) }
{
    let mut marks = Vec::with_capacity(alloc, count as usize)?;
    for _ in 0..count {
        marks.push(true)?;
    }
    Ok(marks)
}

/// A copy of the marks.
pub(crate) fn same_marks(alloc: Global, marks: &[bool]) -> Result<Vec<bool>, NoMemory>
    ensures { IfOk result (λ copy. copy.items ≡ marks.now) }
{
    Ok(Vec::from_slice(alloc, marks)?)
}

/// The starts that are marked, or with `marked` false those that aren't.
pub(crate) fn kept_where(
    alloc: Global,
    starts: &[bool],
    marks: &[bool],
    marked: bool,
) -> Result<Vec<bool>, NoMemory>
    requires { length starts.now ≡ length marks.now }
    ensures { IfOk result (λ kept. AreMarks (length starts.now)
        (λ k. IsMarked starts.now k × (get_or marks.now k false ≡ marked)) kept.items) }
{
    let mut kept = Vec::with_capacity(alloc, starts.len())?;
    for number in 0..starts.len() {
        kept.push(is_marked_so(starts, marks, marked, number))?;
    }
    Ok(kept)
}

// Whether a start is marked so.
fn is_marked_so(starts: &[bool], marks: &[bool], marked: bool, number: usize) -> bool
    requires start { number < length starts.now }
    requires mark { number < length marks.now }
    ensures { IsTrue result ↔ (IsMarked starts.now number × (get_or marks.now number false ≡ marked)) }
{
    if starts[number] {
        is_same(marks[number], marked)
    } else {
        false
    }
}

fn is_same(a: bool, b: bool) -> bool
    ensures { IsTrue result ↔ (a ≡ b) }
{
    if a { b } else { !b }
}

/// Marks these too.
pub(crate) fn mark_too(marks: &mut Vec<bool>, more: &[bool])
    requires { length more.now ≡ length marks.old.items }
    ensures count { length marks.new.items ≡ length marks.old.items }
    ensures marked { (k : ℕ) → IsMarked marks.new.items k ↔ (IsMarked marks.old.items k ⊎ IsMarked more.now k) }
{
    for number in 0..more.len() {
        mark_if(marks, number, more[number]);
    }
}

fn mark_if(marks: &mut Vec<bool>, number: usize, set: bool)
    requires { number < length marks.old.items }
    ensures count { length marks.new.items ≡ length marks.old.items }
    ensures marked { (k : ℕ) → IsMarked marks.new.items k ↔ (IsMarked marks.old.items k ⊎ ((set ≡ true) × (number ≡ k))) }
{
    if set {
        marks[number] = true;
    }
}
