// Operations that have one method and one pattern, whatever the names of labels: for each one of them, the same for all.
ghost use Rattle.std.specs.Prelude.{◌≡◌, ◌↔◌, ◌<◌, ◌≤◌, IfOk, IsTrue, None, ℕ, get_or, length, replicate};
ghost use Rattle.std.specs.List.{Contains};
ghost use Rattle.std.specs.Map.{values_of};
ghost use Rattle.sm_http_rules.specs.steps.SameRoutes.{AreInOrder, AreSameRoutes, AreTogether, HasRow, HaveOneText, IsFirstPut, IsPutUnder};
ghost use Rattle.sm_http_rules.specs.steps.SameRoutes.{IsRun};

use crate::route_keys::route_rows;
use sm_model::Graph;
use sm_tree::{NoMemory, Text};
use std::alloc::Global;

/// Under each number of a graph one operation with the route of that number's, the same for all that have it; nothing where no other has
/// it. n log n.
pub(crate) fn same_routes(alloc: Global, graph: &Graph) -> Result<Vec<Option<u32>>, NoMemory>
    ensures { IfOk result (λ firsts. AreSameRoutes graph.now firsts.items) }
{
    let mut rows = route_rows(alloc, graph)?;
    rows.sort_unstable_by(|a, b| a.0.as_str().cmp(b.0.as_str()));
    let firsts = no_numbers(alloc, graph.count() as usize)?;
    Ok(gathered(rows.as_slice(), firsts))
}

// Nothing under so many numbers.
fn no_numbers(alloc: Global, count: usize) -> Result<Vec<Option<u32>>, NoMemory>
    ensures { IfOk result (λ firsts. firsts.items ≡ replicate count None) }
{
    let mut firsts = Vec::with_capacity(alloc, count)?;
    for _ in 0..count {
        firsts.push(None)?;
    }
    Ok(firsts)
}

// Those of rows in order, run by run.
fn gathered(rows: &[(Text, u32)], firsts: Vec<Option<u32>>) -> Vec<Option<u32>>
    requires order { AreInOrder rows.now }
    requires texts { HaveOneText rows.now }
    requires within { (k : ℕ) → Contains (values_of rows.now) k → k < length firsts.items }
    requires none { (k : ℕ) → get_or firsts.items k None ≡ None }
    ensures { AreTogether (HasRow rows.now) result.items }
{
    let mut firsts = firsts;
    let mut begin = 0;
    while begin < rows.len() {
        begin += put_run(&rows[begin..], &mut firsts);
    }
    firsts
}

// Puts the first of the run that comes first under all of it, if it has more than one row, and says how many it has.
fn put_run(rows: &[(Text, u32)], firsts: &mut Vec<Option<u32>>) -> usize
    requires order { AreInOrder rows.now }
    requires some { 0 < length rows.now }
    requires within { (k : ℕ) → Contains (values_of rows.now) k → k < length firsts.old.items }
    ensures some { 0 < result }
    ensures within { result ≤ length rows.now }
    ensures run { IsRun rows.now result }
    ensures whole { length firsts.new.items ≡ length firsts.old.items }
    ensures first { IsFirstPut rows.now result firsts.old.items firsts.new.items }
{
    let count = run_len(rows);
    if count == 1 {
        return count;
    }
    put_under(rows[0].1, &rows[..count], firsts);
    count
}

// How many rows from the first on have its text.
fn run_len(rows: &[(Text, u32)]) -> usize
    requires order { AreInOrder rows.now }
    requires some { 0 < length rows.now }
    ensures some { 0 < result }
    ensures within { result ≤ length rows.now }
    ensures run { IsRun rows.now result }
{
    let first = &rows[0];
    for place in 1..rows.len() {
        if !is_text_of(&rows[place], first) {
            return place;
        }
    }
    rows.len()
}

fn is_text_of(row: &(Text, u32), other: &(Text, u32)) -> bool
    ensures { IsTrue result ↔ (row.now.0 ≡ other.now.0) }
{
    row.0.as_str() == other.0.as_str()
}

// Puts a number under those of these rows.
fn put_under(first: u32, rows: &[(Text, u32)], firsts: &mut Vec<Option<u32>>)
    requires { (k : ℕ) → Contains (values_of rows.now) k → k < length firsts.old.items }
    ensures whole { length firsts.new.items ≡ length firsts.old.items }
    ensures put { IsPutUnder first (values_of rows.now) firsts.old.items firsts.new.items }
{
    for row in rows {
        firsts[row.1 as usize] = Some(first);
    }
}
