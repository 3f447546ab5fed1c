// The names of all shapes of a graph, wherever they stand, and what stands first under the name of each, where that is another one.
ghost use Rattle.std.specs.Prelude.{◌≡◌, ℕ, IfOk, None, Option, replicate, true};
ghost use Rattle.sm_passes.specs.Firsts.{number_in};
ghost use Rattle.sm_name_rules.specs.steps.NameTwins.{AreEarlierIn, AreOwnRows, earlier_in, earlier_of};

use crate::named::{named_rows, names_given};
use sm_model::Graph;
use sm_passes::firsts::first_of;
use sm_select::all_marked;
use sm_tree::{NoMemory, Text};
use std::alloc::Global;
use std::collections::BTreeMap;

/// The shapes whose names count, by number, under the names of their ids in small letters.
pub(crate) fn own_rows(alloc: Global, graph: &Graph) -> Result<Vec<(Text, u32)>, NoMemory>
    ensures { IfOk result (λ rows. AreOwnRows graph.now rows.items) }
{
    let all = all_marked(alloc, graph.count())?;
    let given = names_given(alloc, &[])?;
    let rows = named_rows(alloc, graph, &given, all.as_slice())?;
    Ok(rows)
}

/// For each number the one that stands first under its name, where that is another one. By the rows of the graph; log n each.
pub(crate) fn earlier_numbers(
    alloc: Global,
    graph: &Graph,
    firsts: &BTreeMap<&str, u32>,
    rows: &[(Text, u32)],
) -> Result<Vec<Option<u32>>, NoMemory>
    requires { AreOwnRows graph.now rows.now }
    ensures { IfOk result (λ earlier. AreEarlierIn (number_in firsts.now) rows.now earlier.items) }
{
    let mut earlier = no_numbers(alloc, graph.count() as usize)?;
    for row in rows {
        earlier[row.1 as usize] = earlier_of(firsts, row);
    }
    Ok(earlier)
}

fn no_numbers(alloc: Global, count: usize) -> Result<Vec<Option<u32>>, NoMemory>
    ensures { IfOk result (λ numbers. numbers.items ≡ replicate count None) }
{
    let mut numbers = Vec::with_capacity(alloc, count)?;
    for _ in 0..count {
        numbers.push(None)?;
    }
    Ok(numbers)
}

fn earlier_of(firsts: &BTreeMap<&str, u32>, row: &(Text, u32)) -> Option<u32>
    ensures { result ≡ earlier_of (number_in firsts.now row.now.0) row.now.1 }
{
    match first_of(firsts, row.0.as_str()) {
        Some(first) => other_than(first, row.1),
        None => None,
    }
}

fn other_than(first: u32, number: u32) -> Option<u32>
    ensures { result ≡ earlier_of (Some first) number }
{
    if first == number { None } else { Some(first) }
}

/// That of a number.
pub(crate) fn earlier_at(earlier: &[Option<u32>], number: u32) -> Option<u32>
    ensures { result ≡ earlier_in earlier.now number }
{
    match earlier.get(number as usize) {
        Some(first) => *first,
        None => None,
    }
}

/// Whether there is none of any number: no two have one name.
pub(crate) fn are_apart(earlier: &[Option<u32>]) -> bool
    ensures { result ≡ true → (k : ℕ) → earlier_in earlier.now k ≡ None }
{
    for first in earlier {
        if first.is_some() {
            return false;
        }
    }
    true
}
