// The orders of the members of an excerpt: by their numbers, by their names, and those that are needed.
ghost use Rattle.std.specs.Prelude.{◌≡◌, ◌<◌, ◌+◌, ◌++◌, ◌^◌, ◌∷◌, [], IfOk, OnOk, cond, map};
ghost use Rattle.std.specs.Cmp.Lexicographic.{slice_cmp};
ghost use Rattle.std.specs.List.{filter};
ghost use Rattle.std.specs.Ordering.{nat_cmp};
ghost use Rattle.sm_shapes.specs.InOrder.{AreByName};
ghost use Rattle.sm_shapes.specs.InOrder as ordered;
ghost use Rattle.sm_shapes.specs.Names.{AllDiffer};
ghost use Rattle.sm_shapes.specs.TableData.{json_name_at, name_at};
ghost use Rattle.sm_shapes.specs.TableView.{member_data};
ghost use Rattle.sm_excerpts.specs.steps.Rows.{numbers_from, rows_alone};

use sm_shapes::tables::TableMember;
use sm_tree::NoMemory;
use std::alloc::Global;
use std::cmp::Ordering;

/// So many numbers from one on.
pub(crate) fn numbers_from(alloc: Global, first: usize, count: usize) -> Result<Vec<u32>, NoMemory>
    requires { first + count < 2 ^ 32 }
    ensures { IfOk result (λ numbers. numbers.items ≡ numbers_from first count) }
{
    let mut numbers = Vec::with_capacity(alloc, count)?;
    for place in 0..count {
        numbers.push((first + place) as u32)?;
    }
    Ok(numbers)
}

/// The numbers by the names of their members. n log n.
pub(crate) fn by_name(rows: &[TableMember], numbers: Vec<u32>) -> Vec<u32>
    requires { AllDiffer (map (name_at (rows_alone (map member_data rows.now))) numbers.items) }
    ensures { AreByName (name_at (rows_alone (map member_data rows.now))) numbers.items result.items }
{
    let mut numbers = numbers;
    numbers.sort_unstable_by(|a, b| order_of(name_of(rows, *a), name_of(rows, *b)));
    numbers
}

/// The numbers by the names that their members have where JSON names are looked at. n log n.
pub(crate) fn by_json_name(rows: &[TableMember], numbers: Vec<u32>) -> Vec<u32>
    requires { AllDiffer (map (json_name_at (rows_alone (map member_data rows.now))) numbers.items) }
    ensures { AreByName (json_name_at (rows_alone (map member_data rows.now))) numbers.items result.items }
{
    let mut numbers = numbers;
    numbers.sort_unstable_by(|a, b| order_of(json_name_of(rows, *a), json_name_of(rows, *b)));
    numbers
}

// The byte order of two texts.
fn order_of(a: &str, b: &str) -> Ordering
    ensures { result ≡ slice_cmp nat_cmp a.now b.now }
{
    a.cmp(b)
}

// The name of a member; one that has no row has the empty name.
fn name_of(rows: &[TableMember], member: u32) -> &str
    ensures { result.now ≡ name_at (rows_alone (map member_data rows.now)) member }
{
    match rows.get(member as usize) {
        Some(row) => row.name.as_str(),
        None => "",
    }
}

// The one that it has where JSON names are looked at.
fn json_name_of(rows: &[TableMember], member: u32) -> &str
    ensures { result.now ≡ json_name_at (rows_alone (map member_data rows.now)) member }
{
    match rows.get(member as usize) {
        Some(row) => match &row.json_name {
            Some(name) => name.as_str(),
            None => row.name.as_str(),
        },
        None => "",
    }
}

/// Those of the numbers whose members are needed.
pub(crate) fn needed(
    alloc: Global,
    rows: &[TableMember],
    numbers: &[u32],
) -> Result<Vec<u32>, NoMemory>
    ensures { IfOk result (λ kept. kept.items ≡ filter (ordered.is_needed (rows_alone (map member_data rows.now))) numbers.now) }
{
    let mut kept = Vec::new(alloc);
    for number in numbers {
        if is_needed(rows, *number) {
            kept.push(*number)?;
        }
    }
    Ok(kept)
}

// Whether an object without the member doesn't just leave it out.
fn is_needed(rows: &[TableMember], member: u32) -> bool
    ensures { result ≡ ordered.is_needed (rows_alone (map member_data rows.now)) member }
{
    match rows.get(member as usize) {
        Some(row) => row.required || row.default_node.is_some() || row.default.is_some(),
        None => false,
    }
}
