// The orders of a shape's members in a table: their numbers in model order, by their names, and those that are needed.
ghost use Rattle.std.specs.Prelude.{◌≡◌, ◌<◌, ◌+◌, ◌++◌, ◌^◌, ◌∷◌, [], IfOk, OnOk, cond, map};
ghost use Rattle.std.specs.List.{filter};
ghost use Rattle.sm_shapes.specs.InOrder.{AreByName};
ghost use Rattle.sm_shapes.specs.InOrder as ordered;
ghost use Rattle.sm_shapes.specs.Names.{AllDiffer};
ghost use Rattle.sm_shapes.specs.TableData.{json_name_at, name_at};
ghost use Rattle.sm_shapes.specs.TableView.{member_data};
ghost use Rattle.sm_compile.specs.steps.Numbered.{AreOrders, only_members, run};

use crate::differ::order_of;
use crate::rows::MemberOrders;
use sm_shapes::tables::TableMember;
use sm_tree::NoMemory;
use std::alloc::Global;

/// The orders of so many members, which stand among these rows from the first on. n log n.
pub(crate) fn orders(
    alloc: Global,
    rows: &[TableMember],
    first: usize,
    count: usize,
) -> Result<MemberOrders, NoMemory>
    requires few { first + count < 2 ^ 32 }
    requires names { AllDiffer (map (name_at (only_members (map member_data rows.now))) (run first count)) }
    requires json_names { AllDiffer (map (json_name_at (only_members (map member_data rows.now))) (run first count)) }
    ensures { IfOk result (λ o. AreOrders (map member_data rows.now) first count
        o.members.items o.by_name.items o.by_json_name.items o.needed.items) }
{
    Ok(MemberOrders {
        members: numbers_from(alloc, first, count)?,
        by_name: by_name(rows, numbers_from(alloc, first, count)?),
        by_json_name: by_json_name(rows, numbers_from(alloc, first, count)?),
        needed: needed(alloc, rows, first, count)?,
    })
}

// So many numbers from the first on.
fn numbers_from(alloc: Global, first: usize, count: usize) -> Result<Vec<u32>, NoMemory>
    requires { first + count < 2 ^ 32 }
    ensures { IfOk result (λ numbers. numbers.items ≡ run first count) }
{
    let mut numbers = Vec::with_capacity(alloc, count)?;
    for place in 0..count {
        numbers.push((first + place) as u32)?;
    }
    Ok(numbers)
}

// The numbers by the names of their members.
fn by_name(rows: &[TableMember], numbers: Vec<u32>) -> Vec<u32>
    requires { AllDiffer (map (name_at (only_members (map member_data rows.now))) numbers.items) }
    ensures { AreByName (name_at (only_members (map member_data rows.now))) numbers.items result.items }
{
    let mut numbers = numbers;
    numbers.sort_unstable_by(|a, b| order_of(name_of(rows, *a), name_of(rows, *b)));
    numbers
}

// The numbers by the names that their members have where JSON names are looked at.
fn by_json_name(rows: &[TableMember], numbers: Vec<u32>) -> Vec<u32>
    requires { AllDiffer (map (json_name_at (only_members (map member_data rows.now))) numbers.items) }
    ensures { AreByName (json_name_at (only_members (map member_data rows.now))) numbers.items result.items }
{
    let mut numbers = numbers;
    numbers.sort_unstable_by(|a, b| order_of(json_name_of(rows, *a), json_name_of(rows, *b)));
    numbers
}

// The name of a member; one that has no row has the empty name.
fn name_of(rows: &[TableMember], member: u32) -> &str
    ensures { result.now ≡ name_at (only_members (map member_data rows.now)) member }
{
    match rows.get(member as usize) {
        Some(row) => row.name.as_str(),
        None => "",
    }
}

// The one that it has where JSON names are looked at.
fn json_name_of(rows: &[TableMember], member: u32) -> &str
    ensures { result.now ≡ json_name_at (only_members (map member_data rows.now)) member }
{
    match rows.get(member as usize) {
        Some(row) => match &row.json_name {
            Some(name) => name.as_str(),
            None => row.name.as_str(),
        },
        None => "",
    }
}

// The numbers of the members that are needed.
fn needed(
    alloc: Global,
    rows: &[TableMember],
    first: usize,
    count: usize,
) -> Result<Vec<u32>, NoMemory>
    requires { first + count < 2 ^ 32 }
    ensures { IfOk result (λ numbers. numbers.items
        ≡ filter (ordered.is_needed (only_members (map member_data rows.now))) (run first count)) }
{
    let mut numbers = Vec::new(alloc);
    for place in 0..count {
        put_needed(rows, (first + place) as u32, &mut numbers)?;
    }
    Ok(numbers)
}

// Appends a number, where its member is needed.
fn put_needed(rows: &[TableMember], member: u32, numbers: &mut Vec<u32>) -> Result<(), NoMemory>
    ensures { OnOk result (numbers.new.items
        ≡ numbers.old.items ++ cond (ordered.is_needed (only_members (map member_data rows.now)) member) (member ∷ []) []) }
{
    if is_needed(rows, member) {
        numbers.push(member)?;
    }
    Ok(())
}

// Whether an object without the member doesn't just leave it out.
fn is_needed(rows: &[TableMember], member: u32) -> bool
    ensures { result ≡ ordered.is_needed (only_members (map member_data rows.now)) member }
{
    match rows.get(member as usize) {
        Some(row) => row.required || row.default_node.is_some() || row.default.is_some(),
        None => false,
    }
}
