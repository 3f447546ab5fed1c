// Copies of a table, and of some of its members.
ghost use Rattle.std.specs.Prelude.{◌≡◌, ◌++◌, ◌∷◌, [], IfOk, OnOk, map, slice_get};
ghost use Rattle.std.specs.Option.{option_map};
ghost use Rattle.sm_shapes.specs.TableView.{member_data, shape_data, table_data};
ghost use Rattle.sm_excerpts.specs.steps.Rows.{copies_of, copy_at, copy_in};

use sm_shapes::tables::{MemberRows, PatternRows, ShapeRows, Table, TableMember, TableShape};
use sm_tree::{NoMemory, Text};
use std::alloc::Global;

/// A copy of a table. The values of enums are shared.
///
/// # Errors
///
/// `NoMemory`.
pub fn copy_of_table(alloc: Global, table: &Table) -> Result<Table, NoMemory>
    ensures { IfOk result (λ copy. table_data copy ≡ table_data table.now) }
{
    let shapes = copy_shapes(alloc, table.shapes.as_slice())?;
    let members = copy_members(alloc, table.members.as_slice())?;
    let patterns = copy_patterns(alloc, table.patterns.as_slice())?;
    Ok(Table {
        shapes: ShapeRows::new(shapes),
        members: MemberRows::new(members),
        patterns: PatternRows::new(patterns),
    })
}

fn copy_shapes(alloc: Global, rows: &[TableShape]) -> Result<Vec<TableShape>, NoMemory>
    ensures { IfOk result (λ copies. map shape_data copies.items ≡ map shape_data rows.now) }
{
    let mut copies = Vec::with_capacity(alloc, rows.len())?;
    for row in rows {
        copies.push(row.copy(alloc)?)?;
    }
    Ok(copies)
}

fn copy_members(alloc: Global, rows: &[TableMember]) -> Result<Vec<TableMember>, NoMemory>
    ensures { IfOk result (λ copies. map member_data copies.items ≡ map member_data rows.now) }
{
    let mut copies = Vec::with_capacity(alloc, rows.len())?;
    for row in rows {
        copies.push(row.copy(alloc)?)?;
    }
    Ok(copies)
}

fn copy_patterns(alloc: Global, rows: &[(u32, Text)]) -> Result<Vec<(u32, Text)>, NoMemory>
    ensures { IfOk result (λ copies. copies.items ≡ rows.now) }
{
    let mut copies = Vec::with_capacity(alloc, rows.len())?;
    for row in rows {
        let text = Text::copy(alloc, row.1.as_str())?;
        copies.push((row.0, text))?;
    }
    Ok(copies)
}

/// Copies of these members in the structure with this number, without bindings. A number that isn't one of a row has none.
pub(crate) fn copied_members(
    alloc: Global,
    rows: &[TableMember],
    members: &[u32],
    shape: u32,
) -> Result<Vec<TableMember>, NoMemory>
    ensures { IfOk result (λ copies. map member_data copies.items ≡ copies_of (map member_data rows.now) shape members.now) }
{
    let mut copies = Vec::with_capacity(alloc, members.len())?;
    for member in members {
        match put_copy(alloc, rows, *member, shape, &mut copies) {
            Ok(()) => {}
            Err(refusal) => return Err(refusal),
        }
    }
    Ok(copies)
}

// Puts the copy of a member behind others.
fn put_copy(
    alloc: Global,
    rows: &[TableMember],
    member: u32,
    shape: u32,
    copies: &mut Vec<TableMember>,
) -> Result<(), NoMemory>
    ensures { OnOk result (map member_data copies.new.items
        ≡ map member_data copies.old.items ++ copy_at (map member_data rows.now) shape member) }
{
    match row_at(rows, member) {
        None => Ok(()),
        Some(row) => push_copy(alloc, row, shape, copies),
    }
}

// The row with this number, if it is there.
fn row_at(rows: &[TableMember], member: u32) -> Option<&TableMember>
    ensures { slice_get (map member_data rows.now) member ≡ option_map (λ row. member_data row.now) result }
{
    match rows.get(member as usize) {
        Some(row) => Some(row),
        None => None,
    }
}

// Puts the copy of a row behind others.
fn push_copy(
    alloc: Global,
    row: &TableMember,
    shape: u32,
    copies: &mut Vec<TableMember>,
) -> Result<(), NoMemory>
    ensures { OnOk result (map member_data copies.new.items ≡ map member_data copies.old.items ++ copy_in shape (member_data row.now) ∷ []) }
{
    copies.push(member_copy(alloc, row, shape)?)?;
    Ok(())
}

// The copy of a member in the structure with this number.
fn member_copy(alloc: Global, row: &TableMember, shape: u32) -> Result<TableMember, NoMemory>
    ensures { IfOk result (λ copy. member_data copy ≡ copy_in shape (member_data row.now)) }
{
    let mut copy = row.copy(alloc)?;
    copy.shape = shape;
    copy.binding = None;
    Ok(copy)
}
