// A table with one structure more.
ghost use Rattle.std.specs.Prelude.{◌≡◌, ◌<◌, ◌≤◌, ◌+◌, ◌++◌, ◌∷◌, ℕ, List, [], None, IfOk, length, map};
ghost use Rattle.std.specs.List.{AllByRecursion};
ghost use Rattle.sm_shapes.specs.Fitting.{Test};
ghost use Rattle.sm_shapes.specs.InOrder.{Built, Shaped};
ghost use Rattle.sm_shapes.specs.Names.{AllDiffer};
ghost use Rattle.sm_shapes.specs.TableData.{json_name_at, member_count, name_at, shape_count};
ghost use Rattle.sm_shapes.specs.TableView.{member_data, shape_data, table_data};
ghost use Rattle.sm_excerpts.specs.Excerpts.{Extends, IsExcerpt};
ghost use Rattle.sm_excerpts.specs.steps.Added.{AreExcerptRows};
ghost use Rattle.sm_excerpts.specs.steps.Rows.{AddsExcerpt, IsExcerptRow, copies_of, numbers_from, rows_alone};

use crate::copies::copied_members;
use crate::orders::{by_json_name, by_name, needed, numbers_from};
use sm_shapes::MemberNumbers;
use sm_shapes::constraints::{Constraints, Numbers, Texts};
use sm_shapes::kinds::ShapeKind;
use sm_shapes::tables::{MemberRows, PatternRows, ShapeRows, Table, TableMember, TableShape};
use sm_tree::NoMemory;
use std::alloc::Global;

/// The table with one structure more behind its shapes, whose members are copies of these: they must be members of the table whose names
/// differ. The table stays in order. n log n in these members.
///
/// # Errors
///
/// `NoMemory`, also where no number is left for a shape or a member.
pub fn with_excerpt(alloc: Global, table: Table, members: &[u32]) -> Result<Table, NoMemory>
    requires shaped { Shaped (table_data table) }
    requires members { AllByRecursion (λ k. k < member_count (table_data table)) members.now }
    requires names { AllDiffer (map (name_at (table_data table)) members.now) }
    requires json_names { AllDiffer (map (json_name_at (table_data table)) members.now) }
    ensures shaped { IfOk result (λ all. Shaped (table_data all)) }
    ensures extends { IfOk result (λ all. Extends (table_data all) (table_data table)) }
    ensures excerpt { IfOk result (λ all. IsExcerpt (table_data all) (table_data table) (shape_count (table_data table)) members.now) }
    ensures count { IfOk result (λ all. shape_count (table_data all) ≡ shape_count (table_data table) + 1) }
    ensures built { IfOk result (λ all. (added : List (List ℕ)) (test : Test) → Built (table_data table) added test
        → Built (table_data all) added test) }
{
    added(alloc, table, members)
}

// The same, by its rows.
fn added(alloc: Global, table: Table, members: &[u32]) -> Result<Table, NoMemory>
    requires members { AllByRecursion (λ k. k < member_count (table_data table)) members.now }
    requires names { AllDiffer (map (name_at (table_data table)) members.now) }
    requires json_names { AllDiffer (map (json_name_at (table_data table)) members.now) }
    ensures { IfOk result (λ all. AddsExcerpt (table_data table) (table_data all) members.now) }
{
    let Table {
        shapes,
        members: rows,
        patterns,
    } = table;
    let shapes = shapes.into_inner();
    let Ok(shape) = u32::try_from(shapes.len()) else {
        return Err(NoMemory);
    };
    match excerpt_rows(alloc, rows.into_inner(), members, shape) {
        Ok(rows) => with_rows(shapes, rows, patterns),
        Err(refusal) => Err(refusal),
    }
}

fn with_rows(
    shapes: Vec<TableShape>,
    rows: ExcerptRows,
    patterns: PatternRows,
) -> Result<Table, NoMemory>
    ensures { IfOk result (λ all. table_data all
        ≡ record {
          shapes = map shape_data shapes.items ++ shape_data rows.row ∷ [];
          members = map member_data rows.members.items;
          patterns = patterns;
        }) }
{
    let ExcerptRows { members, row } = rows;
    match with_shape(shapes, row) {
        Ok(shapes) => Ok(Table {
            shapes: ShapeRows::new(shapes),
            members: MemberRows::new(members),
            patterns,
        }),
        Err(refusal) => Err(refusal),
    }
}

// The rows of all members, and that of the structure which has the last of them.
#[derive(Drop)]
pub(crate) struct ExcerptRows {
    pub members: Vec<TableMember>,
    pub row: TableShape,
}

// Rows with copies of some of them, and the structure of the copies.
fn excerpt_rows(
    alloc: Global,
    rows: Vec<TableMember>,
    members: &[u32],
    shape: u32,
) -> Result<ExcerptRows, NoMemory>
    requires members { AllByRecursion (λ k. k < length (map member_data rows.items)) members.now }
    requires names { AllDiffer (map (name_at (rows_alone (map member_data rows.items))) members.now) }
    requires json_names { AllDiffer (map (json_name_at (rows_alone (map member_data rows.items))) members.now) }
    ensures { IfOk result (λ all. AreExcerptRows (map member_data rows.items) shape members.now all) }
{
    let first = rows.len();
    match all_members(alloc, rows, members, shape) {
        Ok(all) => with_row(alloc, all, first, members.len()),
        Err(refusal) => Err(refusal),
    }
}

fn with_row(
    alloc: Global,
    members: Vec<TableMember>,
    first: usize,
    count: usize,
) -> Result<ExcerptRows, NoMemory>
    requires names { AllDiffer (map (name_at (rows_alone (map member_data members.items))) (numbers_from first count)) }
    requires json_names { AllDiffer (map (json_name_at (rows_alone (map member_data members.items))) (numbers_from first count)) }
    requires within { first + count ≤ length members.items }
    ensures { IfOk result (λ all. (all.members.items ≡ members.items)
        × IsExcerptRow (map member_data members.items) first count (shape_data all.row)) }
{
    match excerpt_row(alloc, members.as_slice(), first, count) {
        Ok(row) => Ok(ExcerptRows { members, row }),
        Err(refusal) => Err(refusal),
    }
}

// Rows with copies of some of them behind them.
fn all_members(
    alloc: Global,
    rows: Vec<TableMember>,
    members: &[u32],
    shape: u32,
) -> Result<Vec<TableMember>, NoMemory>
    ensures { IfOk result (λ all. map member_data all.items
        ≡ map member_data rows.items ++ copies_of (map member_data rows.items) shape members.now) }
{
    let mut copies = copied_members(alloc, rows.as_slice(), members, shape)?;
    let mut rows = rows;
    match rows.append(&mut copies) {
        Ok(()) => Ok(rows),
        Err(_) => Err(NoMemory),
    }
}

fn with_shape(shapes: Vec<TableShape>, row: TableShape) -> Result<Vec<TableShape>, NoMemory>
    ensures { IfOk result (λ all. map shape_data all.items ≡ map shape_data shapes.items ++ shape_data row ∷ []) }
{
    let mut shapes = shapes;
    match shapes.push(row) {
        Ok(()) => Ok(shapes),
        Err(_) => Err(NoMemory),
    }
}

// The row of the structure whose members are so many from one on.
fn excerpt_row(
    alloc: Global,
    rows: &[TableMember],
    first: usize,
    count: usize,
) -> Result<TableShape, NoMemory>
    requires names { AllDiffer (map (name_at (rows_alone (map member_data rows.now))) (numbers_from first count)) }
    requires json_names { AllDiffer (map (json_name_at (rows_alone (map member_data rows.now))) (numbers_from first count)) }
    requires within { first + count ≤ length rows.now }
    ensures { IfOk result (λ row. IsExcerptRow (map member_data rows.now) first count (shape_data row)) }
{
    if u32::try_from(rows.len()).is_err() {
        return Err(NoMemory);
    }
    let members = numbers_from(alloc, first, count)?;
    let by_name = by_name(rows, numbers_from(alloc, first, count)?);
    let by_json_name = by_json_name(rows, numbers_from(alloc, first, count)?);
    let needed = needed(alloc, rows, members.as_slice())?;
    let constraints = no_constraints(alloc)?;
    Ok(TableShape {
        kind: ShapeKind::Structure,
        members: MemberNumbers::new(members),
        by_name: MemberNumbers::new(by_name),
        by_json_name: MemberNumbers::new(by_json_name),
        needed: MemberNumbers::new(needed),
        constraints,
        unique: false,
        sparse: false,
        unit: false,
        format: None,
        media_type: None,
    })
}

fn no_constraints(alloc: Global) -> Result<Constraints, NoMemory>
    ensures { IfOk result (λ none. none.pattern ≡ None) }
{
    Ok(Constraints {
        min: None,
        max: None,
        pattern: None,
        texts: Texts::new(alloc, Vec::new(alloc))?,
        numbers: Numbers::new(alloc, Vec::new(alloc))?,
    })
}
