// The rows of a table's shapes.
ghost use Rattle.std.specs.Prelude.{◌≡◌, ◌<◌, ◌≤◌, ◌+◌, ◌^◌, IfOk, length, map};
ghost use Rattle.sm_model.specs.GraphView.{maps_of};
ghost use Rattle.sm_shapes.specs.TableView.{member_data, shape_data};
ghost use Rattle.sm_compile.specs.steps.Numbered.{AreMemberRows, EachAt, IsShapeRow, count_of_shape, first_of_shape, numbering};
ghost use Rattle.sm_compile.specs.steps.Placing.{AreParts};
ghost use Rattle.sm_compile.specs.steps.Valued.{AreValues};

use crate::numbering::value_members;
use crate::orders::orders;
use crate::parts::{Parts, kind_at};
use crate::rows::shape_row;
use crate::values::values_in;
use sm_shapes::tables::{TableMember, TableShape};
use sm_tree::NoMemory;
use std::alloc::Global;

/// The rows of the shapes of a table, whose members have these rows.
pub(crate) fn shape_rows(
    alloc: Global,
    parts: &Parts<'_, '_>,
    members: &[TableMember],
) -> Result<Vec<TableShape>, NoMemory>
    requires parts { AreParts parts.now.graph.now parts.now.shapes.now parts.now.carried.now parts.now.patterns.now }
    requires values { AreValues parts.now.graph.now parts.now.shapes.now parts.now.values.now }
    requires few { length members.now < 2 ^ 32 }
    requires rows { AreMemberRows (maps_of parts.now.graph.now) parts.now.patterns.now
        (numbering parts.now.graph.now parts.now.shapes.now) (length parts.now.shapes.now) (map member_data members.now) }
    ensures long { IfOk result (λ rows. length rows.items ≡ length parts.now.shapes.now) }
    ensures rows { IfOk result (λ rows. EachAt (IsShapeRow (maps_of parts.now.graph.now) parts.now.patterns.now
        (numbering parts.now.graph.now parts.now.shapes.now) (map member_data members.now)) (map shape_data rows.items)) }
{
    let mut rows = Vec::with_capacity(alloc, parts.shapes.len())?;
    let mut first: usize = 0;
    for row in 0..parts.shapes.len() {
        let count = count_of(parts, members, row);
        let made = row_of(alloc, parts, members, row, first, count)?;
        rows.push(made)?;
        first += count;
    }
    Ok(rows)
}

// How many members the shape of this number in the table has.
fn count_of(parts: &Parts<'_, '_>, members: &[TableMember], row: usize) -> usize
    requires parts { AreParts parts.now.graph.now parts.now.shapes.now parts.now.carried.now parts.now.patterns.now }
    requires rows { AreMemberRows (maps_of parts.now.graph.now) parts.now.patterns.now
        (numbering parts.now.graph.now parts.now.shapes.now) (length parts.now.shapes.now) (map member_data members.now) }
    requires row { row < length parts.now.shapes.now }
    ensures count { result ≡ count_of_shape (maps_of parts.now.graph.now) (numbering parts.now.graph.now parts.now.shapes.now).shapes row }
    ensures within { first_of_shape (maps_of parts.now.graph.now) (numbering parts.now.graph.now parts.now.shapes.now).shapes row + result
        ≤ length members.now }
{
    value_members(parts.graph, parts.shapes[row]).len()
}

// The row of the shape of this number in the table, whose members are so many from the first on.
fn row_of(
    alloc: Global,
    parts: &Parts<'_, '_>,
    members: &[TableMember],
    row: usize,
    first: usize,
    count: usize,
) -> Result<TableShape, NoMemory>
    requires parts { AreParts parts.now.graph.now parts.now.shapes.now parts.now.carried.now parts.now.patterns.now }
    requires values { AreValues parts.now.graph.now parts.now.shapes.now parts.now.values.now }
    requires few { length members.now < 2 ^ 32 }
    requires rows { AreMemberRows (maps_of parts.now.graph.now) parts.now.patterns.now
        (numbering parts.now.graph.now parts.now.shapes.now) (length parts.now.shapes.now) (map member_data members.now) }
    requires row { row < length parts.now.shapes.now }
    requires first { first ≡ first_of_shape (maps_of parts.now.graph.now) (numbering parts.now.graph.now parts.now.shapes.now).shapes row }
    requires count { count ≡ count_of_shape (maps_of parts.now.graph.now) (numbering parts.now.graph.now parts.now.shapes.now).shapes row }
    ensures { IfOk result (λ made. IsShapeRow (maps_of parts.now.graph.now) parts.now.patterns.now
        (numbering parts.now.graph.now parts.now.shapes.now) (map member_data members.now) row (shape_data made)) }
{
    let shape = parts.shapes[row];
    let kind = kind_at(parts.graph, shape);
    let pattern = parts.pattern_at(shape, None, kind);
    let ordered = orders(alloc, members, first, count)?;
    let values = values_in(parts.values, row);
    let made = shape_row(alloc, parts.graph, shape, kind, ordered, values, pattern)?;
    Ok(made)
}
