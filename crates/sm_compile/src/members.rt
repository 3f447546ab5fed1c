// The rows of a table's members.
ghost use Rattle.std.specs.Prelude.{◌≡◌, ◌<◌, ◌+◌, ◌^◌, IfOk, IsUtf8, OnOk, get_or, length, map, unwrap_or};
ghost use Rattle.std.specs.List.{Contains};
ghost use Rattle.sm_ids.specs.IdText.{IdText, IsIdText};
ghost use Rattle.sm_ids.specs.View.{id_of};
ghost use Rattle.sm_model.specs.GraphView.{IsShapeNumber, maps_of};
ghost use Rattle.sm_model.specs.Reaching.{id_of_number};
ghost use Rattle.sm_shapes.specs.TableView.{member_data};
ghost use Rattle.sm_compile.specs.Compiled.{IsUnboundMember, SaysMember, members_under};
ghost use Rattle.sm_compile.specs.steps.Numbered.{AreMemberRows, numbering};
ghost use Rattle.sm_compile.specs.steps.Placing.{AreParts};
ghost use Rattle.sm_compile.specs.steps.Valued.{AreValues};

use crate::numbering::value_members;
use crate::parts::{Parts, name_at};
use crate::rows::member_row;
use crate::values::values_in;
use sm_ids::ShapeIdRef;
use sm_model::Graph;
use sm_shapes::tables::TableMember;
use sm_tree::NoMemory;
use std::alloc::Global;

/// The rows of the members of all shapes of a table: shape by shape, in model order.
pub(crate) fn member_rows(
    alloc: Global,
    parts: &Parts<'_, '_>,
) -> Result<Vec<TableMember>, NoMemory>
    requires few { length parts.now.shapes.now < 2 ^ 32 }
    requires parts { AreParts parts.now.graph.now parts.now.shapes.now parts.now.carried.now parts.now.patterns.now }
    requires values { AreValues parts.now.graph.now parts.now.shapes.now parts.now.values.now }
    ensures rows { IfOk result (λ rows. AreMemberRows (maps_of parts.now.graph.now) parts.now.patterns.now
        (numbering parts.now.graph.now parts.now.shapes.now) (length parts.now.shapes.now) (map member_data rows.items)) }
    ensures few { IfOk result (λ rows. length rows.items < 2 ^ 32) }
{
    let mut rows = Vec::new(alloc);
    for home_row in 0..parts.shapes.len() as u32 {
        put_members(alloc, parts, home_row, &mut rows)?;
    }
    if rows.len() > u32::MAX as usize {
        return Err(NoMemory);
    }
    Ok(rows)
}

// Appends the rows of the members of a shape.
fn put_members(
    alloc: Global,
    parts: &Parts<'_, '_>,
    home_row: u32,
    rows: &mut Vec<TableMember>,
) -> Result<(), NoMemory>
    requires parts { AreParts parts.now.graph.now parts.now.shapes.now parts.now.carried.now parts.now.patterns.now }
    requires values { AreValues parts.now.graph.now parts.now.shapes.now parts.now.values.now }
    requires home { home_row < length parts.now.shapes.now }
    requires rows { AreMemberRows (maps_of parts.now.graph.now) parts.now.patterns.now
        (numbering parts.now.graph.now parts.now.shapes.now) home_row (map member_data rows.old.items) }
    ensures { OnOk result (AreMemberRows (maps_of parts.now.graph.now) parts.now.patterns.now
        (numbering parts.now.graph.now parts.now.shapes.now) (home_row + 1) (map member_data rows.new.items)) }
{
    let members = value_members(parts.graph, parts.shapes[home_row as usize]);
    for member in members {
        let row = row_of(alloc, parts, home_row, *member)?;
        rows.push(row)?;
    }
    Ok(())
}

// The row of a member of the shape of this row.
fn row_of(
    alloc: Global,
    parts: &Parts<'_, '_>,
    home_row: u32,
    member: u32,
) -> Result<TableMember, NoMemory>
    requires parts { AreParts parts.now.graph.now parts.now.shapes.now parts.now.carried.now parts.now.patterns.now }
    requires values { AreValues parts.now.graph.now parts.now.shapes.now parts.now.values.now }
    requires home { home_row < length parts.now.shapes.now }
    requires member { IsShapeNumber parts.now.graph.now member }
    requires among { Contains
        (members_under (maps_of parts.now.graph.now) (id_of_number parts.now.graph.now (get_or parts.now.shapes.now home_row 0)))
        (id_of_number parts.now.graph.now member) }
    ensures says { IfOk result (λ row. SaysMember (maps_of parts.now.graph.now) parts.now.patterns.now
        (numbering parts.now.graph.now parts.now.shapes.now) (id_of_number parts.now.graph.now member) (member_data row)) }
    ensures home { IfOk result (λ row. row.shape ≡ home_row) }
    ensures spelled { IfOk result (λ row. IsIdText (id_of_number parts.now.graph.now member)) }
    ensures name { IfOk result (λ row. IsUtf8 row.name) }
    ensures json_name { IfOk result (λ row. IsUtf8 (unwrap_or row.json_name row.name)) }
    ensures unbound { IfOk result (λ row. IsUnboundMember (member_data row)) }
{
    let place = parts.member_place(home_row, member);
    let name = name_at(parts.graph, parts.shapes[home_row as usize], member);
    let pattern = parts.pattern_at(member, Some(place.target), place.target_kind);
    spelled(parts.graph, member);
    let values = values_in(parts.values, place.target_row as usize);
    let row = member_row(alloc, parts.graph, place, name, values, pattern)?;
    name_utf8(&row);
    json_name_utf8(&row);
    Ok(row)
}

// The parts of an id of the graph: each spells one.
fn spelled(graph: &Graph, number: u32)
    requires { IsShapeNumber graph.now number }
    ensures { IsIdText (id_of_number graph.now number) }
{
    parts_of(graph, number);
}

fn parts_of(graph: &Graph, number: u32) -> ShapeIdRef<'_>
    requires { IsShapeNumber graph.now number }
    ensures { IdText (id_of result) (id_of_number graph.now number) }
{
    graph.id(number).as_ref()
}

// The name of a row is a text.
fn name_utf8(row: &TableMember)
    ensures { IsUtf8 row.now.name }
{
    is_utf8(row.name.as_str());
}

// So is the one that it has where JSON names are looked at.
fn json_name_utf8(row: &TableMember)
    ensures { IsUtf8 (unwrap_or row.now.json_name row.now.name) }
{
    match &row.json_name {
        Some(name) => is_utf8(name.as_str()),
        None => is_utf8(row.name.as_str()),
    }
}

fn is_utf8(text: &str)
    ensures { IsUtf8 text.now }
{}
