// What a table says of a number. One that isn't in the table is that of a shape without values.
ghost use Rattle.std.specs.Prelude.{◌≡◌, slice_get};
ghost use Rattle.std.specs.Option.{option_map};
ghost use Rattle.sm_shapes.specs.TableData.{kind_at, members_at, target_at};
ghost use Rattle.sm_shapes.specs.TableView.{shape_data, member_data, table_data};

use sm_shapes::kinds::ShapeKind;
use sm_shapes::tables::{Table, TableMember, TableShape};

/// The shape with this number, if the table has it.
pub fn shape_at(table: &Table, shape: u32) -> Option<&TableShape>
    ensures { slice_get (table_data table.now).shapes shape ≡ option_map (λ row. shape_data row.now) result }
{
    match table.shapes.as_slice().get(shape as usize) {
        Some(row) => Some(row),
        None => None,
    }
}

/// The member with this number, if the table has it.
pub fn row_at(table: &Table, member: u32) -> Option<&TableMember>
    ensures { slice_get (table_data table.now).members member ≡ option_map (λ row. member_data row.now) result }
{
    match table.members.as_slice().get(member as usize) {
        Some(row) => Some(row),
        None => None,
    }
}

/// The kind of a shape.
pub fn kind_at(table: &Table, shape: u32) -> ShapeKind
    ensures { result ≡ kind_at (table_data table.now) shape }
{
    match shape_at(table, shape) {
        Some(row) => row.kind,
        None => ShapeKind::LeftOut,
    }
}

/// The members of a shape.
pub fn members_at(table: &Table, shape: u32) -> &[u32]
    ensures { result.now ≡ members_at (table_data table.now) shape }
{
    match shape_at(table, shape) {
        Some(row) => row.members.as_slice(),
        None => &[],
    }
}

/// The target of a member.
pub fn target_at(table: &Table, member: u32) -> u32
    ensures { result ≡ target_at (table_data table.now) member }
{
    match row_at(table, member) {
        Some(row) => row.target,
        None => 0,
    }
}
