// The bindings of members.
ghost use Rattle.std.specs.Prelude.{◌≡◌};
ghost use Rattle.std.specs.Option.{option_map};
ghost use Rattle.sm_shapes.specs.TableData.{binding_at};
ghost use Rattle.sm_shapes.specs.TableView.{binding_data, table_data};
ghost use Rattle.sm_messages.specs.service.WireMembers.{counted_binding};
ghost use Rattle.sm_bind.specs.BindingsView.{bound_side};

use sm_bind::{PartSide, counts};
use sm_shapes::tables::{Binding, Table, TableMember};

/// The binding of a member, whether it counts or not.
pub(crate) fn binding_of(table: &Table, member: u32) -> Option<&Binding>
    ensures { option_map (λ b. binding_data b.now) result ≡ binding_at (table_data table.now) member }
{
    match table.members.as_slice().get(member as usize) {
        Some(row) => binding_in(row),
        None => None,
    }
}

fn binding_in(row: &TableMember) -> Option<&Binding>
    ensures { option_map (λ b. binding_data b.now) result ≡ option_map binding_data row.now.binding }
{
    match &row.binding {
        Some(binding) => Some(binding),
        None => None,
    }
}

/// The binding that counts for a member on a side.
pub(crate) fn counted(table: &Table, side: PartSide, member: u32) -> Option<&Binding>
    ensures { option_map (λ b. binding_data b.now) result
        ≡ counted_binding (bound_side side) (binding_at (table_data table.now) member) }
{
    match table.members.as_slice().get(member as usize) {
        Some(row) => counted_in(row, side),
        None => None,
    }
}

fn counted_in(row: &TableMember, side: PartSide) -> Option<&Binding>
    ensures { option_map (λ b. binding_data b.now) result
        ≡ counted_binding (bound_side side) (option_map binding_data row.now.binding) }
{
    match &row.binding {
        Some(binding) => {
            if counts(&row.binding, side) {
                Some(binding)
            } else {
                None
            }
        }
        None => None,
    }
}
