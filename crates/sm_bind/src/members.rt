// The members of an input, an output or an error that stand in its document.
ghost use Rattle.std.specs.Prelude.{◌≡◌, IfOk, None, Some, cond};
ghost use Rattle.std.specs.Option.{option_map};
ghost use Rattle.std.specs.List.{filter, list_any};
ghost use Rattle.sm_shapes.specs.Places.{kind_of, member_place};
ghost use Rattle.sm_shapes.specs.TableData.{binding_at, kind_at, target_at};
ghost use Rattle.sm_shapes.specs.TableView.{binding_data, table_data};
ghost use Rattle.sm_bind.specs.BindingsView.{bound_side};
ghost use Rattle.sm_bind.specs.Documents.{is_tree_kind};
ghost use Rattle.sm_bind.specs.steps.Growing.{payload_among};
ghost use Rattle.sm_bind.specs.Roles.{is_bound_payload, is_unbound_on};

use crate::side::{PartSide, counts};
use sm_shapes::kinds::ShapeKind;
use sm_shapes::tables::{Binding, Table};
use sm_tree::NoMemory;
use std::alloc::Global;

/// Whether a member stands in the document of the shapes on a side: no binding of its own counts there. No memory.
pub fn is_in_document(table: &Table, side: PartSide, member: u32) -> bool
    ensures { result ≡ is_unbound_on (table_data table.now) (bound_side side) member }
{
    match table.members.as_slice().get(member as usize) {
        Some(row) => !counts(&row.binding, side),
        None => !counts(&None, side),
    }
}

/// Whether some of these members stands in the document. No memory.
pub fn has_document(table: &Table, side: PartSide, members: &[u32]) -> bool
    ensures { result ≡ list_any (is_unbound_on (table_data table.now) (bound_side side)) members.now }
{
    for member in members {
        if is_in_document(table, side, *member) {
            return true;
        }
    }
    false
}

/// Those of the members that stand in the document.
///
/// # Errors
///
/// `NoMemory`.
pub(crate) fn document_members(
    alloc: Global,
    table: &Table,
    side: PartSide,
    members: &[u32],
) -> Result<Vec<u32>, NoMemory>
    ensures { IfOk result (λ kept. kept.items ≡ filter (is_unbound_on (table_data table.now) (bound_side side)) members.now) }
{
    let mut kept = Vec::new(alloc);
    for member in members {
        if is_in_document(table, side, *member) {
            kept.push(*member)?;
        }
    }
    Ok(kept)
}

/// The shape by which the body is read that the first payload among these members is: that of a structure or a union. No memory.
pub(crate) fn payload_shape(table: &Table, members: &[u32]) -> Option<u32>
    ensures { result ≡ payload_among (table_data table.now) members.now }
{
    for member in members {
        if is_payload_at(table, *member) {
            return tree_target(table, *member);
        }
    }
    None
}

/// Whether a member is bound to the payload, which counts on each side. No memory.
pub fn is_payload_at(table: &Table, member: u32) -> bool
    ensures { result ≡ is_bound_payload (binding_at (table_data table.now) member) }
{
    match table.members.as_slice().get(member as usize) {
        Some(row) => is_payload(&row.binding),
        None => false,
    }
}

fn is_payload(binding: &Option<Binding>) -> bool
    ensures { result ≡ is_bound_payload (option_map binding_data binding.now) }
{
    match binding {
        Some(Binding::Payload) => true,
        Some(Binding::Label) => false,
        Some(Binding::Query(_)) => false,
        Some(Binding::QueryParams) => false,
        Some(Binding::Header(_)) => false,
        Some(Binding::PrefixHeaders(_)) => false,
        Some(Binding::ResponseCode) => false,
        None => false,
    }
}

// The target of a member, where its values are trees.
fn tree_target(table: &Table, member: u32) -> Option<u32>
    ensures { result ≡ cond (is_tree_kind (kind_of (table_data table.now) (member_place member)))
        (Some (target_at (table_data table.now) member)) None }
{
    if is_tree_at(table, member) {
        Some(target_of(table, member))
    } else {
        None
    }
}

/// Whether the values of a member are trees where it is the payload: those of structures and unions. No memory.
pub fn is_tree_at(table: &Table, member: u32) -> bool
    ensures { result ≡ is_tree_kind (kind_of (table_data table.now) (member_place member)) }
{
    is_tree_kind(kind_of(table, target_of(table, member)))
}

fn target_of(table: &Table, member: u32) -> u32
    ensures { result ≡ target_at (table_data table.now) member }
{
    match table.members.as_slice().get(member as usize) {
        Some(row) => row.target,
        None => 0,
    }
}

fn kind_of(table: &Table, shape: u32) -> ShapeKind
    ensures { result ≡ kind_at (table_data table.now) shape }
{
    match table.shapes.as_slice().get(shape as usize) {
        Some(row) => row.kind,
        None => ShapeKind::LeftOut,
    }
}

fn is_tree_kind(kind: ShapeKind) -> bool
    ensures { result ≡ is_tree_kind kind }
{
    match kind {
        ShapeKind::Structure => true,
        ShapeKind::Union => true,
        ShapeKind::Blob => false,
        ShapeKind::Boolean => false,
        ShapeKind::Text => false,
        ShapeKind::Enum => false,
        ShapeKind::Byte => false,
        ShapeKind::Short => false,
        ShapeKind::Integer => false,
        ShapeKind::IntEnum => false,
        ShapeKind::Long => false,
        ShapeKind::Timestamp => false,
        ShapeKind::List => false,
        ShapeKind::Map => false,
        ShapeKind::LeftOut => false,
    }
}
