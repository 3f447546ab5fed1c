// Which operations aren't served by bindings, and why.
ghost use Rattle.std.specs.Prelude.{◌≡◌, ◌<◌, ◌^◌, IfOk, Some, codes, get_or, length};
ghost use Rattle.std.specs.List.{AllByRecursion, Contains};
ghost use Rattle.std.specs.Option.{option_map};
ghost use Rattle.sm_shapes.specs.InOrder.{Shaped};
ghost use Rattle.sm_shapes.specs.TableData.{member_count, shape_count};
ghost use Rattle.sm_shapes.specs.TableView.{binding_data, table_data};
ghost use Rattle.sm_messages.specs.service.Servable.{IsServableOperation, Servable};
ghost use Rattle.sm_messages.specs.service.ServiceView.{operation_data, service_data};
ghost use Rattle.sm_messages.specs.service.WireMembers.{is_string_kind};
ghost use Rattle.sm_messages.specs.service.declared.error.ErrorShape.{ErrorShape};
ghost use Rattle.sm_messages.specs.Goals.{no_error};
ghost use Rattle.sm_bind.specs.BindingsView.{bound_side};
ghost use Rattle.sm_bind_write.specs.Restrictions.{error_root, first_refused, has_media_type, is_collection, is_media_type, is_refused};
ghost use Rattle.sm_bind_write.specs.Restrictions.{is_refused_on, is_status, path_below, refused_in, refused_in_errors, refused_on};
ghost use Rattle.sm_bind_write.specs.Restrictions.{restriction, restriction_by};

use crate::bound::{binding_of, counted};
use crate::taken::is_reserved;
use sm_bind::PartSide;
use sm_codec::ValuePlace;
use sm_messages::operation_at;
use sm_messages::sm_service::{ErrorShape, Errors, Operation, Service};
use sm_part_texts::{is_field_text, is_filled};
use sm_routes::is_routed;
use sm_shapes::kinds::ShapeKind;
use sm_shapes::tables::{Binding, Table};
use sm_tree::{NoMemory, Text};
use std::alloc::Global;

/// Whether a media type counts: one that isn't empty, and can stand in a field. No memory.
pub fn is_media_type(text: &str) -> bool
    ensures { result ≡ is_media_type text.now }
{
    is_filled(text.as_bytes()) && is_field_text(text.as_bytes())
}

/// The path by which bindings don't serve an operation: that of the first member which they can't carry, or `http`, where the operation
/// hasn't this trait, or a method that isn't routed.
///
/// # Errors
///
/// `NoMemory`.
pub fn restriction(
    alloc: Global,
    service: &Service,
    operation: u32,
) -> Result<Option<Text>, NoMemory>
    requires servable { Servable (service_data service.now) }
    requires number { operation < length (service_data service.now).operations }
    ensures { IfOk result (λ path. path ≡ restriction (service_data service.now) operation) }
{
    restriction_of(alloc, &service.table, operation_at(service, operation))
}

fn restriction_of(
    alloc: Global,
    table: &Table,
    operation: &Operation,
) -> Result<Option<Text>, NoMemory>
    requires shaped { Shaped (table_data table.now) }
    requires sound { IsServableOperation (table_data table.now) (operation_data operation.now) }
    ensures { IfOk result (λ path.
        path ≡ restriction_by (operation_data operation.now).http (table_data table.now) (operation_data operation.now)) }
{
    match &operation.http {
        Some(rule) => {
            if is_routed(rule.method.as_str()) {
                in_members(alloc, table, operation)
            } else {
                word(alloc)
            }
        }
        None => word(alloc),
    }
}

fn word(alloc: Global) -> Result<Option<Text>, NoMemory>
    ensures { IfOk result (λ path. path ≡ Some (codes "http")) }
{
    match Text::copy(alloc, "http") {
        Ok(text) => Ok(Some(text)),
        Err(refusal) => Err(refusal),
    }
}

// The path of the first member of an operation that bindings can't carry.
fn in_members(alloc: Global, table: &Table, operation: &Operation) -> Result<Option<Text>, NoMemory>
    requires shaped { Shaped (table_data table.now) }
    requires sound { IsServableOperation (table_data table.now) (operation_data operation.now) }
    ensures { IfOk result (λ path. path ≡ refused_in (table_data table.now) (operation_data operation.now)) }
{
    match refused_on(table, PartSide::Input, operation.input) {
        Some(member) => path_below(alloc, "input", table, member),
        None => match refused_on(table, PartSide::Output, operation.output) {
            Some(member) => path_below(alloc, "output", table, member),
            None => in_errors(alloc, table, &operation.errors),
        },
    }
}

// The path of a member below a root.
fn path_below(
    alloc: Global,
    root: &str,
    table: &Table,
    member: u32,
) -> Result<Option<Text>, NoMemory>
    ensures { IfOk result (λ path. path ≡ Some (path_below root.now (table_data table.now) member)) }
{
    let mut text = String::from_str(alloc, root)?;
    text.push_str("/")?;
    text.push_str(table.name_of(member))?;
    Ok(Some(Text::new(text)))
}

fn in_errors(alloc: Global, table: &Table, errors: &Errors) -> Result<Option<Text>, NoMemory>
    requires shaped { Shaped (table_data table.now) }
    requires few { length errors.now < 2 ^ 32 }
    requires each { (e : ErrorShape) → Contains errors.now e → e.shape < shape_count (table_data table.now) }
    ensures { IfOk result (λ path. path ≡ refused_in_errors (table_data table.now) errors.now) }
{
    for place in 0..errors.len() {
        let error = error_in(errors, place);
        match refused_on(table, PartSide::Error, error.shape) {
            Some(member) => return error_path(alloc, error, table, member),
            None => {}
        }
    }
    Ok(None)
}

fn error_in(errors: &Errors, place: usize) -> &ErrorShape
    requires { place < length errors.now }
    ensures { result.now ≡ get_or errors.now place no_error }
{
    match errors.get(place) {
        Some(error) => error,
        None => unreachable!(),
    }
}

fn error_path(
    alloc: Global,
    error: &ErrorShape,
    table: &Table,
    member: u32,
) -> Result<Option<Text>, NoMemory>
    ensures { IfOk result (λ path. path ≡ Some (path_below (error_root error.now) (table_data table.now) member)) }
{
    let mut root = String::from_str(alloc, "error/")?;
    root.push_str(error.name())?;
    path_below(alloc, root.as_str(), table, member)
}

// The first member of a shape on a side that bindings can't carry.
fn refused_on(table: &Table, side: PartSide, shape: u32) -> Option<u32>
    requires shaped { Shaped (table_data table.now) }
    requires shape { shape < shape_count (table_data table.now) }
    ensures { result ≡ refused_on (table_data table.now) (bound_side side) shape }
{
    first_refused(table, side, table.members(shape))
}

fn first_refused(table: &Table, side: PartSide, members: &[u32]) -> Option<u32>
    requires shaped { Shaped (table_data table.now) }
    requires members { AllByRecursion (λ k. k < member_count (table_data table.now)) members.now }
    ensures { result ≡ first_refused (is_refused_on (table_data table.now) (bound_side side)) members.now }
{
    for member in members {
        if is_refused_on(table, side, *member) {
            return Some(*member);
        }
    }
    None
}

fn is_refused_on(table: &Table, side: PartSide, member: u32) -> bool
    requires shaped { Shaped (table_data table.now) }
    requires member { member < member_count (table_data table.now) }
    ensures { result ≡ is_refused_on (table_data table.now) (bound_side side) member }
{
    match side {
        PartSide::Error => {
            is_status(binding_of(table, member))
                || is_refused(counted(table, PartSide::Error, member), table, member)
        }
        PartSide::Input => is_refused(counted(table, PartSide::Input, member), table, member),
        PartSide::Output => is_refused(counted(table, PartSide::Output, member), table, member),
    }
}

fn is_status(binding: Option<&Binding>) -> bool
    ensures { result ≡ is_status (option_map (λ b. binding_data b.now) binding.entry) }
{
    match binding {
        Some(Binding::ResponseCode) => true,
        Some(_) => false,
        None => false,
    }
}

fn is_refused(binding: Option<&Binding>, table: &Table, member: u32) -> bool
    requires shaped { Shaped (table_data table.now) }
    requires member { member < member_count (table_data table.now) }
    ensures { result ≡ is_refused (option_map (λ b. binding_data b.now) binding.entry) (table_data table.now) member }
{
    match binding {
        Some(binding) => is_bound_refused(binding, table, member),
        None => false,
    }
}

fn is_bound_refused(binding: &Binding, table: &Table, member: u32) -> bool
    requires shaped { Shaped (table_data table.now) }
    requires member { member < member_count (table_data table.now) }
    ensures { result ≡ is_refused (Some (binding_data binding.now)) (table_data table.now) member }
{
    let at = ValuePlace::Member(member);
    match binding {
        Binding::Header(name) => {
            is_reserved(name.as_str(), "")
                || is_string(at.kind(table)) && has_media_type(table.media_type(member))
        }
        Binding::Payload => is_collection(at.kind(table)),
        Binding::Label => false,
        Binding::Query(_) => false,
        Binding::QueryParams => false,
        Binding::PrefixHeaders(_) => false,
        Binding::ResponseCode => false,
    }
}

fn has_media_type(media_type: &Option<Text>) -> bool
    ensures { result ≡ has_media_type media_type.now }
{
    match media_type {
        Some(text) => is_media_type(text.as_str()),
        None => false,
    }
}

fn is_string(kind: ShapeKind) -> bool
    ensures { result ≡ is_string_kind kind }
{
    match kind {
        ShapeKind::Text => true,
        ShapeKind::Blob => false,
        ShapeKind::Boolean => false,
        ShapeKind::Enum => false,
        ShapeKind::Byte => false,
        ShapeKind::Short => false,
        ShapeKind::Integer => false,
        ShapeKind::IntEnum => false,
        ShapeKind::Long => false,
        ShapeKind::Timestamp => false,
        ShapeKind::List => false,
        ShapeKind::Map => false,
        ShapeKind::Structure => false,
        ShapeKind::Union => false,
        ShapeKind::LeftOut => false,
    }
}

fn is_collection(kind: ShapeKind) -> bool
    ensures { result ≡ is_collection kind }
{
    match kind {
        ShapeKind::List => true,
        ShapeKind::Map => true,
        ShapeKind::Text => false,
        ShapeKind::Blob => false,
        ShapeKind::Boolean => false,
        ShapeKind::Enum => false,
        ShapeKind::Byte => false,
        ShapeKind::Short => false,
        ShapeKind::Integer => false,
        ShapeKind::IntEnum => false,
        ShapeKind::Long => false,
        ShapeKind::Timestamp => false,
        ShapeKind::Structure => false,
        ShapeKind::Union => false,
        ShapeKind::LeftOut => false,
    }
}
