// Whether bodies that are one tree of the whole value carry a value, told by the side of its message alone.
ghost use Rattle.std.specs.Prelude.{◌≡◌, ◌<◌, ℕ, IfOk, MatchOption, length};
ghost use Rattle.sm_shapes.specs.Fitting.{Fits, any_text};
ghost use Rattle.sm_shapes.specs.InOrder.{Shaped};
ghost use Rattle.sm_shapes.specs.Places.{root_place};
ghost use Rattle.sm_shapes.specs.TableView.{table_data};
ghost use Rattle.sm_shapes.specs.ValueView.{val_of};
ghost use Rattle.sm_shapes.specs.Values.{no_fields};
ghost use Rattle.sm_service.specs.Servable.{IsStructureIn, Servable};
ghost use Rattle.sm_service.specs.ServiceView.{service_data};
ghost use Rattle.sm_messages.specs.Carrying.{FitsOn, IsValueOf, TellsCarried, TellsFirst, first_member};
ghost use Rattle.sm_messages.specs.Goals.{Role, goal_of, goal_shape};
ghost use Rattle.sm_messages.specs.TreeBodies.{fields_in, tree_uncarried};

use crate::goals::input_shape;
use sm_codec::{Leaves, all_carried, carry_fault};
use sm_http::MessageSide;
use sm_service::Service;
use sm_shapes::tables::Table;
use sm_shapes::values::Value;
use sm_tree::{NoMemory, Path};
use std::alloc::Global;

// The number of the member of a value's first field; none, where it has no field.
fn first_member(value: &Value) -> Option<u32>
    ensures { result ≡ first_member (fields_in (val_of value.now)) }
{
    match value {
        Value::Structure(fields) => match fields.as_slice() {
            [field, ..] => Some(field.0),
            [] => None,
        },
        _ => None,
    }
}

// The number of the structure of which a value is; none, where it has no field and may be of any.
fn home_of(table: &Table, value: &Value) -> Option<u32>
    requires shaped { Shaped (table_data table.now) }
    requires fits { (shape : ℕ) × IsStructureIn (table_data table.now) shape
        × Fits (table_data table.now) any_text (root_place shape) (val_of value.now) }
    ensures { MatchOption result (fields_in (val_of value.now) ≡ no_fields)
        (λ home. (shape : ℕ) → IsStructureIn (table_data table.now) shape
        → Fits (table_data table.now) any_text (root_place shape) (val_of value.now) → home ≡ shape) }
{
    match first_member(value) {
        Some(member) => Some(table.member(member).shape),
        None => None,
    }
}

// The number of the structure of which a value on this side is; none, where it has no field and may be of any.
fn shape_on(service: &Service, operation: u32, side: MessageSide, value: &Value) -> Option<u32>
    requires servable { Servable (service_data service.now) }
    requires number { operation < length (service_data service.now).operations }
    requires fits { FitsOn (service_data service.now) operation side (val_of value.now) }
    ensures { MatchOption result (fields_in (val_of value.now) ≡ no_fields)
        (λ shape. (role : Role) → IsValueOf (service_data service.now) operation side (val_of value.now) role
        → shape ≡ goal_shape (service_data service.now) (goal_of operation role)) }
{
    match side {
        MessageSide::Request => Some(input_shape(service, operation)),
        MessageSide::Response => home_of(&service.table, value),
    }
}

/// Whether a value of a message on this side is carried: an operation's input, or its output or one of its errors. No memory.
pub fn carried_on<L: Leaves>(
    service: &Service,
    operation: u32,
    side: MessageSide,
    value: &Value,
    leaves: &L,
) -> bool
    requires servable { Servable (service_data service.now) }
    requires number { operation < length (service_data service.now).operations }
    requires fits { FitsOn (service_data service.now) operation side (val_of value.now) }
    ensures { TellsCarried (tree_uncarried (L.convention leaves.now) (service_data service.now)) (service_data service.now) operation side
        (val_of value.now) result }
{
    match shape_on(service, operation, side, value) {
        Some(shape) => all_carried(&service.table, shape, value, leaves),
        None => true,
    }
}

/// The way to the first leaf, in model order, of such a value that isn't carried.
///
/// # Errors
///
/// `NoMemory`.
pub fn not_carried_on<L: Leaves>(
    alloc: Global,
    service: &Service,
    operation: u32,
    side: MessageSide,
    value: &Value,
    leaves: &L,
) -> Result<Option<Path>, NoMemory>
    requires servable { Servable (service_data service.now) }
    requires number { operation < length (service_data service.now).operations }
    requires fits { FitsOn (service_data service.now) operation side (val_of value.now) }
    ensures { IfOk result (λ path.
        TellsFirst (tree_uncarried (L.convention leaves.now) (service_data service.now)) (service_data service.now) operation side
        (val_of value.now) path) }
{
    match shape_on(service, operation, side, value) {
        Some(shape) => {
            let found = carry_fault(alloc, &service.table, shape, value, leaves)?;
            Ok(found)
        }
        None => Ok(None),
    }
}
