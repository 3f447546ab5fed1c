// The status of a response for the members of a value.
ghost use Rattle.std.specs.Prelude.{◌≡◌, [], Some};
ghost use Rattle.sm_shapes.specs.TableData.{response_code};
ghost use Rattle.sm_shapes.specs.TableView.{binding_data};
ghost use Rattle.sm_shapes.specs.Values.{fields_of};
ghost use Rattle.sm_shapes.specs.ValueView.{each_field_view, val_of};
ghost use Rattle.sm_bind.specs.BoundView.{bound_of};
ghost use Rattle.sm_bind.specs.Roles.{binding_on};
ghost use Rattle.sm_bind_write.specs.CarriedParts.{uncarried_bound, uncarried_status};
ghost use Rattle.sm_bind_write.specs.WrittenParts.{member_status, status_among};
ghost use Rattle.sm_bind_write.specs.steps.FieldsMet.{FieldsReady};

use crate::bound::counted;
use sm_bind::BoundPlace;
use sm_shapes::tables::Binding;
use sm_shapes::values::Value;

/// The bound status, or else the usual one.
pub(crate) fn status_among(place: &BoundPlace<'_>, usual: u16, fields: &[(u32, Value)]) -> u16
    requires { FieldsReady (bound_of place.now) (fields_of (each_field_view fields.now)) }
    ensures { result ≡ status_among (bound_of place.now) usual (fields_of (each_field_view fields.now)) }
{
    for field in fields {
        match status_in(place, field.0, &field.1) {
            Some(status) => return status,
            None => {}
        }
    }
    usual
}

fn status_in(place: &BoundPlace<'_>, member: u32, value: &Value) -> Option<u16>
    requires { uncarried_bound (binding_on (bound_of place.now) member) (bound_of place.now) member (val_of value.now) ≡ [] }
    ensures { result ≡ member_status (binding_on (bound_of place.now) member) (val_of value.now) }
{
    match counted(place.table, place.side, member) {
        Some(binding) => bound_status(place, member, binding, value),
        None => None,
    }
}

fn bound_status(
    place: &BoundPlace<'_>,
    member: u32,
    binding: &Binding,
    value: &Value,
) -> Option<u16>
    requires { uncarried_bound (Some (binding_data binding.now)) (bound_of place.now) member (val_of value.now) ≡ [] }
    ensures { result ≡ member_status (Some (binding_data binding.now)) (val_of value.now) }
{
    match binding {
        Binding::ResponseCode => status_of(place, value),
        Binding::Label => None,
        Binding::Query(_) => None,
        Binding::QueryParams => None,
        Binding::Header(_) => None,
        Binding::PrefixHeaders(_) => None,
        Binding::Payload => None,
    }
}

// A status of success fits.
fn status_of(place: &BoundPlace<'_>, value: &Value) -> Option<u16>
    requires { uncarried_status (bound_of place.now) (val_of value.now) ≡ [] }
    ensures { result ≡ member_status (Some response_code) (val_of value.now) }
{
    match value {
        Value::Int(number) => match u16::try_from(*number) {
            Ok(status) => Some(status),
            Err(_) => unreachable!(),
        },
        Value::Null => None,
        Value::Bool(_) => None,
        Value::Text(_) => None,
        Value::Blob(_) => None,
        Value::Time(_) => None,
        Value::List(_) => None,
        Value::Map(_) => None,
        Value::Structure(_) => None,
        Value::Union(_, _) => None,
    }
}
