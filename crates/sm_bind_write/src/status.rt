// The status of a response as the value of a member.
ghost use Rattle.std.specs.Prelude.{◌≡◌, ◌<◌};
ghost use Rattle.std.specs.List.{list_any};
ghost use Rattle.sm_shapes.specs.TableData.{shape_count};
ghost use Rattle.sm_shapes.specs.TableView.{table_data};
ghost use Rattle.sm_shapes.specs.ValueView.{val_of};
ghost use Rattle.sm_messages.specs.service.WireMembers.{stands_in_body, wire_member_at};
ghost use Rattle.sm_bind.specs.BoundView.{bound_of};
ghost use Rattle.sm_bind_write.specs.CarriedParts.{has_body, is_bodiless, is_status, is_success};

use sm_bind::{BoundPlace, is_in_document, is_payload_at};
use sm_shapes::values::Value;

/// Whether the value of a member can be the status of a response that is no error.
pub(crate) fn is_status(place: &BoundPlace<'_>, value: &Value) -> bool
    requires { place.now.shape < shape_count (table_data place.now.table.now) }
    ensures { result ≡ is_status (bound_of place.now) (val_of value.now) }
{
    match value {
        Value::Int(number) => is_success(place, *number),
        Value::Null => false,
        Value::Bool(_) => false,
        Value::Text(_) => false,
        Value::Blob(_) => false,
        Value::Time(_) => false,
        Value::List(_) => false,
        Value::Map(_) => false,
        Value::Structure(_) => false,
        Value::Union(_, _) => false,
    }
}

fn is_success(place: &BoundPlace<'_>, number: i64) -> bool
    requires { place.now.shape < shape_count (table_data place.now.table.now) }
    ensures { result ≡ is_success (bound_of place.now) number }
{
    200 <= number && (number <= 299 && !(is_bodiless(number) && has_body(place)))
}

fn is_bodiless(number: i64) -> bool
    ensures { result ≡ is_bodiless number }
{
    number == 204 || number == 205
}

// Whether a member stands in the body.
fn has_body(place: &BoundPlace<'_>) -> bool
    requires { place.now.shape < shape_count (table_data place.now.table.now) }
    ensures { result ≡ has_body (bound_of place.now) }
{
    some_in_body(place, place.table.members(place.shape))
}

fn some_in_body(place: &BoundPlace<'_>, members: &[u32]) -> bool
    ensures { result ≡ list_any (λ k. stands_in_body (bound_of place.now).side (wire_member_at (bound_of place.now).table k)) members.now }
{
    for member in members {
        if is_in_body(place, *member) {
            return true;
        }
    }
    false
}

#[tactic(auto, using(crate::proofs::Payloads::payload_bound))]
fn is_in_body(place: &BoundPlace<'_>, member: u32) -> bool
    ensures { result ≡ stands_in_body (bound_of place.now).side (wire_member_at (bound_of place.now).table member) }
{
    is_payload_at(place.table, member) || is_in_document(place.table, place.side, member)
}
