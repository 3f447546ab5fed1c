// Payloads: raw bytes, or trees.
ghost use Rattle.std.specs.Prelude.{◌≡◌, ◌<◌, [], ℕ, IfOk, IfSome, true};
ghost use Rattle.sm_json.specs.Written as json;
ghost use Rattle.sm_shapes.specs.Fitting.{Fits, any_text};
ghost use Rattle.sm_shapes.specs.InOrder.{Shaped};
ghost use Rattle.sm_shapes.specs.Places.{member_place};
ghost use Rattle.sm_shapes.specs.TableData.{member_count, payload};
ghost use Rattle.sm_shapes.specs.Values.{fields_of};
ghost use Rattle.sm_shapes.specs.ValueView.{each_field_view, val_of};
ghost use Rattle.sm_codec.specs.Conventions.{json_convention};
ghost use Rattle.sm_codec.specs.Written.{uncarried, written};
ghost use Rattle.sm_bind_write.specs.bind.BoundView.{bound_of};
ghost use Rattle.sm_bind_write.specs.bind.Roles.{Bound};
ghost use Rattle.sm_bind_write.specs.CarriedParts.{uncarried_payload};
ghost use Rattle.sm_bind_write.specs.WrittenParts.{payload_among, payload_content};
ghost use Rattle.sm_bind_write.specs.steps.FieldsMet.{FieldsReady};
ghost use Rattle.sm_bind_bodies.specs.WrittenBodies.{content_bytes};

use sm_bind_write::sm_bind::{BoundPlace, is_payload_at};
use sm_codec::{JsonLeaves, ValuePlace, encode_events_at};
use sm_json::JsonWriter;
use sm_shapes::values::Value;
use sm_tree::NoMemory;
use std::alloc::Global;

/// The bytes of the payload among these fields: none where it is absent.
pub(crate) fn payload_bytes(
    alloc: Global,
    place: &BoundPlace<'_>,
    fields: &[(u32, Value)],
) -> Result<Vec<u8>, NoMemory>
    requires shaped { Shaped (bound_of place.now).table }
    requires ready { FieldsReady (bound_of place.now) (fields_of (each_field_view fields.now)) }
    ensures { IfOk result (λ bytes. bytes.items
        ≡ content_bytes (payload_among (bound_of place.now) (fields_of (each_field_view fields.now)))) }
{
    for field in fields {
        if is_payload_at(place.table, field.0) {
            return bytes_of(alloc, place, field.0, &field.1);
        }
    }
    Ok(Vec::new(alloc))
}

/// The bytes of the payload among these fields, where they stand in its value as they are: those of a text or a blob. No memory.
pub(crate) fn raw_payload<'v>(
    place: &BoundPlace<'_>,
    fields: &'v [(u32, Value)],
) -> Option<&'v [u8]>
    ensures { IfSome result (λ bytes. content_bytes (payload_among (bound_of place.now) (fields_of (each_field_view fields.now)))
        ≡ bytes.now) }
{
    for field in fields {
        if is_payload_at(place.table, field.0) {
            return raw_bytes(&field.1);
        }
    }
    None
}

fn raw_bytes(value: &Value) -> Option<&[u8]>
    ensures { IfSome result (λ bytes. (b : Bound) (k : ℕ) → content_bytes (payload_content b k (val_of value.now)) ≡ bytes.now) }
{
    match value {
        Value::Text(text) => Some(text.as_str().as_bytes()),
        Value::Blob(bytes) => Some(bytes.as_slice()),
        Value::Null => None,
        Value::Bool(_) => None,
        Value::Int(_) => None,
        Value::Time(_) => None,
        Value::List(_) => None,
        Value::Map(_) => None,
        Value::Structure(_) => None,
        Value::Union(_, _) => None,
    }
}

fn bytes_of(
    alloc: Global,
    place: &BoundPlace<'_>,
    member: u32,
    value: &Value,
) -> Result<Vec<u8>, NoMemory>
    requires shaped { Shaped (bound_of place.now).table }
    requires member { member < member_count (bound_of place.now).table }
    requires fits { Fits (bound_of place.now).table any_text (member_place member) (val_of value.now) }
    requires carried { uncarried_payload (bound_of place.now).table member (val_of value.now) ≡ [] }
    ensures { IfOk result (λ bytes. bytes.items ≡ content_bytes (payload_content (bound_of place.now) member (val_of value.now))) }
{
    match value {
        Value::Text(text) => Ok(text.as_str().as_bytes().to_vec(alloc)?),
        Value::Blob(bytes) => Ok(bytes.as_slice().to_vec(alloc)?),
        Value::Null => tree_bytes(alloc, place, member, value),
        Value::Bool(_) => tree_bytes(alloc, place, member, value),
        Value::Int(_) => tree_bytes(alloc, place, member, value),
        Value::Time(_) => tree_bytes(alloc, place, member, value),
        Value::List(_) => tree_bytes(alloc, place, member, value),
        Value::Map(_) => tree_bytes(alloc, place, member, value),
        Value::Structure(_) => tree_bytes(alloc, place, member, value),
        Value::Union(_, _) => tree_bytes(alloc, place, member, value),
    }
}

fn tree_bytes(
    alloc: Global,
    place: &BoundPlace<'_>,
    member: u32,
    value: &Value,
) -> Result<Vec<u8>, NoMemory>
    requires shaped { Shaped (bound_of place.now).table }
    requires member { member < member_count (bound_of place.now).table }
    requires fits { Fits (bound_of place.now).table any_text (member_place member) (val_of value.now) }
    requires carried { uncarried (bound_of place.now).table (json_convention true) (member_place member) (val_of value.now) ≡ [] }
    ensures { IfOk result (λ bytes. bytes.items
        ≡ json.written (written (bound_of place.now).table (json_convention true) (member_place member) (val_of value.now))) }
{
    let leaves = JsonLeaves { json_names: true };
    let at = ValuePlace::Member(member);
    let mut writer = JsonWriter::new(alloc);
    encode_events_at(alloc, place.table, at, value, &leaves, &mut writer)?;
    Ok(writer.into_bytes())
}
