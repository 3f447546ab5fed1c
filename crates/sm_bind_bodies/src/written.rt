// The body of a message.
ghost use Rattle.std.specs.Prelude.{◌≡◌, ◌<◌, [], IfOk, IfSome};
ghost use Rattle.sm_shapes.specs.Fitting.{Fits, any_text};
ghost use Rattle.sm_shapes.specs.InOrder.{Shaped};
ghost use Rattle.sm_shapes.specs.Places.{root_place};
ghost use Rattle.sm_shapes.specs.TableData.{kind_at, shape_count};
ghost use Rattle.sm_shapes.specs.ValueView.{val_of};
ghost use Rattle.sm_shapes.specs.declared.kinds.ShapeKind.TheVariants.{Structure};
ghost use Rattle.sm_bind_write.specs.bind.BoundView.{bound_of};
ghost use Rattle.sm_bind_write.specs.CarriedParts.{uncarried_parts};
ghost use Rattle.sm_bind_write.specs.WrittenParts.{written_content};
ghost use Rattle.sm_bind_bodies.specs.WrittenBodies.{content_bytes};

use crate::document::document_bytes;
use crate::payload::{payload_bytes, raw_payload};
use sm_bind_write::fields_in;
use sm_bind_write::sm_bind::{BoundPlace, has_document};
use sm_shapes::values::Value;
use sm_tree::NoMemory;
use std::alloc::Global;

/// The bytes of the body that is written for a value that is carried: its document, or its payload, or none.
///
/// # Errors
///
/// `NoMemory`.
pub fn written_body(
    alloc: Global,
    place: &BoundPlace<'_>,
    value: &Value,
) -> Result<Vec<u8>, NoMemory>
    requires shaped { Shaped (bound_of place.now).table }
    requires shape { place.now.shape < shape_count (bound_of place.now).table }
    requires structure { kind_at (bound_of place.now).table place.now.shape ≡ Structure }
    requires fits { Fits (bound_of place.now).table any_text (root_place place.now.shape) (val_of value.now) }
    requires carried { uncarried_parts (bound_of place.now) (val_of value.now) ≡ [] }
    ensures { IfOk result (λ bytes. bytes.items ≡ content_bytes (written_content (bound_of place.now) (val_of value.now))) }
{
    let fields = fields_in(value);
    let members = place.table.members(place.shape);
    if has_document(place.table, place.side, members) {
        document_bytes(alloc, place, fields)
    } else {
        payload_bytes(alloc, place, fields)
    }
}

/// The bytes of the body that is written for a value, where they stand in it as they are: those of a payload that is a text or a blob. No
/// memory.
pub fn raw_body<'v>(place: &BoundPlace<'_>, value: &'v Value) -> Option<&'v [u8]>
    requires { place.now.shape < shape_count (bound_of place.now).table }
    ensures { IfSome result (λ bytes. content_bytes (written_content (bound_of place.now) (val_of value.now)) ≡ bytes.now) }
{
    let members = place.table.members(place.shape);
    if has_document(place.table, place.side, members) {
        return None;
    }
    raw_payload(place, fields_in(value))
}
