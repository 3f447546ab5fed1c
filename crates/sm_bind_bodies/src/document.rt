// Documents: objects of the members that stand there.
ghost use Rattle.std.specs.Prelude.{◌≡◌, ◌<◌, IfOk};
ghost use Rattle.std.specs.List.{filter};
ghost use Rattle.sm_tree.specs.Node.{object};
ghost use Rattle.sm_json.specs.Written as json;
ghost use Rattle.sm_shapes.specs.Fitting.{Fits, any_text};
ghost use Rattle.sm_shapes.specs.InOrder.{Shaped};
ghost use Rattle.sm_shapes.specs.Places.{root_place};
ghost use Rattle.sm_shapes.specs.TableData.{shape_count};
ghost use Rattle.sm_shapes.specs.Values.{fields_of, structure_val};
ghost use Rattle.sm_shapes.specs.ValueView.{each_field_view};
ghost use Rattle.sm_bind_write.specs.bind.BoundView.{bound_of};
ghost use Rattle.sm_bind_write.specs.bind.Roles.{bound_members, is_in_document};
ghost use Rattle.sm_bind_write.specs.WrittenParts.{document_pairs};
ghost use Rattle.sm_bind_write.specs.steps.FieldsMet.{FieldsIn, FieldsReady};

use sm_bind_write::sm_bind::{BoundPlace, is_in_document};
use sm_codec::{JsonLeaves, encode_object_events};
use sm_json::JsonWriter;
use sm_shapes::values::Value;
use sm_tree::NoMemory;
use std::alloc::Global;

/// The bytes of the document of these fields.
pub(crate) fn document_bytes(
    alloc: Global,
    place: &BoundPlace<'_>,
    fields: &[(u32, Value)],
) -> Result<Vec<u8>, NoMemory>
    requires shaped { Shaped (bound_of place.now).table }
    requires shape { place.now.shape < shape_count (bound_of place.now).table }
    requires fits { Fits (bound_of place.now).table any_text (root_place place.now.shape) (structure_val (fields_of (each_field_view fields.now))) }
    requires met { FieldsIn (bound_of place.now).table (bound_members (bound_of place.now)) (fields_of (each_field_view fields.now)) }
    requires ready { FieldsReady (bound_of place.now) (fields_of (each_field_view fields.now)) }
    ensures { IfOk result (λ bytes. bytes.items
        ≡ json.written (object (document_pairs (bound_of place.now) (fields_of (each_field_view fields.now))))) }
{
    let members = members_there(alloc, place, place.table.members(place.shape))?;
    let leaves = JsonLeaves { json_names: true };
    let mut writer = JsonWriter::new(alloc);
    encode_object_events(
        alloc,
        place.table,
        place.shape,
        None,
        fields,
        Some(members.as_slice()),
        &leaves,
        &mut writer,
    )?;
    Ok(writer.into_bytes())
}

// Those of the members that stand in the document.
fn members_there(
    alloc: Global,
    place: &BoundPlace<'_>,
    members: &[u32],
) -> Result<Vec<u32>, NoMemory>
    ensures { IfOk result (λ there. there.items ≡ filter (is_in_document (bound_of place.now)) members.now) }
{
    let mut there = Vec::new(alloc);
    for member in members {
        if is_in_document(place.table, place.side, *member) {
            there.push(*member)?;
        }
    }
    Ok(there)
}
