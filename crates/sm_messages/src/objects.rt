// The body of an error: the object of its fields, behind a pair that tells its name.
ghost use Rattle.std.specs.Prelude.{◌≡◌, ◌<◌, [], IfOk, IsUtf8, None, Some};
ghost use Rattle.sm_bodies.specs.Sides.{WritesForm, side_of};
ghost use Rattle.sm_codec.specs.Written.{uncarried_fields};
ghost use Rattle.sm_codec.specs.WrittenObjects.{written_object};
ghost use Rattle.sm_shapes.specs.Fitting.{Fits, any_text};
ghost use Rattle.sm_shapes.specs.InOrder.{Shaped};
ghost use Rattle.sm_shapes.specs.Places.{root_place};
ghost use Rattle.sm_shapes.specs.TableData.{shape_count};
ghost use Rattle.sm_shapes.specs.TableView.{table_data};
ghost use Rattle.sm_shapes.specs.ValueView.{each_field_view};
ghost use Rattle.sm_shapes.specs.Values.{fields_of, structure_val};

use sm_bodies::BodyForm;
use sm_cbor::CborWriter;
use sm_codec::{Leaves, encode_object_events};
use sm_json::JsonWriter;
use sm_shapes::tables::Table;
use sm_shapes::values::Value;
use sm_tree::NoMemory;
use std::alloc::Global;

/// The bytes of the object that is written for the fields of a structure, all of which are carried, a pair of a name and a text before
/// them.
///
/// # Errors
///
/// `NoMemory`.
pub fn named_body<L: Leaves>(
    alloc: Global,
    form: BodyForm,
    table: &Table,
    shape: u32,
    name: &str,
    text: &str,
    fields: &[(u32, Value)],
    leaves: &L,
) -> Result<Vec<u8>, NoMemory>
    requires shaped { Shaped (table_data table.now) }
    requires name { IsUtf8 name.now }
    requires text { IsUtf8 text.now }
    requires shape { shape < shape_count (table_data table.now) }
    requires fits { Fits (table_data table.now) any_text (root_place shape) (structure_val (fields_of (each_field_view fields.now))) }
    requires carried { uncarried_fields (table_data table.now) (L.convention leaves.now) (fields_of (each_field_view fields.now)) ≡ [] }
    requires writes { WritesForm form (L.convention leaves.now) }
    ensures { IfOk result (λ bytes.
        bytes.items ≡ (side_of form).text (written_object (table_data table.now) (L.convention leaves.now) (root_place shape)
        (Some (name.now, text.now)) None (fields_of (each_field_view fields.now)))) }
{
    match form {
        BodyForm::Json => {
            let mut writer = JsonWriter::new(alloc);
            let before = Some((name, text));
            encode_object_events(
                alloc,
                table,
                shape,
                before,
                fields,
                None,
                leaves,
                &mut writer,
            )?;
            Ok(writer.into_bytes())
        }
        BodyForm::Cbor => {
            let mut writer = CborWriter::new(alloc);
            let before = Some((name, text));
            encode_object_events(
                alloc,
                table,
                shape,
                before,
                fields,
                None,
                leaves,
                &mut writer,
            )?;
            Ok(writer.into_bytes())
        }
    }
}
