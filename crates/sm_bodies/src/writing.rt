// The bytes that are written for a value: the events of its tree go into a writer of the format, and no tree is made.
ghost use Rattle.std.specs.Prelude.{◌≡◌, ◌<◌, [], Some, IfOk};
ghost use Rattle.sm_shapes.specs.Fitting.{Fits, any_text};
ghost use Rattle.sm_shapes.specs.InOrder.{Shaped};
ghost use Rattle.sm_shapes.specs.Places.{root_place};
ghost use Rattle.sm_shapes.specs.TableData.{shape_count};
ghost use Rattle.sm_shapes.specs.TableView.{table_data};
ghost use Rattle.sm_shapes.specs.ValueView.{val_of};
ghost use Rattle.sm_codec.specs.Encoded.{first_path};
ghost use Rattle.sm_codec.specs.Written.{written, uncarried};
ghost use Rattle.sm_bodies.specs.Sides.{side_of, WritesForm};
ghost use Rattle.sm_bodies.specs.Bodies.{WritesBody};

use crate::form::BodyForm;
use sm_cbor::CborWriter;
use sm_codec::{Leaves, all_carried, carry_fault, encode_events};
use sm_json::JsonWriter;
use sm_shapes::tables::Table;
use sm_shapes::values::Value;
use sm_tree::{NoMemory, Path};
use std::alloc::Global;

/// What is written for a value.
#[derive(Debug, Drop)]
pub enum WrittenBody {
    /// Its text or its item.
    Bytes(Vec<u8>),
    /// Nothing: the way to its first leaf, in model order, that the convention doesn't carry.
    NotCarried(Path),
}

/// The bytes of a value, all of whose leaves are carried: its text or its item. `all_carried` of sm_codec tells whether they are.
pub fn carried_body<L: Leaves>(
    alloc: Global,
    form: BodyForm,
    table: &Table,
    shape: u32,
    value: &Value,
    leaves: &L,
) -> Result<Vec<u8>, NoMemory>
    requires shaped { Shaped (table_data table.now) }
    requires shape { shape < shape_count (table_data table.now) }
    requires fits { Fits (table_data table.now) any_text (root_place shape) (val_of value.now) }
    requires carried { uncarried (table_data table.now) (L.convention leaves.now) (root_place shape) (val_of value.now) ≡ [] }
    requires writes { WritesForm form (L.convention leaves.now) }
    ensures { IfOk result (λ bytes.
        bytes.items ≡ (side_of form).text
        (written (table_data table.now) (L.convention leaves.now) (root_place shape) (val_of value.now))) }
{
    match form {
        BodyForm::Json => {
            let mut writer = JsonWriter::new(alloc);
            encode_events(alloc, table, shape, value, leaves, &mut writer)?;
            Ok(writer.into_bytes())
        }
        BodyForm::Cbor => {
            let mut writer = CborWriter::new(alloc);
            encode_events(alloc, table, shape, value, leaves, &mut writer)?;
            Ok(writer.into_bytes())
        }
    }
}

// The way to the first leaf of a value that isn't carried.
fn way_to_leaf<L: Leaves>(
    alloc: Global,
    table: &Table,
    shape: u32,
    value: &Value,
    leaves: &L,
) -> Result<Path, NoMemory>
    requires shaped { Shaped (table_data table.now) }
    requires shape { shape < shape_count (table_data table.now) }
    requires fits { Fits (table_data table.now) any_text (root_place shape) (val_of value.now) }
    requires some { uncarried (table_data table.now) (L.convention leaves.now) (root_place shape) (val_of value.now) ≡ [] → ⊥ }
    ensures { IfOk result (λ path.
        first_path (uncarried (table_data table.now) (L.convention leaves.now) (root_place shape) (val_of value.now)) ≡ Some path) }
{
    match carry_fault(alloc, table, shape, value, leaves) {
        Ok(Some(path)) => Ok(path),
        Ok(None) => unreachable!(),
        Err(refusal) => Err(refusal),
    }
}

/// The body of a value in this form.
pub fn write_body<L: Leaves>(
    alloc: Global,
    form: BodyForm,
    table: &Table,
    shape: u32,
    value: &Value,
    leaves: &L,
) -> Result<WrittenBody, NoMemory>
    requires shaped { Shaped (table_data table.now) }
    requires shape { shape < shape_count (table_data table.now) }
    requires fits { Fits (table_data table.now) any_text (root_place shape) (val_of value.now) }
    requires writes { WritesForm form (L.convention leaves.now) }
    ensures { IfOk result (λ made.
        WritesBody (side_of form).text (table_data table.now) (L.convention leaves.now) (root_place shape) (val_of value.now) made) }
{
    if all_carried(table, shape, value, leaves) {
        match carried_body(alloc, form, table, shape, value, leaves) {
            Ok(bytes) => Ok(WrittenBody::Bytes(bytes)),
            Err(refusal) => Err(refusal),
        }
    } else {
        match way_to_leaf(alloc, table, shape, value, leaves) {
            Ok(path) => Ok(WrittenBody::NotCarried(path)),
            Err(refusal) => Err(refusal),
        }
    }
}
