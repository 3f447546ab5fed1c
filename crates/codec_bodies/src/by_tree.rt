// The bytes that are written for a value whose tree is made first, to be compared with those that are made by its events alone.
ghost use Rattle.std.specs.Prelude.{◌<◌};
ghost use Rattle.sm_shapes.specs.Fitting.{Fits, any_text};
ghost use Rattle.sm_shapes.specs.InOrder.{Shaped};
ghost use Rattle.sm_shapes.specs.Places.{root_place};
ghost use Rattle.sm_shapes.specs.TableData.{shape_count};
ghost use Rattle.sm_shapes.specs.TableView.{table_data};
ghost use Rattle.sm_shapes.specs.ValueView.{val_of};
ghost use Rattle.sm_bodies.specs.Sides.{WritesForm};

use sm_bodies::BodyForm;
use sm_codec::{Leaves, all_carried, encode};
use sm_shapes::tables::Table;
use sm_shapes::values::Value;
use sm_tree::NoMemory;
use std::alloc::Global;

/// The bytes of a value in a form: its text or its item; none where one of its leaves isn't carried.
pub fn bytes_by_tree<L: Leaves>(
    alloc: Global,
    form: BodyForm,
    table: &Table,
    shape: u32,
    value: &Value,
    leaves: &L,
) -> Result<Option<Vec<u8>>, NoMemory>
    requires shaped { Shaped (table_data table.now) }
    requires shape { shape < shape_count (table_data table.now) }
    requires fits { Fits (table_data table.now) any_text (root_place shape) (val_of value.now) }
    requires writes { WritesForm form (L.convention leaves.now) }
{
    if !all_carried(table, shape, value, leaves) {
        return Ok(None);
    }
    let tree = encode(alloc, table, shape, value, leaves)?;
    let mut bytes = Vec::new(alloc);
    match form {
        BodyForm::Json => sm_json::write_tree(alloc, &tree, &mut bytes)?,
        BodyForm::Cbor => sm_cbor::write_tree(alloc, &tree, &mut bytes)?,
    }
    Ok(Some(bytes))
}
