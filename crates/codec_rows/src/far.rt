// What is shown of a value: it, how its entries stand, or the text or the item that is written for it, or the way to the first leaf that
// isn't carried.
ghost use Rattle.std.specs.Prelude.{◌<◌};
ghost use Rattle.sm_shapes.specs.Fitting.{Fits, any_text};
ghost use Rattle.sm_shapes.specs.InOrder.{Shaped};
ghost use Rattle.sm_shapes.specs.Places.{root_place};
ghost use Rattle.sm_shapes.specs.TableData.{shape_count};
ghost use Rattle.sm_shapes.specs.TableView.{table_data};
ghost use Rattle.sm_shapes.specs.ValueView.{val_of};

use crate::parts::{show_field, show_object};
use crate::row::Far;
use crate::shown::show_value;
use codec_bodies::BodyWay;
use rows::{push_utf8, show_bytes, show_order};
use sm_bodies::WrittenBody;
use sm_shapes::tables::Table;
use sm_shapes::values::Value;
use sm_tree::{NoMemory, Path};
use std::alloc::Global;

/// Appends the way to a leaf that isn't carried, as a JSON Pointer (RFC 6901).
pub fn show_path(alloc: Global, path: &Path, out: &mut String) -> Result<(), NoMemory> {
    let pointer = path.print(alloc)?;
    Ok(write!(out, "Fault {pointer} NotCarried")?)
}

fn show_written(
    alloc: Global,
    way: BodyWay,
    written: &WrittenBody,
    out: &mut String,
) -> Result<(), NoMemory> {
    match written {
        WrittenBody::Bytes(bytes) => match way {
            BodyWay::Cbor => show_bytes(bytes, out),
            _ => push_utf8(bytes, out),
        },
        WrittenBody::NotCarried(path) => show_path(alloc, path, out),
    }
}

// Whether it is the same by a tree, where it can be written at all.
fn is_same(written: &WrittenBody, by_tree: &Option<Vec<u8>>) -> bool {
    match (written, by_tree) {
        (WrittenBody::Bytes(bytes), Some(other)) => bytes == other,
        (WrittenBody::NotCarried(_), None) => true,
        _ => false,
    }
}

// What is written for a value, by events, and whether it is the same by a tree.
fn show_body(
    alloc: Global,
    table: &Table,
    shape: u32,
    value: &Value,
    way: BodyWay,
    out: &mut String,
) -> Result<(), NoMemory>
    requires shaped { Shaped (table_data table.now) }
    requires shape { shape < shape_count (table_data table.now) }
    requires fits { Fits (table_data table.now) any_text (root_place shape) (val_of value.now) }
{
    let written = way.body(alloc, table, shape, value)?;
    show_written(alloc, way, &written, out)?;
    let by_tree = way.body_by_tree(alloc, table, shape, value)?;
    if !is_same(&written, &by_tree) {
        out.push_str(" otherwise by a tree")?;
    }
    Ok(())
}

// How the two entries of a list stand, and where `is_same` says another thing.
fn show_entries(value: &Value, out: &mut String) -> Result<(), NoMemory> {
    let Value::List(items) = value else {
        return Ok(out.push_str("no list")?);
    };
    let [first, second] = items.as_slice() else {
        return Ok(out.push_str("no two entries")?);
    };
    let order = first.compare(second);
    show_order(order, out)?;
    if first.is_same(second) != order.is_eq() {
        out.push_str(" but not by is_same")?;
    }
    Ok(())
}

/// Appends what is asked of a value of the shape.
pub fn show_far(
    alloc: Global,
    table: &Table,
    shape: u32,
    far: Far<'_>,
    value: &Value,
    out: &mut String,
) -> Result<(), NoMemory>
    requires shaped { Shaped (table_data table.now) }
    requires shape { shape < shape_count (table_data table.now) }
    requires fits { Fits (table_data table.now) any_text (root_place shape) (val_of value.now) }
{
    match far {
        Far::Value => show_value(table, value, out),
        Far::Body(way) => show_body(alloc, table, shape, value, way, out),
        Far::Order => show_entries(value, out),
        Far::Object(asked) => show_object(alloc, table, shape, asked, value, out),
        Far::Field(way) => show_field(alloc, table, shape, way, value, out),
    }
}
