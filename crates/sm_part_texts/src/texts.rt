// The text of a value at a place.
ghost use Rattle.std.specs.Prelude.{◌≡◌, IfOk, string_bytes, true};
ghost use Rattle.sm_shapes.specs.InOrder.{Shaped};
ghost use Rattle.sm_shapes.specs.TableView.{table_data};
ghost use Rattle.sm_shapes.specs.ValueView.{val_of};
ghost use Rattle.sm_codec.specs.Codec.{InTable};
ghost use Rattle.sm_codec.specs.PlaceView.{place_of};
ghost use Rattle.sm_part_texts.specs.CarriedTexts.{has_text_at, has_text_by};
ghost use Rattle.sm_part_texts.specs.PlaceTexts.{listed, text_at, text_by};
ghost use Rattle.sm_part_texts.specs.steps.Joining.{items_seen};

use sm_codec::{Simple, ValuePlace};
use sm_parts::{has_written_text, put_text};
use sm_shapes::tables::Table;
use sm_shapes::values::Value;
use sm_time::Format;
use sm_tree::{Bytes, NoMemory};
use std::alloc::Global;

/// Whether a value at a place has a text, where timestamps usually have this format. No memory.
pub fn has_text_at(table: &Table, place: ValuePlace, usual: Format, value: &Value) -> bool
    requires shaped { Shaped (table_data table.now) }
    requires place { InTable (table_data table.now) (place_of place) }
    ensures { result ≡ has_text_at usual (table_data table.now) (place_of place) (val_of value.now) }
{
    has_text_by(place.simple_with(table, usual), value)
}

fn has_text_by(simple: Option<Simple>, value: &Value) -> bool
    ensures { result ≡ has_text_by simple (val_of value.now) }
{
    match simple {
        Some(simple) => has_written_text(simple, value),
        None => false,
    }
}

/// The text of a value at a place, which has one.
///
/// # Errors
///
/// `NoMemory`.
pub fn text_at(
    alloc: Global,
    table: &Table,
    place: ValuePlace,
    usual: Format,
    value: &Value,
) -> Result<String, NoMemory>
    requires shaped { Shaped (table_data table.now) }
    requires place { InTable (table_data table.now) (place_of place) }
    requires has { has_text_at usual (table_data table.now) (place_of place) (val_of value.now) ≡ true }
    ensures { IfOk result (λ text. string_bytes text ≡ text_at usual (table_data table.now) (place_of place) (val_of value.now)) }
{
    text_by(alloc, place.simple_with(table, usual), value)
}

fn text_by(alloc: Global, simple: Option<Simple>, value: &Value) -> Result<String, NoMemory>
    requires { has_text_by simple (val_of value.now) ≡ true }
    ensures { IfOk result (λ text. string_bytes text ≡ text_by simple (val_of value.now)) }
{
    let mut text = String::new(alloc);
    match simple {
        Some(simple) => put_text(&mut text, simple, value)?,
        None => {}
    }
    Ok(text)
}

/// The same as bytes.
///
/// # Errors
///
/// `NoMemory`.
pub fn bytes_at(
    alloc: Global,
    table: &Table,
    place: ValuePlace,
    usual: Format,
    value: &Value,
) -> Result<Bytes, NoMemory>
    requires shaped { Shaped (table_data table.now) }
    requires place { InTable (table_data table.now) (place_of place) }
    requires has { has_text_at usual (table_data table.now) (place_of place) (val_of value.now) ≡ true }
    ensures { IfOk result (λ bytes. bytes ≡ text_at usual (table_data table.now) (place_of place) (val_of value.now)) }
{
    let text = text_at(alloc, table, place, usual, value)?;
    Ok(Bytes::new(text.into_bytes()))
}

/// The entries of a value, if it is a list.
pub(crate) fn list_of(value: &Value) -> Option<&[Value]>
    ensures { listed (val_of value.now) ≡ items_seen result }
{
    match value {
        Value::List(items) => Some(items.as_slice()),
        Value::Null => None,
        Value::Bool(_) => None,
        Value::Int(_) => None,
        Value::Text(_) => None,
        Value::Blob(_) => None,
        Value::Time(_) => None,
        Value::Map(_) => None,
        Value::Structure(_) => None,
        Value::Union(_, _) => None,
    }
}
