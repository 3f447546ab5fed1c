// Fields for values.
ghost use Rattle.std.specs.Prelude.{◌≡◌, ◌==◌, ◌||◌, ◌++◌, IfOk, OnOk, true};
ghost use Rattle.std.specs.List.{flat_map, list_all, list_any};
ghost use Rattle.sm_bytes.specs.Ascii.{comma, quote};
ghost use Rattle.sm_shapes.specs.InOrder.{Shaped};
ghost use Rattle.sm_shapes.specs.TableView.{table_data};
ghost use Rattle.sm_shapes.specs.Values.{entries_of};
ghost use Rattle.sm_shapes.specs.ValueView.{each_entry_view, val_of, vals_view};
ghost use Rattle.sm_codec.specs.Codec.{InTable};
ghost use Rattle.sm_codec.specs.PlaceView.{place_of};
ghost use Rattle.sm_parts.specs.HeaderLists.{escaped_byte, needs_quotes, quoted, written_entry};
ghost use Rattle.sm_parts.specs.declared.list_entry.HeaderCut.TheVariants.{Quoted};
ghost use Rattle.sm_part_texts.specs.CarriedTexts.{fields_have_texts, has_text_at, have_texts};
ghost use Rattle.sm_part_texts.specs.PlaceTexts.{StandsAt, cut_by, field_value, in_fields, list_text, prefixed_fields, simple_at};
ghost use Rattle.sm_part_texts.specs.steps.Joining.{gap};

use crate::texts::{bytes_at, list_of};
use sm_codec::ValuePlace;
use sm_http::Field;
use sm_parts::{HeaderCut, cut_of};
use sm_shapes::tables::Table;
use sm_shapes::values::Value;
use sm_time::Format;
use sm_tree::{Bytes, NoMemory, Text};
use std::alloc::Global;

/// The value of a field for a value: a list is one text.
///
/// # Errors
///
/// `NoMemory`.
pub fn field_value(
    alloc: Global,
    table: &Table,
    place: ValuePlace,
    value: &Value,
) -> Result<Bytes, NoMemory>
    requires shaped { Shaped (table_data table.now) }
    requires place { InTable (table_data table.now) (place_of place) }
    requires stands { StandsAt (table_data table.now) (place_of place) (val_of value.now) }
    requires has { have_texts in_fields (table_data table.now) (place_of place) (val_of value.now) ≡ true }
    ensures { IfOk result (λ bytes. bytes ≡ field_value (table_data table.now) (place_of place) (val_of value.now)) }
{
    match list_of(value) {
        Some(items) => list_value(alloc, table, place.entry(table), items),
        None => bytes_at(alloc, table, place, Format::HttpDate, value),
    }
}

fn list_value(
    alloc: Global,
    table: &Table,
    entry: ValuePlace,
    items: &[Value],
) -> Result<Bytes, NoMemory>
    requires shaped { Shaped (table_data table.now) }
    requires place { InTable (table_data table.now) (place_of entry) }
    requires has { list_all (has_text_at in_fields (table_data table.now) (place_of entry)) (vals_view items.now) ≡ true }
    ensures { IfOk result (λ bytes. bytes ≡ list_text (table_data table.now) (place_of entry) (vals_view items.now)) }
{
    let cut = cut_at(table, entry);
    let mut out = Vec::new(alloc);
    let mut is_first = true;
    for item in items {
        let text = bytes_at(alloc, table, entry, Format::HttpDate, item)?;
        put_gap(&mut out, is_first)?;
        put_entry(&mut out, cut, text.as_slice())?;
        is_first = false;
    }
    Ok(Bytes::new(out))
}

// How a list of entries of a place is cut.
fn cut_at(table: &Table, entry: ValuePlace) -> HeaderCut
    requires shaped { Shaped (table_data table.now) }
    requires place { InTable (table_data table.now) (place_of entry) }
    ensures { result ≡ cut_by (simple_at in_fields (table_data table.now) (place_of entry)) }
{
    match entry.simple_with(table, Format::HttpDate) {
        Some(simple) => cut_of(simple),
        None => HeaderCut::EachComma,
    }
}

fn put_gap(out: &mut Vec<u8>, is_first: bool) -> Result<(), NoMemory>
    ensures { OnOk result (out.new.items ≡ out.old.items ++ gap is_first) }
{
    if is_first {
        return Ok(());
    }
    out.extend_from_slice(b", ")?;
    Ok(())
}

fn put_entry(out: &mut Vec<u8>, cut: HeaderCut, text: &[u8]) -> Result<(), NoMemory>
    ensures { OnOk result (out.new.items ≡ out.old.items ++ written_entry cut text.now) }
{
    match cut {
        HeaderCut::Quoted => put_text(out, text),
        HeaderCut::EachComma => Ok(out.extend_from_slice(text)?),
        HeaderCut::EverySecondComma => Ok(out.extend_from_slice(text)?),
    }
}

// A text, between quotation marks where it needs them.
fn put_text(out: &mut Vec<u8>, text: &[u8]) -> Result<(), NoMemory>
    ensures { OnOk result (out.new.items ≡ out.old.items ++ written_entry Quoted text.now) }
{
    if needs_quotes(text) {
        return put_quoted(out, text);
    }
    Ok(out.extend_from_slice(text)?)
}

fn needs_quotes(text: &[u8]) -> bool
    ensures { result ≡ needs_quotes text.now }
{
    if text.is_empty() {
        return true;
    }
    has_mark(text)
}

// Whether a comma or a quotation mark stands in a text.
fn has_mark(text: &[u8]) -> bool
    ensures { result ≡ list_any (λ b. (b == comma) || (b == quote)) text.now }
{
    for byte in text {
        if *byte == b',' || *byte == b'"' {
            return true;
        }
    }
    false
}

fn put_quoted(out: &mut Vec<u8>, text: &[u8]) -> Result<(), NoMemory>
    ensures { OnOk result (out.new.items ≡ out.old.items ++ quoted text.now) }
{
    out.push(b'"')?;
    put_escaped(out, text)?;
    out.push(b'"')?;
    Ok(())
}

fn put_escaped(out: &mut Vec<u8>, text: &[u8]) -> Result<(), NoMemory>
    ensures { OnOk result (out.new.items ≡ out.old.items ++ flat_map escaped_byte text.now) }
{
    for byte in text {
        put_byte(out, *byte)?;
    }
    Ok(())
}

fn put_byte(out: &mut Vec<u8>, byte: u8) -> Result<(), NoMemory>
    ensures { OnOk result (out.new.items ≡ out.old.items ++ escaped_byte byte) }
{
    if byte == b'"' || byte == b'\\' {
        out.push(b'\\')?;
        out.push(byte)?;
        return Ok(());
    }
    out.push(byte)?;
    Ok(())
}

/// A field with this name and the value for a value.
///
/// # Errors
///
/// `NoMemory`.
pub fn field_of(
    alloc: Global,
    table: &Table,
    place: ValuePlace,
    name: Text,
    value: &Value,
) -> Result<Field, NoMemory>
    requires shaped { Shaped (table_data table.now) }
    requires place { InTable (table_data table.now) (place_of place) }
    requires stands { StandsAt (table_data table.now) (place_of place) (val_of value.now) }
    requires has { have_texts in_fields (table_data table.now) (place_of place) (val_of value.now) ≡ true }
    ensures name { IfOk result (λ field. field.name ≡ name) }
    ensures value { IfOk result (λ field. field.value ≡ field_value (table_data table.now) (place_of place) (val_of value.now)) }
{
    let value = field_value(alloc, table, place, value)?;
    Ok(Field { name, value })
}

/// Puts fields for the entries of a map whose values have this place, under names that begin with a prefix.
///
/// # Errors
///
/// `NoMemory`; then some may be put.
pub fn put_prefixed(
    alloc: Global,
    table: &Table,
    place: ValuePlace,
    prefix: &str,
    entries: &[(Text, Value)],
    fields: &mut Vec<Field>,
) -> Result<(), NoMemory>
    requires shaped { Shaped (table_data table.now) }
    requires place { InTable (table_data table.now) (place_of place) }
    requires has { fields_have_texts (table_data table.now) (place_of place) (entries_of (each_entry_view entries.now)) ≡ true }
    ensures { OnOk result (fields.new.items ≡ fields.old.items
        ++ prefixed_fields (table_data table.now) (place_of place) prefix.now (entries_of (each_entry_view entries.now))) }
{
    for entry in entries {
        let name = prefixed(alloc, prefix, entry.0.as_str())?;
        let value = bytes_at(alloc, table, place, Format::HttpDate, &entry.1)?;
        fields.push(Field { name, value })?;
    }
    Ok(())
}

fn prefixed(alloc: Global, prefix: &str, key: &str) -> Result<Text, NoMemory>
    ensures { IfOk result (λ name. name ≡ prefix.now ++ key.now) }
{
    let mut name = String::with_capacity(alloc, prefix.len())?;
    name.push_str(prefix)?;
    name.push_str(key)?;
    Ok(Text::new(name))
}
