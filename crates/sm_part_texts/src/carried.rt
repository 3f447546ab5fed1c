// Which values the parts of a message carry as texts.
ghost use Rattle.std.specs.Prelude.{◌≡◌};
ghost use Rattle.std.specs.List.{list_all};
ghost use Rattle.std.specs.Option.{option_map};
ghost use Rattle.sm_shapes.specs.InOrder.{Shaped};
ghost use Rattle.sm_shapes.specs.TableView.{table_data};
ghost use Rattle.sm_shapes.specs.ValueView.{val_of, vals_view};
ghost use Rattle.sm_codec.specs.Codec.{InTable};
ghost use Rattle.sm_codec.specs.Encoded.{first_path};
ghost use Rattle.sm_codec.specs.PlaceView.{place_of};
ghost use Rattle.sm_parts.specs.HeaderLists.{is_filled};
ghost use Rattle.sm_parts.specs.Texts.{is_field_byte};
ghost use Rattle.sm_part_texts.specs.CarriedTexts.{entries_failing, here_unless, is_carried, is_field_text, list_failing, passes};
ghost use Rattle.sm_part_texts.specs.CarriedTexts.{uncarried_texts, usual_in, value_passes};
ghost use Rattle.sm_part_texts.specs.PlaceTexts.{StandsAt};
ghost use Rattle.sm_part_texts.specs.Spots.{spot_path};

use crate::texts::{has_text_at, list_of};
use sm_codec::ValuePlace;
use sm_http::trim;
use sm_shapes::tables::Table;
use sm_shapes::values::Value;
use sm_time::Format;

/// Where the text of a value is to stand.
#[derive(Debug, Clone, Copy, Drop)]
pub enum TextTest {
    /// As a label.
    OfLabel,
    /// In a query.
    OfQuery,
    /// As an entry of a list in a field.
    OfEntry,
    /// As a field.
    OfField,
}

/// What of a value isn't carried.
#[derive(Debug, Clone, Copy, Drop)]
pub enum Spot {
    /// The value itself.
    Whole,
    /// The entry of a list at this place.
    Entry(u64),
}

/// Whether the value of a place has a text that can stand there. No memory.
pub fn is_carried(test: TextTest, table: &Table, place: ValuePlace, value: &Value) -> bool
    requires shaped { Shaped (table_data table.now) }
    requires place { InTable (table_data table.now) (place_of place) }
    ensures { result ≡ is_carried test (table_data table.now) (place_of place) (val_of value.now) }
{
    has_text_at(table, place, usual_in(test), value) && value_passes(test, value)
}

// The format that stamps usually have there.
fn usual_in(test: TextTest) -> Format
    ensures { result ≡ usual_in test }
{
    match test {
        TextTest::OfLabel => Format::DateTime,
        TextTest::OfQuery => Format::DateTime,
        TextTest::OfEntry => Format::HttpDate,
        TextTest::OfField => Format::HttpDate,
    }
}

// Whether a value's text can stand there: of all values but texts it can.
fn value_passes(test: TextTest, value: &Value) -> bool
    ensures { result ≡ value_passes test (val_of value.now) }
{
    match value {
        Value::Text(text) => passes(test, text.as_str().as_bytes()),
        Value::Null => true,
        Value::Bool(_) => true,
        Value::Int(_) => true,
        Value::Blob(_) => true,
        Value::Time(_) => true,
        Value::List(_) => true,
        Value::Map(_) => true,
        Value::Structure(_) => true,
        Value::Union(_, _) => true,
    }
}

fn passes(test: TextTest, text: &[u8]) -> bool
    ensures { result ≡ passes test text.now }
{
    match test {
        TextTest::OfLabel => is_filled(text),
        TextTest::OfQuery => true,
        TextTest::OfEntry => is_field_text(text),
        TextTest::OfField => is_filled(text) && is_field_text(text),
    }
}

/// Whether a text has a byte. No memory.
pub fn is_filled(text: &[u8]) -> bool
    ensures { result ≡ is_filled text.now }
{
    match text.split_first() {
        Some(_) => true,
        None => false,
    }
}

/// Whether a text can stand in a field: of bytes from 0x20 to 0x7E, without blanks around it. No memory.
pub fn is_field_text(text: &[u8]) -> bool
    ensures { result ≡ is_field_text text.now }
{
    are_field_bytes(text) && trim(text) == text
}

fn are_field_bytes(text: &[u8]) -> bool
    ensures { result ≡ list_all is_field_byte text.now }
{
    for byte in text {
        if *byte < b' ' || *byte > b'~' {
            return false;
        }
    }
    true
}

/// The first of a value that isn't carried: the value itself, or an entry of it, where it is a list; a list without entries isn't carried.
/// No memory.
pub fn first_uncarried(
    alone: TextTest,
    inside: TextTest,
    table: &Table,
    place: ValuePlace,
    value: &Value,
) -> Option<Spot>
    requires shaped { Shaped (table_data table.now) }
    requires place { InTable (table_data table.now) (place_of place) }
    requires stands { StandsAt (table_data table.now) (place_of place) (val_of value.now) }
    ensures { option_map spot_path result
        ≡ first_path (uncarried_texts alone inside (table_data table.now) (place_of place) (val_of value.now)) }
{
    match list_of(value) {
        Some(items) => first_in_list(inside, table, place.entry(table), items),
        None => whole_unless(is_carried(alone, table, place, value)),
    }
}

fn whole_unless(carried: bool) -> Option<Spot>
    ensures { option_map spot_path result ≡ first_path (here_unless carried) }
{
    if carried { None } else { Some(Spot::Whole) }
}

fn first_in_list(test: TextTest, table: &Table, place: ValuePlace, items: &[Value]) -> Option<Spot>
    requires shaped { Shaped (table_data table.now) }
    requires place { InTable (table_data table.now) (place_of place) }
    ensures { option_map spot_path result
        ≡ first_path (list_failing (is_carried test (table_data table.now) (place_of place)) (vals_view items.now)) }
{
    if items.is_empty() {
        return Some(Spot::Whole);
    }
    first_entry(test, table, place, items)
}

fn first_entry(test: TextTest, table: &Table, place: ValuePlace, items: &[Value]) -> Option<Spot>
    requires shaped { Shaped (table_data table.now) }
    requires place { InTable (table_data table.now) (place_of place) }
    ensures { option_map spot_path result
        ≡ first_path (entries_failing (is_carried test (table_data table.now) (place_of place)) 0 (vals_view items.now)) }
{
    let mut at: u64 = 0;
    for item in items {
        if !is_carried(test, table, place, item) {
            return Some(Spot::Entry(at));
        }
        at += 1;
    }
    None
}
