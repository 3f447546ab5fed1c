// Whether a convention carries all leaves of a value.
ghost use Rattle.std.specs.Prelude.{◌≡◌, ◌<◌, ◌↔◌, [], IsTrue};
ghost use Rattle.sm_shapes.specs.Fitting.{Fits, any_text};
ghost use Rattle.sm_shapes.specs.InOrder.{Shaped};
ghost use Rattle.sm_shapes.specs.Places.{root_place, entry_place, value_place};
ghost use Rattle.sm_shapes.specs.TableData.{shape_count};
ghost use Rattle.sm_shapes.specs.TableView.{table_data};
ghost use Rattle.sm_shapes.specs.Values.{vals_of, entries_of, fields_of};
ghost use Rattle.sm_shapes.specs.ValueView.{val_of, vals_view, each_entry_view, each_field_view};
ghost use Rattle.sm_codec.specs.Codec.{InTable};
ghost use Rattle.sm_codec.specs.Encoded.{are_none};
ghost use Rattle.sm_codec.specs.PlaceView.{place_of};
ghost use Rattle.sm_codec.specs.Sorts.{sort_of};
ghost use Rattle.sm_codec.specs.Written.{uncarried, uncarried_leaf, uncarried_entries, uncarried_pairs, uncarried_fields};
ghost use Rattle.sm_codec.specs.steps.ValueParts.{PartsHold, EntriesHold, PairsHold, FieldsHold, any_leaf};

use crate::Leaves;
use crate::places::ValuePlace;
use sm_shapes::tables::Table;
use sm_shapes::values::Value;
use sm_tree::Text;

/// Whether the convention carries every leaf of a value of the shape with this number. No memory.
pub fn all_carried<L: Leaves>(table: &Table, shape: u32, value: &Value, leaves: &L) -> bool
    requires shaped { Shaped (table_data table.now) }
    requires shape { shape < shape_count (table_data table.now) }
    requires fits { Fits (table_data table.now) any_text (root_place shape) (val_of value.now) }
    ensures { IsTrue result ↔ (uncarried (table_data table.now) (L.convention leaves.now) (root_place shape) (val_of value.now) ≡ []) }
{
    all_carried_at(table, ValuePlace::Root(shape), value, leaves)
}

/// Whether the convention carries every leaf of a value at a place. At a member its own format counts. No memory.
pub fn all_carried_at<L: Leaves>(
    table: &Table,
    place: ValuePlace,
    value: &Value,
    leaves: &L,
) -> bool
    requires shaped { Shaped (table_data table.now) }
    requires place { InTable (table_data table.now) (place_of place) }
    requires fits { Fits (table_data table.now) any_text (place_of place) (val_of value.now) }
    ensures { IsTrue result ↔ (uncarried (table_data table.now) (L.convention leaves.now) (place_of place) (val_of value.now) ≡ []) }
{
    is_carried(table, place, value, leaves)
}

// A leaf is carried, or stands at a place of no simple type.
pub(crate) fn is_leaf_carried<L: Leaves>(
    table: &Table,
    place: ValuePlace,
    value: &Value,
    leaves: &L,
) -> bool
    requires shaped { Shaped (table_data table.now) }
    requires place { InTable (table_data table.now) (place_of place) }
    ensures { result ≡ are_none
        (uncarried_leaf (L.convention leaves.now) (sort_of (table_data table.now) (place_of place)) (val_of value.now)) }
{
    match place.simple(table) {
        Some(simple) => leaves.carries(simple, value),
        None => true,
    }
}

#[cycle(carried)]
fn is_carried<L: Leaves>(table: &Table, place: ValuePlace, value: &Value, leaves: &L) -> bool
    requires shaped { Shaped (table_data table.now) }
    requires parts { PartsHold (table_data table.now) any_leaf (place_of place) (val_of value.now) }
    ensures { result ≡ are_none (uncarried (table_data table.now) (L.convention leaves.now) (place_of place) (val_of value.now)) }
{
    match value {
        Value::Null => true,
        Value::Bool(_) => is_leaf_carried(table, place, value, leaves),
        Value::Int(_) => is_leaf_carried(table, place, value, leaves),
        Value::Text(_) => is_leaf_carried(table, place, value, leaves),
        Value::Blob(_) => is_leaf_carried(table, place, value, leaves),
        Value::Time(_) => is_leaf_carried(table, place, value, leaves),
        Value::List(items) => are_items_carried(table, place, items.as_slice(), leaves),
        Value::Map(entries) => are_entries_carried(table, place, entries.as_slice(), leaves),
        Value::Structure(fields) => are_fields_carried(table, fields.as_slice(), leaves),
        Value::Union(member, content) => {
            is_carried(table, ValuePlace::Member(*member), content, leaves)
        }
    }
}

#[cycle(carried)]
fn are_items_carried<L: Leaves>(
    table: &Table,
    place: ValuePlace,
    items: &[Value],
    leaves: &L,
) -> bool
    requires shaped { Shaped (table_data table.now) }
    requires place { InTable (table_data table.now) (place_of place) }
    requires parts { EntriesHold (table_data table.now) any_leaf (entry_place (table_data table.now) (place_of place))
        (vals_of (vals_view items.now)) }
    ensures { result ≡ are_none
        (uncarried_entries (table_data table.now) (L.convention leaves.now) (place_of place) 0 (vals_of (vals_view items.now))) }
{
    let entry = place.entry(table);
    for item in items {
        if !is_carried(table, entry, item, leaves) {
            return false;
        }
    }
    true
}

#[cycle(carried)]
fn are_entries_carried<L: Leaves>(
    table: &Table,
    place: ValuePlace,
    entries: &[(Text, Value)],
    leaves: &L,
) -> bool
    requires shaped { Shaped (table_data table.now) }
    requires place { InTable (table_data table.now) (place_of place) }
    requires parts { PairsHold (table_data table.now) any_leaf (value_place (table_data table.now) (place_of place))
        (entries_of (each_entry_view entries.now)) }
    ensures { result ≡ are_none
        (uncarried_pairs (table_data table.now) (L.convention leaves.now) (place_of place) (entries_of (each_entry_view entries.now))) }
{
    let inner = place.value(table);
    for pair in entries {
        if !is_carried(table, inner, &pair.1, leaves) {
            return false;
        }
    }
    true
}

#[cycle(carried)]
fn are_fields_carried<L: Leaves>(table: &Table, fields: &[(u32, Value)], leaves: &L) -> bool
    requires shaped { Shaped (table_data table.now) }
    requires parts { FieldsHold (table_data table.now) any_leaf (fields_of (each_field_view fields.now)) }
    ensures { result ≡ are_none
        (uncarried_fields (table_data table.now) (L.convention leaves.now) (fields_of (each_field_view fields.now))) }
{
    for part in fields {
        if !is_carried(table, ValuePlace::Member(part.0), &part.1, leaves) {
            return false;
        }
    }
    true
}
