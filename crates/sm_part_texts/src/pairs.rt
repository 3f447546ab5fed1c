// Pairs of a query for values.
ghost use Rattle.std.specs.Prelude.{◌≡◌, ◌++◌, ◌∷◌, [], OnOk, map, true};
ghost use Rattle.std.specs.List.{list_all};
ghost use Rattle.sm_shapes.specs.InOrder.{Shaped};
ghost use Rattle.sm_shapes.specs.TableView.{table_data};
ghost use Rattle.sm_shapes.specs.Values.{entries_of};
ghost use Rattle.sm_shapes.specs.ValueView.{each_entry_view, val_of, vals_view};
ghost use Rattle.sm_codec.specs.Codec.{InTable};
ghost use Rattle.sm_codec.specs.PlaceView.{place_of};
ghost use Rattle.sm_part_texts.specs.CarriedTexts.{has_text_at, have_texts, keyed_have_texts};
ghost use Rattle.sm_part_texts.specs.PlaceTexts.{EachStandsAt, StandsAt, in_targets, keyed_texts, pairs_under, text_at, texts_at};

use crate::texts::{bytes_at, list_of};
use sm_codec::ValuePlace;
use sm_shapes::tables::Table;
use sm_shapes::values::Value;
use sm_time::Format;
use sm_tree::{Bytes, NoMemory, Text};
use std::alloc::Global;

/// Puts a pair for a value under a key, or one for each entry of a list.
///
/// # Errors
///
/// `NoMemory`; then some may be put.
pub fn put_pairs(
    alloc: Global,
    table: &Table,
    place: ValuePlace,
    key: &Text,
    value: &Value,
    pairs: &mut Vec<(Bytes, Bytes)>,
) -> Result<(), NoMemory>
    requires shaped { Shaped (table_data table.now) }
    requires place { InTable (table_data table.now) (place_of place) }
    requires stands { StandsAt (table_data table.now) (place_of place) (val_of value.now) }
    requires has { have_texts in_targets (table_data table.now) (place_of place) (val_of value.now) ≡ true }
    ensures { OnOk result (pairs.new.items ≡ pairs.old.items
        ++ pairs_under key.now (texts_at in_targets (table_data table.now) (place_of place) (val_of value.now))) }
{
    match list_of(value) {
        Some(items) => put_each(alloc, table, place.entry(table), key, items, pairs),
        None => put_pair(alloc, table, place, key, value, pairs),
    }
}

fn put_each(
    alloc: Global,
    table: &Table,
    place: ValuePlace,
    key: &Text,
    items: &[Value],
    pairs: &mut Vec<(Bytes, Bytes)>,
) -> Result<(), NoMemory>
    requires shaped { Shaped (table_data table.now) }
    requires place { InTable (table_data table.now) (place_of place) }
    requires has { list_all (has_text_at in_targets (table_data table.now) (place_of place)) (vals_view items.now) ≡ true }
    ensures { OnOk result (pairs.new.items ≡ pairs.old.items
        ++ pairs_under key.now (map (text_at in_targets (table_data table.now) (place_of place)) (vals_view items.now))) }
{
    for item in items {
        put_pair(alloc, table, place, key, item, pairs)?;
    }
    Ok(())
}

// One pair.
fn put_pair(
    alloc: Global,
    table: &Table,
    place: ValuePlace,
    key: &Text,
    value: &Value,
    pairs: &mut Vec<(Bytes, Bytes)>,
) -> Result<(), NoMemory>
    requires shaped { Shaped (table_data table.now) }
    requires place { InTable (table_data table.now) (place_of place) }
    requires has { has_text_at in_targets (table_data table.now) (place_of place) (val_of value.now) ≡ true }
    ensures { OnOk result (pairs.new.items ≡ pairs.old.items
        ++ (key.now, text_at in_targets (table_data table.now) (place_of place) (val_of value.now)) ∷ []) }
{
    let name = Bytes::new(key.as_str().as_bytes().to_vec(alloc)?);
    let text = bytes_at(alloc, table, place, Format::DateTime, value)?;
    pairs.push((name, text))?;
    Ok(())
}

/// Puts pairs for the entries of a map whose values have this place.
///
/// # Errors
///
/// `NoMemory`; then some may be put.
pub fn put_keyed(
    alloc: Global,
    table: &Table,
    place: ValuePlace,
    entries: &[(Text, Value)],
    pairs: &mut Vec<(Bytes, Bytes)>,
) -> Result<(), NoMemory>
    requires shaped { Shaped (table_data table.now) }
    requires place { InTable (table_data table.now) (place_of place) }
    requires stand { EachStandsAt (table_data table.now) (place_of place) (entries_of (each_entry_view entries.now)) }
    requires has { keyed_have_texts (table_data table.now) (place_of place) (entries_of (each_entry_view entries.now)) ≡ true }
    ensures { OnOk result (pairs.new.items ≡ pairs.old.items
        ++ keyed_texts (table_data table.now) (place_of place) (entries_of (each_entry_view entries.now))) }
{
    for entry in entries {
        put_pairs(alloc, table, place, &entry.0, &entry.1, pairs)?;
    }
    Ok(())
}
