// What of the maps of a query and of prefix headers isn't carried.
ghost use Rattle.std.specs.Prelude.{◌≡◌, ◌<◌, ◌∷◌, [], map};
ghost use Rattle.std.specs.Cmp.Lexicographic.{slice_cmp};
ghost use Rattle.std.specs.List.Sorted.{IsStrictlySortedBy};
ghost use Rattle.std.specs.Option.{option_map};
ghost use Rattle.std.specs.Ordering.{nat_cmp};
ghost use Rattle.std.specs.Str.{str_to_ascii_lowercase};
ghost use Rattle.sm_tree.specs.declared.path.Step.TheVariants.{Key};
ghost use Rattle.sm_shapes.specs.Fitting.{Fits, any_text};
ghost use Rattle.sm_shapes.specs.InOrder.{Shaped};
ghost use Rattle.sm_shapes.specs.Places.{value_place};
ghost use Rattle.sm_shapes.specs.TableData.{shape_count};
ghost use Rattle.sm_shapes.specs.TableView.{table_data};
ghost use Rattle.sm_shapes.specs.Values.{entries_of};
ghost use Rattle.sm_shapes.specs.ValueView.{each_entry_view, val_of};
ghost use Rattle.sm_codec.specs.Codec.{InTable};
ghost use Rattle.sm_codec.specs.Encoded.{first_path};
ghost use Rattle.sm_codec.specs.PlaceView.{place_of};
ghost use Rattle.sm_part_texts.specs.PlaceTexts.{EachStandsAt};
ghost use Rattle.sm_bind.specs.BoundView.{bound_of};
ghost use Rattle.sm_bind_write.specs.CarriedParts.{is_prefixed_entry, prefixed_failing, some_params_failing, some_prefixed_failing};
ghost use Rattle.sm_bind_write.specs.CarriedParts.{uncarried_params, uncarried_prefixed};
ghost use Rattle.sm_bind_write.specs.PartSpots.{part_path};
ghost use Rattle.sm_bind_write.specs.steps.FreeKeys.{free_failing};

use crate::spots::PartSpot;
use crate::taken::{free_len, is_prefix_key};
use sm_bind::BoundPlace;
use sm_codec::ValuePlace;
use sm_part_texts::{Spot, TextTest, first_uncarried, is_carried};
use sm_shapes::tables::Table;
use sm_shapes::values::Value;
use sm_tree::Text;

/// What of a query map isn't carried: the map, where it has no entries, or what stands under a key.
pub(crate) fn params_spot<'a>(
    place: &BoundPlace<'_>,
    at: ValuePlace,
    value: &'a Value,
) -> Option<PartSpot<'a>>
    requires shaped { Shaped (bound_of place.now).table }
    requires shape { place.now.shape < shape_count (table_data place.now.table.now) }
    requires place { InTable (bound_of place.now).table (place_of at) }
    requires fits { Fits (bound_of place.now).table any_text (place_of at) (val_of value.now) }
    ensures { option_map part_path result
        ≡ first_path (uncarried_params (bound_of place.now) (value_place (bound_of place.now).table (place_of at)) (val_of value.now)) }
{
    match value {
        Value::Map(entries) => some_params(place, at.value(place.table), entries.as_slice()),
        Value::Null => Some(PartSpot::InValue(Spot::Whole)),
        Value::Bool(_) => Some(PartSpot::InValue(Spot::Whole)),
        Value::Int(_) => Some(PartSpot::InValue(Spot::Whole)),
        Value::Text(_) => Some(PartSpot::InValue(Spot::Whole)),
        Value::Blob(_) => Some(PartSpot::InValue(Spot::Whole)),
        Value::Time(_) => Some(PartSpot::InValue(Spot::Whole)),
        Value::List(_) => Some(PartSpot::InValue(Spot::Whole)),
        Value::Structure(_) => Some(PartSpot::InValue(Spot::Whole)),
        Value::Union(_, _) => Some(PartSpot::InValue(Spot::Whole)),
    }
}

fn some_params<'a>(
    place: &BoundPlace<'_>,
    at: ValuePlace,
    entries: &'a [(Text, Value)],
) -> Option<PartSpot<'a>>
    requires shaped { Shaped (bound_of place.now).table }
    requires shape { place.now.shape < shape_count (table_data place.now.table.now) }
    requires place { InTable (bound_of place.now).table (place_of at) }
    requires stand { EachStandsAt (bound_of place.now).table (place_of at) (entries_of (each_entry_view entries.now)) }
    requires rise { IsStrictlySortedBy (slice_cmp nat_cmp) (map (λ e. e.0) entries.now) }
    ensures { option_map part_path result
        ≡ first_path (some_params_failing (bound_of place.now) (place_of at) (entries_of (each_entry_view entries.now))) }
{
    if entries.is_empty() {
        return Some(PartSpot::InValue(Spot::Whole));
    }
    let (free, others) = entries.split_at(free_len(place, entries));
    match first_param(place.table, at, free) {
        Some(spot) => Some(spot),
        None => first_key(others),
    }
}

// The first key.
fn first_key<'a>(entries: &'a [(Text, Value)]) -> Option<PartSpot<'a>>
    ensures { option_map part_path result ≡ first_path (map (λ e. Key e.0 ∷ []) entries.now) }
{
    match entries.split_first() {
        Some((entry, _)) => Some(PartSpot::UnderKey(&entry.0, Spot::Whole)),
        None => None,
    }
}

fn first_param<'a>(
    table: &Table,
    at: ValuePlace,
    entries: &'a [(Text, Value)],
) -> Option<PartSpot<'a>>
    requires shaped { Shaped (table_data table.now) }
    requires place { InTable (table_data table.now) (place_of at) }
    requires stand { EachStandsAt (table_data table.now) (place_of at) (entries_of (each_entry_view entries.now)) }
    ensures { option_map part_path result
        ≡ first_path (free_failing (table_data table.now) (place_of at) (entries_of (each_entry_view entries.now))) }
{
    for entry in entries {
        match first_uncarried(TextTest::OfQuery, TextTest::OfQuery, table, at, &entry.1) {
            Some(spot) => return Some(PartSpot::UnderKey(&entry.0, spot)),
            None => {}
        }
    }
    None
}

/// What of a map of prefix headers isn't carried: the map, where it has no entries, or what stands under a key.
pub(crate) fn prefixed_spot<'a>(
    place: &BoundPlace<'_>,
    prefix: &str,
    at: ValuePlace,
    value: &'a Value,
) -> Option<PartSpot<'a>>
    requires shaped { Shaped (bound_of place.now).table }
    requires shape { place.now.shape < shape_count (table_data place.now.table.now) }
    requires place { InTable (bound_of place.now).table (place_of at) }
    requires fits { Fits (bound_of place.now).table any_text (place_of at) (val_of value.now) }
    ensures { option_map part_path result
        ≡ first_path (uncarried_prefixed (bound_of place.now) (str_to_ascii_lowercase prefix.now)
        (value_place (bound_of place.now).table (place_of at)) (val_of value.now)) }
{
    match value {
        Value::Map(entries) => {
            some_prefixed(place, prefix, at.value(place.table), entries.as_slice())
        }
        Value::Null => Some(PartSpot::InValue(Spot::Whole)),
        Value::Bool(_) => Some(PartSpot::InValue(Spot::Whole)),
        Value::Int(_) => Some(PartSpot::InValue(Spot::Whole)),
        Value::Text(_) => Some(PartSpot::InValue(Spot::Whole)),
        Value::Blob(_) => Some(PartSpot::InValue(Spot::Whole)),
        Value::Time(_) => Some(PartSpot::InValue(Spot::Whole)),
        Value::List(_) => Some(PartSpot::InValue(Spot::Whole)),
        Value::Structure(_) => Some(PartSpot::InValue(Spot::Whole)),
        Value::Union(_, _) => Some(PartSpot::InValue(Spot::Whole)),
    }
}

fn some_prefixed<'a>(
    place: &BoundPlace<'_>,
    prefix: &str,
    at: ValuePlace,
    entries: &'a [(Text, Value)],
) -> Option<PartSpot<'a>>
    requires shaped { Shaped (bound_of place.now).table }
    requires shape { place.now.shape < shape_count (table_data place.now.table.now) }
    requires place { InTable (bound_of place.now).table (place_of at) }
    ensures { option_map part_path result ≡ first_path (some_prefixed_failing (bound_of place.now) (str_to_ascii_lowercase prefix.now)
        (place_of at) (entries_of (each_entry_view entries.now))) }
{
    if entries.is_empty() {
        return Some(PartSpot::InValue(Spot::Whole));
    }
    first_prefixed(place, prefix, at, entries)
}

fn first_prefixed<'a>(
    place: &BoundPlace<'_>,
    prefix: &str,
    at: ValuePlace,
    entries: &'a [(Text, Value)],
) -> Option<PartSpot<'a>>
    requires shaped { Shaped (bound_of place.now).table }
    requires shape { place.now.shape < shape_count (table_data place.now.table.now) }
    requires place { InTable (bound_of place.now).table (place_of at) }
    ensures { option_map part_path result ≡ first_path (prefixed_failing (bound_of place.now) (str_to_ascii_lowercase prefix.now)
        (place_of at) (entries_of (each_entry_view entries.now))) }
{
    for entry in entries {
        if !is_prefixed_entry(place, prefix, at, entry) {
            return Some(PartSpot::UnderKey(&entry.0, Spot::Whole));
        }
    }
    None
}

fn is_prefixed_entry(
    place: &BoundPlace<'_>,
    prefix: &str,
    at: ValuePlace,
    entry: &(Text, Value),
) -> bool
    requires shaped { Shaped (bound_of place.now).table }
    requires shape { place.now.shape < shape_count (table_data place.now.table.now) }
    requires place { InTable (bound_of place.now).table (place_of at) }
    ensures { result ≡ is_prefixed_entry (bound_of place.now) (str_to_ascii_lowercase prefix.now) (place_of at) entry.now.0
        (val_of entry.now.1) }
{
    is_prefix_key(place, prefix, entry.0.as_str())
        && is_carried(TextTest::OfField, place.table, at, &entry.1)
}
