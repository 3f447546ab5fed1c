// The way to the first leaf of a value that a convention doesn't carry.
ghost use Rattle.std.specs.Prelude.{◌≡◌, ◌<◌, ◌∷◌, ◌++◌, [], List, Some, IfOk};
ghost use Rattle.sm_tree.specs.declared.path.Step.{Step};
ghost use Rattle.sm_tree.specs.declared.path.Step.TheVariants as steps;
ghost use Rattle.sm_shapes.specs.Fitting.{Fits, any_text};
ghost use Rattle.sm_shapes.specs.InOrder.{Shaped};
ghost use Rattle.sm_shapes.specs.Places.{root_place, member_place, entry_place, value_place};
ghost use Rattle.sm_shapes.specs.TableData.{shape_count, member_count, name_at};
ghost use Rattle.sm_shapes.specs.TableView.{table_data};
ghost use Rattle.sm_shapes.specs.Values.{vals_of, entries_of, fields_of};
ghost use Rattle.sm_shapes.specs.ValueView.{val_of, vals_view, each_entry_view, each_field_view};
ghost use Rattle.sm_codec.specs.Codec.{InTable};
ghost use Rattle.sm_codec.specs.Encoded.{first_path};
ghost use Rattle.sm_codec.specs.PlaceView.{place_of};
ghost use Rattle.sm_codec.specs.Sorts.{sort_of};
ghost use Rattle.sm_codec.specs.Written.{uncarried, uncarried_leaf, uncarried_entries, uncarried_pairs, uncarried_fields, paths_under};
ghost use Rattle.sm_codec.specs.steps.ValueParts.{PartsHold, EntriesHold, PairsHold, FieldsHold, any_leaf, FoundFirst};

use crate::Leaves;
use crate::carried::is_leaf_carried;
use crate::places::ValuePlace;
use sm_shapes::tables::Table;
use sm_shapes::values::Value;
use sm_tree::{NoMemory, Path, Step, Text};
use std::alloc::Global;

/// The way to the first leaf, in model order, that the convention doesn't carry, of a value of the shape with this number.
pub fn carry_fault<L: Leaves>(
    alloc: Global,
    table: &Table,
    shape: u32,
    value: &Value,
    leaves: &L,
) -> Result<Option<Path>, NoMemory>
    requires shaped { Shaped (table_data table.now) }
    requires shape { shape < shape_count (table_data table.now) }
    requires fits { Fits (table_data table.now) any_text (root_place shape) (val_of value.now) }
    ensures { IfOk result (λ found.
        found ≡ first_path (uncarried (table_data table.now) (L.convention leaves.now) (root_place shape) (val_of value.now))) }
{
    carry_fault_at(alloc, table, ValuePlace::Root(shape), value, leaves)
}

/// The way to the first leaf, in model order, that the convention doesn't carry, of a value at a place. At a member its own format counts. The
/// way begins at the value.
pub fn carry_fault_at<L: Leaves>(
    alloc: Global,
    table: &Table,
    place: ValuePlace,
    value: &Value,
    leaves: &L,
) -> Result<Option<Path>, NoMemory>
    requires shaped { Shaped (table_data table.now) }
    requires place { InTable (table_data table.now) (place_of place) }
    requires fits { Fits (table_data table.now) any_text (place_of place) (val_of value.now) }
    ensures { IfOk result (λ found.
        found ≡ first_path (uncarried (table_data table.now) (L.convention leaves.now) (place_of place) (val_of value.now))) }
{
    match first_at(alloc, table, place, value, leaves) {
        Ok(found) => Ok(turned(found)),
        Err(refusal) => Err(refusal),
    }
}

// The path of steps of which the last comes first.
fn turned(found: Option<Path>) -> Option<Path>
    ensures { (paths : List (List Step)) → FoundFirst paths found → result ≡ first_path paths }
{
    match found {
        Some(path) => {
            let mut steps = path.into_inner();
            steps.reverse();
            Some(Path::new(steps))
        }
        None => None,
    }
}

// One step more, behind those that have come.
fn with_step(path: Path, step: Step) -> Result<Option<Path>, NoMemory>
    ensures { IfOk result (λ found. found ≡ Some (path ++ step ∷ [])) }
{
    let mut steps = path.into_inner();
    match steps.push(step) {
        Ok(()) => Ok(Some(Path::new(steps))),
        Err(_) => Err(NoMemory),
    }
}

fn with_member(
    alloc: Global,
    table: &Table,
    member: u32,
    path: Path,
) -> Result<Option<Path>, NoMemory>
    requires { member < member_count (table_data table.now) }
    ensures { IfOk result (λ found. found ≡ Some (path ++ steps.Member (name_at (table_data table.now) member) ∷ [])) }
{
    match Text::copy(alloc, table.name(member)) {
        Ok(name) => with_step(path, Step::Member(name)),
        Err(refusal) => Err(refusal),
    }
}

fn with_key(alloc: Global, key: &Text, path: Path) -> Result<Option<Path>, NoMemory>
    ensures { IfOk result (λ found. found ≡ Some (path ++ steps.Key key.now ∷ [])) }
{
    match Text::copy(alloc, key.as_str()) {
        Ok(copy) => with_step(path, Step::Key(copy)),
        Err(refusal) => Err(refusal),
    }
}

// A leaf that isn't carried is its own first.
fn first_leaf<L: Leaves>(
    alloc: Global,
    table: &Table,
    place: ValuePlace,
    value: &Value,
    leaves: &L,
) -> Option<Path>
    requires shaped { Shaped (table_data table.now) }
    requires place { InTable (table_data table.now) (place_of place) }
    ensures { FoundFirst
        (uncarried_leaf (L.convention leaves.now) (sort_of (table_data table.now) (place_of place)) (val_of value.now)) result }
{
    if is_leaf_carried(table, place, value, leaves) {
        None
    } else {
        Some(Path::new(Vec::new(alloc)))
    }
}

// The steps from a value to its first leaf that isn't carried, the last one first.
#[cycle(first)]
fn first_at<L: Leaves>(
    alloc: Global,
    table: &Table,
    place: ValuePlace,
    value: &Value,
    leaves: &L,
) -> Result<Option<Path>, NoMemory>
    requires shaped { Shaped (table_data table.now) }
    requires parts { PartsHold (table_data table.now) any_leaf (place_of place) (val_of value.now) }
    ensures { IfOk result
        (FoundFirst (uncarried (table_data table.now) (L.convention leaves.now) (place_of place) (val_of value.now))) }
{
    match value {
        Value::Null => Ok(None),
        Value::Bool(_) => Ok(first_leaf(alloc, table, place, value, leaves)),
        Value::Int(_) => Ok(first_leaf(alloc, table, place, value, leaves)),
        Value::Text(_) => Ok(first_leaf(alloc, table, place, value, leaves)),
        Value::Blob(_) => Ok(first_leaf(alloc, table, place, value, leaves)),
        Value::Time(_) => Ok(first_leaf(alloc, table, place, value, leaves)),
        Value::List(items) => first_in_items(alloc, table, place, items.as_slice(), leaves),
        Value::Map(entries) => first_in_entries(alloc, table, place, entries.as_slice(), leaves),
        Value::Structure(fields) => first_in_fields(alloc, table, fields.as_slice(), leaves),
        Value::Union(member, content) => first_in_member(alloc, table, *member, content, leaves),
    }
}

#[cycle(first)]
fn first_in_items<L: Leaves>(
    alloc: Global,
    table: &Table,
    place: ValuePlace,
    items: &[Value],
    leaves: &L,
) -> Result<Option<Path>, NoMemory>
    requires shaped { Shaped (table_data table.now) }
    requires place { InTable (table_data table.now) (place_of place) }
    requires parts { EntriesHold (table_data table.now) any_leaf (entry_place (table_data table.now) (place_of place))
        (vals_of (vals_view items.now)) }
    ensures { IfOk result (FoundFirst
        (uncarried_entries (table_data table.now) (L.convention leaves.now) (place_of place) 0 (vals_of (vals_view items.now)))) }
{
    let entry = place.entry(table);
    let mut at: u64 = 0;
    for item in items {
        match first_at(alloc, table, entry, item, leaves) {
            Ok(found) => match found {
                Some(path) => return with_step(path, Step::Index(at)),
                None => {}
            },
            Err(refusal) => return Err(refusal),
        }
        at += 1;
    }
    Ok(None)
}

#[cycle(first)]
fn first_in_entries<L: Leaves>(
    alloc: Global,
    table: &Table,
    place: ValuePlace,
    entries: &[(Text, Value)],
    leaves: &L,
) -> Result<Option<Path>, NoMemory>
    requires shaped { Shaped (table_data table.now) }
    requires place { InTable (table_data table.now) (place_of place) }
    requires parts { PairsHold (table_data table.now) any_leaf (value_place (table_data table.now) (place_of place))
        (entries_of (each_entry_view entries.now)) }
    ensures { IfOk result (FoundFirst
        (uncarried_pairs (table_data table.now) (L.convention leaves.now) (place_of place) (entries_of (each_entry_view entries.now)))) }
{
    let inner = place.value(table);
    for pair in entries {
        match first_at(alloc, table, inner, &pair.1, leaves) {
            Ok(found) => match found {
                Some(path) => return with_key(alloc, &pair.0, path),
                None => {}
            },
            Err(refusal) => return Err(refusal),
        }
    }
    Ok(None)
}

#[cycle(first)]
fn first_in_fields<L: Leaves>(
    alloc: Global,
    table: &Table,
    fields: &[(u32, Value)],
    leaves: &L,
) -> Result<Option<Path>, NoMemory>
    requires shaped { Shaped (table_data table.now) }
    requires parts { FieldsHold (table_data table.now) any_leaf (fields_of (each_field_view fields.now)) }
    ensures { IfOk result (FoundFirst
        (uncarried_fields (table_data table.now) (L.convention leaves.now) (fields_of (each_field_view fields.now)))) }
{
    for part in fields {
        match first_in_member(alloc, table, part.0, &part.1, leaves) {
            Ok(found) => match found {
                Some(path) => return Ok(Some(path)),
                None => {}
            },
            Err(refusal) => return Err(refusal),
        }
    }
    Ok(None)
}

// Of a member's value, seen from what has the member.
#[cycle(first)]
fn first_in_member<L: Leaves>(
    alloc: Global,
    table: &Table,
    member: u32,
    value: &Value,
    leaves: &L,
) -> Result<Option<Path>, NoMemory>
    requires shaped { Shaped (table_data table.now) }
    requires member { member < member_count (table_data table.now) }
    requires parts { PartsHold (table_data table.now) any_leaf (member_place member) (val_of value.now) }
    ensures { IfOk result (FoundFirst (paths_under (steps.Member (name_at (table_data table.now) member))
        (uncarried (table_data table.now) (L.convention leaves.now) (member_place member) (val_of value.now)))) }
{
    match first_at(alloc, table, ValuePlace::Member(member), value, leaves) {
        Ok(found) => match found {
            Some(path) => with_member(alloc, table, member, path),
            None => Ok(None),
        },
        Err(refusal) => Err(refusal),
    }
}
