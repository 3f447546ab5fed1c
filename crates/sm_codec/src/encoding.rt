// Trees from values: the one tree that is written for a value.
ghost use Rattle.std.specs.Prelude.{◌≡◌, ◌<◌, [], IfOk};
ghost use Rattle.sm_tree.specs.Node.{object, member, no_members, nodes_of, members_of};
ghost use Rattle.sm_tree.specs.View.{node_of, nodes_view, members_view};
ghost use Rattle.sm_shapes.specs.Fitting.{Fits, any_text};
ghost use Rattle.sm_shapes.specs.InOrder.{Shaped};
ghost use Rattle.sm_shapes.specs.Places.{root_place, member_place, entry_place, value_place};
ghost use Rattle.sm_shapes.specs.TableData.{shape_count, member_count};
ghost use Rattle.sm_shapes.specs.TableView.{table_data};
ghost use Rattle.sm_shapes.specs.Values.{vals_of, entries_of, fields_of};
ghost use Rattle.sm_shapes.specs.ValueView.{val_of, vals_view, each_entry_view, each_field_view};
ghost use Rattle.sm_codec.specs.Codec.{InTable, wire_name_in};
ghost use Rattle.sm_codec.specs.Encoded.{SpellsByEachTest};
ghost use Rattle.sm_codec.specs.PlaceView.{place_of};
ghost use Rattle.sm_codec.specs.Sorts.{sort_of};
ghost use Rattle.sm_codec.specs.Written.{written, written_leaf, written_entries, written_pairs, written_fields, uncarried};
ghost use Rattle.sm_codec.specs.steps.ValueParts.{PartsHold, EntriesHold, PairsHold, FieldsHold, IsCarried, carried_leaf};

use crate::Leaves;
use crate::places::ValuePlace;
use sm_shapes::tables::Table;
use sm_shapes::values::Value;
use sm_tree::{Items, NoMemory, Pairs, Text, Tree};
use std::alloc::Global;

/// The tree that is written for a value of the shape with this number, whose leaves the convention carries. An object has a pair for each
/// member that is present, in model order, and for each key of a map, in byte order. `NoMemory` where the allocator refuses the memory of
/// the tree.
pub fn encode<L: Leaves>(
    alloc: Global,
    table: &Table,
    shape: u32,
    value: &Value,
    leaves: &L,
) -> Result<Tree, NoMemory>
    requires shaped { Shaped (table_data table.now) }
    requires shape { shape < shape_count (table_data table.now) }
    requires fits { Fits (table_data table.now) any_text (root_place shape) (val_of value.now) }
    requires carried { uncarried (table_data table.now) (L.convention leaves.now) (root_place shape) (val_of value.now) ≡ [] }
    ensures tree { IfOk result (λ tree.
        node_of tree ≡ written (table_data table.now) (L.convention leaves.now) (root_place shape) (val_of value.now)) }
    ensures spells { IfOk result (λ tree.
        SpellsByEachTest (table_data table.now) (L.convention leaves.now) (root_place shape) (val_of value.now) (node_of tree)) }
{
    encode_at(alloc, table, ValuePlace::Root(shape), value, leaves)
}

/// The tree that is written for a value at a place, whose leaves the convention carries. At a member its own format and constraints count.
/// `NoMemory` where the allocator refuses the memory of the tree.
pub fn encode_at<L: Leaves>(
    alloc: Global,
    table: &Table,
    place: ValuePlace,
    value: &Value,
    leaves: &L,
) -> Result<Tree, NoMemory>
    requires shaped { Shaped (table_data table.now) }
    requires place { InTable (table_data table.now) (place_of place) }
    requires fits { Fits (table_data table.now) any_text (place_of place) (val_of value.now) }
    requires carried { uncarried (table_data table.now) (L.convention leaves.now) (place_of place) (val_of value.now) ≡ [] }
    ensures tree { IfOk result (λ tree.
        node_of tree ≡ written (table_data table.now) (L.convention leaves.now) (place_of place) (val_of value.now)) }
    ensures spells { IfOk result (λ tree.
        SpellsByEachTest (table_data table.now) (L.convention leaves.now) (place_of place) (val_of value.now) (node_of tree)) }
{
    leaves.laws();
    tree_at(alloc, table, place, value, leaves)
}

// A leaf; at a place of no simple type it is null.
fn encode_leaf<L: Leaves>(
    alloc: Global,
    table: &Table,
    place: ValuePlace,
    value: &Value,
    leaves: &L,
) -> Result<Tree, NoMemory>
    requires shaped { Shaped (table_data table.now) }
    requires place { InTable (table_data table.now) (place_of place) }
    requires carried { IsCarried (L.convention leaves.now) (sort_of (table_data table.now) (place_of place)) (val_of value.now) }
    ensures { IfOk result (λ tree.
        node_of tree ≡ written_leaf (L.convention leaves.now) (sort_of (table_data table.now) (place_of place)) (val_of value.now)) }
{
    match place.simple(table) {
        Some(simple) => leaves.write(alloc, simple, value),
        None => Ok(Tree::Null),
    }
}

#[cycle(encode)]
fn tree_at<L: Leaves>(
    alloc: Global,
    table: &Table,
    place: ValuePlace,
    value: &Value,
    leaves: &L,
) -> Result<Tree, NoMemory>
    requires shaped { Shaped (table_data table.now) }
    requires parts { PartsHold (table_data table.now) (carried_leaf (table_data table.now) (L.convention leaves.now)) (place_of place)
        (val_of value.now) }
    ensures { IfOk result (λ tree.
        node_of tree ≡ written (table_data table.now) (L.convention leaves.now) (place_of place) (val_of value.now)) }
{
    match value {
        Value::Null => Ok(Tree::Null),
        Value::Bool(_) => encode_leaf(alloc, table, place, value, leaves),
        Value::Int(_) => encode_leaf(alloc, table, place, value, leaves),
        Value::Text(_) => encode_leaf(alloc, table, place, value, leaves),
        Value::Blob(_) => encode_leaf(alloc, table, place, value, leaves),
        Value::Time(_) => encode_leaf(alloc, table, place, value, leaves),
        Value::List(items) => match encode_items(alloc, table, place, items.as_slice(), leaves) {
            Ok(entries) => Ok(Tree::List(Items::new(entries))),
            Err(refusal) => Err(refusal),
        },
        Value::Map(entries) => {
            match encode_entries(alloc, table, place, entries.as_slice(), leaves) {
                Ok(pairs) => Ok(Tree::Object(Pairs::new(pairs))),
                Err(refusal) => Err(refusal),
            }
        }
        Value::Structure(fields) => {
            match encode_fields(alloc, table, place, fields.as_slice(), leaves) {
                Ok(pairs) => Ok(Tree::Object(Pairs::new(pairs))),
                Err(refusal) => Err(refusal),
            }
        }
        Value::Union(member, content) => {
            match encode_member(alloc, table, place, *member, content, leaves) {
                Ok(pair) => one_pair(alloc, pair),
                Err(refusal) => Err(refusal),
            }
        }
    }
}

// An object of one pair.
fn one_pair(alloc: Global, pair: (Text, Tree)) -> Result<Tree, NoMemory>
    ensures { IfOk result (λ tree. node_of tree ≡ object (member pair.0 (node_of pair.1) no_members)) }
{
    let mut pairs = Vec::new(alloc);
    match pairs.push(pair) {
        Ok(()) => Ok(Tree::Object(Pairs::new(pairs))),
        Err(_) => Err(NoMemory),
    }
}

#[cycle(encode)]
fn encode_items<L: Leaves>(
    alloc: Global,
    table: &Table,
    place: ValuePlace,
    items: &[Value],
    leaves: &L,
) -> Result<Vec<Tree>, NoMemory>
    requires shaped { Shaped (table_data table.now) }
    requires place { InTable (table_data table.now) (place_of place) }
    requires parts { EntriesHold (table_data table.now) (carried_leaf (table_data table.now) (L.convention leaves.now))
        (entry_place (table_data table.now) (place_of place)) (vals_of (vals_view items.now)) }
    ensures { IfOk result (λ entries. nodes_of (nodes_view entries.items)
        ≡ written_entries (table_data table.now) (L.convention leaves.now) (place_of place) (vals_of (vals_view items.now))) }
{
    let entry = place.entry(table);
    let mut entries = Vec::with_capacity(alloc, items.len())?;
    for item in items {
        let tree = tree_at(alloc, table, entry, item, leaves)?;
        entries.push(tree)?;
    }
    Ok(entries)
}

#[cycle(encode)]
fn encode_entries<L: Leaves>(
    alloc: Global,
    table: &Table,
    place: ValuePlace,
    entries: &[(Text, Value)],
    leaves: &L,
) -> Result<Vec<(Text, Tree)>, NoMemory>
    requires shaped { Shaped (table_data table.now) }
    requires place { InTable (table_data table.now) (place_of place) }
    requires parts { PairsHold (table_data table.now) (carried_leaf (table_data table.now) (L.convention leaves.now))
        (value_place (table_data table.now) (place_of place)) (entries_of (each_entry_view entries.now)) }
    ensures { IfOk result (λ pairs. members_of (members_view pairs.items)
        ≡ written_pairs (table_data table.now) (L.convention leaves.now) (place_of place) (entries_of (each_entry_view entries.now))) }
{
    let inner = place.value(table);
    let mut pairs = Vec::with_capacity(alloc, entries.len())?;
    for entry in entries {
        let key = Text::copy(alloc, entry.0.as_str())?;
        let tree = tree_at(alloc, table, inner, &entry.1, leaves)?;
        pairs.push((key, tree))?;
    }
    Ok(pairs)
}

#[cycle(encode)]
fn encode_fields<L: Leaves>(
    alloc: Global,
    table: &Table,
    place: ValuePlace,
    fields: &[(u32, Value)],
    leaves: &L,
) -> Result<Vec<(Text, Tree)>, NoMemory>
    requires shaped { Shaped (table_data table.now) }
    requires place { InTable (table_data table.now) (place_of place) }
    requires parts { FieldsHold (table_data table.now) (carried_leaf (table_data table.now) (L.convention leaves.now))
        (fields_of (each_field_view fields.now)) }
    ensures { IfOk result (λ pairs. members_of (members_view pairs.items)
        ≡ written_fields (table_data table.now) (L.convention leaves.now) (place_of place) (fields_of (each_field_view fields.now))) }
{
    let mut pairs = Vec::with_capacity(alloc, fields.len())?;
    for part in fields {
        let pair = encode_member(alloc, table, place, part.0, &part.1, leaves)?;
        pairs.push(pair)?;
    }
    Ok(pairs)
}

// The value of a member of the shape at a place, with the member's name.
#[cycle(encode)]
fn encode_member<L: Leaves>(
    alloc: Global,
    table: &Table,
    place: ValuePlace,
    member: u32,
    value: &Value,
    leaves: &L,
) -> Result<(Text, Tree), NoMemory>
    requires shaped { Shaped (table_data table.now) }
    requires place { InTable (table_data table.now) (place_of place) }
    requires member { member < member_count (table_data table.now) }
    requires parts { PartsHold (table_data table.now) (carried_leaf (table_data table.now) (L.convention leaves.now)) (member_place member)
        (val_of value.now) }
    ensures name { IfOk result (λ pair. pair.0 ≡ wire_name_in (table_data table.now) (L.convention leaves.now) (place_of place) member) }
    ensures tree { IfOk result (λ pair.
        node_of pair.1 ≡ written (table_data table.now) (L.convention leaves.now) (member_place member) (val_of value.now)) }
{
    match tree_at(alloc, table, ValuePlace::Member(member), value, leaves) {
        Ok(tree) => {
            let name = leaves.wire_name(table, place.shape(table), member);
            match Text::copy(alloc, name) {
                Ok(name) => Ok((name, tree)),
                Err(refusal) => Err(refusal),
            }
        }
        Err(refusal) => Err(refusal),
    }
}
