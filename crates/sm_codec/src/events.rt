// The events of the tree that is written for a value, without the tree.
ghost use Rattle.std.specs.Prelude.{◌≡◌, ◌<◌, ◌∷◌, [], true, Some, IfSome, OnOk, option_copied};
ghost use Rattle.std.specs.List.Sorted.{IsNonDecreasing};
ghost use Rattle.sm_tree.specs.Events.{key_event};
ghost use Rattle.sm_tree.specs.EventView.{event_of};
ghost use Rattle.sm_tree.specs.Streams.{TakesEach, TakesSame, numbered};
ghost use Rattle.sm_tree.specs.Node.{tag};
ghost use Rattle.sm_tree.specs.View.{node_of};
ghost use Rattle.sm_shapes.specs.Fitting.{Fits, any_text};
ghost use Rattle.sm_shapes.specs.InOrder.{Shaped};
ghost use Rattle.sm_shapes.specs.Places.{root_place, member_place, entry_place, value_place};
ghost use Rattle.sm_shapes.specs.TableData.{shape_count, member_count};
ghost use Rattle.sm_shapes.specs.TableView.{table_data};
ghost use Rattle.sm_shapes.specs.Values.{vals_of, entries_of, fields_of};
ghost use Rattle.sm_shapes.specs.ValueView.{val_of, vals_view, each_entry_view, each_field_view};
ghost use Rattle.sm_codec.specs.Codec.{InTable};
ghost use Rattle.sm_codec.specs.Convention.{IsConvention};
ghost use Rattle.sm_codec.specs.PlaceView.{place_of};
ghost use Rattle.sm_codec.specs.Sorts.{sort_of};
ghost use Rattle.sm_codec.specs.Written.{written, uncarried};
ghost use Rattle.sm_codec.specs.WrittenObjects as chosen;
ghost use Rattle.sm_codec.specs.steps.EventsHanded.{IsReady, Came, IsPlain, IsLeafNode, FieldHolds, value_stream, leaf_stream};
ghost use Rattle.sm_codec.specs.steps.EventsHanded.{items_stream, entries_stream, fields_stream, fields_left, field_stream, named_stream};
ghost use Rattle.sm_codec.specs.steps.EventsHanded.{union_stream};
ghost use Rattle.sm_codec.specs.steps.ValueParts.{PartsCarried, EntriesCarried, PairsCarried, FieldsCarried, IsCarried, carried_leaf};

use crate::Leaves;
use crate::listed::is_written;
use crate::places::ValuePlace;
use crate::writing::Writing;
use sm_shapes::tables::Table;
use sm_shapes::values::Value;
use sm_tree::{Event, EventSink, NoMemory, Text, Tree};
use std::alloc::Global;

/// Hands to a sink the events of the tree that `encode` gives, each opener with its number, without the tree. The sink must stand for no
/// event yet, and take these. `NoMemory` where the allocator or the sink refuses memory; the sink is then of no use.
pub fn encode_events<L: Leaves, E: EventSink>(
    alloc: Global,
    table: &Table,
    shape: u32,
    value: &Value,
    leaves: &L,
    to: &mut E,
) -> Result<(), NoMemory>
    requires shaped { Shaped (table_data table.now) }
    requires shape { shape < shape_count (table_data table.now) }
    requires fits { Fits (table_data table.now) any_text (root_place shape) (val_of value.now) }
    requires carried { uncarried (table_data table.now) (L.convention leaves.now) (root_place shape) (val_of value.now) ≡ [] }
    requires takes { TakesEach (E.takes to.old)
        (numbered (written (table_data table.now) (L.convention leaves.now) (root_place shape) (val_of value.now)) []) }
    requires empty { E.stands_for to.old [] }
    ensures stands { OnOk result (E.stands_for to.new
        (numbered (written (table_data table.now) (L.convention leaves.now) (root_place shape) (val_of value.now)) [])) }
    ensures takes_same { OnOk result (TakesSame (E.takes to.old) (E.takes to.new)) }
    ensures alike { E.alike to.old to.new }
{
    encode_events_at(alloc, table, ValuePlace::Root(shape), value, leaves, to)
}

/// Hands to a sink the events of the tree that `encode_at` gives for a value at a place, each opener with its number, without the tree.
/// At a member its own format and constraints count. The sink must stand for no event yet, and take these. `NoMemory` where the allocator
/// or the sink refuses memory; the sink is then of no use.
pub fn encode_events_at<L: Leaves, E: EventSink>(
    alloc: Global,
    table: &Table,
    place: ValuePlace,
    value: &Value,
    leaves: &L,
    to: &mut E,
) -> Result<(), NoMemory>
    requires shaped { Shaped (table_data table.now) }
    requires place { InTable (table_data table.now) (place_of place) }
    requires fits { Fits (table_data table.now) any_text (place_of place) (val_of value.now) }
    requires carried { uncarried (table_data table.now) (L.convention leaves.now) (place_of place) (val_of value.now) ≡ [] }
    requires takes { TakesEach (E.takes to.old)
        (numbered (written (table_data table.now) (L.convention leaves.now) (place_of place) (val_of value.now)) []) }
    requires empty { E.stands_for to.old [] }
    ensures stands { OnOk result (E.stands_for to.new
        (numbered (written (table_data table.now) (L.convention leaves.now) (place_of place) (val_of value.now)) [])) }
    ensures takes_same { OnOk result (TakesSame (E.takes to.old) (E.takes to.new)) }
    ensures alike { E.alike to.old to.new }
{
    leaves.laws();
    let by = Writing {
        alloc,
        table,
        leaves,
    };
    hand_value(&by, place, value, to)
}

// One event.
pub(crate) fn hand<E: EventSink>(event: Event, to: &mut E) -> Result<(), NoMemory>
    requires ready { IsReady (E.stands_for to.old) (E.takes to.old) (event_of event ∷ []) }
    ensures came { OnOk result (Came (E.stands_for to.old) (E.takes to.old) (event_of event ∷ []) (E.stands_for to.new) (E.takes to.new)) }
    ensures alike { E.alike to.old to.new }
{
    to.event(event)
}

// The name of a pair.
pub(crate) fn hand_key<E: EventSink>(alloc: Global, name: &str, to: &mut E) -> Result<(), NoMemory>
    requires ready { IsReady (E.stands_for to.old) (E.takes to.old) (key_event name.now ∷ []) }
    ensures came { OnOk result (Came (E.stands_for to.old) (E.takes to.old) (key_event name.now ∷ []) (E.stands_for to.new)
        (E.takes to.new)) }
    ensures alike { E.alike to.old to.new }
{
    match Text::copy(alloc, name) {
        Ok(copy) => hand(Event::Key(copy), to),
        Err(refusal) => Err(refusal),
    }
}

// A tree that is no list, no object and no tag.
fn hand_plain<E: EventSink>(tree: Tree, to: &mut E) -> Result<(), NoMemory>
    requires plain { IsPlain (node_of tree) }
    requires ready { IsReady (E.stands_for to.old) (E.takes to.old) (numbered (node_of tree) []) }
    ensures came { OnOk result
        (Came (E.stands_for to.old) (E.takes to.old) (numbered (node_of tree) []) (E.stands_for to.new) (E.takes to.new)) }
    ensures alike { E.alike to.old to.new }
{
    match tree {
        Tree::Null => hand(Event::Null, to),
        Tree::Bool(truth) => hand(Event::Bool(truth), to),
        Tree::Int(number) => hand(Event::Int(number), to),
        Tree::Number(number) => hand(Event::Number(number), to),
        Tree::Text(text) => hand(Event::Text(text), to),
        Tree::Bytes(bytes) => hand(Event::Bytes(bytes), to),
        Tree::Opaque(byte) => hand(Event::Opaque(byte), to),
        Tree::Tag(_, _) => unreachable!(),
        Tree::List(_) => unreachable!(),
        Tree::Object(_) => unreachable!(),
    }
}

// A tree that is no list and no object, and no tag of one or of a tag.
fn hand_leaf<E: EventSink>(tree: Tree, to: &mut E) -> Result<(), NoMemory>
    requires leaf { IsLeafNode (node_of tree) }
    requires ready { IsReady (E.stands_for to.old) (E.takes to.old) (numbered (node_of tree) []) }
    ensures came { OnOk result
        (Came (E.stands_for to.old) (E.takes to.old) (numbered (node_of tree) []) (E.stands_for to.new) (E.takes to.new)) }
    ensures alike { E.alike to.old to.new }
{
    match tree {
        Tree::Tag(number, content) => hand_tagged(number, Box::into_inner(content), to),
        Tree::Null => hand(Event::Null, to),
        Tree::Bool(truth) => hand(Event::Bool(truth), to),
        Tree::Int(number) => hand(Event::Int(number), to),
        Tree::Number(number) => hand(Event::Number(number), to),
        Tree::Text(text) => hand(Event::Text(text), to),
        Tree::Bytes(bytes) => hand(Event::Bytes(bytes), to),
        Tree::Opaque(byte) => hand(Event::Opaque(byte), to),
        Tree::List(_) => unreachable!(),
        Tree::Object(_) => unreachable!(),
    }
}

fn hand_tagged<E: EventSink>(number: u64, content: Tree, to: &mut E) -> Result<(), NoMemory>
    requires plain { IsPlain (node_of content) }
    requires ready { IsReady (E.stands_for to.old) (E.takes to.old) (numbered (tag number (node_of content)) []) }
    ensures came { OnOk result
        (Came (E.stands_for to.old) (E.takes to.old) (numbered (tag number (node_of content)) []) (E.stands_for to.new) (E.takes to.new)) }
    ensures alike { E.alike to.old to.new }
{
    match hand(Event::Tag(number), to) {
        Ok(()) => hand_plain(content, to),
        Err(refusal) => Err(refusal),
    }
}

// A leaf; at a place of no simple type it is null.
fn hand_simple<L: Leaves, E: EventSink>(
    by: &Writing<L>,
    place: ValuePlace,
    value: &Value,
    to: &mut E,
) -> Result<(), NoMemory>
    requires place { InTable (table_data by.now.table.now) (place_of place) }
    requires shaped { Shaped (table_data by.now.table.now) }
    requires laws { IsConvention (L.convention by.now.leaves.now) }
    requires carried { IsCarried (L.convention by.now.leaves.now) (sort_of (table_data by.now.table.now) (place_of place))
        (val_of value.now) }
    requires ready { IsReady (E.stands_for to.old) (E.takes to.old)
        (leaf_stream (table_data by.now.table.now) (L.convention by.now.leaves.now) (place_of place) (val_of value.now)) }
    ensures came { OnOk result (Came (E.stands_for to.old) (E.takes to.old)
        (leaf_stream (table_data by.now.table.now) (L.convention by.now.leaves.now) (place_of place) (val_of value.now))
        (E.stands_for to.new) (E.takes to.new)) }
    ensures alike { E.alike to.old to.new }
{
    match place.simple(by.table) {
        Some(simple) => match by.leaves.write(by.alloc, simple, value) {
            Ok(tree) => hand_leaf(tree, to),
            Err(refusal) => Err(refusal),
        },
        None => hand(Event::Null, to),
    }
}

#[cycle(hand)]
fn hand_value<L: Leaves, E: EventSink>(
    by: &Writing<L>,
    place: ValuePlace,
    value: &Value,
    to: &mut E,
) -> Result<(), NoMemory>
    requires laws { IsConvention (L.convention by.now.leaves.now) }
    requires shaped { Shaped (table_data by.now.table.now) }
    requires parts { PartsCarried (table_data by.now.table.now) (L.convention by.now.leaves.now)
        (place_of place) (val_of value.now) }
    requires ready { IsReady (E.stands_for to.old) (E.takes to.old)
        (value_stream (table_data by.now.table.now) (L.convention by.now.leaves.now) (place_of place) (val_of value.now)) }
    ensures came { OnOk result (Came (E.stands_for to.old) (E.takes to.old)
        (value_stream (table_data by.now.table.now) (L.convention by.now.leaves.now) (place_of place) (val_of value.now))
        (E.stands_for to.new) (E.takes to.new)) }
    ensures alike { E.alike to.old to.new }
{
    match value {
        Value::Null => hand(Event::Null, to),
        Value::Bool(_) => hand_simple(by, place, value, to),
        Value::Int(_) => hand_simple(by, place, value, to),
        Value::Text(_) => hand_simple(by, place, value, to),
        Value::Blob(_) => hand_simple(by, place, value, to),
        Value::Time(_) => hand_simple(by, place, value, to),
        Value::List(items) => hand_items(by, place, items.as_slice(), to),
        Value::Map(entries) => hand_entries(by, place, entries.as_slice(), to),
        Value::Structure(fields) => hand_structure(by, place, fields.as_slice(), to),
        Value::Union(member, content) => hand_one(by, place, *member, content, to),
    }
}

#[cycle(hand)]
fn hand_items<L: Leaves, E: EventSink>(
    by: &Writing<L>,
    place: ValuePlace,
    items: &[Value],
    to: &mut E,
) -> Result<(), NoMemory>
    requires laws { IsConvention (L.convention by.now.leaves.now) }
    requires shaped { Shaped (table_data by.now.table.now) }
    requires place { InTable (table_data by.now.table.now) (place_of place) }
    requires parts { EntriesCarried (table_data by.now.table.now) (L.convention by.now.leaves.now)
        (entry_place (table_data by.now.table.now) (place_of place)) (vals_of (vals_view items.now)) }
    requires ready { IsReady (E.stands_for to.old) (E.takes to.old)
        (items_stream (table_data by.now.table.now) (L.convention by.now.leaves.now) (place_of place) items.now) }
    ensures came { OnOk result (Came (E.stands_for to.old) (E.takes to.old)
        (items_stream (table_data by.now.table.now) (L.convention by.now.leaves.now) (place_of place) items.now)
        (E.stands_for to.new) (E.takes to.new)) }
    ensures alike { E.alike to.old to.new }
{
    let entry = place.entry(by.table);
    match hand(Event::StartList(Some(items.len() as u64)), to) {
        Ok(()) => {}
        Err(refusal) => return Err(refusal),
    }
    for item in items {
        match hand_value(by, entry, item, to) {
            Ok(()) => {}
            Err(refusal) => return Err(refusal),
        }
    }
    hand(Event::EndList, to)
}

#[cycle(hand)]
fn hand_entries<L: Leaves, E: EventSink>(
    by: &Writing<L>,
    place: ValuePlace,
    entries: &[(Text, Value)],
    to: &mut E,
) -> Result<(), NoMemory>
    requires laws { IsConvention (L.convention by.now.leaves.now) }
    requires shaped { Shaped (table_data by.now.table.now) }
    requires place { InTable (table_data by.now.table.now) (place_of place) }
    requires parts { PairsCarried (table_data by.now.table.now) (L.convention by.now.leaves.now)
        (value_place (table_data by.now.table.now) (place_of place)) (entries_of (each_entry_view entries.now)) }
    requires ready { IsReady (E.stands_for to.old) (E.takes to.old)
        (entries_stream (table_data by.now.table.now) (L.convention by.now.leaves.now) (place_of place) entries.now) }
    ensures came { OnOk result (Came (E.stands_for to.old) (E.takes to.old)
        (entries_stream (table_data by.now.table.now) (L.convention by.now.leaves.now) (place_of place) entries.now)
        (E.stands_for to.new) (E.takes to.new)) }
    ensures alike { E.alike to.old to.new }
{
    let inner = place.value(by.table);
    match hand(Event::StartObject(Some(entries.len() as u64)), to) {
        Ok(()) => {}
        Err(refusal) => return Err(refusal),
    }
    for pair in entries {
        match hand_pair(by, pair.0.as_str(), inner, &pair.1, to) {
            Ok(()) => {}
            Err(refusal) => return Err(refusal),
        }
    }
    hand(Event::EndObject, to)
}

// The object of a structure: each of its fields.
#[cycle(hand)]
fn hand_structure<L: Leaves, E: EventSink>(
    by: &Writing<L>,
    place: ValuePlace,
    fields: &[(u32, Value)],
    to: &mut E,
) -> Result<(), NoMemory>
    requires laws { IsConvention (L.convention by.now.leaves.now) }
    requires shaped { Shaped (table_data by.now.table.now) }
    requires place { InTable (table_data by.now.table.now) (place_of place) }
    requires parts { FieldsCarried (table_data by.now.table.now) (L.convention by.now.leaves.now)
        (fields_of (each_field_view fields.now)) }
    requires ready { IsReady (E.stands_for to.old) (E.takes to.old)
        (fields_stream (table_data by.now.table.now) (L.convention by.now.leaves.now) (place_of place) fields.now) }
    ensures came { OnOk result (Came (E.stands_for to.old) (E.takes to.old)
        (fields_stream (table_data by.now.table.now) (L.convention by.now.leaves.now) (place_of place) fields.now)
        (E.stands_for to.new) (E.takes to.new)) }
    ensures alike { E.alike to.old to.new }
{
    match hand(Event::StartObject(Some(fields.len() as u64)), to) {
        Ok(()) => hand_fields(by, place, fields, None, to),
        Err(refusal) => Err(refusal),
    }
}

// The pairs of those fields that are written, and the end of the object.
#[cycle(hand)]
pub(crate) fn hand_fields<L: Leaves, E: EventSink>(
    by: &Writing<L>,
    place: ValuePlace,
    fields: &[(u32, Value)],
    members: Option<&[u32]>,
    to: &mut E,
) -> Result<(), NoMemory>
    requires laws { IsConvention (L.convention by.now.leaves.now) }
    requires shaped { Shaped (table_data by.now.table.now) }
    requires place { InTable (table_data by.now.table.now) (place_of place) }
    requires rise { IfSome (option_copied members) IsNonDecreasing }
    requires parts { FieldsCarried (table_data by.now.table.now) (L.convention by.now.leaves.now)
        (chosen.fields_among (option_copied members) (fields_of (each_field_view fields.now))) }
    requires ready { IsReady (E.stands_for to.old) (E.takes to.old)
        (fields_left (table_data by.now.table.now) (L.convention by.now.leaves.now) (place_of place) (option_copied members) fields.now) }
    ensures came { OnOk result (Came (E.stands_for to.old) (E.takes to.old)
        (fields_left (table_data by.now.table.now) (L.convention by.now.leaves.now) (place_of place) (option_copied members.entry)
        fields.now)
        (E.stands_for to.new) (E.takes to.new)) }
    ensures alike { E.alike to.old to.new }
{
    for part in fields {
        match hand_field(by, place, part, members, to) {
            Ok(()) => {}
            Err(refusal) => return Err(refusal),
        }
    }
    hand(Event::EndObject, to)
}

// The pair of a field, if it is written.
#[cycle(hand)]
fn hand_field<L: Leaves, E: EventSink>(
    by: &Writing<L>,
    place: ValuePlace,
    part: &(u32, Value),
    members: Option<&[u32]>,
    to: &mut E,
) -> Result<(), NoMemory>
    requires rise { IfSome (option_copied members) IsNonDecreasing }
    requires laws { IsConvention (L.convention by.now.leaves.now) }
    requires shaped { Shaped (table_data by.now.table.now) }
    requires place { InTable (table_data by.now.table.now) (place_of place) }
    requires part { chosen.is_written (option_copied members) part.now.0 ≡ true → FieldHolds (table_data by.now.table.now)
        (carried_leaf (table_data by.now.table.now) (L.convention by.now.leaves.now)) part.now.0 (val_of part.now.1) }
    requires ready { IsReady (E.stands_for to.old) (E.takes to.old)
        (field_stream (table_data by.now.table.now) (L.convention by.now.leaves.now) (place_of place) (option_copied members)
        part.now.0 (val_of part.now.1)) }
    ensures came { OnOk result (Came (E.stands_for to.old) (E.takes to.old)
        (field_stream (table_data by.now.table.now) (L.convention by.now.leaves.now) (place_of place) (option_copied members.entry)
        part.now.0 (val_of part.now.1))
        (E.stands_for to.new) (E.takes to.new)) }
    ensures alike { E.alike to.old to.new }
{
    if is_written(members, part.0) {
        let name = by.leaves.wire_name(by.table, place.shape(by.table), part.0);
        let place = ValuePlace::Member(part.0);
        hand_pair(by, name, place, &part.1, to)
    } else {
        Ok(())
    }
}

// A pair: its name, and the value at a place.
#[cycle(hand)]
fn hand_pair<L: Leaves, E: EventSink>(
    by: &Writing<L>,
    name: &str,
    place: ValuePlace,
    value: &Value,
    to: &mut E,
) -> Result<(), NoMemory>
    requires parts { PartsCarried (table_data by.now.table.now) (L.convention by.now.leaves.now)
        (place_of place) (val_of value.now) }
    requires laws { IsConvention (L.convention by.now.leaves.now) }
    requires shaped { Shaped (table_data by.now.table.now) }
    requires ready { IsReady (E.stands_for to.old) (E.takes to.old)
        (named_stream (table_data by.now.table.now) (L.convention by.now.leaves.now) (place_of place) name.now (val_of value.now)) }
    ensures came { OnOk result (Came (E.stands_for to.old) (E.takes to.old)
        (named_stream (table_data by.now.table.now) (L.convention by.now.leaves.now) (place_of place) name.now (val_of value.now))
        (E.stands_for to.new) (E.takes to.new)) }
    ensures alike { E.alike to.old to.new }
{
    match hand_key(by.alloc, name, to) {
        Ok(()) => hand_value(by, place, value, to),
        Err(refusal) => Err(refusal),
    }
}

// The one member of a union.
#[cycle(hand)]
fn hand_one<L: Leaves, E: EventSink>(
    by: &Writing<L>,
    place: ValuePlace,
    member: u32,
    value: &Value,
    to: &mut E,
) -> Result<(), NoMemory>
    requires laws { IsConvention (L.convention by.now.leaves.now) }
    requires shaped { Shaped (table_data by.now.table.now) }
    requires place { InTable (table_data by.now.table.now) (place_of place) }
    requires member { member < member_count (table_data by.now.table.now) }
    requires parts { PartsCarried (table_data by.now.table.now) (L.convention by.now.leaves.now)
        (member_place member) (val_of value.now) }
    requires ready { IsReady (E.stands_for to.old) (E.takes to.old)
        (union_stream (table_data by.now.table.now) (L.convention by.now.leaves.now) (place_of place) member (val_of value.now)) }
    ensures came { OnOk result (Came (E.stands_for to.old) (E.takes to.old)
        (union_stream (table_data by.now.table.now) (L.convention by.now.leaves.now) (place_of place) member (val_of value.now))
        (E.stands_for to.new) (E.takes to.new)) }
    ensures alike { E.alike to.old to.new }
{
    let name = by.leaves.wire_name(by.table, place.shape(by.table), member);
    match hand(Event::StartObject(Some(1)), to) {
        Ok(()) => {}
        Err(refusal) => return Err(refusal),
    }
    match hand_pair(by, name, ValuePlace::Member(member), value, to) {
        Ok(()) => {}
        Err(refusal) => return Err(refusal),
    }
    hand(Event::EndObject, to)
}
