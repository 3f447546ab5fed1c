// The events of the object that is written for some fields of a structure, a pair of its own before them.
ghost use Rattle.std.specs.Prelude.{◌≡◌, ◌<◌, ◌∷◌, [], IfSome, OnOk, option_copied, option_map};
ghost use Rattle.std.specs.List.Sorted.{IsNonDecreasing};
ghost use Rattle.sm_tree.specs.Events.{text_event};
ghost use Rattle.sm_tree.specs.Node as node;
ghost use Rattle.sm_tree.specs.Streams.{TakesEach, TakesSame, numbered};
ghost use Rattle.sm_shapes.specs.Fitting.{Fits, any_text};
ghost use Rattle.sm_shapes.specs.InOrder.{Shaped};
ghost use Rattle.sm_shapes.specs.Places.{root_place};
ghost use Rattle.sm_shapes.specs.TableData.{shape_count};
ghost use Rattle.sm_shapes.specs.TableView.{table_data};
ghost use Rattle.sm_shapes.specs.Values.{structure_val, fields_of};
ghost use Rattle.sm_shapes.specs.ValueView.{each_field_view};
ghost use Rattle.sm_codec.specs.Codec.{InTable};
ghost use Rattle.sm_codec.specs.Convention.{IsConvention};
ghost use Rattle.sm_codec.specs.PlaceView.{place_of};
ghost use Rattle.sm_codec.specs.Written.{uncarried_fields};
ghost use Rattle.sm_codec.specs.WrittenObjects.{fields_among, written_object};
ghost use Rattle.sm_codec.specs.steps.EventsHanded.{IsReady, Came, before_stream, object_count, pair_stream, chosen_stream};
ghost use Rattle.sm_codec.specs.steps.ValueParts.{FieldsCarried};

use crate::Leaves;
use crate::events::{hand, hand_fields, hand_key};
use crate::listed::written_count;
use crate::places::ValuePlace;
use crate::writing::Writing;
use sm_shapes::tables::Table;
use sm_shapes::values::Value;
use sm_tree::{Event, EventSink, NoMemory, Text};
use std::alloc::Global;

/// Hands to a sink the events of the object that is written for the fields of a structure of the shape with this number, its opener
/// with its number. The pair of a name and a text comes first, if one is given, then the fields in model order, of these members alone if
/// some are named. Their numbers must rise. Only what is written must be carried. The sink must stand for no event yet, and take these.
/// `NoMemory` where the allocator or the sink refuses memory; the sink is then of no use.
pub fn encode_object_events<L: Leaves, E: EventSink>(
    alloc: Global,
    table: &Table,
    shape: u32,
    before: Option<(&str, &str)>,
    fields: &[(u32, Value)],
    members: Option<&[u32]>,
    leaves: &L,
    to: &mut E,
) -> Result<(), NoMemory>
    requires shaped { Shaped (table_data table.now) }
    requires shape { shape < shape_count (table_data table.now) }
    requires fits { Fits (table_data table.now) any_text (root_place shape) (structure_val (fields_of (each_field_view fields.now))) }
    requires rise { IfSome (option_copied members) IsNonDecreasing }
    requires carried { uncarried_fields (table_data table.now) (L.convention leaves.now)
        (fields_among (option_copied members) (fields_of (each_field_view fields.now))) ≡ [] }
    requires takes { TakesEach (E.takes to.old) (numbered (written_object (table_data table.now) (L.convention leaves.now)
        (root_place shape) (option_map (λ pair. (pair.0.now, pair.1.now)) before) (option_copied members)
        (fields_of (each_field_view fields.now))) []) }
    requires empty { E.stands_for to.old [] }
    ensures stands { OnOk result (E.stands_for to.new (numbered (written_object (table_data table.now) (L.convention leaves.now)
        (root_place shape) (option_map (λ pair. (pair.0.now, pair.1.now)) before.entry) (option_copied members.entry)
        (fields_of (each_field_view fields.now))) [])) }
    ensures alike { E.alike to.old to.new }
    ensures takes_same { OnOk result (TakesSame (E.takes to.old) (E.takes to.new)) }
{
    leaves.laws();
    let by = Writing {
        alloc,
        table,
        leaves,
    };
    hand_object(&by, ValuePlace::Root(shape), before, fields, members, to)
}

// The object: its opener, the pair before its fields, and these.
fn hand_object<L: Leaves, E: EventSink>(
    by: &Writing<L>,
    place: ValuePlace,
    before: Option<(&str, &str)>,
    fields: &[(u32, Value)],
    members: Option<&[u32]>,
    to: &mut E,
) -> Result<(), NoMemory>
    requires rise { IfSome (option_copied members) IsNonDecreasing }
    requires parts { FieldsCarried (table_data by.now.table.now) (L.convention by.now.leaves.now)
        (fields_among (option_copied members) (fields_of (each_field_view fields.now))) }
    requires place { InTable (table_data by.now.table.now) (place_of place) }
    requires shaped { Shaped (table_data by.now.table.now) }
    requires laws { IsConvention (L.convention by.now.leaves.now) }
    requires ready { IsReady (E.stands_for to.old) (E.takes to.old)
        (chosen_stream (table_data by.now.table.now) (L.convention by.now.leaves.now) (place_of place)
        (option_map (λ pair. (pair.0.now, pair.1.now)) before) (option_copied members) fields.now) }
    ensures came { OnOk result (Came (E.stands_for to.old) (E.takes to.old)
        (chosen_stream (table_data by.now.table.now) (L.convention by.now.leaves.now) (place_of place)
        (option_map (λ pair. (pair.0.now, pair.1.now)) before.entry) (option_copied members.entry) fields.now)
        (E.stands_for to.new) (E.takes to.new)) }
    ensures alike { E.alike to.old to.new }
{
    let count = count_pairs(before, fields, members);
    match hand(Event::StartObject(Some(count)), to) {
        Ok(()) => match hand_before(by.alloc, before, to) {
            Ok(()) => hand_fields(by, place, fields, members, to),
            Err(refusal) => Err(refusal),
        },
        Err(refusal) => Err(refusal),
    }
}

// How many pairs the object has.
fn count_pairs(
    before: Option<(&str, &str)>,
    fields: &[(u32, Value)],
    members: Option<&[u32]>,
) -> u64
    requires rise { IfSome (option_copied members) IsNonDecreasing }
    ensures { result ≡ object_count (option_map (λ pair. (pair.0.now, pair.1.now)) before.entry)
        (fields_among (option_copied members.entry) (fields_of (each_field_view fields.now))) }
{
    match before {
        Some(_) => written_count(fields, members) + 1,
        None => written_count(fields, members),
    }
}

// The pair before the fields, if there is one.
fn hand_before<E: EventSink>(
    alloc: Global,
    before: Option<(&str, &str)>,
    to: &mut E,
) -> Result<(), NoMemory>
    requires ready { IsReady (E.stands_for to.old) (E.takes to.old)
        (before_stream (option_map (λ pair. (pair.0.now, pair.1.now)) before)) }
    ensures came { OnOk result (Came (E.stands_for to.old) (E.takes to.old)
        (before_stream (option_map (λ pair. (pair.0.now, pair.1.now)) before.entry)) (E.stands_for to.new) (E.takes to.new)) }
    ensures alike { E.alike to.old to.new }
{
    match before {
        Some((name, text)) => hand_text(alloc, name, text, to),
        None => Ok(()),
    }
}

// A pair of a name and a text.
fn hand_text<E: EventSink>(
    alloc: Global,
    name: &str,
    text: &str,
    to: &mut E,
) -> Result<(), NoMemory>
    requires ready { IsReady (E.stands_for to.old) (E.takes to.old) (pair_stream name.now (node.text text.now)) }
    ensures came { OnOk result (Came (E.stands_for to.old) (E.takes to.old) (pair_stream name.now (node.text text.now))
        (E.stands_for to.new) (E.takes to.new)) }
    ensures alike { E.alike to.old to.new }
{
    match hand_key(alloc, name, to) {
        Ok(()) => hand_copy(alloc, text, to),
        Err(refusal) => Err(refusal),
    }
}

// A text that is a value.
fn hand_copy<E: EventSink>(alloc: Global, text: &str, to: &mut E) -> Result<(), NoMemory>
    requires ready { IsReady (E.stands_for to.old) (E.takes to.old) (text_event text.now ∷ []) }
    ensures came { OnOk result (Came (E.stands_for to.old) (E.takes to.old) (text_event text.now ∷ []) (E.stands_for to.new)
        (E.takes to.new)) }
    ensures alike { E.alike to.old to.new }
{
    match Text::copy(alloc, text) {
        Ok(copy) => hand(Event::Text(copy), to),
        Err(refusal) => Err(refusal),
    }
}
