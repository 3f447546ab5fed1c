// Maps of texts.
ghost use Rattle.std.specs.Prelude.{◌≡◌, ◌++◌, ◌∷◌, [], IfOk, OnOk, map, slice_index_or, true};
ghost use Rattle.sm_shapes.specs.InOrder.{AreStored, Shaped};
ghost use Rattle.sm_shapes.specs.Places.{kind_of, value_place};
ghost use Rattle.sm_shapes.specs.TableView.{table_data};
ghost use Rattle.sm_shapes.specs.ValueView.{each_entry_view, entries_view, val_of};
ghost use Rattle.sm_shapes.specs.declared.kinds.ShapeKind.TheVariants.{List as a_list, Map as a_map};
ghost use Rattle.sm_groups.specs.Groups.{group_view, groups_view};
ghost use Rattle.sm_codec.specs.Codec.{InTable, codec_of};
ghost use Rattle.sm_codec.specs.Conventions.{json_convention};
ghost use Rattle.sm_codec.specs.PlaceView.{place_of};
ghost use Rattle.sm_codec.specs.Readings.{key_faults, map_reading};
ghost use Rattle.sm_part_values.specs.FormView.{form_of};
ghost use Rattle.sm_part_values.specs.Joins.{JoinsTo};
ghost use Rattle.sm_part_values.specs.PartTexts.{keyed_by};
ghost use Rattle.sm_part_values.specs.steps.Lists.{IsUnderStep};
ghost use Rattle.sm_part_values.specs.steps.Maps.{GroupsJoin, IsFirstKind, PairJoins, closed_map, group_children, group_reading};
ghost use Rattle.sm_part_values.specs.steps.Maps.{groups_reading, is_again};
ghost use Rattle.sm_parts.specs.declared.list_entry.ListEntry.TheVariants.{Text as some_text};
ghost use Rattle.sm_tree.specs.declared.path.Step.TheVariants.{Key};

use crate::faults::{fault_here, under_key};
use crate::form::PartForm;
use crate::lists::entries_value;
use crate::texts::text_value;
use sm_codec::{Refusal, ValuePlace};
use sm_groups::{Group, by_key};
use sm_parts::ListEntry;
use sm_shapes::tables::Table;
use sm_shapes::values::{Entries, Value};
use sm_shapes::{FaultKind, Patterns};
use sm_tree::{Bytes, NoMemory, Text};
use std::alloc::Global;

/// The value of a map at a place whose pairs these are, to texts or to lists of them, or its first fault in byte order of the keys. The store
/// must have the table's patterns, and isn't changed. n log n in the pairs.
///
/// # Errors
///
/// The fault, or `NoMemory`.
pub fn keyed_value<P: Patterns>(
    alloc: Global,
    table: &Table,
    place: ValuePlace,
    form: PartForm,
    lists: bool,
    rows: Vec<(Text, Bytes)>,
    patterns: &mut P,
) -> Result<Value, Refusal>
    requires shaped { Shaped (table_data table.now) }
    requires place { InTable (table_data table.now) (place_of place) }
    requires map { kind_of (table_data table.now) (place_of place) ≡ a_map }
    requires lists { lists ≡ true → kind_of (table_data table.now) (value_place (table_data table.now) (place_of place)) ≡ a_list }
    requires stored { AreStored (table_data table.now).patterns (P.added patterns.old) }
    ensures joins { JoinsTo (map_reading (codec_of (table_data table.now) (json_convention true) P.test) (place_of place)
        (keyed_by lists (form_of form) (codec_of (table_data table.now) (json_convention true) P.test) rows.items)) result }
    ensures added { P.added patterns.new ≡ P.added patterns.old }
    ensures refused { P.refused patterns.new ≡ P.refused patterns.old }
    ensures refusals { P.refusals patterns.new ≡ P.refusals patterns.old }
{
    match by_key(alloc, rows) {
        Ok(groups) => groups_value(
            alloc,
            table,
            place,
            form,
            lists,
            groups.as_slice(),
            patterns,
        ),
        Err(_) => Err(Refusal::NoMemory),
    }
}

// The same of groups.
fn groups_value<P: Patterns>(
    alloc: Global,
    table: &Table,
    place: ValuePlace,
    form: PartForm,
    lists: bool,
    groups: &[Group<Bytes>],
    patterns: &mut P,
) -> Result<Value, Refusal>
    requires shaped { Shaped (table_data table.now) }
    requires place { InTable (table_data table.now) (place_of place) }
    requires map { kind_of (table_data table.now) (place_of place) ≡ a_map }
    requires lists { lists ≡ true → kind_of (table_data table.now) (value_place (table_data table.now) (place_of place)) ≡ a_list }
    requires stored { AreStored (table_data table.now).patterns (P.added patterns.old) }
    ensures joins { JoinsTo (groups_reading lists (form_of form) (codec_of (table_data table.now) (json_convention true) P.test) (place_of place)
        (groups_view groups.now)) result }
    ensures added { P.added patterns.new ≡ P.added patterns.old }
    ensures refused { P.refused patterns.new ≡ P.refused patterns.old }
    ensures refusals { P.refusals patterns.new ≡ P.refusals patterns.old }
{
    match each_entry(alloc, table, place, form, lists, groups, patterns) {
        Ok(entries) => close_map(alloc, table, place, Entries::new(entries)),
        Err(refusal) => Err(refusal),
    }
}

// The entries of all groups, or the first fault of one.
fn each_entry<P: Patterns>(
    alloc: Global,
    table: &Table,
    place: ValuePlace,
    form: PartForm,
    lists: bool,
    groups: &[Group<Bytes>],
    patterns: &mut P,
) -> Result<Vec<(Text, Value)>, Refusal>
    requires shaped { Shaped (table_data table.now) }
    requires place { InTable (table_data table.now) (place_of place) }
    requires map { kind_of (table_data table.now) (place_of place) ≡ a_map }
    requires lists { lists ≡ true → kind_of (table_data table.now) (value_place (table_data table.now) (place_of place)) ≡ a_list }
    requires stored { AreStored (table_data table.now).patterns (P.added patterns.old) }
    ensures joins { GroupsJoin lists (form_of form) (codec_of (table_data table.now) (json_convention true) P.test) (place_of place)
        (groups_view groups.now) result }
    ensures added { P.added patterns.new ≡ P.added patterns.old }
    ensures refused { P.refused patterns.new ≡ P.refused patterns.old }
    ensures refusals { P.refusals patterns.new ≡ P.refusals patterns.old }
{
    let mut entries = Vec::new(alloc);
    for index in 0..groups.len() {
        match group_value(alloc, table, place, form, lists, &groups[index], patterns) {
            Ok(value) => match put_entry(alloc, &mut entries, groups[index].key.as_str(), value) {
                Ok(()) => {}
                Err(_) => return Err(Refusal::NoMemory),
            },
            Err(refusal) => return Err(at_key(alloc, groups[index].key.as_str(), refusal)),
        }
    }
    Ok(entries)
}

// Puts the entry of a key behind others.
fn put_entry(
    alloc: Global,
    entries: &mut Vec<(Text, Value)>,
    key: &str,
    value: Value,
) -> Result<(), NoMemory>
    ensures { OnOk result (each_entry_view entries.new.items ≡ each_entry_view entries.old.items ++ (key.now, val_of value) ∷ []) }
{
    match Text::copy(alloc, key) {
        Ok(copy) => match entries.push((copy, value)) {
            Ok(()) => Ok(()),
            Err(_) => Err(NoMemory),
        },
        Err(refusal) => Err(refusal),
    }
}

// What stands under a key: a fault of the key itself goes first.
fn group_value<P: Patterns>(
    alloc: Global,
    table: &Table,
    place: ValuePlace,
    form: PartForm,
    lists: bool,
    group: &Group<Bytes>,
    patterns: &mut P,
) -> Result<Value, Refusal>
    requires shaped { Shaped (table_data table.now) }
    requires place { InTable (table_data table.now) (place_of place) }
    requires map { kind_of (table_data table.now) (place_of place) ≡ a_map }
    requires lists { lists ≡ true → kind_of (table_data table.now) (value_place (table_data table.now) (place_of place)) ≡ a_list }
    requires stored { AreStored (table_data table.now).patterns (P.added patterns.old) }
    ensures joins { PairJoins (codec_of (table_data table.now) (json_convention true) P.test) (place_of place) group.now.key
        (group_children lists (form_of form) (codec_of (table_data table.now) (json_convention true) P.test) (group_view group.now).1) result }
    ensures added { P.added patterns.new ≡ P.added patterns.old }
    ensures refused { P.refused patterns.new ≡ P.refused patterns.old }
    ensures refusals { P.refusals patterns.new ≡ P.refusals patterns.old }
{
    if is_again(lists, group.more.as_slice()) {
        return Err(Refusal::Fault(fault_here(alloc, FaultKind::Repeated)));
    }
    match key_fault(table, place, group.key.as_str(), patterns) {
        Ok(None) => member_value(
            alloc,
            table,
            place.value(table),
            form,
            lists,
            group,
            patterns,
        ),
        Ok(Some(kind)) => Err(Refusal::Fault(fault_here(alloc, kind))),
        Err(_) => Err(Refusal::NoMemory),
    }
}

// Whether more texts than one stand there, and they are no list.
fn is_again(lists: bool, more: &[Bytes]) -> bool
    ensures { result ≡ is_again lists more.now }
{
    match more {
        [] => false,
        [_, ..] => !lists,
    }
}

// The value of a group: a list of its texts, or the first of them.
fn member_value<P: Patterns>(
    alloc: Global,
    table: &Table,
    place: ValuePlace,
    form: PartForm,
    lists: bool,
    group: &Group<Bytes>,
    patterns: &mut P,
) -> Result<Value, Refusal>
    requires shaped { Shaped (table_data table.now) }
    requires place { InTable (table_data table.now) (place_of place) }
    requires lists { lists ≡ true → kind_of (table_data table.now) (place_of place) ≡ a_list }
    requires stored { AreStored (table_data table.now).patterns (P.added patterns.old) }
    ensures joins { JoinsTo (group_reading lists (form_of form) (codec_of (table_data table.now) (json_convention true) P.test) (place_of place)
        (group_view group.now).1) result }
    ensures added { P.added patterns.new ≡ P.added patterns.old }
    ensures refused { P.refused patterns.new ≡ P.refused patterns.old }
    ensures refusals { P.refusals patterns.new ≡ P.refusals patterns.old }
{
    if !lists {
        return text_value(alloc, table, place, form, group.first.as_slice(), patterns);
    }
    match group_entries(alloc, group) {
        Ok(entries) => entries_value(alloc, table, place, form, entries.as_slice(), patterns),
        Err(_) => Err(Refusal::NoMemory),
    }
}

/// The texts of a group as entries of a list.
///
/// # Errors
///
/// `NoMemory`.
pub fn group_entries(alloc: Global, group: &Group<Bytes>) -> Result<Vec<ListEntry>, NoMemory>
    ensures { IfOk result (λ entries. entries.items ≡ map some_text (group_view group.now).1) }
{
    let mut entries = Vec::with_capacity(alloc, group.more.len())?;
    put_text(alloc, &mut entries, &group.first)?;
    for text in group.more.as_slice() {
        put_text(alloc, &mut entries, text)?;
    }
    Ok(entries)
}

fn put_text(alloc: Global, entries: &mut Vec<ListEntry>, text: &Bytes) -> Result<(), NoMemory>
    ensures { OnOk result (entries.new.items ≡ entries.old.items ++ some_text text.now ∷ []) }
{
    let copy = Bytes::new(text.as_slice().to_vec(alloc)?);
    match entries.push(ListEntry::Text(copy)) {
        Ok(()) => Ok(()),
        Err(_) => Err(NoMemory),
    }
}

// The first constraint of a map's keys that a key breaks.
fn key_fault<P: Patterns>(
    table: &Table,
    place: ValuePlace,
    key: &str,
    patterns: &mut P,
) -> Result<Option<FaultKind>, NoMemory>
    requires shaped { Shaped (table_data table.now) }
    requires place { InTable (table_data table.now) (place_of place) }
    requires map { kind_of (table_data table.now) (place_of place) ≡ a_map }
    requires stored { AreStored (table_data table.now).patterns (P.added patterns.old) }
    ensures first { IfOk result (IsFirstKind (key_faults (codec_of (table_data table.now) (json_convention true) P.test) (place_of place)
        key.now)) }
    ensures added { P.added patterns.new ≡ P.added patterns.old }
    ensures refused { P.refused patterns.new ≡ P.refused patterns.old }
    ensures refusals { P.refusals patterns.new ≡ P.refusals patterns.old }
{
    let row = table.member(key_member(table.members(place.shape(table))));
    row.constraints
        .judge_text(table, table.kind(row.target), key, patterns)
}

// The member of a map's keys.
fn key_member(members: &[u32]) -> u32
    ensures { result ≡ slice_index_or members.now 0 0 }
{
    match members.first() {
        Some(member) => *member,
        None => 0,
    }
}

// A refusal, seen from the map.
fn at_key(alloc: Global, key: &str, refusal: Refusal) -> Refusal
    ensures { IsUnderStep (Key key.now) refusal result }
{
    match refusal {
        Refusal::Fault(fault) => match under_key(alloc, key, fault) {
            Ok(longer) => Refusal::Fault(longer),
            Err(_) => Refusal::NoMemory,
        },
        Refusal::NoMemory => Refusal::NoMemory,
    }
}

// A map whose entries have no fault.
fn close_map(
    alloc: Global,
    table: &Table,
    place: ValuePlace,
    entries: Entries,
) -> Result<Value, Refusal>
    requires shaped { Shaped (table_data table.now) }
    requires place { InTable (table_data table.now) (place_of place) }
    ensures { JoinsTo (closed_map (table_data table.now) (place_of place) (entries_view entries)) result }
{
    if let Some(kind) = place
        .constraints(table)
        .judge_length(entries.as_slice().len())
    {
        return Err(Refusal::Fault(fault_here(alloc, kind)));
    }
    Ok(Value::Map(entries))
}
