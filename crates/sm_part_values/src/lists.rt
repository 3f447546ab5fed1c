// Lists of texts.
ghost use Rattle.std.specs.Prelude.{◌≡◌, map, true};
ghost use Rattle.sm_shapes.specs.InOrder.{AreStored, Shaped};
ghost use Rattle.sm_shapes.specs.Places.{kind_of};
ghost use Rattle.sm_shapes.specs.TableView.{table_data};
ghost use Rattle.sm_shapes.specs.ValueView.{items_view};
ghost use Rattle.sm_shapes.specs.declared.kinds.ShapeKind.TheVariants.{List as a_list};
ghost use Rattle.sm_codec.specs.Codec.{InTable, codec_of};
ghost use Rattle.sm_codec.specs.Conventions.{json_convention};
ghost use Rattle.sm_codec.specs.PlaceView.{place_of};
ghost use Rattle.sm_codec.specs.Readings.{list_reading};
ghost use Rattle.sm_part_values.specs.FormView.{form_of};
ghost use Rattle.sm_part_values.specs.Joins.{JoinsTo};
ghost use Rattle.sm_part_values.specs.PartTexts.{entry_child};
ghost use Rattle.sm_part_values.specs.steps.Lists.{EntriesJoin, IsUnderStep, closed_list, unique_list};
ghost use Rattle.sm_tree.specs.declared.path.Step.TheVariants.{Index};

use crate::faults::{fault_here, under_step};
use crate::form::PartForm;
use crate::texts::text_value;
use sm_codec::{Refusal, ValuePlace};
use sm_parts::ListEntry;
use sm_shapes::tables::Table;
use sm_shapes::values::{Items, Value};
use sm_shapes::{FaultKind, Patterns};
use sm_tree::Step;
use std::alloc::Global;

/// The value of a list at a place whose entries these are, or its first fault. The store must have the table's patterns, and isn't changed.
///
/// # Errors
///
/// The fault, or `NoMemory`.
pub fn entries_value<P: Patterns>(
    alloc: Global,
    table: &Table,
    place: ValuePlace,
    form: PartForm,
    entries: &[ListEntry],
    patterns: &mut P,
) -> Result<Value, Refusal>
    requires shaped { Shaped (table_data table.now) }
    requires place { InTable (table_data table.now) (place_of place) }
    requires list { kind_of (table_data table.now) (place_of place) ≡ a_list }
    requires stored { AreStored (table_data table.now).patterns (P.added patterns.old) }
    ensures joins { JoinsTo (list_reading (codec_of (table_data table.now) (json_convention true) P.test) (place_of place)
        (map (entry_child (form_of form) (codec_of (table_data table.now) (json_convention true) P.test)) entries.now)) result }
    ensures added { P.added patterns.new ≡ P.added patterns.old }
    ensures refused { P.refused patterns.new ≡ P.refused patterns.old }
    ensures refusals { P.refusals patterns.new ≡ P.refusals patterns.old }
{
    match each_value(alloc, table, place, form, entries, patterns) {
        Ok(values) => close_list(alloc, table, place, Items::new(values)),
        Err(refusal) => Err(refusal),
    }
}

// The values of all entries, or the first fault of one.
fn each_value<P: Patterns>(
    alloc: Global,
    table: &Table,
    place: ValuePlace,
    form: PartForm,
    entries: &[ListEntry],
    patterns: &mut P,
) -> Result<Vec<Value>, Refusal>
    requires shaped { Shaped (table_data table.now) }
    requires place { InTable (table_data table.now) (place_of place) }
    requires list { kind_of (table_data table.now) (place_of place) ≡ a_list }
    requires stored { AreStored (table_data table.now).patterns (P.added patterns.old) }
    ensures joins { EntriesJoin (codec_of (table_data table.now) (json_convention true) P.test) (place_of place)
        (map (entry_child (form_of form) (codec_of (table_data table.now) (json_convention true) P.test)) entries.now) result }
    ensures added { P.added patterns.new ≡ P.added patterns.old }
    ensures refused { P.refused patterns.new ≡ P.refused patterns.old }
    ensures refusals { P.refusals patterns.new ≡ P.refusals patterns.old }
{
    let mut values = Vec::new(alloc);
    for index in 0..entries.len() {
        match entry_value(
            alloc,
            table,
            place.entry(table),
            form,
            &entries[index],
            patterns,
        ) {
            Ok(value) => match values.push(value) {
                Ok(()) => {}
                Err(_) => return Err(Refusal::NoMemory),
            },
            Err(refusal) => return Err(at_index(index, refusal)),
        }
    }
    Ok(values)
}

// The value of an entry.
fn entry_value<P: Patterns>(
    alloc: Global,
    table: &Table,
    place: ValuePlace,
    form: PartForm,
    entry: &ListEntry,
    patterns: &mut P,
) -> Result<Value, Refusal>
    requires shaped { Shaped (table_data table.now) }
    requires place { InTable (table_data table.now) (place_of place) }
    requires stored { AreStored (table_data table.now).patterns (P.added patterns.old) }
    ensures joins { JoinsTo ((entry_child (form_of form) (codec_of (table_data table.now) (json_convention true) P.test) entry.now).reading
        (place_of place)) result }
    ensures added { P.added patterns.new ≡ P.added patterns.old }
    ensures refused { P.refused patterns.new ≡ P.refused patterns.old }
    ensures refusals { P.refusals patterns.new ≡ P.refusals patterns.old }
{
    match entry {
        ListEntry::Text(text) => text_value(alloc, table, place, form, text.as_slice(), patterns),
        ListEntry::NoEntry => Err(Refusal::Fault(fault_here(alloc, FaultKind::WrongType))),
    }
}

// A refusal, seen from the list.
fn at_index(index: usize, refusal: Refusal) -> Refusal
    ensures { IsUnderStep (Index index) refusal result }
{
    match refusal {
        Refusal::Fault(fault) => match under_step(Step::Index(index as u64), fault) {
            Ok(longer) => Refusal::Fault(longer),
            Err(_) => Refusal::NoMemory,
        },
        Refusal::NoMemory => Refusal::NoMemory,
    }
}

// A list whose entries have no fault.
fn close_list(
    alloc: Global,
    table: &Table,
    place: ValuePlace,
    items: Items,
) -> Result<Value, Refusal>
    requires shaped { Shaped (table_data table.now) }
    requires place { InTable (table_data table.now) (place_of place) }
    ensures { JoinsTo (closed_list (table_data table.now) (place_of place) (items_view items)) result }
{
    if let Some(kind) = place
        .constraints(table)
        .judge_length(items.as_slice().len())
    {
        return Err(Refusal::Fault(fault_here(alloc, kind)));
    }
    close_unique(alloc, table.shape(place.shape(table)).unique, items)
}

// A list whose entries may have to differ.
fn close_unique(alloc: Global, unique: bool, items: Items) -> Result<Value, Refusal>
    ensures { JoinsTo (unique_list unique (items_view items)) result }
{
    if !unique {
        return Ok(Value::List(items));
    }
    match items.has_twice(alloc) {
        Ok(true) => Err(Refusal::Fault(fault_here(alloc, FaultKind::Unique))),
        Ok(false) => Ok(Value::List(items)),
        Err(_) => Err(Refusal::NoMemory),
    }
}
