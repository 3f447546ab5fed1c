// What is written for parts of a structure, as the events that a sink takes: an object of some of its fields, or one field's value at the
// place of its member.
ghost use Rattle.std.specs.Prelude.{◌<◌, IfOk, IfSome, option_copied};
ghost use Rattle.std.specs.List.Sorted.{IsNonDecreasing};
ghost use Rattle.sm_shapes.specs.Fitting.{Fits, any_text};
ghost use Rattle.sm_shapes.specs.InOrder.{Shaped};
ghost use Rattle.sm_shapes.specs.Places.{root_place};
ghost use Rattle.sm_shapes.specs.TableData.{shape_count};
ghost use Rattle.sm_shapes.specs.TableView.{table_data};
ghost use Rattle.sm_shapes.specs.ValueView.{val_of};
ghost use Rattle.sm_codec.specs.Codec.{InTable};
ghost use Rattle.sm_codec.specs.PlaceView.{place_of};

use crate::event_words::EventWords;
use crate::far::show_path;
use crate::row::AskedObject;
use codec_bodies::BodyWay;
use sm_codec::{
    CborLeaves, JsonLeaves, Leaves, NodeLeaves, ValuePlace, all_carried, all_carried_at,
    carry_fault_at, encode_events_at, encode_object_events,
};
use sm_shapes::tables::Table;
use sm_shapes::values::Value;
use sm_tree::NoMemory;
use std::alloc::Global;

// The numbers of the members of a shape with these names; names of no member are left out.
fn members_named(
    alloc: Global,
    table: &Table,
    shape: u32,
    names: &str,
) -> Result<Vec<u32>, NoMemory>
    requires shaped { Shaped (table_data table.now) }
    requires shape { shape < shape_count (table_data table.now) }
{
    let mut all = Vec::new(alloc);
    for name in names.split(',') {
        if let Some(member) = table.member_named(shape, name) {
            all.push(member)?;
        }
    }
    Ok(all)
}

// These numbers, which rise.
fn numbers_of(alloc: Global, table: &Table, shape: u32, names: &str) -> Result<Vec<u32>, NoMemory>
    requires shaped { Shaped (table_data table.now) }
    requires shape { shape < shape_count (table_data table.now) }
    ensures { IfOk result (λ all. IsNonDecreasing all.items) }
{
    let mut all = members_named(alloc, table, shape, names)?;
    all.sort_unstable();
    Ok(all)
}

// What is written of a structure.
#[derive(Clone, Copy)]
struct Chosen<'a> {
    // The pair before its fields.
    before: Option<(&'a str, &'a str)>,
    // The numbers of the members that are written, or none where all are.
    members: Option<&'a [u32]>,
}

// The object of a structure whose leaves are all carried.
fn show_fields<L: Leaves>(
    alloc: Global,
    table: &Table,
    shape: u32,
    leaves: &L,
    chosen: Chosen<'_>,
    value: &Value,
    out: &mut String,
) -> Result<(), NoMemory>
    requires shaped { Shaped (table_data table.now) }
    requires shape { shape < shape_count (table_data table.now) }
    requires fits { Fits (table_data table.now) any_text (root_place shape) (val_of value.now) }
    requires rise { IfSome (option_copied chosen.members) IsNonDecreasing }
{
    if !all_carried(table, shape, value, leaves) {
        return Ok(out.push_str("not carried")?);
    }
    let Value::Structure(fields) = value else {
        return Ok(out.push_str("no structure")?);
    };
    let mut words = EventWords::new(alloc);
    encode_object_events(
        alloc,
        table,
        shape,
        chosen.before,
        fields.as_slice(),
        chosen.members,
        leaves,
        &mut words,
    )?;
    Ok(out.push_str(words.text.as_str())?)
}

// The object that is asked for, by a convention of leaves.
fn show_object_by<L: Leaves>(
    alloc: Global,
    table: &Table,
    shape: u32,
    leaves: &L,
    asked: AskedObject<'_>,
    value: &Value,
    out: &mut String,
) -> Result<(), NoMemory>
    requires shaped { Shaped (table_data table.now) }
    requires shape { shape < shape_count (table_data table.now) }
    requires fits { Fits (table_data table.now) any_text (root_place shape) (val_of value.now) }
{
    let before = asked.pair.split_once('=');
    if asked.members == "-" {
        let members = None;
        let chosen = Chosen { before, members };
        return show_fields(alloc, table, shape, leaves, chosen, value, out);
    }
    let numbers = numbers_of(alloc, table, shape, asked.members)?;
    let members = Some(numbers.as_slice());
    let chosen = Chosen { before, members };
    show_fields(alloc, table, shape, leaves, chosen, value, out)
}

/// Appends the events of the object that is asked for, or why there is none.
pub fn show_object(
    alloc: Global,
    table: &Table,
    shape: u32,
    asked: AskedObject<'_>,
    value: &Value,
    out: &mut String,
) -> Result<(), NoMemory>
    requires shaped { Shaped (table_data table.now) }
    requires shape { shape < shape_count (table_data table.now) }
    requires fits { Fits (table_data table.now) any_text (root_place shape) (val_of value.now) }
{
    match asked.way {
        BodyWay::Json(json_names) => {
            let leaves = JsonLeaves { json_names };
            show_object_by(alloc, table, shape, &leaves, asked, value, out)
        }
        BodyWay::Node(raw_blobs) => {
            let leaves = NodeLeaves { raw_blobs };
            show_object_by(alloc, table, shape, &leaves, asked, value, out)
        }
        BodyWay::Cbor => show_object_by(alloc, table, shape, &CborLeaves, asked, value, out),
    }
}

// A value at a place: its events, or the way to the first leaf that isn't carried.
fn show_at<L: Leaves>(
    alloc: Global,
    table: &Table,
    place: ValuePlace,
    leaves: &L,
    value: &Value,
    out: &mut String,
) -> Result<(), NoMemory>
    requires shaped { Shaped (table_data table.now) }
    requires place { InTable (table_data table.now) (place_of place) }
    requires fits { Fits (table_data table.now) any_text (place_of place) (val_of value.now) }
{
    if !all_carried_at(table, place, value, leaves) {
        return match carry_fault_at(alloc, table, place, value, leaves)? {
            Some(path) => show_path(alloc, &path, out),
            None => Ok(out.push_str("carried after all")?),
        };
    }
    let mut words = EventWords::new(alloc);
    encode_events_at(alloc, table, place, value, leaves, &mut words)?;
    Ok(out.push_str(words.text.as_str())?)
}

// Of the first field of a structure.
fn show_field_by<L: Leaves>(
    alloc: Global,
    table: &Table,
    shape: u32,
    leaves: &L,
    value: &Value,
    out: &mut String,
) -> Result<(), NoMemory>
    requires shaped { Shaped (table_data table.now) }
    requires shape { shape < shape_count (table_data table.now) }
    requires fits { Fits (table_data table.now) any_text (root_place shape) (val_of value.now) }
{
    let Value::Structure(fields) = value else {
        return Ok(out.push_str("no structure")?);
    };
    match fields.as_slice() {
        [] => Ok(out.push_str("no member")?),
        [field, ..] => {
            let place = ValuePlace::Member(field.0);
            show_at(alloc, table, place, leaves, &field.1, out)
        }
    }
}

/// Appends the events of what is written for the first field of a structure, at the place of its member.
pub fn show_field(
    alloc: Global,
    table: &Table,
    shape: u32,
    way: BodyWay,
    value: &Value,
    out: &mut String,
) -> Result<(), NoMemory>
    requires shaped { Shaped (table_data table.now) }
    requires shape { shape < shape_count (table_data table.now) }
    requires fits { Fits (table_data table.now) any_text (root_place shape) (val_of value.now) }
{
    match way {
        BodyWay::Json(json_names) => {
            let leaves = JsonLeaves { json_names };
            show_field_by(alloc, table, shape, &leaves, value, out)
        }
        BodyWay::Node(raw_blobs) => {
            let leaves = NodeLeaves { raw_blobs };
            show_field_by(alloc, table, shape, &leaves, value, out)
        }
        BodyWay::Cbor => show_field_by(alloc, table, shape, &CborLeaves, value, out),
    }
}
