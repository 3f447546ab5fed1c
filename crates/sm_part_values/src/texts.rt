// Texts by themselves.
ghost use Rattle.std.specs.Prelude.{◌≡◌, true};
ghost use Rattle.sm_shapes.specs.InOrder.{AreStored, Shaped};
ghost use Rattle.sm_shapes.specs.TableView.{table_data};
ghost use Rattle.sm_shapes.specs.ValueView.{val_of};
ghost use Rattle.sm_codec.specs.Codec.{InTable, broken_in, codec_of};
ghost use Rattle.sm_codec.specs.Conventions.{json_convention};
ghost use Rattle.sm_codec.specs.FaultLists.{here, settled};
ghost use Rattle.sm_codec.specs.PlaceView.{place_of};
ghost use Rattle.sm_part_values.specs.FormView.{form_of};
ghost use Rattle.sm_part_values.specs.Joins.{JoinsTo};
ghost use Rattle.sm_part_values.specs.PartTexts.{text_reading};

use crate::faults::fault_here;
use crate::form::PartForm;
use sm_codec::{LeafRefusal, Refusal, ValuePlace};
use sm_shapes::tables::Table;
use sm_shapes::values::Value;
use sm_shapes::{FaultKind, Patterns};
use std::alloc::Global;

/// A value at a place, or the first constraint that it breaks. The store must have the table's patterns, and isn't changed.
///
/// # Errors
///
/// The fault, or `NoMemory`.
pub fn judged<P: Patterns>(
    alloc: Global,
    table: &Table,
    place: ValuePlace,
    value: Value,
    patterns: &mut P,
) -> Result<Value, Refusal>
    requires shaped { Shaped (table_data table.now) }
    requires place { InTable (table_data table.now) (place_of place) }
    requires stored { AreStored (table_data table.now).patterns (P.added patterns.old) }
    ensures joins { JoinsTo (settled (here (broken_in (table_data table.now) P.test (place_of place) (val_of value))) (val_of value)) result }
    ensures added { P.added patterns.new ≡ P.added patterns.old }
    ensures refused { P.refused patterns.new ≡ P.refused patterns.old }
    ensures refusals { P.refusals patterns.new ≡ P.refusals patterns.old }
{
    match place
        .constraints(table)
        .judge(table, place.kind(table), &value, patterns)
    {
        Ok(None) => Ok(value),
        Ok(Some(kind)) => Err(Refusal::Fault(fault_here(alloc, kind))),
        Err(_) => Err(Refusal::NoMemory),
    }
}

/// The value that a text is at a place, or its first fault. The store must have the table's patterns, and isn't changed.
///
/// # Errors
///
/// The fault, or `NoMemory`.
pub fn text_value<P: Patterns>(
    alloc: Global,
    table: &Table,
    place: ValuePlace,
    form: PartForm,
    text: &[u8],
    patterns: &mut P,
) -> Result<Value, Refusal>
    requires shaped { Shaped (table_data table.now) }
    requires place { InTable (table_data table.now) (place_of place) }
    requires stored { AreStored (table_data table.now).patterns (P.added patterns.old) }
    ensures joins { JoinsTo (text_reading (form_of form) (codec_of (table_data table.now) (json_convention true) P.test) (place_of place)
        text.now) result }
    ensures added { P.added patterns.new ≡ P.added patterns.old }
    ensures refused { P.refused patterns.new ≡ P.refused patterns.old }
    ensures refusals { P.refusals patterns.new ≡ P.refusals patterns.old }
{
    match place.simple_with(table, form.usual()) {
        None => Err(Refusal::Fault(fault_here(alloc, FaultKind::WrongType))),
        Some(simple) => match form.read(alloc, simple, text) {
            Ok(value) => judged(alloc, table, place, value, patterns),
            Err(LeafRefusal::Fault(kind)) => Err(Refusal::Fault(fault_here(alloc, kind))),
            Err(LeafRefusal::NoMemory) => Err(Refusal::NoMemory),
        },
    }
}
