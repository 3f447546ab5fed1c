// Members for which texts of labels and queries may stand.
ghost use Rattle.std.specs.Prelude.{◌≡◌, ◌<◌, None, Ok, Some, map, true};
ghost use Rattle.sm_shapes.specs.InOrder.{AreStored, Shaped};
ghost use Rattle.sm_shapes.specs.Places.{kind_of, member_place};
ghost use Rattle.sm_shapes.specs.TableData.{member_count};
ghost use Rattle.sm_shapes.specs.TableView.{table_data};
ghost use Rattle.sm_shapes.specs.ValueView.{val_of};
ghost use Rattle.sm_shapes.specs.declared.kinds.ShapeKind.TheVariants.{List as a_list};
ghost use Rattle.sm_codec.specs.Codec.{codec_of};
ghost use Rattle.sm_codec.specs.Conventions.{json_convention};
ghost use Rattle.sm_codec.specs.FaultLists.{Reading};
ghost use Rattle.sm_codec.specs.Readings.{absent_reading, absent_with, member_reading, present_reading, when_closed};
ghost use Rattle.sm_part_values.specs.Joins.{JoinsTo, MemberJoins};
ghost use Rattle.sm_part_values.specs.PartTexts.{in_target, list_or_none, text_child};
ghost use Rattle.sm_bind_read.specs.steps.Sources.{texts_in};

use sm_codec::{Refusal, ValuePlace};
use sm_groups::Group;
use sm_part_values::{PartForm, entries_value, fault_here, group_entries, text_value};
use sm_shapes::tables::Table;
use sm_shapes::values::Value;
use sm_shapes::{FaultKind, Patterns};
use sm_tree::Bytes;
use std::alloc::Global;

/// What a member comes to that is absent: its default, or nothing, or a fault where it is required.
pub(crate) fn absent_value(
    alloc: Global,
    table: &Table,
    member: u32,
) -> Result<Option<Value>, Refusal>
    requires { member < member_count (table_data table.now) }
    ensures { MemberJoins (absent_reading (when_closed (table_data table.now) member)) result }
{
    match &table.member(member).default {
        Some(value) => copied(alloc, value),
        None => without_value(alloc, table.required(member)),
    }
}

fn copied(alloc: Global, value: &Value) -> Result<Option<Value>, Refusal>
    ensures { MemberJoins (Ok (Some (val_of value.now))) result }
{
    match value.copy(alloc) {
        Ok(copy) => Ok(Some(copy)),
        Err(_) => Err(Refusal::NoMemory),
    }
}

fn without_value(alloc: Global, required: bool) -> Result<Option<Value>, Refusal>
    ensures { MemberJoins (absent_reading (absent_with None required)) result }
{
    if required {
        Err(Refusal::Fault(fault_here(alloc, FaultKind::Missing)))
    } else {
        Ok(None)
    }
}

/// A value that is there.
pub(crate) fn present(read: Result<Value, Refusal>) -> Result<Option<Value>, Refusal>
    ensures { (reading : Reading) → JoinsTo reading read → MemberJoins (present_reading reading) result }
{
    match read {
        Ok(value) => Ok(Some(value)),
        Err(refusal) => Err(refusal),
    }
}

/// What a member comes to for which these texts stand, each by itself.
pub(crate) fn grouped_value<P: Patterns>(
    alloc: Global,
    table: &Table,
    member: u32,
    found: Option<&Group<Bytes>>,
    patterns: &mut P,
) -> Result<Option<Value>, Refusal>
    requires shaped { Shaped (table_data table.now) }
    requires member { member < member_count (table_data table.now) }
    requires stored { AreStored (table_data table.now).patterns (P.added patterns.old) }
    ensures joins { MemberJoins (member_reading (when_closed (table_data table.now)) member
        (map (text_child in_target (codec_of (table_data table.now) (json_convention true) P.test)) (texts_in found.entry))) result }
    ensures added { P.added patterns.new ≡ P.added patterns.old }
    ensures refused { P.refused patterns.new ≡ P.refused patterns.old }
    ensures refusals { P.refusals patterns.new ≡ P.refusals patterns.old }
{
    let Some(group) = found else {
        return absent_value(alloc, table, member);
    };
    if !group.more.as_slice().is_empty() {
        return Err(Refusal::Fault(fault_here(alloc, FaultKind::Repeated)));
    }
    present(text_value(
        alloc,
        table,
        ValuePlace::Member(member),
        PartForm::Target,
        group.first.as_slice(),
        patterns,
    ))
}

/// What a member comes to for which these texts stand as one list.
pub(crate) fn listed_value<P: Patterns>(
    alloc: Global,
    table: &Table,
    member: u32,
    found: Option<&Group<Bytes>>,
    patterns: &mut P,
) -> Result<Option<Value>, Refusal>
    requires shaped { Shaped (table_data table.now) }
    requires member { member < member_count (table_data table.now) }
    requires list { kind_of (table_data table.now) (member_place member) ≡ a_list }
    requires stored { AreStored (table_data table.now).patterns (P.added patterns.old) }
    ensures joins { MemberJoins (member_reading (when_closed (table_data table.now)) member
        (list_or_none (codec_of (table_data table.now) (json_convention true) P.test)
        (map (text_child in_target (codec_of (table_data table.now) (json_convention true) P.test)) (texts_in found.entry)))) result }
    ensures added { P.added patterns.new ≡ P.added patterns.old }
    ensures refused { P.refused patterns.new ≡ P.refused patterns.old }
    ensures refusals { P.refusals patterns.new ≡ P.refusals patterns.old }
{
    let Some(group) = found else {
        return absent_value(alloc, table, member);
    };
    match group_entries(alloc, group) {
        Ok(entries) => present(entries_value(
            alloc,
            table,
            ValuePlace::Member(member),
            PartForm::Target,
            entries.as_slice(),
            patterns,
        )),
        Err(_) => Err(Refusal::NoMemory),
    }
}
