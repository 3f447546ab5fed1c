// What a frame of a structure comes to where the structure ends: a member that is missing, the first fault, or the value with defaults.
ghost use Rattle.std.specs.Prelude.{◌≡◌, ◌<◌, [], IfOk, OnOk};
ghost use Rattle.std.specs.Option.{option_map};
ghost use Rattle.sm_shapes.specs.InOrder.{Shaped};
ghost use Rattle.sm_shapes.specs.TableData.{shape_count, member_count, members_at, member_with, name_at, default_at, required_at};
ghost use Rattle.sm_shapes.specs.TableView.{table_data};
ghost use Rattle.sm_shapes.specs.ValueView.{val_of, fields_view};
ghost use Rattle.sm_shapes.specs.FieldPuts.{FieldsRise};
ghost use Rattle.sm_codec.specs.FrameView.{member_frame, outcome_of, fault_at};
ghost use Rattle.sm_codec.specs.Decoding.{bad};
ghost use Rattle.sm_codec.specs.steps.MemberSteps.{at_member, first_name};
ghost use Rattle.sm_codec.specs.steps.ClosingSteps.{must_stand, lacks, missing, put_default, defaults_put, is_before, structure_end};
ghost use Rattle.sm_codec.specs.steps.ClosingSteps.{EndsGood, IsPlain};
ghost use Rattle.sm_shapes.specs.declared.fault.FaultKind.TheVariants.{Missing};

use super::faults::{fault_here, name_first, under_member};
use super::{MemberFrame, Outcome};
use crate::plain::copy_bytes;
use sm_shapes::tables::Table;
use sm_shapes::values::{Entries, Fields, Items, Value};
use sm_shapes::{Fault, FaultKind};
use sm_tree::{NoMemory, Text};
use std::alloc::Global;

// Whether it is a fault that a member is absent: it is required and has no default.
fn is_missed(table: &Table, member: u32) -> bool
    ensures { result ≡ must_stand (default_at (table_data table.now) member) (required_at (table_data table.now) member) }
{
    match table.members.as_slice().get(member as usize) {
        Some(row) => row.required && row.default.is_none(),
        None => false,
    }
}

// The default of a member.
fn default_of(table: &Table, member: u32) -> Option<&Value>
    ensures { option_map (λ v. val_of v.now) result ≡ default_at (table_data table.now) member }
{
    match table.members.as_slice().get(member as usize) {
        Some(row) => row.default.as_ref(),
        None => None,
    }
}

// Whether a member isn't there, and that is a fault.
fn is_missing(table: &Table, fields: &Fields, member: u32) -> bool
    requires rises { FieldsRise (fields_view fields.now) }
    ensures { result ≡ lacks (table_data table.now) (fields_view fields.now) member }
{
    !fields.has(member) && is_missed(table, member)
}

// The first of these members that must be there and isn't.
fn first_missing(table: &Table, fields: &Fields, members: &[u32]) -> Option<u32>
    requires rises { FieldsRise (fields_view fields.now) }
    ensures { result ≡ missing (table_data table.now) (fields_view fields.now) members.now }
{
    for member in members {
        if is_missing(table, fields, *member) {
            return Some(*member);
        }
    }
    None
}

// A copy of a default: it is of a simple type, or an empty list or map.
fn copy_default(alloc: Global, value: &Value) -> Result<Value, NoMemory>
    requires { IsPlain (val_of value.now) }
    ensures { IfOk result (λ copy. val_of copy ≡ val_of value.now) }
{
    match value {
        Value::Null => Ok(Value::Null),
        Value::Bool(truth) => Ok(Value::Bool(*truth)),
        Value::Int(number) => Ok(Value::Int(*number)),
        Value::Text(text) => match Text::copy(alloc, text.as_str()) {
            Ok(copy) => Ok(Value::Text(copy)),
            Err(refusal) => Err(refusal),
        },
        Value::Blob(bytes) => match copy_bytes(alloc, bytes.as_slice()) {
            Ok(copy) => Ok(Value::Blob(copy)),
            Err(refusal) => Err(refusal),
        },
        Value::Time(stamp) => Ok(Value::Time(*stamp)),
        Value::List(_) => Ok(Value::List(Items::new(Vec::new(alloc)))),
        Value::Map(_) => Ok(Value::Map(Entries::new(Vec::new(alloc)))),
        Value::Structure(_) | Value::Union(_, _) => unreachable!(),
    }
}

// Puts the defaults of these members among the fields, where they aren't there.
fn put_defaults(
    alloc: Global,
    table: &Table,
    members: &[u32],
    fields: &mut Fields,
) -> Result<(), NoMemory>
    requires shaped { Shaped (table_data table.now) }
    requires rises { FieldsRise (fields_view fields.old) }
    ensures { OnOk result (fields_view fields.new ≡ defaults_put (table_data table.now) members.now (fields_view fields.old)) }
{
    for member in members {
        put_default_of(alloc, table, *member, fields)?;
    }
    Ok(())
}

// Puts the default of one member, if it has one and is absent.
fn put_default_of(
    alloc: Global,
    table: &Table,
    member: u32,
    fields: &mut Fields,
) -> Result<(), NoMemory>
    requires shaped { Shaped (table_data table.now) }
    requires rises { FieldsRise (fields_view fields.old) }
    ensures { OnOk result (fields_view fields.new ≡ put_default member (default_at (table_data table.now) member)
        (fields_view fields.old)) }
{
    match default_of(table, member) {
        None => Ok(()),
        Some(value) => {
            if fields.has(member) {
                return Ok(());
            }
            let copy = copy_default(alloc, value)?;
            fields.put(member, copy)
        }
    }
}

// That a member is missing.
fn missing_at(alloc: Global, table: &Table, member: u32) -> Result<Outcome, NoMemory>
    requires { member < member_count (table_data table.now) }
    ensures { IfOk result (λ outcome. outcome_of outcome ≡ bad (at_member (table_data table.now) member ([], Missing))) }
{
    match under_member(alloc, table, member, fault_here(alloc, FaultKind::Missing)) {
        Ok(fault) => Ok(Outcome::Bad(fault)),
        Err(refusal) => Err(refusal),
    }
}

// Whether a member stands before the one at which a fault is, in model order.
fn stands_before(table: &Table, shape: u32, member: u32, fault: &Fault) -> bool
    requires number { shape < shape_count (table_data table.now) }
    requires shaped { Shaped (table_data table.now) }
    ensures { result ≡ is_before member (member_with (name_at (table_data table.now)) (first_name (fault_at fault.now).0)
        (members_at (table_data table.now) shape)) }
{
    match table.member_named(shape, name_first(&fault.path)) {
        Some(other) => member < other,
        None => false,
    }
}

// The value of a structure without a fault.
fn with_defaults(
    alloc: Global,
    table: &Table,
    members: &[u32],
    fields: Fields,
) -> Result<Outcome, NoMemory>
    requires shaped { Shaped (table_data table.now) }
    requires rises { FieldsRise (fields_view fields) }
    ensures { IfOk result (λ outcome. EndsGood (table_data table.now) members.now (fields_view fields) (outcome_of outcome)) }
{
    let mut fields = fields;
    match put_defaults(alloc, table, members, &mut fields) {
        Ok(()) => {
            fields.shrink();
            Ok(Outcome::Good(Value::Structure(fields)))
        }
        Err(refusal) => Err(refusal),
    }
}

impl MemberFrame {
    // The structure ends: its first fault, or its value.
    pub(crate) fn finish(self, alloc: Global, table: &Table) -> Result<Outcome, NoMemory>
        requires shape { self.shape < shape_count (table_data table.now) }
        requires shaped { Shaped (table_data table.now) }
        requires rises { FieldsRise (member_frame self).fields }
        ensures { IfOk result (λ outcome. outcome_of outcome ≡ structure_end (table_data table.now) (member_frame self)) }
    {
        let needed = table.needed(self.shape);
        let missing = first_missing(table, &self.fields, needed);
        match (self.fault, missing) {
            (None, None) => with_defaults(alloc, table, needed, self.fields),
            (None, Some(member)) => missing_at(alloc, table, member),
            (Some(fault), None) => Ok(Outcome::Bad(fault)),
            (Some(fault), Some(member)) => {
                if stands_before(table, self.shape, member, &fault) {
                    missing_at(alloc, table, member)
                } else {
                    Ok(Outcome::Bad(fault))
                }
            }
        }
    }
}
