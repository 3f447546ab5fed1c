// The fields of all members, where the body has no fault.
ghost use Rattle.std.specs.Prelude.{◌≡◌, ◌<◌, ◌++◌, ◌∷◌, ℕ, List, Ok, OnOk};
ghost use Rattle.std.specs.List.{AllByRecursion};
ghost use Rattle.std.specs.Option.{option_map};
ghost use Rattle.sm_shapes.specs.InOrder.{AreStored, Shaped};
ghost use Rattle.sm_shapes.specs.TableData.{member_count, name_at, shape_count};
ghost use Rattle.sm_shapes.specs.TableView.{table_data};
ghost use Rattle.sm_shapes.specs.ValueView.{each_field_view, val_of};
ghost use Rattle.sm_tree.specs.declared.path.Step.TheVariants.{Member};
ghost use Rattle.sm_codec.specs.Readings.{member_fields};
ghost use Rattle.sm_messages.specs.MessageForm.{Content};
ghost use Rattle.sm_part_values.specs.steps.Lists.{IsUnderStep};
ghost use Rattle.sm_bind.specs.BindingsView.{parts_data};
ghost use Rattle.sm_bind.specs.BoundView.{bound_of};
ghost use Rattle.sm_bind_read.specs.steps.Coming.{ComesWith, FieldsJoin, IsMemberOf, PendingComes, came_of};
ghost use Rattle.sm_bind_read.specs.steps.Sources.{AreGroupsIn};

use crate::bound::{bound_value, is_body_member};
use crate::pending::{Pending, next_body};
use crate::sources::PartGroups;
use sm_bind::{BoundPlace, Parts};
use sm_codec::Refusal;
use sm_part_values::under_member;
use sm_shapes::Patterns;
use sm_shapes::tables::Table;
use sm_shapes::values::Value;
use sm_tree::NoMemory;
use std::alloc::Global;

/// The fields of members, or the first fault of one.
pub(crate) fn each_field<P: Patterns>(
    alloc: Global,
    place: &BoundPlace<'_>,
    parts: &Parts,
    groups: &PartGroups,
    members: &[u32],
    pending: Pending<'_>,
    patterns: &mut P,
) -> Result<Vec<(u32, Value)>, Refusal>
    requires shaped { Shaped (table_data place.now.table.now) }
    requires shape { place.now.shape < shape_count (table_data place.now.table.now) }
    requires members { AllByRecursion (IsMemberOf (bound_of place.now)) members.now }
    requires groups { AreGroupsIn (parts_data parts.now) groups.now }
    requires stored { AreStored (table_data place.now.table.now).patterns (P.added patterns.old) }
    ensures joins { (content : Content) → PendingComes (bound_of place.now) (came_of (bound_of place.now) P.test (parts_data parts.now) content)
        members.now pending.entry → FieldsJoin (bound_of place.now) P.test (parts_data parts.now) content members.now result }
    ensures added { P.added patterns.new ≡ P.added patterns.old }
    ensures refused { P.refused patterns.new ≡ P.refused patterns.old }
    ensures refusals { P.refusals patterns.new ≡ P.refusals patterns.old }
{
    let mut left = pending;
    let mut fields = Vec::new(alloc);
    for member in members {
        match next_value(alloc, place, parts, groups, *member, &mut left, patterns) {
            Ok(value) => match put_field(&mut fields, *member, value) {
                Ok(()) => {}
                Err(_) => return Err(Refusal::NoMemory),
            },
            Err(refusal) => return Err(at_member(alloc, place.table, *member, refusal)),
        }
    }
    Ok(fields)
}

// What the next member comes to.
fn next_value<P: Patterns>(
    alloc: Global,
    place: &BoundPlace<'_>,
    parts: &Parts,
    groups: &PartGroups,
    member: u32,
    pending: &mut Pending<'_>,
    patterns: &mut P,
) -> Result<Option<Value>, Refusal>
    requires shaped { Shaped (table_data place.now.table.now) }
    requires shape { place.now.shape < shape_count (table_data place.now.table.now) }
    requires member { IsMemberOf (bound_of place.now) member }
    requires groups { AreGroupsIn (parts_data parts.now) groups.now }
    requires stored { AreStored (table_data place.now.table.now).patterns (P.added patterns.old) }
    ensures next { (content : Content) (ks : List ℕ)
        → PendingComes (bound_of place.now) (came_of (bound_of place.now) P.test (parts_data parts.now) content) (member ∷ ks) pending.old
        → ComesWith (came_of (bound_of place.now) P.test (parts_data parts.now) content member)
        (PendingComes (bound_of place.now) (came_of (bound_of place.now) P.test (parts_data parts.now) content) ks pending.new) result }
    ensures added { P.added patterns.new ≡ P.added patterns.old }
    ensures refused { P.refused patterns.new ≡ P.refused patterns.old }
    ensures refusals { P.refusals patterns.new ≡ P.refusals patterns.old }
{
    if is_body_member(place, member) {
        next_body(alloc, place, member, pending)
    } else {
        bound_value(alloc, place, parts, groups, member, patterns)
    }
}

// Puts the field of a member, if it has a value.
fn put_field(
    fields: &mut Vec<(u32, Value)>,
    member: u32,
    value: Option<Value>,
) -> Result<(), NoMemory>
    ensures { OnOk result (each_field_view fields.new.items
        ≡ each_field_view fields.old.items ++ member_fields member (Ok (option_map val_of value))) }
{
    match value {
        Some(value) => match fields.push((member, value)) {
            Ok(()) => Ok(()),
            Err(_) => Err(NoMemory),
        },
        None => Ok(()),
    }
}

/// A refusal, seen from the structure.
pub(crate) fn at_member(alloc: Global, table: &Table, member: u32, refusal: Refusal) -> Refusal
    requires { member < member_count (table_data table.now) }
    ensures { IsUnderStep (Member (name_at (table_data table.now) member)) refusal result }
{
    match refusal {
        Refusal::Fault(fault) => match under_member(alloc, table, member, fault) {
            Ok(longer) => Refusal::Fault(longer),
            Err(_) => Refusal::NoMemory,
        },
        Refusal::NoMemory => Refusal::NoMemory,
    }
}
