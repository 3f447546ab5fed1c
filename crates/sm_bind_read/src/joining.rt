// The parts of a message as one value.
ghost use Rattle.std.specs.Prelude.{◌≡◌, ◌<◌, true};
ghost use Rattle.std.specs.List.{AllByRecursion};
ghost use Rattle.sm_shapes.specs.InOrder.{AreStored, Shaped};
ghost use Rattle.sm_shapes.specs.TableData.{kind_at, shape_count};
ghost use Rattle.sm_shapes.specs.TableView.{table_data};
ghost use Rattle.sm_shapes.specs.Values.{fields_of, structure_val};
ghost use Rattle.sm_shapes.specs.ValueView.{each_field_view, val_of};
ghost use Rattle.sm_shapes.specs.declared.kinds.ShapeKind.TheVariants.{Structure};
ghost use Rattle.sm_codec.specs.Codec.{codec_of};
ghost use Rattle.sm_codec.specs.Conventions.{json_convention};
ghost use Rattle.sm_messages.specs.MessageForm.{Content};
ghost use Rattle.sm_part_values.specs.Joins.{JoinsTo};
ghost use Rattle.sm_messages.specs.service.HttpServable.{HaveOwnParts, HaveTargets};
ghost use Rattle.sm_messages.specs.service.WireMembers.{wire_members};
ghost use Rattle.sm_bind.specs.BindingsView.{AreBindingsOf, bindings_data, body_at, bound_side, parts_data};
ghost use Rattle.sm_bind.specs.BoundView.{bound_of};
ghost use Rattle.sm_bind.specs.Roles.{bound_members};
ghost use Rattle.sm_bind_read.specs.Outcomes.{StandsForContent};
ghost use Rattle.sm_bind_read.specs.PartFaults.{parts_reading};
ghost use Rattle.sm_bind_read.specs.steps.Bodies.{ComingIs};
ghost use Rattle.sm_bind_read.specs.steps.Coming.{IsMemberOf};
ghost use Rattle.sm_bind_read.specs.steps.Sources.{AreGroupsIn};

use crate::bodies::{BodyComing, body_coming};
use crate::body::PartBody;
use crate::coming::each_field;
use crate::first_fault::first_fault;
use crate::sources::{PartGroups, groups_in};
use sm_bind::{Bindings, BoundPlace, Parts};
use sm_codec::Refusal;
use sm_shapes::Patterns;
use sm_shapes::values::{Fields, Value};
use std::alloc::Global;

/// The value of a structure on a side of messages whose parts these are, or their first fault in model order, whatever part it comes from: as
/// for the same parts with a body of which this is the outcome, whole or in pieces. A document that isn't there is the empty object. n log n in
/// the parts, beside the work of the values. The store must have the table's patterns, and isn't changed.
///
/// # Errors
///
/// The fault, or `NoMemory`.
pub fn join_parts<P: Patterns>(
    alloc: Global,
    bindings: &Bindings,
    place: &BoundPlace<'_>,
    parts: &Parts,
    body: PartBody,
    patterns: &mut P,
) -> Result<Value, Refusal>
    requires shaped { Shaped (table_data place.now.table.now) }
    requires bindings { AreBindingsOf (table_data place.now.table.now) (bindings_data bindings.now) }
    requires shape { place.now.shape < shape_count (table_data place.now.table.now) }
    requires structure { kind_at (table_data place.now.table.now) place.now.shape ≡ Structure }
    requires own { HaveOwnParts (bound_side place.now.side) (wire_members (table_data place.now.table.now) place.now.shape) }
    requires targets { HaveTargets (bound_side place.now.side) (wire_members (table_data place.now.table.now) place.now.shape) }
    requires stored { AreStored (table_data place.now.table.now).patterns (P.added patterns.old) }
    ensures joins { (content : Content) → StandsForContent (bound_of place.now)
        (codec_of (bindings_data bindings.now).documents (json_convention true) P.test)
        (body_at (bindings_data bindings.now) (bound_side place.now.side) place.now.shape) content body
        → JoinsTo (parts_reading (bound_of place.now) P.test (parts_data parts.now) content) result }
    ensures added { P.added patterns.new ≡ P.added patterns.old }
    ensures refused { P.refused patterns.new ≡ P.refused patterns.old }
    ensures refusals { P.refusals patterns.new ≡ P.refusals patterns.old }
{
    match groups_in(alloc, parts) {
        Ok(groups) => {
            let coming = body_coming(alloc, bindings, place, body, patterns);
            joined(alloc, place, parts, &groups, coming, patterns)
        }
        Err(_) => Err(Refusal::NoMemory),
    }
}

// The value, by what the body gives.
fn joined<P: Patterns>(
    alloc: Global,
    place: &BoundPlace<'_>,
    parts: &Parts,
    groups: &PartGroups,
    coming: BodyComing<'_>,
    patterns: &mut P,
) -> Result<Value, Refusal>
    requires shaped { Shaped (table_data place.now.table.now) }
    requires shape { place.now.shape < shape_count (table_data place.now.table.now) }
    requires members { AllByRecursion (IsMemberOf (bound_of place.now)) (bound_members (bound_of place.now)) }
    requires groups { AreGroupsIn (parts_data parts.now) groups.now }
    requires stored { AreStored (table_data place.now.table.now).patterns (P.added patterns.old) }
    ensures joins { (content : Content) → ComingIs (bound_of place.now) P.test (parts_data parts.now) content coming.entry
        → JoinsTo (parts_reading (bound_of place.now) P.test (parts_data parts.now) content) result }
    ensures added { P.added patterns.new ≡ P.added patterns.old }
    ensures refused { P.refused patterns.new ≡ P.refused patterns.old }
    ensures refusals { P.refusals patterns.new ≡ P.refusals patterns.old }
{
    let members = place.table.members(place.shape);
    match coming {
        BodyComing::Fields(pending) => {
            match each_field(alloc, place, parts, groups, members, pending, patterns) {
                Ok(fields) => Ok(structure_of(fields)),
                Err(refusal) => Err(refusal),
            }
        }
        BodyComing::Fault(fault) => Err(first_fault(
            alloc, place, parts, groups, members, fault, patterns,
        )),
        BodyComing::Alone(fault) => Err(Refusal::Fault(fault)),
        BodyComing::NoMemory => Err(Refusal::NoMemory),
    }
}

// The structure of these fields.
fn structure_of(fields: Vec<(u32, Value)>) -> Value
    ensures { val_of result ≡ structure_val (fields_of (each_field_view fields.items)) }
{
    Value::Structure(Fields::new(fields))
}
