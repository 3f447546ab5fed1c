// What a member comes to that is bound to a part of its own, whatever the body is.
ghost use Rattle.std.specs.Prelude.{◌≡◌, ◌<◌, Some, false, true};
ghost use Rattle.std.specs.Option.{option_map};
ghost use Rattle.sm_shapes.specs.InOrder.{AreStored, Shaped};
ghost use Rattle.sm_shapes.specs.TableData.{member_count, shape_count};
ghost use Rattle.sm_shapes.specs.TableView.{binding_data, table_data};
ghost use Rattle.sm_codec.specs.Codec.{codec_of};
ghost use Rattle.sm_codec.specs.Conventions.{json_convention};
ghost use Rattle.sm_codec.specs.Readings.{member_reading, when_closed};
ghost use Rattle.sm_messages.specs.MessageForm.{Content};
ghost use Rattle.sm_part_values.specs.Joins.{MemberJoins};
ghost use Rattle.sm_part_values.specs.PartTexts.{in_target, is_list, texts_by};
ghost use Rattle.sm_bind.specs.BindingsView.{parts_data};
ghost use Rattle.sm_bind.specs.BoundView.{bound_of};
ghost use Rattle.sm_bind.specs.Roles.{binding_on};
ghost use Rattle.sm_bind_read.specs.PartFaults.{bound_codec};
ghost use Rattle.sm_bind_read.specs.Parts.{bound_children};
ghost use Rattle.sm_bind_read.specs.steps.Bodies.{is_payload_on};
ghost use Rattle.sm_bind_read.specs.steps.Coming.{came_of, is_body, is_body_by, is_map_bound};
ghost use Rattle.sm_bind_read.specs.steps.Sources.{AreGroupsIn, texts_in};
ghost use Rattle.sm_shapes.specs.Places.{kind_of, member_place};
ghost use Rattle.sm_shapes.specs.declared.kinds.ShapeKind.TheVariants.{Map as a_map};

use crate::fields::{header_value, is_list};
use crate::maps::{params_value, prefixed_value};
use crate::payload::status_value;
use crate::single::{grouped_value, listed_value, present};
use crate::sources::{PartGroups, group_under};
use sm_bind::{BoundPlace, Parts, counts, is_payload_at};
use sm_codec::Refusal;
use sm_groups::Group;
use sm_shapes::Patterns;
use sm_shapes::tables::{Binding, Table};
use sm_shapes::values::Value;
use sm_tree::Bytes;
use std::alloc::Global;

/// Whether the body stands for a member: it is in the document, or the payload. No memory.
pub(crate) fn is_body_member(place: &BoundPlace<'_>, member: u32) -> bool
    requires { member < member_count (table_data place.now.table.now) }
    ensures { result ≡ is_body (bound_of place.now) member }
{
    let binding = &place.table.member(member).binding;
    if counts(binding, place.side) {
        is_body_binding(binding)
    } else {
        true
    }
}

/// Whether a member is the payload. No memory.
pub(crate) fn is_payload_member(place: &BoundPlace<'_>, member: u32) -> bool
    ensures { result ≡ is_payload_on (bound_of place.now) member }
{
    is_payload_at(place.table, member)
}

fn is_body_binding(binding: &Option<Binding>) -> bool
    ensures { result ≡ is_body_by (option_map binding_data binding.now) }
{
    match binding {
        None => true,
        Some(Binding::Payload) => true,
        Some(Binding::Label) => false,
        Some(Binding::Query(_)) => false,
        Some(Binding::QueryParams) => false,
        Some(Binding::Header(_)) => false,
        Some(Binding::PrefixHeaders(_)) => false,
        Some(Binding::ResponseCode) => false,
    }
}

/// What a member comes to for which the body doesn't stand.
pub(crate) fn bound_value<P: Patterns>(
    alloc: Global,
    place: &BoundPlace<'_>,
    parts: &Parts,
    groups: &PartGroups,
    member: u32,
    patterns: &mut P,
) -> Result<Option<Value>, Refusal>
    requires shaped { Shaped (table_data place.now.table.now) }
    requires shape { place.now.shape < shape_count (table_data place.now.table.now) }
    requires member { member < member_count (table_data place.now.table.now) }
    requires groups { AreGroupsIn (parts_data parts.now) groups.now }
    requires maps { is_map_bound (binding_on (bound_of place.now) member) ≡ true
        → kind_of (table_data place.now.table.now) (member_place member) ≡ a_map }
    requires bound { is_body (bound_of place.now) member ≡ false }
    requires stored { AreStored (table_data place.now.table.now).patterns (P.added patterns.old) }
    ensures joins { (content : Content) → MemberJoins (came_of (bound_of place.now) P.test (parts_data parts.now) content member) result }
    ensures added { P.added patterns.new ≡ P.added patterns.old }
    ensures refused { P.refused patterns.new ≡ P.refused patterns.old }
    ensures refusals { P.refusals patterns.new ≡ P.refusals patterns.old }
{
    match &place.table.member(member).binding {
        Some(binding) => binding_value(alloc, place, parts, groups, member, binding, patterns),
        None => Ok(None),
    }
}

// The same by its binding.
fn binding_value<P: Patterns>(
    alloc: Global,
    place: &BoundPlace<'_>,
    parts: &Parts,
    groups: &PartGroups,
    member: u32,
    binding: &Binding,
    patterns: &mut P,
) -> Result<Option<Value>, Refusal>
    requires shaped { Shaped (table_data place.now.table.now) }
    requires shape { place.now.shape < shape_count (table_data place.now.table.now) }
    requires member { member < member_count (table_data place.now.table.now) }
    requires groups { AreGroupsIn (parts_data parts.now) groups.now }
    requires maps { is_map_bound (Some (binding_data binding.now)) ≡ true
        → kind_of (table_data place.now.table.now) (member_place member) ≡ a_map }
    requires bound { is_body_by (Some (binding_data binding.now)) ≡ false }
    requires stored { AreStored (table_data place.now.table.now).patterns (P.added patterns.old) }
    ensures joins { (content : Content) → MemberJoins (member_reading (when_closed (table_data place.now.table.now)) member
        (bound_children (Some (binding_data binding.now)) (bound_of place.now) (bound_codec (bound_of place.now) P.test) (parts_data parts.now)
        content member)) result }
    ensures added { P.added patterns.new ≡ P.added patterns.old }
    ensures refused { P.refused patterns.new ≡ P.refused patterns.old }
    ensures refusals { P.refusals patterns.new ≡ P.refusals patterns.old }
{
    match binding {
        Binding::Label => {
            let found = group_under(groups.labels.as_slice(), place.table.name(member));
            grouped_value(alloc, place.table, member, found, patterns)
        }
        Binding::Query(name) => {
            let found = group_under(groups.query.as_slice(), name.as_str());
            query_value(alloc, place.table, member, found, patterns)
        }
        Binding::QueryParams => params_value(alloc, place, member, &parts.query, patterns),
        Binding::Header(name) => header_value(
            alloc,
            place.table,
            member,
            name.as_str(),
            &parts.fields,
            patterns,
        ),
        Binding::PrefixHeaders(prefix) => {
            prefixed_value(
                alloc,
                place,
                member,
                prefix.as_str(),
                &parts.fields,
                patterns,
            )
        }
        Binding::ResponseCode => present(status_value(
            alloc,
            place.table,
            member,
            parts.status,
            patterns,
        )),
        Binding::Payload => Ok(None),
    }
}

// What a member comes to that is bound to the pairs of a key.
fn query_value<P: Patterns>(
    alloc: Global,
    table: &Table,
    member: u32,
    found: Option<&Group<Bytes>>,
    patterns: &mut P,
) -> Result<Option<Value>, Refusal>
    requires shaped { Shaped (table_data table.now) }
    requires member { member < member_count (table_data table.now) }
    requires stored { AreStored (table_data table.now).patterns (P.added patterns.old) }
    ensures joins { MemberJoins (member_reading (when_closed (table_data table.now)) member
        (texts_by (is_list (kind_of (table_data table.now) (member_place member))) in_target
        (codec_of (table_data table.now) (json_convention true) P.test) (texts_in found.entry))) result }
    ensures added { P.added patterns.new ≡ P.added patterns.old }
    ensures refused { P.refused patterns.new ≡ P.refused patterns.old }
    ensures refusals { P.refusals patterns.new ≡ P.refusals patterns.old }
{
    if is_list(table.kind(table.target(member))) {
        listed_value(alloc, table, member, found, patterns)
    } else {
        grouped_value(alloc, table, member, found, patterns)
    }
}
