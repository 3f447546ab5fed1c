// Whether the parts of a message carry a value.
ghost use Rattle.std.specs.Prelude.{◌≡◌, ◌<◌, ◌↔◌, [], IfOk, IfSome, IsTrue, List, Some, false, true};
ghost use Rattle.std.specs.Option.{option_map};
ghost use Rattle.sm_shapes.specs.Fitting.{Fits, any_text};
ghost use Rattle.sm_shapes.specs.InOrder.{AreMembersOf, Shaped};
ghost use Rattle.sm_shapes.specs.Places.{member_place, root_place};
ghost use Rattle.sm_shapes.specs.TableData.{member_count, name_at, shape_count};
ghost use Rattle.sm_shapes.specs.TableView.{binding_data};
ghost use Rattle.sm_shapes.specs.Values.{fields_of};
ghost use Rattle.sm_shapes.specs.ValueView.{each_field_view, val_of};
ghost use Rattle.sm_tree.specs.declared.path.Step.{Step};
ghost use Rattle.sm_tree.specs.declared.path.Step.TheVariants.{Member};
ghost use Rattle.sm_codec.specs.Encoded.{are_none, first_path};
ghost use Rattle.sm_codec.specs.Conventions.{json_convention};
ghost use Rattle.sm_codec.specs.Written.{paths_under, uncarried};
ghost use Rattle.sm_bind.specs.BoundView.{bound_of};
ghost use Rattle.sm_bind.specs.Roles.{binding_on};
ghost use Rattle.sm_bind_write.specs.CarriedParts.{uncarried_absent, uncarried_bound, uncarried_member, uncarried_members, uncarried_parts};
ghost use Rattle.sm_bind_write.specs.steps.FieldsMet.{FieldsIn, Rising};
ghost use Rattle.sm_bind_write.specs.steps.SeenParts.{IsMet, MissedIn, paths_of};

use crate::bound::counted;
use crate::met::{fields_behind, fields_in, first_value};
use crate::paths::{path_to, under_member};
use crate::seen::seen;
use crate::spots::Seen;
use sm_bind::BoundPlace;
use sm_codec::{JsonLeaves, ValuePlace, all_carried_at, carry_fault_at};
use sm_shapes::tables::Binding;
use sm_shapes::values::Value;
use sm_tree::{NoMemory, Path};
use std::alloc::Global;

/// Whether the parts of a message carry a value. No memory.
pub fn is_carried(place: &BoundPlace<'_>, value: &Value) -> bool
    requires shaped { Shaped (bound_of place.now).table }
    requires shape { place.now.shape < shape_count (bound_of place.now).table }
    requires fits { Fits (bound_of place.now).table any_text (root_place place.now.shape) (val_of value.now) }
    ensures { IsTrue result ↔ (uncarried_parts (bound_of place.now) (val_of value.now) ≡ []) }
{
    let fields = fields_in(value);
    first_missed(place, place.table.members(place.shape), fields).is_none()
}

/// The way to the first of a value, in model order, that they don't carry. Memory is taken for the way alone.
///
/// # Errors
///
/// `NoMemory`.
pub fn not_carried(
    alloc: Global,
    place: &BoundPlace<'_>,
    value: &Value,
) -> Result<Option<Path>, NoMemory>
    requires shaped { Shaped (bound_of place.now).table }
    requires shape { place.now.shape < shape_count (bound_of place.now).table }
    requires fits { Fits (bound_of place.now).table any_text (root_place place.now.shape) (val_of value.now) }
    ensures { IfOk result (λ found. found ≡ first_path (uncarried_parts (bound_of place.now) (val_of value.now))) }
{
    let fields = fields_in(value);
    match first_missed(place, place.table.members(place.shape), fields) {
        Some(missed) => missed_path(alloc, place, missed),
        None => Ok(None),
    }
}

/// A member that isn't carried, with its value, if it is present.
#[derive(Clone, Copy, Drop)]
pub(crate) struct Missed<'a> {
    /// Its number.
    pub member: u32,
    /// Its value.
    pub value: Option<&'a Value>,
}

// The first member that isn't carried.
fn first_missed<'a>(
    place: &BoundPlace<'_>,
    members: &[u32],
    fields: &'a [(u32, Value)],
) -> Option<Missed<'a>>
    requires shaped { Shaped (bound_of place.now).table }
    requires shape { place.now.shape < shape_count (bound_of place.now).table }
    requires members { AreMembersOf (bound_of place.now).table place.now.shape members.now }
    requires rise { Rising members.now }
    requires fields { FieldsIn (bound_of place.now).table members.now (fields_of (each_field_view fields.now)) }
    ensures { MissedIn (bound_of place.now) (uncarried_members (bound_of place.now) (fields_of (each_field_view fields.now)) members.now)
        result }
{
    let mut rest = fields;
    for member in members {
        let value = first_value(rest, *member);
        if !is_member_carried(place, *member, value) {
            return Some(Missed {
                member: *member,
                value,
            });
        }
        rest = fields_behind(rest, *member);
    }
    None
}

fn is_member_carried(place: &BoundPlace<'_>, member: u32, value: Option<&Value>) -> bool
    requires shaped { Shaped (bound_of place.now).table }
    requires shape { place.now.shape < shape_count (bound_of place.now).table }
    requires member { member < member_count (bound_of place.now).table }
    requires fits { IfSome value (λ v. Fits (bound_of place.now).table any_text (member_place member) (val_of v.now)) }
    ensures { result ≡ are_none (uncarried_member (bound_of place.now) member (option_map (λ v. val_of v.now) value.entry)) }
{
    match value {
        Some(value) => is_value_carried(place, member, value),
        None => may_be_absent(counted(place.table, place.side, member)),
    }
}

// Of members that are absent all are carried but a bound status.
fn may_be_absent(binding: Option<&Binding>) -> bool
    ensures { result ≡ are_none (uncarried_absent (option_map (λ b. binding_data b.now) binding.entry)) }
{
    match binding {
        Some(binding) => is_no_status(binding),
        None => true,
    }
}

fn is_no_status(binding: &Binding) -> bool
    ensures { result ≡ are_none (uncarried_absent (Some (binding_data binding.now))) }
{
    match binding {
        Binding::ResponseCode => false,
        Binding::Label => true,
        Binding::Query(_) => true,
        Binding::QueryParams => true,
        Binding::Header(_) => true,
        Binding::PrefixHeaders(_) => true,
        Binding::Payload => true,
    }
}

fn is_value_carried(place: &BoundPlace<'_>, member: u32, value: &Value) -> bool
    requires shaped { Shaped (bound_of place.now).table }
    requires shape { place.now.shape < shape_count (bound_of place.now).table }
    requires member { member < member_count (bound_of place.now).table }
    requires fits { Fits (bound_of place.now).table any_text (member_place member) (val_of value.now) }
    ensures { result ≡ are_none
        (uncarried_bound (binding_on (bound_of place.now) member) (bound_of place.now) member (val_of value.now)) }
{
    match seen(place, member, value) {
        Seen::Carried => true,
        Seen::Part(_) => false,
        Seen::Leaves => are_leaves_carried(place, member, value),
    }
}

fn are_leaves_carried(place: &BoundPlace<'_>, member: u32, value: &Value) -> bool
    requires shaped { Shaped (bound_of place.now).table }
    requires member { member < member_count (bound_of place.now).table }
    requires fits { Fits (bound_of place.now).table any_text (member_place member) (val_of value.now) }
    ensures { result ≡ are_none (uncarried (bound_of place.now).table (json_convention true) (member_place member) (val_of value.now)) }
{
    let leaves = JsonLeaves { json_names: true };
    all_carried_at(place.table, ValuePlace::Member(member), value, &leaves)
}

// The way to what of a member isn't carried.
fn missed_path(
    alloc: Global,
    place: &BoundPlace<'_>,
    missed: Missed<'_>,
) -> Result<Option<Path>, NoMemory>
    requires shaped { Shaped (bound_of place.now).table }
    requires shape { place.now.shape < shape_count (bound_of place.now).table }
    requires met { IsMet (bound_of place.now) missed }
    requires missed { are_none (paths_of (bound_of place.now) missed) ≡ false }
    ensures { IfOk result (λ found. found
        ≡ first_path (paths_under (Member (name_at (bound_of place.now).table missed.entry.member)) (paths_of (bound_of place.now) missed.entry))) }
{
    match missed.value {
        Some(value) => match value_path(alloc, place, missed.member, value) {
            Ok(found) => found_under(alloc, place, missed.member, found),
            Err(refusal) => Err(refusal),
        },
        None => found_under(
            alloc,
            place,
            missed.member,
            Some(Path::new(Vec::new(alloc))),
        ),
    }
}

// The way from the structure, where there is one from the value.
fn found_under(
    alloc: Global,
    place: &BoundPlace<'_>,
    member: u32,
    found: Option<Path>,
) -> Result<Option<Path>, NoMemory>
    ensures { IfOk result (λ longer. (paths : List (List Step)) → found ≡ first_path paths
        → longer ≡ first_path (paths_under (Member (name_at (bound_of place.now).table member)) paths)) }
{
    match found {
        Some(path) => match under_member(alloc, place.table, member, path) {
            Ok(longer) => Ok(Some(longer)),
            Err(refusal) => Err(refusal),
        },
        None => Ok(None),
    }
}

// The way to what of the value of a member isn't carried.
fn value_path(
    alloc: Global,
    place: &BoundPlace<'_>,
    member: u32,
    value: &Value,
) -> Result<Option<Path>, NoMemory>
    requires shaped { Shaped (bound_of place.now).table }
    requires shape { place.now.shape < shape_count (bound_of place.now).table }
    requires member { member < member_count (bound_of place.now).table }
    requires fits { Fits (bound_of place.now).table any_text (member_place member) (val_of value.now) }
    ensures { IfOk result (λ found. found ≡ first_path
        (uncarried_bound (binding_on (bound_of place.now) member) (bound_of place.now) member (val_of value.now))) }
{
    match seen(place, member, value) {
        Seen::Carried => Ok(None),
        Seen::Part(spot) => match path_to(alloc, spot) {
            Ok(path) => Ok(Some(path)),
            Err(refusal) => Err(refusal),
        },
        Seen::Leaves => leaf_path(alloc, place, member, value),
    }
}

fn leaf_path(
    alloc: Global,
    place: &BoundPlace<'_>,
    member: u32,
    value: &Value,
) -> Result<Option<Path>, NoMemory>
    requires shaped { Shaped (bound_of place.now).table }
    requires member { member < member_count (bound_of place.now).table }
    requires fits { Fits (bound_of place.now).table any_text (member_place member) (val_of value.now) }
    ensures { IfOk result (λ found.
        found ≡ first_path (uncarried (bound_of place.now).table (json_convention true) (member_place member) (val_of value.now))) }
{
    let leaves = JsonLeaves { json_names: true };
    carry_fault_at(
        alloc,
        place.table,
        ValuePlace::Member(member),
        value,
        &leaves,
    )
}
