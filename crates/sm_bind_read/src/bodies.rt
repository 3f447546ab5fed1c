// What the body of a message gives to members: fields, a fault, or nothing.
ghost use Rattle.std.specs.Prelude.{◌≡◌, ◌<◌, ◌↔◌, [], ℕ, List, IfSome, IsTrue, MatchOption, None, Ok, Some, get_or, reverse, true};
ghost use Rattle.std.specs.List.{AllByRecursion};
ghost use Rattle.sm_shapes.specs.Fitting.{Test};
ghost use Rattle.sm_shapes.specs.InOrder.{AreStored, Shaped};
ghost use Rattle.sm_shapes.specs.TableData.{TableData, kind_at, member_count, members_at, shape_count};
ghost use Rattle.sm_shapes.specs.TableView.{table_data};
ghost use Rattle.sm_shapes.specs.ValueView.{each_field_view, val_of};
ghost use Rattle.sm_shapes.specs.declared.kinds.ShapeKind.TheVariants.{Structure};
ghost use Rattle.sm_codec.specs.Codec.{codec_of};
ghost use Rattle.sm_codec.specs.Conventions.{json_convention};
ghost use Rattle.sm_codec.specs.FaultLists.{Reading};
ghost use Rattle.sm_codec.specs.FrameView.{fault_at, outcome_of};
ghost use Rattle.sm_codec.specs.Kept.{IsOutcome};
ghost use Rattle.sm_messages.specs.MessageForm.{Content};
ghost use Rattle.sm_part_values.specs.Joins.{JoinsTo};
ghost use Rattle.sm_messages.specs.service.HttpServable.{HaveOwnParts};
ghost use Rattle.sm_messages.specs.service.WireMembers.{wire_members};
ghost use Rattle.sm_bind.specs.BindingsView.{AreBindingsOf, bindings_data, body_at, bound_side};
ghost use Rattle.sm_bind.specs.BoundView.{bound_of};
ghost use Rattle.sm_bind.specs.PartsData.{PartsData};
ghost use Rattle.sm_bind.specs.Roles.{bound_members, has_document};
ghost use Rattle.sm_bind_read.specs.Outcomes.{StandsForContent};
ghost use Rattle.sm_bind_read.specs.declared.body.PartBody.TheVariants.{Tree};
ghost use Rattle.sm_bind_read.specs.steps.Bodies.{ComingIs, GivesReading, IsNothing, PayloadGives, RawGives, SomeGives, fields_in, payload_place};

use crate::body::PartBody;
use crate::bound::is_payload_member;
use crate::coming::at_member;
use crate::payload::raw_value;
use crate::pending::Pending;
use sm_bind::{Bindings, BoundPlace, has_document};
use sm_codec::{Outcome, Refusal};
use sm_shapes::tables::Table;
use sm_shapes::values::Value;
use sm_shapes::{Fault, Patterns};
use sm_tree::Bytes;
use std::alloc::Global;

/// What a body gives.
#[derive(Drop)]
pub(crate) enum BodyComing<'a> {
    /// Fields, or nothing.
    Fields(Pending<'a>),
    /// A fault of one of its members.
    Fault(Fault),
    /// A fault beside which no other counts: a document that is no object.
    Alone(Fault),
    /// Memory ran out.
    NoMemory,
}

/// What the body of a message gives.
pub(crate) fn body_coming<'a, P: Patterns>(
    alloc: Global,
    bindings: &'a Bindings,
    place: &BoundPlace<'a>,
    body: PartBody,
    patterns: &mut P,
) -> BodyComing<'a>
    requires shaped { Shaped (table_data place.now.table.now) }
    requires bindings { AreBindingsOf (table_data place.now.table.now) (bindings_data bindings.now) }
    requires shape { place.now.shape < shape_count (table_data place.now.table.now) }
    requires structure { kind_at (table_data place.now.table.now) place.now.shape ≡ Structure }
    requires own { HaveOwnParts (bound_side place.now.side) (wire_members (table_data place.now.table.now) place.now.shape) }
    requires stored { AreStored (table_data place.now.table.now).patterns (P.added patterns.old) }
    ensures comes { (parts : PartsData) (content : Content) → StandsForContent (bound_of place.now)
        (codec_of (bindings_data bindings.now).documents (json_convention true) P.test)
        (body_at (bindings_data bindings.now) (bound_side place.now.side) place.now.shape) content body
        → ComingIs (bound_of place.now) P.test parts content result }
    ensures added { P.added patterns.new ≡ P.added patterns.old }
    ensures refused { P.refused patterns.new ≡ P.refused patterns.old }
    ensures refusals { P.refusals patterns.new ≡ P.refusals patterns.old }
{
    let members = place.table.members(place.shape);
    if has_document(place.table, place.side, members) {
        document_coming(alloc, bindings, place, body)
    } else {
        payload_coming(alloc, place, body, patterns)
    }
}

// Nothing.
fn nothing<'a>(alloc: Global) -> BodyComing<'a>
    ensures { IsNothing result }
{
    BodyComing::Fields(Pending {
        there: false,
        copies: &[],
        next: 0,
        fields: Vec::new(alloc),
    })
}

// What a document gives.
fn document_coming<'a>(
    alloc: Global,
    bindings: &'a Bindings,
    place: &BoundPlace<'a>,
    body: PartBody,
) -> BodyComing<'a>
    requires shaped { Shaped (table_data place.now.table.now) }
    requires bindings { AreBindingsOf (table_data place.now.table.now) (bindings_data bindings.now) }
    requires shape { place.now.shape < shape_count (table_data place.now.table.now) }
    requires structure { kind_at (table_data place.now.table.now) place.now.shape ≡ Structure }
    requires own { HaveOwnParts (bound_side place.now.side) (wire_members (table_data place.now.table.now) place.now.shape) }
    requires document { has_document (bound_of place.now) ≡ true }
    ensures { (test : Test) (parts : PartsData) (content : Content) → StandsForContent (bound_of place.now)
        (codec_of (bindings_data bindings.now).documents (json_convention true) test)
        (body_at (bindings_data bindings.now) (bound_side place.now.side) place.now.shape) content body
        → ComingIs (bound_of place.now) test parts content result }
{
    match body {
        PartBody::Tree(outcome) => document_outcome(alloc, bindings, place, outcome),
        PartBody::Empty => nothing(alloc),
        PartBody::Raw(_) => nothing(alloc),
    }
}

// What the outcome of a document gives.
fn document_outcome<'a>(
    alloc: Global,
    bindings: &'a Bindings,
    place: &BoundPlace<'a>,
    outcome: Outcome,
) -> BodyComing<'a>
    requires shaped { Shaped (table_data place.now.table.now) }
    requires bindings { AreBindingsOf (table_data place.now.table.now) (bindings_data bindings.now) }
    requires shape { place.now.shape < shape_count (table_data place.now.table.now) }
    requires structure { kind_at (table_data place.now.table.now) place.now.shape ≡ Structure }
    requires own { HaveOwnParts (bound_side place.now.side) (wire_members (table_data place.now.table.now) place.now.shape) }
    requires document { has_document (bound_of place.now) ≡ true }
    ensures { (test : Test) (parts : PartsData) (content : Content) → StandsForContent (bound_of place.now)
        (codec_of (bindings_data bindings.now).documents (json_convention true) test)
        (body_at (bindings_data bindings.now) (bound_side place.now.side) place.now.shape) content (Tree outcome)
        → ComingIs (bound_of place.now) test parts content result }
{
    match outcome {
        Outcome::Good(value) => BodyComing::Fields(Pending {
            there: true,
            copies: document_copies(bindings, place),
            next: 0,
            fields: last_first(alloc, value),
        }),
        Outcome::Bad(fault) => {
            if is_whole(&fault) {
                BodyComing::Alone(fault)
            } else {
                BodyComing::Fault(fault)
            }
        }
    }
}

// Whether a fault is the body's own.
fn is_whole(fault: &Fault) -> bool
    ensures { IsTrue result ↔ (fault_at fault.now).0 ≡ [] }
{
    fault.path.as_slice().is_empty()
}

// The members of the structure by which a document is read.
fn document_copies<'a>(bindings: &'a Bindings, place: &BoundPlace<'_>) -> &'a [u32]
    requires bindings { AreBindingsOf (table_data place.now.table.now) (bindings_data bindings.now) }
    requires shape { place.now.shape < shape_count (table_data place.now.table.now) }
    requires structure { kind_at (table_data place.now.table.now) place.now.shape ≡ Structure }
    requires document { has_document (bound_of place.now) ≡ true }
    ensures { IfSome (body_at (bindings_data bindings.now) (bound_side place.now.side) place.now.shape)
        (λ number. result.now ≡ members_at (bindings_data bindings.now).documents number) }
{
    match bindings.document(place.side, place.shape) {
        Some(number) => bindings.documents().members(number),
        None => &[],
    }
}

// The fields of a structure, the last one first.
fn last_first(alloc: Global, value: Value) -> Vec<(u32, Value)>
    ensures { each_field_view result.items ≡ reverse (fields_in (val_of value)) }
{
    match value {
        Value::Structure(fields) => turned(fields.into_inner()),
        Value::Null => Vec::new(alloc),
        Value::Bool(_) => Vec::new(alloc),
        Value::Int(_) => Vec::new(alloc),
        Value::Text(_) => Vec::new(alloc),
        Value::Blob(_) => Vec::new(alloc),
        Value::Time(_) => Vec::new(alloc),
        Value::List(_) => Vec::new(alloc),
        Value::Map(_) => Vec::new(alloc),
        Value::Union(_, _) => Vec::new(alloc),
    }
}

fn turned(fields: Vec<(u32, Value)>) -> Vec<(u32, Value)>
    ensures { each_field_view result.items ≡ reverse (each_field_view fields.items) }
{
    let mut fields = fields;
    fields.reverse();
    fields
}

// What a payload gives.
fn payload_coming<'a, P: Patterns>(
    alloc: Global,
    place: &BoundPlace<'a>,
    body: PartBody,
    patterns: &mut P,
) -> BodyComing<'a>
    requires shaped { Shaped (table_data place.now.table.now) }
    requires shape { place.now.shape < shape_count (table_data place.now.table.now) }
    requires stored { AreStored (table_data place.now.table.now).patterns (P.added patterns.old) }
    ensures gives { PayloadGives (bound_of place.now) P.test (payload_place (bound_of place.now) (bound_members (bound_of place.now))) body
        result }
    ensures added { P.added patterns.new ≡ P.added patterns.old }
    ensures refused { P.refused patterns.new ≡ P.refused patterns.old }
    ensures refusals { P.refusals patterns.new ≡ P.refusals patterns.old }
{
    let members = place.table.members(place.shape);
    match payload_among(place, members) {
        Some(found) => some_payload(
            alloc,
            place.table,
            members,
            found.0,
            found.1,
            body,
            patterns,
        ),
        None => nothing(alloc),
    }
}

// The first payload among these members, and its place.
fn payload_among(place: &BoundPlace<'_>, members: &[u32]) -> Option<(usize, u32)>
    ensures { MatchOption result (payload_place (bound_of place.now) members.now ≡ None)
        (λ found. (payload_place (bound_of place.now) members.now ≡ Some found.0) × (get_or members.now found.0 0 ≡ found.1)) }
{
    for index in 0..members.len() {
        if is_payload_member(place, members[index]) {
            return Some((index, members[index]));
        }
    }
    None
}

// What the payload at a place among members gives.
fn some_payload<'a, P: Patterns>(
    alloc: Global,
    table: &Table,
    members: &'a [u32],
    at: usize,
    member: u32,
    body: PartBody,
    patterns: &mut P,
) -> BodyComing<'a>
    requires shaped { Shaped (table_data table.now) }
    requires member { member < member_count (table_data table.now) }
    requires stored { AreStored (table_data table.now).patterns (P.added patterns.old) }
    ensures gives { SomeGives (table_data table.now) P.test members.now at member body result }
    ensures added { P.added patterns.new ≡ P.added patterns.old }
    ensures refused { P.refused patterns.new ≡ P.refused patterns.old }
    ensures refusals { P.refusals patterns.new ≡ P.refusals patterns.old }
{
    match body {
        PartBody::Empty => nothing(alloc),
        PartBody::Raw(bytes) => raw_payload(alloc, table, members, at, member, bytes, patterns),
        PartBody::Tree(outcome) => tree_payload(alloc, table, members, at, member, outcome),
    }
}

// The same of a tree.
fn tree_payload<'a>(
    alloc: Global,
    table: &Table,
    members: &'a [u32],
    at: usize,
    member: u32,
    outcome: Outcome,
) -> BodyComing<'a>
    requires member { member < member_count (table_data table.now) }
    ensures { (reading : Reading) → IsOutcome reading (outcome_of outcome)
        → GivesReading (table_data table.now) members.now at member reading result }
{
    match outcome {
        Outcome::Good(value) => payload_read(alloc, table, members, at, member, Ok(value)),
        Outcome::Bad(fault) => payload_read(
            alloc,
            table,
            members,
            at,
            member,
            Err(Refusal::Fault(fault)),
        ),
    }
}

// The same of bytes: none of them are nothing.
fn raw_payload<'a, P: Patterns>(
    alloc: Global,
    table: &Table,
    members: &'a [u32],
    at: usize,
    member: u32,
    bytes: Bytes,
    patterns: &mut P,
) -> BodyComing<'a>
    requires shaped { Shaped (table_data table.now) }
    requires member { member < member_count (table_data table.now) }
    requires stored { AreStored (table_data table.now).patterns (P.added patterns.old) }
    ensures gives { RawGives (table_data table.now) P.test members.now at member bytes result }
    ensures added { P.added patterns.new ≡ P.added patterns.old }
    ensures refused { P.refused patterns.new ≡ P.refused patterns.old }
    ensures refusals { P.refusals patterns.new ≡ P.refusals patterns.old }
{
    if bytes.as_slice().is_empty() {
        return nothing(alloc);
    }
    let read = raw_value(alloc, table, member, bytes, patterns);
    payload_read(alloc, table, members, at, member, read)
}

// The value of a payload, as its field; its fault is seen from the structure.
fn payload_read<'a>(
    alloc: Global,
    table: &Table,
    members: &'a [u32],
    at: usize,
    member: u32,
    read: Result<Value, Refusal>,
) -> BodyComing<'a>
    requires member { member < member_count (table_data table.now) }
    ensures { (reading : Reading) → JoinsTo reading read
        → GivesReading (table_data table.now) members.now at member reading result }
{
    match read {
        Ok(value) => payload_field(alloc, members, at, member, value),
        Err(refusal) => match at_member(alloc, table, member, refusal) {
            Refusal::Fault(fault) => BodyComing::Fault(fault),
            Refusal::NoMemory => BodyComing::NoMemory,
        },
    }
}

// The field of a payload.
fn payload_field<'a>(
    alloc: Global,
    members: &'a [u32],
    at: usize,
    member: u32,
    value: Value,
) -> BodyComing<'a>
    ensures { (table : TableData) → GivesReading table members.now at member (Ok (val_of value)) result }
{
    let mut fields = Vec::new(alloc);
    match fields.push((member, value)) {
        Ok(()) => BodyComing::Fields(Pending {
            there: true,
            copies: members,
            next: at,
            fields,
        }),
        Err(_) => BodyComing::NoMemory,
    }
}
