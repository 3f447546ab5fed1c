// Members for which fields of heads may stand.
ghost use Rattle.std.specs.Prelude.{◌≡◌, ◌<◌, ◌++◌, ◌∷◌, [], IfOk, OnOk, false, true};
ghost use Rattle.std.specs.List.{filter, join_with_byte};
ghost use Rattle.sm_bytes.specs.Ascii.{comma};
ghost use Rattle.sm_http.specs.FieldValues.{values_named};
ghost use Rattle.sm_parts.specs.HeaderLists.{entries_of, filled, is_filled};
ghost use Rattle.sm_shapes.specs.InOrder.{AreStored, Shaped};
ghost use Rattle.sm_shapes.specs.Places.{entry_place, kind_of, member_place};
ghost use Rattle.sm_shapes.specs.TableData.{member_count};
ghost use Rattle.sm_shapes.specs.TableView.{table_data};
ghost use Rattle.sm_shapes.specs.declared.kinds.ShapeKind.TheVariants.{List as a_list};
ghost use Rattle.sm_codec.specs.Codec.{codec_of};
ghost use Rattle.sm_codec.specs.Conventions.{json_convention};
ghost use Rattle.sm_codec.specs.Readings.{member_reading, when_closed};
ghost use Rattle.sm_codec.specs.Sorts.{Sort, simple_in};
ghost use Rattle.sm_part_values.specs.Joins.{MemberJoins};
ghost use Rattle.sm_bind_read.specs.steps.Sources.{with_comma};
ghost use Rattle.sm_part_values.specs.PartTexts.{cut_by, field_children, fields_by, in_field, is_list, text_sort};

use crate::single::{absent_value, present};
use sm_codec::{Refusal, Simple, ValuePlace};
use sm_http::{Field, folds_to, trim};
use sm_part_values::{PartForm, entries_value, fault_here, text_value};
use sm_parts::{HeaderCut, ListEntry, cut_of, entries};
use sm_shapes::kinds::ShapeKind;
use sm_shapes::tables::Table;
use sm_shapes::values::Value;
use sm_shapes::{FaultKind, Patterns};
use sm_time::Format;
use sm_tree::{Bytes, NoMemory};
use std::alloc::Global;

/// What a member comes to that is bound to a header.
pub(crate) fn header_value<P: Patterns>(
    alloc: Global,
    table: &Table,
    member: u32,
    name: &str,
    fields: &[Field],
    patterns: &mut P,
) -> Result<Option<Value>, Refusal>
    requires shaped { Shaped (table_data table.now) }
    requires member { member < member_count (table_data table.now) }
    requires stored { AreStored (table_data table.now).patterns (P.added patterns.old) }
    ensures joins { MemberJoins (member_reading (when_closed (table_data table.now)) member
        (field_children (codec_of (table_data table.now) (json_convention true) P.test) member name.now fields.now)) result }
    ensures added { P.added patterns.new ≡ P.added patterns.old }
    ensures refused { P.refused patterns.new ≡ P.refused patterns.old }
    ensures refusals { P.refusals patterns.new ≡ P.refusals patterns.old }
{
    match field_texts(alloc, fields, name) {
        Ok(texts) => {
            let listed = texts.as_slice();
            if is_list(table.kind(table.target(member))) {
                joined_value(alloc, table, member, listed, patterns)
            } else {
                alone_value(alloc, table, member, listed, patterns)
            }
        }
        Err(_) => Err(Refusal::NoMemory),
    }
}

// The values of the fields of a name, without the blanks around them, and without those that are empty.
fn field_texts(alloc: Global, fields: &[Field], name: &str) -> Result<Vec<Bytes>, NoMemory>
    ensures { IfOk result (λ texts. texts.items ≡ filled (values_named name.now fields.now)) }
{
    let mut texts = Vec::new(alloc);
    for field in fields {
        put_named(alloc, &mut texts, field, name)?;
    }
    Ok(texts)
}

// Puts the value of a field of this name.
fn put_named(
    alloc: Global,
    texts: &mut Vec<Bytes>,
    field: &Field,
    name: &str,
) -> Result<(), NoMemory>
    ensures { OnOk result (texts.new.items ≡ texts.old.items ++ filled (values_named name.now (field.now ∷ []))) }
{
    if folds_to(field.name.as_str().as_bytes(), name.as_bytes()) {
        put_filled(alloc, texts, trim(field.value.as_slice()))
    } else {
        Ok(())
    }
}

/// Puts a text, unless it is empty.
pub(crate) fn put_filled(alloc: Global, texts: &mut Vec<Bytes>, text: &[u8]) -> Result<(), NoMemory>
    ensures { OnOk result (texts.new.items ≡ texts.old.items ++ filter is_filled (text.now ∷ [])) }
{
    if text.is_empty() {
        return Ok(());
    }
    let copy = Bytes::new(text.to_vec(alloc)?);
    match texts.push(copy) {
        Ok(()) => Ok(()),
        Err(_) => Err(NoMemory),
    }
}

/// Whether values of the kind are lists.
pub(crate) fn is_list(kind: ShapeKind) -> bool
    ensures value { result ≡ is_list kind }
    ensures list { result ≡ true → kind ≡ a_list }
{
    match kind {
        ShapeKind::List => true,
        ShapeKind::Blob => false,
        ShapeKind::Boolean => false,
        ShapeKind::Text => false,
        ShapeKind::Enum => false,
        ShapeKind::Byte => false,
        ShapeKind::Short => false,
        ShapeKind::Integer => false,
        ShapeKind::IntEnum => false,
        ShapeKind::Long => false,
        ShapeKind::Timestamp => false,
        ShapeKind::Map => false,
        ShapeKind::Structure => false,
        ShapeKind::Union => false,
        ShapeKind::LeftOut => false,
    }
}

// What a member comes to for which one of these texts may stand.
fn alone_value<P: Patterns>(
    alloc: Global,
    table: &Table,
    member: u32,
    texts: &[Bytes],
    patterns: &mut P,
) -> Result<Option<Value>, Refusal>
    requires shaped { Shaped (table_data table.now) }
    requires member { member < member_count (table_data table.now) }
    requires stored { AreStored (table_data table.now).patterns (P.added patterns.old) }
    ensures joins { MemberJoins (member_reading (when_closed (table_data table.now)) member
        (fields_by false (codec_of (table_data table.now) (json_convention true) P.test) member texts.now)) result }
    ensures added { P.added patterns.new ≡ P.added patterns.old }
    ensures refused { P.refused patterns.new ≡ P.refused patterns.old }
    ensures refusals { P.refusals patterns.new ≡ P.refusals patterns.old }
{
    match texts {
        [] => absent_value(alloc, table, member),
        [text] => present(text_value(
            alloc,
            table,
            ValuePlace::Member(member),
            PartForm::Field,
            text.as_slice(),
            patterns,
        )),
        [_, _, ..] => Err(Refusal::Fault(fault_here(alloc, FaultKind::Repeated))),
    }
}

// What a member comes to for which these texts stand as one list.
fn joined_value<P: Patterns>(
    alloc: Global,
    table: &Table,
    member: u32,
    texts: &[Bytes],
    patterns: &mut P,
) -> Result<Option<Value>, Refusal>
    requires shaped { Shaped (table_data table.now) }
    requires member { member < member_count (table_data table.now) }
    requires list { kind_of (table_data table.now) (member_place member) ≡ a_list }
    requires stored { AreStored (table_data table.now).patterns (P.added patterns.old) }
    ensures joins { MemberJoins (member_reading (when_closed (table_data table.now)) member
        (fields_by true (codec_of (table_data table.now) (json_convention true) P.test) member texts.now)) result }
    ensures added { P.added patterns.new ≡ P.added patterns.old }
    ensures refused { P.refused patterns.new ≡ P.refused patterns.old }
    ensures refusals { P.refusals patterns.new ≡ P.refusals patterns.old }
{
    if texts.is_empty() {
        return absent_value(alloc, table, member);
    }
    match joined_entries(alloc, cut_at(table, member), texts) {
        Ok(listed) => present(entries_value(
            alloc,
            table,
            ValuePlace::Member(member),
            PartForm::Field,
            listed.as_slice(),
            patterns,
        )),
        Err(_) => Err(Refusal::NoMemory),
    }
}

// How the list of a member is cut.
fn cut_at(table: &Table, member: u32) -> HeaderCut
    requires shaped { Shaped (table_data table.now) }
    requires member { member < member_count (table_data table.now) }
    requires list { kind_of (table_data table.now) (member_place member) ≡ a_list }
    ensures { result ≡ cut_by (text_sort in_field (table_data table.now) (entry_place (table_data table.now) (member_place member))) }
{
    cut_of_some(
        ValuePlace::Member(member)
            .entry(table)
            .simple_with(table, Format::HttpDate),
    )
}

fn cut_of_some(simple: Option<Simple>) -> HeaderCut
    ensures { (s : Sort) → simple_in s ≡ simple → result ≡ cut_by s }
{
    match simple {
        Some(simple) => cut_of(simple),
        None => HeaderCut::EachComma,
    }
}

// The entries of the list that these texts are together.
fn joined_entries(
    alloc: Global,
    cut: HeaderCut,
    texts: &[Bytes],
) -> Result<Vec<ListEntry>, NoMemory>
    ensures { IfOk result (λ listed. listed.items ≡ entries_of cut (join_with_byte comma texts.now)) }
{
    let bytes = joined(alloc, texts)?;
    entries(alloc, cut, &bytes)
}

// Texts with one comma between.
fn joined(alloc: Global, texts: &[Bytes]) -> Result<Vec<u8>, NoMemory>
    ensures { IfOk result (λ bytes. bytes.items ≡ join_with_byte comma texts.now) }
{
    let mut bytes = Vec::new(alloc);
    for index in 0..texts.len() {
        put_joined(&mut bytes, index, texts[index].as_slice())?;
    }
    Ok(bytes)
}

// Puts a text behind so many others.
fn put_joined(bytes: &mut Vec<u8>, index: usize, text: &[u8]) -> Result<(), NoMemory>
    ensures { OnOk result (bytes.new.items ≡ bytes.old.items ++ with_comma index text.now) }
{
    if index == 0 {
        bytes.extend_from_slice(text)?;
        return Ok(());
    }
    bytes.push(b',')?;
    bytes.extend_from_slice(text)?;
    Ok(())
}
