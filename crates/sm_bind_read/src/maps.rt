// Members for which maps of texts may stand: the query map and prefix headers.
ghost use Rattle.std.specs.Prelude.{◌≡◌, ◌<◌, ◌++◌, ◌∷◌, [], ℕ, List, IfOk, MatchOption, OnOk, true};
ghost use Rattle.std.specs.List.{filter};
ghost use Rattle.std.specs.Str.{str_to_ascii_lowercase};
ghost use Rattle.sm_shapes.specs.InOrder.{AreStored, Shaped};
ghost use Rattle.sm_shapes.specs.Places.{kind_of, member_place, value_place};
ghost use Rattle.sm_shapes.specs.TableData.{member_count, shape_count};
ghost use Rattle.sm_shapes.specs.TableView.{table_data};
ghost use Rattle.sm_shapes.specs.declared.kinds.ShapeKind.TheVariants.{List as a_list, Map as a_map};
ghost use Rattle.sm_codec.specs.Codec.{InTable, codec_of};
ghost use Rattle.sm_codec.specs.Conventions.{json_convention};
ghost use Rattle.sm_codec.specs.PlaceView.{place_of};
ghost use Rattle.sm_codec.specs.Readings.{member_reading, when_closed};
ghost use Rattle.sm_part_values.specs.FormView.{form_of};
ghost use Rattle.sm_part_values.specs.Joins.{MemberJoins};
ghost use Rattle.sm_part_values.specs.PartTexts.{is_list, keyed_by, map_or_none};
ghost use Rattle.sm_bind.specs.BoundView.{bound_of};
ghost use Rattle.sm_bind_read.specs.steps.Taken.{has_text};
ghost use Rattle.sm_bind_read.specs.PartFaults.{bound_codec};
ghost use Rattle.sm_bind_read.specs.Parts.{is_of_map, params_children, prefixed_children, prefixed_texts};
ghost use Rattle.sm_bind_read.specs.steps.Sources.{is_free, kept_text};

use crate::fields::is_list;
use crate::single::{absent_value, present};
use crate::sources::put_row;
use crate::taken::{is_taken_field, taken_keys};
use sm_bind::BoundPlace;
use sm_codec::{Refusal, ValuePlace};
use sm_http::{Field, trim};
use sm_part_values::{PartForm, keyed_value};
use sm_shapes::Patterns;
use sm_shapes::tables::Table;
use sm_shapes::values::Value;
use sm_tree::{Bytes, NoMemory, Text};
use std::alloc::Global;
use std::collections::BTreeSet;

/// What a member comes to that is bound to the query map. n log n in the pairs, and in the members.
pub(crate) fn params_value<P: Patterns>(
    alloc: Global,
    place: &BoundPlace<'_>,
    member: u32,
    pairs: &[(Bytes, Bytes)],
    patterns: &mut P,
) -> Result<Option<Value>, Refusal>
    requires shaped { Shaped (table_data place.now.table.now) }
    requires shape { place.now.shape < shape_count (table_data place.now.table.now) }
    requires member { member < member_count (table_data place.now.table.now) }
    requires map { kind_of (table_data place.now.table.now) (member_place member) ≡ a_map }
    requires stored { AreStored (table_data place.now.table.now).patterns (P.added patterns.old) }
    ensures joins { MemberJoins (member_reading (when_closed (table_data place.now.table.now)) member
        (params_children (bound_of place.now) (bound_codec (bound_of place.now) P.test) member pairs.now)) result }
    ensures added { P.added patterns.new ≡ P.added patterns.old }
    ensures refused { P.refused patterns.new ≡ P.refused patterns.old }
    ensures refusals { P.refusals patterns.new ≡ P.refusals patterns.old }
{
    match map_pairs(alloc, place, pairs) {
        Ok(rows) => mapped_value(
            alloc,
            place.table,
            member,
            PartForm::Target,
            is_list_there(place.table, ValuePlace::Member(member).value(place.table)),
            rows,
            patterns,
        ),
        Err(_) => Err(Refusal::NoMemory),
    }
}

/// What a member comes to that is bound to the fields of a prefix.
pub(crate) fn prefixed_value<P: Patterns>(
    alloc: Global,
    place: &BoundPlace<'_>,
    member: u32,
    prefix: &str,
    fields: &[Field],
    patterns: &mut P,
) -> Result<Option<Value>, Refusal>
    requires shaped { Shaped (table_data place.now.table.now) }
    requires shape { place.now.shape < shape_count (table_data place.now.table.now) }
    requires member { member < member_count (table_data place.now.table.now) }
    requires map { kind_of (table_data place.now.table.now) (member_place member) ≡ a_map }
    requires stored { AreStored (table_data place.now.table.now).patterns (P.added patterns.old) }
    ensures joins { MemberJoins (member_reading (when_closed (table_data place.now.table.now)) member
        (prefixed_children (bound_of place.now) (bound_codec (bound_of place.now) P.test) prefix.now fields.now)) result }
    ensures added { P.added patterns.new ≡ P.added patterns.old }
    ensures refused { P.refused patterns.new ≡ P.refused patterns.old }
    ensures refusals { P.refusals patterns.new ≡ P.refusals patterns.old }
{
    match prefixed_rows(alloc, place, prefix, fields) {
        Ok(rows) => mapped_value(
            alloc,
            place.table,
            member,
            PartForm::Field,
            false,
            rows,
            patterns,
        ),
        Err(_) => Err(Refusal::NoMemory),
    }
}

// Whether lists stand at a place.
fn is_list_there(table: &Table, place: ValuePlace) -> bool
    requires shaped { Shaped (table_data table.now) }
    requires place { InTable (table_data table.now) (place_of place) }
    ensures value { result ≡ is_list (kind_of (table_data table.now) (place_of place)) }
    ensures list { result ≡ true → kind_of (table_data table.now) (place_of place) ≡ a_list }
{
    is_list(place.kind(table))
}

// What a member comes to for which these pairs stand as a map.
fn mapped_value<P: Patterns>(
    alloc: Global,
    table: &Table,
    member: u32,
    form: PartForm,
    lists: bool,
    rows: Vec<(Text, Bytes)>,
    patterns: &mut P,
) -> Result<Option<Value>, Refusal>
    requires shaped { Shaped (table_data table.now) }
    requires member { member < member_count (table_data table.now) }
    requires map { kind_of (table_data table.now) (member_place member) ≡ a_map }
    requires lists { lists ≡ true → kind_of (table_data table.now) (value_place (table_data table.now) (member_place member)) ≡ a_list }
    requires stored { AreStored (table_data table.now).patterns (P.added patterns.old) }
    ensures joins { MemberJoins (member_reading (when_closed (table_data table.now)) member
        (map_or_none (codec_of (table_data table.now) (json_convention true) P.test)
        (keyed_by lists (form_of form) (codec_of (table_data table.now) (json_convention true) P.test) rows.items))) result }
    ensures added { P.added patterns.new ≡ P.added patterns.old }
    ensures refused { P.refused patterns.new ≡ P.refused patterns.old }
    ensures refusals { P.refusals patterns.new ≡ P.refusals patterns.old }
{
    if rows.as_slice().is_empty() {
        return absent_value(alloc, table, member);
    }
    present(keyed_value(
        alloc,
        table,
        ValuePlace::Member(member),
        form,
        lists,
        rows,
        patterns,
    ))
}

// The pairs that stand in the query map: their keys are texts that neither a literal nor another member names. Those are put in order once,
// so that each pair asks by halves.
fn map_pairs(
    alloc: Global,
    place: &BoundPlace<'_>,
    pairs: &[(Bytes, Bytes)],
) -> Result<Vec<(Text, Bytes)>, NoMemory>
    requires { place.now.shape < shape_count (table_data place.now.table.now) }
    ensures { IfOk result (λ rows. rows.items ≡ filter (is_of_map (bound_of place.now)) pairs.now) }
{
    let taken = taken_keys(alloc, place)?;
    free_pairs(alloc, &taken, pairs)
}

// The pairs whose keys are texts that aren't taken.
fn free_pairs(
    alloc: Global,
    taken: &BTreeSet<&str>,
    pairs: &[(Bytes, Bytes)],
) -> Result<Vec<(Text, Bytes)>, NoMemory>
    ensures { IfOk result (λ rows. rows.items ≡ filter (is_free (has_text taken.now)) pairs.now) }
{
    let mut rows = Vec::new(alloc);
    for pair in pairs {
        put_free(alloc, taken, &mut rows, pair)?;
    }
    Ok(rows)
}

fn put_free(
    alloc: Global,
    taken: &BTreeSet<&str>,
    rows: &mut Vec<(Text, Bytes)>,
    pair: &(Bytes, Bytes),
) -> Result<(), NoMemory>
    ensures { OnOk result (rows.new.items ≡ rows.old.items ++ filter (is_free (has_text taken.now)) (pair.now ∷ [])) }
{
    match str::from_utf8(pair.0.as_slice()) {
        Ok(key) => {
            if taken.contains(key) {
                return Ok(());
            }
            put_row(alloc, rows, key, pair.1.as_slice())
        }
        Err(_) => Ok(()),
    }
}

// The fields that begin with a prefix, without it and in lower case, that aren't empty and that nothing else names.
fn prefixed_rows(
    alloc: Global,
    place: &BoundPlace<'_>,
    prefix: &str,
    fields: &[Field],
) -> Result<Vec<(Text, Bytes)>, NoMemory>
    requires { place.now.shape < shape_count (table_data place.now.table.now) }
    ensures { IfOk result (λ rows. rows.items ≡ prefixed_texts (bound_of place.now) (str_to_ascii_lowercase prefix.now) fields.now) }
{
    let lower = lower_text(alloc, prefix)?;
    lower_rows(alloc, place, lower.as_str(), fields)
}

// The same of a prefix in lower case.
fn lower_rows(
    alloc: Global,
    place: &BoundPlace<'_>,
    prefix: &str,
    fields: &[Field],
) -> Result<Vec<(Text, Bytes)>, NoMemory>
    requires { place.now.shape < shape_count (table_data place.now.table.now) }
    ensures { IfOk result (λ rows. rows.items ≡ prefixed_texts (bound_of place.now) prefix.now fields.now) }
{
    let mut rows = Vec::new(alloc);
    for field in fields {
        put_prefixed(alloc, place, prefix, &mut rows, field)?;
    }
    Ok(rows)
}

fn put_prefixed(
    alloc: Global,
    place: &BoundPlace<'_>,
    prefix: &str,
    rows: &mut Vec<(Text, Bytes)>,
    field: &Field,
) -> Result<(), NoMemory>
    requires { place.now.shape < shape_count (table_data place.now.table.now) }
    ensures { OnOk result (rows.new.items ≡ rows.old.items ++ prefixed_texts (bound_of place.now) prefix.now (field.now ∷ [])) }
{
    let lower = lower_text(alloc, field.name.as_str())?;
    match behind(lower.as_str(), prefix) {
        Some(key) => put_unless_taken(alloc, place, rows, key, field),
        None => Ok(()),
    }
}

// Puts the value of a field under a key.
fn put_unless_taken(
    alloc: Global,
    place: &BoundPlace<'_>,
    rows: &mut Vec<(Text, Bytes)>,
    key: &str,
    field: &Field,
) -> Result<(), NoMemory>
    requires { place.now.shape < shape_count (table_data place.now.table.now) }
    ensures { OnOk result (rows.new.items ≡ rows.old.items ++ kept_text (bound_of place.now) key.now field.now) }
{
    let text = trim(field.value.as_slice());
    if text.is_empty() {
        return Ok(());
    }
    if is_taken_field(place, field.name.as_str()) {
        return Ok(());
    }
    put_row(alloc, rows, key, text)
}

// A text in lower case.
fn lower_text(alloc: Global, text: &str) -> Result<Text, NoMemory>
    ensures { IfOk result (λ lower. lower ≡ str_to_ascii_lowercase text.now) }
{
    Ok(Text::new(text.to_ascii_lowercase(alloc)?))
}

// What stands behind a text that another begins with.
fn behind<'a>(text: &'a str, before: &str) -> Option<&'a str>
    ensures { MatchOption result
        ((rest : List ℕ) → text.now ≡ before.now ++ rest → ⊥)
        (λ rest. text.now ≡ before.now ++ rest.now) }
{
    text.strip_prefix(before)
}
