// The pairs of a query for the members of a value.
ghost use Rattle.std.specs.Prelude.{◌≡◌, ◌<◌, ◌++◌, [], OnOk, Some};
ghost use Rattle.sm_shapes.specs.Fitting.{Fits, any_text};
ghost use Rattle.sm_shapes.specs.InOrder.{Shaped};
ghost use Rattle.sm_shapes.specs.Places.{member_place, value_place};
ghost use Rattle.sm_shapes.specs.TableData.{member_count};
ghost use Rattle.sm_shapes.specs.TableView.{binding_data};
ghost use Rattle.sm_shapes.specs.Values.{fields_of};
ghost use Rattle.sm_shapes.specs.ValueView.{each_field_view, val_of};
ghost use Rattle.sm_codec.specs.PlaceView.{place_of};
ghost use Rattle.sm_codec.specs.Codec.{InTable};
ghost use Rattle.sm_part_texts.specs.PlaceTexts.{keyed_texts};
ghost use Rattle.sm_bind.specs.BoundView.{bound_of};
ghost use Rattle.sm_bind_write.specs.CarriedParts.{uncarried_bound, uncarried_params};
ghost use Rattle.sm_bind_write.specs.WrittenParts.{entries_in, member_pairs, member_params, written_pairs, written_params};
ghost use Rattle.sm_bind_write.specs.steps.FieldsMet.{FieldsReady};

use crate::bound::counted;
use sm_bind::BoundPlace;
use sm_codec::ValuePlace;
use sm_part_texts::{put_keyed, put_pairs};
use sm_shapes::tables::Binding;
use sm_shapes::values::Value;
use sm_tree::{Bytes, NoMemory};
use std::alloc::Global;

/// Puts the pairs of the members that are bound to the query.
pub(crate) fn put_queries(
    alloc: Global,
    place: &BoundPlace<'_>,
    fields: &[(u32, Value)],
    pairs: &mut Vec<(Bytes, Bytes)>,
) -> Result<(), NoMemory>
    requires shaped { Shaped (bound_of place.now).table }
    requires ready { FieldsReady (bound_of place.now) (fields_of (each_field_view fields.now)) }
    ensures { OnOk result (pairs.new.items ≡ pairs.old.items
        ++ written_pairs (bound_of place.now) (fields_of (each_field_view fields.now))) }
{
    for field in fields {
        match counted(place.table, place.side, field.0) {
            Some(binding) => put_query(alloc, place, field.0, binding, &field.1, pairs)?,
            None => {}
        }
    }
    Ok(())
}

fn put_query(
    alloc: Global,
    place: &BoundPlace<'_>,
    member: u32,
    binding: &Binding,
    value: &Value,
    pairs: &mut Vec<(Bytes, Bytes)>,
) -> Result<(), NoMemory>
    requires shaped { Shaped (bound_of place.now).table }
    requires member { member < member_count (bound_of place.now).table }
    requires fits { Fits (bound_of place.now).table any_text (member_place member) (val_of value.now) }
    requires carried { uncarried_bound (Some (binding_data binding.now)) (bound_of place.now) member (val_of value.now) ≡ [] }
    ensures { OnOk result (pairs.new.items ≡ pairs.old.items
        ++ member_pairs (Some (binding_data binding.now)) (bound_of place.now).table member (val_of value.now)) }
{
    match binding {
        Binding::Query(name) => put_pairs(
            alloc,
            place.table,
            ValuePlace::Member(member),
            name,
            value,
            pairs,
        ),
        Binding::Label => Ok(()),
        Binding::QueryParams => Ok(()),
        Binding::Header(_) => Ok(()),
        Binding::PrefixHeaders(_) => Ok(()),
        Binding::Payload => Ok(()),
        Binding::ResponseCode => Ok(()),
    }
}

/// Puts the pairs of the query map.
pub(crate) fn put_map(
    alloc: Global,
    place: &BoundPlace<'_>,
    fields: &[(u32, Value)],
    pairs: &mut Vec<(Bytes, Bytes)>,
) -> Result<(), NoMemory>
    requires shaped { Shaped (bound_of place.now).table }
    requires ready { FieldsReady (bound_of place.now) (fields_of (each_field_view fields.now)) }
    ensures { OnOk result (pairs.new.items ≡ pairs.old.items
        ++ written_params (bound_of place.now) (fields_of (each_field_view fields.now))) }
{
    for field in fields {
        match counted(place.table, place.side, field.0) {
            Some(binding) => put_params(alloc, place, field.0, binding, &field.1, pairs)?,
            None => {}
        }
    }
    Ok(())
}

fn put_params(
    alloc: Global,
    place: &BoundPlace<'_>,
    member: u32,
    binding: &Binding,
    value: &Value,
    pairs: &mut Vec<(Bytes, Bytes)>,
) -> Result<(), NoMemory>
    requires shaped { Shaped (bound_of place.now).table }
    requires member { member < member_count (bound_of place.now).table }
    requires fits { Fits (bound_of place.now).table any_text (member_place member) (val_of value.now) }
    requires carried { uncarried_bound (Some (binding_data binding.now)) (bound_of place.now) member (val_of value.now) ≡ [] }
    ensures { OnOk result (pairs.new.items ≡ pairs.old.items
        ++ member_params (Some (binding_data binding.now)) (bound_of place.now).table member (val_of value.now)) }
{
    match binding {
        Binding::QueryParams => {
            put_entries(alloc, place, ValuePlace::Member(member), value, pairs)
        }
        Binding::Label => Ok(()),
        Binding::Query(_) => Ok(()),
        Binding::Header(_) => Ok(()),
        Binding::PrefixHeaders(_) => Ok(()),
        Binding::Payload => Ok(()),
        Binding::ResponseCode => Ok(()),
    }
}

// The pairs of the entries of a map.
fn put_entries(
    alloc: Global,
    place: &BoundPlace<'_>,
    at: ValuePlace,
    value: &Value,
    pairs: &mut Vec<(Bytes, Bytes)>,
) -> Result<(), NoMemory>
    requires shaped { Shaped (bound_of place.now).table }
    requires place { InTable (bound_of place.now).table (place_of at) }
    requires fits { Fits (bound_of place.now).table any_text (place_of at) (val_of value.now) }
    requires carried { uncarried_params (bound_of place.now) (value_place (bound_of place.now).table (place_of at)) (val_of value.now) ≡ [] }
    ensures { OnOk result (pairs.new.items ≡ pairs.old.items ++ keyed_texts (bound_of place.now).table
        (value_place (bound_of place.now).table (place_of at)) (entries_in (val_of value.now))) }
{
    match value {
        Value::Map(entries) => {
            let inner = at.value(place.table);
            put_keyed(alloc, place.table, inner, entries.as_slice(), pairs)
        }
        Value::Null => Ok(()),
        Value::Bool(_) => Ok(()),
        Value::Int(_) => Ok(()),
        Value::Text(_) => Ok(()),
        Value::Blob(_) => Ok(()),
        Value::Time(_) => Ok(()),
        Value::List(_) => Ok(()),
        Value::Structure(_) => Ok(()),
        Value::Union(_, _) => Ok(()),
    }
}
