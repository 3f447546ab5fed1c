// The fields of a head for the members of a value.
ghost use Rattle.std.specs.Prelude.{◌≡◌, ◌<◌, ◌++◌, ◌∷◌, [], IfOk, OnOk, Some};
ghost use Rattle.std.specs.Str.{str_to_ascii_lowercase};
ghost use Rattle.sm_shapes.specs.Fitting.{Fits, any_text};
ghost use Rattle.sm_shapes.specs.InOrder.{Shaped};
ghost use Rattle.sm_shapes.specs.Places.{member_place, value_place};
ghost use Rattle.sm_shapes.specs.TableData.{member_count};
ghost use Rattle.sm_shapes.specs.TableView.{binding_data};
ghost use Rattle.sm_shapes.specs.Values.{fields_of};
ghost use Rattle.sm_shapes.specs.ValueView.{each_field_view, val_of};
ghost use Rattle.sm_codec.specs.Codec.{InTable};
ghost use Rattle.sm_codec.specs.PlaceView.{place_of};
ghost use Rattle.sm_part_texts.specs.CarriedTexts.{uncarried_field};
ghost use Rattle.sm_part_texts.specs.PlaceTexts.{field_value, prefixed_fields};
ghost use Rattle.sm_bind.specs.BoundView.{bound_of};
ghost use Rattle.sm_bind_write.specs.CarriedParts.{uncarried_bound, uncarried_prefixed};
ghost use Rattle.sm_bind_write.specs.WrittenParts.{entries_in, member_headers, written_headers};
ghost use Rattle.sm_bind_write.specs.steps.FieldsMet.{FieldsReady};

use crate::bound::counted;
use sm_bind::BoundPlace;
use sm_codec::ValuePlace;
use sm_http::Field;
use sm_part_texts::{field_of, put_prefixed};
use sm_shapes::tables::Binding;
use sm_shapes::values::Value;
use sm_tree::{NoMemory, Text};
use std::alloc::Global;

/// Puts the fields of the members that are bound to the head, each in its place: prefix headers too.
pub(crate) fn put_fields(
    alloc: Global,
    place: &BoundPlace<'_>,
    fields: &[(u32, Value)],
    heads: &mut Vec<Field>,
) -> Result<(), NoMemory>
    requires shaped { Shaped (bound_of place.now).table }
    requires ready { FieldsReady (bound_of place.now) (fields_of (each_field_view fields.now)) }
    ensures { OnOk result (heads.new.items ≡ heads.old.items
        ++ written_headers (bound_of place.now) (fields_of (each_field_view fields.now))) }
{
    for field in fields {
        match counted(place.table, place.side, field.0) {
            Some(binding) => put_bound(alloc, place, field.0, binding, &field.1, heads)?,
            None => {}
        }
    }
    Ok(())
}

fn put_bound(
    alloc: Global,
    place: &BoundPlace<'_>,
    member: u32,
    binding: &Binding,
    value: &Value,
    heads: &mut Vec<Field>,
) -> Result<(), NoMemory>
    requires shaped { Shaped (bound_of place.now).table }
    requires member { member < member_count (bound_of place.now).table }
    requires fits { Fits (bound_of place.now).table any_text (member_place member) (val_of value.now) }
    requires carried { uncarried_bound (Some (binding_data binding.now)) (bound_of place.now) member (val_of value.now) ≡ [] }
    ensures { OnOk result (heads.new.items ≡ heads.old.items
        ++ member_headers (Some (binding_data binding.now)) (bound_of place.now).table member (val_of value.now)) }
{
    match binding {
        Binding::Header(name) => put_header(alloc, place, member, name, value, heads),
        Binding::PrefixHeaders(prefix) => put_entries(
            alloc,
            place,
            prefix,
            ValuePlace::Member(member),
            value,
            heads,
        ),
        Binding::Label => Ok(()),
        Binding::Query(_) => Ok(()),
        Binding::QueryParams => Ok(()),
        Binding::Payload => Ok(()),
        Binding::ResponseCode => Ok(()),
    }
}

// A field under the name that a member is bound to, in lower case.
fn put_header(
    alloc: Global,
    place: &BoundPlace<'_>,
    member: u32,
    name: &Text,
    value: &Value,
    heads: &mut Vec<Field>,
) -> Result<(), NoMemory>
    requires shaped { Shaped (bound_of place.now).table }
    requires member { member < member_count (bound_of place.now).table }
    requires fits { Fits (bound_of place.now).table any_text (member_place member) (val_of value.now) }
    requires carried { uncarried_field (bound_of place.now).table (member_place member) (val_of value.now) ≡ [] }
    ensures { OnOk result (heads.new.items ≡ heads.old.items ++ (record {
      name = str_to_ascii_lowercase name.now;
      value = field_value (bound_of place.now).table (member_place member) (val_of value.now);
    }) ∷ []) }
{
    let lower = lower_text(alloc, name)?;
    let at = ValuePlace::Member(member);
    let head = field_of(alloc, place.table, at, lower, value)?;
    heads.push(head)?;
    Ok(())
}

fn lower_text(alloc: Global, text: &Text) -> Result<Text, NoMemory>
    ensures { IfOk result (λ lower. lower ≡ str_to_ascii_lowercase text.now) }
{
    Ok(Text::new(text.as_str().to_ascii_lowercase(alloc)?))
}

// The fields of the entries of a map.
fn put_entries(
    alloc: Global,
    place: &BoundPlace<'_>,
    prefix: &Text,
    at: ValuePlace,
    value: &Value,
    heads: &mut Vec<Field>,
) -> Result<(), NoMemory>
    requires shaped { Shaped (bound_of place.now).table }
    requires place { InTable (bound_of place.now).table (place_of at) }
    requires fits { Fits (bound_of place.now).table any_text (place_of at) (val_of value.now) }
    requires carried { uncarried_prefixed (bound_of place.now) (str_to_ascii_lowercase prefix.now)
        (value_place (bound_of place.now).table (place_of at)) (val_of value.now) ≡ [] }
    ensures { OnOk result (heads.new.items ≡ heads.old.items ++ prefixed_fields (bound_of place.now).table
        (value_place (bound_of place.now).table (place_of at)) (str_to_ascii_lowercase prefix.now) (entries_in (val_of value.now))) }
{
    match value {
        Value::Map(entries) => {
            let lower = lower_text(alloc, prefix)?;
            let inner = at.value(place.table);
            let rows = entries.as_slice();
            put_prefixed(alloc, place.table, inner, lower.as_str(), rows, heads)
        }
        Value::Null => Ok(()),
        Value::Bool(_) => Ok(()),
        Value::Int(_) => Ok(()),
        Value::Text(_) => Ok(()),
        Value::Blob(_) => Ok(()),
        Value::Time(_) => Ok(()),
        Value::List(_) => Ok(()),
        Value::Structure(_) => Ok(()),
        Value::Union(_, _) => Ok(()),
    }
}
