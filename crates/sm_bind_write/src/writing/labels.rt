// The labels of a target for the members of a value.
ghost use Rattle.std.specs.Prelude.{◌≡◌, ◌<◌, ◌++◌, [], OnOk, Some};
ghost use Rattle.sm_shapes.specs.InOrder.{Shaped};
ghost use Rattle.sm_shapes.specs.TableData.{member_count};
ghost use Rattle.sm_shapes.specs.TableView.{binding_data};
ghost use Rattle.sm_shapes.specs.Values.{fields_of};
ghost use Rattle.sm_shapes.specs.ValueView.{each_field_view, val_of};
ghost use Rattle.sm_bind.specs.BoundView.{bound_of};
ghost use Rattle.sm_bind_write.specs.CarriedParts.{uncarried_bound};
ghost use Rattle.sm_bind_write.specs.WrittenParts.{member_labels, written_labels};
ghost use Rattle.sm_bind_write.specs.steps.FieldsMet.{FieldsReady};

use crate::bound::counted;
use sm_bind::BoundPlace;
use sm_codec::ValuePlace;
use sm_part_texts::bytes_at;
use sm_shapes::tables::Binding;
use sm_shapes::values::Value;
use sm_time::Format;
use sm_tree::{Bytes, NoMemory, Text};
use std::alloc::Global;

/// Puts the texts of the members that are labels, by their names.
pub(crate) fn put_labels(
    alloc: Global,
    place: &BoundPlace<'_>,
    fields: &[(u32, Value)],
    labels: &mut Vec<(Text, Bytes)>,
) -> Result<(), NoMemory>
    requires shaped { Shaped (bound_of place.now).table }
    requires ready { FieldsReady (bound_of place.now) (fields_of (each_field_view fields.now)) }
    ensures { OnOk result (labels.new.items ≡ labels.old.items
        ++ written_labels (bound_of place.now) (fields_of (each_field_view fields.now))) }
{
    for field in fields {
        match counted(place.table, place.side, field.0) {
            Some(binding) => put_label(alloc, place, field.0, binding, &field.1, labels)?,
            None => {}
        }
    }
    Ok(())
}

fn put_label(
    alloc: Global,
    place: &BoundPlace<'_>,
    member: u32,
    binding: &Binding,
    value: &Value,
    labels: &mut Vec<(Text, Bytes)>,
) -> Result<(), NoMemory>
    requires shaped { Shaped (bound_of place.now).table }
    requires member { member < member_count (bound_of place.now).table }
    requires carried { uncarried_bound (Some (binding_data binding.now)) (bound_of place.now) member (val_of value.now) ≡ [] }
    ensures { OnOk result (labels.new.items ≡ labels.old.items
        ++ member_labels (Some (binding_data binding.now)) (bound_of place.now).table member (val_of value.now)) }
{
    match binding {
        Binding::Label => {
            let name = Text::copy(alloc, place.table.name(member))?;
            let at = ValuePlace::Member(member);
            let text = bytes_at(alloc, place.table, at, Format::DateTime, value)?;
            labels.push((name, text))?;
            Ok(())
        }
        Binding::Query(_) => Ok(()),
        Binding::QueryParams => Ok(()),
        Binding::Header(_) => Ok(()),
        Binding::PrefixHeaders(_) => Ok(()),
        Binding::Payload => Ok(()),
        Binding::ResponseCode => Ok(()),
    }
}
