// The parts that are written for a value.
ghost use Rattle.std.specs.Prelude.{◌≡◌, ◌<◌, [], IfOk};
ghost use Rattle.sm_shapes.specs.Fitting.{Fits, any_text};
ghost use Rattle.sm_shapes.specs.InOrder.{Shaped};
ghost use Rattle.sm_shapes.specs.Places.{root_place};
ghost use Rattle.sm_shapes.specs.TableData.{shape_count};
ghost use Rattle.sm_shapes.specs.Values.{fields_of};
ghost use Rattle.sm_shapes.specs.ValueView.{each_field_view, val_of};
ghost use Rattle.sm_bind.specs.BindingsView.{parts_data};
ghost use Rattle.sm_bind.specs.BoundView.{bound_of};
ghost use Rattle.sm_bind_write.specs.CarriedParts.{uncarried_parts};
ghost use Rattle.sm_bind_write.specs.WrittenParts.{parts_of, written_parts};
ghost use Rattle.sm_bind_write.specs.steps.FieldsMet.{FieldsReady};

mod fields;
mod labels;
mod queries;
mod status;

use crate::met::fields_in;
use crate::writing::fields::put_fields;
use crate::writing::labels::put_labels;
use crate::writing::queries::{put_map, put_queries};
use crate::writing::status::status_among;
use sm_bind::{BoundPlace, Parts};
use sm_shapes::values::Value;
use sm_tree::NoMemory;
use std::alloc::Global;

/// The parts that are written for a value that is carried. The status is the usual one where none is bound.
///
/// # Errors
///
/// `NoMemory`.
pub fn split(
    alloc: Global,
    place: &BoundPlace<'_>,
    usual: u16,
    value: &Value,
) -> Result<Parts, NoMemory>
    requires shaped { Shaped (bound_of place.now).table }
    requires shape { place.now.shape < shape_count (bound_of place.now).table }
    requires fits { Fits (bound_of place.now).table any_text (root_place place.now.shape) (val_of value.now) }
    requires carried { uncarried_parts (bound_of place.now) (val_of value.now) ≡ [] }
    ensures { IfOk result (λ parts. parts_data parts ≡ written_parts (bound_of place.now) usual (val_of value.now)) }
{
    parts_of(alloc, place, usual, fields_in(value))
}

fn parts_of(
    alloc: Global,
    place: &BoundPlace<'_>,
    usual: u16,
    fields: &[(u32, Value)],
) -> Result<Parts, NoMemory>
    requires shaped { Shaped (bound_of place.now).table }
    requires ready { FieldsReady (bound_of place.now) (fields_of (each_field_view fields.now)) }
    ensures { IfOk result (λ parts. parts_data parts ≡ parts_of (bound_of place.now) usual (fields_of (each_field_view fields.now))) }
{
    let mut labels = Vec::new(alloc);
    put_labels(alloc, place, fields, &mut labels)?;
    let mut query = Vec::new(alloc);
    put_queries(alloc, place, fields, &mut query)?;
    put_map(alloc, place, fields, &mut query)?;
    let mut heads = Vec::new(alloc);
    put_fields(alloc, place, fields, &mut heads)?;
    let status = status_among(place, usual, fields);
    Ok(Parts {
        labels,
        query,
        fields: heads,
        status,
    })
}
