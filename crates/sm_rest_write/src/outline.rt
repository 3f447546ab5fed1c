// What is written of a value: the parts of its message, its body, and the type of that.
ghost use Rattle.std.specs.Prelude.{◌≡◌, ◌<◌, [], IfOk};
ghost use Rattle.sm_shapes.specs.Fitting.{Fits, any_text};
ghost use Rattle.sm_shapes.specs.InOrder.{Shaped};
ghost use Rattle.sm_shapes.specs.Places.{root_place};
ghost use Rattle.sm_shapes.specs.TableData.{kind_at, shape_count};
ghost use Rattle.sm_shapes.specs.ValueView.{val_of};
ghost use Rattle.sm_shapes.specs.declared.kinds.ShapeKind.TheVariants.{Structure};
ghost use Rattle.sm_rest.specs.bind.BoundView.{bound_of};
ghost use Rattle.sm_rest.specs.bind_write.CarriedParts.{uncarried_parts};
ghost use Rattle.sm_rest_write.specs.steps.Outlines.{IsOutlineOf};

use crate::body::BodyBytes;
use crate::types::body_type;
use sm_rest::sm_bind::{BoundPlace, Parts};
use sm_rest::sm_bind_write::split;
use sm_shapes::values::Value;
use sm_tree::NoMemory;
use std::alloc::Global;

/// What is written of a value.
#[derive(Drop)]
pub(crate) struct Outline<'v, 's> {
    /// The parts of its message that stand in the head.
    pub parts: Parts,
    /// The bytes of its body.
    pub body: BodyBytes<'v>,
    /// The type of a body there, where it isn't empty.
    pub content_type: &'s str,
}

/// What is written of a value that is carried. The status is the usual one where no member is bound to it.
pub(crate) fn outlined<'v, 's>(
    alloc: Global,
    place: &BoundPlace<'s>,
    usual: u16,
    value: &'v Value,
) -> Result<Outline<'v, 's>, NoMemory>
    requires shaped { Shaped (bound_of place.now).table }
    requires shape { place.now.shape < shape_count (bound_of place.now).table }
    requires structure { kind_at (bound_of place.now).table place.now.shape ≡ Structure }
    requires fits { Fits (bound_of place.now).table any_text (root_place place.now.shape) (val_of value.now) }
    requires carried { uncarried_parts (bound_of place.now) (val_of value.now) ≡ [] }
    ensures { IfOk result (λ outline. IsOutlineOf (bound_of place.now) usual (val_of value.now) outline) }
{
    let parts = split(alloc, place, usual, value)?;
    let body = BodyBytes::written(alloc, place, value)?;
    Ok(Outline {
        parts,
        body,
        content_type: body_type(place),
    })
}
