// The bytes of a body that is written: those of a raw payload stay in its value.
ghost use Rattle.std.specs.Prelude.{◌≡◌, ◌<◌, [], IfOk};
ghost use Rattle.sm_shapes.specs.Fitting.{Fits, any_text};
ghost use Rattle.sm_shapes.specs.InOrder.{Shaped};
ghost use Rattle.sm_shapes.specs.Places.{root_place};
ghost use Rattle.sm_shapes.specs.TableData.{kind_at, shape_count};
ghost use Rattle.sm_shapes.specs.ValueView.{val_of};
ghost use Rattle.sm_shapes.specs.declared.kinds.ShapeKind.TheVariants.{Structure};
ghost use Rattle.sm_rest.specs.bind.BoundView.{bound_of};
ghost use Rattle.sm_rest.specs.bind_write.CarriedParts.{uncarried_parts};
ghost use Rattle.sm_rest.specs.bind_write.WrittenParts.{written_content};
ghost use Rattle.sm_rest.specs.bind_bodies.WrittenBodies.{content_bytes};
ghost use Rattle.sm_rest_write.specs.steps.Bodies.{bytes_of};

use sm_rest::sm_bind::BoundPlace;
use sm_rest::sm_bind_bodies::{raw_body, written_body};
use sm_shapes::values::Value;
use sm_tree::NoMemory;
use std::alloc::Global;

/// The bytes of a body.
#[derive(Drop)]
pub(crate) enum BodyBytes<'v> {
    /// They stand in the value.
    Lent(&'v [u8]),
    /// They were written.
    Made(Vec<u8>),
}

impl<'v> BodyBytes<'v> {
    /// Those of the body that is written for a value that is carried.
    pub(crate) fn written(
        alloc: Global,
        place: &BoundPlace<'_>,
        value: &'v Value,
    ) -> Result<BodyBytes<'v>, NoMemory>
        requires shaped { Shaped (bound_of place.now).table }
        requires shape { place.now.shape < shape_count (bound_of place.now).table }
        requires structure { kind_at (bound_of place.now).table place.now.shape ≡ Structure }
        requires fits { Fits (bound_of place.now).table any_text (root_place place.now.shape) (val_of value.now) }
        requires carried { uncarried_parts (bound_of place.now) (val_of value.now) ≡ [] }
        ensures { IfOk result (λ body. bytes_of body ≡ content_bytes (written_content (bound_of place.now) (val_of value.now))) }
    {
        match raw_body(place, value) {
            Some(bytes) => Ok(BodyBytes::Lent(bytes)),
            None => Ok(BodyBytes::Made(written_body(alloc, place, value)?)),
        }
    }

    /// The bytes. No memory.
    pub(crate) fn as_slice(&self) -> &[u8]
        ensures { result.now ≡ bytes_of self.now }
    {
        match self {
            BodyBytes::Lent(bytes) => bytes,
            BodyBytes::Made(bytes) => bytes.as_slice(),
        }
    }

    /// A vector of them: a copy, where they stand in the value.
    pub(crate) fn into_vec(self, alloc: Global) -> Result<Vec<u8>, NoMemory>
        ensures { IfOk result (λ bytes. bytes.items ≡ bytes_of self.entry) }
    {
        match self {
            BodyBytes::Lent(bytes) => Ok(bytes.to_vec(alloc)?),
            BodyBytes::Made(bytes) => Ok(bytes),
        }
    }
}
