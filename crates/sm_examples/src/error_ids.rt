// The error of an operation that has an id.
ghost use Rattle.std.specs.Prelude.{◌≡◌, ◌<◌, ◌^◌, length, map};
ghost use Rattle.sm_ids.specs.TextParts.{name_part};
ghost use Rattle.sm_shapes.specs.Names.{AllDiffer};
ghost use Rattle.sm_messages.specs.service.ServiceData.{name_of_error};
ghost use Rattle.sm_examples.specs.Entries.{error_with_id};
ghost use Rattle.sm_examples.specs.steps.ErrorIds.{IsErrorNamed};

use sm_ids::{namespace_and_name, without_member};
use sm_messages::sm_service::Errors;

// The name of a shape, by the text of its id.
fn name_in(id: &str) -> &str
    ensures { result.now ≡ name_part id.now }
{
    without_member(namespace_and_name(id).1)
}

// Whether the error at this place, which is there, has the id.
fn has_id(errors: &Errors, place: usize, id: &str) -> bool
    requires { place < length errors.now }
    ensures { IsErrorNamed errors.now place id.now result }
{
    match errors.get(place) {
        Some(error) => error.id.as_str() == id,
        None => unreachable!(),
    }
}

/// The place of the error with an id. By halves, by its name; no memory.
pub(crate) fn error_with_id(errors: &Errors, id: &str) -> Option<u32>
    requires few { length errors.now < 2 ^ 32 }
    requires differ { AllDiffer (map name_of_error errors.now) }
    ensures { result ≡ error_with_id errors.now id.now }
{
    match errors.named(name_in(id)) {
        Some(place) => {
            if has_id(errors, place, id) {
                Some(place as u32)
            } else {
                None
            }
        }
        None => None,
    }
}
