// Where the values of an operation stand in its messages.
ghost use Rattle.std.specs.Prelude.{◌≡◌, ◌<◌, ◌↔◌, IsTrue, length, map};
ghost use Rattle.std.specs.Option.{option_map};
ghost use Rattle.sm_shapes.specs.TableData.{shape_count};
ghost use Rattle.sm_rest.specs.service.ServiceView.{http_data, service_data};
ghost use Rattle.sm_rest.specs.messages.Goals.{HasGoal, goal_of, the_error, the_input, the_output};
ghost use Rattle.sm_rest.specs.bind.BoundView.{bound_of};
ghost use Rattle.sm_rest.specs.bind_read.BoundGoals.{bound_at, literal_keys};
ghost use Rattle.sm_rest.specs.rest_heads.BodyParts.{part_of};
ghost use Rattle.sm_rest.specs.rest_heads.declared.bodies.BodyPart.TheVariants.{Nothing};

use sm_rest::sm_bind::{BoundPlace, PartSide};
use sm_rest::sm_messages::{error_at, input_shape, operation_at, output_shape};
use sm_rest::sm_rest_heads::{BodyPart, body_part};
use sm_rest::sm_service::{HttpRule, Service};
use sm_tree::Text;

// The literals of the pattern's query.
fn literals_of(rule: &Option<HttpRule>) -> &[(Text, Option<Text>)]
    ensures { map (λ l. l.0) result.now ≡ literal_keys (option_map http_data rule.now) }
{
    match rule {
        Some(rule) => rule.uri.literals.as_slice(),
        None => &[],
    }
}

/// Where the input of an operation stands in its requests.
pub(crate) fn input_place(service: &Service, operation: u32) -> BoundPlace<'_>
    requires { operation < length (service_data service.now).operations }
    ensures { bound_of result ≡ bound_at (service_data service.now) (goal_of operation the_input) }
{
    BoundPlace {
        table: &service.table,
        side: PartSide::Input,
        shape: input_shape(service, operation),
        literals: literals_of(&operation_at(service, operation).http),
    }
}

/// Where the output stands in responses.
pub(crate) fn output_place(service: &Service, operation: u32) -> BoundPlace<'_>
    requires { operation < length (service_data service.now).operations }
    ensures { bound_of result ≡ bound_at (service_data service.now) (goal_of operation the_output) }
{
    BoundPlace {
        table: &service.table,
        side: PartSide::Output,
        shape: output_shape(service, operation),
        literals: &[],
    }
}

/// Where an error stands, by its place among those of the operation.
pub(crate) fn error_place(service: &Service, operation: u32, place: u32) -> BoundPlace<'_>
    requires { HasGoal (service_data service.now) (goal_of operation (the_error place)) }
    ensures { bound_of result ≡ bound_at (service_data service.now) (goal_of operation (the_error place)) }
{
    BoundPlace {
        table: &service.table,
        side: PartSide::Error,
        shape: error_at(service, operation, place).shape,
        literals: &[],
    }
}

/// What stands in the body there.
pub(crate) fn part_at(place: &BoundPlace<'_>) -> BodyPart
    requires { place.now.shape < shape_count (bound_of place.now).table }
    ensures { result ≡ part_of (bound_of place.now) }
{
    body_part(place.table, place.side, place.shape)
}

/// Whether nothing does.
pub(crate) fn is_unread(place: &BoundPlace<'_>) -> bool
    requires { place.now.shape < shape_count (bound_of place.now).table }
    ensures { IsTrue result ↔ part_of (bound_of place.now) ≡ Nothing }
{
    match part_at(place) {
        BodyPart::Nothing => true,
        BodyPart::Document => false,
        BodyPart::Tree => false,
        BodyPart::Raw(_) => false,
    }
}
