// Where the values of an operation stand in its messages.
ghost use Rattle.std.specs.Prelude.{◌≡◌, ◌<◌, length, map};
ghost use Rattle.std.specs.Option.{option_map};
ghost use Rattle.sm_rest.specs.service.ServiceView.{http_data, service_data};
ghost use Rattle.sm_shapes.specs.ValueView.{val_of};
ghost use Rattle.sm_rest.specs.messages.Answers.{reply_role, reply_val};
ghost use Rattle.sm_rest.specs.messages.Goals.{HasGoal, goal_of, the_error, the_input, the_output};
ghost use Rattle.sm_rest.specs.bind.BoundView.{bound_of};
ghost use Rattle.sm_rest.specs.bind_read.BoundGoals.{bound_at, literal_keys};

use sm_rest::sm_bind::{BoundPlace, PartSide};
use sm_rest::sm_messages::{Reply, error_at, input_shape, operation_at, output_shape};
use sm_rest::sm_service::{HttpRule, Service};
use sm_shapes::values::Value;
use sm_tree::Text;

// The literals of the pattern's query.
fn literals_of(rule: &Option<HttpRule>) -> &[(Text, Option<Text>)]
    ensures { map (λ l. l.0) result.now ≡ literal_keys (option_map http_data rule.now) }
{
    match rule {
        Some(rule) => rule.uri.literals.as_slice(),
        None => &[],
    }
}

/// Where the input of an operation stands in its requests.
pub(crate) fn input_place(service: &Service, operation: u32) -> BoundPlace<'_>
    requires { operation < length (service_data service.now).operations }
    ensures { bound_of result ≡ bound_at (service_data service.now) (goal_of operation the_input) }
{
    BoundPlace {
        table: &service.table,
        side: PartSide::Input,
        shape: input_shape(service, operation),
        literals: literals_of(&operation_at(service, operation).http),
    }
}

// Where the output stands in responses.
fn output_place(service: &Service, operation: u32) -> BoundPlace<'_>
    requires { operation < length (service_data service.now).operations }
    ensures { bound_of result ≡ bound_at (service_data service.now) (goal_of operation the_output) }
{
    BoundPlace {
        table: &service.table,
        side: PartSide::Output,
        shape: output_shape(service, operation),
        literals: &[],
    }
}

// Where an error stands, by its place among those of the operation.
fn error_place(service: &Service, operation: u32, place: u32) -> BoundPlace<'_>
    requires { HasGoal (service_data service.now) (goal_of operation (the_error place)) }
    ensures { bound_of result ≡ bound_at (service_data service.now) (goal_of operation (the_error place)) }
{
    BoundPlace {
        table: &service.table,
        side: PartSide::Error,
        shape: error_at(service, operation, place).shape,
        literals: &[],
    }
}

/// Where the value of a reply stands in the response.
pub(crate) fn reply_place<'s>(service: &'s Service, operation: u32, reply: &Reply) -> BoundPlace<'s>
    requires { HasGoal (service_data service.now) (goal_of operation (reply_role reply.now)) }
    ensures { bound_of result ≡ bound_at (service_data service.now) (goal_of operation (reply_role reply.now)) }
{
    match reply {
        Reply::Output(_) => output_place(service, operation),
        Reply::Error(place, _) => error_place(service, operation, *place),
    }
}

/// The value of a reply.
pub(crate) fn value_in(reply: &Reply) -> &Value
    ensures { val_of result.now ≡ reply_val reply.now }
{
    match reply {
        Reply::Output(value) => value,
        Reply::Error(_, value) => value,
    }
}
