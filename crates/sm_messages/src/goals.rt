// The operations of a service by their numbers, and what their messages spell.
ghost use Rattle.std.specs.Prelude.{◌≡◌, ◌<◌, length};
ghost use Rattle.sm_service.specs.ServiceView.{operation_data, service_data};
ghost use Rattle.sm_messages.specs.Goals.{HasGoal, error_at, goal_of, goal_shape, operation_at, the_error, the_input, the_output};

use sm_service::{ErrorShape, Operation, Service};

/// The operation with this number. No memory.
pub fn operation_at(service: &Service, number: u32) -> &Operation
    requires { number < length (service_data service.now).operations }
    ensures { operation_data result.now ≡ operation_at (service_data service.now) number }
{
    &service.operations.as_slice()[number as usize]
}

/// The number of the structure of an operation's input. No memory.
pub fn input_shape(service: &Service, operation: u32) -> u32
    requires { operation < length (service_data service.now).operations }
    ensures { result ≡ goal_shape (service_data service.now) (goal_of operation the_input) }
{
    operation_at(service, operation).input
}

/// The number of the structure of an operation's output. No memory.
pub fn output_shape(service: &Service, operation: u32) -> u32
    requires { operation < length (service_data service.now).operations }
    ensures { result ≡ goal_shape (service_data service.now) (goal_of operation the_output) }
{
    operation_at(service, operation).output
}

/// The error of an operation at a place. No memory.
pub fn error_at(service: &Service, operation: u32, place: u32) -> &ErrorShape
    requires { HasGoal (service_data service.now) (goal_of operation (the_error place)) }
    ensures { result.now ≡ error_at (operation_at (service_data service.now) operation) place }
{
    match operation_at(service, operation).errors.get(place as usize) {
        Some(error) => error,
        None => unreachable!(),
    }
}
