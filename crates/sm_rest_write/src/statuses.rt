// The statuses of responses, where no member is bound to them.
ghost use Rattle.std.specs.Prelude.{◌≡◌, ◌<◌, length};
ghost use Rattle.std.specs.Option.{option_map};
ghost use Rattle.sm_rest.specs.service.ServiceView.{http_data, service_data};
ghost use Rattle.sm_rest.specs.messages.Answers.{reply_role};
ghost use Rattle.sm_rest.specs.messages.Goals.{HasGoal, goal_of, the_output};
ghost use Rattle.sm_rest.specs.RestGoals.{code_of, error_status, usual_status};

use sm_rest::sm_messages::{Reply, error_at, fault_status, operation_at};
use sm_rest::sm_service::{ErrorShape, HttpRule, Service};

// The `code` of an output.
fn code_of(rule: &Option<HttpRule>) -> u16
    ensures { result ≡ code_of (option_map http_data rule.now) }
{
    match rule {
        Some(rule) => rule.code,
        None => 200,
    }
}

fn output_status(service: &Service, operation: u32) -> u16
    requires { operation < length (service_data service.now).operations }
    ensures { result ≡ usual_status (service_data service.now) (goal_of operation the_output) }
{
    code_of(&operation_at(service, operation).http)
}

// The status of an error: that of `httpError`, else its side's.
fn error_status(error: &ErrorShape) -> u16
    ensures { result ≡ error_status error.now }
{
    match error.status {
        Some(status) => status,
        None => fault_status(error.client),
    }
}

/// The status of the response that is written for a reply, where no member is bound to it.
pub(crate) fn usual_status(service: &Service, operation: u32, reply: &Reply) -> u16
    requires { HasGoal (service_data service.now) (goal_of operation (reply_role reply.now)) }
    ensures { result ≡ usual_status (service_data service.now) (goal_of operation (reply_role reply.now)) }
{
    match reply {
        Reply::Output(_) => output_status(service, operation),
        Reply::Error(place, _) => error_status(error_at(service, operation, *place)),
    }
}
