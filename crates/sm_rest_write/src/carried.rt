// Which values restJson1 carries. It is told by the goal of a value: the members of one structure stand in other parts of an error than of an
// output.
ghost use Rattle.std.specs.Prelude.{◌≡◌, ◌<◌, ◌↔◌, [], IfOk, IsTrue, length};
ghost use Rattle.sm_shapes.specs.Fitting.{Fits, any_text};
ghost use Rattle.sm_shapes.specs.ValueView.{val_of};
ghost use Rattle.sm_codec.specs.Encoded.{first_path};
ghost use Rattle.sm_rest.specs.service.Servable.{Servable};
ghost use Rattle.sm_rest.specs.service.ServiceView.{service_data};
ghost use Rattle.sm_rest.specs.messages.Answers.{reply_role, reply_val};
ghost use Rattle.sm_rest.specs.messages.Goals.{HasGoal, goal_of, the_input};
ghost use Rattle.sm_rest.specs.messages.TreeBodies.{goal_place};
ghost use Rattle.sm_rest.specs.RestForm.{rest_form};

use crate::places::{input_place, reply_place, value_in};
use sm_rest::sm_bind_write::{is_carried, not_carried};
use sm_rest::sm_messages::Reply;
use sm_rest::sm_service::Service;
use sm_shapes::values::Value;
use sm_tree::{NoMemory, Path};
use std::alloc::Global;

/// Whether requests of an operation carry a value of its input. No memory.
pub fn is_input_carried(service: &Service, operation: u32, value: &Value) -> bool
    requires servable { Servable (service_data service.now) }
    requires number { operation < length (service_data service.now).operations }
    requires fits { Fits (service_data service.now).table any_text
        (goal_place (service_data service.now) (goal_of operation the_input)) (val_of value.now) }
    ensures { IsTrue result ↔ (rest_form.uncarried (service_data service.now) (goal_of operation the_input) (val_of value.now) ≡ []) }
{
    is_carried(&input_place(service, operation), value)
}

/// The way to the first part of such a value, in model order, that isn't carried.
///
/// # Errors
///
/// `NoMemory`.
pub fn uncarried_input(
    alloc: Global,
    service: &Service,
    operation: u32,
    value: &Value,
) -> Result<Option<Path>, NoMemory>
    requires servable { Servable (service_data service.now) }
    requires number { operation < length (service_data service.now).operations }
    requires fits { Fits (service_data service.now).table any_text
        (goal_place (service_data service.now) (goal_of operation the_input)) (val_of value.now) }
    ensures { IfOk result (λ path. path
        ≡ first_path (rest_form.uncarried (service_data service.now) (goal_of operation the_input) (val_of value.now))) }
{
    not_carried(alloc, &input_place(service, operation), value)
}

/// Whether responses of an operation carry the value of a reply. No memory.
pub fn is_reply_carried(service: &Service, operation: u32, reply: &Reply) -> bool
    requires servable { Servable (service_data service.now) }
    requires goal { HasGoal (service_data service.now) (goal_of operation (reply_role reply.now)) }
    requires fits { Fits (service_data service.now).table any_text
        (goal_place (service_data service.now) (goal_of operation (reply_role reply.now))) (reply_val reply.now) }
    ensures { IsTrue result
        ↔ (rest_form.uncarried (service_data service.now) (goal_of operation (reply_role reply.now)) (reply_val reply.now) ≡ []) }
{
    is_carried(&reply_place(service, operation, reply), value_in(reply))
}

/// The way to the first part of the value of a reply, in model order, that isn't carried.
///
/// # Errors
///
/// `NoMemory`.
pub fn uncarried_reply(
    alloc: Global,
    service: &Service,
    operation: u32,
    reply: &Reply,
) -> Result<Option<Path>, NoMemory>
    requires servable { Servable (service_data service.now) }
    requires goal { HasGoal (service_data service.now) (goal_of operation (reply_role reply.now)) }
    requires fits { Fits (service_data service.now).table any_text
        (goal_place (service_data service.now) (goal_of operation (reply_role reply.now))) (reply_val reply.now) }
    ensures { IfOk result (λ path. path
        ≡ first_path (rest_form.uncarried (service_data service.now) (goal_of operation (reply_role reply.now)) (reply_val reply.now))) }
{
    not_carried(
        alloc,
        &reply_place(service, operation, reply),
        value_in(reply),
    )
}
