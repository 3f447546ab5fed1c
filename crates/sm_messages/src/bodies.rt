// Bodies that are one tree of the whole value, written: of an input, and of what an operation answers.
ghost use Rattle.std.specs.Prelude.{◌≡◌, ◌<◌, [], IfOk, IsUtf8, length};
ghost use Rattle.sm_bodies.specs.Sides.{WritesForm, side_of};
ghost use Rattle.sm_shapes.specs.Fitting.{Fits, any_text};
ghost use Rattle.sm_shapes.specs.ValueView.{val_of};
ghost use Rattle.sm_service.specs.Servable.{Servable};
ghost use Rattle.sm_service.specs.ServiceView.{service_data};
ghost use Rattle.sm_messages.specs.Answers.{reply_role, reply_val};
ghost use Rattle.sm_messages.specs.Goals.{HasGoal, goal_of, the_error, the_input, the_output};
ghost use Rattle.sm_messages.specs.TreeBodies.{goal_place, status_of, tree_uncarried, tree_written};

use crate::goals::{error_at, input_shape, output_shape};
use crate::objects::named_body;
use crate::reply::Reply;
use crate::written::fault_status;
use sm_bodies::{BodyForm, carried_body};
use sm_codec::Leaves;
use sm_service::Service;
use sm_shapes::values::Value;
use sm_tree::NoMemory;
use std::alloc::Global;

/// The bytes of the tree that is written for an input, all of which is carried.
///
/// # Errors
///
/// `NoMemory`.
pub fn input_body<L: Leaves>(
    alloc: Global,
    form: BodyForm,
    service: &Service,
    operation: u32,
    value: &Value,
    leaves: &L,
) -> Result<Vec<u8>, NoMemory>
    requires servable { Servable (service_data service.now) }
    requires number { operation < length (service_data service.now).operations }
    requires fits { Fits (service_data service.now).table any_text (goal_place (service_data service.now) (goal_of operation the_input))
        (val_of value.now) }
    requires carried { tree_uncarried (L.convention leaves.now) (service_data service.now) (goal_of operation the_input) (val_of value.now)
        ≡ [] }
    requires writes { WritesForm form (L.convention leaves.now) }
    ensures { IfOk result (λ body. body.items ≡ (side_of form).text
        (tree_written (L.convention leaves.now) (service_data service.now) (goal_of operation the_input) [] (val_of value.now))) }
{
    let shape = input_shape(service, operation);
    carried_body(alloc, form, &service.table, shape, value, leaves)
}

// The bytes of the tree that is written for an output.
fn output_body<L: Leaves>(
    alloc: Global,
    form: BodyForm,
    service: &Service,
    operation: u32,
    value: &Value,
    leaves: &L,
) -> Result<Vec<u8>, NoMemory>
    requires servable { Servable (service_data service.now) }
    requires number { operation < length (service_data service.now).operations }
    requires fits { Fits (service_data service.now).table any_text (goal_place (service_data service.now) (goal_of operation the_output))
        (val_of value.now) }
    requires carried { tree_uncarried (L.convention leaves.now) (service_data service.now) (goal_of operation the_output)
        (val_of value.now) ≡ [] }
    requires writes { WritesForm form (L.convention leaves.now) }
    ensures { IfOk result (λ body. body.items ≡ (side_of form).text
        (tree_written (L.convention leaves.now) (service_data service.now) (goal_of operation the_output) [] (val_of value.now))) }
{
    let shape = output_shape(service, operation);
    carried_body(alloc, form, &service.table, shape, value, leaves)
}

// The bytes of the object that is written for an error, with this text under `__type` before its members.
fn error_body<L: Leaves>(
    alloc: Global,
    form: BodyForm,
    service: &Service,
    operation: u32,
    place: u32,
    told: &str,
    value: &Value,
    leaves: &L,
) -> Result<Vec<u8>, NoMemory>
    requires servable { Servable (service_data service.now) }
    requires goal { HasGoal (service_data service.now) (goal_of operation (the_error place)) }
    requires fits { Fits (service_data service.now).table any_text
        (goal_place (service_data service.now) (goal_of operation (the_error place))) (val_of value.now) }
    requires carried { tree_uncarried (L.convention leaves.now) (service_data service.now) (goal_of operation (the_error place))
        (val_of value.now) ≡ [] }
    requires writes { WritesForm form (L.convention leaves.now) }
    ensures { IfOk result (λ body. body.items ≡ (side_of form).text
        (tree_written (L.convention leaves.now) (service_data service.now) (goal_of operation (the_error place)) told.now
        (val_of value.now))) }
{
    let Value::Structure(fields) = value else {
        unreachable!();
    };
    let shape = error_at(service, operation, place).shape;
    named_body(
        alloc,
        form,
        &service.table,
        shape,
        "__type",
        told,
        fields.as_slice(),
        leaves,
    )
}

/// The bytes of the tree that is written for a reply, all of which is carried; where it is an error, this text tells its name.
///
/// # Errors
///
/// `NoMemory`.
pub fn reply_body<L: Leaves>(
    alloc: Global,
    form: BodyForm,
    service: &Service,
    operation: u32,
    reply: &Reply,
    told: &str,
    leaves: &L,
) -> Result<Vec<u8>, NoMemory>
    requires servable { Servable (service_data service.now) }
    requires goal { HasGoal (service_data service.now) (goal_of operation (reply_role reply.now)) }
    requires fits { Fits (service_data service.now).table any_text
        (goal_place (service_data service.now) (goal_of operation (reply_role reply.now))) (reply_val reply.now) }
    requires carried { tree_uncarried (L.convention leaves.now) (service_data service.now) (goal_of operation (reply_role reply.now))
        (reply_val reply.now) ≡ [] }
    requires writes { WritesForm form (L.convention leaves.now) }
    ensures { IfOk result (λ body. body.items ≡ (side_of form).text
        (tree_written (L.convention leaves.now) (service_data service.now) (goal_of operation (reply_role reply.now)) told.now
        (reply_val reply.now))) }
{
    match reply {
        Reply::Output(value) => output_body(alloc, form, service, operation, value, leaves),
        Reply::Error(place, value) => error_body(
            alloc, form, service, operation, *place, told, value, leaves,
        ),
    }
}

/// The status of the response that is written for a reply. No memory.
pub fn reply_status(service: &Service, operation: u32, reply: &Reply) -> u16
    requires { HasGoal (service_data service.now) (goal_of operation (reply_role reply.now)) }
    ensures { result ≡ status_of (service_data service.now) (goal_of operation (reply_role reply.now)) }
{
    match reply {
        Reply::Output(_) => 200,
        Reply::Error(place, _) => fault_status(error_at(service, operation, *place).client),
    }
}
