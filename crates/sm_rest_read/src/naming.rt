// The error that a body names.
ghost use Rattle.std.specs.Prelude.{◌≡◌, ◌<◌, length};
ghost use Rattle.std.specs.Option.{option_map};
ghost use Rattle.sm_tree.specs.View.{node_of};
ghost use Rattle.sm_rest.specs.service.Servable.{Servable};
ghost use Rattle.sm_rest.specs.service.ServiceView.{service_data};
ghost use Rattle.sm_rest.specs.messages.Messages.{error_of_tree, place_told};
ghost use Rattle.sm_rest.specs.RestForm.{rest_form};
ghost use Rattle.sm_rest_read.specs.steps.Contents.{NamesPlace};

use sm_rest::sm_messages::{
    MessageRefusal, error_told, is_empty, operation_at, syntax_refused, told_by_body,
};
use sm_rest::sm_service::Service;
use sm_tree::Tree;
use std::alloc::Global;

// The error that a text tells, if there is one.
fn place_told(service: &Service, operation: u32, told: Option<&str>) -> Option<u32>
    requires servable { Servable (service_data service.now) }
    requires number { operation < length (service_data service.now).operations }
    ensures { result ≡ place_told (service_data service.now) operation (option_map (λ text. text.now) told.entry) }
{
    let text = told?;
    match error_told(&operation_at(service, operation).errors, text.as_bytes()) {
        Some(place) => Some(place as u32),
        None => None,
    }
}

// The error that a tree tells.
fn place_in(service: &Service, operation: u32, tree: &Tree) -> Option<u32>
    requires servable { Servable (service_data service.now) }
    requires number { operation < length (service_data service.now).operations }
    ensures { result ≡ error_of_tree rest_form (service_data service.now) operation (node_of tree.now) }
{
    place_told(service, operation, told_by_body(tree))
}

/// The place of the error that the bytes of a body name: none do so where there are none.
///
/// # Errors
///
/// `Syntax`, `UnknownError`, in this order; `NoMemory`.
pub(crate) fn error_named(
    alloc: Global,
    service: &Service,
    operation: u32,
    bytes: &[u8],
) -> Result<u32, MessageRefusal>
    requires servable { Servable (service_data service.now) }
    requires number { operation < length (service_data service.now).operations }
    ensures { NamesPlace (service_data service.now) operation bytes.now result }
{
    if is_empty(bytes) {
        return Err(MessageRefusal::UnknownError);
    }
    match sm_json::read_tree(alloc, bytes) {
        Ok(tree) => match place_in(service, operation, &tree) {
            Some(place) => Ok(place),
            None => Err(MessageRefusal::UnknownError),
        },
        Err(refusal) => Err(syntax_refused(refusal)),
    }
}
