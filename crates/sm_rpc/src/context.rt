// Smithy RPC v2 CBOR: which operation a head asks for.
ghost use Rattle.std.specs.Prelude.{◌≡◌, ◌<◌, IfOk, length};
ghost use Rattle.sm_service.specs.Servable.{Servable};
ghost use Rattle.sm_service.specs.ServiceView.{service_data};
ghost use Rattle.sm_messages.specs.HeadAnswers.{IsNamed};
ghost use Rattle.sm_rpc.specs.Messages.{rpc_form};

use crate::path::operation_at;
use sm_http::{Head, Start};
use sm_service::Service;
use sm_tree::{NoMemory, Text};

/// Smithy RPC v2 CBOR.
#[derive(Debug, Clone, Copy, PartialEq, Eq, Drop)]
pub struct Rpc;

impl Rpc {
    /// The number of the operation that a request's head asks for, whether it is served or not. By halves, no memory.
    pub fn operation_of(&self, service: &Service, head: &Head) -> Option<u32>
        requires { Servable (service_data service.now) }
        ensures { IsNamed rpc_form (service_data service.now) head.now result }
    {
        match &head.start {
            Start::Response { .. } => None,
            Start::Request { method, target } => {
                if method.as_str() == "POST" {
                    operation_at(service, target.as_str().as_bytes())
                } else {
                    None
                }
            }
        }
    }

    /// The path by which the protocol doesn't serve an operation: there is none.
    pub fn restriction(&self, service: &Service, operation: u32) -> Result<Option<Text>, NoMemory>
        requires { operation < length (service_data service.now).operations }
        ensures { IfOk result (λ path. path ≡ rpc_form.restriction (service_data service.now) operation) }
    {
        let _service = service;
        let _operation = operation;
        Ok(None)
    }
}
