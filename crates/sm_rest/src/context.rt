// restJson1 of a service: its bindings and its routes, made once, and which operation a head asks for.
ghost use Rattle.std.specs.Prelude.{◌≡◌, ◌<◌, IfOk, length};
ghost use Rattle.sm_bind_read.specs.service.Servable.{Servable};
ghost use Rattle.sm_bind_read.specs.service.ServiceView.{service_data};
ghost use Rattle.sm_bind_read.specs.messages.HeadAnswers.{IsNamed};
ghost use Rattle.sm_rest.specs.RestForm.{rest_form};
ghost use Rattle.sm_rest.specs.RestOf.{IsRestOf};

use sm_bind_read::sm_bind::Bindings;
use sm_bind_read::sm_service::Service;
use sm_http::Head;
use sm_rest_heads::{operation_asked, routes_of};
use sm_routes::Routes;
use sm_tree::{NoMemory, Text};
use std::alloc::Global;

/// restJson1 of a service: what is kept of the service, so that no message pays for its model.
#[derive(Drop)]
pub struct Rest {
    /// Which binding counts for each member, and the table by which documents are read.
    pub bindings: Bindings,
    /// Which operation a method and a target go to.
    pub routes: Routes,
}

impl Rest {
    /// restJson1 of a service, made once. n log n in its members and operations.
    ///
    /// # Errors
    ///
    /// `NoMemory`.
    pub fn new(alloc: Global, service: &Service) -> Result<Rest, NoMemory>
        requires { Servable (service_data service.now) }
        ensures { IfOk result (λ rest. IsRestOf (service_data service.now) rest) }
    {
        let bindings = Bindings::new(alloc, service)?;
        let routes = routes_of(alloc, service)?;
        Ok(Rest { bindings, routes })
    }

    /// The number of the operation that a request's head asks for, whether it is served or not. By halves, no memory.
    pub fn operation_of(&self, service: &Service, head: &Head) -> Option<u32>
        requires { IsRestOf (service_data service.now) self.now }
        ensures { IsNamed rest_form (service_data service.now) head.now result }
    {
        let _service = service;
        operation_asked(&self.routes, head)
    }

    /// The path by which restJson1 doesn't serve an operation: that of the first member whose binding isn't served, or `http`.
    ///
    /// # Errors
    ///
    /// `NoMemory`.
    pub fn restriction(
        &self,
        alloc: Global,
        service: &Service,
        operation: u32,
    ) -> Result<Option<Text>, NoMemory>
        requires servable { Servable (service_data service.now) }
        requires number { operation < length (service_data service.now).operations }
        ensures { IfOk result (λ path. path ≡ rest_form.restriction (service_data service.now) operation) }
    {
        sm_bind_bodies::sm_bind_write::restriction(alloc, service, operation)
    }
}
