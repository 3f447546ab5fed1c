// A gateway is made: what its protocols don't serve is found once.
ghost use Rattle.std.specs.Prelude.{◌≡◌, ◌<◌, ℕ, IfOk, Some, length, slice_get};
ghost use Rattle.sm_protocols.specs.service.Servable.{Servable};
ghost use Rattle.sm_protocols.specs.service.ServiceView.{service_data};
ghost use Rattle.sm_protocols.specs.messages.Crossings.{or_by};
ghost use Rattle.sm_protocols.specs.Forms.{form_of};
ghost use Rattle.sm_protocols.specs.Kept.{protocol_of};
ghost use Rattle.sm_gateway.specs.GatewayData.{GatewayData, IsHost};
ghost use Rattle.sm_gateway.specs.GatewayView.{KeepsBoth, gateway_data};

use crate::gateway::Gateway;
use sm_http::Protocol;
use sm_protocols::sm_service::Service;
use sm_protocols::{Spoken, restriction};
use sm_tree::{NoMemory, Text};
use std::alloc::Global;

// The path by which one of two protocols doesn't serve an operation: the first's, else the second's.
fn either_restriction(
    alloc: Global,
    front: &Spoken,
    back: &Spoken,
    service: &Service,
    operation: u32,
) -> Result<Option<Text>, NoMemory>
    requires servable { Servable (service_data service.now) }
    requires number { operation < length (service_data service.now).operations }
    ensures { IfOk result (λ path. path
        ≡ or_by ((form_of (protocol_of front.now)).restriction (service_data service.now) operation)
        ((form_of (protocol_of back.now)).restriction (service_data service.now) operation)) }
{
    match restriction(alloc, front, service, operation) {
        Ok(Some(path)) => Ok(Some(path)),
        Ok(None) => restriction(alloc, back, service, operation),
        Err(NoMemory) => Err(NoMemory),
    }
}

// These paths, of all operations.
fn restrictions(
    alloc: Global,
    front: &Spoken,
    back: &Spoken,
    service: &Service,
) -> Result<Vec<Option<Text>>, NoMemory>
    requires servable { Servable (service_data service.now) }
    ensures { IfOk result (λ paths. (o : ℕ) → o < length (service_data service.now).operations → slice_get paths.items o
        ≡ Some (or_by ((form_of (protocol_of front.now)).restriction (service_data service.now) o)
        ((form_of (protocol_of back.now)).restriction (service_data service.now) o))) }
{
    let count = service.operations.as_slice().len();
    let mut paths = Vec::with_capacity(alloc, count)?;
    for operation in 0..count as u32 {
        let path = either_restriction(alloc, front, back, service, operation)?;
        paths.push(path)?;
    }
    Ok(paths)
}

impl Gateway {
    /// A gateway of a service between two protocols, whose requests to the back name this host: 1 to 255 bytes from 0x21 to 0x7E. What it
    /// keeps of the service for a protocol, and what neither serves, is made once.
    ///
    /// # Errors
    ///
    /// `NoMemory`.
    pub fn new(
        alloc: Global,
        service: Service,
        front: Protocol,
        back: Protocol,
        host: &str,
    ) -> Result<Gateway, NoMemory>
        requires servable { Servable (service_data service) }
        requires host { IsHost host.now }
        ensures gateway { IfOk result (λ gateway. gateway_data gateway
            ≡ record { service = service_data service; front = front; back = back; host = host.now }) }
        ensures kept { IfOk result KeepsBoth }
    {
        let near = Spoken::new(alloc, front, &service)?;
        let far = Spoken::new(alloc, back, &service)?;
        let restrictions = restrictions(alloc, &near, &far, &service)?;
        let host = Text::copy(alloc, host)?;
        Ok(Gateway {
            service,
            front: near,
            back: far,
            host,
            restrictions,
        })
    }
}
