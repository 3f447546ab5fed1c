// What is kept of a service for a protocol.
ghost use Rattle.std.specs.Prelude.{IfOk};
ghost use Rattle.sm_awsjson.specs.service.Servable.{Servable};
ghost use Rattle.sm_awsjson.specs.service.ServiceView.{service_data};

use sm_awsjson::sm_service::Service;
use sm_http::Protocol;
use sm_rest_laws::sm_rest::Rest;
use sm_tree::NoMemory;
use std::alloc::Global;

/// A protocol, and what is kept of a service for it, so that no message pays for the service's model.
#[derive(Drop)]
pub enum Spoken {
    /// AWS JSON 1.0.
    AwsJson10,
    /// AWS JSON 1.1.
    AwsJson11,
    /// AWS restJson1: the bindings and the routes of the service.
    RestJson1(Rest),
    /// Smithy RPC v2 CBOR.
    RpcV2Cbor,
}

impl Spoken {
    ghost use Rattle.sm_protocols.specs.Kept.{IsSpokenOf};

    /// What is kept of a service for the protocol, made once. For restJson1 n log n in the members and operations; else nothing is kept.
    ///
    /// # Errors
    ///
    /// `NoMemory`.
    pub fn new(alloc: Global, protocol: Protocol, service: &Service) -> Result<Spoken, NoMemory>
        requires { Servable (service_data service.now) }
        ensures { IfOk result (λ spoken. IsSpokenOf (service_data service.now) protocol spoken) }
    {
        match protocol {
            Protocol::AwsJson10 => Ok(Spoken::AwsJson10),
            Protocol::AwsJson11 => Ok(Spoken::AwsJson11),
            Protocol::RestJson1 => match Rest::new(alloc, service) {
                Ok(rest) => Ok(Spoken::RestJson1(rest)),
                Err(refusal) => Err(refusal),
            },
            Protocol::RpcV2Cbor => Ok(Spoken::RpcV2Cbor),
        }
    }
}
