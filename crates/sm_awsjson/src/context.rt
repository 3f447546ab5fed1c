// AWS JSON of a version: which operation a head asks for.
ghost use Rattle.std.specs.Prelude.{◌≡◌, ◌<◌, IfOk, length};
ghost use Rattle.sm_service.specs.Servable.{Servable};
ghost use Rattle.sm_service.specs.ServiceView.{service_data};
ghost use Rattle.sm_messages.specs.HeadAnswers.{IsNamed};
ghost use Rattle.sm_awsjson.specs.Messages.{aws_form};

use crate::target::operation_told;
use crate::version::AwsVersion;
use sm_http::{Head, Start};
use sm_service::Service;
use sm_tree::{NoMemory, Text};

/// AWS JSON of a version.
#[derive(Debug, Clone, Copy, PartialEq, Eq, Drop)]
pub struct AwsJson {
    /// Which one.
    pub version: AwsVersion,
}

impl AwsJson {
    /// The number of the operation that a request's head asks for, whether it is served or not. By halves, no memory.
    pub fn operation_of(&self, service: &Service, head: &Head) -> Option<u32>
        requires { Servable (service_data service.now) }
        ensures { IsNamed (aws_form self.now.version) (service_data service.now) head.now result }
    {
        match &head.start {
            Start::Response { .. } => None,
            Start::Request { method, target } => {
                if method.as_str() == "POST" && target.as_str() == "/" {
                    operation_told(service, head.fields.only("x-amz-target"))
                } else {
                    None
                }
            }
        }
    }

    /// The path by which the protocol doesn't serve an operation: there is none.
    pub fn restriction(&self, service: &Service, operation: u32) -> Result<Option<Text>, NoMemory>
        requires { operation < length (service_data service.now).operations }
        ensures { IfOk result (λ path. path ≡ (aws_form self.now.version).restriction (service_data service.now) operation) }
    {
        let _service = service;
        let _operation = operation;
        Ok(None)
    }
}
