// What a gateway holds of a message while its pieces come.
use sm_protocols::ProtocolBody;
use sm_protocols::sm_messages::MessageRefusal;

/// A message that is read.
#[derive(Drop)]
pub enum GatewayBody {
    /// It is refused at its head: its body is dropped.
    Refused(MessageRefusal),
    /// A request of the front.
    Request(ProtocolBody),
    /// The back's answer to a request for the operation with this number.
    Reply(u32, ProtocolBody),
}

/// A request that the back was asked.
#[derive(Drop)]
pub struct GatewayCall {
    /// The number of its operation.
    pub operation: u32,
}
