// Why a message is refused.
use sm_shapes::Fault;
use sm_tree::{SyntaxRefusal, Text};

/// Why a message is refused. The first in this order is told; but an error that a body names is looked for behind `Syntax`.
#[derive(Debug, Drop)]
pub enum MessageRefusal {
    /// The fields don't say that it is a message of the protocol.
    Protocol,
    /// A request names no operation of the service.
    UnknownOperation,
    /// The operation isn't served: the path to the member that isn't carried, or another word for why.
    Unserved(Text),
    /// The body is encoded, or a request's body has another type.
    MediaType,
    /// A response is an error, and names none of the operation's.
    UnknownError,
    /// The body is no text: the word and the place, and never `NoMemory`.
    Syntax(SyntaxRefusal),
    /// The first fault of what goes to the operation.
    Fault(Fault),
    /// The allocator refused memory.
    NoMemory,
}
