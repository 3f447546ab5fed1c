// Why a session ended.
use sm_http::HttpRefusal;

/// Why a session ended.
#[derive(Clone, Copy, Debug, PartialEq, Eq)]
pub enum SessionEnd {
    /// The bytes of the front ended before a request, or a request or the back's answer to it said `connection: close`.
    Closed,
    /// 1,000,000 turns came.
    Quota,
    /// The bytes of the front ended inside a request.
    FrontEnded,
    /// The bytes of the back ended before or inside an answer.
    BackEnded,
    /// The bytes of the front are no request: `Head`, `HeadTooLarge`, `Coding`, `Length`, `TooLong` or `Chunk`.
    FrontFraming(HttpRefusal),
    /// The bytes of the back are no answer: one of the same words.
    BackFraming(HttpRefusal),
    /// The source of the front failed.
    FrontRead,
    /// The sink of the front failed.
    FrontWrite,
    /// The source of the back failed.
    BackRead,
    /// The sink of the back failed.
    BackWrite,
    /// Memory ran out.
    NoMemory,
}
