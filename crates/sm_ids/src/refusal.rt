// Why a text is no shape id, and that memory ran out.
pub use sm_bytes::NoMemory;

/// Why a text isn't a shape id.
#[derive(Debug, Clone, Copy, PartialEq, Eq, Drop)]
pub enum IdRefusal {
    /// The text is empty.
    Empty,
    /// The text is another one that is no shape id, and this many of its leading bytes begin one. Where all
    /// of them do, the text ends too early.
    BadIdentifier(u64),
}
