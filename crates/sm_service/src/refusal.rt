// Why a service isn't compiled.
use sm_ids::ShapeId;

/// Why a service isn't compiled.
#[derive(Debug, Drop)]
pub enum ServiceRefusal {
    /// The id names no service.
    NoService,
    /// The store of patterns refused one that the service leads to: the least id of those that carry its text.
    Pattern(ShapeId),
    /// The allocator refused the memory that compiling needs.
    NoMemory,
}
