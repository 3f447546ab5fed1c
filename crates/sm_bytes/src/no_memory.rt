// That the allocator refused memory: one word for all crates.
use std::alloc::{AllocError, AllocFailed};

/// The allocator refused the memory that a call needs.
#[derive(Debug, Clone, Copy, PartialEq, Eq, Drop)]
pub struct NoMemory;

impl From<AllocError> for NoMemory {
    ghost use Rattle.std.specs.Prelude.{◌≡◌};
    ghost use Rattle.sm_bytes.specs.declared.no_memory.NoMemory.{NoMemory};

    ghost from_gives = { λ _ refusal. refusal ≡ record {} };

    fn from(_error: AllocError) -> Self {
        NoMemory
    }
}

impl<T: Drop> From<AllocFailed<T>> for NoMemory {
    ghost use Rattle.std.specs.Prelude.{◌≡◌};
    ghost use Rattle.sm_bytes.specs.declared.no_memory.NoMemory.{NoMemory};

    ghost from_gives = { λ _ refusal. refusal ≡ record {} };

    fn from(_refused: AllocFailed<T>) -> Self {
        NoMemory
    }
}
