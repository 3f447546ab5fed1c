// Why a text is no selector.
use std::alloc::AllocError;

/// Why a text is no selector. Places count bytes from 0.
#[derive(Debug, Clone, Copy, PartialEq, Eq, Drop)]
pub enum SelectorRefusal {
    /// What stands at this place can't go on; the length of the text where it ends too soon.
    Syntax(u64),
    /// A form of the standard that is not read begins at this place.
    OutOfProfile(u64),
    /// The allocator refused the memory that the selector needs, or more than 1,000 forms are open in one another.
    NoMemory,
}

impl From<AllocError> for SelectorRefusal {
    ghost use Rattle.std.specs.Prelude.{◌≡◌};
    ghost use Rattle.sm_select.specs.declared.refusal.SelectorRefusal.TheVariants.{NoMemory as no_memory};

    ghost from_gives = { λ _ refusal. refusal ≡ no_memory };

    fn from(_error: AllocError) -> Self {
        SelectorRefusal::NoMemory
    }
}
