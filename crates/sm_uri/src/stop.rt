// Why reading a pattern ends early.
use sm_tree::NoMemory;
use std::alloc::{AllocError, AllocFailed};

/// Why reading a pattern ends early: no pattern goes on at what is left of the text, or memory ran out.
#[derive(Debug, Clone, Copy, Drop)]
pub(crate) enum PatternStop<'a> {
    /// What is left, behind the longest prefix that begins a pattern.
    At(&'a str),
    /// The allocator refused.
    NoMemory,
}

impl From<NoMemory> for PatternStop<'_> {
    ghost use Rattle.std.specs.Prelude.{◌≡◌};
    ghost use Rattle.sm_uri.specs.declared.stop.PatternStop.TheVariants.{NoMemory as no_memory};

    ghost from_gives = { λ _ stop. stop ≡ no_memory };

    fn from(_refusal: NoMemory) -> Self {
        PatternStop::NoMemory
    }
}

impl<T: Drop> From<AllocFailed<T>> for PatternStop<'_> {
    ghost use Rattle.std.specs.Prelude.{◌≡◌};
    ghost use Rattle.sm_uri.specs.declared.stop.PatternStop.TheVariants.{NoMemory as no_memory};

    ghost from_gives = { λ _ stop. stop ≡ no_memory };

    fn from(_refused: AllocFailed<T>) -> Self {
        PatternStop::NoMemory
    }
}
