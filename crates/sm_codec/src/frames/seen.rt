// The members of a structure or a union that are closed.
ghost use Rattle.std.specs.Prelude.{◌≡◌, [], IfOk};
ghost use Rattle.std.specs.List.Sorted.{IsNonDecreasing};
ghost use Rattle.sm_codec.specs.steps.MemberSteps.{IsAdded};

use sm_tree::NoMemory;
use smallvec::SmallVec;
use std::alloc::Global;
use std::marker::Model;

/// The members that are closed, each once. Contracts see their numbers, whose order says nothing.
#[derive(Debug, Drop)]
pub struct Members {
    // They rise, so that one is found by halves. A few need no memory of their own.
    numbers: SmallVec<u32, 8>,
    ghost rises: { IsNonDecreasing numbers.items },
}

impl Model for Members {
    ghost use Rattle.std.specs.Prelude.{List, ℕ};

    ghost Value = { List ℕ };

    ghost view = { λ a. a.numbers.items };
}

impl Members {
    /// None yet. No memory.
    pub(crate) fn new(alloc: Global) -> Self
        ensures { result ≡ [] }
    {
        Members {
            numbers: SmallVec::new(alloc),
        }
    }

    /// Adds a member, and says whether it is new. A binary search; those behind it move.
    pub(crate) fn add(&mut self, member: u32) -> Result<bool, NoMemory>
        ensures { IfOk result (λ new. IsAdded new member self.old self.new) }
    {
        match self.numbers.as_slice().binary_search(&member) {
            Ok(_) => Ok(false),
            Err(place) => {
                self.numbers.insert(place, member)?;
                Ok(true)
            }
        }
    }
}
