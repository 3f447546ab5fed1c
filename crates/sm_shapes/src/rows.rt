// The numbers of members in a table's row, as a type of their own: contracts see a list, so that two rows that say the same are equal.
ghost use Rattle.std.specs.Prelude.{◌≡◌};

use std::marker::Model;

/// The numbers of a shape's members, in model order.
#[derive(Debug, Drop)]
pub struct MemberNumbers {
    numbers: Vec<u32>,
}

impl Model for MemberNumbers {
    ghost use Rattle.std.specs.Prelude.{List, ℕ};

    ghost Value = { List ℕ };

    ghost view = { λ a. a.numbers.items };
}

impl MemberNumbers {
    /// The numbers that a vector holds. No memory.
    pub fn new(numbers: Vec<u32>) -> Self
        ensures { result ≡ numbers.items }
    {
        MemberNumbers { numbers }
    }

    /// The vector. No memory.
    pub fn into_inner(self) -> Vec<u32>
        ensures { result.items ≡ self }
    {
        self.numbers
    }

    /// The numbers, in order. No memory.
    pub fn as_slice(&self) -> &[u32]
        ensures { result.now ≡ self.now }
    {
        self.numbers.as_slice()
    }
}
