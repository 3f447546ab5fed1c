// What is open round a place of a text: at most MOST_LEVELS things, kept in place and without memory. Readers keep one.
ghost use Rattle.std.specs.Prelude.{◌≡◌, ◌≤◌, ◌<◌, [], ◌∷◌, length};
ghost use Rattle.sm_tree.specs.Limits.{most_levels};

use crate::refusal::MOST_LEVELS;

/// Things that are open, each inside the next.
#[derive(Drop)]
pub struct Nested<T> {
    /// What is open, from `first` on and from the inside out. What stands before `first` is of no account.
    held: [T; MOST_LEVELS],
    /// Where the innermost stands.
    first: usize,
    ghost size: { length held ≡ most_levels },
    ghost inside: { first ≤ most_levels },
}

impl<T: Copy> Nested<T> {
    ghost use Rattle.sm_tree.specs.Nested.{nested_in, innermost_of, LosesInnermost};

    /// Nothing is open. What fills the room is of no account. No memory.
    pub fn new(filler: T) -> Self
        ensures { nested_in result ≡ [] }
    {
        Nested {
            held: [filler; MOST_LEVELS],
            first: MOST_LEVELS,
        }
    }

    /// How many are open. No memory.
    pub fn depth(&self) -> usize
        ensures { result ≡ length (nested_in self.now) }
    {
        MOST_LEVELS - self.first
    }

    /// The innermost. No memory.
    pub fn innermost(&self) -> Option<T>
        ensures { result ≡ innermost_of (nested_in self.now) }
    {
        if self.first < MOST_LEVELS {
            Some(self.held[self.first])
        } else {
            None
        }
    }

    /// One more opens, in the innermost. No memory.
    pub fn enter(&mut self, entry: T)
        requires { length (nested_in self.old) < most_levels }
        ensures { nested_in self.new ≡ entry ∷ nested_in self.old }
    {
        let first = self.first - 1;
        self.held[first] = entry;
        self.first = first;
    }

    /// The innermost ends, if any is open. No memory.
    pub fn leave(&mut self) -> Option<T>
        ensures { LosesInnermost (nested_in self.old) (nested_in self.new) result }
    {
        if self.first < MOST_LEVELS {
            let entry = self.held[self.first];
            self.first += 1;
            Some(entry)
        } else {
            None
        }
    }
}
