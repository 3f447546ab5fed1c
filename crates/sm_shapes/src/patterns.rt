// Stores of patterns: what tests a text against the patterns of a table's shapes. The compiler of models
// adds the patterns, and the codec asks for them by number.
ghost use Rattle.std.specs.Prelude.{◌≡◌, ◌<◌, ◌≤◌, ◌-◌, ◌^◌, ℕ, List, Bool, Option, length, IfOk, IsErrOf};
ghost use Rattle.sm_shapes.specs.Patterns.{Adds, RecordsRefusal, CountsRefusal, pattern_text};

use sm_tree::NoMemory;
use std::alloc::AllocFailed;

/// Why a pattern wasn't added.
#[derive(Debug, Clone, Copy, PartialEq, Eq, Drop)]
pub enum PatternRefusal {
    /// The store takes no pattern of this text. It has raised its count of refusals.
    Refused,
    /// Memory ran out, or the store is full.
    NoMemory,
}

impl From<NoMemory> for PatternRefusal {
    ghost use Rattle.std.specs.Prelude.{◌≡◌};
    ghost use Rattle.sm_shapes.specs.declared.patterns.PatternRefusal.TheVariants.{NoMemory};

    ghost from_gives = { λ _ refusal. refusal ≡ NoMemory };

    fn from(_refused: NoMemory) -> Self {
        PatternRefusal::NoMemory
    }
}

impl<T: Drop> From<AllocFailed<T>> for PatternRefusal {
    ghost use Rattle.std.specs.Prelude.{◌≡◌};
    ghost use Rattle.sm_shapes.specs.declared.patterns.PatternRefusal.TheVariants.{NoMemory};

    ghost from_gives = { λ _ refusal. refusal ≡ NoMemory };

    fn from(_refused: AllocFailed<T>) -> Self {
        PatternRefusal::NoMemory
    }
}

/// Patterns, numbered from 0 in the order in which they were added. A pattern that was added stays.
pub trait Patterns {
    /// The texts of the patterns added, by their numbers.
    ghost added: { Self → List (List ℕ) };

    /// The text refused last.
    ghost refused: { Self → Option (List ℕ) };

    /// How many calls of `add` refused a text; it stands still at its type's end.
    ghost refusals: { Self → ℕ };

    /// Whether a pattern of this text finds a text: one test for all stores of the type.
    ghost test: { List ℕ → List ℕ → Bool };

    /// Adds a pattern and gives its number.
    /// `Refused`: the store takes no such pattern, and `text` is the text refused last.
    /// `NoMemory`: memory ran out, or there are 2^32 - 1 patterns. Neither changes the patterns added, and
    /// nothing but `Refused` changes the text refused last and the count of refusals.
    fn add(&mut self, text: &str) -> Result<u32, PatternRefusal>
        ensures number { Adds (added self.old) (added self.new) text.now result }
        ensures full { 2 ^ 32 - 1 ≤ length (added self.old) → IsErrOf result PatternRefusal.NoMemory }
        ensures last { RecordsRefusal (refused self.old) (refused self.new) text.now result }
        ensures count { CountsRefusal (refusals self.old) (refusals self.new) result }
        ensures later { refusals self.old ≤ refusals self.new };

    /// Whether the pattern of this number finds the text.
    fn finds(&mut self, pattern: u32, text: &str) -> Result<bool, NoMemory>
        requires number { pattern < length (added self.old) }
        ensures found { IfOk result (λ found. found ≡ test (pattern_text (added self.old) pattern) text.now) }
        ensures added { added self.new ≡ added self.old }
        ensures refused { refused self.new ≡ refused self.old }
        ensures refusals { refusals self.new ≡ refusals self.old };
}
