// A store of patterns that find every text. What checks values without regard to patterns takes it.
ghost use Rattle.std.specs.Prelude.{◌≡◌, ◌<◌, ◌≤◌, ◌-◌, ◌^◌, [], length, IfErr, IsErrOf, Ok, true};
ghost use Rattle.sm_shapes.specs.Patterns.{Adds, RecordsRefusal, CountsRefusal};
ghost use Rattle.sm_shapes.specs.AnyStore.{any_texts, none_refused, no_refusals};

use crate::{PatternRefusal, Patterns};
use sm_tree::{NoMemory, Text};
use std::alloc::Global;

/// Patterns that find every text. None is refused, but for want of memory.
#[derive(Drop)]
pub struct AnyPatterns {
    alloc: Global,
    patterns: Vec<Text>,
}

impl AnyPatterns {
    /// A store without patterns. No memory.
    pub fn new(alloc: Global) -> Self
        ensures { any_texts result ≡ [] }
    {
        AnyPatterns {
            alloc,
            patterns: Vec::new(alloc),
        }
    }
}

impl Patterns for AnyPatterns {
    ghost use Rattle.sm_shapes.specs.Fitting.{any_text};
    ghost use Rattle.sm_shapes.specs.AnyStore.{any_texts, none_refused, no_refusals};

    ghost added = { any_texts };

    ghost refused = { none_refused };

    ghost refusals = { no_refusals };

    ghost test = { any_text };

    fn add(&mut self, text: &str) -> Result<u32, PatternRefusal>
        ensures number { Adds (any_texts self.old) (any_texts self.new) text.now result }
        ensures full { 2 ^ 32 - 1 ≤ length (any_texts self.old) → IsErrOf result PatternRefusal.NoMemory }
        ensures last { RecordsRefusal (none_refused self.old) (none_refused self.new) text.now result }
        ensures count { CountsRefusal (no_refusals self.old) (no_refusals self.new) result }
        ensures later { no_refusals self.old ≤ no_refusals self.new }
        ensures unrefused { IfErr result (λ refusal. refusal ≡ PatternRefusal.NoMemory) }
    {
        if self.patterns.len() >= u32::MAX as usize {
            return Err(PatternRefusal::NoMemory);
        }
        let number = self.patterns.len() as u32;
        let text = Text::copy(self.alloc, text)?;
        self.patterns.push(text)?;
        Ok(number)
    }

    fn finds(&mut self, pattern: u32, text: &str) -> Result<bool, NoMemory>
        requires number { pattern < length (any_texts self.old) }
        ensures found { result ≡ Ok true }
        ensures added { any_texts self.new ≡ any_texts self.old }
        ensures refused { none_refused self.new ≡ none_refused self.old }
        ensures refusals { no_refusals self.new ≡ no_refusals self.old }
    {
        let _asked = (pattern, text.len());
        Ok(true)
    }
}
