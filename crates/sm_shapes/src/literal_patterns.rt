// A store of patterns that stand for themselves: such a pattern finds a text of which it is a part. It
// serves tests, which say in which calls it refuses.
ghost use Rattle.std.specs.Prelude.{◌≡◌, ◌<◌, ◌≤◌, ◌-◌, ◌^◌, ◌↔◌, [], None, length, IfOk, OnOk, IsErrOf, IsTrue, Ok, true, false};
ghost use Rattle.sm_shapes.specs.Patterns.{Adds, RecordsRefusal, CountsRefusal, pattern_text};
ghost use Rattle.sm_shapes.specs.Literals.{IsPart, is_part, after_add, refuses};

use crate::{PatternRefusal, Patterns};
use sm_tree::{NoMemory, Text};
use std::alloc::Global;

/// Patterns that find the texts of which they are a contiguous part.
#[derive(Drop)]
pub struct LiteralPatterns {
    alloc: Global,
    patterns: Vec<Text>,
    failing: Vec<u64>,
    calls: u64,
    refused: Option<Text>,
    refusals: u64,
}

impl LiteralPatterns {
    ghost use Rattle.sm_shapes.specs.LiteralStore.{texts, refused_last, refusal_count, add_calls};

    /// A store without patterns. The calls of `add` that `failing` lists, counted from 1, refuse. No memory.
    pub fn new(alloc: Global, failing: Vec<u64>) -> Self
        ensures added { texts result ≡ [] }
        ensures refused { refused_last result ≡ None }
        ensures refusals { refusal_count result ≡ 0 }
        ensures calls { add_calls result ≡ record { failing = failing.items; made = 0 } }
    {
        LiteralPatterns {
            alloc,
            patterns: Vec::new(alloc),
            failing,
            calls: 0,
            refused: None,
            refusals: 0,
        }
    }
}

impl Patterns for LiteralPatterns {
    ghost use Rattle.sm_shapes.specs.LiteralStore.{texts, refused_last, refusal_count, add_calls};

    ghost added = { texts };

    ghost refused = { refused_last };

    ghost refusals = { refusal_count };

    ghost test = { is_part };

    fn add(&mut self, text: &str) -> Result<u32, PatternRefusal>
        ensures number { Adds (texts self.old) (texts self.new) text.now result }
        ensures full { 2 ^ 32 - 1 ≤ length (texts self.old) → IsErrOf result PatternRefusal.NoMemory }
        ensures last { RecordsRefusal (refused_last self.old) (refused_last self.new) text.now result }
        ensures count { CountsRefusal (refusal_count self.old) (refusal_count self.new) result }
        ensures later { refusal_count self.old ≤ refusal_count self.new }
        ensures calls { add_calls self.new ≡ after_add (add_calls self.old) }
        ensures listed { IsErrOf result PatternRefusal.Refused → refuses (add_calls self.new) ≡ true }
        ensures unlisted { OnOk result (refuses (add_calls self.new) ≡ false) }
    {
        self.calls = self.calls.saturating_add(1);
        if self.patterns.len() >= u32::MAX as usize {
            return Err(PatternRefusal::NoMemory);
        }
        let number = self.patterns.len() as u32;
        let text = Text::copy(self.alloc, text)?;
        if self.failing.contains(&self.calls) {
            self.refused = Some(text);
            self.refusals = self.refusals.saturating_add(1);
            return Err(PatternRefusal::Refused);
        }
        self.patterns.push(text)?;
        Ok(number)
    }

    #[tactic(auto, using(crate::proofs::Literals::contains_is_part, crate::proofs::Literals::decides_part))]
    fn finds(&mut self, pattern: u32, text: &str) -> Result<bool, NoMemory>
        requires number { pattern < length (texts self.old) }
        ensures found { result ≡ Ok (is_part (pattern_text (texts self.old) pattern) text.now) }
        ensures part { IfOk result (λ found. IsTrue found ↔ IsPart (pattern_text (texts self.old) pattern) text.now) }
        ensures added { texts self.new ≡ texts self.old }
        ensures refused { refused_last self.new ≡ refused_last self.old }
        ensures refusals { refusal_count self.new ≡ refusal_count self.old }
        ensures calls { add_calls self.new ≡ add_calls self.old }
    {
        Ok(text.contains(self.patterns[pattern as usize].as_str()))
    }
}
