// A store of patterns in the language of the crate `regex`. A pattern is searched for: it finds a text of which
// some part matches. Each is compiled once, where it is added, and keeps what its searches build.
ghost use Rattle.std.specs.Prelude.{◌≡◌, ◌<◌, ◌≤◌, ◌-◌, ◌^◌, ◌↔◌, [], None, length, IfOk, OnOk, IsErrOf, IsTrue};
ghost use Rattle.sm_shapes.specs.Patterns.{Adds, RecordsRefusal, CountsRefusal, pattern_text};
ghost use Rattle.sm_shapes.specs.Regexes.{regex_finds, reading, IsRegex, IsRefusedByCrate, MatchesPart};

use crate::stored_regex::StoredRegex;
use crate::{PatternRefusal, Patterns};
use sm_tree::{NoMemory, Text};
use std::alloc::Global;

/// How many patterns keep what their searches have built, at most.
const KEPT: usize = 128;

/// Stands where no pattern keeps anything: no pattern has this number.
const NONE: u32 = u32::MAX;

/// Patterns in the language of the crate `regex`.
#[derive(Drop)]
pub struct RegexPatterns {
    alloc: Global,
    patterns: Vec<StoredRegex>,
    /// The one pattern of those whose numbers are alike by `KEPT` that keeps what its searches have built.
    keepers: [u32; KEPT],
    refused: Option<Text>,
    refusals: u64,
}

impl RegexPatterns {
    ghost use Rattle.sm_shapes.specs.RegexStore.{regex_texts, regex_refused, regex_refusals};

    /// A store without patterns. No memory.
    pub fn new(alloc: Global) -> Self
        ensures added { regex_texts result ≡ [] }
        ensures refused { regex_refused result ≡ None }
        ensures refusals { regex_refusals result ≡ 0 }
    {
        RegexPatterns {
            alloc,
            patterns: Vec::new(alloc),
            keepers: [NONE; KEPT],
            refused: None,
            refusals: 0,
        }
    }

    // Makes this pattern the one of its place that keeps what its searches build.
    fn keep(&mut self, pattern: u32) -> Result<(), NoMemory>
        ensures added { regex_texts self.new ≡ regex_texts self.old }
        ensures refused { regex_refused self.new ≡ regex_refused self.old }
        ensures refusals { regex_refusals self.new ≡ regex_refusals self.old }
    {
        let place = pattern as usize % KEPT;
        let keeper = self.keepers[place];
        if keeper == pattern {
            return Ok(());
        }
        if let Some(other) = self.patterns.get_mut(keeper as usize) {
            other.renew(self.alloc)?;
        }
        self.keepers[place] = pattern;
        Ok(())
    }
}

impl Patterns for RegexPatterns {
    ghost use Rattle.sm_shapes.specs.RegexStore.{regex_texts, regex_refused, regex_refusals};

    ghost added = { regex_texts };

    ghost refused = { regex_refused };

    ghost refusals = { regex_refusals };

    ghost test = { regex_finds };

    fn add(&mut self, text: &str) -> Result<u32, PatternRefusal>
        ensures number { Adds (regex_texts self.old) (regex_texts self.new) text.now result }
        ensures full { 2 ^ 32 - 1 ≤ length (regex_texts self.old) → IsErrOf result PatternRefusal.NoMemory }
        ensures last { RecordsRefusal (regex_refused self.old) (regex_refused self.new) text.now result }
        ensures count { CountsRefusal (regex_refusals self.old) (regex_refusals self.new) result }
        ensures later { regex_refusals self.old ≤ regex_refusals self.new }
        ensures read { OnOk result (IsRegex text.now) }
        ensures crate_refused { IsErrOf result PatternRefusal.Refused → IsRefusedByCrate text.now }
    {
        if self.patterns.len() >= u32::MAX as usize {
            return Err(PatternRefusal::NoMemory);
        }
        let number = self.patterns.len() as u32;
        let kept = Text::copy(self.alloc, text)?;
        match StoredRegex::new(self.alloc, text) {
            Ok(pattern) => {
                self.patterns.push(pattern)?;
                Ok(number)
            }
            Err(PatternRefusal::Refused) => {
                self.refused = Some(kept);
                self.refusals = self.refusals.saturating_add(1);
                Err(PatternRefusal::Refused)
            }
            Err(PatternRefusal::NoMemory) => Err(PatternRefusal::NoMemory),
        }
    }

    fn finds(&mut self, pattern: u32, text: &str) -> Result<bool, NoMemory>
        requires number { pattern < length (regex_texts self.old) }
        ensures found { IfOk result (λ found. found ≡ regex_finds (pattern_text (regex_texts self.old) pattern) text.now) }
        ensures part { IfOk result (λ found. IsTrue found ↔ MatchesPart (reading (pattern_text (regex_texts self.old) pattern)) text.now) }
        ensures added { regex_texts self.new ≡ regex_texts self.old }
        ensures refused { regex_refused self.new ≡ regex_refused self.old }
        ensures refusals { regex_refusals self.new ≡ regex_refusals self.old }
    {
        self.keep(pattern)?;
        self.patterns[pattern as usize].finds(self.alloc, text)
    }
}
