// One pattern of a store of regular expressions: compiled once, with the automaton that its searches build and keep. Contracts see
// its text.
ghost use Rattle.std.specs.Prelude.{◌≡◌, true, IfOk, IfSome, OnOk, IsErrOf, IsTrue};
ghost use Rattle.regex.specs.Utf8.{MatchesText};
ghost use Rattle.regex_dfa.specs.Search.{IsForwardFor};
ghost use Rattle.regex_meta.specs.Programs.{pattern_of};
ghost use Rattle.sm_shapes.specs.Regexes.{regex_finds, IsRegex, IsRefusedByCrate, FindsAsWritten};

use crate::PatternRefusal;
use crate::compiled::{compiled, finds_anew};
use regex_dfa::{End, Forward};
use regex_meta::Program;
use sm_tree::{NoMemory, Text};
use std::alloc::Global;
use std::marker::Model;

/// How many bytes of rows an automaton may keep. One that needs more begins anew, and where that happens too often it gives up.
const ROOM: usize = 2 << 20;

/// A pattern, ready to be searched for.
#[derive(Drop)]
pub(crate) struct StoredRegex {
    text: Text,
    program: Program,
    automaton: Forward,
    ghost as_written: { FindsAsWritten (pattern_of program) text },
    ghost whole: { MatchesText (pattern_of program) },
    ghost own: { IsForwardFor automaton program.dfa },
}

impl Model for StoredRegex {
    ghost use Rattle.std.specs.Prelude.{List, ℕ};

    ghost Value = { List ℕ };

    ghost view = { λ a. a.text };
}

// An automaton that has built nothing.
fn fresh(alloc: Global, program: &Program) -> Result<Forward, NoMemory>
    ensures { IfOk result (λ automaton. IsForwardFor automaton program.now.dfa) }
{
    let automaton = Forward::with_budget(alloc, &program.dfa, false, ROOM)?;
    Ok(automaton)
}

impl StoredRegex {
    /// Compiles a text. `Refused`: it is no pattern of the crate, or its program would be too big.
    pub(crate) fn new(alloc: Global, text: &str) -> Result<StoredRegex, PatternRefusal>
        ensures text { IfOk result (λ pattern. pattern ≡ text.now) }
        ensures read { OnOk result (IsRegex text.now) }
        ensures refused { IsErrOf result PatternRefusal.Refused → IsRefusedByCrate text.now }
    {
        let program = compiled(alloc, text)?;
        let automaton = fresh(alloc, &program)?;
        let text = Text::copy(alloc, text)?;
        Ok(StoredRegex {
            text,
            program,
            automaton,
        })
    }

    /// Drops what searches have built. The next one builds anew.
    pub(crate) fn renew(&mut self, alloc: Global) -> Result<(), NoMemory>
        ensures { self.new ≡ self.old }
    {
        self.automaton = fresh(alloc, &self.program)?;
        Ok(())
    }

    /// Whether the pattern finds the text.
    pub(crate) fn finds(&mut self, alloc: Global, text: &str) -> Result<bool, NoMemory>
        ensures found { IfOk result (λ found. found ≡ regex_finds self.old text.now) }
        ensures same { self.new ≡ self.old }
    {
        if self.program.min_len == 0 && self.begins(text) {
            return Ok(true);
        }
        match self.told(text) {
            Some(found) => Ok(found),
            None => self.searched(alloc, text),
        }
    }

    // Whether a match begins where the text does. `false` tells nothing.
    fn begins(&mut self, text: &str) -> bool
        ensures found { IsTrue result → regex_finds self.old text.now ≡ true }
        ensures same { self.new ≡ self.old }
    {
        let bytes = text.as_bytes();
        match self
            .automaton
            .find_end(&self.program.dfa, bytes, 0, bytes.len(), true, true)
        {
            End::At(_) => true,
            End::NoMatch | End::Idle(_) | End::GaveUp => false,
        }
    }

    // Whether some part of the text matches. Not told where the automaton gives up, or where a match may be empty: it might lie within a
    // character.
    fn told(&mut self, text: &str) -> Option<bool>
        ensures found { IfSome result (λ found. found ≡ regex_finds self.old text.now) }
        ensures same { self.new ≡ self.old }
    {
        let bytes = text.as_bytes();
        match self
            .automaton
            .find_end(&self.program.dfa, bytes, 0, bytes.len(), false, true)
        {
            End::At(_) => {
                if self.program.min_len > 0 {
                    Some(true)
                } else {
                    None
                }
            }
            End::NoMatch => Some(false),
            End::Idle(_) | End::GaveUp => None,
        }
    }

    // Whether some part of the text matches, by all engines of the crate, made for this text alone.
    fn searched(&self, alloc: Global, text: &str) -> Result<bool, NoMemory>
        ensures { IfOk result (λ found. found ≡ regex_finds self.now text.now) }
    {
        finds_anew(alloc, &self.program, text)
    }
}
