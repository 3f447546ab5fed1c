// The inside of a string or a text block, line by line (Smithy 2.0, "Smithy IDL", "String values" and "Text
// blocks").
ghost use Rattle.std.specs.Prelude.{◌<◌, ◌+◌, ◌^◌, length};

use crate::byte::LineBytes;
use crate::runs::line_end_len;
use sm_bytes::run_len;

/// A line, without its end.
#[derive(Clone, Copy)]
pub struct Line<'a> {
    /// Its characters.
    pub text: &'a str,
    /// The place of the first.
    pub at: usize,
    ghost places: { at + length text.now < 2 ^ 64 },
}

/// The lines of an inside that are left.
#[derive(Clone, Copy)]
pub struct Lines<'a> {
    /// What stands behind the line ends so far.
    rest: &'a str,
    /// The place of its first byte.
    at: usize,
    /// Whether the last line has been taken.
    done: bool,
    ghost places: { at + length rest.now < 2 ^ 64 },
}

impl<'a> Lines<'a> {
    ghost use Rattle.std.specs.Prelude.{◌≡◌};
    ghost use Rattle.sm_lex.specs.Lines.{lines_at};
    ghost use Rattle.sm_lex.specs.steps.LexSteps.{lines_left, NextLine};

    /// The lines of a text that begins at the place `at`.
    pub fn new(text: &'a str, at: usize) -> Self
        requires { at + length text.now < 2 ^ 64 }
        ensures { lines_left result ≡ lines_at at text.entry.now }
    {
        Lines {
            rest: text,
            at,
            done: false,
        }
    }

    /// Takes the next line.
    pub fn next(&mut self) -> Option<Line<'a>>
        ensures { NextLine self.old self.new result }
    {
        if self.done {
            return None;
        }
        let at = self.at;
        let len = run_len::<LineBytes>(self.rest.as_bytes());
        let (text, below) = self.rest.split_at(len);
        let end = line_end_len(below.as_bytes());
        if end == 0 {
            self.done = true;
            return Some(Line { text, at });
        }
        self.at = at + (len + end);
        self.rest = below.split_at(end).1;
        Some(Line { text, at })
    }

    /// Whether the last line has been taken.
    pub fn is_done(&self) -> bool
        ensures { result ≡ self.now.done }
    {
        self.done
    }
}
