// Paths from a tree's root to one of its parts, and how they are printed: JSON Pointer (RFC 6901).
ghost use Rattle.std.specs.Prelude.{◌≡◌, ◌+◌, ◌-◌, ◌*◌, ◌^◌, ◌++◌, length, min, string_bytes, IfOk, OnOk, decimal, count_by, ◌==◌, ◌||◌};
ghost use Rattle.sm_bytes.specs.Ascii.{slash, tilde};
ghost use Rattle.sm_tree.specs.Pointer.{reference_token, step_bytes, pointer};

use crate::NoMemory;
use crate::text::Text;
use std::alloc::Global;
use std::marker::Model;

/// A step from a tree to one of its parts.
#[derive(PartialEq, Eq, Debug, Drop)]
pub enum Step {
    /// To the value of the member with this name, of a structure or union.
    Member(Text),
    /// To the entry with this number, of a list. The first has 0.
    Index(u64),
    /// To the value of this key, of a map.
    Key(Text),
}

/// The steps from a tree's root to one of its parts, in order. Contracts see the list of steps.
#[derive(Debug, Drop)]
pub struct Path {
    steps: Vec<Step>,
}

impl Model for Path {
    ghost use Rattle.std.specs.Prelude.{List};
    ghost use Rattle.sm_tree.specs.declared.path.Step.{Step};

    ghost Value = { List Step };

    ghost view = { λ a. a.steps.items };
}

impl PartialEq for Path {
    ghost use Rattle.std.specs.Cmp.Lexicographic.{pointwise};
    ghost use Rattle.std.specs.Cmp.{partial_equiv_from_equiv};
    ghost use Rattle.std.proofs.lemmas.Cmp.{lists_equiv};
    ghost use Rattle.sm_tree.specs.contracts.path.StepEq.TheImpl.Laws.{laws-law};

    ghost eq = { pointwise ⟦<Step as PartialEq>⟧.eq };

    ghost laws = { partial_equiv_from_equiv (lists_equiv laws-law) };

    fn eq(&self, other: &Self) -> bool {
        self.steps.as_slice() == other.steps.as_slice()
    }
}

impl Eq for Path {
    ghost use Rattle.std.proofs.lemmas.Cmp.{lists_equiv};
    ghost use Rattle.sm_tree.specs.contracts.path.StepEq.TheImpl.Laws.{laws-law};

    ghost laws = { lists_equiv laws-law };
}

impl Path {
    /// The path of the steps that a vector holds. No memory.
    pub fn new(steps: Vec<Step>) -> Self
        ensures { result ≡ steps.items }
    {
        Path { steps }
    }

    /// The vector, which keeps its memory.
    pub fn into_inner(self) -> Vec<Step>
        ensures { result.items ≡ self }
    {
        self.steps
    }

    /// The steps, in order. No memory.
    pub fn as_slice(&self) -> &[Step]
        ensures { result.now ≡ self.now }
    {
        self.steps.as_slice()
    }

    /// The JSON Pointer of the part (RFC 6901): each step is `/` and its token, in which `~` stands as `~0`
    /// and `/` as `~1`; an index is decimal. The root is the empty text.
    pub fn print(&self, alloc: Global) -> Result<String, NoMemory>
        ensures { IfOk result (λ text. string_bytes text ≡ pointer self.now) }
    {
        let mut out = String::with_capacity(alloc, self.printed_len())?;
        for step in self.as_slice() {
            step.write_to(&mut out)?;
        }
        Ok(out)
    }

    // How many bytes `print` gives, at most the greatest number of 64 bits.
    fn printed_len(&self) -> usize
        ensures { result ≡ min (length (pointer self.now)) (2 ^ 64 - 1) }
    {
        let mut total: usize = 0;
        for step in self.as_slice() {
            total = total.saturating_add(step.printed_len());
        }
        total
    }
}

impl Step {
    // Appends the step as it stands in a pointer.
    fn write_to(&self, out: &mut String) -> Result<(), NoMemory>
        ensures { OnOk result (string_bytes out.new ≡ string_bytes out.old ++ step_bytes self.now) }
    {
        out.push('/')?;
        match self {
            Step::Member(name) => write_token(name.as_str(), out),
            Step::Index(index) => write_decimal(*index, out),
            Step::Key(key) => write_token(key.as_str(), out),
        }
    }

    // How many bytes `write_to` appends, at most the greatest number of 64 bits.
    fn printed_len(&self) -> usize
        ensures { result ≡ min (length (step_bytes self.now)) (2 ^ 64 - 1) }
    {
        let token = match self {
            Step::Member(name) => token_len(name.as_str()),
            Step::Index(index) => decimal_len(*index),
            Step::Key(key) => token_len(key.as_str()),
        };
        token.saturating_add(1)
    }
}

// Appends a name as a token, with its escapes.
fn write_token(name: &str, out: &mut String) -> Result<(), NoMemory>
    ensures { OnOk result (string_bytes out.new ≡ string_bytes out.old ++ reference_token name.now) }
{
    for letter in name.chars() {
        match letter {
            '~' => out.push_str("~0")?,
            '/' => out.push_str("~1")?,
            _ => out.push(letter)?,
        }
    }
    Ok(())
}

// Appends a number in decimal.
fn write_decimal(number: u64, out: &mut String) -> Result<(), NoMemory>
    ensures { OnOk result (string_bytes out.new ≡ string_bytes out.old ++ decimal number) }
{
    write!(out, "{number}")?;
    Ok(())
}

// How many bytes a name's token has, at most the greatest number of 64 bits: each escape has one byte more.
fn token_len(name: &str) -> usize
    ensures { result ≡ min (length (reference_token name.now)) (2 ^ 64 - 1) }
{
    name.len().saturating_add(escapes(name))
}

// How many bytes of a name are escaped in a token.
fn escapes(name: &str) -> usize
    ensures { result ≡ count_by (λ byte. (byte == tilde) || (byte == slash)) name.now }
{
    name.as_bytes()
        .iter()
        .filter(|byte| **byte == b'~' || **byte == b'/')
        .count()
}

// How many digits a number has in decimal.
fn decimal_len(number: u64) -> usize
    ensures { result ≡ length (decimal number) }
{
    let mut rest = number;
    let mut digits: usize = 1;
    while rest >= 10 {
        rest /= 10;
        digits += 1;
    }
    digits
}
