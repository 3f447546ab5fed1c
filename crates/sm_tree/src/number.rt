// Numbers (RFC 8259, section 6): how far the text of one has come, the longest run of bytes that goes on with it, and the
// tree of a whole one.
ghost use Rattle.std.specs.Prelude.{◌≡◌, [], ◌↔◌, IsTrue, IfOk, length, take, slice_index, ◌≤◌, ◌<◌};
ghost use Rattle.sm_tree.specs.Numbers.{IsNumber, IsDigit, AreDigits, NumberText};
ghost use Rattle.sm_tree.specs.View.{node_of};
ghost use Rattle.sm_tree.specs.NumberTail.{NumberTail, NumberLeads, NumberStops, IsNextPhase, AreNumberBytes};
ghost use Rattle.sm_tree.specs.steps.NumberBytes.{TakesDigits};

use crate::{NoMemory, Text, Tree};
use sm_bytes::{ByteClass, run_len};
use std::alloc::Global;
use std::str;

/// How far the text of a number has come.
#[derive(Debug, Clone, Copy, PartialEq, Eq, Drop)]
pub enum Phase {
    /// Nothing of it has been read.
    Start,
    /// `-` has been read.
    Minus,
    /// The whole part is `0`.
    Zero,
    /// The whole part has begun with another digit.
    Whole,
    /// The decimal point has been read, and no digit behind it.
    Point,
    /// Digits behind the point have been read.
    Fraction,
    /// `e` or `E` has been read, and nothing behind it.
    Exponent,
    /// The exponent's sign has been read, and no digit behind it.
    ExponentSign,
    /// Digits of the exponent have been read.
    ExponentDigits,
}

impl Phase {
    /// The phase after one more byte, or `None` where no number goes on with it.
    #[inline(always)]
    #[tactic(auto, using(crate::proofs::NumberSteps::leads_next, crate::proofs::NumberSteps::next_byte, crate::proofs::NumberSteps::stops_next))]
    pub fn next(self, byte: u8) -> Option<Phase>
        ensures { IsNextPhase self byte result }
    {
        match (self, byte) {
            (Phase::Start, b'-') => Some(Phase::Minus),
            (Phase::Start | Phase::Minus, b'0') => Some(Phase::Zero),
            (Phase::Start | Phase::Minus, b'1'..=b'9') => Some(Phase::Whole),
            (Phase::Whole, b'0'..=b'9') => Some(Phase::Whole),
            (Phase::Zero | Phase::Whole, b'.') => Some(Phase::Point),
            (Phase::Point | Phase::Fraction, b'0'..=b'9') => Some(Phase::Fraction),
            (Phase::Zero | Phase::Whole | Phase::Fraction, b'e' | b'E') => Some(Phase::Exponent),
            (Phase::Exponent, b'+' | b'-') => Some(Phase::ExponentSign),
            (Phase::Exponent | Phase::ExponentSign | Phase::ExponentDigits, b'0'..=b'9') => {
                Some(Phase::ExponentDigits)
            }
            _ => None,
        }
    }

    /// Whether the number may end here.
    pub fn is_whole(self) -> bool
        ensures { IsTrue result ↔ NumberTail self [] }
    {
        matches!(
            self,
            Phase::Zero | Phase::Whole | Phase::Fraction | Phase::ExponentDigits
        )
    }
}

/// The first bytes of a text, which go on with a number.
#[derive(Debug, Clone, Copy, PartialEq, Eq, Drop)]
pub struct Run {
    /// How many bytes they are.
    pub count: usize,
    /// How far the number has come behind them.
    pub phase: Phase,
}

// The digits, as a class of bytes.
struct Digits;

impl ByteClass for Digits {
    ghost use Rattle.sm_tree.specs.steps.NumberBytes.{is_digit};

    ghost holds = { is_digit };

    fn has(byte: u8) -> bool {
        byte.is_ascii_digit()
    }
}

// How many of the first bytes are digits that leave a number in its phase.
#[tactic(auto, using(crate::proofs::NumberSteps::whole_stays, crate::proofs::NumberSteps::fraction_stays, crate::proofs::NumberSteps::exponent_stays, crate::proofs::NumberRuns::leads_nowhere, crate::proofs::DigitRuns::run_digits, crate::proofs::DigitRuns::run_ends))]
fn more_digits(phase: Phase, bytes: &[u8]) -> usize
    ensures within { result ≤ length bytes.now }
    ensures stays { NumberLeads phase (take result bytes.now) phase }
    ensures digits { AreDigits (take result bytes.now) }
    ensures all { TakesDigits phase → result < length bytes.now → IsDigit (slice_index bytes.now result) → ⊥ }
{
    match phase {
        Phase::Whole | Phase::Fraction | Phase::ExponentDigits => run_len::<Digits>(bytes),
        _ => 0,
    }
}

/// The longest run of bytes that goes on with a number which has come as far as `phase`.
#[tactic(auto, using(crate::proofs::NumberRuns::leads_nowhere))]
pub fn number_run(phase: Phase, bytes: &[u8]) -> Run
    ensures within { result.count ≤ length bytes.now }
    ensures taken { NumberLeads phase (take result.count bytes.now) result.phase }
    ensures bytes { AreNumberBytes (take result.count bytes.now) }
    ensures longest { result.count < length bytes.now → NumberStops result.phase (slice_index bytes.now result.count) }
{
    let mut run = Run { count: 0, phase };
    while run.count < bytes.len() {
        match run.phase.next(bytes[run.count]) {
            Some(next) => {
                let count = run.count + 1;
                run = Run {
                    count: count + more_digits(next, &bytes[count..]),
                    phase: next,
                };
            }
            None => return run,
        }
    }
    run
}

// The text of a number. Its bytes are ASCII.
#[tactic(auto, using(crate::proofs::Numbers::number_bytes_utf8))]
fn number_text(number: &[u8]) -> &str
    requires { AreNumberBytes number.now }
    ensures { result.now ≡ number.now }
{
    match str::from_utf8(number) {
        Ok(text) => text,
        Err(_) => unreachable!(),
    }
}

/// The tree that the text of a number stands for: an integer that an `i64` holds, else a copy of the text.
#[tactic(auto, using(crate::proofs::Numbers::number_bytes))]
#[inline(always)]
pub fn number_tree(alloc: Global, number: &[u8]) -> Result<Tree, NoMemory>
    requires { IsNumber number.now }
    ensures { IfOk result (λ tree. NumberText (node_of tree) number.now) }
{
    match fast_float::parse_i64(number) {
        Ok(value) => Ok(Tree::Int(value)),
        Err(_) => {
            let text = Text::copy(alloc, number_text(number))?;
            Ok(Tree::Number(text))
        }
    }
}
