// The reader of one string (RFC 8259, section 7) behind its opening quotation mark, from bytes that may come
// in pieces.
ghost use Rattle.std.specs.Prelude.{◌≡◌, IfOk, IsUtf8};
ghost use Rattle.sm_json.specs.steps.TextSteps.{IsLive, IsPartLive, PartSteps, StringSteps};
ghost use Rattle.sm_json.specs.steps.Live.{IsLive-prop};

use crate::escape::{escaped, low_backslash, low_digit, low_letter, unit_digit};
use crate::spot::{CharacterPart, Spot, SpotStep};
use crate::utf8::{fourth_byte, plain_byte, plain_len, second_byte, third_byte};
use sm_tree::{NoMemory, Text};
use std::alloc::Global;
use std::str::from_utf8_unchecked;

/// How far a string has come with the bytes that were given.
#[derive(Clone, Copy, PartialEq, Eq, Debug, Drop)]
pub enum TextReading {
    /// It has closed: this many bytes, from 1, belong to it, its closing quotation mark included.
    Closed(usize),
    /// It goes on behind the bytes.
    Open,
}

/// Why a string can't be read on.
#[derive(Clone, Copy, PartialEq, Eq, Debug, Drop)]
pub enum TextRefusal {
    /// The bytes before this place go on as a string does, and with the byte at it none goes on. Places
    /// count from 0 in the bytes of one call.
    Bad(usize),
    /// The allocator refused the memory that reading needs.
    NoMemory,
}

impl From<NoMemory> for TextRefusal {
    ghost use Rattle.std.specs.Prelude.{◌≡◌};
    ghost use Rattle.sm_json.specs.declared.text.TextRefusal.TheVariants.{NoMemory as no_memory};

    ghost from_gives = { λ _ refusal. refusal ≡ no_memory };

    fn from(_refusal: NoMemory) -> Self {
        TextRefusal::NoMemory
    }
}

/// What one byte has made of a string.
#[derive(Clone, Copy)]
enum TextTaken {
    Open,
    Closed,
    Refused,
}

/// Reads one string after another, each from behind its opening quotation mark. Its memory is kept from
/// string to string.
#[derive(Drop)]
pub struct TextReader {
    /// The characters of the string so far.
    text: String,
    spot: Spot,
    ghost live: { IsLive spot } by { IsLive-prop spot },
}

/// What a byte makes of a place within a character.
fn part_step(part: CharacterPart, byte: u8) -> SpotStep
    requires { IsPartLive part }
    ensures { PartSteps part byte result }
{
    match part {
        CharacterPart::Escape => escaped(byte),
        CharacterPart::Unit(digits) => unit_digit(digits, byte),
        CharacterPart::LowBackslash(high) => low_backslash(high, byte),
        CharacterPart::LowLetter(high) => low_letter(high, byte),
        CharacterPart::LowUnit(high, digits) => low_digit(high, digits, byte),
        CharacterPart::One(x) => second_byte(x, byte),
        CharacterPart::Two(x, y) => third_byte(x, y, byte),
        CharacterPart::Three(x, y, z) => fourth_byte(x, y, z, byte),
    }
}

/// What a byte makes of a place within a string.
fn step(spot: Spot, byte: u8) -> SpotStep
    requires { IsLive spot }
    ensures { StringSteps spot byte result }
{
    match spot {
        Spot::Plain => plain_byte(byte),
        Spot::Inside(part) => part_step(part, byte),
    }
}

impl TextReader {
    ghost use Rattle.sm_json.specs.steps.StringReading.{string_so_far, IsAtStart, StringTakesRun, StringTakesByte, ReadsString};

    /// A reader at the start of a string. No memory.
    pub fn new(alloc: Global) -> Self
        ensures { IsAtStart result }
    {
        TextReader {
            text: String::new(alloc),
            spot: Spot::Plain,
        }
    }

    /// Forgets what was read, and stands at the start of another string. No memory.
    pub fn start(&mut self)
        ensures { IsAtStart self.new }
    {
        self.text.clear();
        self.spot = Spot::Plain;
    }

    /// Takes the run of characters at the start that stand for themselves, if the spot is between two.
    fn take_run(&mut self, bytes: &[u8]) -> Result<usize, NoMemory>
        ensures { StringTakesRun self.old self.new bytes.now result }
    {
        match self.spot {
            Spot::Inside(_) => Ok(0),
            Spot::Plain => {
                let len = plain_len(bytes);
                let run = unsafe { from_utf8_unchecked(&bytes[..len]) };
                self.text.push_str(run)?;
                Ok(len)
            }
        }
    }

    #[inline(always)]
    fn take_byte(&mut self, byte: u8) -> Result<TextTaken, NoMemory>
        ensures { StringTakesByte self.old self.new byte result }
    {
        match step(self.spot, byte) {
            SpotStep::Within(part) => {
                self.spot = Spot::Inside(part);
                Ok(TextTaken::Open)
            }
            SpotStep::Whole(character) => {
                self.text.push(character)?;
                self.spot = Spot::Plain;
                Ok(TextTaken::Open)
            }
            SpotStep::Closed => {
                self.spot = Spot::Plain;
                Ok(TextTaken::Closed)
            }
            SpotStep::Refused => Ok(TextTaken::Refused),
        }
    }

    /// Reads on with these bytes, up to the closing quotation mark or the end of the bytes. Behind `Closed`
    /// the text is whole; behind `Open` a further call goes on. Behind `NoMemory` nothing is said of the
    /// text until the next `start`.
    ///
    /// # Errors
    ///
    /// `Bad` with the first place whose byte no string goes on with, `NoMemory`.
    #[inline(always)]
    pub fn read(&mut self, bytes: &[u8]) -> Result<TextReading, TextRefusal>
        ensures { ReadsString self.old self.new bytes.now result }
    {
        let mut at = self.take_run(bytes)?;
        while at < bytes.len() {
            match self.take_byte(bytes[at])? {
                TextTaken::Open => {
                    at += 1;
                    let run = self.take_run(&bytes[at..])?;
                    at += run;
                }
                TextTaken::Closed => return Ok(TextReading::Closed(at + 1)),
                TextTaken::Refused => return Err(TextRefusal::Bad(at)),
            }
        }
        Ok(TextReading::Open)
    }

    /// A copy of the text that was read, in memory of exactly its length.
    ///
    /// # Errors
    ///
    /// `NoMemory`.
    pub fn text(&self, alloc: Global) -> Result<Text, NoMemory>
        ensures bytes { IfOk result (λ text. text ≡ string_so_far self.now) }
        ensures utf8 { IfOk result (λ text. IsUtf8 text) }
    {
        Text::copy(alloc, self.text.as_str())
    }
}
