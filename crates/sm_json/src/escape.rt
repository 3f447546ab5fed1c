// Escapes in strings (RFC 8259, section 7), byte by byte: the short ones, code units in hexadecimal digits,
// and pairs of surrogates.
ghost use Rattle.std.specs.Prelude.{◌<◌};
ghost use Rattle.sm_json.specs.declared.spot.UnitDigits.TheVariants.{Second, Third};
ghost use Rattle.sm_json.specs.declared.spot.CharacterPart.TheVariants.{Escape as BehindBackslash, Unit as InUnit, LowBackslash};
ghost use Rattle.sm_json.specs.declared.spot.CharacterPart.TheVariants.{LowLetter, LowUnit};
ghost use Rattle.sm_bytes.specs.Escapes.{IsHigh, IsLow, joined};
ghost use Rattle.sm_json.specs.steps.TextRest.{PartRest};
ghost use Rattle.sm_json.specs.steps.TextSteps.{IsUnitBegun, IsLowBegun, CodeEnd, UnitEnd, StepsTo, PartSteps};

use crate::spot::{CharacterPart, SpotStep, UnitDigits};
use crate::utf8::whole;
use sm_bytes::{hex_value, short_escape};

/// The byte behind a backslash.
pub fn escaped(byte: u8) -> SpotStep
    ensures { PartSteps BehindBackslash byte result }
{
    if let Some(character) = short_escape(byte) {
        return SpotStep::Whole(character);
    }
    if byte == b'u' {
        SpotStep::Within(CharacterPart::Unit(UnitDigits::First))
    } else {
        SpotStep::Refused
    }
}

/// The first two digits of a code unit that stands first. Those that begin a low surrogate are refused.
fn unit_half(half: u16) -> SpotStep
    requires { half < 0x100 }
    ensures { StepsTo (PartRest (InUnit (Third half))) result }
{
    if half >= 0xDC && half < 0xE0 {
        SpotStep::Refused
    } else {
        SpotStep::Within(CharacterPart::Unit(UnitDigits::Third(half)))
    }
}

/// A code unit that stands first: a high surrogate, or a character by itself.
fn whole_unit(unit: u16) -> SpotStep
    ensures { StepsTo (UnitEnd unit) result }
{
    if 0xD800 <= unit && unit < 0xDC00 {
        return SpotStep::Within(CharacterPart::LowBackslash(unit));
    }
    match char::from_u32(u32::from(unit)) {
        Some(character) => SpotStep::Whole(character),
        None => SpotStep::Refused,
    }
}

/// A byte within the digits of a code unit that stands first.
pub fn unit_digit(digits: UnitDigits, byte: u8) -> SpotStep
    requires { IsUnitBegun digits }
    ensures { PartSteps (InUnit digits) byte result }
{
    let Some(digit) = hex_value(byte) else {
        return SpotStep::Refused;
    };
    match digits {
        UnitDigits::First => SpotStep::Within(CharacterPart::Unit(UnitDigits::Second(digit))),
        UnitDigits::Second(n) => unit_half(n * 16 + digit),
        UnitDigits::Third(n) => SpotStep::Within(CharacterPart::Unit(UnitDigits::Fourth(
            n * 16 + digit,
        ))),
        UnitDigits::Fourth(n) => whole_unit(n * 16 + digit),
    }
}

/// The byte behind a high surrogate's escape.
pub fn low_backslash(high: u16, byte: u8) -> SpotStep
    requires { IsHigh high }
    ensures { PartSteps (LowBackslash high) byte result }
{
    if byte == b'\\' {
        SpotStep::Within(CharacterPart::LowLetter(high))
    } else {
        SpotStep::Refused
    }
}

/// The byte behind a high surrogate's escape and a backslash.
pub fn low_letter(high: u16, byte: u8) -> SpotStep
    requires { IsHigh high }
    ensures { PartSteps (LowLetter high) byte result }
{
    if byte == b'u' {
        SpotStep::Within(CharacterPart::LowUnit(high, UnitDigits::First))
    } else {
        SpotStep::Refused
    }
}

/// The first digit of a low surrogate.
fn low_first(high: u16, digit: u16) -> SpotStep
    requires { IsHigh high }
    ensures { StepsTo (PartRest (LowUnit high (Second digit))) result }
{
    if digit == 0xD {
        SpotStep::Within(CharacterPart::LowUnit(high, UnitDigits::Second(digit)))
    } else {
        SpotStep::Refused
    }
}

/// The first two digits of a low surrogate.
fn low_half(high: u16, half: u16) -> SpotStep
    requires { IsHigh high }
    ensures { StepsTo (PartRest (LowUnit high (Third half))) result }
{
    if 0xDC <= half && half < 0xE0 {
        SpotStep::Within(CharacterPart::LowUnit(high, UnitDigits::Third(half)))
    } else {
        SpotStep::Refused
    }
}

/// The character that a pair of surrogates stands for.
fn whole_pair(high: u16, low: u16) -> SpotStep
    requires high { IsHigh high }
    requires low { IsLow low }
    ensures { StepsTo (CodeEnd (joined high low)) result }
{
    whole(0x10000 + (u32::from(high - 0xD800) * 0x400 + u32::from(low - 0xDC00)))
}

/// A byte within the digits of a low surrogate.
pub fn low_digit(high: u16, digits: UnitDigits, byte: u8) -> SpotStep
    requires high { IsHigh high }
    requires begun { IsLowBegun digits }
    ensures { PartSteps (LowUnit high digits) byte result }
{
    let Some(digit) = hex_value(byte) else {
        return SpotStep::Refused;
    };
    match digits {
        UnitDigits::First => low_first(high, digit),
        UnitDigits::Second(n) => low_half(high, n * 16 + digit),
        UnitDigits::Third(n) => SpotStep::Within(CharacterPart::LowUnit(
            high,
            UnitDigits::Fourth(n * 16 + digit),
        )),
        UnitDigits::Fourth(n) => whole_pair(high, n * 16 + digit),
    }
}
