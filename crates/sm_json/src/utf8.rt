// Characters in UTF-8 (RFC 3629, section 4): whole ones in a row, and one byte by byte where the bytes at
// hand end within it.
ghost use Rattle.std.specs.Prelude.{◌≡◌, ◌+◌, ◌-◌, ◌*◌, ◌^◌, ◌<◌, ◌≤◌, ◌↔◌, IsTrue, [], ◌∷◌, length, take};
ghost use Rattle.sm_json.specs.declared.spot.CharacterPart.TheVariants.{One, Two, Three};
ghost use Rattle.sm_json.specs.declared.spot.Spot.TheVariants.{Plain};
ghost use Rattle.sm_bytes.specs.Utf8.{IsTail};
ghost use Rattle.sm_json.specs.steps.TextSteps.{CodeEnd, IsPartLive, StepsTo, PartSteps, StringSteps};
ghost use Rattle.sm_json.specs.steps.StringRuns.{IsPlainRun};

use crate::ascii_run::{UnescapedAscii, ascii_run_len};
use crate::spot::{CharacterPart, SpotStep};
use sm_bytes::{ByteClass, is_lead, is_second, is_tail};

/// Whether two bytes may stand behind the first two.
fn are_tails(z: u8, w: u8) -> bool
    ensures { IsTrue result ↔ (IsTail z × IsTail w) }
{
    is_tail(z) && is_tail(w)
}

/// The number whose bits are those of `high` and the six of a tail.
fn with_tail(high: u32, tail: u8) -> u32
    requires high { high < 2 ^ 24 }
    requires tail { IsTail tail }
    ensures { result ≡ high * 64 + (tail - 128) }
{
    high * 64 + u32::from(tail - 0x80)
}

/// The end of a character whose number has become whole: none where it is no scalar value.
pub fn whole(code: u32) -> SpotStep
    ensures { StepsTo (CodeEnd code) result }
{
    match char::from_u32(code) {
        Some(character) => SpotStep::Whole(character),
        None => SpotStep::Refused,
    }
}

/// A byte behind the first one of a character.
pub fn second_byte(x: u8, y: u8) -> SpotStep
    requires { IsPartLive (One x) }
    ensures { PartSteps (One x) y result }
{
    if is_second(x, y) {
        if x >= 0xE0 {
            SpotStep::Within(CharacterPart::Two(x, y))
        } else {
            whole(with_tail(u32::from(x) - 0xC0, y))
        }
    } else {
        SpotStep::Refused
    }
}

/// A byte behind the first two of a character.
pub fn third_byte(x: u8, y: u8, z: u8) -> SpotStep
    requires { IsPartLive (Two x y) }
    ensures { PartSteps (Two x y) z result }
{
    if is_tail(z) {
        if x >= 0xF0 {
            SpotStep::Within(CharacterPart::Three(x, y, z))
        } else {
            let two = with_tail(u32::from(x) - 0xE0, y);
            whole(with_tail(two, z))
        }
    } else {
        SpotStep::Refused
    }
}

/// A byte behind the first three of a character.
pub fn fourth_byte(x: u8, y: u8, z: u8, w: u8) -> SpotStep
    requires { IsPartLive (Three x y z) }
    ensures { PartSteps (Three x y z) w result }
{
    if is_tail(w) {
        let two = with_tail(u32::from(x) - 0xF0, y);
        let three = with_tail(two, z);
        whole(with_tail(three, w))
    } else {
        SpotStep::Refused
    }
}

/// A byte between two characters.
pub fn plain_byte(byte: u8) -> SpotStep
    ensures { StringSteps Plain byte result }
{
    if byte == b'"' {
        return SpotStep::Closed;
    }
    if byte == b'\\' {
        return SpotStep::Within(CharacterPart::Escape);
    }
    if UnescapedAscii::has(byte) {
        return SpotStep::Whole(byte as char);
    }
    if is_lead(byte) {
        return SpotStep::Within(CharacterPart::One(byte));
    }
    SpotStep::Refused
}

/// How many bytes at the start are characters of one byte that stand for themselves.
#[inline(always)]
#[tactic(auto, using(crate::proofs::Runs::ascii_run))]
fn ascii_len(bytes: &[u8]) -> usize
    ensures within { result ≤ length bytes.now }
    ensures run { IsPlainRun (take result bytes.now) }
{
    ascii_run_len(bytes)
}

/// Whether two bytes are a character.
fn is_two(x: u8, y: u8) -> bool
    ensures { IsTrue result → IsPlainRun (x ∷ y ∷ []) }
{
    0xC2 <= x && x < 0xE0 && is_tail(y)
}

/// Whether three bytes are a character.
fn is_three(x: u8, y: u8, z: u8) -> bool
    ensures { IsTrue result → IsPlainRun (x ∷ y ∷ z ∷ []) }
{
    if 0xE0 <= x && x < 0xF0 {
        is_second(x, y) && is_tail(z)
    } else {
        false
    }
}

/// Whether four bytes are a character.
fn is_four(x: u8, y: u8, z: u8, w: u8) -> bool
    ensures { IsTrue result → IsPlainRun (x ∷ y ∷ z ∷ w ∷ []) }
{
    if 0xF0 <= x && x < 0xF5 {
        is_second(x, y) && are_tails(z, w)
    } else {
        false
    }
}

/// How many bytes at the start are a character of more than one: 0 where none is whole there.
fn long_len(bytes: &[u8]) -> usize
    ensures within { result ≤ length bytes.now }
    ensures run { IsPlainRun (take result bytes.now) }
{
    if bytes.len() >= 2 && is_two(bytes[0], bytes[1]) {
        return 2;
    }
    if bytes.len() >= 3 && is_three(bytes[0], bytes[1], bytes[2]) {
        return 3;
    }
    if bytes.len() >= 4 && is_four(bytes[0], bytes[1], bytes[2], bytes[3]) {
        return 4;
    }
    0
}

/// How many bytes at the start are whole characters that stand for themselves. There may be more of them
/// where the bytes at hand end within one, which is no matter: the others are read byte by byte.
pub fn plain_len(bytes: &[u8]) -> usize
    ensures within { result ≤ length bytes.now }
    ensures run { IsPlainRun (take result bytes.now) }
{
    let mut at = ascii_len(bytes);
    while at < bytes.len() && bytes[at] >= 0x80 {
        let long = long_len(&bytes[at..]);
        if long == 0 {
            return at;
        }
        at += long;
        let plain = ascii_len(&bytes[at..]);
        at += plain;
    }
    at
}
