// The format epoch-seconds (a number of RFC 8259, section 6, without an exponent), read and written.
ghost use Rattle.std.specs.Prelude.{◌≡◌, ◌≢◌, ℕ, ◌^◌, ◌-◌, ◌/◌, ◌%◌, ◌<◌, ◌++◌, [], min, take, drop, length, slice_index, false, IsTrue};
ghost use Rattle.std.specs.Prelude.{◌↔◌, ◌+◌, ◌≤◌, pos, neg_ℤ, MatchOption, if◌then◌else◌, codes};
ghost use Rattle.std.specs.Str.Parse.{AllDigits, digits_value};
ghost use Rattle.sm_time.specs.declared.format.Format.TheVariants.{EpochSeconds};
ghost use Rattle.sm_time.specs.TimeText.{Form, seconds_form, Shows, IsIntDigits, fraction_text};
ghost use Rattle.sm_time.specs.Answers.{ReadsStamp};
ghost use Rattle.sm_time.specs.Written.{written_stamp, three_digits, short_digits};

use crate::digits::{
    digit_run, put_fraction, split_fraction, three_digits_of, value_of, whole_millis,
};
use crate::{Stamp, TimeRefusal};
use itoa::Buffer;
use sm_bytes::{place_byte, place_slice};

/// More seconds than lie between 1970 and any stamp.
const FAR: u64 = 1_000_000_000_000;

/// What the text of a number shows.
#[derive(Drop)]
struct Shown<'a> {
    /// Whether a minus stands first.
    negative: bool,
    /// The digits before the point.
    int: &'a [u8],
    /// The digits after it.
    digits: &'a [u8],
}

fn take_apart(text: &[u8]) -> Option<Shown<'_>>
    ensures { MatchOption result ((form : Form) → ¬ (Shows EpochSeconds text.now form))
        (λ s. Shows EpochSeconds text.now (seconds_form s.negative s.int.now s.digits.now)) }
{
    let (negative, rest) = split_minus(text);
    let (int, rest) = rest.split_at(digit_run(rest));
    if !is_int(int) {
        return None;
    }
    let (digits, rest) = split_fraction(rest);
    if !rest.is_empty() {
        return None;
    }
    Some(Shown {
        negative,
        int,
        digits,
    })
}

// Whether a minus stands first, and what comes after it.
fn split_minus(text: &[u8]) -> (bool, &[u8])
    ensures parts { text.now ≡ (if result.0 then codes "-" else []) ++ result.1.now }
    ensures only { result.0 ≡ false → slice_index result.1.now 0 ≢ 45 }
{
    match text {
        [b'-', rest @ ..] => (true, rest),
        _ => (false, text),
    }
}

// Whether digits are those of a number: there are some, and a first 0 stands alone.
fn is_int(digits: &[u8]) -> bool
    requires { AllDigits 10 digits.now }
    ensures { IsTrue result ↔ IsIntDigits digits.now }
{
    match digits {
        [] | [b'0', _, ..] => false,
        _ => true,
    }
}

// The number that the digits show, or the greatest word where 64 bits don't hold it.
fn seconds_of(digits: &[u8]) -> u64
    requires { AllDigits 10 digits.now }
    ensures { result ≡ min (digits_value 10 digits.now) (2 ^ 64 - 1) }
{
    let mut value: u64 = 0;
    for digit in digits {
        value = value
            .saturating_mul(10)
            .saturating_add(value_of(*digit) as u64);
    }
    value
}

/// The stamp of a number of seconds, as `Stamp::read` says.
pub fn read(text: &[u8]) -> Result<Stamp, TimeRefusal>
    ensures { ReadsStamp EpochSeconds text.now result }
{
    let Some(shown) = take_apart(text) else {
        return Err(TimeRefusal::BadText);
    };
    let Some(millis) = whole_millis(shown.digits) else {
        return Err(TimeRefusal::TooFine);
    };
    let seconds = seconds_of(shown.int).min(FAR);
    match Stamp::new(signed(shown.negative, seconds * 1000 + millis as u64)) {
        Some(stamp) => Ok(stamp),
        None => Err(TimeRefusal::OutOfRange),
    }
}

fn signed(negative: bool, magnitude: u64) -> i64
    requires { magnitude < 2 ^ 63 }
    ensures { result ≡ (if negative then neg_ℤ (pos magnitude) else pos magnitude) }
{
    if negative {
        -(magnitude as i64)
    } else {
        magnitude as i64
    }
}

/// Writes a stamp as seconds to the start of `out`, and gives the text's length.
pub fn write(stamp: Stamp, out: &mut [u8; 32]) -> usize
    ensures count { result ≡ length (written_stamp EpochSeconds stamp) }
    ensures text { take result out.new ≡ written_stamp EpochSeconds stamp }
    ensures after { drop result out.new ≡ drop result out.old }
{
    let milliseconds = stamp.milliseconds();
    let magnitude = milliseconds.unsigned_abs();
    let at = put_sign(out, milliseconds < 0);
    let mut buffer = Buffer::new();
    let at = place_slice(out, at, buffer.format(magnitude / 1000).as_bytes());
    put_millis(out, at, (magnitude % 1000) as u16)
}

// Puts milliseconds as a fraction without trailing zeros, or nothing where they are 0.
fn put_millis(out: &mut [u8], at: usize, millis: u16) -> usize
    requires small { millis < 1000 }
    requires room { at + 4 ≤ length out.old }
    ensures next { result ≡ at + length (fraction_text (short_digits millis)) }
    ensures bound { result ≤ at + 4 }
    ensures text { take result out.new ≡ take at out.old ++ fraction_text (short_digits millis) }
    ensures after { drop result out.new ≡ drop result out.old }
{
    put_fraction(out, at, without_zeros(&three_digits_of(millis)))
}

// Puts a minus first where one is owed.
fn put_sign(out: &mut [u8], negative: bool) -> usize
    requires { 0 < length out.old }
    ensures next { result ≡ length (if negative then codes "-" else []) }
    ensures text { take result out.new ≡ (if negative then codes "-" else []) }
    ensures after { drop result out.new ≡ drop result out.old }
{
    if negative {
        place_byte(out, 0, b'-')
    } else {
        0
    }
}

// Three digits without trailing zeros.
fn without_zeros(three: &[u8; 3]) -> &[u8]
    ensures { (n : ℕ) → n < 1000 → three.now ≡ three_digits n → result.now ≡ short_digits n }
{
    match three {
        [b'0', b'0', b'0'] => &three[..0],
        [_, b'0', b'0'] => &three[..1],
        [_, _, b'0'] => &three[..2],
        _ => &three[..],
    }
}
