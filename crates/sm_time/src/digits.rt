// Digits of fractions, read and put into a buffer.
ghost use Rattle.std.specs.Prelude.{◌≡◌, ◌+◌, ◌<◌, ◌≤◌, ◌++◌, length, take, drop, MatchOption, IsTrue, ◌↔◌};
ghost use Rattle.std.specs.Char.{digit_value, is_ascii_digit};
ghost use Rattle.std.specs.Str.Parse.{AllDigits};
ghost use Rattle.sm_time.specs.TimeText.{IsWholeMillis, thousandths, fraction_text};
ghost use Rattle.sm_time.specs.Written.{three_digits};
ghost use Rattle.sm_time.specs.steps.Parts.{NoDigitFirst, SplitsFraction};

use sm_bytes::{ByteClass, place_byte, place_slice, run_len};

struct Digits;

impl ByteClass for Digits {
    ghost holds = { is_ascii_digit };

    fn has(byte: u8) -> bool {
        byte.is_ascii_digit()
    }
}

/// How many digits stand first.
pub fn digit_run(text: &[u8]) -> usize
    ensures within { result ≤ length text.now }
    ensures digits { AllDigits 10 (take result text.now) }
    ensures longest { NoDigitFirst (drop result text.now) }
{
    run_len::<Digits>(text)
}

/// The digits of the fraction that stands first, none where there is no fraction, and what comes after it.
pub fn split_fraction(text: &[u8]) -> (&[u8], &[u8])
    ensures { SplitsFraction text.now result.0.now result.1.now }
{
    let Some((first, rest)) = text.split_first() else {
        return (text, text);
    };
    if *first != b'.' {
        return text.split_at(0);
    }
    let count = digit_run(rest);
    if count == 0 {
        return text.split_at(0);
    }
    rest.split_at(count)
}

/// The whole milliseconds of a fraction, or `None` where it is finer.
pub fn whole_millis(digits: &[u8]) -> Option<u16>
    requires { AllDigits 10 digits.now }
    ensures { MatchOption result (¬ (IsWholeMillis digits.now))
        (λ ms. IsWholeMillis digits.now × (ms ≡ thousandths digits.now) × (ms < 1000)) }
{
    if !is_whole(digits) {
        return None;
    }
    Some(first_three(digits))
}

fn is_whole(digits: &[u8]) -> bool
    ensures { IsTrue result ↔ IsWholeMillis digits.now }
{
    match digits {
        [_, _, _, rest @ ..] => rest.iter().all(|digit| *digit == b'0'),
        _ => true,
    }
}

// The first three digits, with zeros where there are fewer.
fn first_three(digits: &[u8]) -> u16
    requires { AllDigits 10 digits.now }
    ensures value { result ≡ thousandths digits.now }
    ensures bound { result < 1000 }
{
    match digits {
        [] => 0,
        [a] => value_of(*a) * 100,
        [a, b] => value_of(*a) * 100 + value_of(*b) * 10,
        [a, b, c, ..] => value_of(*a) * 100 + value_of(*b) * 10 + value_of(*c),
    }
}

/// The value of a digit.
pub fn value_of(digit: u8) -> u16
    requires { digit_value digit < 10 }
    ensures value { result ≡ digit_value digit }
    ensures bound { result < 10 }
{
    (digit - b'0') as u16
}

/// Three digits of a number below 1000.
pub fn three_digits_of(number: u16) -> [u8; 3]
    requires { number < 1000 }
    ensures { result ≡ three_digits number }
{
    [
        b'0' + (number / 100) as u8,
        b'0' + (number / 10 % 10) as u8,
        b'0' + (number % 10) as u8,
    ]
}

/// Puts a fraction of these digits into a buffer: nothing where there are none.
pub fn put_fraction(out: &mut [u8], at: usize, digits: &[u8]) -> usize
    requires { at + length (fraction_text digits.now) ≤ length out.old }
    ensures next { result ≡ at + length (fraction_text digits.now) }
    ensures text { take result out.new ≡ take at out.old ++ fraction_text digits.now }
    ensures after { drop result out.new ≡ drop result out.old }
{
    if digits.is_empty() {
        return at;
    }
    let at = place_byte(out, at, b'.');
    place_slice(out, at, digits)
}
