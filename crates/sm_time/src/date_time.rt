// The format date-time (RFC 3339, section 5.6), read and written.
ghost use Rattle.std.specs.Prelude.{◌≡◌, ◌<◌, ◌≤◌, ◌+◌, ◌++◌, take, drop, length, pos, ◌+ℤ◌, ◌-ℤ◌, IfSome, MatchOption};
ghost use Rattle.std.specs.Str.Parse.{AllDigits};
ghost use Rattle.sm_time.specs.declared.format.Format.TheVariants.{DateTime};
ghost use Rattle.sm_time.specs.TimeText.{Form, Shows, fraction_text, from_1970};
ghost use Rattle.sm_time.specs.Answers.{ReadsStamp};
ghost use Rattle.sm_time.specs.steps.Parts.{ShowsClock, IsOffset};
ghost use Rattle.sm_time.specs.Written.{written_stamp, fixed_digits};

use crate::civil::{Civil, clock_seconds};
use crate::digits::{put_fraction, split_fraction, three_digits_of, whole_millis};
use crate::stamp::FIRST;
use crate::zone::zone_offset;
use crate::{Stamp, TimeRefusal};
use sm_bytes::{place_byte, place_slice};

/// What the text of a date-time shows.
#[derive(Drop)]
struct Shown<'a> {
    /// The seconds from 0000-01-01T00:00:00 to what the clock shows.
    seconds: u64,
    /// The digits of the fraction.
    digits: &'a [u8],
    /// The milliseconds by which the clock is ahead of UTC.
    offset: i64,
}

fn take_apart(text: &[u8]) -> Option<Shown<'_>>
    ensures form { MatchOption result ((form : Form) → ¬ (Shows DateTime text.now form))
        (λ s. ShowsClock text.now s.seconds s.digits.now s.offset) }
    ensures digits { IfSome result (λ s. AllDigits 10 s.digits.now) }
    ensures seconds { IfSome result (λ s. s.seconds < 315_569_520_000) }
    ensures offset { IfSome result (λ s. IsOffset s.offset) }
{
    let (clock, rest) = text.split_first_chunk::<19>()?;
    let seconds = clock_seconds(clock)?;
    let (digits, zone) = split_fraction(rest);
    let offset = zone_offset(zone)?;
    Some(Shown {
        seconds,
        digits,
        offset,
    })
}

/// The stamp of a date-time, as `Stamp::read` says.
pub fn read(text: &[u8]) -> Result<Stamp, TimeRefusal>
    ensures { ReadsStamp DateTime text.now result }
{
    let Some(shown) = take_apart(text) else {
        return Err(TimeRefusal::BadText);
    };
    let Some(millis) = whole_millis(shown.digits) else {
        return Err(TimeRefusal::TooFine);
    };
    match Stamp::new(moment_of(shown.seconds, millis, shown.offset)) {
        Some(stamp) => Ok(stamp),
        None => Err(TimeRefusal::OutOfRange),
    }
}

// The milliseconds from 1970 of what a clock shows that is so many milliseconds ahead of UTC.
fn moment_of(seconds: u64, millis: u16, offset: i64) -> i64
    requires seconds { seconds < 315_569_520_000 }
    requires millis { millis < 1000 }
    requires offset { IsOffset offset }
    ensures { result ≡ from_1970 seconds +ℤ pos millis -ℤ offset }
{
    seconds as i64 * 1000 + millis as i64 + FIRST - offset
}

/// Writes a stamp as a date-time to the start of `out`, and gives its length.
pub fn write(stamp: Stamp, out: &mut [u8; 32]) -> usize
    ensures count { result ≡ length (written_stamp DateTime stamp) }
    ensures text { take result out.new ≡ written_stamp DateTime stamp }
    ensures after { drop result out.new ≡ drop result out.old }
{
    let since = (stamp.milliseconds() - FIRST) as u64;
    let at = place_slice(out, 0, &Civil::at(since / 1000).text(b'T'));
    let at = put_millis(out, at, (since % 1000) as u16);
    place_byte(out, at, b'Z')
}

// Puts milliseconds as a fraction of three digits, or nothing where they are 0.
fn put_millis(out: &mut [u8], at: usize, millis: u16) -> usize
    requires small { millis < 1000 }
    requires room { at + 4 ≤ length out.old }
    ensures next { result ≡ at + length (fraction_text (fixed_digits millis)) }
    ensures bound { result ≤ at + 4 }
    ensures text { take result out.new ≡ take at out.old ++ fraction_text (fixed_digits millis) }
    ensures after { drop result out.new ≡ drop result out.old }
{
    if millis == 0 {
        return at;
    }
    put_fraction(out, at, &three_digits_of(millis))
}
