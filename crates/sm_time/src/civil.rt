// A date with a time of day: to and from seconds, and its text.
ghost use Rattle.std.specs.Prelude.{◌≡◌, ◌+◌, ◌/◌, ◌%◌, ℕ, ◌<◌, ◌↔◌, IsTrue, IfSome, MatchOption};
ghost use Rattle.sm_time.specs.Civil.{IsCivil, second_count, civil_of, clock_text};
ghost use Rattle.sm_time.specs.TimeText.{IsLetter};
ghost use Rattle.sm_time.specs.steps.Parts.{ClockSeconds};

use jiff_core::civil::Date;

/// The days from -9999-01-01, the first day of `jiff_core`, to 0000-01-01.
const YEAR_0: u32 = 3_652_059;

/// What a clock shows, whether or not the calendar has it.
#[derive(Clone, Copy, Debug)]
pub struct Civil {
    pub year: u16,
    pub month: u8,
    pub day: u8,
    pub hour: u8,
    pub minute: u8,
    pub second: u8,
}

impl Civil {
    ghost use Rattle.sm_time.specs.declared.civil.Civil.{Civil};

    /// What a clock shows so many seconds after 0000-01-01T00:00:00, up to the end of the year 9999.
    pub fn at(seconds: u64) -> Civil
        requires { seconds < 315_569_520_000 }
        ensures shown { result ≡ civil_of seconds }
        ensures civil { IsCivil result }
    {
        let date = Date::from_days_since_min(YEAR_0 + (seconds / 86400) as u32);
        Civil {
            year: date.year as u16,
            month: date.month,
            day: date.day,
            hour: (seconds % 86400 / 3600) as u8,
            minute: (seconds % 3600 / 60) as u8,
            second: (seconds % 60) as u8,
        }
    }

    /// The seconds from 0000-01-01T00:00:00, where the calendar has the day and the clock the time.
    pub fn seconds(self) -> Option<u64>
        ensures value { MatchOption result (¬ (IsCivil self))
            (λ seconds. IsCivil self × (seconds ≡ second_count self)) }
        ensures bound { IfSome result (λ seconds. seconds < 315_569_520_000) }
    {
        if self.year > 9999 || self.month > 12 || self.day > 31 {
            return None;
        }
        if self.hour > 23 || self.minute > 59 || self.second > 59 {
            return None;
        }
        let Ok(date) = Date::new(self.year as i16, self.month as i8, self.day as i8) else {
            return None;
        };
        let days = (date.days_since_min() - YEAR_0) as u64;
        let minutes = self.hour as u64 * 60 + self.minute as u64;
        Some(days * 86400 + minutes * 60 + self.second as u64)
    }

    /// `2000-02-29T12:00:00`, with the letter that stands between.
    pub fn text(self, letter: u8) -> [u8; 19]
        requires { IsCivil self }
        ensures { result ≡ clock_text letter self }
    {
        let (century, year) = ((self.year / 100) as u8, (self.year % 100) as u8);
        [
            b'0' + century / 10,
            b'0' + century % 10,
            b'0' + year / 10,
            b'0' + year % 10,
            b'-',
            b'0' + self.month / 10,
            b'0' + self.month % 10,
            b'-',
            b'0' + self.day / 10,
            b'0' + self.day % 10,
            letter,
            b'0' + self.hour / 10,
            b'0' + self.hour % 10,
            b':',
            b'0' + self.minute / 10,
            b'0' + self.minute % 10,
            b':',
            b'0' + self.second / 10,
            b'0' + self.second % 10,
        ]
    }

    /// What a text of a clock would show, by its digits alone: any other text gives any clock.
    pub fn supposed(text: &[u8; 19]) -> Civil
        ensures { (letter : ℕ) (c : Civil) → IsCivil c → text.now ≡ clock_text letter c → result ≡ c }
    {
        let (century, year) = (pair(text[0], text[1]), pair(text[2], text[3]));
        Civil {
            year: century as u16 * 100 + year as u16,
            month: pair(text[5], text[6]),
            day: pair(text[8], text[9]),
            hour: pair(text[11], text[12]),
            minute: pair(text[14], text[15]),
            second: pair(text[17], text[18]),
        }
    }
}

// The number that two digits show; any other bytes give any number.
fn pair(tens: u8, ones: u8) -> u8
    ensures { (n : ℕ) → n < 100 → tens ≡ 48 + n / 10 → ones ≡ 48 + n % 10 → result ≡ n }
{
    tens % 16 * 10 + ones % 16
}

/// The seconds from 0000-01-01T00:00:00 to what the text of a clock shows, or `None` where it shows none.
pub fn clock_seconds(text: &[u8; 19]) -> Option<u64>
    ensures value { ClockSeconds text.now result }
    ensures bound { IfSome result (λ seconds. seconds < 315_569_520_000) }
{
    let letter = text[10];
    if !is_letter(letter) {
        return None;
    }
    let civil = Civil::supposed(text);
    let Some(seconds) = civil.seconds() else {
        return None;
    };
    if civil.text(letter) == *text {
        Some(seconds)
    } else {
        None
    }
}

fn is_letter(byte: u8) -> bool
    ensures { IsTrue result ↔ IsLetter byte }
{
    byte == b'T' || byte == b't'
}
