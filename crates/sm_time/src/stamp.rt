// Stamps, and the two calls that turn them into texts and back.
ghost use Rattle.std.specs.Prelude.{◌≡◌, ◌↔◌, IsSome, IfSome};
ghost use Rattle.sm_time.specs.TimeText.{IsStamp};
ghost use Rattle.sm_time.specs.Answers.{ReadsStamp, WritesStamp};

use crate::{Format, TimeRefusal, date_time, epoch_seconds, http_date};
use std::marker::Model;

/// The first millisecond of the year 0000.
pub(crate) const FIRST: i64 = -62_167_219_200_000;

/// The last millisecond of the year 9999.
const LAST: i64 = 253_402_300_799_999;

/// A moment: whole milliseconds from 1970-01-01T00:00:00Z, without leap seconds, from the first of the year
/// 0000 (-62167219200000) to the last of the year 9999 (253402300799999). Contracts see it as that number.
#[derive(Clone, Copy, PartialEq, Eq, PartialOrd, Ord, Debug)]
pub struct Stamp {
    milliseconds: i64,
}

impl Model for Stamp {
    ghost use Rattle.std.specs.Prelude.{ℤ};
    ghost use Rattle.sm_time.specs.TimeText.{IsStamp};

    ghost Value = { ℤ };

    ghost view = { λ s. s.milliseconds };

    ghost invariant = { λ s. IsStamp s.milliseconds };

    ghost inverse = { λ ms. record { milliseconds = ms } };
}

impl Stamp {
    /// The stamp of so many milliseconds from 1970, or `None` where they are out of range.
    pub fn new(milliseconds: i64) -> Option<Stamp>
        ensures in_range { IsSome result ↔ IsStamp milliseconds }
        ensures value { IfSome result (λ stamp. stamp ≡ milliseconds) }
    {
        if milliseconds < FIRST || milliseconds > LAST {
            return None;
        }
        Some(Stamp { milliseconds })
    }

    /// The milliseconds from 1970-01-01T00:00:00Z.
    pub fn milliseconds(self) -> i64
        ensures value { result ≡ self }
        ensures in_range { IsStamp self }
    {
        self.milliseconds
    }

    /// Writes the stamp's text to the start of `out`, and gives its length. The bytes after it stay as they were.
    ///
    /// `date-time` is written in UTC with `T` and `Z`, and with three digits of a fraction where the
    /// milliseconds aren't 0; `epoch-seconds` without trailing zeros. `OutOfFormat` exactly where an
    /// `http-date` would lie before 1970 or isn't whole seconds; then nothing is written.
    pub fn write_into(self, format: Format, out: &mut [u8; 32]) -> Result<usize, TimeRefusal>
        ensures { WritesStamp format self out.old out.new result }
    {
        match format {
            Format::DateTime => Ok(date_time::write(self, out)),
            Format::HttpDate => http_date::write(self, out),
            Format::EpochSeconds => Ok(epoch_seconds::write(self, out)),
        }
    }

    /// The stamp of a text.
    ///
    /// `BadText` exactly where the text is none of the format's texts; else `TooFine` exactly where a digit of
    /// the fraction after the third isn't 0; else `OutOfRange` exactly where the moment is no stamp.
    /// `date-time` is RFC 3339, section 5.6, with hours to 23 and seconds to 59; `http-date` is IMF-fixdate of
    /// RFC 9110, section 5.6.7, from 1970 on; `epoch-seconds` a number of RFC 8259, section 6, without an exponent.
    pub fn read(format: Format, text: &[u8]) -> Result<Stamp, TimeRefusal>
        ensures { ReadsStamp format text.now result }
    {
        match format {
            Format::DateTime => date_time::read(text),
            Format::HttpDate => http_date::read(text),
            Format::EpochSeconds => epoch_seconds::read(text),
        }
    }
}
