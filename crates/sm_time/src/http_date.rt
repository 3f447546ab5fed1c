// The format http-date (IMF-fixdate of RFC 9110, section 5.6.7), read and written.
ghost use Rattle.sm_time.specs.declared.format.Format.TheVariants.{HttpDate};
ghost use Rattle.sm_time.specs.Answers.{ReadsStamp, WritesStamp};

use crate::{Stamp, TimeRefusal};
use sm_bytes::place_slice;

/// The stamp of an http-date, as `Stamp::read` says.
pub fn read(text: &[u8]) -> Result<Stamp, TimeRefusal>
    ensures { ReadsStamp HttpDate text.now result }
{
    let Ok(date) = httpdate::HttpDate::parse_ascii(text) else {
        return Err(TimeRefusal::BadText);
    };
    // `httpdate` reads the two obsolete forms too.
    if date.to_bytes().as_slice() != text {
        return Err(TimeRefusal::BadText);
    }
    match Stamp::new(date.unix_secs() as i64 * 1000) {
        Some(stamp) => Ok(stamp),
        None => Err(TimeRefusal::OutOfRange),
    }
}

/// Writes a stamp as an http-date, as `Stamp::write_into` says.
pub fn write(stamp: Stamp, out: &mut [u8; 32]) -> Result<usize, TimeRefusal>
    ensures { WritesStamp HttpDate stamp out.old out.new result }
{
    let milliseconds = stamp.milliseconds();
    if milliseconds < 0 {
        return Err(TimeRefusal::OutOfFormat);
    }
    let elapsed = milliseconds as u64;
    if elapsed % 1000 != 0 {
        return Err(TimeRefusal::OutOfFormat);
    }
    let Ok(date) = httpdate::HttpDate::from_unix_secs(elapsed / 1000) else {
        return Err(TimeRefusal::OutOfFormat);
    };
    Ok(place_slice(out, 0, &date.to_bytes()))
}
