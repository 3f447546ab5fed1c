// The zone at the end of a date-time (RFC 3339, section 5.6).
ghost use Rattle.std.specs.Prelude.{[], ◌≤◌, IfSome};
ghost use Rattle.sm_time.specs.steps.Parts.{TwoDigits, ClockOffset, ZoneOffset, IsOffset};

/// The milliseconds by which a zone's clock is ahead of UTC, or `None` where the text is no zone.
pub fn zone_offset(text: &[u8]) -> Option<i64>
    ensures value { ZoneOffset text.now result }
    ensures bounds { IfSome result IsOffset }
{
    match text {
        b"Z" | b"z" => Some(0),
        [b'+', h1, h2, b':', m1, m2] => match clock_offset([*h1, *h2], [*m1, *m2]) {
            Some(offset) => Some(offset as i64),
            None => None,
        },
        [b'-', h1, h2, b':', m1, m2] => match clock_offset([*h1, *h2], [*m1, *m2]) {
            Some(offset) => Some(-(offset as i64)),
            None => None,
        },
        _ => None,
    }
}

// The milliseconds of hours and minutes, by their digits.
fn clock_offset(hours: [u8; 2], minutes: [u8; 2]) -> Option<u32>
    ensures value { ClockOffset hours minutes result }
    ensures bound { IfSome result (λ ms. ms ≤ 86_340_000) }
{
    let hours = two_digits(hours[0], hours[1])?;
    let minutes = two_digits(minutes[0], minutes[1])?;
    if hours > 23 || minutes > 59 {
        return None;
    }
    Some((hours as u32 * 60 + minutes as u32) * 60_000)
}

// The number that two digits show.
fn two_digits(tens: u8, ones: u8) -> Option<u8>
    ensures { TwoDigits tens ones result }
{
    if !tens.is_ascii_digit() || !ones.is_ascii_digit() {
        return None;
    }
    Some((tens - b'0') * 10 + (ones - b'0'))
}
