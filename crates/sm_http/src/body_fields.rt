// What a head says of its body, and why a whole head is refused (RFC 9112, section 6).
ghost use Rattle.std.specs.Prelude.{◌≡◌, ◌<◌, ◌≤◌, true, false, codes, IfSome, IsNone};
ghost use Rattle.std.specs.Char.{is_ascii_digit};
ghost use Rattle.std.specs.List.{list_all};
ghost use Rattle.std.specs.Str.Parse.{digits_value};
ghost use Rattle.sm_http.specs.Limits.{message_body_limit};
ghost use Rattle.sm_http.specs.BodyFields.{is_length, is_same_length, agrees, is_other_coding, is_other_length, told_body};
ghost use Rattle.sm_http.specs.BodyFields.{tells_none, is_below_100, is_interim, must_tell, has_no_body};
ghost use Rattle.sm_http.specs.FieldValues.{values_named};
ghost use Rattle.sm_http.specs.steps.Digits.{significant};
ghost use Rattle.sm_http.specs.steps.Judging.{Tells, Judges};

use crate::HttpRefusal;
use crate::fields::{count_named, first_named, folds_to};
use crate::limits::{BODY_LIMIT, MOST_FIELDS};
use crate::message::{BodyLeft, Field, Head, Start};
use sm_bytes::{ByteClass, run_len};

fn are_digits(bytes: &[u8]) -> bool
    ensures { result ≡ list_all is_ascii_digit bytes.now }
{
    bytes.iter().all(|byte| byte.is_ascii_digit())
}

// Whether a length is one digit or more, and nothing else.
fn is_length(value: &[u8]) -> bool
    ensures { result ≡ is_length value.now }
{
    match value {
        [] => false,
        [_, ..] => are_digits(value),
    }
}

// The number that digits write. None where it is past the limit of a body.
fn length_value(value: &[u8]) -> Option<u64>
    requires digits { is_length value.now ≡ true }
    ensures some { IfSome result (λ number. number ≡ digits_value 10 value.now) }
    ensures within { IfSome result (λ number. number ≤ message_body_limit) }
    ensures none { IsNone result → message_body_limit < digits_value 10 value.now }
{
    let mut number: u64 = 0;
    for byte in value {
        number = number * 10 + (*byte - b'0') as u64;
        if number > BODY_LIMIT {
            return None;
        }
    }
    Some(number)
}

// The digit that stands in front of a number without a meaning.
struct Zeros;

impl ByteClass for Zeros {
    ghost use Rattle.sm_http.specs.steps.Digits.{is_zero_digit};

    ghost holds = { is_zero_digit };

    fn has(byte: u8) -> bool {
        byte == b'0'
    }
}

// The digits behind the zeros in front.
fn significant(digits: &[u8]) -> &[u8]
    ensures { result.now ≡ significant digits.now }
{
    &digits[run_len::<Zeros>(digits)..]
}

// Whether two lengths are one number.
fn is_same_length(a: &[u8], b: &[u8]) -> bool
    requires one { is_length a.now ≡ true }
    requires other { is_length b.now ≡ true }
    ensures { result ≡ is_same_length a.now b.now }
{
    significant(a) == significant(b)
}

// Whether a value is a length, and the same number as the first.
fn agrees(first: &[u8], value: &[u8]) -> bool
    requires { is_length first.now ≡ true }
    ensures { result ≡ agrees first.now value.now }
{
    is_length(value) && is_same_length(first, value)
}

// Whether each field with the name agrees with the first length.
fn all_agree(fields: &[Field], name: &[u8], first: &[u8]) -> bool
    requires { is_length first.now ≡ true }
    ensures { result ≡ list_all (agrees first.now) (values_named name.now fields.now) }
{
    for field in fields {
        if folds_to(field.name.as_str().as_bytes(), name)
            && !agrees(first, field.value.as_slice())
        {
            return false;
        }
    }
    true
}

// Whether the coding isn't `chunked` alone, or stands beside a length.
fn has_other_coding(fields: &[Field]) -> bool
    ensures { result ≡ is_other_coding (values_named (codes "transfer-encoding") fields.now)
        (values_named (codes "content-length") fields.now) }
{
    let Some(coding) = first_named(fields, b"transfer-encoding") else {
        return false;
    };
    if count_named(fields, b"transfer-encoding") > 1 {
        return true;
    }
    if count_named(fields, b"content-length") > 0 {
        return true;
    }
    !folds_to(coding, b"chunked")
}

// Whether a length is no number, or two differ.
fn has_other_length(fields: &[Field]) -> bool
    ensures { result ≡ is_other_length (values_named (codes "content-length") fields.now) }
{
    let Some(first) = first_named(fields, b"content-length") else {
        return false;
    };
    if !is_length(first) {
        return true;
    }
    !all_agree(fields, b"content-length", first)
}

// What the fields tell of the body. None where it is past the limit.
fn told_body(fields: &[Field]) -> Option<BodyLeft>
    requires { is_other_length (values_named (codes "content-length") fields.now) ≡ false }
    ensures { Tells (told_body (values_named (codes "transfer-encoding") fields.now)
        (values_named (codes "content-length") fields.now)) result }
{
    if count_named(fields, b"transfer-encoding") > 0 {
        return Some(BodyLeft::Size(0));
    }
    let Some(first) = first_named(fields, b"content-length") else {
        return Some(BodyLeft::Known(0));
    };
    match length_value(first) {
        Some(count) => Some(BodyLeft::Known(count)),
        None => None,
    }
}

// Whether the fields tell neither a coding nor a length.
fn tells_none(fields: &[Field]) -> bool
    ensures { result ≡ tells_none (values_named (codes "transfer-encoding") fields.now) (values_named (codes "content-length") fields.now) }
{
    if count_named(fields, b"transfer-encoding") > 0 {
        return false;
    }
    count_named(fields, b"content-length") == 0
}

// Whether a response's status is below 100.
fn is_below_100(start: &Start) -> bool
    ensures { result ≡ is_below_100 start.now }
{
    match start {
        Start::Request { .. } => false,
        Start::Response { status } => *status < 100,
    }
}

// Whether it is an interim response.
fn is_interim(start: &Start) -> bool
    ensures { result ≡ is_interim start.now }
{
    match start {
        Start::Request { .. } => false,
        Start::Response { status } => 100 <= *status && *status < 200,
    }
}

// Whether the body is empty whatever the fields say.
fn has_no_body(start: &Start) -> bool
    ensures { result ≡ has_no_body start.now }
{
    match start {
        Start::Request { .. } => false,
        Start::Response { status } => *status == 204 || *status == 304,
    }
}

// Whether a length or a coding must be told: in a response that has a body.
fn must_tell(start: &Start) -> bool
    ensures { result ≡ must_tell start.now }
{
    match start {
        Start::Request { .. } => false,
        Start::Response { status } => *status != 204 && *status != 304,
    }
}

/// The body that begins behind a head, or why the head is refused.
pub fn judge(minor: u8, head: &Head) -> Result<BodyLeft, HttpRefusal>
    ensures { Judges (record { head = head.now; minor = minor }) result }
{
    let fields = head.fields.as_slice();
    if minor != 1 {
        return Err(HttpRefusal::Head);
    }
    if is_below_100(&head.start) {
        return Err(HttpRefusal::Head);
    }
    if fields.len() > MOST_FIELDS {
        return Err(HttpRefusal::HeadTooLarge);
    }
    if is_interim(&head.start) {
        return Err(HttpRefusal::Coding);
    }
    if has_other_coding(fields) {
        return Err(HttpRefusal::Coding);
    }
    if has_other_length(fields) {
        return Err(HttpRefusal::Length);
    }
    if must_tell(&head.start) {
        if tells_none(fields) {
            return Err(HttpRefusal::Length);
        }
    }
    if has_no_body(&head.start) {
        return Ok(BodyLeft::Known(0));
    }
    match told_body(fields) {
        Some(left) => Ok(left),
        None => Err(HttpRefusal::TooLong),
    }
}
