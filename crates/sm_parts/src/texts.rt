// The texts of simple values in targets and in fields of heads.
ghost use Rattle.std.specs.Prelude.{◌≡◌, ◌++◌, true, OnOk, string_bytes};
ghost use Rattle.std.specs.Fmt.{signed_decimal};
ghost use Rattle.std.specs.List.{list_all};
ghost use Rattle.sm_time.specs.StampTexts.{are_digits, is_int, stamp_of};
ghost use Rattle.sm_time.specs.Written.{IsWritable, written_stamp};
ghost use Rattle.sm_shapes.specs.ValueView.{val_of};
ghost use Rattle.sm_codec.specs.Conventions.{format_of_simple};
ghost use Rattle.sm_codec.specs.LeafAnswers.{ReadsLeaf};
ghost use Rattle.sm_parts.specs.Texts.{boolean_read, cut_of, decimal_read, field_read, has_written_text, is_decimal, is_field_byte};
ghost use Rattle.sm_parts.specs.Texts.{target_read, text_read, text_written, time_read, truth_text};

use crate::list_entry::HeaderCut;
use itoa::Buffer;
use sm_codec::{JsonLeaves, LeafRefusal, Leaves, Simple};
use sm_shapes::FaultKind;
use sm_shapes::values::Value;
use sm_time::{Format, Stamp};
use sm_tree::{NoMemory, Text, Tree};
use std::alloc::Global;

/// The value that the text of a target spells, once it is decoded: `Type` where it isn't UTF-8, or is no text of the type; `Width`, `Time`.
///
/// # Errors
///
/// The fault, or `NoMemory`: a text takes as much memory as its length.
pub fn read_in_target(alloc: Global, simple: Simple, bytes: &[u8]) -> Result<Value, LeafRefusal>
    ensures { ReadsLeaf (target_read simple bytes.now) result }
{
    match str::from_utf8(bytes) {
        Ok(text) => read_text(alloc, simple, text),
        Err(_) => Err(LeafRefusal::Fault(FaultKind::WrongType)),
    }
}

/// The value that the text of a field spells, which has bytes from 0x20 to 0x7E alone: `Type` where it hasn't, or is no text of the type;
/// `Width`, `Time`.
///
/// # Errors
///
/// The fault, or `NoMemory`: a text takes as much memory as its length.
pub fn read_in_field(alloc: Global, simple: Simple, bytes: &[u8]) -> Result<Value, LeafRefusal>
    ensures { ReadsLeaf (field_read simple bytes.now) result }
{
    if !are_field_bytes(bytes) {
        return Err(LeafRefusal::Fault(FaultKind::WrongType));
    }
    match str::from_utf8(bytes) {
        Ok(text) => read_text(alloc, simple, text),
        Err(_) => unreachable!(),
    }
}

// Whether bytes may stand in the text of a field.
fn are_field_bytes(bytes: &[u8]) -> bool
    ensures { result ≡ list_all is_field_byte bytes.now }
{
    for byte in bytes {
        if *byte < b' ' || *byte > b'~' {
            return false;
        }
    }
    true
}

// The value that a text spells.
fn read_text(alloc: Global, simple: Simple, text: &str) -> Result<Value, LeafRefusal>
    ensures { ReadsLeaf (text_read simple text.now) result }
{
    match simple {
        Simple::Blob => Err(LeafRefusal::Fault(FaultKind::WrongType)),
        Simple::Boolean => read_boolean(text),
        Simple::Text => match Text::copy(alloc, text) {
            Ok(copy) => Ok(Value::Text(copy)),
            Err(NoMemory) => Err(LeafRefusal::NoMemory),
        },
        Simple::Number(bits) => read_decimal(alloc, bits, text),
        Simple::Time(format) => read_time(format, text),
    }
}

fn read_boolean(text: &str) -> Result<Value, LeafRefusal>
    ensures { ReadsLeaf (boolean_read text.now) result }
{
    if text == "true" {
        return Ok(Value::Bool(true));
    }
    if text == "false" {
        return Ok(Value::Bool(false));
    }
    Err(LeafRefusal::Fault(FaultKind::WrongType))
}

fn read_decimal(alloc: Global, bits: u8, text: &str) -> Result<Value, LeafRefusal>
    ensures { ReadsLeaf (decimal_read bits text.now) result }
{
    if !is_decimal(text.as_bytes()) {
        return Err(LeafRefusal::Fault(FaultKind::WrongType));
    }
    match text.parse::<i64>() {
        Ok(number) => JsonLeaves { json_names: false }.read(
            alloc,
            Simple::Number(bits),
            &Tree::Int(number),
        ),
        Err(_) => Err(LeafRefusal::Fault(FaultKind::Width)),
    }
}

// Whether a text is a whole number: digits, of which a first 0 stands alone, behind a minus sign or none.
fn is_decimal(text: &[u8]) -> bool
    ensures { result ≡ is_decimal text.now }
{
    match text.split_first() {
        Some((first, rest)) => {
            if *first == b'-' {
                is_int(rest)
            } else {
                is_int(text)
            }
        }
        None => false,
    }
}

fn is_int(digits: &[u8]) -> bool
    ensures { result ≡ is_int digits.now }
{
    match digits.split_first() {
        Some((first, rest)) => {
            if rest.is_empty() {
                first.is_ascii_digit()
            } else {
                *first != b'0' && are_digits(digits)
            }
        }
        None => false,
    }
}

fn are_digits(digits: &[u8]) -> bool
    ensures { result ≡ are_digits digits.now }
{
    for digit in digits {
        if !digit.is_ascii_digit() {
            return false;
        }
    }
    true
}

// The stamp of a text, if it is one of the format.
fn stamp_in(format: Format, text: &str) -> Option<Stamp>
    ensures { result ≡ stamp_of format text.now }
{
    match Stamp::read(format, text.as_bytes()) {
        Ok(stamp) => Some(stamp),
        Err(_) => None,
    }
}

fn read_time(format: Format, text: &str) -> Result<Value, LeafRefusal>
    ensures { ReadsLeaf (time_read format text.now) result }
{
    match stamp_in(format, text) {
        Some(stamp) => Ok(Value::Time(stamp)),
        None => Err(LeafRefusal::Fault(FaultKind::Time)),
    }
}

/// Whether a value is one of the simple type and has a text: a stamp may lie outside its format, and a blob has none. No memory.
pub fn has_written_text(simple: Simple, value: &Value) -> bool
    ensures { result ≡ has_written_text simple (val_of value.now) }
{
    match simple {
        Simple::Blob => false,
        Simple::Boolean => JsonLeaves { json_names: false }.carries(Simple::Boolean, value),
        Simple::Text => JsonLeaves { json_names: false }.carries(Simple::Text, value),
        Simple::Number(bits) => JsonLeaves { json_names: false }.carries(
            Simple::Number(bits),
            value,
        ),
        Simple::Time(format) => JsonLeaves { json_names: false }.carries(
            Simple::Time(format),
            value,
        ),
    }
}

/// Writes the text of a value. The caller must know that it has one.
///
/// # Errors
///
/// `NoMemory`.
pub fn put_text(out: &mut String, simple: Simple, value: &Value) -> Result<(), NoMemory>
    requires { has_written_text simple (val_of value.now) ≡ true }
    ensures { OnOk result (string_bytes out.new ≡ string_bytes out.old ++ text_written simple (val_of value.now)) }
{
    match value {
        Value::Bool(truth) => put_truth(out, *truth),
        Value::Int(number) => put_number(out, *number),
        Value::Text(text) => Ok(out.push_str(text.as_str())?),
        Value::Time(stamp) => put_stamp(out, simple, *stamp),
        _ => Ok(()),
    }
}

fn put_truth(out: &mut String, truth: bool) -> Result<(), NoMemory>
    ensures { OnOk result (string_bytes out.new ≡ string_bytes out.old ++ truth_text truth) }
{
    if truth {
        out.push_str("true")?;
    } else {
        out.push_str("false")?;
    }
    Ok(())
}

fn put_number(out: &mut String, number: i64) -> Result<(), NoMemory>
    ensures { OnOk result (string_bytes out.new ≡ string_bytes out.old ++ signed_decimal number) }
{
    let mut buffer = Buffer::new();
    out.push_str(buffer.format(number))?;
    Ok(())
}

fn put_stamp(out: &mut String, simple: Simple, stamp: Stamp) -> Result<(), NoMemory>
    requires { IsWritable (format_of_simple simple) stamp }
    ensures { OnOk result (string_bytes out.new ≡ string_bytes out.old ++ written_stamp (format_of_simple simple) stamp) }
{
    match simple {
        Simple::Time(format) => put_moment(out, format, stamp),
        _ => put_moment(out, Format::EpochSeconds, stamp),
    }
}

// The text of a stamp. The caller must know that the format has one.
fn put_moment(out: &mut String, format: Format, stamp: Stamp) -> Result<(), NoMemory>
    requires { IsWritable format stamp }
    ensures { OnOk result (string_bytes out.new ≡ string_bytes out.old ++ written_stamp format stamp) }
{
    let _moment = stamp.milliseconds();
    let mut room = [0u8; 32];
    let length = match stamp.write_into(format, &mut room) {
        Ok(length) => length,
        Err(_) => unreachable!(),
    };
    match str::from_utf8(&room[..length]) {
        Ok(text) => Ok(out.push_str(text)?),
        Err(_) => unreachable!(),
    }
}

/// How a list of values of a simple type in a field is cut. No memory.
pub fn cut_of(simple: Simple) -> HeaderCut
    ensures { result ≡ cut_of simple }
{
    match simple {
        Simple::Text => HeaderCut::Quoted,
        Simple::Time(Format::HttpDate) => HeaderCut::EverySecondComma,
        _ => HeaderCut::EachComma,
    }
}
