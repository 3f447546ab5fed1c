// What the conventions read and write alike: booleans, texts, whole numbers, base64, stamps as numbers of seconds and as texts.
ghost use Rattle.std.specs.Prelude.{◌≡◌, ◌^◌, ◌-◌, true, cond, nat_lt, IfOk};
ghost use Rattle.base64.specs.Engines.{standard};
ghost use Rattle.base64.specs.GeneralPurpose.{encode_of};
ghost use Rattle.sm_tree.specs.Node.{text};
ghost use Rattle.sm_tree.specs.View.{node_of};
ghost use Rattle.sm_time.specs.Written.{IsWritable, written_stamp};
ghost use Rattle.sm_shapes.specs.declared.fault.FaultKind.TheVariants.{WrongType, Width};
ghost use Rattle.sm_codec.specs.Convention.{fits_bits, are_bytes};
ghost use Rattle.sm_codec.specs.Conventions as conventions;
ghost use Rattle.sm_codec.specs.LeafAnswers.{ReadsLeaf};
ghost use Rattle.sm_time.specs.StampTexts.{stamp_of};

use crate::LeafRefusal;
use base64::DecodeAllocError;
use base64::engine::general_purpose::STANDARD;
use sm_shapes::FaultKind;
use sm_shapes::values::Value;
use sm_time::{Format, Stamp};
use sm_tree::{Bytes, NoMemory, Text, Tree};
use std::alloc::Global;

pub(crate) fn read_boolean(leaf: &Tree) -> Result<Value, LeafRefusal>
    ensures { ReadsLeaf (conventions.read_boolean (node_of leaf.now)) result }
{
    match leaf {
        Tree::Bool(truth) => Ok(Value::Bool(*truth)),
        _ => Err(LeafRefusal::Fault(FaultKind::WrongType)),
    }
}

pub(crate) fn read_text(alloc: Global, leaf: &Tree) -> Result<Value, LeafRefusal>
    ensures { ReadsLeaf (conventions.read_text (node_of leaf.now)) result }
{
    match leaf {
        Tree::Text(text) => match Text::copy(alloc, text.as_str()) {
            Ok(copy) => Ok(Value::Text(copy)),
            Err(NoMemory) => Err(LeafRefusal::NoMemory),
        },
        _ => Err(LeafRefusal::Fault(FaultKind::WrongType)),
    }
}

pub(crate) fn write_text(alloc: Global, value: &Text) -> Result<Tree, NoMemory>
    ensures { IfOk result (λ tree. node_of tree ≡ text value.now) }
{
    match Text::copy(alloc, value.as_str()) {
        Ok(copy) => Ok(Tree::Text(copy)),
        Err(refusal) => Err(refusal),
    }
}

pub(crate) fn read_number(bits: u8, leaf: &Tree) -> Result<Value, LeafRefusal>
    ensures { ReadsLeaf (conventions.read_number bits (node_of leaf.now)) result }
{
    match leaf {
        Tree::Int(number) => {
            if fits_bits(bits, *number) {
                Ok(Value::Int(*number))
            } else {
                Err(LeafRefusal::Fault(FaultKind::Width))
            }
        }
        Tree::Number(text) => Err(LeafRefusal::Fault(number_fault(text))),
        _ => Err(LeafRefusal::Fault(FaultKind::WrongType)),
    }
}

// Whether a word of so many bits, one of them its sign, holds the number.
pub(crate) fn fits_bits(bits: u8, number: i64) -> bool
    ensures { result ≡ fits_bits bits number }
{
    if number < 0 {
        has_places(bits, (-(number + 1)) as u64)
    } else {
        has_places(bits, number as u64)
    }
}

// Whether a word of so many bits, beside its sign, holds so much.
fn has_places(bits: u8, reach: u64) -> bool
    ensures { result ≡ nat_lt reach (2 ^ (bits - 1)) }
{
    let places = bits.saturating_sub(1);
    if places >= 64 {
        return true;
    }
    reach >> places == 0
}

// The fault of a number that is kept as its text: with a fraction or an exponent it is of another type, else it is out of range.
fn number_fault(number: &Text) -> FaultKind
    ensures { result ≡ cond (conventions.has_fraction_mark number.now) WrongType Width }
{
    if has_fraction_mark(number.as_str()) {
        FaultKind::WrongType
    } else {
        FaultKind::Width
    }
}

// Whether a number has a fraction or an exponent.
fn has_fraction_mark(number: &str) -> bool
    ensures { result ≡ conventions.has_fraction_mark number.now }
{
    number
        .bytes()
        .any(|byte| byte == b'.' || byte == b'E' || byte == b'e')
}

// The bytes of a text in strict base64 with its padding.
pub(crate) fn read_base64(alloc: Global, leaf: &Tree) -> Result<Value, LeafRefusal>
    ensures { ReadsLeaf (conventions.read_base64 (node_of leaf.now)) result }
{
    match leaf {
        Tree::Text(text) => match STANDARD.decode(alloc, text.as_str().as_bytes()) {
            Ok(bytes) => Ok(Value::Blob(Bytes::new(bytes))),
            Err(DecodeAllocError::DecodeError(_)) => Err(LeafRefusal::Fault(FaultKind::Base64)),
            Err(DecodeAllocError::OutOfMemory) => Err(LeafRefusal::NoMemory),
        },
        _ => Err(LeafRefusal::Fault(FaultKind::WrongType)),
    }
}

pub(crate) fn write_base64(alloc: Global, bytes: &Bytes) -> Result<Tree, NoMemory>
    ensures { IfOk result (λ tree. node_of tree ≡ text (encode_of standard bytes.now)) }
{
    match STANDARD.encode(alloc, bytes.as_slice()) {
        Ok(text) => Ok(Tree::Text(Text::new(text))),
        Err(_) => Err(NoMemory),
    }
}

// The stamp of a text, if it is one of the format.
fn stamp_in(format: Format, text: &Text) -> Option<Stamp>
    ensures { result ≡ stamp_of format text.now }
{
    match Stamp::read(format, text.as_str().as_bytes()) {
        Ok(stamp) => Some(stamp),
        Err(_) => None,
    }
}

// The stamp of a number of whole seconds.
fn stamp_of_seconds(seconds: i64) -> Option<Stamp>
    ensures { result ≡ conventions.stamp_of_seconds seconds }
{
    match seconds.checked_mul(1000) {
        Some(milliseconds) => Stamp::new(milliseconds),
        None => None,
    }
}

fn time_or_fault(stamp: Option<Stamp>) -> Result<Value, LeafRefusal>
    ensures { ReadsLeaf (conventions.or_fault FaultKind.Time (conventions.stamp_val stamp)) result }
{
    match stamp {
        Some(stamp) => Ok(Value::Time(stamp)),
        None => Err(LeafRefusal::Fault(FaultKind::Time)),
    }
}

// A stamp as a number of seconds, whole or with a fraction.
pub(crate) fn read_seconds(leaf: &Tree) -> Result<Value, LeafRefusal>
    ensures { ReadsLeaf (conventions.read_seconds (node_of leaf.now)) result }
{
    match leaf {
        Tree::Int(seconds) => time_or_fault(stamp_of_seconds(*seconds)),
        Tree::Number(text) => time_or_fault(stamp_in(Format::EpochSeconds, text)),
        _ => Err(LeafRefusal::Fault(FaultKind::WrongType)),
    }
}

// A stamp as a text of the format.
pub(crate) fn read_time_text(format: Format, leaf: &Tree) -> Result<Value, LeafRefusal>
    ensures { ReadsLeaf (conventions.read_time_text format (node_of leaf.now)) result }
{
    match leaf {
        Tree::Text(text) => time_or_fault(stamp_in(format, text)),
        _ => Err(LeafRefusal::Fault(FaultKind::WrongType)),
    }
}

// A stamp as whole seconds under the tag 1 (RFC 8949, section 3.4.2).
pub(crate) fn read_tagged_seconds(leaf: &Tree) -> Result<Value, LeafRefusal>
    ensures { ReadsLeaf (conventions.cbor_time (node_of leaf.now)) result }
{
    match leaf {
        Tree::Tag(number, content) => {
            if *number == 1 {
                read_whole_seconds(content)
            } else {
                Err(LeafRefusal::Fault(FaultKind::WrongType))
            }
        }
        _ => Err(LeafRefusal::Fault(FaultKind::WrongType)),
    }
}

fn read_whole_seconds(leaf: &Tree) -> Result<Value, LeafRefusal>
    ensures { ReadsLeaf (conventions.cbor_seconds (node_of leaf.now)) result }
{
    match leaf {
        Tree::Int(seconds) => time_or_fault(stamp_of_seconds(*seconds)),
        _ => Err(LeafRefusal::Fault(FaultKind::Time)),
    }
}

// Bytes are bytes by their type.
pub(crate) fn see_bytes(bytes: &[u8])
    ensures { are_bytes bytes.now ≡ true }
{
    let _bytes = bytes;
}

// A copy of bytes.
pub(crate) fn copy_bytes(alloc: Global, bytes: &[u8]) -> Result<Bytes, NoMemory>
    ensures copy { IfOk result (λ copy. copy ≡ bytes.now) }
    ensures bytes { are_bytes bytes.now ≡ true }
{
    see_bytes(bytes);
    match bytes.to_vec(alloc) {
        Ok(copy) => Ok(Bytes::new(copy)),
        Err(_) => Err(NoMemory),
    }
}

// The text of a stamp. The caller must know that the format has one.
fn stamp_text(alloc: Global, format: Format, stamp: Stamp) -> Result<Text, NoMemory>
    requires { IsWritable format stamp }
    ensures { IfOk result (λ text. text ≡ written_stamp format stamp) }
{
    let _moment = stamp.milliseconds();
    let mut room = [0u8; 32];
    let length = match stamp.write_into(format, &mut room) {
        Ok(length) => length,
        Err(_) => unreachable!(),
    };
    match str::from_utf8(&room[..length]) {
        Ok(text) => Text::copy(alloc, text),
        Err(_) => unreachable!(),
    }
}

pub(crate) fn write_time_text(alloc: Global, format: Format, stamp: Stamp) -> Result<Tree, NoMemory>
    requires { IsWritable format stamp }
    ensures { IfOk result (λ tree. node_of tree ≡ text (written_stamp format stamp)) }
{
    match stamp_text(alloc, format, stamp) {
        Ok(text) => Ok(Tree::Text(text)),
        Err(refusal) => Err(refusal),
    }
}

// A stamp as a number of seconds: whole ones as an integer.
pub(crate) fn write_seconds(alloc: Global, stamp: Stamp) -> Result<Tree, NoMemory>
    ensures { IfOk result (λ tree. node_of tree ≡ conventions.written_seconds stamp) }
{
    if is_whole_second(stamp) {
        return Ok(Tree::Int(stamp.milliseconds() / 1000));
    }
    match stamp_text(alloc, Format::EpochSeconds, stamp) {
        Ok(text) => Ok(Tree::Number(text)),
        Err(refusal) => Err(refusal),
    }
}

pub(crate) fn is_whole_second(stamp: Stamp) -> bool
    ensures { result ≡ conventions.is_whole_second stamp }
{
    stamp.milliseconds() % 1000 == 0
}

// Whether the format has a text of the stamp.
pub(crate) fn has_text(format: Format, stamp: Stamp) -> bool
    ensures { result ≡ conventions.has_text format stamp }
{
    match format {
        Format::HttpDate => stamp.milliseconds() >= 0 && is_whole_second(stamp),
        _ => true,
    }
}
