// Texts of values in targets and in fields.
use crate::show::show_text;
use sm_codec::{LeafRefusal, Simple};
use sm_parts::{has_written_text, put_text, read_in_field, read_in_target};
use sm_shapes::values::Value;
use sm_time::Format;
use sm_tree::NoMemory;
use std::alloc::Global;

/// Appends the value of a text: behind `target-` or `field-` the word names a type. A value that has a text is shown with it, where that is
/// another one than was read.
pub fn value_at(alloc: Global, word: &str, bytes: &[u8], out: &mut String) -> Result<(), NoMemory> {
    match word.strip_prefix("target-") {
        Some(name) => match type_named(name) {
            Some(simple) => {
                return shown(
                    simple,
                    bytes,
                    read_in_target(alloc, simple, bytes),
                    alloc,
                    out,
                );
            }
            None => return Ok(out.push_str("no type")?),
        },
        None => {}
    }
    match word.strip_prefix("field-") {
        Some(name) => match type_named(name) {
            Some(simple) => shown(
                simple,
                bytes,
                read_in_field(alloc, simple, bytes),
                alloc,
                out,
            ),
            None => Ok(out.push_str("no type")?),
        },
        None => Ok(out.push_str("no case")?),
    }
}

fn type_named(name: &str) -> Option<Simple> {
    if name == "boolean" {
        return Some(Simple::Boolean);
    }
    if name == "string" {
        return Some(Simple::Text);
    }
    if name == "blob" {
        return Some(Simple::Blob);
    }
    if name == "date-time" {
        return Some(Simple::Time(Format::DateTime));
    }
    if name == "http-date" {
        return Some(Simple::Time(Format::HttpDate));
    }
    if name == "epoch-seconds" {
        return Some(Simple::Time(Format::EpochSeconds));
    }
    match name.parse::<u8>() {
        Ok(bits) => Some(Simple::Number(bits)),
        Err(_) => None,
    }
}

fn shown(
    simple: Simple,
    bytes: &[u8],
    read: Result<Value, LeafRefusal>,
    alloc: Global,
    out: &mut String,
) -> Result<(), NoMemory> {
    match read {
        Ok(value) => {
            show_value(&value, out)?;
            show_again(simple, bytes, &value, alloc, out)
        }
        Err(LeafRefusal::Fault(kind)) => Ok(write!(out, "{kind:?}")?),
        Err(LeafRefusal::NoMemory) => Err(NoMemory),
    }
}

fn show_value(value: &Value, out: &mut String) -> Result<(), NoMemory> {
    match value {
        Value::Bool(truth) => Ok(write!(out, "{truth}")?),
        Value::Int(number) => Ok(write!(out, "{number}")?),
        Value::Text(text) => show_text(text.as_str().as_bytes(), out),
        Value::Time(stamp) => Ok(write!(out, "{}", stamp.milliseconds())?),
        _ => Ok(out.push_str("another value")?),
    }
}

// The text that is written for the value, where it is another one.
fn show_again(
    simple: Simple,
    bytes: &[u8],
    value: &Value,
    alloc: Global,
    out: &mut String,
) -> Result<(), NoMemory> {
    if !has_written_text(simple, value) {
        return Ok(out.push_str(" without a text")?);
    }
    let mut text = String::new(alloc);
    put_text(&mut text, simple, value)?;
    if text.as_bytes() != bytes {
        out.push_str(" as ")?;
        out.push_str(&text)?;
    }
    Ok(())
}
