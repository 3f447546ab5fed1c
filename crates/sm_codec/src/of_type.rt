// Whether a value is one of a simple type.
ghost use Rattle.std.specs.Prelude.{◌≡◌};
ghost use Rattle.sm_shapes.specs.ValueView.{val_of};
ghost use Rattle.sm_codec.specs.Convention.{is_of};
ghost use Rattle.sm_codec.specs.Conventions.{format_of_simple};
ghost use Rattle.sm_codec.specs.declared.simple.Simple.TheVariants as simple_type;

use crate::Simple;
use crate::plain::{fits_bits, see_bytes};
use sm_shapes::values::Value;
use sm_time::Format;

/// Whether a value is one of the simple type, and a whole number of its width. No memory.
pub(crate) fn is_of(simple: Simple, value: &Value) -> bool
    ensures { result ≡ is_of simple (val_of value.now) }
{
    match simple {
        Simple::Blob => is_blob(value),
        Simple::Boolean => is_boolean(value),
        Simple::Text => is_text(value),
        Simple::Number(bits) => is_number(bits, value),
        Simple::Time(_) => is_time(value),
    }
}

fn is_blob(value: &Value) -> bool
    ensures { result ≡ is_of simple_type.Blob (val_of value.now) }
{
    match value {
        Value::Blob(bytes) => {
            see_bytes(bytes.as_slice());
            true
        }
        _ => false,
    }
}

fn is_boolean(value: &Value) -> bool
    ensures { result ≡ is_of simple_type.Boolean (val_of value.now) }
{
    match value {
        Value::Bool(_) => true,
        _ => false,
    }
}

fn is_text(value: &Value) -> bool
    ensures { result ≡ is_of simple_type.Text (val_of value.now) }
{
    match value {
        Value::Text(text) => {
            let _text = text.as_str();
            true
        }
        _ => false,
    }
}

fn is_number(bits: u8, value: &Value) -> bool
    ensures { result ≡ is_of (simple_type.Number bits) (val_of value.now) }
{
    match value {
        Value::Int(number) => fits_bits(bits, *number),
        _ => false,
    }
}

fn is_time(value: &Value) -> bool
    ensures { (format : Format) → result ≡ is_of (simple_type.Time format) (val_of value.now) }
{
    match value {
        Value::Time(stamp) => {
            let _moment = stamp.milliseconds();
            true
        }
        _ => false,
    }
}

/// The format of a timestamp's texts; of another type any.
pub(crate) fn format_of(simple: Simple) -> Format
    ensures { result ≡ format_of_simple simple }
{
    match simple {
        Simple::Time(format) => format,
        _ => Format::EpochSeconds,
    }
}
