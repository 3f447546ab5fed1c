// The fields of a value, met member by member.
ghost use Rattle.std.specs.Prelude.{◌≡◌};
ghost use Rattle.std.specs.Option.{option_map};
ghost use Rattle.sm_shapes.specs.Values.{fields_of};
ghost use Rattle.sm_shapes.specs.ValueView.{each_field_view, val_of};
ghost use Rattle.sm_messages.specs.TreeBodies.{fields_in};
ghost use Rattle.sm_bind_write.specs.steps.FieldsMet.{fields_behind, first_value};

use sm_shapes::values::Value;

/// The fields of a structure; another value has none. No memory.
pub fn fields_in(value: &Value) -> &[(u32, Value)]
    ensures { fields_of (each_field_view result.now) ≡ fields_in (val_of value.now) }
{
    match value {
        Value::Structure(fields) => fields.as_slice(),
        Value::Null => &[],
        Value::Bool(_) => &[],
        Value::Int(_) => &[],
        Value::Text(_) => &[],
        Value::Blob(_) => &[],
        Value::Time(_) => &[],
        Value::List(_) => &[],
        Value::Map(_) => &[],
        Value::Union(_, _) => &[],
    }
}

/// The value of the first field, where it is this member's.
pub(crate) fn first_value(fields: &[(u32, Value)], member: u32) -> Option<&Value>
    ensures { option_map (λ v. val_of v.now) result ≡ first_value member (fields_of (each_field_view fields.now)) }
{
    match fields.split_first() {
        Some((field, _)) => {
            if field.0 == member {
                Some(&field.1)
            } else {
                None
            }
        }
        None => None,
    }
}

/// The fields behind it, where it is this member's; else all.
pub(crate) fn fields_behind(fields: &[(u32, Value)], member: u32) -> &[(u32, Value)]
    ensures { fields_of (each_field_view result.now) ≡ fields_behind member (fields_of (each_field_view fields.now)) }
{
    match fields.split_first() {
        Some((field, rest)) => { if field.0 == member { rest } else { fields } }
        None => fields,
    }
}
