// The fields of messages: the one that tells an error, and bound ones.
ghost use Rattle.std.specs.Prelude.{◌≡◌, ◌++◌, ◌∷◌, IfOk, OnOk, codes};
ghost use Rattle.std.specs.Option.{option_map};
ghost use Rattle.sm_rest.specs.messages.WrittenHeads.{field_of, fields_given, type_fields};
ghost use Rattle.sm_rest_write.specs.steps.ToldFields.{fields_telling};

use sm_http::Field;
use sm_rest::sm_messages::{request_fields, response_fields, written_field};
use sm_tree::NoMemory;
use std::alloc::Global;

// The name of the field that tells an error.
const ERROR_FIELD: &str = "x-amzn-errortype";

// The fields by their names and values, behind others.
fn lend_fields<'p>(fields: &'p [Field], lent: &mut Vec<(&'p str, &'p [u8])>) -> Result<(), NoMemory>
    ensures { OnOk result (fields_given lent.new.items ≡ fields_given lent.old.items ++ fields.now) }
{
    for field in fields {
        lent.push((field.name.as_str(), field.value.as_slice()))?;
    }
    Ok(())
}

// The field that tells an error by this name, if there is one, with room for so many more.
fn lent_name<'p>(
    alloc: Global,
    told: Option<&'p str>,
    room: usize,
) -> Result<Vec<(&'p str, &'p [u8])>, NoMemory>
    ensures { IfOk result (λ lent. fields_given lent.items ≡ fields_telling (option_map (λ name. name.now) told.entry)) }
{
    let mut lent = Vec::with_capacity(alloc, room.saturating_add(1))?;
    match told {
        Some(name) => {
            lent.push((ERROR_FIELD, name.as_bytes()))?;
            Ok(lent)
        }
        None => Ok(lent),
    }
}

/// That field, and then these, by their names and values. No field is copied.
pub(crate) fn lent_fields<'p>(
    alloc: Global,
    told: Option<&'p str>,
    fields: &'p [Field],
) -> Result<Vec<(&'p str, &'p [u8])>, NoMemory>
    ensures { IfOk result (λ lent. fields_given lent.items ≡ fields_telling (option_map (λ name. name.now) told.entry) ++ fields.now) }
{
    let mut lent = lent_name(alloc, told, fields.len())?;
    lend_fields(fields, &mut lent)?;
    Ok(lent)
}

// The field that tells an error behind others, if there is one.
fn with_name(alloc: Global, fields: Vec<Field>, told: Option<&str>) -> Result<Vec<Field>, NoMemory>
    ensures { IfOk result (λ all. all.items ≡ fields.items ++ fields_telling (option_map (λ name. name.now) told.entry)) }
{
    let mut fields = fields;
    match told {
        Some(name) => {
            fields.push(written_field(alloc, ERROR_FIELD, name.as_bytes())?)?;
            Ok(fields)
        }
        None => Ok(fields),
    }
}

// Fields behind others.
fn with_bound(fields: Vec<Field>, bound: Vec<Field>) -> Result<Vec<Field>, NoMemory>
    ensures { IfOk result (λ all. all.items ≡ fields.items ++ bound.items) }
{
    let mut fields = fields;
    let mut bound = bound;
    fields.append(&mut bound)?;
    Ok(fields)
}

/// The fields with which a request begins, and then these.
pub(crate) fn request_with_bound(
    alloc: Global,
    host: &str,
    content_type: &str,
    empty: bool,
    bound: Vec<Field>,
) -> Result<Vec<Field>, NoMemory>
    ensures { IfOk result (λ fields.
        fields.items ≡ field_of (codes "host") host.now ∷ (type_fields empty content_type.now ++ bound.items)) }
{
    let first = request_fields(alloc, host, content_type, empty)?;
    with_bound(first, bound)
}

/// The fields with which a response begins, the one that tells an error by this name, if there is one, and then these.
pub(crate) fn response_with_bound(
    alloc: Global,
    content_type: &str,
    empty: bool,
    told: Option<&str>,
    bound: Vec<Field>,
) -> Result<Vec<Field>, NoMemory>
    ensures { IfOk result (λ fields. fields.items
        ≡ (type_fields empty content_type.now ++ fields_telling (option_map (λ name. name.now) told.entry)) ++ bound.items) }
{
    let first = response_fields(alloc, content_type, empty)?;
    let named = with_name(alloc, first, told)?;
    with_bound(named, bound)
}
