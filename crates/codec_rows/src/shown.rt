// Values as rows show them: JSON, by the shape. A blob is the list of its bytes, a timestamp its milliseconds.
use rows::push_comma;
use sm_shapes::tables::Table;
use sm_shapes::values::Value;
use sm_tree::{NoMemory, Text};

// Appends a character of a string.
fn show_character(character: char, out: &mut String) -> Result<(), NoMemory> {
    match character {
        '"' => Ok(out.push_str("\\\"")?),
        '\\' => Ok(out.push_str("\\\\")?),
        _ => {
            if (character as u32) < 0x20 {
                Ok(write!(out, "\\u{:04x}", character as u32)?)
            } else {
                Ok(out.push(character)?)
            }
        }
    }
}

/// Appends a text in quotes.
pub fn show_string(text: &str, out: &mut String) -> Result<(), NoMemory> {
    out.push('"')?;
    for character in text.chars() {
        show_character(character, out)?;
    }
    Ok(out.push('"')?)
}

// Appends the name of a pair.
fn show_name(name: &str, out: &mut String) -> Result<(), NoMemory> {
    show_string(name, out)?;
    Ok(out.push(':')?)
}

fn show_numbers(bytes: &[u8], out: &mut String) -> Result<(), NoMemory> {
    let mut is_first = true;
    out.push('[')?;
    for byte in bytes {
        push_comma(&mut is_first, out)?;
        write!(out, "{byte}")?;
    }
    Ok(out.push(']')?)
}

/// Appends a value.
#[cycle(shown)]
pub fn show_value(table: &Table, value: &Value, out: &mut String) -> Result<(), NoMemory> {
    match value {
        Value::Null => Ok(out.push_str("null")?),
        Value::Bool(truth) => Ok(write!(out, "{truth}")?),
        Value::Int(number) => Ok(write!(out, "{number}")?),
        Value::Text(text) => show_string(text.as_str(), out),
        Value::Blob(bytes) => show_numbers(bytes.as_slice(), out),
        Value::Time(stamp) => Ok(write!(out, "{}", stamp.milliseconds())?),
        Value::List(items) => show_items(table, items.as_slice(), out),
        Value::Map(entries) => show_entries(table, entries.as_slice(), out),
        Value::Structure(fields) => show_fields(table, fields.as_slice(), out),
        Value::Union(member, content) => {
            out.push('{')?;
            show_name(table.name_of(*member), out)?;
            show_value(table, content, out)?;
            Ok(out.push('}')?)
        }
    }
}

#[cycle(shown)]
fn show_items(table: &Table, items: &[Value], out: &mut String) -> Result<(), NoMemory> {
    let mut is_first = true;
    out.push('[')?;
    for item in items {
        push_comma(&mut is_first, out)?;
        show_value(table, item, out)?;
    }
    Ok(out.push(']')?)
}

#[cycle(shown)]
fn show_entries(
    table: &Table,
    entries: &[(Text, Value)],
    out: &mut String,
) -> Result<(), NoMemory> {
    let mut is_first = true;
    out.push('{')?;
    for entry in entries {
        push_comma(&mut is_first, out)?;
        show_name(entry.0.as_str(), out)?;
        show_value(table, &entry.1, out)?;
    }
    Ok(out.push('}')?)
}

#[cycle(shown)]
fn show_fields(table: &Table, fields: &[(u32, Value)], out: &mut String) -> Result<(), NoMemory> {
    let mut is_first = true;
    out.push('{')?;
    for field in fields {
        push_comma(&mut is_first, out)?;
        show_name(table.name_of(field.0), out)?;
        show_value(table, &field.1, out)?;
    }
    Ok(out.push('}')?)
}
