// Which defaults of a table count.
use crate::shown::show_value;
use rows::push_comma;
use sm_shapes::tables::Table;
use sm_tree::NoMemory;

/// Appends the defaults that count, with the names of their members.
pub fn show_defaults(table: &Table, out: &mut String) -> Result<(), NoMemory> {
    let mut is_first = true;
    for row in table.members.as_slice() {
        if let Some(value) = &row.default {
            push_comma(&mut is_first, out)?;
            out.push_str(row.name.as_str())?;
            out.push(' ')?;
            show_value(table, value, out)?;
        }
    }
    if is_first {
        out.push_str("none")?;
    }
    Ok(write!(out, "; {} at most", table.most_defaults())?)
}
