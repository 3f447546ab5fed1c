// A table, as rows show it: patterns, and shapes by their numbers, each with its members.
use rows::push_comma;
use sm_shapes::tables::{Binding, Table, TableMember, TableShape};
use sm_tree::{NoMemory, Text};
use std::fmt::Write;

/// Appends a table: its patterns by their numbers in the store, then its shapes by theirs, with `; ` between two.
pub fn show_table(table: &Table, out: &mut String) -> Result<(), NoMemory> {
    let mut is_first = true;
    for row in table.patterns.as_slice() {
        push_between(&mut is_first, out)?;
        write!(out, "pattern {} {}", row.0, row.1.as_str())?;
    }
    for (number, shape) in table.shapes.as_slice().iter().enumerate() {
        push_between(&mut is_first, out)?;
        write!(out, "{number} ")?;
        show_shape(table, shape, out)?;
    }
    if is_first {
        out.push_str("nothing")?;
    }
    Ok(())
}

// Appends `; ` but for the first time.
fn push_between(is_first: &mut bool, out: &mut String) -> Result<(), NoMemory> {
    if !*is_first {
        out.push_str("; ")?;
    }
    *is_first = false;
    Ok(())
}

// Appends a shape: its kind, `unit` where it is the prelude's, its media type, and its members in order.
fn show_shape(table: &Table, shape: &TableShape, out: &mut String) -> Result<(), NoMemory> {
    write!(out, "{:?}", shape.kind)?;
    if shape.unit {
        out.push_str(" unit")?;
    }
    show_media_type(&shape.media_type, out)?;
    if shape.members.as_slice().is_empty() {
        return Ok(());
    }
    out.push_str(" {")?;
    let mut is_first = true;
    for number in shape.members.as_slice() {
        push_comma(&mut is_first, out)?;
        match table.members.as_slice().get(*number as usize) {
            Some(member) => show_member(*number, member, out)?,
            None => out.push_str("no member")?,
        }
    }
    Ok(out.push('}')?)
}

// Appends a member: its number, its name, the number of its target, and what else its row says.
fn show_member(number: u32, member: &TableMember, out: &mut String) -> Result<(), NoMemory> {
    write!(
        out,
        "{number} {} -> {}",
        member.name.as_str(),
        member.target
    )?;
    if member.required {
        out.push_str(" required")?;
    }
    if let Some(name) = &member.json_name {
        write!(out, " json \"{}\"", name.as_str())?;
    }
    if let Some(binding) = &member.binding {
        show_binding(binding, out)?;
    }
    show_media_type(&member.media_type, out)?;
    if member.default_node.is_some() {
        out.push_str(" default")?;
    }
    if member.default.is_some() {
        out.push_str(" filled")?;
    }
    Ok(())
}

fn show_media_type(media_type: &Option<Text>, out: &mut String) -> Result<(), NoMemory> {
    match media_type {
        Some(text) => Ok(write!(out, " media \"{}\"", text.as_str())?),
        None => Ok(()),
    }
}

fn show_binding(binding: &Binding, out: &mut String) -> Result<(), NoMemory> {
    match binding {
        Binding::Label => Ok(out.push_str(" label")?),
        Binding::Query(key) => Ok(write!(out, " query \"{}\"", key.as_str())?),
        Binding::QueryParams => Ok(out.push_str(" queryParams")?),
        Binding::Header(name) => Ok(write!(out, " header \"{}\"", name.as_str())?),
        Binding::PrefixHeaders(prefix) => Ok(write!(
            out,
            " prefixHeaders \"{}\"",
            prefix.as_str()
        )?),
        Binding::Payload => Ok(out.push_str(" payload")?),
        Binding::ResponseCode => Ok(out.push_str(" responseCode")?),
    }
}
