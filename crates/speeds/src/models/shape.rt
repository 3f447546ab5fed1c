// Shapes of a model, in the proportions of the models of services.
use crate::models::Wanted;
use sm_tree::NoMemory;
use std::alloc::Global;

/// How many members a structure has.
const MEMBERS: u32 = 8;

/// How many values an enum has.
const VALUES: u32 = 6;

/// The documentation of a shape or member, as long as that of services mostly is.
const DOCUMENTATION: &str =
    "<p>The value of this member, which is shown to all who use the service.</p>";

/// Puts a shape, behind a comma where it isn't the first.
pub(crate) fn put_shape(
    alloc: Global,
    wanted: Wanted,
    shape: u32,
    out: &mut String,
) -> Result<(), NoMemory> {
    out.push_str(if shape == 0 { "\"" } else { ",\"" })?;
    put_id(alloc, shape, out)?;
    out.push_str("\":{\"type\":\"")?;
    match shape % 10 {
        6 => put_operation(alloc, shape, out)?,
        7 => put_list(alloc, shape, out)?,
        8 => out.push_str("string\"")?,
        9 => put_enum(alloc, wanted, out)?,
        _ => put_structure(alloc, wanted, shape, out)?,
    }
    put_traits(wanted, ",\"smithy.api#tags\":[\"public\"]", out)?;
    out.push_str("}")?;
    Ok(())
}

// The id of a shape.
fn put_id(alloc: Global, shape: u32, out: &mut String) -> Result<(), NoMemory> {
    out.push_str(format!(in alloc; "com.example#Shape{shape}")?.as_str())?;
    Ok(())
}

// A reference to a shape.
fn put_reference(alloc: Global, shape: u32, out: &mut String) -> Result<(), NoMemory> {
    out.push_str("{\"target\":\"")?;
    put_id(alloc, shape, out)?;
    out.push_str("\"}")?;
    Ok(())
}

// The field of traits: documentation where it is wanted, and more.
fn put_traits(wanted: Wanted, more: &str, out: &mut String) -> Result<(), NoMemory> {
    out.push_str(",\"traits\":{\"smithy.api#documentation\":\"")?;
    if wanted.is_documented {
        out.push_str(DOCUMENTATION)?;
    }
    out.push_str("\"")?;
    out.push_str(more)?;
    out.push_str("}")?;
    Ok(())
}

fn put_operation(alloc: Global, shape: u32, out: &mut String) -> Result<(), NoMemory> {
    out.push_str("operation\",\"input\":")?;
    put_reference(alloc, shape - shape % 10, out)?;
    out.push_str(",\"output\":")?;
    put_reference(alloc, shape / 2, out)?;
    out.push_str(",\"errors\":[")?;
    put_reference(alloc, 1, out)?;
    out.push_str("]")?;
    Ok(())
}

fn put_list(alloc: Global, shape: u32, out: &mut String) -> Result<(), NoMemory> {
    out.push_str("list\",\"member\":")?;
    put_reference(alloc, shape / 2, out)
}

// An enum, whose members have their values.
fn put_enum(alloc: Global, wanted: Wanted, out: &mut String) -> Result<(), NoMemory> {
    out.push_str("enum\",\"members\":{")?;
    for member in 0..VALUES {
        put_member_name(alloc, member, out)?;
        out.push_str("{\"target\":\"smithy.api#Unit\"")?;
        put_traits(wanted, ",\"smithy.api#enumValue\":\"a value\"", out)?;
        out.push_str("}")?;
    }
    out.push_str("}")?;
    Ok(())
}

// A structure: every second member targets a shape of the model, and every fourth one is required.
fn put_structure(
    alloc: Global,
    wanted: Wanted,
    shape: u32,
    out: &mut String,
) -> Result<(), NoMemory> {
    out.push_str("structure\",\"members\":{")?;
    for member in 0..MEMBERS {
        put_member_name(alloc, member, out)?;
        out.push_str("{\"target\":\"")?;
        if member % 2 == 0 {
            out.push_str("smithy.api#String")?;
        } else {
            put_id(alloc, shape / 2, out)?;
        }
        out.push_str("\"")?;
        put_traits(wanted, required(member), out)?;
        out.push_str("}")?;
    }
    out.push_str("}")?;
    Ok(())
}

// The trait of a member that is required.
fn required(member: u32) -> &'static str {
    if member % 4 == 0 {
        ",\"smithy.api#required\":{}"
    } else {
        ""
    }
}

// The name of a member, with its colon. Names aren't in the order of their bytes.
fn put_member_name(alloc: Global, member: u32, out: &mut String) -> Result<(), NoMemory> {
    let number = 99u32.saturating_sub(member);
    out.push_str(if member == 0 { "\"" } else { ",\"" })?;
    out.push_str(format!(in alloc; "member{number}\":")?.as_str())?;
    Ok(())
}
