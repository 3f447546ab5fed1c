// Statements as a person reads them, much as the IDL writes them: traits stand before what they are applied to.
use crate::node::{show_node, show_text};
use sm_model::{MemberStatement, RawNode, Ref, ShapeStatement, Statement, TraitUse};
use sm_tree::NoMemory;
use std::alloc::Global;

fn show_traits(alloc: Global, traits: &[TraitUse], out: &mut String) -> Result<(), NoMemory> {
    for applied in traits {
        out.push('@')?;
        out.push_str(applied.id.text.as_str())?;
        out.push('(')?;
        show_node(alloc, &applied.value, out)?;
        out.push_str(") ")?;
    }
    Ok(())
}

fn show_member(alloc: Global, member: &MemberStatement, out: &mut String) -> Result<(), NoMemory> {
    show_traits(alloc, member.traits.as_slice(), out)?;
    out.push_str(member.name.as_str())?;
    out.push_str(": ")?;
    out.push_str(member.target.text.as_str())?;
    Ok(())
}

// Appends members, and nothing where there are none.
fn show_members(
    alloc: Global,
    members: &[MemberStatement],
    out: &mut String,
) -> Result<(), NoMemory> {
    if members.is_empty() {
        return Ok(());
    }
    for (at, member) in members.iter().enumerate() {
        out.push_str(if at == 0 { " {" } else { ", " })?;
        show_member(alloc, member, out)?;
    }
    out.push('}')?;
    Ok(())
}

// Appends what is mixed in, and nothing where nothing is.
fn show_mixins(mixins: &[Ref], out: &mut String) -> Result<(), NoMemory> {
    for (at, mixin) in mixins.iter().enumerate() {
        out.push_str(if at == 0 { " with " } else { ", " })?;
        out.push_str(mixin.text.as_str())?;
    }
    Ok(())
}

// Appends the body of an operation, service or resource, and nothing for an object without pairs.
fn show_body(alloc: Global, body: &RawNode, out: &mut String) -> Result<(), NoMemory> {
    if let RawNode::Object(pairs) = body {
        if pairs.as_slice().is_empty() {
            return Ok(());
        }
    }
    out.push(' ')?;
    show_node(alloc, body, out)
}

fn show_shape(alloc: Global, shape: &ShapeStatement, out: &mut String) -> Result<(), NoMemory> {
    show_traits(alloc, shape.traits.as_slice(), out)?;
    out.push_str(shape.kind.name())?;
    out.push(' ')?;
    out.push_str(shape.id.as_str())?;
    show_mixins(shape.mixins.as_slice(), out)?;
    show_members(alloc, shape.members.as_slice(), out)?;
    show_body(alloc, &shape.properties, out)
}

fn show_statement(alloc: Global, statement: &Statement, out: &mut String) -> Result<(), NoMemory> {
    match statement {
        Statement::Metadata(key, value) => {
            out.push_str("metadata ")?;
            show_text(alloc, key.as_str(), out)?;
            out.push_str(" = ")?;
            show_node(alloc, value, out)
        }
        Statement::Shape(shape) => show_shape(alloc, shape, out),
        Statement::Apply(id, traits) => {
            show_traits(alloc, traits.as_slice(), out)?;
            out.push_str("apply ")?;
            Ok(out.push_str(id.text.as_str())?)
        }
    }
}

/// Appends statements, in order.
pub fn show_statements(
    alloc: Global,
    statements: &[Statement],
    out: &mut String,
) -> Result<(), NoMemory> {
    if statements.is_empty() {
        out.push_str("nothing")?;
    }
    for (at, statement) in statements.iter().enumerate() {
        if at > 0 {
            out.push_str("; ")?;
        }
        show_statement(alloc, statement, out)?;
    }
    Ok(())
}
