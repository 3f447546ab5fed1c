// Answers on shape ids: their parts, their order, and which texts fold to each other.
use crate::given::list_of;
use rows::show_order;
use sm_ids::{IdRefusal, ShapeId, ShapeIdRef, folds_to, is_identifier, is_namespace};
use sm_tree::{NoMemory, Tree};
use std::alloc::Global;

fn show_id_refusal(refusal: IdRefusal, out: &mut String) -> Result<(), NoMemory> {
    match refusal {
        IdRefusal::Empty => out.push_str("Empty")?,
        IdRefusal::BadIdentifier(at) => write!(out, "BadIdentifier {at}")?,
    }
    Ok(())
}

pub fn id(text: &str, out: &mut String) -> Result<(), NoMemory> {
    match ShapeIdRef::parse(text) {
        Ok(id) => {
            write!(out, "namespace {} name {}", id.namespace, id.name)?;
            if let Some(member) = id.member {
                write!(out, " member {member}")?;
            }
        }
        Err(refusal) => show_id_refusal(refusal, out)?,
    }
    Ok(())
}

pub fn id_lengths(text: &str, out: &mut String) -> Result<(), NoMemory> {
    match ShapeIdRef::parse(text) {
        Ok(id) => {
            write!(
                out,
                "namespace {} name {}",
                id.namespace.len(),
                id.name.len()
            )?;
            if let Some(member) = id.member {
                write!(out, " member {}", member.len())?;
            }
        }
        Err(refusal) => show_id_refusal(refusal, out)?,
    }
    Ok(())
}

pub fn part(text: &str, out: &mut String) -> Result<(), NoMemory> {
    let parts = match (is_identifier(text), is_namespace(text)) {
        (true, true) => "identifier, namespace",
        (true, false) => "identifier",
        (false, true) => "namespace",
        (false, false) => "neither",
    };
    Ok(out.push_str(parts)?)
}

fn owned(alloc: Global, text: &str) -> Option<ShapeId> {
    let id = ShapeIdRef::parse(text).ok()?;
    ShapeId::new(alloc, &id).ok()
}

pub fn order(alloc: Global, text: &str, out: &mut String) -> Result<(), NoMemory> {
    let Some(list) = list_of(alloc, text) else {
        return Ok(out.push_str("no list")?);
    };
    let [Tree::Text(a), Tree::Text(b)] = list.as_slice() else {
        return Ok(out.push_str("no two texts")?);
    };
    let (Some(a), Some(b)) = (owned(alloc, a.as_str()), owned(alloc, b.as_str())) else {
        return Ok(out.push_str("no two ids")?);
    };
    show_order(a.cmp(&b), out)?;
    if a.compare(&b.as_ref()) != a.cmp(&b) {
        out.push_str(", but not where the second is borrowed")?;
    }
    if format!(in alloc; "{a}")?.as_str() != a.as_str() {
        out.push_str(", and printed otherwise")?;
    }
    Ok(())
}

pub fn fold(alloc: Global, text: &str, out: &mut String) -> Result<(), NoMemory> {
    let Some(list) = list_of(alloc, text) else {
        return Ok(out.push_str("no list")?);
    };
    match list.as_slice() {
        [Tree::Text(a), Tree::Text(b)] => {
            let folds = folds_to(a.as_str(), b.as_str());
            Ok(write!(out, "{folds}")?)
        }
        _ => Ok(out.push_str("no two texts")?),
    }
}
