// What references mean, once it is known which shapes there are.
ghost use Rattle.std.specs.Prelude.{◌≡◌, ◌++◌, IfOk, string_bytes};
ghost use Rattle.sm_ids.specs.TextParts.{member_part, shape_part};
ghost use Rattle.sm_merge.specs.Meaning.{found_in, meaning as meant, relative_meaning};
ghost use Rattle.sm_merge.specs.steps.Known.{known};
ghost use Rattle.sm_merge.specs.steps.Cut.{HasMember};

use crate::names::Names;
use sm_ids::{is_absolute, without_member};
use sm_model::{Ref, is_in_prelude};
use sm_tree::{NoMemory, Text};
use std::alloc::Global;

/// The id that a reference means.
pub(crate) fn meaning(alloc: Global, names: &Names<'_>, reference: &Ref) -> Result<Text, NoMemory>
    ensures { IfOk result (λ id. id ≡ meant (known names.now) reference.now) }
{
    let text = reference.text.as_str();
    match &reference.namespace {
        None => Text::copy(alloc, text),
        Some(namespace) => {
            if is_absolute(text) {
                return Text::copy(alloc, text);
            }
            let id = relative(alloc, names, reference, namespace.as_str())?;
            Ok(Text::new(id))
        }
    }
}

// The id that a relative reference of a file with this namespace means.
fn relative(
    alloc: Global,
    names: &Names<'_>,
    reference: &Ref,
    namespace: &str,
) -> Result<String, NoMemory>
    ensures { IfOk result (λ id. string_bytes id
        ≡ relative_meaning (known names.now) reference.now namespace.now (shape_part reference.now.text)
        ++ member_part reference.now.text) }
{
    let text = reference.text.as_str();
    let name = without_member(text);
    let mut id = shape(alloc, names, reference, namespace, name)?;
    match member_of(text) {
        None => Ok(id),
        Some(member) => {
            id.push_str("$")?;
            id.push_str(member)?;
            Ok(id)
        }
    }
}

// The member of an id.
fn member_of(id: &str) -> Option<&str>
    ensures { HasMember id.now result }
{
    match id.split_once('$') {
        Some((_, member)) => Some(member),
        None => None,
    }
}

// The shape that a name stands for in a file of this namespace.
fn shape(
    alloc: Global,
    names: &Names<'_>,
    reference: &Ref,
    namespace: &str,
    name: &str,
) -> Result<String, NoMemory>
    ensures { IfOk result (λ id. string_bytes id ≡ relative_meaning (known names.now) reference.now namespace.now name.now) }
{
    match reference.uses.named(name) {
        Some(id) => Ok(String::from_str(alloc, id)?),
        None => found(alloc, names, namespace, name, reference.in_trait),
    }
}

// The shape that a name stands for in a file of this namespace that uses no id under it.
fn found(
    alloc: Global,
    names: &Names<'_>,
    namespace: &str,
    name: &str,
    in_trait: bool,
) -> Result<String, NoMemory>
    ensures { IfOk result (λ id. string_bytes id ≡ found_in (known names.now) namespace.now name.now in_trait) }
{
    let own = joined(alloc, namespace, "#", name)?;
    if names.has(own.as_str()) {
        return Ok(own);
    }
    let api = joined(alloc, "smithy.api", "#", name)?;
    if in_trait || is_in_prelude(api.as_str()) {
        Ok(api)
    } else {
        Ok(own)
    }
}

/// Three texts, one after the other.
pub(crate) fn joined(
    alloc: Global,
    first: &str,
    second: &str,
    third: &str,
) -> Result<String, NoMemory>
    ensures { IfOk result (λ text. string_bytes text ≡ first.now ++ second.now ++ third.now) }
{
    let len = first
        .len()
        .saturating_add(second.len())
        .saturating_add(third.len());
    let mut text = String::with_capacity(alloc, len)?;
    text.push_str(first)?;
    text.push_str(second)?;
    text.push_str(third)?;
    Ok(text)
}
