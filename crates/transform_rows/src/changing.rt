// What a row asks of a model, as a change.
ghost use Rattle.std.specs.Prelude.{◌≡◌, IfOk};
ghost use Rattle.sm_transformed.specs.Transformed.{IsSaid, change_of};

use crate::row::Verb;
use sm_ids::is_namespace;
use sm_select::{Selector, SelectorRefusal, parse_selector};
use sm_transformed::Transform;
use sm_tree::{NoMemory, Text};
use std::alloc::Global;

/// Why a row has no change.
#[derive(Debug, Drop)]
pub enum Unasked {
    /// The text is no selector, or not two namespaces.
    Text,
    /// The allocator refuses memory.
    NoMemory,
}

/// What a verb with its argument asks.
pub fn change_asked(alloc: Global, verb: Verb, text: &str) -> Result<Transform, Unasked>
    ensures { IfOk result (λ change. IsSaid (change_of change)) }
{
    match verb {
        Verb::Include => match selector(alloc, text) {
            Ok(selector) => Ok(Transform::Include(selector)),
            Err(refusal) => Err(refusal),
        },
        Verb::Exclude => match selector(alloc, text) {
            Ok(selector) => Ok(Transform::Exclude(selector)),
            Err(refusal) => Err(refusal),
        },
        Verb::Rename => renaming(alloc, text),
    }
}

fn selector(alloc: Global, text: &str) -> Result<Selector, Unasked> {
    match parse_selector(alloc, text) {
        Ok(selector) => Ok(selector),
        Err(SelectorRefusal::NoMemory) => Err(Unasked::NoMemory),
        Err(_) => Err(Unasked::Text),
    }
}

// `A=B`: one namespace gets the name of another.
fn renaming(alloc: Global, text: &str) -> Result<Transform, Unasked>
    ensures { IfOk result (λ change. IsSaid (change_of change)) }
{
    let Some((from, to)) = text.split_once('=') else {
        return Err(Unasked::Text);
    };
    if !is_namespace(from) || !is_namespace(to) {
        return Err(Unasked::Text);
    }
    match copies(alloc, from, to) {
        Ok((from, to)) => Ok(Transform::Rename(from, to)),
        Err(NoMemory) => Err(Unasked::NoMemory),
    }
}

fn copies(alloc: Global, from: &str, to: &str) -> Result<(Text, Text), NoMemory>
    ensures { IfOk result (λ both. both.1 ≡ to.now) }
{
    let from = Text::copy(alloc, from)?;
    let to = Text::copy(alloc, to)?;
    Ok((from, to))
}
