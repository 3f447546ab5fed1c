// Documentation comments, which stand for a trait (Smithy 2.0, "Smithy IDL", "Documentation comment").
ghost use Rattle.std.specs.Prelude.{◌≡◌, ◌++◌, ℕ, List, IfOk};
ghost use Rattle.sm_model.specs.SaidView.{trait_view, traits_view};
ghost use Rattle.sm_model.specs.RawView.{raw_view};
ghost use Rattle.sm_model.specs.PreludeShapes.{api_id};
ghost use Rattle.sm_idl.specs.Traits.{standing_for, value_trait};
ghost use Rattle.sm_idl.specs.steps.DocSteps.{DocumentsTrait, ReadsDocs};
ghost use Rattle.sm_idl.specs.steps.ReaderView.{left, maybe_raw};

use crate::leaf::text_node;
use crate::reader::Reader;
use crate::references::absolute;
use sm_lex::documentation;
use sm_model::{RawNode, TraitUse};
use sm_tree::NoMemory;
use std::alloc::Global;

/// A trait of the prelude, by its id, that another form stands for.
pub(crate) fn standing_for(alloc: Global, id: &str, value: RawNode) -> Result<TraitUse, NoMemory>
    ensures { (name : List ℕ) → id.now ≡ api_id name → IfOk result (λ given. trait_view given ≡ standing_for name (raw_view value)) }
{
    match absolute(alloc, id, true) {
        Ok(id) => Ok(TraitUse { id, value }),
        Err(refusal) => Err(refusal),
    }
}

/// Puts a trait that a value stands for, where there is one.
pub(crate) fn put_value(
    alloc: Global,
    traits: &mut Vec<TraitUse>,
    id: &str,
    value: Option<RawNode>,
) -> Result<(), NoMemory>
    ensures { (name : List ℕ) → id.now ≡ api_id name → IfOk result (λ _.
        traits_view traits.new.items ≡ traits_view traits.old.items ++ value_trait name (maybe_raw value)) }
{
    match value {
        Some(value) => match standing_for(alloc, id, value) {
            Ok(given) => match traits.push(given) {
                Ok(()) => Ok(()),
                Err(_) => Err(NoMemory),
            },
            Err(refusal) => Err(refusal),
        },
        None => Ok(()),
    }
}

/// The documentation of a text, as a trait.
fn docs_of(alloc: Global, space: &str) -> Result<Vec<TraitUse>, NoMemory>
    ensures { DocumentsTrait space.now result }
{
    let mut traits: Vec<TraitUse> = Vec::new(alloc);
    match documentation(alloc, space) {
        Ok(Some(docs)) => match standing_for(alloc, "smithy.api#documentation", text_node(docs)) {
            Ok(given) => match traits.push(given) {
                Ok(()) => Ok(traits),
                Err(_) => Err(NoMemory),
            },
            Err(refusal) => Err(refusal),
        },
        Ok(None) => Ok(traits),
        Err(refusal) => Err(refusal),
    }
}

impl<'t, 'a> Reader<'t, 'a> {
    /// The documentation before the next token.
    pub(crate) fn docs(&self, alloc: Global) -> Result<Vec<TraitUse>, NoMemory>
        ensures { ReadsDocs (left self.now) result }
    {
        if self.at >= self.tokens.len() {
            return Ok(Vec::new(alloc));
        }
        let token = self.tokens[self.at];
        docs_of(
            alloc,
            &self.text[self.behind as usize..token.start as usize],
        )
    }
}
