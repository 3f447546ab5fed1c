// Values, keys and ids of traits, copied out of a text that is read.
ghost use Rattle.std.specs.Prelude.{◌≡◌, ◌≤◌, ◌++◌, ◌∷◌, [], List, ℕ, length};
ghost use Rattle.sm_model.specs.PreludeShapes.{api_id};
ghost use Rattle.sm_select.specs.Selectors.{Attribute, Step, trait_of};
ghost use Rattle.sm_select.specs.declared.selector.SelectorOp.{SelectorOp as Op};
ghost use Rattle.sm_select.specs.steps.Places.{Frame, behind_path, behind_value, key_wanted, trait_wanted, value_wanted};
ghost use Rattle.sm_select.specs.steps.Reader.{ReadsTo};
ghost use Rattle.sm_select.specs.steps.Taking.{IsCopy};

use crate::parser_taken::{Taken, id_at, identifier_at, key_at, value_at};
use crate::parser_text::Reading;
use crate::refusal::SelectorRefusal;
use sm_tree::Text;
use std::alloc::Global;

/// Where the ids of the prelude begin.
const PRELUDE: &str = "smithy.api#";

// A copy of what was taken; what stands behind it is left.
fn copied<'a>(
    alloc: Global,
    reading: &mut Reading<'a>,
    taken: Taken<'a>,
) -> Result<Text, SelectorRefusal>
    requires { length taken.behind.now ≤ length reading.old.rest.now }
    ensures copy { IsCopy taken.entry.text.now taken.entry.behind.now reading.new.rest.now result }
    ensures len { reading.new.len ≡ reading.old.len }
{
    match Text::copy(alloc, taken.text) {
        Ok(text) => {
            reading.pass_to(taken.behind);
            Ok(text)
        }
        Err(_) => Err(SelectorRefusal::NoMemory),
    }
}

// The id of the prelude with the name that was taken; what stands behind it is left.
fn in_prelude<'a>(
    alloc: Global,
    reading: &mut Reading<'a>,
    taken: Taken<'a>,
) -> Result<Text, SelectorRefusal>
    requires { length taken.behind.now ≤ length reading.old.rest.now }
    ensures copy { IsCopy (api_id taken.entry.text.now) taken.entry.behind.now reading.new.rest.now result }
    ensures len { reading.new.len ≡ reading.old.len }
{
    let mut id = match String::from_str(alloc, PRELUDE) {
        Ok(id) => id,
        Err(_) => return Err(SelectorRefusal::NoMemory),
    };
    match id.push_str(taken.text) {
        Ok(()) => {}
        Err(_) => return Err(SelectorRefusal::NoMemory),
    }
    reading.pass_to(taken.behind);
    Ok(Text::new(id))
}

/// The id of a trait.
pub fn trait_id(alloc: Global, reading: &mut Reading<'_>) -> Result<Text, SelectorRefusal>
    ensures read { (ss : List Step) (fs : List Frame)
        → ReadsTo reading.old.len (trait_wanted ss fs) reading.old.rest.now reading.new.rest.now (λ u. behind_path ss fs (trait_of u [])) result }
    ensures len { reading.new.len ≡ reading.old.len }
{
    match id_at(reading.rest) {
        Some(taken) => copied(alloc, reading, taken),
        None => match identifier_at(reading.rest) {
            Some(taken) => in_prelude(alloc, reading, taken),
            None => Err(reading.refused()),
        },
    }
}

/// A key.
pub fn key(alloc: Global, reading: &mut Reading<'_>) -> Result<Text, SelectorRefusal>
    ensures read { (ss : List Step) (fs : List Frame) (u : List ℕ) (ks : List (List ℕ))
        → ReadsTo reading.old.len (key_wanted ss fs u ks) reading.old.rest.now reading.new.rest.now
        (λ k. behind_path ss fs (trait_of u (ks ++ k ∷ []))) result }
    ensures len { reading.new.len ≡ reading.old.len }
{
    match key_at(reading.rest) {
        Some(taken) => copied(alloc, reading, taken),
        None => Err(reading.refused()),
    }
}

/// A value.
pub fn value(alloc: Global, reading: &mut Reading<'_>) -> Result<Text, SelectorRefusal>
    ensures read { (ss : List Step) (fs : List Frame) (path : Attribute) (op : Op) (vs : List (List ℕ))
        → ReadsTo reading.old.len (value_wanted ss fs path op vs) reading.old.rest.now reading.new.rest.now
        (λ v. behind_value ss fs path op (vs ++ v ∷ [])) result }
    ensures len { reading.new.len ≡ reading.old.len }
{
    match value_at(reading.rest) {
        Some(taken) => copied(alloc, reading, taken),
        None => Err(reading.refused()),
    }
}
