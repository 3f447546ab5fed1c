// The names of relations in `-[..]->`.
ghost use Rattle.std.specs.Prelude.{◌≡◌, ◌++◌, ◌∷◌, [], List, if◌then◌else◌};
ghost use Rattle.sm_model.specs.declared.relation.Relation.{Relation};
ghost use Rattle.sm_select.specs.Selectors.{Step, along};
ghost use Rattle.sm_select.specs.steps.Places.{Frame, behind_name, name_wanted, stepping};
ghost use Rattle.sm_select.specs.steps.Reader.{ReadsTo};

use crate::parser_text::Reading;
use crate::refusal::SelectorRefusal;
use crate::selector::Relations;
use crate::tokens::Sign;
use sm_model::Relation;
use std::alloc::Global;

// The name of a relation.
#[tactic(auto, using(crate::proofs::ReadNames::name_read, crate::proofs::ReadNames::name_refused, crate::proofs::Boundaries::dark_now, crate::proofs::Boundaries::word_boundary))]
fn relation(reading: &mut Reading<'_>) -> Result<Relation, SelectorRefusal>
    ensures read { (ss : List Step) (fs : List Frame) (ns : List Relation)
        → ReadsTo reading.old.len (name_wanted ss fs ns) reading.old.rest.now reading.new.rest.now (λ r. behind_name ss fs (ns ++ r ∷ [])) result }
    ensures len { reading.new.len ≡ reading.old.len }
{
    let word = reading.word();
    match Relation::named(word) {
        Some(relation) => {
            reading.pass_word(word);
            Ok(relation)
        }
        None => Err(reading.refused()),
    }
}

// Whether a comma, and not the end, stands behind a name.
#[tactic(auto, using(crate::proofs::ReadNames::comma_read, crate::proofs::ReadNames::names_closed, crate::proofs::ReadNames::names_refused, crate::proofs::Boundaries::dark_now))]
fn another(reading: &mut Reading<'_>) -> Result<bool, SelectorRefusal>
    ensures read { (ss : List Step) (fs : List Frame) (ns : List Relation)
        → ReadsTo reading.old.len (behind_name ss fs ns) reading.old.rest.now reading.new.rest.now
        (λ more. if more then name_wanted ss fs ns else stepping (ss ++ along ns ∷ []) fs) result }
    ensures len { reading.new.len ≡ reading.old.len }
{
    if reading.starts(Sign::Comma) {
        reading.pass_sign(Sign::Comma);
        Ok(true)
    } else if reading.starts(Sign::CloseNames) {
        reading.pass_sign(Sign::CloseNames);
        Ok(false)
    } else {
        Err(reading.refused())
    }
}

/// The names behind `-[`, and what closes them.
pub fn names(alloc: Global, reading: &mut Reading<'_>) -> Result<Relations, SelectorRefusal>
    ensures read { (ss : List Step) (fs : List Frame)
        → ReadsTo reading.old.len (name_wanted ss fs []) reading.old.rest.now reading.new.rest.now (λ ns. stepping (ss ++ along ns ∷ []) fs) result }
    ensures len { reading.new.len ≡ reading.old.len }
{
    let mut names = Vec::new(alloc);
    loop {
        let name = match relation(reading) {
            Ok(name) => name,
            Err(refusal) => return Err(refusal),
        };
        match names.push(name) {
            Ok(()) => {}
            Err(_) => return Err(SelectorRefusal::NoMemory),
        }
        match another(reading) {
            Ok(true) => {}
            Ok(false) => return Ok(Relations::new(names)),
            Err(refusal) => return Err(refusal),
        }
    }
}
