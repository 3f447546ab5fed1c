// Attributes: `[`, a path, and how its value compares with others.
ghost use Rattle.std.specs.Prelude.{◌≡◌, ◌++◌, ◌∷◌, [], List, ℕ, None, false, true, IfOk, MatchOption};
ghost use Rattle.sm_select.specs.Selectors.{Attribute, Step, compares, trait_of};
ghost use Rattle.sm_select.specs.View.{path_view, step_view};
ghost use Rattle.sm_select.specs.declared.selector.SelectorOp.{SelectorOp as Op};
ghost use Rattle.sm_select.specs.steps.Places.{Frame, behind_fold, behind_path as after_path, behind_value, path_wanted, stepping};
ghost use Rattle.sm_select.specs.steps.Places.{trait_wanted, value_wanted};
ghost use Rattle.sm_select.specs.steps.Reader.{NoKeyFollows, ReadsTo, behind_a_value};
ghost use Rattle.sm_select.specs.steps.Signs.{behind_value_signs, first_sign, path_signs, stands};
ghost use Rattle.sm_select.specs.declared.tokens.Sign.TheVariants.{Bar, Op as Operator};

use crate::parser_text::Reading;
use crate::parser_values::{key, trait_id, value};
use crate::refusal::SelectorRefusal;
use crate::selector::{Compare, SelectorOp, SelectorPath, SelectorStep, Texts};
use crate::tokens::Sign;
use std::alloc::Global;

// The keys behind the id of a trait; no other follows.
fn keys(alloc: Global, reading: &mut Reading<'_>) -> Result<Texts, SelectorRefusal>
    ensures read { (ss : List Step) (fs : List Frame) (u : List ℕ)
        → ReadsTo reading.old.len (after_path ss fs (trait_of u [])) reading.old.rest.now reading.new.rest.now
        (λ ks. after_path ss fs (trait_of u ks)) result }
    ensures keys { IfOk result (λ _. stands Bar reading.new.rest.now ≡ false) }
    ensures len { reading.new.len ≡ reading.old.len }
{
    let mut keys = Vec::new(alloc);
    while reading.starts(Sign::Bar) {
        reading.pass_sign(Sign::Bar);
        let key = match key(alloc, reading) {
            Ok(key) => key,
            Err(refusal) => return Err(refusal),
        };
        match keys.push(key) {
            Ok(()) => {}
            Err(_) => return Err(SelectorRefusal::NoMemory),
        }
    }
    Ok(Texts::new(keys))
}

// A trait and its keys, behind `trait|`.
fn trait_path(alloc: Global, reading: &mut Reading<'_>) -> Result<SelectorPath, SelectorRefusal>
    ensures read { (ss : List Step) (fs : List Frame)
        → ReadsTo reading.old.len (trait_wanted ss fs) reading.old.rest.now reading.new.rest.now (λ path. after_path ss fs (path_view path)) result }
    ensures keys { IfOk result (λ path. NoKeyFollows (path_view path) reading.new.rest.now) }
    ensures len { reading.new.len ≡ reading.old.len }
{
    let id = match trait_id(alloc, reading) {
        Ok(id) => id,
        Err(refusal) => return Err(refusal),
    };
    match keys(alloc, reading) {
        Ok(keys) => Ok(SelectorPath::Trait(id, keys)),
        Err(refusal) => Err(refusal),
    }
}

// The path that is `id`.
#[tactic(auto, using(crate::proofs::ReadPaths::id_read, crate::proofs::ReadPaths::path_refused, crate::proofs::Boundaries::dark_now, crate::proofs::Boundaries::word_boundary))]
fn id_path(reading: &mut Reading<'_>) -> Result<SelectorPath, SelectorRefusal>
    requires { first_sign path_signs reading.old.rest.now ≡ None }
    ensures read { (ss : List Step) (fs : List Frame)
        → ReadsTo reading.old.len (path_wanted ss fs) reading.old.rest.now reading.new.rest.now (λ path. after_path ss fs (path_view path)) result }
    ensures keys { IfOk result (λ path. NoKeyFollows (path_view path) reading.new.rest.now) }
    ensures len { reading.new.len ≡ reading.old.len }
{
    let word = reading.word();
    match word {
        "id" => {
            reading.pass_word(word);
            Ok(SelectorPath::Id)
        }
        _ => Err(reading.refused()),
    }
}

// A path.
#[tactic(auto, using(crate::proofs::ReadAttributes::namespace_read, crate::proofs::ReadAttributes::shape_name_read, crate::proofs::ReadAttributes::member_name_read, crate::proofs::ReadAttributes::no_path_sign, crate::proofs::Boundaries::dark_now))]
fn path(alloc: Global, reading: &mut Reading<'_>) -> Result<SelectorPath, SelectorRefusal>
    ensures read { (ss : List Step) (fs : List Frame)
        → ReadsTo reading.old.len (path_wanted ss fs) reading.old.rest.now reading.new.rest.now (λ path. after_path ss fs (path_view path)) result }
    ensures keys { IfOk result (λ path. NoKeyFollows (path_view path) reading.new.rest.now) }
    ensures len { reading.new.len ≡ reading.old.len }
{
    if reading.starts(Sign::IdNamespace) {
        reading.pass_sign(Sign::IdNamespace);
        Ok(SelectorPath::IdNamespace)
    } else if reading.starts(Sign::IdMember) {
        reading.pass_sign(Sign::IdMember);
        Ok(SelectorPath::IdMember)
    } else if reading.starts(Sign::TraitBar) {
        reading.pass_sign(Sign::TraitBar);
        trait_path(alloc, reading)
    } else if reading.starts(Sign::IdName) {
        reading.pass_sign(Sign::IdName);
        Ok(SelectorPath::IdName)
    } else {
        id_path(reading)
    }
}

// What stands behind a value: another is to come, or the attribute ends, and case doesn't count or does.
#[tactic(auto, using(crate::proofs::ReadAttributes::comma_read, crate::proofs::ReadAttributes::values_closed, crate::proofs::ReadAttributes::no_value_sign, crate::proofs::Boundaries::dark_now))]
fn behind(reading: &mut Reading<'_>) -> Result<Option<bool>, SelectorRefusal>
    ensures read { (ss : List Step) (fs : List Frame) (path : Attribute) (op : Op) (vs : List (List ℕ))
        → ReadsTo reading.old.len (behind_value ss fs path op vs) reading.old.rest.now reading.new.rest.now (behind_a_value ss fs path op vs) result }
    ensures len { reading.new.len ≡ reading.old.len }
{
    if reading.starts(Sign::Comma) {
        reading.pass_sign(Sign::Comma);
        return Ok(None);
    }
    if reading.starts(Sign::ClosePath) {
        reading.pass_sign(Sign::ClosePath);
        return Ok(Some(false));
    }
    folded(reading)
}

// The end of the attribute behind the `i`.
#[tactic(auto, using(crate::proofs::ReadAttributes::fold_closed, crate::proofs::ReadAttributes::fold_refused, crate::proofs::Boundaries::dark_now))]
fn fold_end(reading: &mut Reading<'_>) -> Result<Option<bool>, SelectorRefusal>
    ensures read { (ss : List Step) (fs : List Frame) (path : Attribute) (op : Op) (vs : List (List ℕ))
        → ReadsTo reading.old.len (behind_fold ss fs path op vs) reading.old.rest.now reading.new.rest.now (behind_a_value ss fs path op vs) result }
    ensures len { reading.new.len ≡ reading.old.len }
{
    if reading.starts(Sign::ClosePath) {
        reading.pass_sign(Sign::ClosePath);
        Ok(Some(true))
    } else {
        Err(reading.refused())
    }
}

// The `i` behind the values, and the end of the attribute.
fn folded(reading: &mut Reading<'_>) -> Result<Option<bool>, SelectorRefusal>
    requires { first_sign behind_value_signs reading.old.rest.now ≡ None }
    ensures read { (ss : List Step) (fs : List Frame) (path : Attribute) (op : Op) (vs : List (List ℕ))
        → ReadsTo reading.old.len (behind_value ss fs path op vs) reading.old.rest.now reading.new.rest.now (behind_a_value ss fs path op vs) result }
    ensures len { reading.new.len ≡ reading.old.len }
{
    let word = reading.word();
    match word {
        "i" => {
            reading.pass_word(word);
            fold_end(reading)
        }
        _ => Err(reading.refused()),
    }
}

// The values that a path is compared with, and the end of the attribute.
fn compared(
    alloc: Global,
    reading: &mut Reading<'_>,
    path: SelectorPath,
    op: SelectorOp,
) -> Result<Compare, SelectorRefusal>
    ensures read { (ss : List Step) (fs : List Frame)
        → ReadsTo reading.old.len (value_wanted ss fs (path_view path) op []) reading.old.rest.now reading.new.rest.now
        (λ c. stepping (ss ++ compares (path_view c.path) c.op c.values c.fold ∷ []) fs) result }
    ensures len { reading.new.len ≡ reading.old.len }
{
    let mut values = Vec::new(alloc);
    loop {
        let value = match value(alloc, reading) {
            Ok(value) => value,
            Err(refusal) => return Err(refusal),
        };
        match values.push(value) {
            Ok(()) => {}
            Err(_) => return Err(SelectorRefusal::NoMemory),
        }
        match behind(reading) {
            Ok(None) => {}
            Ok(Some(fold)) => {
                return Ok(Compare {
                    path,
                    op,
                    values: Texts::new(values),
                    fold,
                });
            }
            Err(refusal) => return Err(refusal),
        }
    }
}

// The operator that stands first.
fn operator(reading: &Reading<'_>) -> Option<SelectorOp>
    ensures { MatchOption result ((op : Op) → stands (Operator op) reading.now.rest.now ≡ false)
        (λ op. stands (Operator op) reading.now.rest.now ≡ true) }
{
    if reading.starts(Sign::Op(SelectorOp::Equal)) {
        Some(SelectorOp::Equal)
    } else if reading.starts(Sign::Op(SelectorOp::Unequal)) {
        Some(SelectorOp::Unequal)
    } else if reading.starts(Sign::Op(SelectorOp::Starts)) {
        Some(SelectorOp::Starts)
    } else if reading.starts(Sign::Op(SelectorOp::Ends)) {
        Some(SelectorOp::Ends)
    } else if reading.starts(Sign::Op(SelectorOp::Contains)) {
        Some(SelectorOp::Contains)
    } else {
        None
    }
}

// What stands behind a path: the end of the attribute, or an operator and what follows it.
fn behind_path(
    alloc: Global,
    reading: &mut Reading<'_>,
    path: SelectorPath,
) -> Result<SelectorStep, SelectorRefusal>
    requires { NoKeyFollows (path_view path) reading.old.rest.now }
    ensures read { (ss : List Step) (fs : List Frame)
        → ReadsTo reading.old.len (after_path ss fs (path_view path)) reading.old.rest.now reading.new.rest.now
        (λ s. stepping (ss ++ step_view s ∷ []) fs) result }
    ensures len { reading.new.len ≡ reading.old.len }
{
    if reading.starts(Sign::ClosePath) {
        reading.pass_sign(Sign::ClosePath);
        return Ok(SelectorStep::Has(path));
    }
    match operator(reading) {
        Some(op) => {
            reading.pass_sign(Sign::Op(op));
            match compared(alloc, reading, path, op) {
                Ok(compare) => Ok(SelectorStep::Compare(compare)),
                Err(refusal) => Err(refusal),
            }
        }
        None => Err(reading.refused()),
    }
}

/// The attribute behind `[`.
pub fn attribute(alloc: Global, reading: &mut Reading<'_>) -> Result<SelectorStep, SelectorRefusal>
    ensures read { (ss : List Step) (fs : List Frame)
        → ReadsTo reading.old.len (path_wanted ss fs) reading.old.rest.now reading.new.rest.now (λ s. stepping (ss ++ step_view s ∷ []) fs) result }
    ensures len { reading.new.len ≡ reading.old.len }
{
    match path(alloc, reading) {
        Ok(path) => behind_path(alloc, reading, path),
        Err(refusal) => Err(refusal),
    }
}
