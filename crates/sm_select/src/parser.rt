// Selectors out of texts (Smithy 2.0, "Selectors"). Forms in one another stand on a stack, so nothing recurses.
ghost use Rattle.std.specs.Prelude.{◌≡◌, ◌++◌, ◌∷◌, [], List, MatchOption, None, Option, true};
ghost use Rattle.sm_model.specs.declared.kind.Kind.{Kind as Sort};
ghost use Rattle.sm_select.specs.Answers.{ParsesSelector};
ghost use Rattle.sm_select.specs.Grammar.{type_word};
ghost use Rattle.sm_select.specs.Selectors.{Step};
ghost use Rattle.sm_select.specs.View.{step_view};
ghost use Rattle.sm_select.specs.declared.tokens.Sign.TheVariants.{Close as a_close, Comma as a_comma, OpenNames as names_open};
ghost use Rattle.sm_select.specs.declared.tokens.Sign.TheVariants.{OpenPath as path_opens};
ghost use Rattle.sm_select.specs.steps.Places.{Frame, Moves, frame, sign as a_sign, stepping};
ghost use Rattle.sm_select.specs.steps.Reader.{IsNotWhole};
ghost use Rattle.sm_select.specs.steps.Signs.{first_sign, stands, step_signs};
ghost use Rattle.sm_select.specs.steps.Stack.{IsRefusedStep, NoPlainSign, StepsTo, place_of};

use crate::other_forms::is_other_form;
use crate::parser_attribute::attribute;
use crate::parser_names::names;
use crate::parser_stack::Open;
use crate::parser_text::Reading;
use crate::refusal::SelectorRefusal;
use crate::selector::{Selector, SelectorStep};
use crate::tokens::{SelectorForm, Sign};
use sm_model::Kind;
use std::alloc::Global;

// The type with this name, or members.
fn named(word: &str) -> Option<Option<Kind>>
    ensures { MatchOption result ((k : Option Sort) → word.now ≡ type_word k → ⊥) (λ k. word.now ≡ type_word k) }
{
    match word {
        "member" => Some(None),
        _ => match Kind::named(word) {
            Some(kind) => Some(Some(kind)),
            None => None,
        },
    }
}

// The refusal of what stands where a step may come.
fn refused_step(reading: &Reading<'_>) -> SelectorRefusal
    ensures { IsRefusedStep reading.now.len reading.now.rest.now result }
{
    if is_other_form(reading.rest) {
        SelectorRefusal::OutOfProfile((reading.len - reading.rest.len()) as u64)
    } else {
        reading.refused()
    }
}

// A type's name.
fn type_step(reading: &mut Reading<'_>, stack: &mut Open) -> Result<(), SelectorRefusal>
    requires none { first_sign step_signs reading.old.rest.now ≡ None }
    requires more { IsNotWhole (place_of stack.old) reading.old.rest.now }
    ensures read { StepsTo reading.old.len (place_of stack.old) reading.old.rest.now reading.new.rest.now (place_of stack.new) result }
    ensures len { reading.new.len ≡ reading.old.len }
{
    let word = reading.word();
    match named(word) {
        Some(kind) => {
            reading.pass_word(word);
            stack.push(SelectorStep::Named(kind))
        }
        None => Err(refused_step(reading)),
    }
}

// A step that is one sign.
fn plain(
    reading: &mut Reading<'_>,
    stack: &mut Open,
    sign: Sign,
    step: SelectorStep,
) -> Result<(), SelectorRefusal>
    requires stands { stands sign reading.old.rest.now ≡ true }
    requires moves { (ss : List Step) (fs : List Frame) → Moves (stepping ss fs) (a_sign sign) (stepping (ss ++ step_view step ∷ []) fs) }
    ensures read { StepsTo reading.old.len (place_of stack.old) reading.old.rest.now reading.new.rest.now (place_of stack.new) result }
    ensures len { reading.new.len ≡ reading.old.len }
{
    reading.pass_sign(sign);
    stack.push(step)
}

// A sign that opens a form.
fn opened(
    alloc: Global,
    reading: &mut Reading<'_>,
    stack: &mut Open,
    sign: Sign,
    form: SelectorForm,
) -> Result<(), SelectorRefusal>
    requires stands { stands sign reading.old.rest.now ≡ true }
    requires moves { (ss : List Step) (fs : List Frame) → Moves (stepping ss fs) (a_sign sign) (stepping [] (frame form ss [] ∷ fs)) }
    ensures read { StepsTo reading.old.len (place_of stack.old) reading.old.rest.now reading.new.rest.now (place_of stack.new) result }
    ensures len { reading.new.len ≡ reading.old.len }
{
    reading.pass_sign(sign);
    stack.enter(alloc, form)
}

// An attribute, from its `[` on.
fn attribute_step(
    alloc: Global,
    reading: &mut Reading<'_>,
    stack: &mut Open,
) -> Result<(), SelectorRefusal>
    requires { stands path_opens reading.old.rest.now ≡ true }
    ensures read { StepsTo reading.old.len (place_of stack.old) reading.old.rest.now reading.new.rest.now (place_of stack.new) result }
    ensures len { reading.new.len ≡ reading.old.len }
{
    reading.pass_sign(Sign::OpenPath);
    match attribute(alloc, reading) {
        Ok(step) => stack.push(step),
        Err(refusal) => Err(refusal),
    }
}

// Names of relations, from their `-[` on.
fn names_step(
    alloc: Global,
    reading: &mut Reading<'_>,
    stack: &mut Open,
) -> Result<(), SelectorRefusal>
    requires { stands names_open reading.old.rest.now ≡ true }
    ensures read { StepsTo reading.old.len (place_of stack.old) reading.old.rest.now reading.new.rest.now (place_of stack.new) result }
    ensures len { reading.new.len ≡ reading.old.len }
{
    reading.pass_sign(Sign::OpenNames);
    match names(alloc, reading) {
        Ok(names) => stack.push(SelectorStep::Along(names)),
        Err(refusal) => Err(refusal),
    }
}

// `)`.
fn closed(reading: &mut Reading<'_>, stack: &mut Open) -> Result<(), SelectorRefusal>
    requires stands { stands a_close reading.old.rest.now ≡ true }
    requires more { IsNotWhole (place_of stack.old) reading.old.rest.now }
    ensures read { StepsTo reading.old.len (place_of stack.old) reading.old.rest.now reading.new.rest.now (place_of stack.new) result }
    ensures len { reading.new.len ≡ reading.old.len }
{
    match stack.close() {
        Ok(true) => {
            reading.pass_sign(Sign::Close);
            Ok(())
        }
        Ok(false) => Err(refused_step(reading)),
        Err(refusal) => Err(refusal),
    }
}

// `,`.
fn continued(
    alloc: Global,
    reading: &mut Reading<'_>,
    stack: &mut Open,
) -> Result<(), SelectorRefusal>
    requires stands { stands a_comma reading.old.rest.now ≡ true }
    requires more { IsNotWhole (place_of stack.old) reading.old.rest.now }
    ensures read { StepsTo reading.old.len (place_of stack.old) reading.old.rest.now reading.new.rest.now (place_of stack.new) result }
    ensures len { reading.new.len ≡ reading.old.len }
{
    match stack.another(alloc) {
        Ok(true) => {
            reading.pass_sign(Sign::Comma);
            Ok(())
        }
        Ok(false) => Err(refused_step(reading)),
        Err(refusal) => Err(refusal),
    }
}

// A sign of a form, or a type's name.
#[tactic(auto, using(crate::proofs::ReadSteps::is_moves, crate::proofs::ReadSteps::not_moves, crate::proofs::ReadSteps::test_moves, crate::proofs::ReadSteps::no_step_sign))]
fn form_step(
    alloc: Global,
    reading: &mut Reading<'_>,
    stack: &mut Open,
) -> Result<(), SelectorRefusal>
    requires none { NoPlainSign reading.old.rest.now }
    requires more { IsNotWhole (place_of stack.old) reading.old.rest.now }
    ensures read { StepsTo reading.old.len (place_of stack.old) reading.old.rest.now reading.new.rest.now (place_of stack.new) result }
    ensures len { reading.new.len ≡ reading.old.len }
{
    if reading.starts(Sign::OpenIs) {
        opened(alloc, reading, stack, Sign::OpenIs, SelectorForm::Is)
    } else if reading.starts(Sign::OpenNot) {
        opened(alloc, reading, stack, Sign::OpenNot, SelectorForm::Not)
    } else if reading.starts(Sign::OpenTest) {
        opened(alloc, reading, stack, Sign::OpenTest, SelectorForm::Test)
    } else if reading.starts(Sign::Close) {
        closed(reading, stack)
    } else if reading.starts(Sign::Comma) {
        continued(alloc, reading, stack)
    } else {
        type_step(reading, stack)
    }
}

// One token where a step may come, with the attribute or the names that it begins.
#[tactic(auto, using(crate::proofs::ReadSteps::any_moves, crate::proofs::ReadSteps::forward_moves, crate::proofs::ReadSteps::back_moves, crate::proofs::ReadSteps::walk_moves))]
fn step(alloc: Global, reading: &mut Reading<'_>, stack: &mut Open) -> Result<(), SelectorRefusal>
    requires { IsNotWhole (place_of stack.old) reading.old.rest.now }
    ensures read { StepsTo reading.old.len (place_of stack.old) reading.old.rest.now reading.new.rest.now (place_of stack.new) result }
    ensures len { reading.new.len ≡ reading.old.len }
{
    if reading.starts(Sign::Star) {
        plain(reading, stack, Sign::Star, SelectorStep::Any)
    } else if reading.starts(Sign::Greater) {
        plain(reading, stack, Sign::Greater, SelectorStep::Forward)
    } else if reading.starts(Sign::Smaller) {
        plain(reading, stack, Sign::Smaller, SelectorStep::Back)
    } else if reading.starts(Sign::Tilde) {
        plain(reading, stack, Sign::Tilde, SelectorStep::Walk)
    } else if reading.starts(Sign::OpenPath) {
        attribute_step(alloc, reading, stack)
    } else if reading.starts(Sign::OpenNames) {
        names_step(alloc, reading, stack)
    } else {
        form_step(alloc, reading, stack)
    }
}

/// The selector that a text spells. `Syntax` with the place of the first byte that can't go on, or with the length of the text where
/// it ends too soon; `OutOfProfile` with the place of a form of the standard that isn't read; `NoMemory` where memory is refused, or
/// more than 1,000 forms are open in one another.
pub fn parse_selector(alloc: Global, text: &str) -> Result<Selector, SelectorRefusal>
    ensures { ParsesSelector text.now result }
{
    let mut reading = Reading::new(text);
    let mut stack = Open::new(alloc);
    loop {
        if reading.rest.is_empty() && stack.is_whole() {
            return Ok(Selector::new(stack.steps));
        }
        match step(alloc, &mut reading, &mut stack) {
            Ok(()) => {}
            Err(refusal) => return Err(refusal),
        }
    }
}
