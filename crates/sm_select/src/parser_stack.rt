// What is read of a selector while forms are open in it. They stand on a stack, so nothing recurses.
ghost use Rattle.std.specs.Prelude.{◌≡◌, ◌++◌, ◌∷◌, [], IfOk, MatchBool};
ghost use Rattle.sm_select.specs.View.{selector_view, step_view, step_views};
ghost use Rattle.sm_select.specs.steps.Places.{frame, stepping};
ghost use Rattle.sm_select.specs.declared.tokens.Sign.TheVariants.{Close, Comma};
ghost use Rattle.sm_select.specs.steps.Stack.{IsMoved, IsNow, IsOnlySelector, IsThen, OnlyNoMemory, frame_of, frames_onto, place_of};

use crate::refusal::SelectorRefusal;
use crate::selector::{Selector, SelectorStep, Selectors};
use crate::tokens::SelectorForm;
use std::alloc::Global;
use std::mem;

/// The most forms that may be open in one another: what drops a selector or asks it goes as deep as they are.
const MOST_OPEN: usize = 1000;

/// A form that may hold several selectors.
#[derive(Drop)]
pub struct Listed {
    /// The steps before it.
    pub before: Vec<SelectorStep>,
    /// The selectors in it that are whole.
    pub done: Vec<Selector>,
}

/// A form that is open.
#[derive(Drop)]
pub enum OpenForm {
    /// `:is(`.
    Is(Listed),
    /// `:not(`, and the steps before it.
    Not(Vec<SelectorStep>),
    /// `:test(`.
    Test(Listed),
}

/// What is read.
#[derive(Drop)]
pub struct Open {
    /// The steps of the innermost selector.
    pub steps: Vec<SelectorStep>,
    /// The forms around it, the innermost last.
    pub forms: Vec<OpenForm>,
}

// One selector more.
fn with_last(mut done: Vec<Selector>, last: Selector) -> Result<Vec<Selector>, SelectorRefusal>
    ensures more { IfOk result (λ more. more.items ≡ done.items ++ last ∷ []) }
    ensures memory { OnlyNoMemory result }
{
    match done.push(last) {
        Ok(()) => Ok(done),
        Err(_) => Err(SelectorRefusal::NoMemory),
    }
}

// A form that has opened behind these steps.
fn opened(alloc: Global, form: SelectorForm, before: Vec<SelectorStep>) -> OpenForm
    ensures { frame_of result ≡ frame form (step_views before.items) [] }
{
    match form {
        SelectorForm::Is => OpenForm::Is(Listed {
            before,
            done: Vec::new(alloc),
        }),
        SelectorForm::Not => OpenForm::Not(before),
        SelectorForm::Test => OpenForm::Test(Listed {
            before,
            done: Vec::new(alloc),
        }),
    }
}

impl Open {
    /// Nothing is read.
    pub fn new(alloc: Global) -> Self
        ensures { place_of result ≡ stepping [] [] }
    {
        Open {
            steps: Vec::new(alloc),
            forms: Vec::new(alloc),
        }
    }

    /// Whether a selector is whole, with no form around it.
    pub fn is_whole(&self) -> bool
        ensures { MatchBool result (IsOnlySelector (place_of self.now)) (IsOnlySelector (place_of self.now) → ⊥) }
    {
        !self.steps.is_empty() && self.forms.is_empty()
    }

    /// One step more.
    pub fn push(&mut self, step: SelectorStep) -> Result<(), SelectorRefusal>
        ensures { IsNow (stepping (step_views self.old.steps.items ++ step_view step ∷ []) (frames_onto self.old.forms.items []))
            (place_of self.new) result }
    {
        match self.steps.push(step) {
            Ok(()) => Ok(()),
            Err(_) => Err(SelectorRefusal::NoMemory),
        }
    }

    /// A form opens.
    #[tactic(auto, using(crate::proofs::StackPlaces::form_held))]
    pub fn enter(&mut self, alloc: Global, form: SelectorForm) -> Result<(), SelectorRefusal>
        ensures { IsNow (stepping [] (frame form (step_views self.old.steps.items) [] ∷ frames_onto self.old.forms.items []))
            (place_of self.new) result }
    {
        if self.forms.len() >= MOST_OPEN {
            return Err(SelectorRefusal::NoMemory);
        }
        let before = mem::replace(&mut self.steps, Vec::new(alloc));
        match self.forms.push(opened(alloc, form, before)) {
            Ok(()) => Ok(()),
            Err(_) => Err(SelectorRefusal::NoMemory),
        }
    }

    // The innermost selector, which is whole; the steps before its form go on.
    fn leave(&mut self, before: Vec<SelectorStep>) -> Selector
        ensures whole { selector_view result ≡ step_views self.old.steps.items }
        ensures before { self.new.steps.items ≡ before.items }
        ensures forms { self.new.forms.items ≡ self.old.forms.items }
    {
        Selector::new(mem::replace(&mut self.steps, before))
    }

    // A form has closed, and is this step.
    fn end(&mut self, step: SelectorStep) -> Result<bool, SelectorRefusal>
        ensures { IsThen (stepping (step_views self.old.steps.items ++ step_view step ∷ []) (frames_onto self.old.forms.items []))
            (place_of self.new) result }
    {
        match self.push(step) {
            Ok(()) => Ok(true),
            Err(refusal) => Err(refusal),
        }
    }

    // A form that goes on.
    #[tactic(auto, using(crate::proofs::StackPlaces::form_held))]
    fn hold(&mut self, form: OpenForm) -> Result<bool, SelectorRefusal>
        ensures { IsThen (stepping (step_views self.old.steps.items) (frame_of form ∷ frames_onto self.old.forms.items []))
            (place_of self.new) result }
    {
        match self.forms.push(form) {
            Ok(()) => Ok(true),
            Err(_) => Err(SelectorRefusal::NoMemory),
        }
    }

    /// `)`: the innermost form closes, if one is open and its last selector is whole.
    pub fn close(&mut self) -> Result<bool, SelectorRefusal>
        ensures { IsMoved (place_of self.old) Close (place_of self.new) result }
    {
        if self.steps.is_empty() {
            return Ok(false);
        }
        match self.forms.pop() {
            None => Ok(false),
            Some(OpenForm::Not(before)) => {
                let last = self.leave(before);
                self.end(SelectorStep::Not(last))
            }
            Some(OpenForm::Is(listed)) => {
                let Listed { before, done } = listed;
                let last = self.leave(before);
                match with_last(done, last) {
                    Ok(done) => self.end(SelectorStep::Is(Selectors::new(done))),
                    Err(refusal) => Err(refusal),
                }
            }
            Some(OpenForm::Test(listed)) => {
                let Listed { before, done } = listed;
                let last = self.leave(before);
                match with_last(done, last) {
                    Ok(done) => self.end(SelectorStep::Test(Selectors::new(done))),
                    Err(refusal) => Err(refusal),
                }
            }
        }
    }

    /// `,`: another selector is to come, if the innermost form may hold several and its last selector is whole.
    pub fn another(&mut self, alloc: Global) -> Result<bool, SelectorRefusal>
        ensures { IsMoved (place_of self.old) Comma (place_of self.new) result }
    {
        if self.steps.is_empty() {
            return Ok(false);
        }
        let last = self.leave(Vec::new(alloc));
        match self.forms.pop() {
            None => Ok(false),
            Some(OpenForm::Not(_)) => Ok(false),
            Some(OpenForm::Is(listed)) => {
                let Listed { before, done } = listed;
                match with_last(done, last) {
                    Ok(done) => self.hold(OpenForm::Is(Listed { before, done })),
                    Err(refusal) => Err(refusal),
                }
            }
            Some(OpenForm::Test(listed)) => {
                let Listed { before, done } = listed;
                match with_last(done, last) {
                    Ok(done) => self.hold(OpenForm::Test(Listed { before, done })),
                    Err(refusal) => Err(refusal),
                }
            }
        }
    }
}
