// The words of `transform`.
ghost use Rattle.std.specs.Prelude.{◌≡◌, ◌∷◌, [], ◌++◌, List, ℕ, MatchOption};
ghost use Rattle.sm_bytes.specs.Ascii.{equals};
ghost use Rattle.sm_transform_command.specs.TransformForm.{ChangeAsked, IsTransformForm, SaysChange, change_asked};
ghost use Rattle.sm_transform_command.specs.steps.TransformSteps.{AreNamespaces};

use sm_ids::is_namespace;
use sm_model_commands::sm_asked::model_words;
use sm_tree::Text;

/// What is done with a model.
#[derive(Debug, Clone, Copy)]
pub enum ChangeWords<'a> {
    /// `include SELECTOR`: what the selector picks is kept. Any text, which may be none.
    Include(&'a str),
    /// `exclude SELECTOR`: what the selector picks is taken out.
    Exclude(&'a str),
    /// `rename A=B`: a namespace gets the name of the second.
    Rename(&'a str, &'a str),
}

/// The words of `transform MODEL+ VERB ARG`.
#[derive(Debug, Clone, Copy)]
pub struct TransformWords<'a> {
    /// The names of the model files, in their order.
    pub models: &'a [Text],
    /// What is done with their model.
    pub change: ChangeWords<'a>,
}

/// The words of `transform`, where they have its form.
pub fn transform_words(words: &[Text]) -> Option<TransformWords<'_>>
    ensures { MatchOption result
        ((models : List (List ℕ)) (asked : ChangeAsked) → IsTransformForm words.now models asked → ⊥)
        (λ form. IsTransformForm words.now form.models.now (change_asked form.change)) }
{
    let Some((before, argument)) = model_words(words, "transform") else {
        return None;
    };
    let Some((verb, models)) = last_and_rest(before) else {
        return None;
    };
    if models.is_empty() {
        return None;
    }
    match change_named(verb.as_str(), argument.as_str()) {
        Some(change) => Some(TransformWords { models, change }),
        None => None,
    }
}

// The last word, and those before it.
fn last_and_rest(words: &[Text]) -> Option<(&Text, &[Text])>
    ensures { MatchOption result (words.now ≡ []) (λ p. words.now ≡ p.1.now ++ p.0.now ∷ []) }
{
    words.split_last()
}

// What a verb and its argument ask.
fn change_named<'a>(verb: &str, argument: &'a str) -> Option<ChangeWords<'a>>
    ensures { MatchOption result
        ((asked : ChangeAsked) → SaysChange verb.now argument.now asked → ⊥)
        (λ change. SaysChange verb.now argument.now (change_asked change)) }
{
    if verb == "include" {
        return Some(ChangeWords::Include(argument));
    }
    if verb == "exclude" {
        return Some(ChangeWords::Exclude(argument));
    }
    if verb != "rename" {
        return None;
    }
    match namespaces(argument) {
        Some((from, to)) => Some(ChangeWords::Rename(from, to)),
        None => None,
    }
}

// The two namespaces that an argument names.
fn namespaces(argument: &str) -> Option<(&str, &str)>
    ensures { MatchOption result
        ((from to : List ℕ) → AreNamespaces argument.now from to → ⊥)
        (λ both. AreNamespaces argument.now both.0.now both.1.now) }
{
    let Some((from, to)) = at_equals(argument) else {
        return None;
    };
    if !is_namespace(from) {
        return None;
    }
    if !is_namespace(to) {
        return None;
    }
    Some((from, to))
}

// What stands before a `=` of a text, and what behind it.
fn at_equals(text: &str) -> Option<(&str, &str)>
    ensures { MatchOption result
        ((before behind : List ℕ) → text.now ≡ before ++ equals ∷ behind → ⊥)
        (λ parts. text.now ≡ parts.0.now ++ equals ∷ parts.1.now) }
{
    text.split_once("=")
}
