// Words over model files: the forms that commands share. Commands read their own words with these.
ghost use Rattle.std.specs.Prelude.{◌≡◌, ◌↔◌, List, ℕ, [], ◌∷◌, ◌++◌, IsTrue, MatchOption};
ghost use Rattle.sm_asked.specs.Words.{AreModelsAlone, AreOverModels};

use sm_tree::Text;

/// The model files and the last word, where the words are this command's name, one file or more, and a last word.
pub fn model_words<'a>(words: &'a [Text], name: &str) -> Option<(&'a [Text], &'a Text)>
    ensures { MatchOption result
        ((models : List (List ℕ)) (last : List ℕ) → AreOverModels words.now name.now models last → ⊥)
        (λ p. AreOverModels words.now name.now p.0.now p.1.now) }
{
    let Some((command, rest)) = first_and_rest(words) else {
        return None;
    };
    if !is_word(command, name) {
        return None;
    }
    let Some((last, models)) = last_and_rest(rest) else {
        return None;
    };
    if models.is_empty() {
        return None;
    }
    Some((models, last))
}

/// The model files, where the words are this command's name, and one file or more.
pub fn models_alone<'a>(words: &'a [Text], name: &str) -> Option<&'a [Text]>
    ensures { MatchOption result
        ((models : List (List ℕ)) → AreModelsAlone words.now name.now models → ⊥)
        (λ models. AreModelsAlone words.now name.now models.now) }
{
    let Some((command, models)) = first_and_rest(words) else {
        return None;
    };
    if !is_word(command, name) {
        return None;
    }
    if models.is_empty() {
        return None;
    }
    Some(models)
}

// The first word, and those behind it.
fn first_and_rest(words: &[Text]) -> Option<(&Text, &[Text])>
    ensures { MatchOption result (words.now ≡ []) (λ p. words.now ≡ p.0.now ∷ p.1.now) }
{
    words.split_first()
}

// The last word, and those before it.
fn last_and_rest(words: &[Text]) -> Option<(&Text, &[Text])>
    ensures { MatchOption result (words.now ≡ []) (λ p. words.now ≡ p.1.now ++ p.0.now ∷ []) }
{
    words.split_last()
}

/// Whether the word is this text.
pub fn is_word(word: &Text, wanted: &str) -> bool
    ensures { IsTrue result ↔ (word.now ≡ wanted.now) }
{
    word.as_str() == wanted
}
