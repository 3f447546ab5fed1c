// The words of `body`.
ghost use Rattle.std.specs.Prelude.{◌≡◌, List, ℕ, MatchOption};
ghost use Rattle.sm_body_command.specs.BodyWords.{IsBodyForm, form_word};

use sm_asked_shape::sm_asked::is_word;
use sm_bodies::BodyForm;
use sm_tree::Text;

/// The words of `body MODELFILE SHAPE NEAR FAR`.
#[derive(Debug, Clone, Copy)]
pub struct BodyWords<'a> {
    /// The name of the model file.
    pub model: &'a str,
    /// The word for the shape: any text, which may be the name of no shape.
    pub shape: &'a str,
    /// The form of the body that is read.
    pub near: BodyForm,
    /// The form of the body that is written.
    pub far: BodyForm,
}

/// The words of `body`, where they have its form.
pub fn body_words(words: &[Text]) -> Option<BodyWords<'_>>
    ensures { MatchOption result
        ((model shape : List ℕ) (near far : BodyForm) → IsBodyForm words.now model shape near far → ⊥)
        (λ form. IsBodyForm words.now form.model.now form.shape.now form.near form.far) }
{
    if words.len() != 5 {
        return None;
    }
    if !is_word(&words[0], "body") {
        return None;
    }
    let Some(near) = side_named(&words[3]) else {
        return None;
    };
    let Some(far) = side_named(&words[4]) else {
        return None;
    };
    Some(BodyWords {
        model: words[1].as_str(),
        shape: words[2].as_str(),
        near,
        far,
    })
}

// The form of a side that a word names.
fn side_named(word: &Text) -> Option<BodyForm>
    ensures { MatchOption result
        ((form : BodyForm) → word.now ≡ form_word form → ⊥)
        (λ form. word.now ≡ form_word form) }
{
    match word.as_str() {
        "json" => Some(BodyForm::Json),
        "cbor" => Some(BodyForm::Cbor),
        _ => None,
    }
}
