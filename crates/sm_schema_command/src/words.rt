// The words of `schema`.
ghost use Rattle.std.specs.Prelude.{◌≡◌, ◌∷◌, List, ℕ, Bool, MatchOption};
ghost use Rattle.sm_schema_command.specs.SchemaForm.{IsSchemaForm, described_words, names_word};

use sm_asked_shape::sm_asked::is_word;
use sm_tree::Text;

/// The words of `schema MODELFILE SHAPE NAMES`, behind which `described` may stand.
#[derive(Debug, Clone, Copy)]
pub struct SchemaWords<'a> {
    /// The name of the model file.
    pub model: &'a str,
    /// The word for the shape: any text, which may be the name of no shape.
    pub shape: &'a str,
    /// Whether members stand under their JSON names, in place of their own.
    pub json_names: bool,
    /// Whether the schema has in it what the model says to people.
    pub described: bool,
}

/// The words of `schema`, where they have its form.
pub fn schema_words(words: &[Text]) -> Option<SchemaWords<'_>>
    ensures { MatchOption result
        ((model shape : List ℕ) (json_names described : Bool) → IsSchemaForm words.now model shape json_names described → ⊥)
        (λ form. IsSchemaForm words.now form.model.now form.shape.now form.json_names form.described) }
{
    match words.len() {
        4 => four_words(words, false),
        5 => {
            if is_word(&words[4], "described") {
                four_words(words, true)
            } else {
                None
            }
        }
        _ => None,
    }
}

// The same of the first four of them, where what stands behind says whether the schema is described.
fn four_words(words: &[Text], described: bool) -> Option<SchemaWords<'_>>
    requires { (schema model shape names : List ℕ) × (words.now ≡ schema ∷ model ∷ shape ∷ names ∷ described_words described) }
    ensures { MatchOption result
        ((model shape : List ℕ) (json_names : Bool) → IsSchemaForm words.now model shape json_names described → ⊥)
        (λ form. IsSchemaForm words.now form.model.now form.shape.now form.json_names form.described) }
{
    if !is_word(&words[0], "schema") {
        return None;
    }
    let Some(json_names) = names_named(&words[3]) else {
        return None;
    };
    Some(SchemaWords {
        model: words[1].as_str(),
        shape: words[2].as_str(),
        json_names,
        described,
    })
}

// Whether a word asks for JSON names, or for members' own; `None` of any other.
fn names_named(word: &Text) -> Option<bool>
    ensures { MatchOption result
        ((json_names : Bool) → word.now ≡ names_word json_names → ⊥)
        (λ json_names. word.now ≡ names_word json_names) }
{
    match word.as_str() {
        "members" => Some(false),
        "json" => Some(true),
        _ => None,
    }
}
