// Forms of the standard that aren't read.
ghost use Rattle.std.specs.Prelude.{◌≡◌, ◌||◌, ◌≢◌, MatchBool, [], codes};
ghost use Rattle.std.specs.List.{Contains};
ghost use Rattle.sm_select.specs.SelectorText.{OtherForm, categories, read_names};
ghost use Rattle.sm_select.specs.steps.Signs.{opens};

use crate::parser_text::run_at;

// Whether `$`, `<-[` or `[@` stands first.
fn begins_other(bytes: &[u8]) -> bool
    ensures { result ≡ (opens (codes "$") bytes.now || (opens (codes "<-[") bytes.now || opens (codes "[@") bytes.now)) }
{
    bytes.starts_with(b"$") || bytes.starts_with(b"<-[") || bytes.starts_with(b"[@")
}

// Whether a run behind `:` isn't one of the names that are read.
fn is_other_name(name: &str) -> bool
    ensures { MatchBool result ((name.now ≢ []) × (Contains read_names name.now → ⊥)) (name.now ≢ [] → Contains read_names name.now) }
{
    match name {
        "" | "is" | "not" | "test" => false,
        _ => true,
    }
}

// Whether a run is the name of a category of types.
fn is_category(name: &str) -> bool
    ensures { MatchBool result (Contains categories name.now) (Contains categories name.now → ⊥) }
{
    match name {
        "simpleType" | "number" | "collection" => true,
        _ => false,
    }
}

/// Whether a form that isn't read stands first.
pub fn is_other_form(rest: &str) -> bool
    ensures { MatchBool result (OtherForm rest.now) (OtherForm rest.now → ⊥) }
{
    if begins_other(rest.as_bytes()) {
        return true;
    }
    match rest.strip_prefix(':') {
        Some(more) => is_other_name(run_at(more)),
        None => is_category(run_at(rest)),
    }
}
