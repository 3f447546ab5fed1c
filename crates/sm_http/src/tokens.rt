// Tokens in the lists that fields are (RFC 9110, section 5.6.1).
ghost use Rattle.std.specs.Prelude.{◌≡◌, reverse};
ghost use Rattle.httparse.specs.Grammar.{skip_ows, trim_ows};
ghost use Rattle.sm_http.specs.FieldValues.{values_named};
ghost use Rattle.sm_http.specs.FieldLists.{is_element, lists_token, has_token};

use crate::fields::folds_to;
use crate::message::{Field, FieldList};
use httparse::{is_space_or_tab, is_token};
use sm_bytes::{ByteClass, run_len};

// All bytes but the comma between elements.
struct ElementBytes;

impl ByteClass for ElementBytes {
    ghost use Rattle.std.specs.Prelude.{not};
    ghost use Rattle.sm_http.specs.FieldLists.{is_comma};

    ghost holds = { λ c. not (is_comma c) };

    fn has(byte: u8) -> bool {
        byte != b','
    }
}

/// A text from its first byte on that is no space and no tab. No memory.
pub fn trim_front(mut text: &[u8]) -> &[u8]
    ensures { result.now ≡ skip_ows text.now }
{
    while let [first, rest @ ..] = text
        && is_space_or_tab(*first)
    {
        text = rest;
    }
    text
}

fn trim_back(mut text: &[u8]) -> &[u8]
    ensures { result.now ≡ reverse (skip_ows (reverse text.now)) }
{
    while let [rest @ .., last] = text
        && is_space_or_tab(*last)
    {
        text = rest;
    }
    text
}

/// A text without the spaces and tabs at its ends (RFC 9110, section 5.6.3). No memory.
pub fn trim(text: &[u8]) -> &[u8]
    ensures { result.now ≡ trim_ows text.now }
{
    trim_back(trim_front(text))
}

// Whether a part of a list is the token, with spaces and tabs around it.
fn is_element(token: &[u8], part: &[u8]) -> bool
    ensures { result ≡ is_element token.now part.now }
{
    let text = trim(part);
    folds_to(text, token) && is_token(text)
}

// Whether the token is an element of the list that a value is.
fn lists_token(token: &[u8], value: &[u8]) -> bool
    ensures { result ≡ lists_token token.now value.now }
{
    let mut rest = value;
    loop {
        let len = run_len::<ElementBytes>(rest);
        if is_element(token, &rest[..len]) {
            return true;
        }
        if len == rest.len() {
            return false;
        }
        rest = &rest[len + 1..];
    }
}

// Whether the token is an element of the list that a field of the name is.
fn any_lists(fields: &[Field], name: &[u8], token: &[u8]) -> bool
    ensures { result ≡ has_token token.now (values_named name.now fields.now) }
{
    for field in fields {
        if folds_to(field.name.as_str().as_bytes(), name)
            && lists_token(token, field.value.as_slice())
        {
            return true;
        }
    }
    false
}

impl FieldList {
    /// Whether a token stands in the lists that the fields with the name are (RFC 9110, section 5.6.1). Name and token may be in
    /// whichever case; a text that is no token stands in no list. No memory.
    pub fn has_token(&self, name: &str, token: &str) -> bool
        ensures { result ≡ has_token token.now (values_named name.now self.now) }
    {
        any_lists(self.as_slice(), name.as_bytes(), token.as_bytes())
    }
}
