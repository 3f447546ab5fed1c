// What the fields of a head say by a name (RFC 9110, section 5).
ghost use Rattle.std.specs.Prelude.{◌≡◌, length};
ghost use Rattle.std.specs.Option.{option_map};
ghost use Rattle.std.specs.Str.{str_eq_ignore_ascii_case};
ghost use Rattle.sm_http.specs.FieldValues.{values_named, first_value, only_value};

use crate::message::{Field, FieldList};

/// Whether a text is the other, without regard to the case of ASCII letters. No memory.
pub fn folds_to(text: &[u8], name: &[u8]) -> bool
    ensures { result ≡ str_eq_ignore_ascii_case text.now name.now }
{
    text.eq_ignore_ascii_case(name)
}

/// How many fields have the name.
pub(crate) fn count_named(fields: &[Field], name: &[u8]) -> usize
    ensures { result ≡ length (values_named name.now fields.now) }
{
    let mut count = 0;
    for field in fields {
        if folds_to(field.name.as_str().as_bytes(), name) {
            count += 1;
        }
    }
    count
}

/// The value of the first field with the name.
pub(crate) fn first_named<'a>(fields: &'a [Field], name: &[u8]) -> Option<&'a [u8]>
    ensures { option_map (λ value. value.now) result ≡ first_value (values_named name.now fields.now) }
{
    for field in fields {
        if folds_to(field.name.as_str().as_bytes(), name) {
            return Some(field.value.as_slice());
        }
    }
    None
}

impl FieldList {
    /// The value of the first field with the name, in whichever case it is written. No memory.
    pub fn first(&self, name: &str) -> Option<&[u8]>
        ensures { option_map (λ value. value.now) result ≡ first_value (values_named name.now self.now) }
    {
        first_named(self.as_slice(), name.as_bytes())
    }

    /// How many fields have the name, in whichever case it is written. No memory.
    pub fn count(&self, name: &str) -> usize
        ensures { result ≡ length (values_named name.now self.now) }
    {
        count_named(self.as_slice(), name.as_bytes())
    }

    /// The value of the one field with the name, in whichever case it is written. None where there is none, and where there
    /// are more. No memory.
    #[tactic(auto, using(crate::proofs::FieldLists::only_one, crate::proofs::FieldLists::only_none))]
    pub fn only(&self, name: &str) -> Option<&[u8]>
        ensures { option_map (λ value. value.now) result ≡ only_value (values_named name.now self.now) }
    {
        if self.count(name) == 1 {
            return self.first(name);
        }
        None
    }
}
