// The parts of an id's text by its marks. Who cuts a text before it is known to be an id asks here too.
ghost use Rattle.std.specs.Prelude.{◌≡◌};
ghost use Rattle.sm_ids.specs.TextParts.{
  has_member as has_dollar,
  is_absolute as has_number_sign,
  local_part,
  member_name as name_of_member,
  namespace_part,
  shape_part,
};

/// What stands before the first `#` of a text, and what behind it: the whole text and the empty one where there is none. No memory.
pub fn namespace_and_name(id: &str) -> (&str, &str)
    ensures namespace { result.0.now ≡ namespace_part id.now }
    ensures name { result.1.now ≡ local_part id.now }
{
    match id.split_once('#') {
        Some(parts) => parts,
        None => (id, ""),
    }
}

/// What stands before the first `$` of a text: the id of a shape, of its own or of one of its members. No memory.
pub fn without_member(id: &str) -> &str
    ensures { result.now ≡ shape_part id.now }
{
    match id.split_once('$') {
        Some((shape, _)) => shape,
        None => id,
    }
}

/// What stands behind the first `$` of a text: the name of a member, by its id. The empty text where there is none. No memory.
pub fn member_name(id: &str) -> &str
    ensures { result.now ≡ name_of_member id.now }
{
    match id.split_once('$') {
        Some((_, name)) => name,
        None => "",
    }
}

/// Whether a text has a `#`. No memory.
pub fn is_absolute(id: &str) -> bool
    ensures { result ≡ has_number_sign id.now }
{
    id.as_bytes().contains(&b'#')
}

/// Whether a text has a `$`. No memory.
pub fn has_member(id: &str) -> bool
    ensures { result ≡ has_dollar id.now }
{
    id.as_bytes().contains(&b'$')
}
