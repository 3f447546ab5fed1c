// Keys of a query and names of fields that no map has, since something else names them.
ghost use Rattle.std.specs.Prelude.{◌≡◌, ◌<◌, ◌||◌, Some, map, min, true};
ghost use Rattle.std.specs.Char.{to_ascii_lowercase};
ghost use Rattle.std.specs.Cmp.Lexicographic.{slice_cmp};
ghost use Rattle.std.specs.List.Sorted.{IsStrictlySortedBy};
ghost use Rattle.std.specs.List.{filter_map, list_all};
ghost use Rattle.std.specs.Ordering.{nat_cmp};
ghost use Rattle.std.specs.Option.{option_map};
ghost use Rattle.std.specs.Str.{bytes_eq, str_to_ascii_lowercase};
ghost use Rattle.httparse.specs.Grammar.{is_token, is_token_byte};
ghost use Rattle.sm_parts.specs.HeaderLists.{is_filled};
ghost use Rattle.sm_shapes.specs.TableData.{shape_count};
ghost use Rattle.sm_shapes.specs.TableView.{binding_data, table_data};
ghost use Rattle.sm_messages.specs.service.WireMembers.{header_of, query_of};
ghost use Rattle.sm_bind.specs.BoundView.{bound_of};
ghost use Rattle.sm_bind.specs.Roles.{binding_on, is_among, is_taken_key, is_taken_name, reserved_names};
ghost use Rattle.sm_bind_write.specs.CarriedParts.{is_prefix_key};
ghost use Rattle.sm_bind_write.specs.steps.FreeKeys.{keys_before};
ghost use Rattle.sm_bind_write.specs.steps.Naming.{is_named, joined};

use crate::bound::counted;
use httparse::is_header_name_token;
use sm_bind::BoundPlace;
use sm_http::folds_to;
use sm_part_texts::is_filled;
use sm_shapes::tables::Binding;
use sm_shapes::values::Value;
use sm_tree::Text;

/// How many entries of a map of queries stand before the first whose key a literal of the pattern or another member names. Each of these is
/// looked for by halves.
pub(crate) fn free_len(place: &BoundPlace<'_>, entries: &[(Text, Value)]) -> usize
    requires shape { place.now.shape < shape_count (table_data place.now.table.now) }
    requires rise { IsStrictlySortedBy (slice_cmp nat_cmp) (map (λ e. e.0) entries.now) }
    ensures { result ≡ keys_before (is_taken_key (bound_of place.now)) (map (λ e. e.0) entries.now) }
{
    smaller(
        before_literals(place.literals, entries),
        before_names(place, place.table.members(place.shape), entries),
    )
}

fn smaller(one: usize, other: usize) -> usize
    ensures { result ≡ min one other }
{
    if one < other { one } else { other }
}

fn before_literals(literals: &[(Text, Option<Text>)], entries: &[(Text, Value)]) -> usize
    requires rise { IsStrictlySortedBy (slice_cmp nat_cmp) (map (λ e. e.0) entries.now) }
    ensures { result ≡ keys_before (is_among (map (λ l. l.0) literals.now)) (map (λ e. e.0) entries.now) }
{
    let mut len = entries.len();
    for literal in literals {
        len = smaller(len, before_key(entries, literal.0.as_str()));
    }
    len
}

fn before_names(place: &BoundPlace<'_>, members: &[u32], entries: &[(Text, Value)]) -> usize
    requires rise { IsStrictlySortedBy (slice_cmp nat_cmp) (map (λ e. e.0) entries.now) }
    ensures { result ≡ keys_before (is_among (filter_map (λ k. query_of (binding_on (bound_of place.now) k)) members.now))
        (map (λ e. e.0) entries.now) }
{
    let mut len = entries.len();
    for member in members {
        let binding = counted(place.table, place.side, *member);
        len = smaller(len, before_bound(entries, binding));
    }
    len
}

// Before the key of the query to which a binding is, if it is to one.
fn before_bound(entries: &[(Text, Value)], binding: Option<&Binding>) -> usize
    requires rise { IsStrictlySortedBy (slice_cmp nat_cmp) (map (λ e. e.0) entries.now) }
    ensures { result ≡ keys_before (is_named (query_of (option_map (λ b. binding_data b.now) binding.entry))) (map (λ e. e.0) entries.now) }
{
    match binding {
        Some(binding) => before_query(entries, binding),
        None => entries.len(),
    }
}

fn before_query(entries: &[(Text, Value)], binding: &Binding) -> usize
    requires rise { IsStrictlySortedBy (slice_cmp nat_cmp) (map (λ e. e.0) entries.now) }
    ensures { result ≡ keys_before (is_named (query_of (Some (binding_data binding.now)))) (map (λ e. e.0) entries.now) }
{
    match binding {
        Binding::Query(name) => before_key(entries, name.as_str()),
        Binding::Label => entries.len(),
        Binding::QueryParams => entries.len(),
        Binding::Header(_) => entries.len(),
        Binding::PrefixHeaders(_) => entries.len(),
        Binding::Payload => entries.len(),
        Binding::ResponseCode => entries.len(),
    }
}

// How many entries stand before that of a key.
fn before_key(entries: &[(Text, Value)], name: &str) -> usize
    requires rise { IsStrictlySortedBy (slice_cmp nat_cmp) (map (λ e. e.0) entries.now) }
    ensures { result ≡ keys_before (λ key. bytes_eq key name.now) (map (λ e. e.0) entries.now) }
{
    match entries.binary_search_by(|entry| entry.0.as_str().cmp(name)) {
        Ok(place) => place,
        Err(_) => entries.len(),
    }
}

/// Whether a key can stand behind a prefix in the name of a field: it has no capitals, and the name is a token that nothing else names.
pub(crate) fn is_prefix_key(place: &BoundPlace<'_>, prefix: &str, key: &str) -> bool
    requires { place.now.shape < shape_count (table_data place.now.table.now) }
    ensures { result ≡ is_prefix_key (bound_of place.now) (str_to_ascii_lowercase prefix.now) key.now }
{
    is_lower(key.as_bytes()) && (is_token(prefix, key) && !is_taken_name(place, prefix, key))
}

// Whether no capital stands in a text.
fn is_lower(text: &[u8]) -> bool
    ensures { result ≡ bytes_eq (str_to_ascii_lowercase text.now) text.now }
{
    for byte in text {
        if byte.to_ascii_lowercase() != *byte {
            return false;
        }
    }
    true
}

fn is_token(prefix: &str, key: &str) -> bool
    ensures { result ≡ is_token (joined prefix.now key.now) }
{
    has_byte(prefix, key)
        && (are_token_bytes(prefix.as_bytes()) && are_lower_token_bytes(key.as_bytes()))
}

fn has_byte(prefix: &str, key: &str) -> bool
    ensures { result ≡ (is_filled prefix.now || is_filled key.now) }
{
    is_filled(prefix.as_bytes()) || is_filled(key.as_bytes())
}

// Whether the bytes of a text without its capitals can stand in a token.
fn are_token_bytes(text: &[u8]) -> bool
    ensures { result ≡ list_all (λ b. is_token_byte (to_ascii_lowercase b)) text.now }
{
    for byte in text {
        if !is_header_name_token(byte.to_ascii_lowercase()) {
            return false;
        }
    }
    true
}

fn are_lower_token_bytes(text: &[u8]) -> bool
    ensures { result ≡ list_all is_token_byte text.now }
{
    for byte in text {
        if !is_header_name_token(*byte) {
            return false;
        }
    }
    true
}

// Whether something else has the name of a prefix and a key without capitals.
fn is_taken_name(place: &BoundPlace<'_>, prefix: &str, key: &str) -> bool
    requires shape { place.now.shape < shape_count (table_data place.now.table.now) }
    requires lower { bytes_eq (str_to_ascii_lowercase key.now) key.now ≡ true }
    ensures { result ≡ is_taken_name (bound_of place.now) (joined prefix.now key.now) }
{
    is_reserved(prefix, key) || is_header_name(place, place.table.members(place.shape), prefix, key)
}

// The names that mean something else in every message.
pub(crate) fn is_reserved(prefix: &str, key: &str) -> bool
    requires { bytes_eq (str_to_ascii_lowercase key.now) key.now ≡ true }
    ensures { result ≡ is_among reserved_names (joined prefix.now key.now) }
{
    is_joined("accept", prefix, key)
        || is_joined("connection", prefix, key)
        || is_joined("content-encoding", prefix, key)
        || is_joined("content-length", prefix, key)
        || is_joined("content-type", prefix, key)
        || is_joined("expect", prefix, key)
        || is_joined("host", prefix, key)
        || is_joined("keep-alive", prefix, key)
        || is_joined("smithy-protocol", prefix, key)
        || is_joined("te", prefix, key)
        || is_joined("trailer", prefix, key)
        || is_joined("transfer-encoding", prefix, key)
        || is_joined("upgrade", prefix, key)
        || is_joined("x-amz-target", prefix, key)
        || is_joined("x-amzn-errortype", prefix, key)
}

fn is_header_name(place: &BoundPlace<'_>, members: &[u32], prefix: &str, key: &str) -> bool
    requires { bytes_eq (str_to_ascii_lowercase key.now) key.now ≡ true }
    ensures { result ≡ is_among (map str_to_ascii_lowercase (filter_map (λ k. header_of (binding_on (bound_of place.now) k)) members.now))
        (joined prefix.now key.now) }
{
    for member in members {
        if names_field(counted(place.table, place.side, *member), prefix, key) {
            return true;
        }
    }
    false
}

// Whether a binding is to the field of this name.
fn names_field(binding: Option<&Binding>, prefix: &str, key: &str) -> bool
    requires { bytes_eq (str_to_ascii_lowercase key.now) key.now ≡ true }
    ensures { result ≡ is_named (option_map str_to_ascii_lowercase (header_of (option_map (λ b. binding_data b.now) binding.entry)))
        (joined prefix.now key.now) }
{
    match binding {
        Some(binding) => is_bound_to_field(binding, prefix, key),
        None => false,
    }
}

fn is_bound_to_field(binding: &Binding, prefix: &str, key: &str) -> bool
    requires { bytes_eq (str_to_ascii_lowercase key.now) key.now ≡ true }
    ensures { result ≡ is_named (option_map str_to_ascii_lowercase (header_of (Some (binding_data binding.now))))
        (joined prefix.now key.now) }
{
    match binding {
        Binding::Header(name) => is_joined(name.as_str(), prefix, key),
        Binding::Label => false,
        Binding::Query(_) => false,
        Binding::QueryParams => false,
        Binding::PrefixHeaders(_) => false,
        Binding::Payload => false,
        Binding::ResponseCode => false,
    }
}

// Whether a name is that of a prefix and a key, whatever the case of its letters.
fn is_joined(name: &str, prefix: &str, key: &str) -> bool
    requires { bytes_eq (str_to_ascii_lowercase key.now) key.now ≡ true }
    ensures { result ≡ bytes_eq (joined prefix.now key.now) (str_to_ascii_lowercase name.now) }
{
    if name.len() < prefix.len() {
        return false;
    }
    let (front, back) = name.as_bytes().split_at(prefix.len());
    folds_to(prefix.as_bytes(), front) && folds_to(key.as_bytes(), back)
}
