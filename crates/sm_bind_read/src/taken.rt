// Names of fields and keys of queries that no map of a structure has: they mean something else, or another member has them.
ghost use Rattle.std.specs.Prelude.{◌≡◌, ◌<◌, ◌||◌, ◌∷◌, [], ℕ, List, IfOk, OnOk, drop, map};
ghost use Rattle.std.specs.Option.{option_map};
ghost use Rattle.std.specs.Str.{bytes_eq, str_to_ascii_lowercase};
ghost use Rattle.sm_shapes.specs.TableData.{binding_at, shape_count};
ghost use Rattle.sm_shapes.specs.TableView.{binding_data, table_data};
ghost use Rattle.sm_messages.specs.service.WireMembers.{counted_binding, header_of, query_of};
ghost use Rattle.sm_bind.specs.BindingsView.{bound_side};
ghost use Rattle.sm_bind.specs.BoundView.{bound_of};
ghost use Rattle.sm_bind.specs.Roles.{is_among, is_taken_key, is_taken_name, reserved_names};
ghost use Rattle.sm_bind_read.specs.steps.Taken.{has_text, headers_of, queries_of};

use sm_bind::{BoundPlace, PartSide, counts};
use sm_http::folds_to;
use sm_shapes::tables::{Binding, Table};
use sm_tree::{NoMemory, Text};
use std::alloc::Global;
use std::collections::BTreeSet;

/// Whether no map of prefix headers has the fields of this name, in whichever case it is written. No memory.
pub(crate) fn is_taken_field(place: &BoundPlace<'_>, name: &str) -> bool
    requires { place.now.shape < shape_count (table_data place.now.table.now) }
    ensures { result ≡ is_taken_name (bound_of place.now) (str_to_ascii_lowercase name.now) }
{
    is_reserved(name.as_bytes()) || is_header(place, place.table.members(place.shape), name)
}

// Whether a name is reserved.
fn is_reserved(name: &[u8]) -> bool
    ensures { result ≡ is_among reserved_names (str_to_ascii_lowercase name.now) }
{
    folds_to(name, b"accept")
        || folds_to(name, b"connection")
        || folds_to(name, b"content-encoding")
        || folds_to(name, b"content-length")
        || folds_to(name, b"content-type")
        || is_reserved_behind(name)
}

fn is_reserved_behind(name: &[u8]) -> bool
    ensures { result ≡ is_among (drop 5 reserved_names) (str_to_ascii_lowercase name.now) }
{
    folds_to(name, b"expect")
        || folds_to(name, b"host")
        || folds_to(name, b"keep-alive")
        || folds_to(name, b"smithy-protocol")
        || folds_to(name, b"te")
        || is_reserved_last(name)
}

fn is_reserved_last(name: &[u8]) -> bool
    ensures { result ≡ is_among (drop 10 reserved_names) (str_to_ascii_lowercase name.now) }
{
    folds_to(name, b"trailer")
        || folds_to(name, b"transfer-encoding")
        || folds_to(name, b"upgrade")
        || folds_to(name, b"x-amz-target")
        || folds_to(name, b"x-amzn-errortype")
}

// Whether one of these members is bound to the header.
fn is_header(place: &BoundPlace<'_>, members: &[u32], name: &str) -> bool
    ensures { result ≡ is_among (headers_of (bound_of place.now) members.now) (str_to_ascii_lowercase name.now) }
{
    for member in members {
        if is_header_at(place, *member, name) {
            return true;
        }
    }
    false
}

fn is_header_at(place: &BoundPlace<'_>, member: u32, name: &str) -> bool
    ensures { result ≡ is_among (headers_of (bound_of place.now) (member ∷ [])) (str_to_ascii_lowercase name.now) }
{
    match header_at(place.table, place.side, member) {
        Some(header) => folds_to(name.as_bytes(), header.as_bytes()),
        None => false,
    }
}

// The header to which a member is bound.
fn header_at<'a>(table: &'a Table, side: PartSide, member: u32) -> Option<&'a str>
    ensures { option_map (λ name. name.now) result ≡ header_of (counted_binding (bound_side side) (binding_at (table_data table.now) member)) }
{
    match counted_at(table, side, member) {
        Some(Binding::Header(name)) => Some(name.as_str()),
        Some(Binding::Label) => None,
        Some(Binding::Query(_)) => None,
        Some(Binding::QueryParams) => None,
        Some(Binding::PrefixHeaders(_)) => None,
        Some(Binding::Payload) => None,
        Some(Binding::ResponseCode) => None,
        None => None,
    }
}

// The binding that counts for a member.
fn counted_at<'a>(table: &'a Table, side: PartSide, member: u32) -> Option<&'a Binding>
    ensures { option_map (λ binding. binding_data binding.now) result
        ≡ counted_binding (bound_side side) (binding_at (table_data table.now) member) }
{
    match table.members.as_slice().get(member as usize) {
        Some(row) => counted(&row.binding, side),
        None => None,
    }
}

fn counted<'a>(binding: &'a Option<Binding>, side: PartSide) -> Option<&'a Binding>
    ensures { option_map (λ some. binding_data some.now) result ≡ counted_binding (bound_side side) (option_map binding_data binding.now) }
{
    let counts = counts(binding, side);
    match binding {
        Some(some) => { if counts { Some(some) } else { None } }
        None => None,
    }
}

/// The keys that no query map has, since literals and other members name them. n log n.
///
/// # Errors
///
/// `NoMemory`.
pub(crate) fn taken_keys<'a>(
    alloc: Global,
    place: &BoundPlace<'a>,
) -> Result<BTreeSet<&'a str>, NoMemory>
    requires { place.now.shape < shape_count (table_data place.now.table.now) }
    ensures { IfOk result (λ keys. (key : List ℕ) → has_text keys key ≡ is_taken_key (bound_of place.now) key) }
{
    let mut keys: BTreeSet<&'a str> = BTreeSet::new(alloc);
    put_literals(&mut keys, place.literals)?;
    put_queries(&mut keys, place, place.table.members(place.shape))?;
    Ok(keys)
}

fn put_literals<'a>(
    keys: &mut BTreeSet<&'a str>,
    literals: &'a [(Text, Option<Text>)],
) -> Result<(), NoMemory>
    ensures { OnOk result ((key : List ℕ) → has_text keys.new key
        ≡ (has_text keys.old key || is_among (map (λ l. l.0) literals.now) key)) }
{
    for literal in literals {
        put_key(keys, literal.0.as_str())?;
    }
    Ok(())
}

fn put_queries<'a>(
    keys: &mut BTreeSet<&'a str>,
    place: &BoundPlace<'a>,
    members: &[u32],
) -> Result<(), NoMemory>
    ensures { OnOk result ((key : List ℕ) → has_text keys.new key
        ≡ (has_text keys.old key || is_among (queries_of (bound_of place.now) members.now) key)) }
{
    for member in members {
        put_query(keys, place, *member)?;
    }
    Ok(())
}

fn put_query<'a>(
    keys: &mut BTreeSet<&'a str>,
    place: &BoundPlace<'a>,
    member: u32,
) -> Result<(), NoMemory>
    ensures { OnOk result ((key : List ℕ) → has_text keys.new key
        ≡ (has_text keys.old key || is_among (queries_of (bound_of place.now) (member ∷ [])) key)) }
{
    match query_at(place.table, place.side, member) {
        Some(name) => {
            put_key(keys, name)?;
            Ok(())
        }
        None => Ok(()),
    }
}

fn put_key<'a>(keys: &mut BTreeSet<&'a str>, name: &'a str) -> Result<(), NoMemory>
    ensures { OnOk result ((key : List ℕ) → has_text keys.new key ≡ (has_text keys.old key || bytes_eq key name.now)) }
{
    match keys.insert(name) {
        Ok(_) => Ok(()),
        Err(_) => Err(NoMemory),
    }
}

// The key of a query to which a member is bound.
fn query_at<'a>(table: &'a Table, side: PartSide, member: u32) -> Option<&'a str>
    ensures { option_map (λ name. name.now) result ≡ query_of (counted_binding (bound_side side) (binding_at (table_data table.now) member)) }
{
    match counted_at(table, side, member) {
        Some(Binding::Query(name)) => Some(name.as_str()),
        Some(Binding::Label) => None,
        Some(Binding::QueryParams) => None,
        Some(Binding::Header(_)) => None,
        Some(Binding::PrefixHeaders(_)) => None,
        Some(Binding::Payload) => None,
        Some(Binding::ResponseCode) => None,
        None => None,
    }
}
