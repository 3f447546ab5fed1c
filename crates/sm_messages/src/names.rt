// Names of errors, and of operations.
ghost use Rattle.std.specs.Prelude.{◌≡◌, ◌<◌, ◌^◌, ◌++◌, List, MatchOption, Some, length, map, slice_get, ℕ};
ghost use Rattle.std.specs.List.{Contains};
ghost use Rattle.std.specs.List.Sorted.{IsStrictlySortedBy};
ghost use Rattle.std.specs.Option.{option_map};
ghost use Rattle.sm_model.specs.Graphs.{text_cmp};
ghost use Rattle.sm_shapes.specs.Names.{AllDiffer};
ghost use Rattle.sm_tree.specs.Node.{members_of};
ghost use Rattle.sm_tree.specs.View.{members_view, node_of};
ghost use Rattle.sm_service.specs.ErrorOrder.{place_named};
ghost use Rattle.sm_service.specs.ServiceData.{name_of_error};
ghost use Rattle.sm_service.specs.ServiceView.{operations_view};
ghost use Rattle.sm_messages.specs.Names.{AreErrorIds, error_name, text_among, text_under, told_by_body, told_by_head, without_namespace};

use sm_bytes::{ByteClass, run_len};
use sm_http::Head;
use sm_service::{Errors, Operation, Operations};
use sm_tree::{Text, Tree};
use std::cmp::Ordering;

// All bytes but the colon before what is dropped.
struct NameBytes;

impl ByteClass for NameBytes {
    ghost use Rattle.std.specs.Prelude.{not};
    ghost use Rattle.sm_bytes.specs.Ascii.{colon};
    ghost use Rattle.sm_ids.specs.TextParts.{is_byte};

    ghost holds = { λ c. not (is_byte colon c) };

    fn has(byte: u8) -> bool {
        byte != b':'
    }
}

// All bytes but the sign behind a namespace.
struct NamespaceBytes;

impl ByteClass for NamespaceBytes {
    ghost use Rattle.std.specs.Prelude.{not};
    ghost use Rattle.sm_bytes.specs.Ascii.{number_sign};
    ghost use Rattle.sm_ids.specs.TextParts.{is_byte};

    ghost holds = { λ c. not (is_byte number_sign c) };

    fn has(byte: u8) -> bool {
        byte != b'#'
    }
}

// What stands behind the first `#`, or all where there is none.
fn without_namespace(name: &[u8]) -> &[u8]
    ensures { result.now ≡ without_namespace name.now }
{
    let len = run_len::<NamespaceBytes>(name);
    if len == name.len() {
        return name;
    }
    &name[len + 1..]
}

/// The name that a text tells: without all from the first `:` on, then without all up to the first `#`. No memory.
pub fn error_name(told: &[u8]) -> &[u8]
    ensures { result.now ≡ error_name told.now }
{
    without_namespace(&told[..run_len::<NameBytes>(told)])
}

/// The place of the error that a text tells. By halves, no memory.
pub fn error_told(errors: &Errors, told: &[u8]) -> Option<usize>
    requires few { length errors.now < 2 ^ 32 }
    requires differ { AllDiffer (map name_of_error errors.now) }
    requires ids { AreErrorIds errors.now }
    ensures { result ≡ place_named errors.now (error_name told.now) }
{
    match std::str::from_utf8(error_name(told)) {
        Ok(name) => errors.named(name),
        Err(_) => None,
    }
}

/// The place of the operation of a name. By halves, no memory.
pub fn operation_named(operations: &Operations, name: &[u8]) -> Option<u32>
    requires few { length (operations_view operations.now) < 2 ^ 32 }
    requires order { IsStrictlySortedBy text_cmp (map (λ o. o.name) (operations_view operations.now)) }
    ensures { MatchOption result
        (Contains (map (λ o. o.name) (operations_view operations.now)) name.now → ⊥)
        (λ place. slice_get (map (λ o. o.name) (operations_view operations.now)) place ≡ Some name.now) }
{
    place_of(operations.as_slice(), name)
}

fn place_of(operations: &[Operation], name: &[u8]) -> Option<u32>
    requires few { length operations.now < 2 ^ 32 }
    requires order { IsStrictlySortedBy text_cmp (map (λ o. o.name) operations.now) }
    ensures { MatchOption result
        (Contains (map (λ o. o.name) operations.now) name.now → ⊥)
        (λ place. slice_get (map (λ o. o.name) operations.now) place ≡ Some name.now) }
{
    match operations.binary_search_by(|operation| order_of(
        operation.name.as_str().as_bytes(),
        name,
    )) {
        Ok(at) => Some(at as u32),
        Err(_) => None,
    }
}

fn order_of(a: &[u8], b: &[u8]) -> Ordering
    ensures { result ≡ text_cmp a.now b.now }
{
    a.cmp(b)
}

/// The first text that stands under a name in an object. No memory.
pub fn text_under<'a>(tree: &'a Tree, name: &str) -> Option<&'a str>
    ensures { option_map (λ text. text.now) result ≡ text_under name.now (node_of tree.now) }
{
    match tree {
        Tree::Object(pairs) => text_among(pairs.as_slice(), name),
        _ => None,
    }
}

fn text_among<'a>(pairs: &'a [(Text, Tree)], name: &str) -> Option<&'a str>
    ensures { option_map (λ text. text.now) result ≡ text_among name.now (members_of (members_view pairs.now)) }
{
    for pair in pairs {
        if let Tree::Text(text) = &pair.1
            && pair.0.as_str() == name
        {
            return Some(text.as_str());
        }
    }
    None
}

/// The text that a head tells an error with, where a field may: that of the first `x-amzn-errortype`. No memory.
pub fn told_by_head(head: &Head) -> Option<&[u8]>
    ensures { option_map (λ text. text.now) result ≡ told_by_head head.now }
{
    head.fields.first("x-amzn-errortype")
}

/// The text that a body tells an error with: the first under `__type`, else the first under `code`. No memory.
pub fn told_by_body(tree: &Tree) -> Option<&str>
    ensures { option_map (λ text. text.now) result ≡ told_by_body (node_of tree.now) }
{
    match text_under(tree, "__type") {
        Some(text) => Some(text),
        None => text_under(tree, "code"),
    }
}

/// What stands behind a text that another begins with. No memory.
pub fn behind_text<'a>(text: &[u8], whole: &'a [u8]) -> Option<&'a [u8]>
    ensures { MatchOption result
        ((rest : List ℕ) → whole.now ≡ text.now ++ rest → ⊥)
        (λ rest. whole.now ≡ text.now ++ rest.now) }
{
    whole.strip_prefix(text)
}
