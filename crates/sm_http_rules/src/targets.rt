// What members target, by types of shapes.
ghost use Rattle.std.specs.Prelude.{◌≡◌};
ghost use Rattle.std.specs.FinMap as fin;
ghost use Rattle.sm_model.specs.GraphView.{IsShapeNumber, maps_of};
ghost use Rattle.sm_model.specs.Reaching.{id_of_number};
ghost use Rattle.sm_rules.specs.Bindings.{passes, targets};
ghost use Rattle.sm_http_rules.specs.steps.Allowing.{is_payload_kind, is_spelled_kind, test_of};

use sm_compile::{kind_of, target_of};
use sm_model::{Graph, Kind};
use sm_passes::rows::kinds::is_kind;

/// Some types of shapes.
#[derive(Debug, Clone, Copy, PartialEq, Eq, Drop)]
pub enum Wanted {
    /// Types whose values one text of a message spells.
    Spelled,
    /// Strings.
    Text,
    /// Types of payloads.
    Payload,
    /// Integers.
    Integer,
}

/// Whether a member targets a shape of one of these types, or nothing that is there.
pub(crate) fn targets_at(graph: &Graph, wanted: Wanted, member: u32) -> bool
    requires { IsShapeNumber graph.now member }
    ensures { result ≡ targets (passes (test_of wanted)) (maps_of graph.now) (id_of_number graph.now member) }
{
    match target_of(graph, member) {
        Some(target) => passes_at(graph, wanted, target),
        None => true,
    }
}

/// Whether a shape is of one of these types.
pub(crate) fn passes_at(graph: &Graph, wanted: Wanted, number: u32) -> bool
    requires { IsShapeNumber graph.now number }
    ensures { result ≡ passes (test_of wanted) (fin.get (maps_of graph.now).shapes (id_of_number graph.now number)) }
{
    match kind_of(graph, number) {
        Some(kind) => is_wanted(wanted, kind),
        None => false,
    }
}

fn is_wanted(wanted: Wanted, kind: Kind) -> bool
    ensures { result ≡ test_of wanted kind }
{
    match wanted {
        Wanted::Spelled => is_spelled_kind(kind),
        Wanted::Text => is_kind(Kind::Text, kind),
        Wanted::Payload => is_payload_kind(kind),
        Wanted::Integer => is_kind(Kind::Integer, kind),
    }
}

fn is_spelled_kind(kind: Kind) -> bool
    ensures { result ≡ is_spelled_kind kind }
{
    match kind {
        Kind::Text
        | Kind::Enum
        | Kind::Boolean
        | Kind::Byte
        | Kind::Short
        | Kind::Integer
        | Kind::Long
        | Kind::IntEnum
        | Kind::Timestamp => true,
        _ => false,
    }
}

fn is_payload_kind(kind: Kind) -> bool
    ensures { result ≡ is_payload_kind kind }
{
    match kind {
        Kind::Blob
        | Kind::Text
        | Kind::Enum
        | Kind::Structure
        | Kind::Union
        | Kind::List
        | Kind::Map => true,
        _ => false,
    }
}
