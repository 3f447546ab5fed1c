// Whether the literals of a pattern's query stand in a target.
ghost use Rattle.std.specs.Prelude.{◌≡◌, ◌∷◌, []};
ghost use Rattle.std.specs.List.{list_any};
ghost use Rattle.sm_parts.specs.Targets.{pairs_of, query_pairs};
ghost use Rattle.std.specs.Str.{bytes_eq};
ghost use Rattle.percent_encoding.specs.Percent.{percent_decode};
ghost use Rattle.sm_parts.specs.Cuts.{bytes_behind};
ghost use Rattle.sm_routes.specs.Routes.{is_pair, literal_pair, literals_stand};

use sm_parts::{cut_at, decodes_to};
use sm_tree::{Bytes, Text};

/// Whether each literal stands among the pairs of a query. Linear in the query for each; no memory.
pub(crate) fn literals_stand(literals: &[(Text, Option<Text>)], query: &[u8]) -> bool
    ensures { result ≡ literals_stand literals.now (query_pairs query.now) }
{
    for literal in literals {
        if !literal_stands(literal, query) {
            return false;
        }
    }
    true
}

// Whether a literal stands among the pairs.
fn literal_stands(literal: &(Text, Option<Text>), query: &[u8]) -> bool
    ensures { result ≡ list_any (is_pair (literal_pair literal.now)) (query_pairs query.now) }
{
    let mut rest = query;
    'pairs: loop {
        let piece = cut_at(rest, b'&');
        if is_literal(literal, piece.taken) {
            return true;
        }
        rest = match piece.behind {
            Some(behind) => behind,
            None => return false,
        };
    }
}

// Whether a piece of a query is the literal.
fn is_literal(literal: &(Text, Option<Text>), piece: &[u8]) -> bool
    ensures { result ≡ list_any (is_pair (literal_pair literal.now)) (pairs_of (piece.now ∷ [])) }
{
    if piece.is_empty() {
        return false;
    }
    let cut = cut_at(piece, b'=');
    if !decodes_to(cut.taken, literal.0.as_str().as_bytes()) {
        return false;
    }
    is_value(literal, cut.behind)
}

// Whether what stands behind the `=` of a pair, if anything does, is the literal's value.
fn is_value(literal: &(Text, Option<Text>), value: Option<&[u8]>) -> bool
    ensures { result ≡ bytes_eq (percent_decode (bytes_behind value.entry)) (literal_pair literal.now).1 }
{
    match value {
        Some(bytes) => match &literal.1 {
            Some(text) => decodes_to(bytes, text.as_str().as_bytes()),
            None => decodes_to(bytes, b""),
        },
        None => match &literal.1 {
            Some(text) => decodes_to(b"", text.as_str().as_bytes()),
            None => decodes_to(b"", b""),
        },
    }
}

/// Whether a pair is the literal, which without a value has the empty one.
pub(crate) fn is_pair(literal: &(Text, Option<Text>), pair: &(Bytes, Bytes)) -> bool
    ensures { result ≡ is_pair (literal_pair literal.now) pair.now }
{
    pair.0.as_slice() == literal.0.as_str().as_bytes()
        && pair.1.as_slice() == literal_value(literal)
}

fn literal_value(literal: &(Text, Option<Text>)) -> &[u8]
    ensures { result.now ≡ (literal_pair literal.now).1 }
{
    match &literal.1 {
        Some(value) => value.as_str().as_bytes(),
        None => b"",
    }
}
