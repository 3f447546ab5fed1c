// Targets as they are written.
ghost use Rattle.std.specs.Prelude.{◌≡◌, ◌++◌, ◌∷◌, [], OnOk, map, string_bytes, true};
ghost use Rattle.std.specs.List.{flat_map};
ghost use Rattle.sm_uri.specs.UriPattern.{uri_said};
ghost use Rattle.sm_parts.specs.Targets.{written_literal, written_pair, written_query};
ghost use Rattle.sm_routes.specs.WrittenTargets.{label_text, written_path, written_segment, written_target};
ghost use Rattle.sm_routes.specs.steps.Writing.{mark, marked};

use sm_parts::{put_escaped, put_escaped_path};
use sm_tree::{Bytes, NoMemory, Text};
use sm_uri::{Segment, UriPattern};

/// Writes a target of a pattern: texts for its labels by their names, its literals, and then these pairs, all escaped.
///
/// # Errors
///
/// `NoMemory`; then a part may be written.
pub fn put_target(
    out: &mut String,
    uri: &UriPattern,
    labels: &[(Text, Bytes)],
    pairs: &[(Bytes, Bytes)],
) -> Result<(), NoMemory>
    ensures { OnOk result (string_bytes out.new ≡ string_bytes out.old ++ written_target (uri_said uri.now) labels.now pairs.now) }
{
    put_parts(
        out,
        uri.segments.as_slice(),
        uri.literals.as_slice(),
        labels,
        pairs,
    )
}

fn put_parts(
    out: &mut String,
    segments: &[Segment],
    literals: &[(Text, Option<Text>)],
    labels: &[(Text, Bytes)],
    pairs: &[(Bytes, Bytes)],
) -> Result<(), NoMemory>
    ensures { OnOk result (string_bytes out.new ≡ string_bytes out.old
        ++ (written_path segments.now labels.now ++ written_query (map written_literal literals.now ++ map written_pair pairs.now))) }
{
    put_path(out, segments, labels)?;
    put_query(out, literals, pairs)
}

fn put_query(
    out: &mut String,
    literals: &[(Text, Option<Text>)],
    pairs: &[(Bytes, Bytes)],
) -> Result<(), NoMemory>
    ensures { OnOk result (string_bytes out.new ≡ string_bytes out.old
        ++ written_query (map written_literal literals.now ++ map written_pair pairs.now)) }
{
    put_literals(out, literals)?;
    put_pairs(out, literals.is_empty(), pairs)
}

fn put_path(
    out: &mut String,
    segments: &[Segment],
    labels: &[(Text, Bytes)],
) -> Result<(), NoMemory>
    ensures { OnOk result (string_bytes out.new ≡ string_bytes out.old ++ written_path segments.now labels.now) }
{
    if segments.is_empty() {
        out.push_str("/")?;
        return Ok(());
    }
    put_segments(out, segments, labels)
}

fn put_segments(
    out: &mut String,
    segments: &[Segment],
    labels: &[(Text, Bytes)],
) -> Result<(), NoMemory>
    ensures { OnOk result (string_bytes out.new ≡ string_bytes out.old ++ flat_map (written_segment labels.now) segments.now) }
{
    for segment in segments {
        put_segment(out, segment, labels)?;
    }
    Ok(())
}

fn put_segment(
    out: &mut String,
    segment: &Segment,
    labels: &[(Text, Bytes)],
) -> Result<(), NoMemory>
    ensures { OnOk result (string_bytes out.new ≡ string_bytes out.old ++ written_segment labels.now segment.now) }
{
    out.push_str("/")?;
    match segment {
        Segment::Literal(text) => put_escaped(out, text.as_str().as_bytes()),
        Segment::Label(name) => put_escaped(out, label_text(name, labels)),
        Segment::Greedy(name) => put_escaped_path(out, label_text(name, labels)),
    }
}

// The text of a label: nothing where there is none of its name.
fn label_text<'a>(name: &Text, labels: &'a [(Text, Bytes)]) -> &'a [u8]
    ensures { result.now ≡ label_text name.now labels.now }
{
    for label in labels {
        if label.0.as_str() == name.as_str() {
            return label.1.as_slice();
        }
    }
    b""
}

// The mark before a piece of a query.
fn put_mark(out: &mut String, is_first: bool) -> Result<(), NoMemory>
    ensures { OnOk result (string_bytes out.new ≡ string_bytes out.old ++ mark is_first ∷ []) }
{
    if is_first {
        out.push_str("?")?;
    } else {
        out.push_str("&")?;
    }
    Ok(())
}

fn put_literals(out: &mut String, literals: &[(Text, Option<Text>)]) -> Result<(), NoMemory>
    ensures { OnOk result (string_bytes out.new ≡ string_bytes out.old ++ marked true (map written_literal literals.now)) }
{
    let mut is_first = true;
    for literal in literals {
        put_mark(out, is_first)?;
        put_literal(out, literal)?;
        is_first = false;
    }
    Ok(())
}

fn put_literal(out: &mut String, literal: &(Text, Option<Text>)) -> Result<(), NoMemory>
    ensures { OnOk result (string_bytes out.new ≡ string_bytes out.old ++ written_literal literal.now) }
{
    put_escaped(out, literal.0.as_str().as_bytes())?;
    match &literal.1 {
        Some(value) => {
            out.push_str("=")?;
            put_escaped(out, value.as_str().as_bytes())
        }
        None => Ok(()),
    }
}

fn put_pairs(out: &mut String, first: bool, pairs: &[(Bytes, Bytes)]) -> Result<(), NoMemory>
    ensures { OnOk result (string_bytes out.new ≡ string_bytes out.old ++ marked first (map written_pair pairs.now)) }
{
    let mut is_first = first;
    for pair in pairs {
        put_mark(out, is_first)?;
        put_escaped(out, pair.0.as_slice())?;
        out.push_str("=")?;
        put_escaped(out, pair.1.as_slice())?;
        is_first = false;
    }
    Ok(())
}
