// The text by which patterns of URIs are compared as routes: that of the pattern whose labels all have one name.
ghost use Rattle.std.specs.Prelude.{◌≡◌, ◌++◌, IfOk, OnOk, map, string_bytes};
ghost use Rattle.std.specs.List.{flat_map};
ghost use Rattle.sm_uri.specs.UriPattern.{literal_text, more_text, path_text, printed_uri, query_text, segment_text, uri_said};
ghost use Rattle.sm_uri.specs.UriRoutes.{one_named, unnamed};

use crate::pattern::{Segment, UriPattern};
use sm_tree::{NoMemory, Text};
use std::alloc::Global;

/// The text of a pattern in which every label is named `a`: equal for two patterns exactly where they are equal but for the names of
/// their labels (`laws::routes_by_texts`). Linear in the pattern.
pub fn route_text(alloc: Global, pattern: &UriPattern) -> Result<Text, NoMemory>
    ensures { IfOk result (λ text. text ≡ printed_uri (unnamed (uri_said pattern.now))) }
{
    let mut out = String::new(alloc);
    put_path(&mut out, pattern.segments.as_slice())?;
    put_query(&mut out, pattern.literals.as_slice())?;
    Ok(Text::new(out))
}

fn put_path(out: &mut String, segments: &[Segment]) -> Result<(), NoMemory>
    ensures { OnOk result (string_bytes out.new ≡ string_bytes out.old ++ path_text (map one_named segments.now)) }
{
    if segments.is_empty() {
        out.push_str("/")?;
        return Ok(());
    }
    put_segments(out, segments)
}

fn put_segments(out: &mut String, segments: &[Segment]) -> Result<(), NoMemory>
    ensures { OnOk result (string_bytes out.new ≡ string_bytes out.old ++ flat_map segment_text (map one_named segments.now)) }
{
    for segment in segments {
        put_segment(out, segment)?;
    }
    Ok(())
}

fn put_segment(out: &mut String, segment: &Segment) -> Result<(), NoMemory>
    ensures { OnOk result (string_bytes out.new ≡ string_bytes out.old ++ segment_text (one_named segment.now)) }
{
    match segment {
        Segment::Literal(text) => {
            out.push_str("/")?;
            out.push_str(text.as_str())?;
        }
        Segment::Label(_) => out.push_str("/{a}")?,
        Segment::Greedy(_) => out.push_str("/{a+}")?,
    }
    Ok(())
}

fn put_query(out: &mut String, literals: &[(Text, Option<Text>)]) -> Result<(), NoMemory>
    ensures { OnOk result (string_bytes out.new ≡ string_bytes out.old ++ query_text literals.now) }
{
    match literals.split_first() {
        Some((first, more)) => {
            out.push_str("?")?;
            put_literal(out, first)?;
            put_more(out, more)
        }
        None => Ok(()),
    }
}

// Literals behind the first.
fn put_more(out: &mut String, literals: &[(Text, Option<Text>)]) -> Result<(), NoMemory>
    ensures { OnOk result (string_bytes out.new ≡ string_bytes out.old ++ more_text literals.now) }
{
    for literal in literals {
        out.push_str("&")?;
        put_literal(out, literal)?;
    }
    Ok(())
}

fn put_literal(out: &mut String, literal: &(Text, Option<Text>)) -> Result<(), NoMemory>
    ensures { OnOk result (string_bytes out.new ≡ string_bytes out.old ++ literal_text literal.now) }
{
    out.push_str(literal.0.as_str())?;
    match &literal.1 {
        Some(value) => {
            out.push_str("=")?;
            out.push_str(value.as_str())?;
        }
        None => {}
    }
    Ok(())
}
