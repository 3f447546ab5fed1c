// Copies of patterns of URIs.
ghost use Rattle.std.specs.Prelude.{◌≡◌, IfOk};
ghost use Rattle.sm_uri.specs.UriPattern.{uri_said};

use sm_tree::{NoMemory, Text};
use sm_uri::{Segment, UriPattern};
use std::alloc::Global;

fn copy_segment(alloc: Global, segment: &Segment) -> Result<Segment, NoMemory>
    ensures { IfOk result (λ copy. copy ≡ segment.now) }
{
    match segment {
        Segment::Literal(text) => Ok(Segment::Literal(Text::copy(alloc, text.as_str())?)),
        Segment::Label(name) => Ok(Segment::Label(Text::copy(alloc, name.as_str())?)),
        Segment::Greedy(name) => Ok(Segment::Greedy(Text::copy(alloc, name.as_str())?)),
    }
}

fn copy_segments(alloc: Global, segments: &[Segment]) -> Result<Vec<Segment>, NoMemory>
    ensures { IfOk result (λ copies. copies.items ≡ segments.now) }
{
    let mut copies = Vec::new(alloc);
    for segment in segments {
        copies.push(copy_segment(alloc, segment)?)?;
    }
    Ok(copies)
}

fn copy_value(alloc: Global, value: &Option<Text>) -> Result<Option<Text>, NoMemory>
    ensures { IfOk result (λ copy. copy ≡ value.now) }
{
    match value {
        Some(text) => Ok(Some(Text::copy(alloc, text.as_str())?)),
        None => Ok(None),
    }
}

fn copy_literal(
    alloc: Global,
    literal: &(Text, Option<Text>),
) -> Result<(Text, Option<Text>), NoMemory>
    ensures { IfOk result (λ copy. copy ≡ literal.now) }
{
    let key = Text::copy(alloc, literal.0.as_str())?;
    let value = copy_value(alloc, &literal.1)?;
    Ok((key, value))
}

fn copy_literals(
    alloc: Global,
    literals: &[(Text, Option<Text>)],
) -> Result<Vec<(Text, Option<Text>)>, NoMemory>
    ensures { IfOk result (λ copies. copies.items ≡ literals.now) }
{
    let mut copies = Vec::new(alloc);
    for literal in literals {
        copies.push(copy_literal(alloc, literal)?)?;
    }
    Ok(copies)
}

/// A copy of a pattern.
///
/// # Errors
///
/// `NoMemory`.
pub(crate) fn copy_uri(alloc: Global, uri: &UriPattern) -> Result<UriPattern, NoMemory>
    ensures { IfOk result (λ copy. uri_said copy ≡ uri_said uri.now) }
{
    let segments = copy_segments(alloc, uri.segments.as_slice())?;
    let literals = copy_literals(alloc, uri.literals.as_slice())?;
    Ok(UriPattern { segments, literals })
}
