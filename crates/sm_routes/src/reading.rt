// What stands in a target for the labels of a pattern, and the pairs of the query that its literals leave.
ghost use Rattle.std.specs.Prelude.{◌≡◌, ◌++◌, ◌∷◌, [], IfOk, List, OnOk, length};
ghost use Rattle.std.specs.List.{slice_split};
ghost use Rattle.percent_encoding.specs.Percent.{percent_decode};
ghost use Rattle.sm_uri.specs.UriPattern.{uri_said};
ghost use Rattle.sm_uri.specs.declared.pattern.Segment.{Segment};
ghost use Rattle.sm_uri.specs.declared.pattern.Segment.TheVariants.{Greedy};
ghost use Rattle.sm_parts.specs.Targets.{is_slash};
ghost use Rattle.sm_routes.specs.Routes.{labels_of, literal_pair, without_first};
ghost use Rattle.sm_routes.specs.WrittenTargets.{pairs_left, target_labels};
ghost use Rattle.sm_routes.specs.steps.Matching.{pieces_left};
ghost use Rattle.sm_routes.specs.steps.Writing.{IsPairPlace};

use crate::matching::{cut_after, left_behind_slash, piece_count};
use crate::query::is_pair;
use sm_parts::{cut_at, decoded, path_of, query_of, query_pairs};
use sm_tree::{Bytes, NoMemory, Text};
use sm_uri::{Segment, UriPattern};
use std::alloc::Global;

/// The names of a pattern's labels, and what stands for them in a target that it matches, decoded. Linear.
///
/// # Errors
///
/// `NoMemory`.
pub fn labels(
    alloc: Global,
    uri: &UriPattern,
    target: &[u8],
) -> Result<Vec<(Text, Bytes)>, NoMemory>
    ensures { IfOk result (λ labels. labels.items ≡ target_labels (uri_said uri.now) target.now) }
{
    let mut labels = Vec::new(alloc);
    let mut own = uri.segments.as_slice();
    let mut left = match left_behind_slash(path_of(target)) {
        Some(left) => left,
        None => return Ok(labels),
    };
    'segments: loop {
        let (segment, more) = match own.split_first() {
            Some((segment, more)) => (segment, more),
            None => return Ok(labels),
        };
        let rest = match left {
            Some(rest) => rest,
            None => return Ok(labels),
        };
        left = put_label(alloc, segment, more.len(), rest, &mut labels)?;
        own = more;
    }
}

// Puts the label that a segment is, if it is one; and what is left of the path behind it.
fn put_label<'a>(
    alloc: Global,
    segment: &Segment,
    behind: usize,
    rest: &'a [u8],
    labels: &mut Vec<(Text, Bytes)>,
) -> Result<Option<&'a [u8]>, NoMemory>
    ensures { IfOk result (λ left. (more : List Segment) → length more ≡ behind
        → labels.new.items ++ labels_of more (pieces_left left) ≡ labels.old.items ++ labels_of (segment.now ∷ more) (slice_split is_slash rest.now)) }
{
    match segment {
        Segment::Literal(_) => Ok(cut_at(rest, b'/').behind),
        Segment::Label(name) => {
            let piece = cut_at(rest, b'/');
            push_label(alloc, name, piece.taken, labels)?;
            Ok(piece.behind)
        }
        Segment::Greedy(name) => put_greedy(alloc, name, behind, rest, labels),
    }
}

// A greedy label has all segments but those that are left for the ones behind it.
fn put_greedy<'a>(
    alloc: Global,
    name: &Text,
    behind: usize,
    rest: &'a [u8],
    labels: &mut Vec<(Text, Bytes)>,
) -> Result<Option<&'a [u8]>, NoMemory>
    ensures { IfOk result (λ left. (more : List Segment) → length more ≡ behind
        → labels.new.items ++ labels_of more (pieces_left left) ≡ labels.old.items ++ labels_of (Greedy name.now ∷ more) (slice_split is_slash rest.now)) }
{
    let count = piece_count(rest);
    if behind >= count {
        push_label(alloc, name, b"", labels)?;
        return Ok(Some(rest));
    }
    let text = cut_after(rest, count - behind);
    push_label(alloc, name, text.taken, labels)?;
    Ok(text.behind)
}

fn push_label(
    alloc: Global,
    name: &Text,
    text: &[u8],
    labels: &mut Vec<(Text, Bytes)>,
) -> Result<(), NoMemory>
    ensures { OnOk result (labels.new.items ≡ labels.old.items ++ (name.now, percent_decode text.now) ∷ []) }
{
    let name = Text::copy(alloc, name.as_str())?;
    let text = decoded(alloc, text)?;
    labels.push((name, text))?;
    Ok(())
}

/// The pairs of a target's query, decoded, without those that the literals of a pattern take: each the first equal one that no earlier literal
/// took. Linear in the query for each literal.
///
/// # Errors
///
/// `NoMemory`.
pub fn pairs_left(
    alloc: Global,
    uri: &UriPattern,
    target: &[u8],
) -> Result<Vec<(Bytes, Bytes)>, NoMemory>
    ensures { IfOk result (λ pairs. pairs.items ≡ pairs_left (uri_said uri.now) target.now) }
{
    let mut pairs = query_pairs(alloc, query_of(target))?;
    for literal in uri.literals.as_slice() {
        take_pair(&mut pairs, literal);
    }
    Ok(pairs)
}

// Takes the first pair that is this literal.
fn take_pair(pairs: &mut Vec<(Bytes, Bytes)>, literal: &(Text, Option<Text>))
    ensures { pairs.new.items ≡ without_first (literal_pair literal.now) pairs.old.items }
{
    match pair_place(pairs.as_slice(), literal) {
        Some(place) => {
            let _taken = pairs.remove(place);
        }
        None => {}
    }
}

// The place of the first pair that is this literal.
fn pair_place(pairs: &[(Bytes, Bytes)], literal: &(Text, Option<Text>)) -> Option<usize>
    ensures { IsPairPlace (literal_pair literal.now) pairs.now result }
{
    for (place, pair) in pairs.iter().enumerate() {
        if is_pair(literal, pair) {
            return Some(place);
        }
    }
    None
}
