// Whether the segments of a pattern match a path.
ghost use Rattle.std.specs.Prelude.{◌≡◌, ◌≤◌, ◌<◌, ℕ, List, length};
ghost use Rattle.std.specs.List.{slice_split};
ghost use Rattle.sm_uri.specs.declared.pattern.Segment.TheVariants.{Greedy};
ghost use Rattle.sm_parts.specs.Targets.{is_slash};
ghost use Rattle.sm_routes.specs.Routes.{segments_match};
ghost use Rattle.sm_routes.specs.steps.Matching.{IsCutAfter, IsLeftOf, StepsTo, pieces_left};

use sm_parts::{Cut, cut_at, decodes_to};
use sm_uri::Segment;

/// What is left of a path behind its first slash: nothing of `/` alone; `None` where it doesn't begin with one. No memory.
pub(crate) fn left_behind_slash(path: &[u8]) -> Option<Option<&[u8]>>
    ensures { IsLeftOf path.now result }
{
    match path.split_first() {
        Some((first, rest)) => {
            if *first != b'/' {
                return None;
            }
            if rest.is_empty() {
                return Some(None);
            }
            Some(Some(rest))
        }
        None => None,
    }
}

/// Whether segments of a pattern match those of a path, which stand behind a slash: none where none is left. No memory.
pub(crate) fn segments_match(segments: &[Segment], path: Option<&[u8]>) -> bool
    ensures { result ≡ segments_match segments.now (pieces_left path.entry) }
{
    let mut own = segments;
    let mut left = path;
    'segments: loop {
        let (segment, more) = match own.split_first() {
            Some((segment, more)) => (segment, more),
            None => return left.is_none(),
        };
        let rest = match left {
            Some(rest) => rest,
            None => return false,
        };
        left = match take_segment(segment, more, rest) {
            Step::Ends(matches) => return matches,
            Step::Goes(behind) => behind,
        };
        own = more;
    }
}

// What a segment of a pattern comes to at the first segments of a path.
enum Step<'a> {
    // Whether it matches with all that stands behind it.
    Ends(bool),
    // It matches one, behind which this is left for the others.
    Goes(Option<&'a [u8]>),
}

fn take_segment<'a>(segment: &Segment, more: &[Segment], rest: &'a [u8]) -> Step<'a>
    ensures { StepsTo segment.now more.now rest.now result }
{
    match segment {
        Segment::Literal(text) => {
            let piece = cut_at(rest, b'/');
            if decodes_to(piece.taken, text.as_str().as_bytes()) {
                return Step::Goes(piece.behind);
            }
            Step::Ends(false)
        }
        Segment::Label(_) => {
            let piece = cut_at(rest, b'/');
            if piece.taken.is_empty() {
                return Step::Ends(false);
            }
            Step::Goes(piece.behind)
        }
        Segment::Greedy(_) => take_greedy(more, rest),
    }
}

// A greedy label takes all segments but those that are left for the literals behind it.
fn take_greedy<'a>(more: &[Segment], rest: &'a [u8]) -> Step<'a>
    ensures { (name : List ℕ) → StepsTo (Greedy name) more.now rest.now result }
{
    let count = piece_count(rest);
    if more.len() >= count {
        return Step::Ends(false);
    }
    let text = cut_after(rest, count - more.len());
    if text.taken.is_empty() {
        return Step::Ends(false);
    }
    Step::Goes(text.behind)
}

/// How many segments a path has, behind its first slash. Linear; no memory.
pub(crate) fn piece_count(path: &[u8]) -> usize
    ensures { result ≡ length (slice_split is_slash path.now) }
{
    let mut count = 1;
    for byte in path {
        if *byte == b'/' {
            count += 1;
        }
    }
    count
}

/// The first so many segments of a path with the slashes between them, and what is left behind the next slash. No memory.
pub(crate) fn cut_after(path: &[u8], count: usize) -> Cut<'_>
    requires some { 0 < count }
    requires within { count ≤ length (slice_split is_slash path.now) }
    ensures { IsCutAfter count path.now result }
{
    let mut len = 0;
    let mut left = count;
    'pieces: loop {
        let piece = cut_at(&path[len..], b'/');
        let behind = match piece.behind {
            Some(behind) => behind,
            None => {
                return Cut {
                    taken: path,
                    behind: None,
                };
            }
        };
        len += piece.taken.len();
        left -= 1;
        if left == 0 {
            return Cut {
                taken: &path[..len],
                behind: Some(behind),
            };
        }
        len += 1;
    }
}
