// A walk along a pattern and a path, up to the first segment that misses.
ghost use Rattle.std.specs.Prelude.{◌≡◌};
ghost use Rattle.sm_routes.specs.steps.Matching.{pieces_left};
ghost use Rattle.sm_routes.specs.steps.Passing.{IsFirstCut, Walks};

use crate::matching::segments_match;
use crate::stand::{Stand, is_wide, misses, stand_to};
use sm_parts::cut_at;
use sm_uri::Segment;

/// The first segment of what is left of a path, and what is left behind it.
#[derive(Debug, Clone, Copy)]
pub(crate) struct Pieces<'a> {
    first: Option<&'a [u8]>,
    behind: Option<&'a [u8]>,
}

/// Where a pattern misses a path.
#[derive(Debug, Clone, Copy)]
pub(crate) struct Stop<'a> {
    /// So many of its segments take as many of the path's.
    pub(crate) depth: usize,
    /// The path's next one: none where it has ended.
    pub(crate) piece: Option<&'a [u8]>,
    /// How the pattern stands to that.
    pub(crate) stand: Stand,
}

/// What a walk along a pattern and a path comes to.
#[derive(Debug, Clone, Copy)]
pub(crate) enum Walk<'a> {
    /// Whether the pattern matches the path.
    Ends(bool),
    /// It doesn't, and neither does any that begins alike and stands alike here.
    Stops(Stop<'a>),
}

// The first segment of what is left of a path.
fn first_of(left: Option<&[u8]>) -> Pieces<'_>
    ensures { IsFirstCut (pieces_left left.entry) result }
{
    match left {
        Some(rest) => {
            let cut = cut_at(rest, b'/');
            Pieces {
                first: Some(cut.taken),
                behind: cut.behind,
            }
        }
        None => Pieces {
            first: None,
            behind: None,
        },
    }
}

/// A walk along a pattern and what is left of a path. Linear in both; no memory.
pub(crate) fn walk_along<'a>(segments: &[Segment], path: Option<&'a [u8]>) -> Walk<'a>
    ensures { Walks segments.now (pieces_left path.entry) result }
{
    let mut own = segments;
    let mut left = path;
    let mut depth = 0;
    'segments: loop {
        let next = first_of(left);
        let piece = next.first;
        let stand = stand_to(own, piece);
        if misses(stand) {
            return Walk::Stops(Stop {
                depth,
                piece,
                stand,
            });
        }
        if is_wide(stand) {
            return Walk::Ends(segments_match(own, left));
        }
        own = match own.split_first() {
            Some((_, more)) => more,
            None => return Walk::Ends(true),
        };
        left = next.behind;
        depth += 1;
    }
}
