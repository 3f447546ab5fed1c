// How a pattern of which some segments are left stands to the next segment of a path.
ghost use Rattle.std.specs.Prelude.{◌≡◌, IsTrue, Some, None};
ghost use Rattle.std.specs.Option.{option_copied};
ghost use Rattle.percent_encoding.specs.Percent.{percent_decode};
ghost use Rattle.sm_model.specs.Graphs.{text_cmp};
ghost use Rattle.sm_routes.specs.steps.Passing.{is_wide, literal_stand, misses, segment_stand, stand_of};

use percent_encoding::percent_decode;
use sm_uri::Segment;
use std::cmp::Ordering;

/// How a pattern stands to the next segment of a path, in the order in which routes are kept.
#[derive(Debug, Clone, Copy, Drop)]
pub(crate) enum Stand {
    /// Its next segment is a smaller literal; or any, where the path has ended.
    Under,
    /// Its next segment is this literal; or it has ended, where the path has.
    Alike,
    /// Its next segment is a greater literal, or a label that can't take the path's since that is empty.
    Over,
    /// Its next segment is a label that takes the path's.
    Open,
    /// Its next segment is a greedy label.
    Wide,
    /// It has ended, and the path hasn't.
    Short,
}

/// How a pattern of which these segments are left stands to the next segment of a path: none where the path has ended.
pub(crate) fn stand_to(own: &[Segment], piece: Option<&[u8]>) -> Stand
    ensures { result ≡ stand_of own.now (option_copied piece.entry) }
{
    match piece {
        Some(piece) => stand_within(own, piece),
        None => stand_behind(own),
    }
}

// Where the path has ended.
fn stand_behind(own: &[Segment]) -> Stand
    ensures { result ≡ stand_of own.now None }
{
    match own.split_first() {
        Some(_) => Stand::Under,
        None => Stand::Alike,
    }
}

fn stand_within(own: &[Segment], piece: &[u8]) -> Stand
    ensures { result ≡ stand_of own.now (Some piece.now) }
{
    match own.split_first() {
        Some((segment, _)) => segment_stand(segment, piece),
        None => Stand::Short,
    }
}

fn segment_stand(segment: &Segment, piece: &[u8]) -> Stand
    ensures { result ≡ segment_stand segment.now piece.now }
{
    match segment {
        Segment::Literal(text) => literal_stand(text_order(text.as_str().as_bytes(), piece)),
        Segment::Label(_) => {
            if piece.is_empty() {
                return Stand::Over;
            }
            Stand::Open
        }
        Segment::Greedy(_) => Stand::Wide,
    }
}

fn literal_stand(order: Ordering) -> Stand
    ensures { result ≡ literal_stand order }
{
    match order {
        Ordering::Less => Stand::Under,
        Ordering::Equal => Stand::Alike,
        Ordering::Greater => Stand::Over,
    }
}

// The order of a text and of one that is written with escapes.
fn text_order(text: &[u8], escaped: &[u8]) -> Ordering
    ensures { result ≡ text_cmp text.now (percent_decode escaped.now) }
{
    let mut decoded = percent_decode(escaped);
    for byte in text {
        match decoded.next() {
            Some(other) => match byte.cmp(&other) {
                Ordering::Less => return Ordering::Less,
                Ordering::Greater => return Ordering::Greater,
                Ordering::Equal => {}
            },
            None => return Ordering::Greater,
        }
    }
    match decoded.next() {
        Some(_) => Ordering::Less,
        None => Ordering::Equal,
    }
}

/// Whether what stands so doesn't match.
pub(crate) fn misses(stand: Stand) -> bool
    ensures { result ≡ misses stand }
{
    match stand {
        Stand::Under => true,
        Stand::Alike => false,
        Stand::Over => true,
        Stand::Open => false,
        Stand::Wide => false,
        Stand::Short => true,
    }
}

/// Whether a greedy label comes next.
pub(crate) fn is_wide(stand: Stand) -> bool
    ensures { result ≡ is_wide stand }
{
    match stand {
        Stand::Under => false,
        Stand::Alike => false,
        Stand::Over => false,
        Stand::Open => false,
        Stand::Wide => true,
        Stand::Short => false,
    }
}

/// Whether both stand alike, and miss.
pub(crate) fn both_miss(one: Stand, other: Stand) -> bool
    ensures { IsTrue result → one ≡ other }
{
    match one {
        Stand::Under => matches!(other, Stand::Under),
        Stand::Over => matches!(other, Stand::Over),
        Stand::Short => matches!(other, Stand::Short),
        Stand::Alike => false,
        Stand::Open => false,
        Stand::Wide => false,
    }
}
