// Passing the rows that begin as one that misses, and miss as it does.
ghost use Rattle.std.specs.Prelude.{◌≡◌, ◌<◌, ◌≤◌, IfSome, IsTrue, length};
ghost use Rattle.sm_routes.specs.steps.Passing.{BeginsAlike, IsPassedTo, RowStandsSo, StandsSo, is_alike};

use crate::route::Route;
use crate::stand::{both_miss, stand_to};
use crate::walk::Stop;
use sm_uri::Segment;

/// The last of a run of rows that begin as the first one, from there on, and stand to the path as it does. Log n looks; no memory.
pub(crate) fn passed(rows: &[Route], first: &[Segment], stop: &Stop<'_>, at: usize) -> usize
    requires within { at < length rows.now }
    requires so { RowStandsSo rows.now first.now stop.now at }
    ensures { IsPassedTo rows.now first.now stop.now at result }
{
    let mut known = at;
    let mut step = 1;
    'steps: loop {
        if step >= rows.len() - known {
            return halved(rows, first, stop, known, rows.len());
        }
        let next = known + step;
        if !stands_so(rows[next].uri.segments.as_slice(), first, stop) {
            return halved(rows, first, stop, known, next);
        }
        known = next;
        step = step.saturating_mul(STEP_GROWTH);
    }
}

// By how much each step of a search is longer than the one before.
const STEP_GROWTH: usize = 8;

// The last of them before an end, by halves.
fn halved(rows: &[Route], first: &[Segment], stop: &Stop<'_>, from: usize, to: usize) -> usize
    requires some { from < to }
    requires within { to ≤ length rows.now }
    requires so { RowStandsSo rows.now first.now stop.now from }
    ensures { IsPassedTo rows.now first.now stop.now from result }
{
    let mut known = from;
    let mut end = to;
    'halves: loop {
        let half = (end - known) / 2;
        if half == 0 {
            return known;
        }
        let middle = known + half;
        if stands_so(rows[middle].uri.segments.as_slice(), first, stop) {
            known = middle;
        } else {
            end = middle;
        }
    }
}

// Whether a pattern begins as the first one, and stands to the path as it does.
fn stands_so(segments: &[Segment], first: &[Segment], stop: &Stop<'_>) -> bool
    ensures { IsTrue result → StandsSo first.now stop.now segments.now }
{
    match behind_alike(first, segments, stop.depth) {
        Some(own) => both_miss(stand_to(own, stop.piece), stop.stand),
        None => false,
    }
}

// What is behind the first segments of a pattern, if they are alike to the first one's.
fn behind_alike<'a>(first: &[Segment], other: &'a [Segment], depth: usize) -> Option<&'a [Segment]>
    ensures { IfSome result (λ rest. BeginsAlike first.now other.now depth rest.now) }
{
    let mut firsts = first;
    let mut others = other;
    let mut left = depth;
    'segments: loop {
        if left == 0 {
            return Some(others);
        }
        let (one, more) = match firsts.split_first() {
            Some((one, more)) => (one, more),
            None => return None,
        };
        let (two, rest) = match others.split_first() {
            Some((two, rest)) => (two, rest),
            None => return None,
        };
        if !is_alike(one, two) {
            return None;
        }
        firsts = more;
        others = rest;
        left -= 1;
    }
}

fn is_alike(one: &Segment, other: &Segment) -> bool
    ensures { result ≡ is_alike one.now other.now }
{
    match one {
        Segment::Literal(text) => match other {
            Segment::Literal(second) => text.as_str() == second.as_str(),
            Segment::Label(_) => false,
            Segment::Greedy(_) => false,
        },
        Segment::Label(_) => match other {
            Segment::Literal(_) => false,
            Segment::Label(_) => true,
            Segment::Greedy(_) => false,
        },
        Segment::Greedy(_) => false,
    }
}
