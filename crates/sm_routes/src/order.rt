// The order in which routes are kept.
ghost use Rattle.std.specs.Prelude.{◌≡◌, []};
ghost use Rattle.sm_routes.specs.KeptOrder.{is_greedy, kept_cmp, literal_bytes, place_cmp, place_of, places_cmp};
ghost use Rattle.sm_routes.specs.RouteView.{route_data};
ghost use Rattle.sm_routes.specs.Routes.{ranks_cmp, route_cmp, segment_rank};

use crate::route::Route;
use sm_uri::Segment;
use std::cmp::Ordering;

/// The order in which two routes are kept.
pub(crate) fn kept_order(one: &Route, other: &Route) -> Ordering
    ensures { result ≡ kept_cmp (route_data one.now) (route_data other.now) }
{
    places_cmp(one.uri.segments.as_slice(), other.uri.segments.as_slice()).then(route_order(
        one, other,
    ))
}

// Which of two routes goes first where both match.
fn route_order(one: &Route, other: &Route) -> Ordering
    ensures { result ≡ route_cmp (route_data one.now) (route_data other.now) }
{
    let (ones, others) = (one.uri.segments.as_slice(), other.uri.segments.as_slice());
    ranks_cmp(ones, others)
        .then(others.len().cmp(&ones.len()))
        .then(other.uri.literals.len().cmp(&one.uri.literals.len()))
        .then(one.name.as_str().cmp(other.name.as_str()))
}

// The order of two paths up to the first greedy label.
fn places_cmp(one: &[Segment], other: &[Segment]) -> Ordering
    ensures { result ≡ places_cmp one.now other.now }
{
    let mut ones = one;
    let mut others = other;
    'places: loop {
        let (first, more) = match ones.split_first() {
            Some((first, more)) => (first, more),
            None => return end_order(others),
        };
        let (second, rest) = match others.split_first() {
            Some((second, rest)) => (second, rest),
            None => return Ordering::Less,
        };
        match place_cmp(first, second) {
            Ordering::Less => return Ordering::Less,
            Ordering::Greater => return Ordering::Greater,
            Ordering::Equal => {}
        }
        if is_greedy(first) {
            return Ordering::Equal;
        }
        ones = more;
        others = rest;
    }
}

// Where a path has ended.
fn end_order(others: &[Segment]) -> Ordering
    ensures { result ≡ places_cmp [] others.now }
{
    match others.split_first() {
        Some(_) => Ordering::Greater,
        None => Ordering::Equal,
    }
}

fn place_cmp(one: &Segment, other: &Segment) -> Ordering
    ensures { result ≡ place_cmp (place_of one.now) (place_of other.now) }
{
    segment_rank(one)
        .cmp(&segment_rank(other))
        .then(literal_text(one).cmp(literal_text(other)))
}

fn literal_text(segment: &Segment) -> &str
    ensures { result.now ≡ literal_bytes segment.now }
{
    match segment {
        Segment::Literal(text) => text.as_str(),
        Segment::Label(_) => "",
        Segment::Greedy(_) => "",
    }
}

fn is_greedy(segment: &Segment) -> bool
    ensures { result ≡ is_greedy segment.now }
{
    match segment {
        Segment::Literal(_) => false,
        Segment::Label(_) => false,
        Segment::Greedy(_) => true,
    }
}

fn segment_rank(segment: &Segment) -> u8
    ensures { result ≡ segment_rank segment.now }
{
    match segment {
        Segment::Literal(_) => 0,
        Segment::Label(_) => 1,
        Segment::Greedy(_) => 2,
    }
}

// The order of two paths by the kinds of their segments.
fn ranks_cmp(one: &[Segment], other: &[Segment]) -> Ordering
    ensures { result ≡ ranks_cmp one.now other.now }
{
    let mut ones = one;
    let mut others = other;
    'ranks: loop {
        let (first, more) = match ones.split_first() {
            Some((first, more)) => (first, more),
            None => return Ordering::Equal,
        };
        let (second, rest) = match others.split_first() {
            Some((second, rest)) => (second, rest),
            None => return Ordering::Equal,
        };
        match segment_rank(first).cmp(&segment_rank(second)) {
            Ordering::Less => return Ordering::Less,
            Ordering::Greater => return Ordering::Greater,
            Ordering::Equal => {}
        }
        ones = more;
        others = rest;
    }
}
