// The places of errors in the order of their names.
ghost use Rattle.std.specs.Prelude.{◌≡◌, ◌<◌, ◌^◌, IfOk, length};
ghost use Rattle.std.specs.Cmp.Lexicographic.{slice_cmp};
ghost use Rattle.std.specs.List.{range_with_len};
ghost use Rattle.std.specs.Ordering.{nat_cmp};
ghost use Rattle.sm_service.specs.ErrorOrder.{IsNameOrder, NamesDiffer, name_at_place, place_named, places_of};

use crate::error::ErrorShape;
use sm_tree::NoMemory;
use std::alloc::Global;
use std::cmp::Ordering;

/// The places of errors whose names differ, in the order of these names. n log n.
pub(crate) fn name_order(alloc: Global, errors: &[ErrorShape]) -> Result<Vec<u32>, NoMemory>
    requires few { length errors.now < 2 ^ 32 }
    requires differ { NamesDiffer errors.now }
    ensures { IfOk result (λ places. IsNameOrder errors.now places.items) }
{
    let places = places_of(alloc, errors.len())?;
    Ok(by_name(errors, places))
}

// So many places, from the first on.
fn places_of(alloc: Global, count: usize) -> Result<Vec<u32>, NoMemory>
    requires { count < 2 ^ 32 }
    ensures { IfOk result (λ places. places.items ≡ range_with_len 0 count) }
{
    let mut places = Vec::with_capacity(alloc, count)?;
    for place in 0..count {
        places.push(place as u32)?;
    }
    Ok(places)
}

// All places by the names of their errors.
fn by_name(errors: &[ErrorShape], places: Vec<u32>) -> Vec<u32>
    requires places { places.items ≡ places_of errors.now }
    requires differ { NamesDiffer errors.now }
    ensures { IsNameOrder errors.now result.items }
{
    let mut places = places;
    places.sort_unstable_by(|a, b| order_of(name_at(errors, *a), name_at(errors, *b)));
    places
}

// The name of the error at a place; where there is none, the empty text.
fn name_at(errors: &[ErrorShape], place: u32) -> &str
    ensures { result.now ≡ name_at_place errors.now place }
{
    match errors.get(place as usize) {
        Some(error) => error.name(),
        None => "",
    }
}

fn order_of(a: &str, b: &str) -> Ordering
    ensures { result ≡ slice_cmp nat_cmp a.now b.now }
{
    a.cmp(b)
}

/// The place of the error of a name, by the order of names: a binary search. No memory.
pub(crate) fn place_named(errors: &[ErrorShape], by_name: &[u32], name: &str) -> Option<u32>
    requires { IsNameOrder errors.now by_name.now }
    ensures { result ≡ place_named errors.now name.now }
{
    match by_name.binary_search_by(|place| order_of(name_at(errors, *place), name)) {
        Ok(at) => Some(by_name[at]),
        Err(_) => None,
    }
}
