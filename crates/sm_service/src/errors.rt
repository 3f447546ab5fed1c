// The errors of an operation: its own, and behind them those of its service, which all operations share.
ghost use Rattle.std.specs.Prelude.{◌≡◌, ◌+◌, ◌-◌, ◌<◌, ◌^◌, ℕ, IfOk, MatchOption, Some, length, map, slice_get};
ghost use Rattle.std.specs.List.{Contains};
ghost use Rattle.std.specs.Option.{option_copied, option_map};
ghost use Rattle.sm_shapes.specs.SharedView.{shared_list};
ghost use Rattle.sm_service.specs.ErrorOrder.{NamesDiffer, name_at_place, place_named};
ghost use Rattle.sm_service.specs.ErrorsView.{RiseBetween, but_at, joined_errors};
ghost use Rattle.sm_service.specs.ServiceData.{name_of_error};
ghost use Rattle.sm_service.specs.steps.KeptPlaces.{below_place, moved_place};

use crate::error::ErrorShape;
use crate::error_order::{name_order, place_named};
use sm_tree::NoMemory;
use std::alloc::Global;
use std::marker::Model;
use std::rc::Rc;

/// Errors of a service, with an order of their names. Contracts see the list.
#[derive(Debug, Drop)]
pub(crate) struct KnownErrors {
    /// The errors, in order.
    errors: Vec<ErrorShape>,
    /// Their places, in the byte order of their names.
    by_name: Vec<u32>,
}

impl Model for KnownErrors {
    ghost use Rattle.std.specs.Prelude.{List};
    ghost use Rattle.sm_service.specs.ErrorOrder.{IsNameOrder};
    ghost use Rattle.sm_service.specs.declared.error.ErrorShape.{ErrorShape};

    ghost Value = { List ErrorShape };

    ghost view = { λ a. a.errors.items };

    ghost invariant = { λ a. IsNameOrder a.errors.items a.by_name.items };
}

impl KnownErrors {
    /// Errors whose names differ. n log n.
    pub(crate) fn new(alloc: Global, errors: Vec<ErrorShape>) -> Result<Self, NoMemory>
        requires few { length errors.items < 2 ^ 32 }
        requires differ { NamesDiffer errors.items }
        ensures { IfOk result (λ known. known ≡ errors.items) }
    {
        let by_name = name_order(alloc, errors.as_slice())?;
        Ok(KnownErrors { errors, by_name })
    }

    /// The errors, in order. No memory.
    pub(crate) fn as_slice(&self) -> &[ErrorShape]
        ensures { result.now ≡ self.now }
    {
        self.errors.as_slice()
    }

    /// The place of the error of a name. log n, no memory.
    pub(crate) fn named(&self, name: &str) -> Option<u32>
        ensures { result ≡ place_named self.now name.now }
    {
        place_named(self.errors.as_slice(), self.by_name.as_slice(), name)
    }
}

/// The errors of an operation, in order: its own, then those of its service that it doesn't name itself. Contracts see one list.
#[derive(Debug, Drop)]
pub struct Errors {
    // Those that the operation names.
    own: Vec<ErrorShape>,
    // Their places, in the byte order of their names.
    own_by_name: Vec<u32>,
    // Those of the service: nothing, where it has none.
    shared: Option<Rc<KnownErrors>>,
    // The places of those of the service that the operation names too. They rise.
    again: Vec<u32>,
}

impl Model for Errors {
    ghost use Rattle.std.specs.Prelude.{List};
    ghost use Rattle.sm_shapes.specs.SharedView.{shared_list};
    ghost use Rattle.sm_service.specs.ErrorOrder.{AreJoined};
    ghost use Rattle.sm_service.specs.ErrorsView.{joined_errors};
    ghost use Rattle.sm_service.specs.declared.error.ErrorShape.{ErrorShape};

    ghost Value = { List ErrorShape };

    ghost view = { λ a. joined_errors a.own.items a.again.items (shared_list a.shared) };

    ghost invariant = { λ a. AreJoined a.own.items a.own_by_name.items a.again.items (shared_list a.shared) };
}

impl Errors {
    /// An operation's own errors, and behind them those of its service but at the places at which one has the name of an own one.
    /// n log n in its own.
    pub(crate) fn new(
        alloc: Global,
        own: Vec<ErrorShape>,
        shared: Option<Rc<KnownErrors>>,
        again: Vec<u32>,
    ) -> Result<Self, NoMemory>
        requires few { length own.items < 2 ^ 32 }
        requires differ { NamesDiffer own.items }
        requires rise { RiseBetween 0 (length (shared_list shared)) again.items }
        requires named { (k : ℕ) → Contains again.items k → Contains (map name_of_error own.items) (name_at_place (shared_list shared) k) }
        ensures { IfOk result (λ all. all ≡ joined_errors own.items again.items (shared_list shared)) }
    {
        let own_by_name = name_order(alloc, own.as_slice())?;
        Ok(Errors {
            own,
            own_by_name,
            shared,
            again,
        })
    }

    /// How many there are. No memory.
    pub fn len(&self) -> usize
        requires { length self.now < 2 ^ 32 }
        ensures { result ≡ length self.now }
    {
        self.own.len() + kept_len(shared_errors(&self.shared), self.again.as_slice())
    }

    /// The error at a place; `None` past the last one. Time as the errors that the operation and its service both name. No memory.
    pub fn get(&self, place: usize) -> Option<&ErrorShape>
        ensures { option_copied result ≡ slice_get self.now place }
    {
        if place < self.own.len() {
            Some(&self.own[place])
        } else {
            kept_at(
                shared_errors(&self.shared),
                self.again.as_slice(),
                place - self.own.len(),
            )
        }
    }

    /// The place of an error of a name, its own before the service's; `None` where none has the name. By halves, but for the errors that
    /// the operation and its service both name. No memory.
    pub fn named(&self, name: &str) -> Option<usize>
        requires { length self.now < 2 ^ 32 }
        ensures { MatchOption result
            (Contains (map name_of_error self.now) name.now → ⊥)
            (λ place. slice_get (map name_of_error self.now) place ≡ Some name.now) }
    {
        match place_named(self.own.as_slice(), self.own_by_name.as_slice(), name) {
            Some(place) => Some(place as usize),
            None => behind(
                self.own.len(),
                kept_named(&self.shared, self.again.as_slice(), name),
            ),
        }
    }
}

// A place behind so many.
fn behind(count: usize, place: Option<usize>) -> Option<usize>
    requires { (k : ℕ) → place ≡ Some k → count + k < 2 ^ 64 }
    ensures { result ≡ option_map (λ k. count + k) place }
{
    match place {
        Some(place) => Some(count + place),
        None => None,
    }
}

// The place of the shared error of a name among those but at these places, none of which has the name.
fn kept_named(shared: &Option<Rc<KnownErrors>>, again: &[u32], name: &str) -> Option<usize>
    requires rise { RiseBetween 0 (length (shared_list shared.now)) again.now }
    requires other { (k : ℕ) → Contains again.now k → name_at_place (shared_list shared.now) k ≡ name.now → ⊥ }
    ensures { MatchOption result
        (Contains (map name_of_error (shared_list shared.now)) name.now → ⊥)
        (λ place. slice_get (map name_of_error (but_at again.now 0 (shared_list shared.now))) place ≡ Some name.now) }
{
    match shared_named(shared, name) {
        Some(place) => Some(kept_place(again, place as usize)),
        None => None,
    }
}

// The place of the shared error of a name.
fn shared_named(shared: &Option<Rc<KnownErrors>>, name: &str) -> Option<u32>
    ensures { result ≡ place_named (shared_list shared.now) name.now }
{
    match shared {
        None => None,
        Some(known) => known.as_ref().named(name),
    }
}

// What is shared.
fn shared_errors(shared: &Option<Rc<KnownErrors>>) -> &[ErrorShape]
    ensures { result.now ≡ shared_list shared.now }
{
    match shared {
        None => &[],
        Some(known) => known.as_ref().as_slice(),
    }
}

// How many errors there are but for those at these places.
fn kept_len(errors: &[ErrorShape], places: &[u32]) -> usize
    requires { RiseBetween 0 (length errors.now) places.now }
    ensures { result ≡ length (but_at places.now 0 errors.now) }
{
    errors.len() - places.len()
}

// The error at a place among them.
fn kept_at<'a>(errors: &'a [ErrorShape], places: &[u32], place: usize) -> Option<&'a ErrorShape>
    requires { RiseBetween 0 (length errors.now) places.now }
    ensures { option_copied result ≡ slice_get (but_at places.now 0 errors.now) place }
{
    if place < errors.len() - places.len() {
        errors.get(moved_place(places, place))
    } else {
        None
    }
}

// The place of what has this one where these places, which rise, are left out.
fn moved_place(places: &[u32], kept: usize) -> usize
    requires { kept + length places.now < 2 ^ 64 }
    ensures { result ≡ moved_place places.now kept }
{
    let mut at = kept;
    for place in places {
        if at < *place as usize {
            return at;
        }
        at += 1;
    }
    at
}

// The place of what has this one, which isn't among these, where these are left out.
fn kept_place(places: &[u32], place: usize) -> usize
    requires rise { (high : ℕ) × RiseBetween 0 high places.now }
    requires other { Contains places.now place → ⊥ }
    ensures { result ≡ place - below_place places.now place }
{
    place - below_place(places, place)
}

// How many of these places, which rise, stand before one that isn't among them.
fn below_place(places: &[u32], place: usize) -> usize
    ensures { result ≡ below_place places.now place }
{
    let mut count = 0;
    for other in places {
        if place < *other as usize {
            return count;
        }
        count += 1;
    }
    count
}
