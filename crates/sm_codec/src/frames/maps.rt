// What a frame of a map does where a name comes, where the value of a key is closed, and where the map ends.
ghost use Rattle.std.specs.Prelude.{◌≡◌, ◌<◌, ◌++◌, [], None, IfOk, OnOk, slice_index_or, false};
ghost use Rattle.std.specs.Option.{option_map};
ghost use Rattle.std.specs.Ordering.{nat_cmp, is_le};
ghost use Rattle.std.specs.Cmp.Lexicographic.{slice_cmp};
ghost use Rattle.sm_shapes.specs.Broken.{broken, first_broken};
ghost use Rattle.sm_shapes.specs.ConstraintView.{constraint_data};
ghost use Rattle.sm_shapes.specs.Fitting.{finder};
ghost use Rattle.sm_shapes.specs.InOrder.{Shaped, AreStored};
ghost use Rattle.sm_shapes.specs.Places.{member_place, kind_of, constraints_of};
ghost use Rattle.sm_shapes.specs.TableData.{shape_count, member_count, kind_at};
ghost use Rattle.sm_shapes.specs.TableView.{table_data};
ghost use Rattle.sm_shapes.specs.ValueView.{val_of, entries_view, each_entry_view};
ghost use Rattle.sm_shapes.specs.Values.{text_val};
ghost use Rattle.sm_shapes.specs.declared.kinds.ShapeKind.TheVariants.{Map};
ghost use Rattle.sm_codec.specs.FrameView.{arrival_of, outcome_of, fault_at};
ghost use Rattle.sm_codec.specs.MapView.{key_frame, held_entry, held_entries};
ghost use Rattle.sm_codec.specs.steps.MapSteps.{first_key, at_key, goes_first, has_key, JudgesKey, pair_comes, IsKeyed, KeepsKeyFault};
ghost use Rattle.sm_codec.specs.steps.MapSteps.{PutsKey, TakesKey, TakesPair, map_end};

use super::entries::as_entry;
use super::faults::{fault_here, under_step};
use super::{Arrival, Key, KeyFrame, Outcome};
use sm_shapes::constraints::Constraints;
use sm_shapes::tables::Table;
use sm_shapes::values::{Entries, Value};
use sm_shapes::{Fault, FaultKind, Patterns};
use sm_tree::{NoMemory, Path, Step, Text};
use std::alloc::Global;
use std::collections::BTreeMap;

// The key at which a path begins, or none at all.
fn key_first(path: &Path) -> &str
    ensures { result.now ≡ first_key path.now }
{
    match path.as_slice().first() {
        Some(Step::Key(key)) => key.as_str(),
        _ => "",
    }
}

// Whether a fault at a key doesn't stand behind another, in byte order of the keys.
fn goes_first(key: &str, fault: &Fault) -> bool
    ensures { result ≡ goes_first key.now (fault_at fault.now) }
{
    is_at_most(key, key_first(&fault.path))
}

fn is_at_most(key: &str, other: &str) -> bool
    ensures { result ≡ is_le (slice_cmp nat_cmp key.now other.now) }
{
    key.cmp(other).is_le()
}

// The fault, seen from the map that has the tree under this key.
fn under_key(alloc: Global, key: &str, fault: Fault) -> Result<Fault, NoMemory>
    ensures { IfOk result (λ longer. fault_at longer ≡ at_key key.now (fault_at fault)) }
{
    let key = Text::copy(alloc, key)?;
    under_step(Step::Key(key), fault)
}

// What comes under a key, by the fault of the key itself, if it has one. No memory.
fn as_pair(alloc: Global, first: Option<FaultKind>, arrival: Arrival) -> Arrival
    ensures { arrival_of result ≡ pair_comes first (arrival_of arrival) }
{
    match first {
        None => arrival,
        Some(kind) => Arrival::Fault(fault_here(alloc, kind)),
    }
}

// The member of a map's keys.
fn key_member(members: &[u32]) -> u32
    ensures { result ≡ slice_index_or members.now 0 0 }
{
    match members.first() {
        Some(member) => *member,
        None => 0,
    }
}

// The first constraint of a member that a text breaks.
fn judge_at<P: Patterns>(
    table: &Table,
    member: u32,
    text: &str,
    patterns: &mut P,
) -> Result<Option<FaultKind>, NoMemory>
    requires stored { AreStored (table_data table.now).patterns (P.added patterns.old) }
    requires shaped { Shaped (table_data table.now) }
    requires member { member < member_count (table_data table.now) }
    ensures first { IfOk result (λ first. first ≡ first_broken
        (broken (finder (table_data table.now) P.test) (kind_of (table_data table.now) (member_place member))
        (constraints_of (table_data table.now) (member_place member)) (text_val text.now))) }
    ensures added { P.added patterns.new ≡ P.added patterns.old }
    ensures refused { P.refused patterns.new ≡ P.refused patterns.old }
    ensures refusals { P.refusals patterns.new ≡ P.refusals patterns.old }
{
    let row = table.member(member);
    row.constraints
        .judge_text(table, table.kind(row.target), text, patterns)
}

// Adds the entry of a key, if it has a value.
fn push_entry(
    entries: &mut Vec<(Text, Value)>,
    key: Key,
    value: Option<Value>,
) -> Result<(), NoMemory>
    ensures { OnOk result (each_entry_view entries.new.items ≡ each_entry_view entries.old.items ++ held_entry key value) }
{
    match value {
        None => Ok(()),
        Some(value) => match entries.push((key.into_text(), value)) {
            Ok(()) => Ok(()),
            Err(_) => Err(NoMemory),
        },
    }
}

// The entries of the keys that have a value, in their order.
fn in_order(alloc: Global, keys: BTreeMap<Key, Option<Value>>) -> Result<Entries, NoMemory>
    ensures { IfOk result (λ entries. entries_view entries ≡ held_entries keys.entries) }
{
    let mut entries = Vec::new(alloc);
    for (key, value) in keys {
        push_entry(&mut entries, key, value)?;
    }
    Ok(Entries::new(entries))
}

impl KeyFrame {
    // The frame of a map that opens.
    pub(crate) fn new(alloc: Global, shape: u32) -> Self
        ensures { key_frame result ≡ record { shape = shape; entries = []; seen = []; current = None; fault = None } }
    {
        KeyFrame {
            shape,
            keys: BTreeMap::new(alloc),
            current: None,
            fault: None,
        }
    }

    // The name of the next pair comes. It is copied once.
    pub(crate) fn name(&mut self, alloc: Global, name: &str) -> Result<(), NoMemory>
        ensures { OnOk result (IsKeyed name.now (key_frame self.old) (key_frame self.new)) }
    {
        self.current = Some(Key::copy(alloc, name)?);
        Ok(())
    }

    // The first constraint of the map's keys that the key breaks that came last.
    pub(crate) fn judge_key<P: Patterns>(
        &self,
        table: &Table,
        patterns: &mut P,
    ) -> Result<Option<FaultKind>, NoMemory>
        requires stored { AreStored (table_data table.now).patterns (P.added patterns.old) }
        requires shaped { Shaped (table_data table.now) }
        requires shape { self.now.shape < shape_count (table_data table.now) }
        requires map { kind_at (table_data table.now) self.now.shape ≡ Map }
        ensures first { IfOk result (JudgesKey (finder (table_data table.now) P.test) (table_data table.now) self.now.shape
            (key_frame self.now).current) }
        ensures added { P.added patterns.new ≡ P.added patterns.old }
        ensures refused { P.refused patterns.new ≡ P.refused patterns.old }
        ensures refusals { P.refusals patterns.new ≡ P.refusals patterns.old }
    {
        match &self.current {
            None => Ok(None),
            Some(key) => {
                let member = key_member(table.members(self.shape));
                judge_at(table, member, key.as_str(), patterns)
            }
        }
    }

    // The tree under the key that came last is closed; `first` is what the key itself breaks.
    pub(crate) fn take(
        &mut self,
        alloc: Global,
        sparse: bool,
        first: Option<FaultKind>,
        arrival: Arrival,
    ) -> Result<(), NoMemory>
        ensures { OnOk result (TakesPair sparse first (arrival_of arrival) (key_frame self.old) (key_frame self.new)) }
    {
        match self.current.take() {
            None => Ok(()),
            Some(key) => self.take_under(
                alloc,
                key,
                as_pair(alloc, first, as_entry(alloc, sparse, arrival)),
            ),
        }
    }

    // A tree comes under a key.
    fn take_under(&mut self, alloc: Global, key: Key, arrival: Arrival) -> Result<(), NoMemory>
        requires closed { (key_frame self.old).current ≡ None }
        ensures { OnOk result (TakesKey key (arrival_of arrival) (key_frame self.old) (key_frame self.new)) }
    {
        if self.has(&key) {
            return self.keep_first(alloc, key.as_str(), fault_here(alloc, FaultKind::Repeated));
        }
        match arrival {
            Arrival::Null => self.put(key, None),
            Arrival::Value(value) => self.put(key, Some(value)),
            Arrival::Fault(fault) => {
                self.keep_first(alloc, key.as_str(), fault)?;
                self.put(key, None)
            }
        }
    }

    // Whether a key is closed. No memory.
    fn has(&self, key: &Key) -> bool
        ensures { result ≡ has_key key.now (key_frame self.now).seen }
    {
        self.keys.contains_key(key)
    }

    // Closes a key, with its value or without.
    fn put(&mut self, key: Key, value: Option<Value>) -> Result<(), NoMemory>
        requires absent { has_key key (key_frame self.old).seen ≡ false }
        ensures { OnOk result (PutsKey key (option_map (λ v. val_of v) value) (key_frame self.old) (key_frame self.new)) }
    {
        match self.keys.insert(key, value) {
            Ok(_) => Ok(()),
            Err(_) => Err(NoMemory),
        }
    }

    // Keeps the fault of what stands under a key, where none is kept whose key stands before it.
    fn keep_first(&mut self, alloc: Global, key: &str, fault: Fault) -> Result<(), NoMemory>
        ensures { OnOk result (KeepsKeyFault key.now (fault_at fault) (key_frame self.old) (key_frame self.new)) }
    {
        if let Some(kept) = &self.fault {
            if !goes_first(key, kept) {
                return Ok(());
            }
        }
        self.fault = Some(under_key(alloc, key, fault)?);
        Ok(())
    }

    // The map ends: its first fault, or its value. The constraints are those of the map's place.
    pub(crate) fn finish(
        self,
        alloc: Global,
        constraints: &Constraints,
    ) -> Result<Outcome, NoMemory>
        ensures { IfOk result (λ outcome. outcome_of outcome ≡ map_end (constraint_data constraints.now) (key_frame self)) }
    {
        let KeyFrame { keys, fault, .. } = self;
        match (fault, constraints.judge_length(keys.len())) {
            (Some(fault), _) => Ok(Outcome::Bad(fault)),
            (None, Some(kind)) => Ok(Outcome::Bad(fault_here(alloc, kind))),
            (None, None) => match in_order(alloc, keys) {
                Ok(entries) => Ok(Outcome::Good(Value::Map(entries))),
                Err(refusal) => Err(refusal),
            },
        }
    }
}
