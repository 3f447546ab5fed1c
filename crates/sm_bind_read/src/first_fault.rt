// The first fault of all members, where the body has one.
ghost use Rattle.std.specs.Prelude.{◌≡◌, ◌<◌, ◌∷◌, ◌↔◌, ℕ, List, IsTrue};
ghost use Rattle.std.specs.List.{AllByRecursion};
ghost use Rattle.sm_shapes.specs.InOrder.{AreStored, Shaped};
ghost use Rattle.sm_shapes.specs.TableData.{shape_count};
ghost use Rattle.sm_shapes.specs.TableView.{table_data};
ghost use Rattle.sm_tree.specs.declared.path.Step.TheVariants.{Member};
ghost use Rattle.sm_codec.specs.FrameView.{fault_at};
ghost use Rattle.sm_messages.specs.MessageForm.{Content};
ghost use Rattle.sm_bind.specs.BindingsView.{parts_data};
ghost use Rattle.sm_bind.specs.BoundView.{bound_of};
ghost use Rattle.sm_bind_read.specs.steps.Coming.{FaultComes, IsAtMember, IsMemberOf, RefusesFirst, StopsAt, all_faults, came_of};
ghost use Rattle.sm_bind_read.specs.steps.Sources.{AreGroupsIn};

use crate::bound::{bound_value, is_body_member};
use crate::coming::at_member;
use crate::sources::PartGroups;
use sm_bind::{BoundPlace, Parts};
use sm_codec::Refusal;
use sm_shapes::{Fault, Patterns};
use sm_tree::Step;
use std::alloc::Global;

/// The first of this fault of the body, and of those that other members have.
pub(crate) fn first_fault<P: Patterns>(
    alloc: Global,
    place: &BoundPlace<'_>,
    parts: &Parts,
    groups: &PartGroups,
    members: &[u32],
    fault: Fault,
    patterns: &mut P,
) -> Refusal
    requires shaped { Shaped (table_data place.now.table.now) }
    requires shape { place.now.shape < shape_count (table_data place.now.table.now) }
    requires members { AllByRecursion (IsMemberOf (bound_of place.now)) members.now }
    requires groups { AreGroupsIn (parts_data parts.now) groups.now }
    requires stored { AreStored (table_data place.now.table.now).patterns (P.added patterns.old) }
    ensures joins { (content : Content) → FaultComes (bound_of place.now) (came_of (bound_of place.now) P.test (parts_data parts.now) content)
        (fault_at fault) members.now
        → RefusesFirst (all_faults (bound_of place.now) P.test (parts_data parts.now) content members.now) result }
    ensures added { P.added patterns.new ≡ P.added patterns.old }
    ensures refused { P.refused patterns.new ≡ P.refused patterns.old }
    ensures refusals { P.refusals patterns.new ≡ P.refusals patterns.old }
{
    for member in members {
        match is_here(alloc, place, parts, groups, *member, &fault, patterns) {
            Ok(here) => {
                if here {
                    return Refusal::Fault(fault);
                }
            }
            Err(refusal) => return at_member(alloc, place.table, *member, refusal),
        }
    }
    Refusal::Fault(fault)
}

// Whether the body's fault is the first of the next member, which has none else; or the member's own.
fn is_here<P: Patterns>(
    alloc: Global,
    place: &BoundPlace<'_>,
    parts: &Parts,
    groups: &PartGroups,
    member: u32,
    fault: &Fault,
    patterns: &mut P,
) -> Result<bool, Refusal>
    requires shaped { Shaped (table_data place.now.table.now) }
    requires shape { place.now.shape < shape_count (table_data place.now.table.now) }
    requires member { IsMemberOf (bound_of place.now) member }
    requires groups { AreGroupsIn (parts_data parts.now) groups.now }
    requires stored { AreStored (table_data place.now.table.now).patterns (P.added patterns.old) }
    ensures next { (content : Content) (ks : List ℕ)
        → FaultComes (bound_of place.now) (came_of (bound_of place.now) P.test (parts_data parts.now) content) (fault_at fault.now) (member ∷ ks)
        → StopsAt (bound_of place.now) (came_of (bound_of place.now) P.test (parts_data parts.now) content) (fault_at fault.now) member ks result }
    ensures added { P.added patterns.new ≡ P.added patterns.old }
    ensures refused { P.refused patterns.new ≡ P.refused patterns.old }
    ensures refusals { P.refusals patterns.new ≡ P.refusals patterns.old }
{
    if is_body_member(place, member) {
        return Ok(is_at_member(fault.path.as_slice(), place.table.name(member)));
    }
    match bound_value(alloc, place, parts, groups, member, patterns) {
        Ok(_) => Ok(false),
        Err(refusal) => Err(refusal),
    }
}

// Whether a path begins with this member.
fn is_at_member(path: &[Step], name: &str) -> bool
    ensures { IsTrue result ↔ IsAtMember name.now path.now }
{
    match path.first() {
        Some(step) => is_step(step, name),
        None => false,
    }
}

fn is_step(step: &Step, name: &str) -> bool
    ensures { IsTrue result ↔ step.now ≡ Member name.now }
{
    match step {
        Step::Member(other) => other.as_str() == name,
        Step::Index(_) => false,
        Step::Key(_) => false,
    }
}
