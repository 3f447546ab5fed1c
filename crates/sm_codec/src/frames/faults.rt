// Faults of frames: seen from the level that has the part, and the first of two.
ghost use Rattle.std.specs.Prelude.{◌≡◌, ◌<◌, ◌∷◌, [], IfOk};
ghost use Rattle.sm_shapes.specs.InOrder.{Shaped};
ghost use Rattle.sm_shapes.specs.TableData.{shape_count, member_count, members_at, member_with, name_at};
ghost use Rattle.sm_shapes.specs.TableView.{table_data};
ghost use Rattle.sm_codec.specs.FrameView.{fault_at};
ghost use Rattle.sm_codec.specs.steps.MemberSteps.{at_member, first_name, gives_way};

use sm_shapes::tables::Table;
use sm_shapes::{Fault, FaultKind};
use sm_tree::{NoMemory, Path, Step, Text};
use std::alloc::Global;

// A fault of the tree itself. No memory.
pub(crate) fn fault_here(alloc: Global, kind: FaultKind) -> Fault
    ensures { fault_at result ≡ ([], kind) }
{
    Fault {
        path: Path::new(Vec::new(alloc)),
        kind,
    }
}

// The fault, seen from what has the tree at this step.
pub(super) fn under_step(step: Step, fault: Fault) -> Result<Fault, NoMemory>
    ensures { IfOk result (λ longer. fault_at longer ≡ (step ∷ (fault_at fault).0, (fault_at fault).1)) }
{
    let mut steps = fault.path.into_inner();
    steps.insert(0, step)?;
    Ok(Fault {
        path: Path::new(steps),
        kind: fault.kind,
    })
}

// The fault, seen from the structure or union that has the tree as this member.
pub(super) fn under_member(
    alloc: Global,
    table: &Table,
    member: u32,
    fault: Fault,
) -> Result<Fault, NoMemory>
    requires { member < member_count (table_data table.now) }
    ensures { IfOk result (λ longer. fault_at longer ≡ at_member (table_data table.now) member (fault_at fault)) }
{
    let name = Text::copy(alloc, table.name(member))?;
    under_step(Step::Member(name), fault)
}

// The name of the member at which a path begins, or none at all.
pub(super) fn name_first(path: &Path) -> &str
    ensures { result.now ≡ first_name path.now }
{
    match path.as_slice().first() {
        Some(Step::Member(name)) => name.as_str(),
        _ => "",
    }
}

// Whether a fault of a shape's member, seen from there, doesn't stand before one at another member.
pub(super) fn yields_to(table: &Table, shape: u32, member: u32, fault: &Fault) -> bool
    requires number { shape < shape_count (table_data table.now) }
    requires shaped { Shaped (table_data table.now) }
    ensures { result ≡ gives_way member (member_with (name_at (table_data table.now)) (first_name (fault_at fault.now).0)
        (members_at (table_data table.now) shape)) }
{
    match table.member_named(shape, name_first(&fault.path)) {
        Some(other) => member <= other,
        None => true,
    }
}
