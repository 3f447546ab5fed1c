// Faults of parts, seen from what has them.
ghost use Rattle.std.specs.Prelude.{◌≡◌, ◌<◌, ◌∷◌, [], IfOk};
ghost use Rattle.sm_shapes.specs.TableData.{member_count, name_at};
ghost use Rattle.sm_shapes.specs.TableView.{table_data};
ghost use Rattle.sm_codec.specs.FrameView.{fault_at};
ghost use Rattle.sm_tree.specs.declared.path.Step.TheVariants.{Key, Member};

use sm_shapes::tables::Table;
use sm_shapes::{Fault, FaultKind};
use sm_tree::{NoMemory, Path, Step, Text};
use std::alloc::Global;

/// A fault of the part itself. No memory.
pub fn fault_here(alloc: Global, kind: FaultKind) -> Fault
    ensures { fault_at result ≡ ([], kind) }
{
    Fault {
        path: Path::new(Vec::new(alloc)),
        kind,
    }
}

/// The fault, seen from what has the part at this step.
///
/// # Errors
///
/// `NoMemory`.
pub fn under_step(step: Step, fault: Fault) -> Result<Fault, NoMemory>
    ensures { IfOk result (λ longer. fault_at longer ≡ (step ∷ (fault_at fault).0, (fault_at fault).1)) }
{
    let mut steps = fault.path.into_inner();
    steps.insert(0, step)?;
    Ok(Fault {
        path: Path::new(steps),
        kind: fault.kind,
    })
}

/// The fault, seen from the structure that has the part as this member.
///
/// # Errors
///
/// `NoMemory`.
pub fn under_member(
    alloc: Global,
    table: &Table,
    member: u32,
    fault: Fault,
) -> Result<Fault, NoMemory>
    requires { member < member_count (table_data table.now) }
    ensures { IfOk result (λ longer. fault_at longer ≡ (Member (name_at (table_data table.now) member) ∷ (fault_at fault).0, (fault_at fault).1)) }
{
    let name = Text::copy(alloc, table.name(member))?;
    under_step(Step::Member(name), fault)
}

/// The fault, seen from the map that has the part under this key.
///
/// # Errors
///
/// `NoMemory`.
pub fn under_key(alloc: Global, key: &str, fault: Fault) -> Result<Fault, NoMemory>
    ensures { IfOk result (λ longer. fault_at longer ≡ (Key key.now ∷ (fault_at fault).0, (fault_at fault).1)) }
{
    let key = Text::copy(alloc, key)?;
    under_step(Step::Key(key), fault)
}
