// Ways from a value to what of it isn't carried.
ghost use Rattle.std.specs.Prelude.{◌≡◌, ◌∷◌, IfOk};
ghost use Rattle.sm_tree.specs.declared.path.Step.TheVariants as steps;
ghost use Rattle.sm_shapes.specs.TableData.{name_at};
ghost use Rattle.sm_shapes.specs.TableView.{table_data};
ghost use Rattle.sm_part_texts.specs.Spots.{spot_path};
ghost use Rattle.sm_bind_write.specs.PartSpots.{part_path};

use crate::spots::PartSpot;
use sm_part_texts::Spot;
use sm_shapes::tables::Table;
use sm_tree::{NoMemory, Path, Step, Text};
use std::alloc::Global;

/// The way to what isn't carried.
pub(crate) fn path_to(alloc: Global, spot: PartSpot<'_>) -> Result<Path, NoMemory>
    ensures { IfOk result (λ path. path ≡ part_path spot.entry) }
{
    match spot {
        PartSpot::InValue(spot) => path_in(alloc, spot),
        PartSpot::UnderKey(key, spot) => match path_in(alloc, spot) {
            Ok(path) => under_key(alloc, key, path),
            Err(refusal) => Err(refusal),
        },
    }
}

fn path_in(alloc: Global, spot: Spot) -> Result<Path, NoMemory>
    ensures { IfOk result (λ path. path ≡ spot_path spot) }
{
    match spot {
        Spot::Whole => Ok(Path::new(Vec::new(alloc))),
        Spot::Entry(at) => under(Step::Index(at), Path::new(Vec::new(alloc))),
    }
}

fn under_key(alloc: Global, key: &Text, path: Path) -> Result<Path, NoMemory>
    ensures { IfOk result (λ longer. longer ≡ steps.Key key.now ∷ path) }
{
    match Text::copy(alloc, key.as_str()) {
        Ok(copy) => under(Step::Key(copy), path),
        Err(refusal) => Err(refusal),
    }
}

/// The way from the structure in which a member stands.
pub(crate) fn under_member(
    alloc: Global,
    table: &Table,
    member: u32,
    path: Path,
) -> Result<Path, NoMemory>
    ensures { IfOk result (λ longer. longer ≡ steps.Member (name_at (table_data table.now) member) ∷ path) }
{
    match Text::copy(alloc, table.name_of(member)) {
        Ok(name) => under(Step::Member(name), path),
        Err(refusal) => Err(refusal),
    }
}

// One step before the others.
fn under(step: Step, path: Path) -> Result<Path, NoMemory>
    ensures { IfOk result (λ longer. longer ≡ step ∷ path) }
{
    let mut steps = path.into_inner();
    match steps.insert(0, step) {
        Ok(()) => Ok(Path::new(steps)),
        Err(_) => Err(NoMemory),
    }
}
