// Graphs: the shapes and members of a model by their ids, and its metadata by its keys.
ghost use Rattle.std.specs.Prelude.{◌<◌, ◌^◌, IsTrue, vec_len};
ghost use Rattle.std.specs.FinMap as fin;
ghost use Rattle.std.proofs.Props.{props};
ghost use Rattle.sm_tree.specs.View.{pairs_view};
ghost use Rattle.sm_model.specs.Graphs.{text_cmp};
ghost use Rattle.sm_model.specs.GraphRows.{AreSound};
ghost use Rattle.sm_model.specs.steps.TargetNumbers.{AreTargets};

mod blocks;
mod building;
mod given;
mod links;
mod lookup;
mod members;
mod numbers;
mod ordered;
mod rows;
mod sorting;
mod targets;

pub use given::{GraphMember, GraphMembers, GraphShape};
pub use rows::{GraphRow, Numbers, RowEntry, ShapeRow};
use sm_tree::Pairs;

/// The shapes of a model. Contracts see a finite map from ids to shapes and members, and a finite map of metadata. A shape or
/// member has a number, its place in the order of ids. The numbers that members target are looked up once, when the graph is made.
#[derive(Debug, Drop)]
pub struct Graph {
    rows: Vec<GraphRow>,
    metadata: Pairs,
    targets: Vec<Option<u32>>,
    ghost few: { vec_len rows < 2 ^ 32 },
    ghost sound: { AreSound rows.items },
    ghost targeted: { AreTargets rows.items targets.items } by { Prim.hlevel props },
    ghost sorted: { IsTrue (fin.is_sorted text_cmp (pairs_view metadata)) },
}
