// Why a tree is no model.
ghost use Rattle.std.specs.Prelude.{◌≡◌, ◌∷◌, [], Option, Some, IfOk};
ghost use Rattle.sm_tree.specs.declared.path.Step.TheVariants.{Index, Key};
ghost use Rattle.sm_ast.specs.Answers.{Tells};
ghost use Rattle.sm_ast.specs.Faults.{AstFault, field, wrong_type, bad_id, seen_from};

use sm_tree::{NoMemory, Path, Step, Text};
use std::alloc::{AllocFailed, Global};

/// Why a tree is no model of the JSON AST. The first refusal in the order of the tree is given; a missing field stands at the
/// end of its object.
#[derive(Debug, Drop)]
pub enum AstRefusal {
    /// The value of `smithy` is neither `"2.0"` nor `"2"`.
    Version,
    /// A field is missing, and this is the path of its object; or a field is unknown, or its name stands twice in its object,
    /// and this is the path of its pair.
    Field(Path),
    /// The value at this path has another kind than its place wants, or the `type` of the shape there is none.
    WrongType(Path),
    /// The text or the name at this path is no shape id or no identifier.
    BadId(Path),
    /// The allocator refused the memory that reading needs.
    NoMemory,
}

impl From<NoMemory> for AstRefusal {
    ghost use Rattle.std.specs.Prelude.{◌≡◌};
    ghost use Rattle.sm_ast.specs.declared.refusal.AstRefusal.TheVariants.{NoMemory};

    ghost from_gives = { λ _ refusal. refusal ≡ NoMemory };

    fn from(_refused: NoMemory) -> Self {
        AstRefusal::NoMemory
    }
}

impl<T: Drop> From<AllocFailed<T>> for AstRefusal {
    ghost use Rattle.std.specs.Prelude.{◌≡◌};
    ghost use Rattle.sm_ast.specs.declared.refusal.AstRefusal.TheVariants.{NoMemory};

    ghost from_gives = { λ _ refusal. refusal ≡ NoMemory };

    fn from(_refused: AllocFailed<T>) -> Self {
        AstRefusal::NoMemory
    }
}

impl AstRefusal {
    /// A field that is missing, unknown or repeated here. No memory.
    pub(crate) fn field(alloc: Global) -> Self
        ensures { Tells (Some (field [])) result }
    {
        AstRefusal::Field(Path::new(Vec::new(alloc)))
    }

    /// A value of another kind here. No memory.
    pub(crate) fn wrong_type(alloc: Global) -> Self
        ensures { Tells (Some (wrong_type [])) result }
    {
        AstRefusal::WrongType(Path::new(Vec::new(alloc)))
    }

    /// No id here. No memory.
    pub(crate) fn bad_id(alloc: Global) -> Self
        ensures { Tells (Some (bad_id [])) result }
    {
        AstRefusal::BadId(Path::new(Vec::new(alloc)))
    }

    /// The refusal of the object that has this one's tree under the name.
    pub(crate) fn under_key(self, alloc: Global, name: &Text) -> Self
        ensures { (found : Option AstFault) → Tells found self → Tells (seen_from (Key name.now) found) result }
    {
        match Text::copy(alloc, name.as_str()) {
            Ok(name) => self.seen_from(Step::Key(name)),
            Err(NoMemory) => AstRefusal::NoMemory,
        }
    }

    /// The refusal of the list that has this one's tree as this entry.
    pub(crate) fn under_index(self, index: u64) -> Self
        ensures { (found : Option AstFault) → Tells found self → Tells (seen_from (Index index) found) result }
    {
        self.seen_from(Step::Index(index))
    }

    // The refusal of the tree that has this one's tree at the step.
    fn seen_from(self, step: Step) -> Self
        ensures { (found : Option AstFault) → Tells found self → Tells (seen_from step found) result }
    {
        match self {
            AstRefusal::Version => AstRefusal::Version,
            AstRefusal::Field(path) => match with_step(step, path) {
                Ok(path) => AstRefusal::Field(path),
                Err(NoMemory) => AstRefusal::NoMemory,
            },
            AstRefusal::WrongType(path) => match with_step(step, path) {
                Ok(path) => AstRefusal::WrongType(path),
                Err(NoMemory) => AstRefusal::NoMemory,
            },
            AstRefusal::BadId(path) => match with_step(step, path) {
                Ok(path) => AstRefusal::BadId(path),
                Err(NoMemory) => AstRefusal::NoMemory,
            },
            AstRefusal::NoMemory => AstRefusal::NoMemory,
        }
    }
}

// The path with a step before its others.
fn with_step(step: Step, path: Path) -> Result<Path, NoMemory>
    ensures { IfOk result (λ longer. longer ≡ step ∷ path) }
{
    let mut steps = path.into_inner();
    steps.insert(0, step)?;
    Ok(Path::new(steps))
}
