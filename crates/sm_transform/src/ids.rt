// What becomes of ids.
ghost use Rattle.std.specs.Prelude.{◌≡◌, ℕ, List, Option, IfOk, is_some};

use sm_ids::ShapeId;
use sm_tree::{NoMemory, Text};
use std::alloc::Global;

/// What becomes of each id: an id, or it is gone.
pub(crate) trait ChangesIds {
    ghost after: { Self → List ℕ → Option (List ℕ) };

    /// Whether an id with this text isn't gone. No memory.
    fn keeps(&self, id: &str) -> bool
        ensures { result ≡ is_some (after self.now id.now) };

    /// What becomes of an id with this text; `None` where it is gone.
    fn text(&self, alloc: Global, id: &str) -> Result<Option<Text>, NoMemory>
        ensures { IfOk result (λ found. found ≡ after self.now id.now) };

    /// What becomes of an id; `None` where it is gone.
    fn id(&self, alloc: Global, id: &ShapeId) -> Result<Option<ShapeId>, NoMemory>
        ensures { IfOk result (λ found. found ≡ after self.now id.now) };
}
