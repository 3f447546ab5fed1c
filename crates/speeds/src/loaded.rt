// The model of one file, of which each service can be compiled.
ghost use Rattle.std.specs.Prelude.{IfSome, List, ℕ};
ghost use Rattle.sm_model.specs.GraphView.{maps_of};
ghost use Rattle.sm_rules.specs.Ready.{Ready};

use sm_load::{Model, ModelFile, load};
use sm_tree::Text;
use std::alloc::Global;

/// The model of a file of this name. `None` where it is refused, or memory runs out.
pub fn loaded(alloc: Global, name: &str, bytes: Vec<u8>) -> Option<Model>
    ensures { IfSome result (λ model. (service : List ℕ) → Ready (maps_of model.graph) service) }
{
    let Ok(name) = Text::copy(alloc, name) else {
        return None;
    };
    let Ok(files) = vec![in alloc; ModelFile { name, bytes }] else {
        return None;
    };
    sm_load::laws::sound_models();
    match load(alloc, files) {
        Ok(model) => Some(model),
        Err(_) => None,
    }
}
