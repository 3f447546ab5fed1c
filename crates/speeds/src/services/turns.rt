// A service of a model, compiled many times over. Each turn does the whole work anew, over a store of patterns of its own.
ghost use Rattle.sm_ids.specs.IdText.{printed};
ghost use Rattle.sm_ids.specs.View.{id_of};
ghost use Rattle.sm_model.specs.GraphView.{maps_of};
ghost use Rattle.sm_rules.specs.Ready.{Ready};

use crate::loaded::loaded;
use sm_ids::ShapeIdRef;
use sm_model::Graph;
use sm_service::compile;
use sm_shapes::LiteralPatterns;
use std::alloc::Global;

/// How many operations the service of this id has, of a model in the JSON AST, where it is compiled so many times; 0 where it is loaded
/// alone. `None` where the model is refused or has no such service, or memory runs out.
pub fn operation_count(alloc: Global, model: Vec<u8>, service: &str, turns: u32) -> Option<usize> {
    let Ok(service) = ShapeIdRef::parse(service) else {
        return None;
    };
    match loaded(alloc, "model.json", model) {
        Some(model) => count_after(alloc, &model.graph, &service, turns),
        None => None,
    }
}

fn count_after(alloc: Global, graph: &Graph, service: &ShapeIdRef<'_>, turns: u32) -> Option<usize>
    requires { Ready (maps_of graph.now) (printed (id_of service.now)) }
{
    let mut count = 0;
    for _ in 0..turns {
        let mut patterns = LiteralPatterns::new(alloc, Vec::new(alloc));
        match compile(alloc, graph, service, &mut patterns) {
            Ok(made) => count = made.operations.as_slice().len(),
            Err(_) => return None,
        }
    }
    Some(count)
}
