// Whether a trait stands at a number, whatever its value; and whether a member stands there.
ghost use Rattle.std.specs.Prelude.{◌≡◌};
ghost use Rattle.std.specs.FinMap as fin;
ghost use Rattle.sm_model.specs.GraphView.{IsShapeNumber, maps_of};
ghost use Rattle.sm_model.specs.Reaching.{id_of_number};
ghost use Rattle.sm_passes.specs.Carrying.{carries};
ghost use Rattle.sm_passes.specs.Owned.{is_member_in};

use sm_compile::trait_node;
use sm_model::Graph;

/// Whether it has the trait.
pub fn carries(graph: &Graph, number: u32, name: &str) -> bool
    requires { IsShapeNumber graph.now number }
    ensures { result ≡ carries (maps_of graph.now) name.now (id_of_number graph.now number) }
{
    trait_node(graph, number, name).is_some()
}

/// Whether it is a member.
pub fn is_member(graph: &Graph, number: u32) -> bool
    requires { IsShapeNumber graph.now number }
    ensures { result ≡ is_member_in (fin.get (maps_of graph.now).shapes (id_of_number graph.now number)) }
{
    graph.is_member(number)
}
