// Whether an operation is served: its input, its output and its errors are walked, one after the other.
ghost use Rattle.std.specs.Prelude.{◌≡◌, ◌++◌, ◌∷◌, IfOk, codes};
ghost use Rattle.std.specs.List.{Contains, join_with_byte};
ghost use Rattle.sm_bytes.specs.Ascii.{slash};
ghost use Rattle.sm_model.specs.GraphView.{IsShapeNumber, maps_of};
ghost use Rattle.sm_compile.specs.declared.compiled.Served.TheVariants.{Unserved};
ghost use Rattle.sm_service.specs.PathView.{member_path_text};
ghost use Rattle.sm_service.specs.ServedOperation.{TellsAllServed};
ghost use Rattle.sm_service.specs.ServiceView.{served_said};
ghost use Rattle.sm_service.specs.declared.serving.WalkStart.{WalkStart};
ghost use Rattle.sm_service.specs.steps.ServingRooms.{IsServingRoom};
ghost use Rattle.sm_service.specs.steps.WalkStarts.{HasFilledNames, roots_of, start_names, start_shape};

use crate::served::{MemberPath, OperationServed};
use crate::serving_room::{ServingRoom, ShapeServed};
use sm_model::Graph;
use sm_tree::{NoMemory, Text};
use std::alloc::Global;
use std::rc::Rc;

/// Where an operation's walk begins: the number of a shape in the graph.
#[derive(Clone, Copy, Drop)]
pub(crate) enum WalkStart<'a> {
    /// Its input.
    Input(u32),
    /// Its output.
    Output(u32),
    /// An error of this name.
    Error(&'a str, u32),
}

impl WalkStart<'_> {
    // The shape.
    fn shape(self) -> u32
        ensures { result ≡ start_shape self.entry }
    {
        match self {
            WalkStart::Input(shape) => shape,
            WalkStart::Output(shape) => shape,
            WalkStart::Error(_, shape) => shape,
        }
    }

    // The text with which paths from there begin.
    fn text(self, alloc: Global) -> Result<Text, NoMemory>
        ensures { IfOk result (λ text. text ≡ join_with_byte slash (start_names self.entry)) }
    {
        match self {
            WalkStart::Input(_) => Text::copy(alloc, "input"),
            WalkStart::Output(_) => Text::copy(alloc, "output"),
            WalkStart::Error(name, _) => error_text(alloc, name),
        }
    }
}

fn error_text(alloc: Global, name: &str) -> Result<Text, NoMemory>
    ensures { IfOk result (λ text. text ≡ codes "error" ++ slash ∷ name.now) }
{
    let mut text = String::new(alloc);
    text.push_str("error/")?;
    text.push_str(name)?;
    Ok(Text::new(text))
}

/// Whether values of all these shapes can be carried, or the first member path to a shape whose values can't. Each is told by itself, in order.
pub(crate) fn served_from<'a>(
    alloc: Global,
    graph: &'a Graph,
    room: &mut ServingRoom<'a>,
    starts: &[WalkStart<'_>],
) -> Result<OperationServed, NoMemory>
    requires numbers { (w : WalkStart) → Contains starts.now w → IsShapeNumber graph.now (start_shape w) }
    requires names { HasFilledNames (maps_of graph.now) }
    requires room { IsServingRoom graph.now room.old }
    ensures room { IsServingRoom graph.now room.new }
    ensures served { IfOk result (λ s. TellsAllServed (maps_of graph.now) (roots_of graph.now starts.now) (served_said s)) }
{
    for start in starts {
        match room.served(alloc, graph, start.shape()) {
            Ok(ShapeServed::Yes) => {}
            Ok(ShapeServed::Unserved(way)) => return unserved_by(alloc, *start, way),
            Err(refusal) => return Err(refusal),
        }
    }
    Ok(OperationServed::Yes)
}

// The path of a way from there.
fn unserved_by(
    alloc: Global,
    start: WalkStart<'_>,
    way: Rc<Text>,
) -> Result<OperationServed, NoMemory>
    ensures { IfOk result (λ s. served_said s
        ≡ Unserved (member_path_text (join_with_byte slash (start_names start.entry)) way.value)) }
{
    let text = start.text(alloc)?;
    Ok(OperationServed::Unserved(MemberPath::new(text, way)))
}
