// What a graph says of the shapes of a table, and of their members.
ghost use Rattle.std.specs.Prelude.{◌≡◌, ◌++◌, ℕ, List, IfOk, OnOk, is_some, length, map};
ghost use Rattle.std.specs.List.{flat_map};
ghost use Rattle.std.specs.Option.{option_copied};
ghost use Rattle.sm_model.specs.GraphView.{AreShapeNumbers, IsShapeNumber, entries_of, maps_of};
ghost use Rattle.sm_model.specs.Reaching.{AreMarks, id_of_number};
ghost use Rattle.sm_compile.specs.Compiled.{members_under};
ghost use Rattle.sm_compile.specs.Reached.{IsReached};
ghost use Rattle.sm_compile.specs.Sound.{trait_of};
ghost use Rattle.sm_compile.specs.TraitNodes.{text_of};
ghost use Rattle.sm_compile.specs.steps.Looked.{LeadsByNumber};
ghost use Rattle.sm_schema.specs.NotesView.{member_notes_data, notes_data, shape_notes_data};
ghost use Rattle.sm_notes.specs.NotesSaid.{deprecated_id, documentation_id, said_of_member, said_of_shape};
ghost use Rattle.sm_notes.specs.TableShapes.{AreTableShapes, AreNotesOf};

use sm_compile::{
    has_trait, id_text, members_of, tabled_shapes, target_of, text_in_trait, trait_node,
    value_members,
};
use sm_model::{Graph, Steps, mark, mark_all, no_marks, spread};
use sm_schema::{MemberNotes, Notes, ShapeNotes};
use sm_tree::NoMemory;
use std::alloc::Global;

// The steps of a graph from a shape to its members and from a member to its target.
#[derive(Drop)]
struct MemberSteps<'a> {
    graph: &'a Graph,
}

impl Steps for MemberSteps<'_> {
    ghost leads = { λ steps. LeadsByNumber steps.graph.now };

    ghost bound = { λ steps. length (entries_of steps.graph.now) };

    ghost keeps = { λ steps. Unit {0} };

    fn visit(
        &self,
        number: u32,
        marks: &mut Vec<bool>,
        found: &mut Vec<u32>,
    ) -> Result<(), NoMemory> {
        match target_of(self.graph, number) {
            Some(target) => mark(target, marks, found),
            None => mark_all(members_of(self.graph, number), marks, found),
        }
    }
}

// What is reached from the shape at a number, as marks.
fn reached(alloc: Global, graph: &Graph, root: u32) -> Result<Vec<bool>, NoMemory>
    requires { IsShapeNumber graph.now root }
    ensures { IfOk result (λ marks. AreMarks (length (entries_of graph.now))
        (λ k. IsReached (maps_of graph.now) (id_of_number graph.now root) (id_of_number graph.now k)) marks.items) }
{
    let mut marks = no_marks(alloc, graph.count() as usize)?;
    let mut found = Vec::new(alloc);
    mark_all(&[root], &mut marks, &mut found)?;
    spread(&MemberSteps { graph }, &mut marks, &mut found)?;
    Ok(marks)
}

// The numbers of the shapes that the table of a shape has, in their order there.
fn table_shapes(alloc: Global, graph: &Graph, root: u32) -> Result<Vec<u32>, NoMemory>
    requires { IsShapeNumber graph.now root }
    ensures numbers { IfOk result (λ shapes. AreShapeNumbers graph.now shapes.items) }
    ensures shapes { IfOk result (λ shapes.
        AreTableShapes (maps_of graph.now) (id_of_number graph.now root) (map (id_of_number graph.now) shapes.items)) }
{
    let marks = reached(alloc, graph, root)?;
    tabled_shapes(alloc, graph, marks.as_slice())
}

// The documentation of a shape or a member.
fn documentation(graph: &Graph, number: u32) -> Option<&str>
    requires { IsShapeNumber graph.now number }
    ensures { option_copied result ≡ text_of (trait_of (maps_of graph.now) (id_of_number graph.now number) documentation_id) }
{
    text_in_trait(trait_node(graph, number, "smithy.api#documentation"))
}

// Whether a shape or a member is deprecated.
fn is_deprecated(graph: &Graph, number: u32) -> bool
    requires { IsShapeNumber graph.now number }
    ensures { result ≡ is_some (trait_of (maps_of graph.now) (id_of_number graph.now number) deprecated_id) }
{
    has_trait(graph, number, "smithy.api#deprecated")
}

fn shape_said(graph: &Graph, shape: u32) -> ShapeNotes<'_>
    requires { IsShapeNumber graph.now shape }
    ensures { shape_notes_data result ≡ said_of_shape (maps_of graph.now) (id_of_number graph.now shape) }
{
    ShapeNotes {
        title: id_text(graph, shape),
        description: documentation(graph, shape),
        deprecated: is_deprecated(graph, shape),
    }
}

fn member_said(graph: &Graph, member: u32) -> MemberNotes<'_>
    requires { IsShapeNumber graph.now member }
    ensures { member_notes_data result ≡ said_of_member (maps_of graph.now) (id_of_number graph.now member) }
{
    MemberNotes {
        description: documentation(graph, member),
        deprecated: is_deprecated(graph, member),
    }
}

// What is said of these shapes.
fn shapes_said<'a>(
    alloc: Global,
    graph: &'a Graph,
    shapes: &[u32],
) -> Result<Vec<ShapeNotes<'a>>, NoMemory>
    requires { AreShapeNumbers graph.now shapes.now }
    ensures { IfOk result (λ said. map shape_notes_data said.items
        ≡ map (said_of_shape (maps_of graph.now)) (map (id_of_number graph.now) shapes.now)) }
{
    let mut said = Vec::with_capacity(alloc, shapes.len())?;
    for shape in shapes {
        match said.push(shape_said(graph, *shape)) {
            Ok(()) => {}
            Err(_) => return Err(NoMemory),
        }
    }
    Ok(said)
}

// Appends what is said of the members of a shape.
fn put_members<'a>(
    graph: &'a Graph,
    shape: u32,
    said: &mut Vec<MemberNotes<'a>>,
) -> Result<(), NoMemory>
    requires { IsShapeNumber graph.now shape }
    ensures { OnOk result (map member_notes_data said.new.items ≡ map member_notes_data said.old.items
        ++ map (said_of_member (maps_of graph.now)) (members_under (maps_of graph.now) (id_of_number graph.now shape))) }
{
    let members = value_members(graph, shape);
    for member in members {
        match said.push(member_said(graph, *member)) {
            Ok(()) => {}
            Err(_) => return Err(NoMemory),
        }
    }
    Ok(())
}

// What is said of the members of these shapes, shape by shape.
fn members_said<'a>(
    alloc: Global,
    graph: &'a Graph,
    shapes: &[u32],
) -> Result<Vec<MemberNotes<'a>>, NoMemory>
    requires { AreShapeNumbers graph.now shapes.now }
    ensures { IfOk result (λ said. map member_notes_data said.items
        ≡ map (said_of_member (maps_of graph.now))
        (flat_map (members_under (maps_of graph.now)) (map (id_of_number graph.now) shapes.now))) }
{
    let mut said = Vec::new(alloc);
    for shape in shapes {
        match put_members(graph, *shape, &mut said) {
            Ok(()) => {}
            Err(NoMemory) => return Err(NoMemory),
        }
    }
    Ok(said)
}

/// What the graph says to people of the shapes of the table of the shape at a number, and of their members, by their numbers in the table. The
/// texts are the graph's. `NoMemory` where memory is refused. n log n in what the shape reaches; the marks of what is reached are as many as
/// the graph has shapes and members.
pub fn notes_of<'a>(alloc: Global, graph: &'a Graph, root: u32) -> Result<Notes<'a>, NoMemory>
    requires { IsShapeNumber graph.now root }
    ensures { IfOk result (λ notes. AreNotesOf (maps_of graph.now) (id_of_number graph.now root) (notes_data notes)) }
{
    let shapes = table_shapes(alloc, graph, root)?;
    match shapes_said(alloc, graph, shapes.as_slice()) {
        Ok(said) => match members_said(alloc, graph, shapes.as_slice()) {
            Ok(members) => Ok(Notes {
                shapes: said,
                members,
            }),
            Err(NoMemory) => Err(NoMemory),
        },
        Err(NoMemory) => Err(NoMemory),
    }
}
