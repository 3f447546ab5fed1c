// What only tests say of models: that graphs, that of the prelude among them, are made and written where memory is ample.
ghost use Rattle.std.specs.Prelude.{◌≡◌, [], ◌∷◌, IfOk, codes};
ghost use Rattle.sm_ids.specs.Identifier.{IsIdentifier};
ghost use Rattle.sm_tree.specs.Node.{no_members, object};
ghost use Rattle.sm_tree.specs.View.{node_of, pairs_view};
ghost use Rattle.sm_model.specs.Given.{AreGiven, AreGivenMembers, given_names};
ghost use Rattle.sm_model.specs.GivenView.{given_view, members_given_of};
ghost use Rattle.sm_model.specs.References.{IsShapeId};

use sm_ast::write_ast;
use sm_ids::{ShapeId, ShapeIdRef};
use sm_json::read_tree;
use sm_merge::prelude;
use sm_model::{Graph, GraphMember, GraphMembers, GraphShape, Kind};
use sm_tree::{NoMemory, Pairs, Text, Tree};
use std::alloc::Global;
use std::test::Fail;

// The id of a shape of the namespace `a`.
fn shape_id(alloc: Global, name: &str) -> Result<ShapeId, NoMemory>
    requires { IsIdentifier name.now }
    ensures { IfOk result IsShapeId }
{
    let id = ShapeIdRef {
        namespace: "a",
        name,
        member: None,
    };
    match ShapeId::new(alloc, &id) {
        Ok(id) => Ok(id),
        Err(_) => Err(NoMemory),
    }
}

// A member without traits.
fn member(alloc: Global, name: &str, target: &str) -> Result<GraphMember, NoMemory>
    requires target { IsIdentifier target.now }
    ensures name { IfOk result (λ m. m.name ≡ name.now) }
    ensures target { IfOk result (λ m. IsShapeId m.target) }
    ensures traits { IfOk result (λ m. pairs_view m.traits ≡ []) }
{
    Ok(GraphMember {
        name: Text::copy(alloc, name)?,
        target: shape_id(alloc, target)?,
        traits: Pairs::new(Vec::new(alloc)),
    })
}

// An object without pairs.
fn no_properties(alloc: Global) -> Tree
    ensures { node_of result ≡ object no_members }
{
    Tree::Object(Pairs::new(Vec::new(alloc)))
}

// The members of the structure, in an order that isn't that of their ids.
fn members(alloc: Global) -> Result<GraphMembers, NoMemory>
    ensures { IfOk result (λ m. AreGivenMembers (members_given_of m) × (given_names (members_given_of m) ≡ codes "second" ∷ codes "first" ∷ [])) }
{
    let second = member(alloc, "second", "T")?;
    let first = member(alloc, "first", "S")?;
    Ok(GraphMembers::new(vec![in alloc; second, first]?))
}

// A structure `a#S` whose members stand in another order than their ids; `a#T` isn't there.
fn structure(alloc: Global) -> Result<Vec<GraphShape>, NoMemory>
    ensures { IfOk result (λ shapes. AreGiven (given_view shapes.items) []) }
{
    let shape = GraphShape {
        id: shape_id(alloc, "S")?,
        kind: Kind::Structure,
        members: members(alloc)?,
        properties: no_properties(alloc),
        traits: Pairs::new(Vec::new(alloc)),
    };
    Ok(vec![in alloc; shape]?)
}

// The ids of the graph by number, and the numbers of all members.
fn looked_up(alloc: Global, graph: &Graph) -> Result<(String, Vec<u32>), NoMemory> {
    let mut ids = String::new(alloc);
    let mut members = Vec::new(alloc);
    for number in 0..graph.count() {
        ids.push_str(graph.id(number).as_str())?;
        ids.push(' ')?;
        members.extend_from_slice(graph.members(number))?;
    }
    Ok((ids, members))
}

#[test]
fn ids_are_in_order_and_members_in_model_order(rt: HostRuntime) -> Result<(), Fail> {
    let alloc = rt.alloc();
    let graph = Graph::build(alloc, structure(alloc)?, Vec::new(alloc))?;
    let (ids, members) = looked_up(alloc, &graph)?;
    assert_eq!(rt; ids.as_str(), "a#S a#S$first a#S$second ");
    assert_eq!(rt; members.as_slice(), [2, 1].as_slice());
    Ok(())
}

const WRITTEN: &str =
    r#"{"smithy":"2.0","shapes":{"a#S":{"type":"structure","members":{"second":{"target":"a#T"},"first":{"target":"a#S"}}}}}"#;

// The tree of the graph.
fn written(alloc: Global) -> Result<Tree, NoMemory> {
    let graph = Graph::build(alloc, structure(alloc)?, Vec::new(alloc))?;
    write_ast(alloc, &graph)
}

#[test]
fn members_are_written_in_model_order(rt: HostRuntime) -> Result<(), Fail> {
    let tree = written(rt.alloc())?;
    let expected = read_tree(rt.alloc(), WRITTEN.as_bytes());
    assert!(rt; expected == Ok(tree));
    Ok(())
}

// How many shapes the prelude has.
fn prelude_count(alloc: Global) -> Result<u32, NoMemory> {
    Ok(prelude(alloc)?.count())
}

#[test]
fn the_prelude_has_all_its_shapes(rt: HostRuntime) -> Result<(), Fail> {
    let count = prelude_count(rt.alloc())?;
    assert_eq!(rt; count, 21);
    Ok(())
}
