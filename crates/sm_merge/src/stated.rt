// Statements with absolute ids: what files are merged from.
ghost use Rattle.std.specs.Prelude.{◌≡◌, ◌++◌, IfOk, OnOk, map};
ghost use Rattle.sm_ids.specs.IdText.{IsIdText};
ghost use Rattle.sm_tree.specs.View.{members_view};
ghost use Rattle.sm_model.specs.Formed.{AreFormed, AreStatedMembers, IsFormed, IsFormedShape};
ghost use Rattle.sm_model.specs.GivenView.{member_given_view, members_given_view};
ghost use Rattle.sm_model.specs.References.{IsReference};
ghost use Rattle.sm_model.specs.SaidView.{member_statements_view, member_view, shape_view, statement_view, statements_view, traits_view};
ghost use Rattle.sm_merge.specs.Files.{files_view};
ghost use Rattle.sm_merge.specs.Meaning.{meaning as meant, meanings};
ghost use Rattle.sm_merge.specs.Stated.{AreFormedFiles, member_stated, shape_with_ids, stated as statement_stated, stated_by};
ghost use Rattle.sm_merge.specs.Stated.{traits_stated};
ghost use Rattle.sm_merge.specs.steps.Known.{known};
ghost use Rattle.sm_merge.specs.steps.Rows.{members_stated, row_view, rows_view, shape_row_view};

use crate::body::body;
use crate::meaning::meaning;
use crate::names::Names;
use crate::node::meant_node;
use sm_ids::{ShapeId, ShapeIdRef};
use sm_model::{
    GraphMember, GraphMembers, GraphShape, MemberStatement, Ref, ShapeStatement, Statement,
    TraitUse,
};
use sm_tree::{NoMemory, Pairs, Text, Tree};
use std::alloc::Global;

/// A statement.
#[derive(Drop)]
pub(crate) enum StatedRow {
    /// Metadata: a key with its value.
    Metadata(Text, Tree),
    /// A shape.
    Shape(ShapeRow),
    /// Traits that are applied to a shape or member.
    Apply(ShapeId, Pairs),
}

/// A shape, and the ids of what it mixes in.
#[derive(Drop)]
pub(crate) struct ShapeRow {
    /// The shape as it is stated.
    pub shape: GraphShape,
    /// The ids of its mixins, in order.
    pub mixins: Vec<Text>,
}

/// The statements of all files, in the order in which the files are named.
pub(crate) fn stated(alloc: Global, files: &[Vec<Statement>]) -> Result<Vec<StatedRow>, NoMemory>
    requires { AreFormedFiles (files_view files.now) }
    ensures { IfOk result (λ rows. rows_view rows.items ≡ stated_by (files_view files.now)) }
{
    let names = Names::new(alloc, files)?;
    let mut rows = Vec::new(alloc);
    for file in files {
        put_rows(alloc, &names, file.as_slice(), &mut rows)?;
    }
    Ok(rows)
}

fn put_rows(
    alloc: Global,
    names: &Names<'_>,
    file: &[Statement],
    rows: &mut Vec<StatedRow>,
) -> Result<(), NoMemory>
    requires { AreFormed (statements_view file.now) }
    ensures { OnOk result (rows_view rows.new.items
        ≡ rows_view rows.old.items ++ map (statement_stated (known names.now)) (statements_view file.now)) }
{
    rows.reserve(file.len())?;
    for statement in file {
        rows.push(row(alloc, names, statement)?)?;
    }
    Ok(())
}

fn row(alloc: Global, names: &Names<'_>, statement: &Statement) -> Result<StatedRow, NoMemory>
    requires { IsFormed (statement_view statement.now) }
    ensures { IfOk result (λ row. row_view row ≡ statement_stated (known names.now) (statement_view statement.now)) }
{
    match statement {
        Statement::Metadata(key, value) => {
            let value = meant_node(alloc, names, value)?;
            Ok(StatedRow::Metadata(Text::copy(alloc, key.as_str())?, value))
        }
        Statement::Shape(shape) => Ok(StatedRow::Shape(shape_row(alloc, names, shape)?)),
        Statement::Apply(id, traits) => {
            let traits = meant_traits(alloc, names, traits.as_slice())?;
            Ok(StatedRow::Apply(meant_id(alloc, names, id)?, Pairs::new(traits)))
        }
    }
}

fn shape_row(alloc: Global, names: &Names<'_>, shape: &ShapeStatement) -> Result<ShapeRow, NoMemory>
    requires { IsFormedShape (shape_view shape.now) }
    ensures { IfOk result (λ row. shape_row_view row ≡ shape_with_ids (known names.now) (shape_view shape.now)) }
{
    let id = copied_id(alloc, &shape.id)?;
    let members = meant_members(alloc, names, shape.members.as_slice())?;
    let properties = body(alloc, names, shape.kind, &shape.properties)?;
    let traits = meant_traits(alloc, names, shape.traits.as_slice())?;
    let mixins = meant_ids(alloc, names, shape.mixins.as_slice())?;
    let shape = GraphShape {
        id,
        kind: shape.kind,
        members: GraphMembers::new(members),
        properties,
        traits: Pairs::new(traits),
    };
    Ok(ShapeRow { shape, mixins })
}

/// A copy of an id.
pub fn copied_id(alloc: Global, id: &ShapeId) -> Result<ShapeId, NoMemory>
    ensures { IfOk result (λ copy. copy ≡ id.now) }
{
    match ShapeId::new(alloc, &id.as_ref()) {
        Ok(copy) => Ok(copy),
        Err(_) => Err(NoMemory),
    }
}

fn meant_members(
    alloc: Global,
    names: &Names<'_>,
    members: &[MemberStatement],
) -> Result<Vec<GraphMember>, NoMemory>
    requires { AreStatedMembers (member_statements_view members.now) }
    ensures { IfOk result (λ made. members_given_view made.items ≡ members_stated (known names.now) (member_statements_view members.now)) }
{
    let mut made = Vec::with_capacity(alloc, members.len())?;
    for member in members {
        made.push(meant_member(alloc, names, member)?)?;
    }
    Ok(made)
}

fn meant_member(
    alloc: Global,
    names: &Names<'_>,
    member: &MemberStatement,
) -> Result<GraphMember, NoMemory>
    requires { IsReference member.now.target }
    ensures { IfOk result (λ made. member_given_view made ≡ member_stated (known names.now) (member_view member.now)) }
{
    let name = Text::copy(alloc, member.name.as_str())?;
    let target = meant_id(alloc, names, &member.target)?;
    let traits = meant_traits(alloc, names, member.traits.as_slice())?;
    Ok(GraphMember {
        name,
        target,
        traits: Pairs::new(traits),
    })
}

// The id of a shape or member that a reference means.
fn meant_id(alloc: Global, names: &Names<'_>, reference: &Ref) -> Result<ShapeId, NoMemory>
    requires { IsReference reference.now }
    ensures { IfOk result (λ id. id ≡ meant (known names.now) reference.now) }
{
    match &reference.namespace {
        None => id_of_text(alloc, reference.text.as_str()),
        Some(_) => {
            let text = meaning(alloc, names, reference)?;
            id_of_text(alloc, text.as_str())
        }
    }
}

fn id_of_text(alloc: Global, text: &str) -> Result<ShapeId, NoMemory>
    requires { IsIdText text.now }
    ensures { IfOk result (λ id. id ≡ text.now) }
{
    match ShapeIdRef::parse(text) {
        Ok(id) => match ShapeId::new(alloc, &id) {
            Ok(owned) => Ok(owned),
            Err(_) => Err(NoMemory),
        },
        Err(_) => unreachable!(),
    }
}

fn meant_ids(alloc: Global, names: &Names<'_>, references: &[Ref]) -> Result<Vec<Text>, NoMemory>
    ensures { IfOk result (λ ids. ids.items ≡ meanings (known names.now) references.now) }
{
    let mut ids = Vec::with_capacity(alloc, references.len())?;
    for reference in references {
        ids.push(meaning(alloc, names, reference)?)?;
    }
    Ok(ids)
}

fn meant_traits(
    alloc: Global,
    names: &Names<'_>,
    uses: &[TraitUse],
) -> Result<Vec<(Text, Tree)>, NoMemory>
    ensures { IfOk result (λ traits. members_view traits.items ≡ traits_stated (known names.now) (traits_view uses.now)) }
{
    let mut traits = Vec::with_capacity(alloc, uses.len())?;
    for one in uses {
        let value = meant_node(alloc, names, &one.value)?;
        traits.push((meaning(alloc, names, &one.id)?, value))?;
    }
    Ok(traits)
}
