// The values of enums, made once for each shape of a table. The rows of the members that target it share them.
ghost use Rattle.std.specs.Prelude.{◌≡◌, ◌<◌, IfOk, Some, length, map, slice_get};
ghost use Rattle.sm_model.specs.GraphView.{AreShapeNumbers, IsShapeNumber, maps_of};
ghost use Rattle.sm_model.specs.Reaching.{id_of_number};
ghost use Rattle.sm_compile.specs.Said.{numbers_said, texts_said};
ghost use Rattle.sm_compile.specs.steps.Naming.{texts_of_all};
ghost use Rattle.sm_compile.specs.steps.Valued.{AreValues, HasValues, HasValuesOf};

use crate::enums::{enum_numbers, enum_texts};
use crate::look::{kind_of, members_of};
use sm_model::{Graph, Kind};
use sm_shapes::constraints::{Numbers, Texts};
use sm_tree::{NoMemory, Text};
use std::alloc::Global;

/// The values of an enum or an intEnum; of any other shape none.
#[derive(Drop)]
pub(crate) struct EnumValues {
    /// Those of an enum.
    pub texts: Texts,
    /// Those of an intEnum.
    pub numbers: Numbers,
}

impl EnumValues {
    /// These values once more, for another row. No memory: it is refused only where no more rows can be counted.
    pub(crate) fn share(&self) -> Result<EnumValues, NoMemory>
        ensures texts { IfOk result (λ values. values.texts ≡ self.now.texts) }
        ensures numbers { IfOk result (λ values. values.numbers ≡ self.now.numbers) }
    {
        Ok(EnumValues {
            texts: self.texts.share()?,
            numbers: self.numbers.share()?,
        })
    }
}

// Copies of texts.
fn copies(alloc: Global, texts: &[&str]) -> Result<Vec<Text>, NoMemory>
    ensures { IfOk result (λ all. all.items ≡ texts_of_all texts.now) }
{
    let mut all = Vec::with_capacity(alloc, texts.len())?;
    for text in texts {
        all.push(Text::copy(alloc, *text)?)?;
    }
    Ok(all)
}

// The values of an enum.
fn texts_of(
    alloc: Global,
    graph: &Graph,
    kind: Kind,
    members: &[u32],
) -> Result<Vec<Text>, NoMemory>
    requires { AreShapeNumbers graph.now members.now }
    ensures { IfOk result (λ texts. texts.items ≡ texts_said (maps_of graph.now) kind (map (id_of_number graph.now) members.now)) }
{
    match kind {
        Kind::Enum => copies(alloc, enum_texts(alloc, graph, members)?.as_slice()),
        _ => Ok(Vec::new(alloc)),
    }
}

// The values of an intEnum.
fn numbers_of(
    alloc: Global,
    graph: &Graph,
    kind: Kind,
    members: &[u32],
) -> Result<Vec<i64>, NoMemory>
    requires { AreShapeNumbers graph.now members.now }
    ensures { IfOk result (λ numbers. numbers.items ≡ numbers_said (maps_of graph.now) kind (map (id_of_number graph.now) members.now)) }
{
    match kind {
        Kind::IntEnum => enum_numbers(alloc, graph, members),
        _ => Ok(Vec::new(alloc)),
    }
}

// The values of a shape of this type with these members.
fn values_of(
    alloc: Global,
    graph: &Graph,
    kind: Kind,
    members: &[u32],
) -> Result<EnumValues, NoMemory>
    requires { AreShapeNumbers graph.now members.now }
    ensures { IfOk result (λ values. HasValues (maps_of graph.now) kind (map (id_of_number graph.now) members.now) values) }
{
    let texts = texts_of(alloc, graph, kind, members)?;
    let numbers = numbers_of(alloc, graph, kind, members)?;
    Ok(EnumValues {
        texts: Texts::new(alloc, texts)?,
        numbers: Numbers::new(alloc, numbers)?,
    })
}

// The values of what has a number; a member has none.
fn values_at(alloc: Global, graph: &Graph, number: u32) -> Result<EnumValues, NoMemory>
    requires { IsShapeNumber graph.now number }
    ensures { IfOk result (λ values. HasValuesOf graph.now number values) }
{
    match kind_of(graph, number) {
        Some(kind) => values_of(alloc, graph, kind, members_of(graph, number)),
        None => Ok(EnumValues {
            texts: Texts::none(),
            numbers: Numbers::none(),
        }),
    }
}

/// The values of the shapes with these numbers.
pub(crate) fn values_of_shapes(
    alloc: Global,
    graph: &Graph,
    shapes: &[u32],
) -> Result<Vec<EnumValues>, NoMemory>
    requires { AreShapeNumbers graph.now shapes.now }
    ensures { IfOk result (λ values. AreValues graph.now shapes.now values.items) }
{
    let mut values = Vec::with_capacity(alloc, shapes.len())?;
    for shape in shapes {
        values.push(values_at(alloc, graph, *shape)?)?;
    }
    Ok(values)
}

/// Those of the shape that has this number in the table. No memory.
pub(crate) fn values_in(values: &[EnumValues], row: usize) -> &EnumValues
    requires { row < length values.now }
    ensures { slice_get values.now row ≡ Some result.now }
{
    &values[row]
}
