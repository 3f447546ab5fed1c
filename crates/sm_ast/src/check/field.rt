// The fields of a shape whose type is known.
ghost use Rattle.std.specs.Prelude.{Some};
ghost use Rattle.sm_tree.specs.Node.{members_of};
ghost use Rattle.sm_tree.specs.View.{node_of, members_view};
ghost use Rattle.sm_ast.specs.Faults.{form_fault, typed_fault};
ghost use Rattle.sm_ast.specs.steps.Checks.{Checks};

use super::member::{check_member, check_named_members};
use super::pairs::{PairRule, check_object};
use super::property::check_property;
use super::reference::check_references;
use super::traits::check_traits;
use crate::layout::{FieldForm, ShapeType};
use crate::refusal::AstRefusal;
use sm_model::Kind;
use sm_tree::{Text, Tree};
use std::alloc::Global;

/// A pair of a shape of this type.
#[derive(Drop)]
struct IsFieldOf {
    shape_type: ShapeType,
}

impl PairRule for IsFieldOf {
    ghost use Rattle.sm_ast.specs.Faults.{form_fault};
    ghost use Rattle.sm_ast.specs.Layout.{field_named, layout_of};

    ghost fault = { λ rule k n. form_fault (field_named k (layout_of rule.shape_type)) n };

    fn check(&self, alloc: Global, name: &Text, tree: &Tree) -> Result<(), AstRefusal> {
        match self.shape_type.field(name.as_str()) {
            Some(form) => check_field(alloc, form, tree),
            None => Err(AstRefusal::field(alloc)),
        }
    }
}

fn check_field(alloc: Global, form: FieldForm, tree: &Tree) -> Result<(), AstRefusal>
    ensures { Checks (form_fault (Some form) (node_of tree.now)) result }
{
    match form {
        FieldForm::TypeName => Ok(()),
        FieldForm::OneMember => check_member(alloc, tree),
        FieldForm::AllMembers => check_named_members(alloc, tree),
        FieldForm::Property(form) => check_property(alloc, form, tree),
        FieldForm::Mixins => check_references(alloc, tree),
        FieldForm::Traits => check_traits(alloc, tree),
    }
}

/// The pairs of a shape of this type.
pub(crate) fn check_fields(
    alloc: Global,
    shape_type: ShapeType,
    pairs: &[(Text, Tree)],
) -> Result<(), AstRefusal>
    ensures { Checks (typed_fault (Some shape_type) (members_of (members_view pairs.now))) result }
{
    let rule = IsFieldOf { shape_type };
    match shape_type {
        ShapeType::Defined(Kind::List) => check_object(alloc, &rule, &["member"], pairs),
        ShapeType::Defined(Kind::Map) => check_object(alloc, &rule, &["key", "value"], pairs),
        ShapeType::Defined(_) => check_object(alloc, &rule, &[], pairs),
        ShapeType::Applied => check_object(alloc, &rule, &["traits"], pairs),
    }
}
