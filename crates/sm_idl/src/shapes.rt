// Shapes and statements (Smithy 2.0, "Smithy IDL", "Shapes").
ghost use Rattle.std.specs.Prelude.{◌≡◌, ◌++◌, [], ◌∷◌, ◌↔◌, IsTrue, IfOk};
ghost use Rattle.sm_ids.specs.Identifier.{IsIdentifier};
ghost use Rattle.sm_model.specs.Said.{shape_said};
ghost use Rattle.sm_model.specs.SaidView.{traits_view, statement_view, statements_view};
ghost use Rattle.sm_idl.specs.Shapes.{simple_body, members_body, operation_body, pairs_body, body, stated_shape, shape_with, shape, item};
ghost use Rattle.sm_idl.specs.steps.Classes.{With};
ghost use Rattle.sm_idl.specs.steps.Firm.{HeadIs};
ghost use Rattle.sm_idl.specs.steps.HomeView.{home_of_file};
ghost use Rattle.sm_idl.specs.steps.FileClasses.{TypeWord, ItemStart, ItemGoesOn};
ghost use Rattle.sm_idl.specs.steps.MemberSteps.{form_of, entry};
ghost use Rattle.sm_idl.specs.steps.PartSteps.{suffixes_view};
ghost use Rattle.sm_idl.specs.steps.ReaderView.{left, ReadsAs, ReadsOn};
ghost use Rattle.sm_idl.specs.steps.ShapeSteps.{body_form, body_view, AddsSaid, ReadsItems};

use crate::home::FileHome;
use crate::made::{empty_node, object_node};
use crate::members::MemberKind;
use crate::operations::Suffixes;
use crate::reader::{ReadStop, Reader};
use sm_lex::TokenKind;
use sm_model::{
    Kind, MemberStatement, MemberStatements, RawNode, Ref, Refs, ShapeStatement, Statement,
    TraitUse, TraitUses,
};
use sm_tree::NoMemory;
use std::alloc::Global;

/// What stands behind the name of a shape.
#[derive(Debug, Clone, Copy, PartialEq, Eq, Drop)]
pub(crate) enum BodyForm {
    /// Nothing but mixins.
    Simple,
    /// Members.
    Members(MemberKind),
    /// The parts of an operation.
    Parts,
    /// The fields of a service or a resource.
    Fields,
}

/// What a shape has beside its id, its type and its traits, and the statements of the structures that it defines in place.
#[derive(Drop)]
pub(crate) struct Body {
    /// Its own members.
    pub(crate) members: Vec<MemberStatement>,
    /// What it mixes in.
    pub(crate) mixins: Vec<Ref>,
    /// The pairs of an operation, a service or a resource.
    pub(crate) properties: RawNode,
    /// The structures that it defines.
    pub(crate) defined: Vec<Statement>,
}

/// What stands behind the name of a shape of this type.
fn body_form(kind: Kind) -> BodyForm
    ensures { result ≡ body_form kind }
{
    match kind {
        Kind::Enum | Kind::IntEnum => BodyForm::Members(MemberKind::Value),
        Kind::List => BodyForm::Members(MemberKind::Item),
        Kind::Map => BodyForm::Members(MemberKind::Pair),
        Kind::Union => BodyForm::Members(MemberKind::Choice),
        Kind::Structure => BodyForm::Members(MemberKind::Field),
        Kind::Operation => BodyForm::Parts,
        Kind::Service | Kind::Resource => BodyForm::Fields,
        Kind::Blob
        | Kind::Boolean
        | Kind::Text
        | Kind::Byte
        | Kind::Short
        | Kind::Integer
        | Kind::Long
        | Kind::Float
        | Kind::Double
        | Kind::BigInteger
        | Kind::BigDecimal
        | Kind::Timestamp
        | Kind::Document => BodyForm::Simple,
    }
}

/// Puts a statement behind others.
pub(crate) fn put(statements: &mut Vec<Statement>, statement: Statement) -> Result<(), NoMemory>
    ensures { IfOk result (λ _. statements_view statements.new.items ≡ statements_view statements.old.items ++ statement_view statement
        ∷ []) }
{
    match statements.push(statement) {
        Ok(()) => Ok(()),
        Err(_) => Err(NoMemory),
    }
}

/// A shape that a file defines.
fn stated(
    alloc: Global,
    home: &FileHome<'_>,
    kind: Kind,
    name: &str,
    traits: Vec<TraitUse>,
    body: Body,
    statements: &mut Vec<Statement>,
) -> Result<(), NoMemory>
    requires { IsIdentifier name.now }
    ensures { IfOk result (λ _. statements_view statements.new.items ≡ statements_view statements.old.items
        ++ (shape_said (stated_shape (home_of_file home.now) kind name.now (body_view body) (traits_view traits.items)) ∷
        (body_view body).defined)) }
{
    let id = match home.defined_id(alloc, name) {
        Ok(id) => id,
        Err(refusal) => return Err(refusal),
    };
    let Body {
        members,
        mixins,
        properties,
        defined,
    } = body;
    let shape = ShapeStatement {
        id,
        kind,
        members: MemberStatements::new(members),
        mixins: Refs::new(mixins),
        properties,
        traits: TraitUses::new(traits),
    };
    match statements.push(Statement::Shape(shape)) {
        Ok(()) => {}
        Err(_) => return Err(NoMemory),
    }
    let mut defined = defined;
    match statements.append(&mut defined) {
        Ok(()) => Ok(()),
        Err(_) => Err(NoMemory),
    }
}

impl<'t, 'a> Reader<'t, 'a> {
    /// Reads the mixins of a simple shape.
    fn simple_body(&mut self, alloc: Global, home: &FileHome<'_>) -> Result<Body, ReadStop>
        ensures { ReadsOn With body_view (simple_body (home_of_file home.now)) (left self.old) (left self.new) result }
    {
        match self.mixins(alloc, home) {
            Ok(mixins) => Ok(Body {
                members: Vec::new(alloc),
                mixins,
                properties: empty_node(alloc),
                defined: Vec::new(alloc),
            }),
            Err(stop) => Err(stop),
        }
    }

    /// Reads mixins and members.
    fn members_body(
        &mut self,
        alloc: Global,
        home: &FileHome<'_>,
        kind: MemberKind,
    ) -> Result<Body, ReadStop>
        ensures { ReadsAs body_view (members_body (home_of_file home.now) (form_of kind) (entry (home_of_file home.now) kind))
            (left self.old) (left self.new) result }
    {
        let mixins = match self.mixins(alloc, home) {
            Ok(mixins) => mixins,
            Err(stop) => return Err(stop),
        };
        match self.members(alloc, home, kind) {
            Ok(members) => Ok(Body {
                members,
                mixins,
                properties: empty_node(alloc),
                defined: Vec::new(alloc),
            }),
            Err(stop) => Err(stop),
        }
    }

    /// Reads the parts of an operation, between their braces.
    fn operation_body(
        &mut self,
        alloc: Global,
        home: &FileHome<'_>,
        endings: &Suffixes,
        name: &str,
    ) -> Result<Body, ReadStop>
        ensures { ReadsAs body_view (operation_body (home_of_file home.now) (suffixes_view endings.now) name.now) (left self.old)
            (left self.new) result }
    {
        match self.mark("{") {
            Ok(()) => {}
            Err(stop) => return Err(stop),
        }
        let parts = match self.parts(alloc, home, endings, name) {
            Ok(parts) => parts,
            Err(stop) => return Err(stop),
        };
        match self.mark("}") {
            Ok(()) => Ok(Body {
                members: Vec::new(alloc),
                mixins: Vec::new(alloc),
                properties: object_node(parts.pairs),
                defined: parts.defined,
            }),
            Err(stop) => Err(stop),
        }
    }

    /// Reads the fields of a service or a resource.
    fn pairs_body(
        &mut self,
        alloc: Global,
        home: &FileHome<'_>,
        kind: Kind,
    ) -> Result<Body, ReadStop>
        ensures { ReadsAs body_view (pairs_body (home_of_file home.now) kind) (left self.old) (left self.new) result }
    {
        match self.properties(alloc, home, kind) {
            Ok(properties) => Ok(Body {
                members: Vec::new(alloc),
                mixins: Vec::new(alloc),
                properties,
                defined: Vec::new(alloc),
            }),
            Err(stop) => Err(stop),
        }
    }

    /// Reads what stands behind the name of a shape.
    fn body(
        &mut self,
        alloc: Global,
        home: &FileHome<'_>,
        endings: &Suffixes,
        kind: Kind,
        name: &str,
    ) -> Result<Body, ReadStop>
        ensures { ReadsOn With body_view (body (home_of_file home.now) (suffixes_view endings.now) kind name.now) (left self.old)
            (left self.new) result }
    {
        match body_form(kind) {
            BodyForm::Simple => self.simple_body(alloc, home),
            BodyForm::Members(members) => self.members_body(alloc, home, members),
            BodyForm::Parts => self.operation_body(alloc, home, endings, name),
            BodyForm::Fields => self.pairs_body(alloc, home, kind),
        }
    }

    /// Reads a shape behind its documentation.
    fn shape_with(
        &mut self,
        alloc: Global,
        home: &FileHome<'_>,
        endings: &Suffixes,
        docs: Vec<TraitUse>,
        statements: &mut Vec<Statement>,
    ) -> Result<(), ReadStop>
        ensures { AddsSaid With (shape_with (home_of_file home.now) (suffixes_view endings.now) (traits_view docs.items))
            (statements_view statements.old.items) (statements_view statements.new.items) (left self.old) (left self.new) result }
    {
        let mut traits = docs;
        match self.traits(alloc, home, &mut traits) {
            Ok(()) => {}
            Err(stop) => return Err(stop),
        }
        let kind = match self.type_word() {
            Ok(kind) => kind,
            Err(stop) => return Err(stop),
        };
        let name = match self.identifier() {
            Ok(name) => name,
            Err(stop) => return Err(stop),
        };
        let body = match self.body(alloc, home, endings, kind, name) {
            Ok(body) => body,
            Err(stop) => return Err(stop),
        };
        match stated(alloc, home, kind, name, traits, body, statements) {
            Ok(()) => Ok(()),
            Err(_) => Err(ReadStop::NoMemory),
        }
    }

    /// Reads a shape.
    fn shape(
        &mut self,
        alloc: Global,
        home: &FileHome<'_>,
        endings: &Suffixes,
        statements: &mut Vec<Statement>,
    ) -> Result<(), ReadStop>
        ensures { AddsSaid With (shape (home_of_file home.now) (suffixes_view endings.now))
            (statements_view statements.old.items) (statements_view statements.new.items) (left self.old) (left self.new) result }
    {
        match self.docs(alloc) {
            Ok(docs) => self.shape_with(alloc, home, endings, docs, statements),
            Err(_) => Err(ReadStop::NoMemory),
        }
    }

    /// Reads a shape or an apply statement.
    fn item(
        &mut self,
        alloc: Global,
        home: &FileHome<'_>,
        endings: &Suffixes,
        statements: &mut Vec<Statement>,
    ) -> Result<(), ReadStop>
        ensures { AddsSaid ItemGoesOn (item (home_of_file home.now) (suffixes_view endings.now))
            (statements_view statements.old.items) (statements_view statements.new.items) (left self.old) (left self.new) result }
    {
        if self.is_at_word("apply") {
            return match self.apply(alloc, home) {
                Ok(applied) => match put(statements, applied) {
                    Ok(()) => Ok(()),
                    Err(_) => Err(ReadStop::NoMemory),
                },
                Err(stop) => Err(stop),
            };
        }
        self.shape(alloc, home, endings, statements)
    }

    /// Whether the next token is the name of a type.
    fn is_at_type(&self) -> bool
        ensures { IsTrue result ↔ HeadIs TypeWord (left self.now) }
    {
        match self.next() {
            Some(token) => match token.kind {
                TokenKind::Word => Kind::named(token.text).is_some(),
                _ => false,
            },
            None => false,
        }
    }

    /// Whether the next token begins a shape or an apply statement.
    fn is_at_item(&self) -> bool
        ensures { IsTrue result ↔ HeadIs ItemStart (left self.now) }
    {
        self.is_at_mark("@") || self.is_at_type() || self.is_at_word("apply")
    }

    /// Reads shapes and apply statements, as many as stand here, behind the statements that there are.
    pub(crate) fn statements(
        &mut self,
        alloc: Global,
        home: &FileHome<'_>,
        endings: &Suffixes,
        statements: &mut Vec<Statement>,
    ) -> Result<(), ReadStop>
        ensures { ReadsItems (home_of_file home.now) (suffixes_view endings.now)
            (statements_view statements.old.items) (statements_view statements.new.items) (left self.old) (left self.new) result }
    {
        while self.is_at_item() {
            match self.item(alloc, home, endings, statements) {
                Ok(()) => {}
                Err(stop) => return Err(stop),
            }
        }
        Ok(())
    }
}
