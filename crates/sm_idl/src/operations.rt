// Operations: their parts, and the structures that they define in place (Smithy 2.0, "Smithy IDL", "Inline input / output shapes").
ghost use Rattle.std.specs.Prelude.{◌≡◌, ◌++◌, [], ◌∷◌, ℕ, IfOk, List, map};
ghost use Rattle.sm_ids.specs.Identifier.{IsIdentifier};
ghost use Rattle.sm_model.specs.RawView.{raw_view, raws_view, raw_members_view};
ghost use Rattle.sm_model.specs.Raw.{raw_id, empty_raw};
ghost use Rattle.sm_model.specs.PreludeShapes.{api_id};
ghost use Rattle.sm_model.specs.Said.{TraitSaid};
ghost use Rattle.sm_model.specs.SaidView.{traits_view, member_statements_view, statements_view};
ghost use Rattle.sm_idl.specs.Traits.{standing_for};
ghost use Rattle.sm_idl.specs.Bodies.{PartSaid, part_names, part_word, part_target, inline_name};
ghost use Rattle.sm_idl.specs.Bodies.{inline_said, inline_with, part_inline, part_shape, part_errors, part};
ghost use Rattle.sm_idl.specs.steps.HomeView.{home_of_file};
ghost use Rattle.sm_idl.specs.steps.Names.{Remembers};
ghost use Rattle.sm_idl.specs.steps.PartSteps.{side_word, part_view, suffixes_view, target_said, errors_said, ReadsParts};
ghost use Rattle.sm_idl.specs.steps.PartSteps.{RemembersPart};
ghost use Rattle.sm_idl.specs.steps.ReaderView.{left, Reads, ReadsAs};

use crate::docs::standing_for;
use crate::home::FileHome;
use crate::members::MemberKind;
use crate::names::is_new;
use crate::reader::{ReadStop, Reader};
use crate::references::absolute;
use crate::shapes::put;
use crate::take::{is_mark, is_word};
use crate::unknown::joined;
use sm_ids::is_identifier;
use sm_model::{
    Kind, MemberStatement, MemberStatements, RawItems, RawNode, RawPairs, Ref, Refs,
    ShapeStatement, Statement, TraitUse, TraitUses,
};
use sm_tree::{NoMemory, Text};
use std::alloc::Global;
use std::collections::BTreeSet;

/// A side of an operation.
#[derive(Debug, Clone, Copy, PartialEq, Eq, Drop)]
pub(crate) enum OperationSide {
    /// What it takes.
    Input,
    /// What it gives.
    Output,
}

impl OperationSide {
    /// The word of the part.
    fn word(self) -> &'static str
        ensures { result.now ≡ side_word self }
    {
        match self {
            OperationSide::Input => "input",
            OperationSide::Output => "output",
        }
    }

    /// The trait of the structure that the part defines.
    fn trait_id(self) -> &'static str
        ensures { result.now ≡ api_id (side_word self) }
    {
        match self {
            OperationSide::Input => "smithy.api#input",
            OperationSide::Output => "smithy.api#output",
        }
    }
}

/// What the names of inline structures end with; `None` where a control says a word.
#[derive(Drop)]
pub(crate) struct Suffixes {
    /// Of inputs.
    pub(crate) input: Option<Text>,
    /// Of outputs.
    pub(crate) output: Option<Text>,
}

/// A part of an operation: its name, its node, and the structure that it defines in its place.
#[derive(Drop)]
pub(crate) struct Part {
    /// The name.
    pub(crate) name: Text,
    /// The node.
    pub(crate) value: RawNode,
    /// The statement of the structure, where it defines one.
    pub(crate) defined: Option<Statement>,
}

/// What the parts of an operation come to.
#[derive(Drop)]
pub(crate) struct Parts {
    /// Their names and nodes.
    pub(crate) pairs: Vec<(Text, RawNode)>,
    /// The statements of the structures that they define.
    pub(crate) defined: Vec<Statement>,
}

/// A trait of the prelude without a value, before the traits that there are.
fn with_first(alloc: Global, id: &str, traits: Vec<TraitUse>) -> Result<Vec<TraitUse>, NoMemory>
    ensures { (name : List ℕ) → id.now ≡ api_id name → IfOk result (λ all.
        traits_view all.items ≡ standing_for name empty_raw ∷ traits_view traits.items) }
{
    let mut traits = traits;
    match standing_for(alloc, id, RawNode::Object(RawPairs::new(Vec::new(alloc)))) {
        Ok(first) => match traits.insert(0, first) {
            Ok(()) => Ok(traits),
            Err(_) => Err(NoMemory),
        },
        Err(refusal) => Err(refusal),
    }
}

/// Puts a part behind others.
fn put_part(
    pairs: &mut Vec<(Text, RawNode)>,
    defined: &mut Vec<Statement>,
    part: Part,
) -> Result<(), NoMemory>
    ensures pairs { IfOk result (λ _. raw_members_view pairs.new.items ≡ raw_members_view pairs.old.items ++
        (part.name, raw_view part.value) ∷ []) }
    ensures defined { IfOk result (λ _. statements_view defined.new.items ≡ statements_view defined.old.items ++ (part_view part).defined) }
{
    match pairs.push((part.name, part.value)) {
        Ok(()) => {}
        Err(_) => return Err(NoMemory),
    }
    match part.defined {
        Some(statement) => put(defined, statement),
        None => Ok(()),
    }
}

/// A part that is a reference.
fn target_part(alloc: Global, home: &FileHome<'_>, name: &str, word: &str) -> Result<Part, NoMemory>
    ensures { IfOk result (λ part. part_view part ≡ target_said (home_of_file home.now) name.now word.now) }
{
    match Text::copy(alloc, name) {
        Ok(name) => match home.reference(alloc, word, false) {
            Ok(id) => Ok(Part {
                name,
                value: RawNode::Id(id),
                defined: None,
            }),
            Err(refusal) => Err(refusal),
        },
        Err(refusal) => Err(refusal),
    }
}

/// References as nodes.
fn id_nodes(alloc: Global, ids: Vec<Ref>) -> Result<Vec<RawNode>, NoMemory>
    ensures { IfOk result (λ nodes. raws_view nodes.items ≡ map raw_id ids.items) }
{
    let mut nodes: Vec<RawNode> = Vec::new(alloc);
    for id in ids {
        match nodes.push(RawNode::Id(id)) {
            Ok(()) => {}
            Err(_) => return Err(NoMemory),
        }
    }
    Ok(nodes)
}

/// The part of the errors.
fn errors_part(alloc: Global, ids: Vec<Ref>) -> Result<Part, NoMemory>
    ensures { IfOk result (λ part. part_view part ≡ errors_said ids.items) }
{
    match Text::copy(alloc, "errors") {
        Ok(name) => match id_nodes(alloc, ids) {
            Ok(nodes) => Ok(Part {
                name,
                value: RawNode::List(RawItems::new(nodes)),
                defined: None,
            }),
            Err(refusal) => Err(refusal),
        },
        Err(refusal) => Err(refusal),
    }
}

/// A part that defines a structure.
fn inline_part(
    alloc: Global,
    home: &FileHome<'_>,
    structure: &str,
    side: OperationSide,
    traits: Vec<TraitUse>,
    mixins: Vec<Ref>,
    members: Vec<MemberStatement>,
) -> Result<Part, NoMemory>
    requires { IsIdentifier structure.now }
    ensures { (ts : List TraitSaid) → traits_view traits.items ≡ standing_for (side_word side) empty_raw ∷ ts → IfOk result (λ part.
        part_view part ≡ inline_said (home_of_file home.now) structure.now (side_word side) ts mixins.items
        (member_statements_view members.items)) }
{
    let name = match Text::copy(alloc, side.word()) {
        Ok(name) => name,
        Err(refusal) => return Err(refusal),
    };
    let id = match home.defined_id(alloc, structure) {
        Ok(id) => id,
        Err(refusal) => return Err(refusal),
    };
    match absolute(alloc, id.as_str(), false) {
        Ok(target) => Ok(Part {
            name,
            value: RawNode::Id(target),
            defined: Some(Statement::Shape(ShapeStatement {
                id,
                kind: Kind::Structure,
                members: MemberStatements::new(members),
                mixins: Refs::new(mixins),
                properties: RawNode::Object(RawPairs::new(Vec::new(alloc))),
                traits: TraitUses::new(traits),
            })),
        }),
        Err(refusal) => Err(refusal),
    }
}

impl<'t, 'a> Reader<'t, 'a> {
    /// Reads the word of a part, which didn't come before.
    fn part_word(
        &mut self,
        alloc: Global,
        name: &str,
        seen: &mut BTreeSet<String>,
    ) -> Result<(), ReadStop>
        ensures reads { (before : List PartSaid) → Remembers seen.old (part_names before) →
            Reads (part_word name.now before) (left self.old) (left self.new) result }
        ensures seen { (before : List PartSaid) → Remembers seen.old (part_names before) →
            IfOk result (λ _. Remembers seen.new (part_names before ++ name.now ∷ [])) }
    {
        match self.next() {
            Some(token) => {
                if !is_word(&token, name) {
                    return Err(ReadStop::Syntax);
                }
                match is_new(alloc, seen, name) {
                    Ok(new) => {
                        if new {
                            self.take();
                            Ok(())
                        } else {
                            Err(ReadStop::Syntax)
                        }
                    }
                    Err(_) => Err(ReadStop::NoMemory),
                }
            }
            None => Err(ReadStop::Syntax),
        }
    }

    /// Reads a colon and the shape of a part.
    fn part_target(
        &mut self,
        alloc: Global,
        home: &FileHome<'_>,
        name: &str,
    ) -> Result<Part, ReadStop>
        ensures { ReadsAs part_view (part_target (home_of_file home.now) name.now) (left self.old) (left self.new) result }
    {
        match self.mark(":") {
            Ok(()) => {}
            Err(stop) => return Err(stop),
        }
        let word = match self.id() {
            Ok(word) => word,
            Err(stop) => return Err(stop),
        };
        match target_part(alloc, home, name, word) {
            Ok(part) => Ok(part),
            Err(_) => Err(ReadStop::NoMemory),
        }
    }

    /// Reads `:=`, where the structure that it defines has a name.
    fn inline_name(
        &mut self,
        alloc: Global,
        operation: &str,
        suffix: &Option<Text>,
    ) -> Result<Text, ReadStop>
        ensures { Reads (inline_name operation.now suffix.now) (left self.old) (left self.new) result }
    {
        match self.next() {
            Some(token) => {
                if !is_mark(&token, ":=") {
                    return Err(ReadStop::Syntax);
                }
                match suffix {
                    Some(end) => match joined(alloc, operation, end.as_str()) {
                        Ok(name) => {
                            if is_identifier(name.as_str()) {
                                self.take();
                                Ok(name)
                            } else {
                                Err(ReadStop::Syntax)
                            }
                        }
                        Err(_) => Err(ReadStop::NoMemory),
                    },
                    None => Err(ReadStop::Syntax),
                }
            }
            None => Err(ReadStop::Syntax),
        }
    }

    /// Reads the structure that an operation defines, behind its documentation.
    fn inline_with(
        &mut self,
        alloc: Global,
        home: &FileHome<'_>,
        structure: &str,
        side: OperationSide,
        given: Vec<TraitUse>,
    ) -> Result<Part, ReadStop>
        requires { IsIdentifier structure.now }
        ensures { (docs : List TraitSaid) → traits_view given.items ≡ standing_for (side_word side) empty_raw ∷ docs →
            ReadsAs part_view (inline_with (home_of_file home.now) structure.now (side_word side) docs) (left self.old) (left self.new)
            result }
    {
        let mut traits = given;
        match self.traits(alloc, home, &mut traits) {
            Ok(()) => {}
            Err(stop) => return Err(stop),
        }
        let mixins = match self.mixins(alloc, home) {
            Ok(mixins) => mixins,
            Err(stop) => return Err(stop),
        };
        let members = match self.members(alloc, home, MemberKind::Field) {
            Ok(members) => members,
            Err(stop) => return Err(stop),
        };
        match inline_part(alloc, home, structure, side, traits, mixins, members) {
            Ok(part) => Ok(part),
            Err(_) => Err(ReadStop::NoMemory),
        }
    }

    /// Reads the structure that an operation defines in the place of a part.
    fn part_inline(
        &mut self,
        alloc: Global,
        home: &FileHome<'_>,
        operation: &str,
        suffix: &Option<Text>,
        side: OperationSide,
    ) -> Result<Part, ReadStop>
        ensures { ReadsAs part_view (part_inline (home_of_file home.now) operation.now suffix.now (side_word side)) (left self.old)
            (left self.new) result }
    {
        let structure = match self.inline_name(alloc, operation, suffix) {
            Ok(structure) => structure,
            Err(stop) => return Err(stop),
        };
        let docs = match self.docs(alloc) {
            Ok(docs) => docs,
            Err(_) => return Err(ReadStop::NoMemory),
        };
        match with_first(alloc, side.trait_id(), docs) {
            Ok(given) => self.inline_with(alloc, home, structure.as_str(), side, given),
            Err(_) => Err(ReadStop::NoMemory),
        }
    }

    /// Reads an input or an output.
    fn part_shape(
        &mut self,
        alloc: Global,
        home: &FileHome<'_>,
        operation: &str,
        suffix: &Option<Text>,
        side: OperationSide,
        seen: &mut BTreeSet<String>,
    ) -> Result<Part, ReadStop>
        ensures reads { (before : List PartSaid) → Remembers seen.old (part_names before) →
            ReadsAs part_view (part_shape (home_of_file home.now) operation.now suffix.now (side_word side) before) (left self.old)
            (left self.new) result }
        ensures seen { RemembersPart seen.old seen.new result }
    {
        let word = side.word();
        match self.part_word(alloc, word, seen) {
            Ok(()) => {}
            Err(stop) => return Err(stop),
        }
        if self.is_at_mark(":") {
            return self.part_target(alloc, home, word);
        }
        self.part_inline(alloc, home, operation, suffix, side)
    }

    /// Reads the errors of an operation.
    fn part_errors(
        &mut self,
        alloc: Global,
        home: &FileHome<'_>,
        seen: &mut BTreeSet<String>,
    ) -> Result<Part, ReadStop>
        ensures reads { (before : List PartSaid) → Remembers seen.old (part_names before) →
            ReadsAs part_view (part_errors (home_of_file home.now) before) (left self.old) (left self.new) result }
        ensures seen { RemembersPart seen.old seen.new result }
    {
        match self.part_word(alloc, "errors", seen) {
            Ok(()) => {}
            Err(stop) => return Err(stop),
        }
        match self.mark(":") {
            Ok(()) => {}
            Err(stop) => return Err(stop),
        }
        let ids = match self.listed_ids(alloc, home) {
            Ok(ids) => ids,
            Err(stop) => return Err(stop),
        };
        match errors_part(alloc, ids) {
            Ok(part) => Ok(part),
            Err(_) => Err(ReadStop::NoMemory),
        }
    }

    /// Reads a part of an operation.
    fn part(
        &mut self,
        alloc: Global,
        home: &FileHome<'_>,
        endings: &Suffixes,
        operation: &str,
        seen: &mut BTreeSet<String>,
    ) -> Result<Part, ReadStop>
        ensures reads { (before : List PartSaid) → Remembers seen.old (part_names before) →
            ReadsAs part_view (part (home_of_file home.now) (suffixes_view endings.now) operation.now before) (left self.old)
            (left self.new) result }
        ensures seen { RemembersPart seen.old seen.new result }
    {
        if self.is_at_word("input") {
            return self.part_shape(
                alloc,
                home,
                operation,
                &endings.input,
                OperationSide::Input,
                seen,
            );
        }
        if self.is_at_word("output") {
            return self.part_shape(
                alloc,
                home,
                operation,
                &endings.output,
                OperationSide::Output,
                seen,
            );
        }
        self.part_errors(alloc, home, seen)
    }

    /// Reads the parts of an operation, as many as words stand here.
    pub(crate) fn parts(
        &mut self,
        alloc: Global,
        home: &FileHome<'_>,
        endings: &Suffixes,
        operation: &str,
    ) -> Result<Parts, ReadStop>
        ensures { ReadsParts (home_of_file home.now) (suffixes_view endings.now) operation.now (left self.old) (left self.new) result }
    {
        let mut seen: BTreeSet<String> = BTreeSet::new(alloc);
        let mut pairs: Vec<(Text, RawNode)> = Vec::new(alloc);
        let mut defined: Vec<Statement> = Vec::new(alloc);
        while self.is_at_any_word() {
            match self.part(alloc, home, endings, operation, &mut seen) {
                Ok(part) => match put_part(&mut pairs, &mut defined, part) {
                    Ok(()) => {}
                    Err(_) => return Err(ReadStop::NoMemory),
                },
                Err(stop) => return Err(stop),
            }
        }
        Ok(Parts { pairs, defined })
    }
}
