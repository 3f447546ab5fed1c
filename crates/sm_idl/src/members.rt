// Members: of enums, of lists, maps and unions, and of structures (Smithy 2.0, "Smithy IDL", "Aggregate types").
ghost use Rattle.std.specs.Prelude.{◌≡◌, ◌++◌, ◌↔◌, [], ◌∷◌, IfOk, IsTrue, List};
ghost use Rattle.sm_model.specs.Formed.{stated_names};
ghost use Rattle.sm_model.specs.Said.{MemberSaid};
ghost use Rattle.sm_model.specs.SaidView.{traits_view, member_view, member_statements_view};
ghost use Rattle.sm_idl.specs.Productions.{each};
ghost use Rattle.sm_idl.specs.Members.{IsNameOf, member_name, enum_member_with, enum_member, member_with, member, field, members};
ghost use Rattle.sm_idl.specs.steps.Classes.{Either, Equals, MemberStart};
ghost use Rattle.sm_idl.specs.steps.Firm.{HeadIs};
ghost use Rattle.sm_idl.specs.steps.HomeView.{home_of_file};
ghost use Rattle.sm_idl.specs.steps.MemberSteps.{form_of, entry, enum_member_said, field_said, AreNamed, Arranges, RemembersMember};
ghost use Rattle.sm_idl.specs.steps.Names.{Remembers};
ghost use Rattle.sm_idl.specs.steps.ReaderView.{left, maybe_raw, Reads, ReadsAs, ReadsOn};

use crate::docs::put_value;
use crate::home::FileHome;
use crate::names::is_new;
use crate::reader::{ReadStop, Reader};
use crate::references::absolute;
use sm_ids::is_identifier;
use sm_lex::TokenKind;
use sm_model::{MemberStatement, RawNode, TraitUse, TraitUses};
use sm_tree::{NoMemory, Text};
use std::alloc::Global;
use std::collections::BTreeSet;

/// What kind of members a shape has.
#[derive(Debug, Clone, Copy, PartialEq, Eq, Drop)]
pub(crate) enum MemberKind {
    /// The members of an enum, which have values.
    Value,
    /// The member of a list.
    Item,
    /// The key and the value of a map.
    Pair,
    /// The members of a union.
    Choice,
    /// The members of a structure, which have defaults.
    Field,
}

impl MemberKind {
    /// Whether a member may have this name.
    fn takes(self, name: &str) -> bool
        ensures { IsTrue result ↔ IsNameOf (form_of self) name.now }
    {
        match self {
            MemberKind::Item => name == "member",
            MemberKind::Pair => name == "key" || name == "value",
            MemberKind::Value | MemberKind::Choice | MemberKind::Field => true,
        }
    }
}

/// The key before the value, where there are both.
fn pair_arranged(members: Vec<MemberStatement>) -> Option<Vec<MemberStatement>>
    ensures { AreNamed (form_of MemberKind.Pair) [] (member_statements_view members.items) →
        Arranges (form_of MemberKind.Pair) (member_statements_view members.items) result }
{
    if members.len() != 2 {
        return None;
    }
    if members[0].name.as_str() == "value" {
        let mut members = members;
        members.swap(0, 1);
        return Some(members);
    }
    Some(members)
}

/// The members in the order of their type, where it has those that it must have.
fn arranged(kind: MemberKind, members: Vec<MemberStatement>) -> Option<Vec<MemberStatement>>
    ensures { AreNamed (form_of kind) [] (member_statements_view members.items) →
        Arranges (form_of kind) (member_statements_view members.items) result }
{
    match kind {
        MemberKind::Item => {
            if members.len() == 1 {
                Some(members)
            } else {
                None
            }
        }
        MemberKind::Pair => pair_arranged(members),
        MemberKind::Value => Some(members),
        MemberKind::Choice => Some(members),
        MemberKind::Field => Some(members),
    }
}

/// A member of an enum.
fn enum_member_of(
    alloc: Global,
    name: Text,
    traits: Vec<TraitUse>,
    value: Option<RawNode>,
) -> Result<MemberStatement, NoMemory>
    ensures { IfOk result (λ member. member_view member ≡ enum_member_said name (traits_view traits.items) (maybe_raw value)) }
{
    let mut traits = traits;
    match put_value(alloc, &mut traits, "smithy.api#enumValue", value) {
        Ok(()) => {}
        Err(refusal) => return Err(refusal),
    }
    match absolute(alloc, "smithy.api#Unit", false) {
        Ok(target) => Ok(MemberStatement {
            name,
            target,
            traits: TraitUses::new(traits),
        }),
        Err(refusal) => Err(refusal),
    }
}

/// A member of a structure.
fn field_of(
    alloc: Global,
    member: MemberStatement,
    value: Option<RawNode>,
) -> Result<MemberStatement, NoMemory>
    ensures { IfOk result (λ made. member_view made ≡ field_said (member_view member) (maybe_raw value)) }
{
    let mut traits = member.traits.into_inner();
    match put_value(alloc, &mut traits, "smithy.api#default", value) {
        Ok(()) => Ok(MemberStatement {
            name: member.name,
            target: member.target,
            traits: TraitUses::new(traits),
        }),
        Err(refusal) => Err(refusal),
    }
}

impl<'t, 'a> Reader<'t, 'a> {
    /// Reads a member's name, which its type takes and which didn't come before.
    fn member_name(
        &mut self,
        alloc: Global,
        kind: MemberKind,
        seen: &mut BTreeSet<String>,
    ) -> Result<Text, ReadStop>
        ensures reads { (before : List MemberSaid) → Remembers seen.old (stated_names before) →
            Reads (member_name (form_of kind) before) (left self.old) (left self.new) result }
        ensures seen { (before : List MemberSaid) → Remembers seen.old (stated_names before) →
            IfOk result (λ name. Remembers seen.new (stated_names before ++ name ∷ [])) }
    {
        match self.next() {
            Some(token) => match token.kind {
                TokenKind::Word => {
                    if !is_identifier(token.text) {
                        return Err(ReadStop::Syntax);
                    }
                    if !kind.takes(token.text) {
                        return Err(ReadStop::Syntax);
                    }
                    match is_new(alloc, seen, token.text) {
                        Ok(new) => {
                            if new {
                                self.take();
                                match Text::copy(alloc, token.text) {
                                    Ok(name) => Ok(name),
                                    Err(_) => Err(ReadStop::NoMemory),
                                }
                            } else {
                                Err(ReadStop::Syntax)
                            }
                        }
                        Err(_) => Err(ReadStop::NoMemory),
                    }
                }
                _ => Err(ReadStop::Syntax),
            },
            None => Err(ReadStop::Syntax),
        }
    }

    /// Reads a member behind its documentation.
    fn member_with(
        &mut self,
        alloc: Global,
        home: &FileHome<'_>,
        kind: MemberKind,
        seen: &mut BTreeSet<String>,
        docs: Vec<TraitUse>,
    ) -> Result<MemberStatement, ReadStop>
        ensures reads { (before : List MemberSaid) → Remembers seen.old (stated_names before) →
            ReadsAs member_view (member_with (home_of_file home.now) (form_of kind) before (traits_view docs.items)) (left self.old)
            (left self.new) result }
        ensures seen { RemembersMember seen.old seen.new result }
    {
        let mut traits = docs;
        match self.traits(alloc, home, &mut traits) {
            Ok(()) => {}
            Err(stop) => return Err(stop),
        }
        let name = match self.member_name(alloc, kind, seen) {
            Ok(name) => name,
            Err(stop) => return Err(stop),
        };
        match self.mark(":") {
            Ok(()) => {}
            Err(stop) => return Err(stop),
        }
        let word = match self.id() {
            Ok(word) => word,
            Err(stop) => return Err(stop),
        };
        match home.reference(alloc, word, false) {
            Ok(target) => Ok(MemberStatement {
                name,
                target,
                traits: TraitUses::new(traits),
            }),
            Err(_) => Err(ReadStop::NoMemory),
        }
    }

    /// Reads a member of a list, a map, a union or a structure.
    fn member(
        &mut self,
        alloc: Global,
        home: &FileHome<'_>,
        kind: MemberKind,
        seen: &mut BTreeSet<String>,
    ) -> Result<MemberStatement, ReadStop>
        ensures reads { (before : List MemberSaid) → Remembers seen.old (stated_names before) →
            ReadsAs member_view (member (home_of_file home.now) (form_of kind) before) (left self.old) (left self.new) result }
        ensures seen { RemembersMember seen.old seen.new result }
    {
        match self.docs(alloc) {
            Ok(docs) => self.member_with(alloc, home, kind, seen, docs),
            Err(_) => Err(ReadStop::NoMemory),
        }
    }

    /// Reads a member of an enum behind its documentation.
    fn enum_member_with(
        &mut self,
        alloc: Global,
        home: &FileHome<'_>,
        seen: &mut BTreeSet<String>,
        docs: Vec<TraitUse>,
    ) -> Result<MemberStatement, ReadStop>
        ensures reads { (before : List MemberSaid) → Remembers seen.old (stated_names before) →
            ReadsOn Equals member_view (enum_member_with (home_of_file home.now) before (traits_view docs.items)) (left self.old)
            (left self.new) result }
        ensures seen { RemembersMember seen.old seen.new result }
    {
        let mut traits = docs;
        match self.traits(alloc, home, &mut traits) {
            Ok(()) => {}
            Err(stop) => return Err(stop),
        }
        let name = match self.member_name(alloc, MemberKind::Value, seen) {
            Ok(name) => name,
            Err(stop) => return Err(stop),
        };
        let value = match self.given_value(alloc, home) {
            Ok(value) => value,
            Err(stop) => return Err(stop),
        };
        match enum_member_of(alloc, name, traits, value) {
            Ok(member) => Ok(member),
            Err(_) => Err(ReadStop::NoMemory),
        }
    }

    /// Reads a member of an enum.
    fn enum_member(
        &mut self,
        alloc: Global,
        home: &FileHome<'_>,
        seen: &mut BTreeSet<String>,
    ) -> Result<MemberStatement, ReadStop>
        ensures reads { (before : List MemberSaid) → Remembers seen.old (stated_names before) →
            ReadsOn Equals member_view (enum_member (home_of_file home.now) before) (left self.old) (left self.new) result }
        ensures seen { RemembersMember seen.old seen.new result }
    {
        match self.docs(alloc) {
            Ok(docs) => self.enum_member_with(alloc, home, seen, docs),
            Err(_) => Err(ReadStop::NoMemory),
        }
    }

    /// Reads a member of a structure.
    fn field(
        &mut self,
        alloc: Global,
        home: &FileHome<'_>,
        seen: &mut BTreeSet<String>,
    ) -> Result<MemberStatement, ReadStop>
        ensures reads { (before : List MemberSaid) → Remembers seen.old (stated_names before) →
            ReadsOn Equals member_view (field (home_of_file home.now) before) (left self.old) (left self.new) result }
        ensures seen { RemembersMember seen.old seen.new result }
    {
        let member = match self.member(alloc, home, MemberKind::Field, seen) {
            Ok(member) => member,
            Err(stop) => return Err(stop),
        };
        let value = match self.given_value(alloc, home) {
            Ok(value) => value,
            Err(stop) => return Err(stop),
        };
        match field_of(alloc, member, value) {
            Ok(member) => Ok(member),
            Err(_) => Err(ReadStop::NoMemory),
        }
    }

    /// Reads a member of this kind.
    fn entry(
        &mut self,
        alloc: Global,
        home: &FileHome<'_>,
        kind: MemberKind,
        seen: &mut BTreeSet<String>,
    ) -> Result<MemberStatement, ReadStop>
        ensures reads { (before : List MemberSaid) → Remembers seen.old (stated_names before) →
            ReadsOn Equals member_view (entry (home_of_file home.now) kind before) (left self.old) (left self.new) result }
        ensures seen { RemembersMember seen.old seen.new result }
    {
        match kind {
            MemberKind::Value => self.enum_member(alloc, home, seen),
            MemberKind::Item => self.member(alloc, home, MemberKind::Item, seen),
            MemberKind::Pair => self.member(alloc, home, MemberKind::Pair, seen),
            MemberKind::Choice => self.member(alloc, home, MemberKind::Choice, seen),
            MemberKind::Field => self.field(alloc, home, seen),
        }
    }

    /// Whether the next token begins a member.
    fn is_at_member(&self) -> bool
        ensures { IsTrue result ↔ HeadIs MemberStart (left self.now) }
    {
        self.is_at_mark("@") || self.is_at_any_word()
    }

    /// Reads members, as many as stand here.
    fn entries(
        &mut self,
        alloc: Global,
        home: &FileHome<'_>,
        kind: MemberKind,
    ) -> Result<Vec<MemberStatement>, ReadStop>
        ensures { ReadsOn (Either MemberStart Equals) (λ ms. member_statements_view ms.items) (each (entry (home_of_file home.now) kind))
            (left self.old) (left self.new) result }
    {
        let mut seen: BTreeSet<String> = BTreeSet::new(alloc);
        let mut members: Vec<MemberStatement> = Vec::new(alloc);
        while self.is_at_member() {
            match self.entry(alloc, home, kind, &mut seen) {
                Ok(member) => match members.push(member) {
                    Ok(()) => {}
                    Err(_) => return Err(ReadStop::NoMemory),
                },
                Err(stop) => return Err(stop),
            }
        }
        Ok(members)
    }

    /// Reads the members of a shape, between their braces.
    pub(crate) fn members(
        &mut self,
        alloc: Global,
        home: &FileHome<'_>,
        kind: MemberKind,
    ) -> Result<Vec<MemberStatement>, ReadStop>
        ensures { ReadsAs (λ ms. member_statements_view ms.items) (members (form_of kind) (entry (home_of_file home.now) kind))
            (left self.old) (left self.new) result }
    {
        match self.mark("{") {
            Ok(()) => {}
            Err(stop) => return Err(stop),
        }
        let members = match self.entries(alloc, home, kind) {
            Ok(members) => members,
            Err(stop) => return Err(stop),
        };
        match arranged(kind, members) {
            Some(members) => match self.mark("}") {
                Ok(()) => Ok(members),
                Err(stop) => Err(stop),
            },
            None => Err(ReadStop::Syntax),
        }
    }
}
