// The links of a graph: which numbers its relations lead from and to.
ghost use Rattle.std.specs.Prelude.{◌≡◌, ℕ, List, IfOk, None, OnOk, MatchOption, Some};
ghost use Rattle.std.specs.FinMap as fin;
ghost use Rattle.sm_tree.specs.View.{members_view, node_of, nodes_view};
ghost use Rattle.sm_tree.specs.Node.{members_of, nodes_of, text};
ghost use Rattle.sm_model.specs.GraphView.{IsMemberAt, IsShapeAt, IsShapeNumber, Stands, maps_of};
ghost use Rattle.sm_model.specs.Links.{AreLinks};
ghost use Rattle.sm_model.specs.Relations.{IsEntryText, IsValueText, Refers};
ghost use Rattle.sm_model.specs.steps.Linking.{Adds, BodyLinks, EntryLinks, FieldLinks, FieldsLinks};
ghost use Rattle.sm_model.specs.steps.Linking.{MemberLinks, MembersLinks, RunsTo, TargetLinks};

use super::Graph;
use super::targets::number_in;
use crate::kind::Kind;
use crate::link::Link;
use crate::relation::Relation;
use sm_tree::{NoMemory, Text, Tree, entries_of, pairs_of, text_of};
use std::alloc::Global;

impl Graph {
    /// Each link of the graph, once or more, in no order. What a shape names is linked where the graph has it. `NoMemory` where
    /// they find no room.
    pub fn links(&self, alloc: Global) -> Result<Vec<Link>, NoMemory>
        ensures { IfOk result (λ links. AreLinks self.now links.items) }
    {
        let mut links = Vec::new(alloc);
        for shape in 0..self.count() {
            self.put_links(shape, &mut links)?;
        }
        Ok(links)
    }

    // Appends what a shape or member says.
    fn put_links(&self, shape: u32, links: &mut Vec<Link>) -> Result<(), NoMemory>
        requires { IsShapeNumber self.now shape }
        ensures { OnOk result (Adds (EntryLinks self.now shape) links.old.items links.new.items) }
    {
        if self.is_member(shape) {
            return self.put_target(shape, links);
        }
        match self.put_members(shape, self.members(shape), links) {
            Ok(()) => self.put_body(shape, links),
            Err(refusal) => Err(refusal),
        }
    }

    // Appends the link from a member to its target.
    fn put_target(&self, member: u32, links: &mut Vec<Link>) -> Result<(), NoMemory>
        requires number { IsShapeNumber self.now member }
        requires is_member { IsMemberAt self.now member }
        ensures { OnOk result (Adds (TargetLinks self.now member) links.old.items links.new.items) }
    {
        match self.target(member) {
            Some(to) => push_link(Relation::Target, member, to, links),
            None => Ok(()),
        }
    }

    // Appends the links between a shape and these members of it.
    fn put_members(
        &self,
        shape: u32,
        members: &[u32],
        links: &mut Vec<Link>,
    ) -> Result<(), NoMemory>
        ensures { OnOk result (Adds (MembersLinks shape members.now) links.old.items links.new.items) }
    {
        for member in members {
            push_both(shape, *member, links)?;
        }
        Ok(())
    }

    // Appends what the body of a shape says.
    fn put_body(&self, shape: u32, links: &mut Vec<Link>) -> Result<(), NoMemory>
        requires number { IsShapeNumber self.now shape }
        requires is_shape { IsShapeAt self.now shape }
        ensures { OnOk result (Adds (BodyLinks self.now shape) links.old.items links.new.items) }
    {
        let kind = self.kind(shape);
        match pairs_of(self.properties(shape)) {
            Some(pairs) => self.put_fields(kind, shape, pairs, links),
            None => Ok(()),
        }
    }

    // Appends what these fields of a shape's body say.
    fn put_fields(
        &self,
        kind: Kind,
        shape: u32,
        pairs: &[(Text, Tree)],
        links: &mut Vec<Link>,
    ) -> Result<(), NoMemory>
        ensures { OnOk result (Adds (FieldsLinks self.now kind shape (members_view pairs.now)) links.old.items links.new.items) }
    {
        for pair in pairs {
            self.put_field(
                Relation::of_field(kind, pair.0.as_str()),
                shape,
                &pair.1,
                links,
            )?;
        }
        Ok(())
    }

    // Appends what a field says, where it says a relation.
    fn put_field(
        &self,
        relation: Option<Relation>,
        shape: u32,
        value: &Tree,
        links: &mut Vec<Link>,
    ) -> Result<(), NoMemory>
        ensures { OnOk result (Adds (FieldLinks self.now shape (node_of value.now) relation) links.old.items links.new.items) }
    {
        match relation {
            Some(relation) => self.put_value(relation, shape, value, links),
            None => Ok(()),
        }
    }

    // Appends the links to what a value refers to.
    fn put_value(
        &self,
        relation: Relation,
        from: u32,
        value: &Tree,
        links: &mut Vec<Link>,
    ) -> Result<(), NoMemory>
        ensures { OnOk result
            (Adds (RunsTo self.now relation from (λ id. Refers id (node_of value.now))) links.old.items links.new.items) }
    {
        match text_of(value) {
            Some(id) => self.put_reference(relation, from, id, links),
            None => self.put_parts(relation, from, value, links),
        }
    }

    // Appends the links to what a value that is no text refers to.
    fn put_parts(
        &self,
        relation: Relation,
        from: u32,
        value: &Tree,
        links: &mut Vec<Link>,
    ) -> Result<(), NoMemory>
        requires { (t : List ℕ) → node_of value.now ≡ text t → ⊥ }
        ensures { OnOk result
            (Adds (RunsTo self.now relation from (λ id. Refers id (node_of value.now))) links.old.items links.new.items) }
    {
        match entries_of(value) {
            Some(items) => self.put_entries(relation, from, items, links),
            None => match pairs_of(value) {
                Some(pairs) => self.put_values(relation, from, pairs, links),
                None => Ok(()),
            },
        }
    }

    // Appends the links to the entries that are texts.
    fn put_entries(
        &self,
        relation: Relation,
        from: u32,
        items: &[Tree],
        links: &mut Vec<Link>,
    ) -> Result<(), NoMemory>
        ensures { OnOk result
            (Adds (RunsTo self.now relation from (λ id. IsEntryText id (nodes_of (nodes_view items.now))))
            links.old.items links.new.items) }
    {
        for item in items {
            self.put_text(relation, from, item, links)?;
        }
        Ok(())
    }

    // Appends the links to the values that are texts.
    fn put_values(
        &self,
        relation: Relation,
        from: u32,
        pairs: &[(Text, Tree)],
        links: &mut Vec<Link>,
    ) -> Result<(), NoMemory>
        ensures { OnOk result
            (Adds (RunsTo self.now relation from (λ id. IsValueText id (members_of (members_view pairs.now))))
            links.old.items links.new.items) }
    {
        for pair in pairs {
            self.put_text(relation, from, &pair.1, links)?;
        }
        Ok(())
    }

    // Appends the link to what a text names.
    fn put_text(
        &self,
        relation: Relation,
        from: u32,
        tree: &Tree,
        links: &mut Vec<Link>,
    ) -> Result<(), NoMemory>
        ensures { OnOk result
            (Adds (RunsTo self.now relation from (λ id. node_of tree.now ≡ text id)) links.old.items links.new.items) }
    {
        match text_of(tree) {
            Some(id) => self.put_reference(relation, from, id, links),
            None => Ok(()),
        }
    }

    // Appends the link to the shape or member with this id, where there is one.
    fn put_reference(
        &self,
        relation: Relation,
        from: u32,
        id: &str,
        links: &mut Vec<Link>,
    ) -> Result<(), NoMemory>
        ensures { OnOk result (Adds (RunsTo self.now relation from (λ i. id.now ≡ i)) links.old.items links.new.items) }
    {
        match self.number(id) {
            Some(to) => push_link(relation, from, to, links),
            None => Ok(()),
        }
    }

    /// The number of the shape or member whose id has this text; `None` where none has it. No memory.
    pub fn number(&self, id: &str) -> Option<u32>
        ensures { MatchOption result
            (fin.get (maps_of self.now).shapes id.now ≡ None)
            (λ s. Stands self.now s id.now) }
    {
        number_in(self.rows.as_slice(), id)
    }
}

// Appends a link.
fn push_link(relation: Relation, from: u32, to: u32, links: &mut Vec<Link>) -> Result<(), NoMemory>
    ensures { OnOk result
        (Adds (λ l. l ≡ record { relation = relation; from = from; to = to }) links.old.items links.new.items) }
{
    links.push(Link { relation, from, to })?;
    Ok(())
}

// Appends the links between a shape and a member.
fn push_both(shape: u32, member: u32, links: &mut Vec<Link>) -> Result<(), NoMemory>
    ensures { OnOk result (Adds (MemberLinks shape member) links.old.items links.new.items) }
{
    match push_link(Relation::Member, shape, member, links) {
        Ok(()) => push_link(Relation::Container, member, shape, links),
        Err(refusal) => Err(refusal),
    }
}
