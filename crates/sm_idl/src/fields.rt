// The pairs of services and resources (Smithy 2.0, "Smithy IDL", "Service types").
ghost use Rattle.std.specs.Prelude.{◌++◌, [], ◌∷◌, IfOk, List, string_bytes};
ghost use Rattle.sm_lex.specs.Tokens.{lexeme_of};
ghost use Rattle.sm_model.specs.Properties.{property_forms};
ghost use Rattle.sm_model.specs.RawView.{raw_view, raws_view, raw_members_view};
ghost use Rattle.sm_idl.specs.Productions.{one, each, many};
ghost use Rattle.sm_idl.specs.Nodes.{Pair, pair_names, pair_of};
ghost use Rattle.sm_idl.specs.Bodies.{reference, references, TextSays, text_node, new_name};
ghost use Rattle.sm_idl.specs.Bodies.{renaming, field_value, FieldNamed, property, braced_pairs};
ghost use Rattle.sm_idl.specs.steps.Classes.{AnyWord, NoMark};
ghost use Rattle.sm_idl.specs.steps.FieldSteps.{id_key, NamesText, NewNameSays, under};
ghost use Rattle.sm_idl.specs.steps.HomeView.{home_of_file};
ghost use Rattle.sm_idl.specs.steps.Names.{Remembers};
ghost use Rattle.sm_idl.specs.steps.PairSteps.{ReadsNewPair, RemembersPair};
ghost use Rattle.sm_idl.specs.steps.ReaderView.{left, Reads, ReadsAs, ReadsOn, SaysNode};

use crate::home::FileHome;
use crate::leaf::text_node;
use crate::made::{id_node, list_node, object_node};
use crate::names::{is_new_text, key_text};
use crate::reader::{ReadStop, Reader};
use crate::word::is_node_id;
use sm_ids::{ShapeIdRef, is_identifier};
use sm_lex::{Token, TokenKind, block_value, string_value};
use sm_model::{Kind, PropertyForm, RawNode};
use sm_tree::{NoMemory, Text};
use std::alloc::Global;
use std::collections::BTreeSet;

/// The text that a token says, or the id that it is, if it is one.
fn text_said(
    alloc: Global,
    home: &FileHome<'_>,
    token: &Token<'_>,
) -> Result<Option<RawNode>, NoMemory>
    ensures { SaysNode (TextSays (home_of_file home.now) (lexeme_of token.now)) result }
{
    match token.kind {
        TokenKind::Text => match string_value(alloc, token) {
            Ok(string) => Ok(Some(text_node(string))),
            Err(refusal) => Err(refusal),
        },
        TokenKind::Block => match block_value(alloc, token) {
            Ok(string) => Ok(Some(text_node(string))),
            Err(refusal) => Err(refusal),
        },
        TokenKind::Word => {
            if is_node_id(token.text) {
                match home.reference(alloc, token.text, false) {
                    Ok(id) => Ok(Some(id_node(id))),
                    Err(refusal) => Err(refusal),
                }
            } else {
                Ok(None)
            }
        }
        TokenKind::Number | TokenKind::Mark => Ok(None),
    }
}

/// The identifier that a token says, if it says one.
fn name_said(alloc: Global, token: &Token<'_>) -> Result<Option<RawNode>, NoMemory>
    ensures { SaysNode (NewNameSays (lexeme_of token.now)) result }
{
    match token.kind {
        TokenKind::Text => match string_value(alloc, token) {
            Ok(string) => Ok(name_of(string)),
            Err(refusal) => Err(refusal),
        },
        TokenKind::Block => match block_value(alloc, token) {
            Ok(string) => Ok(name_of(string)),
            Err(refusal) => Err(refusal),
        },
        TokenKind::Word | TokenKind::Number | TokenKind::Mark => Ok(None),
    }
}

/// The text as a node, where it is an identifier.
fn name_of(string: String) -> Option<RawNode>
    ensures { NamesText (string_bytes string) result }
{
    if is_identifier(string.as_str()) {
        Some(text_node(string))
    } else {
        None
    }
}

impl<'t, 'a> Reader<'t, 'a> {
    /// Reads a reference.
    fn reference(&mut self, alloc: Global, home: &FileHome<'_>) -> Result<RawNode, ReadStop>
        ensures { ReadsAs raw_view (reference (home_of_file home.now)) (left self.old) (left self.new) result }
    {
        let word = match self.node_id() {
            Ok(word) => word,
            Err(stop) => return Err(stop),
        };
        match home.reference(alloc, word, false) {
            Ok(id) => Ok(id_node(id)),
            Err(_) => Err(ReadStop::NoMemory),
        }
    }

    /// Reads references, as many as words stand here.
    fn reference_items(
        &mut self,
        alloc: Global,
        home: &FileHome<'_>,
    ) -> Result<Vec<RawNode>, ReadStop>
        ensures { ReadsOn AnyWord (λ items. raws_view items.items) (many (reference (home_of_file home.now)))
            (left self.old) (left self.new) result }
    {
        let mut items: Vec<RawNode> = Vec::new(alloc);
        while self.is_at_any_word() {
            match self.reference(alloc, home) {
                Ok(node) => match items.push(node) {
                    Ok(()) => {}
                    Err(_) => return Err(ReadStop::NoMemory),
                },
                Err(stop) => return Err(stop),
            }
        }
        Ok(items)
    }

    /// Reads references between brackets.
    fn references(&mut self, alloc: Global, home: &FileHome<'_>) -> Result<RawNode, ReadStop>
        ensures { ReadsAs raw_view (references (home_of_file home.now)) (left self.old) (left self.new) result }
    {
        match self.mark("[") {
            Ok(()) => {}
            Err(stop) => return Err(stop),
        }
        let items = match self.reference_items(alloc, home) {
            Ok(items) => items,
            Err(stop) => return Err(stop),
        };
        match self.mark("]") {
            Ok(()) => Ok(list_node(items)),
            Err(stop) => Err(stop),
        }
    }

    /// Reads a text.
    fn text_value(&mut self, alloc: Global, home: &FileHome<'_>) -> Result<RawNode, ReadStop>
        ensures { ReadsAs raw_view (text_node (home_of_file home.now)) (left self.old) (left self.new) result }
    {
        match self.next() {
            Some(token) => match text_said(alloc, home, &token) {
                Ok(Some(node)) => {
                    self.take();
                    Ok(node)
                }
                Ok(None) => Err(ReadStop::Syntax),
                Err(_) => Err(ReadStop::NoMemory),
            },
            None => Err(ReadStop::Syntax),
        }
    }

    /// Reads an identifier as a text.
    fn new_name(&mut self, alloc: Global) -> Result<RawNode, ReadStop>
        ensures { ReadsAs raw_view new_name (left self.old) (left self.new) result }
    {
        match self.next() {
            Some(token) => match name_said(alloc, &token) {
                Ok(Some(node)) => {
                    self.take();
                    Ok(node)
                }
                Ok(None) => Err(ReadStop::Syntax),
                Err(_) => Err(ReadStop::NoMemory),
            },
            None => Err(ReadStop::Syntax),
        }
    }

    /// Reads a key that is an id and didn't come before.
    fn id_key(&mut self, alloc: Global, seen: &mut BTreeSet<String>) -> Result<Text, ReadStop>
        ensures reads { (before : List Pair) → Remembers seen.old (pair_names before) →
            Reads (id_key before) (left self.old) (left self.new) result }
        ensures seen { (before : List Pair) → Remembers seen.old (pair_names before) →
            IfOk result (λ name. Remembers seen.new (pair_names before ++ name ∷ [])) }
    {
        match self.next() {
            Some(token) => match key_text(alloc, &token) {
                Ok(Some(text)) => match ShapeIdRef::parse(text.as_str()) {
                    Ok(_) => match is_new_text(alloc, seen, &text) {
                        Ok(new) => {
                            if new {
                                self.take();
                                Ok(text)
                            } else {
                                Err(ReadStop::Syntax)
                            }
                        }
                        Err(_) => Err(ReadStop::NoMemory),
                    },
                    Err(_) => Err(ReadStop::Syntax),
                },
                Ok(None) => Err(ReadStop::Syntax),
                Err(_) => Err(ReadStop::NoMemory),
            },
            None => Err(ReadStop::Syntax),
        }
    }

    /// Reads an id with a new name.
    fn renaming(
        &mut self,
        alloc: Global,
        seen: &mut BTreeSet<String>,
    ) -> Result<(Text, RawNode), ReadStop>
        ensures reads { ReadsNewPair seen.old renaming (left self.old) (left self.new) result }
        ensures seen { RemembersPair seen.old seen.new result }
    {
        let key = match self.id_key(alloc, seen) {
            Ok(key) => key,
            Err(stop) => return Err(stop),
        };
        match self.mark(":") {
            Ok(()) => {}
            Err(stop) => return Err(stop),
        }
        match self.new_name(alloc) {
            Ok(node) => Ok((key, node)),
            Err(stop) => Err(stop),
        }
    }

    /// Reads a name with a reference.
    fn named_reference(
        &mut self,
        alloc: Global,
        home: &FileHome<'_>,
        seen: &mut BTreeSet<String>,
    ) -> Result<(Text, RawNode), ReadStop>
        ensures reads { ReadsNewPair seen.old (pair_of (reference (home_of_file home.now))) (left self.old) (left self.new) result }
        ensures seen { RemembersPair seen.old seen.new result }
    {
        let key = match self.key(alloc, seen) {
            Ok(key) => key,
            Err(stop) => return Err(stop),
        };
        match self.mark(":") {
            Ok(()) => {}
            Err(stop) => return Err(stop),
        }
        match self.reference(alloc, home) {
            Ok(node) => Ok((key, node)),
            Err(stop) => Err(stop),
        }
    }

    /// Reads a pair within a field.
    fn pair_under(
        &mut self,
        alloc: Global,
        home: &FileHome<'_>,
        renames: bool,
        seen: &mut BTreeSet<String>,
    ) -> Result<(Text, RawNode), ReadStop>
        ensures reads { ReadsNewPair seen.old (under (home_of_file home.now) renames) (left self.old) (left self.new) result }
        ensures seen { RemembersPair seen.old seen.new result }
    {
        if renames {
            return self.renaming(alloc, seen);
        }
        self.named_reference(alloc, home, seen)
    }

    /// Reads pairs within a field, as many as stand here.
    fn pairs_under(
        &mut self,
        alloc: Global,
        home: &FileHome<'_>,
        renames: bool,
    ) -> Result<Vec<(Text, RawNode)>, ReadStop>
        ensures { ReadsOn NoMark (λ pairs. raw_members_view pairs.items) (each (under (home_of_file home.now) renames))
            (left self.old) (left self.new) result }
    {
        let mut seen: BTreeSet<String> = BTreeSet::new(alloc);
        let mut pairs: Vec<(Text, RawNode)> = Vec::new(alloc);
        while self.is_at_leaf() {
            match self.pair_under(alloc, home, renames, &mut seen) {
                Ok(pair) => match pairs.push(pair) {
                    Ok(()) => {}
                    Err(_) => return Err(ReadStop::NoMemory),
                },
                Err(stop) => return Err(stop),
            }
        }
        Ok(pairs)
    }

    /// Reads the pairs of a field, between their braces.
    fn object_under(
        &mut self,
        alloc: Global,
        home: &FileHome<'_>,
        renames: bool,
    ) -> Result<RawNode, ReadStop>
        ensures { ReadsAs raw_view (braced_pairs (under (home_of_file home.now) renames)) (left self.old) (left self.new) result }
    {
        match self.mark("{") {
            Ok(()) => {}
            Err(stop) => return Err(stop),
        }
        let pairs = match self.pairs_under(alloc, home, renames) {
            Ok(pairs) => pairs,
            Err(stop) => return Err(stop),
        };
        match self.mark("}") {
            Ok(()) => Ok(object_node(pairs)),
            Err(stop) => Err(stop),
        }
    }

    /// Reads the node of a field of this form.
    fn field_value(
        &mut self,
        alloc: Global,
        home: &FileHome<'_>,
        form: PropertyForm,
    ) -> Result<RawNode, ReadStop>
        ensures { ReadsAs raw_view (field_value (home_of_file home.now) form) (left self.old) (left self.new) result }
    {
        match form {
            PropertyForm::Reference => self.reference(alloc, home),
            PropertyForm::References => self.references(alloc, home),
            PropertyForm::NamedReferences => self.object_under(alloc, home, false),
            PropertyForm::Text => self.text_value(alloc, home),
            PropertyForm::Rename => self.object_under(alloc, home, true),
        }
    }

    /// Reads the name of a field of this type, which didn't come before.
    fn field_key(
        &mut self,
        alloc: Global,
        kind: Kind,
        seen: &mut BTreeSet<String>,
    ) -> Result<(Text, PropertyForm), ReadStop>
        ensures reads { (before : List Pair) → Remembers seen.old (pair_names before) →
            Reads (one (FieldNamed (property_forms kind) before)) (left self.old) (left self.new) result }
        ensures seen { (before : List Pair) → Remembers seen.old (pair_names before) →
            IfOk result (λ field. Remembers seen.new (pair_names before ++ field.0 ∷ [])) }
    {
        match self.next() {
            Some(token) => match key_text(alloc, &token) {
                Ok(Some(text)) => match PropertyForm::of(kind, text.as_str()) {
                    Some(form) => match is_new_text(alloc, seen, &text) {
                        Ok(new) => {
                            if new {
                                self.take();
                                Ok((text, form))
                            } else {
                                Err(ReadStop::Syntax)
                            }
                        }
                        Err(_) => Err(ReadStop::NoMemory),
                    },
                    None => Err(ReadStop::Syntax),
                },
                Ok(None) => Err(ReadStop::Syntax),
                Err(_) => Err(ReadStop::NoMemory),
            },
            None => Err(ReadStop::Syntax),
        }
    }

    /// Reads a field.
    fn property(
        &mut self,
        alloc: Global,
        home: &FileHome<'_>,
        kind: Kind,
        seen: &mut BTreeSet<String>,
    ) -> Result<(Text, RawNode), ReadStop>
        ensures reads { ReadsNewPair seen.old (property (home_of_file home.now) (property_forms kind)) (left self.old)
            (left self.new) result }
        ensures seen { RemembersPair seen.old seen.new result }
    {
        let (key, form) = match self.field_key(alloc, kind, seen) {
            Ok(field) => field,
            Err(stop) => return Err(stop),
        };
        match self.mark(":") {
            Ok(()) => {}
            Err(stop) => return Err(stop),
        }
        match self.field_value(alloc, home, form) {
            Ok(node) => Ok((key, node)),
            Err(stop) => Err(stop),
        }
    }

    /// Reads fields, as many as stand here.
    fn property_pairs(
        &mut self,
        alloc: Global,
        home: &FileHome<'_>,
        kind: Kind,
    ) -> Result<Vec<(Text, RawNode)>, ReadStop>
        ensures { ReadsOn NoMark (λ pairs. raw_members_view pairs.items) (each (property (home_of_file home.now) (property_forms kind)))
            (left self.old) (left self.new) result }
    {
        let mut seen: BTreeSet<String> = BTreeSet::new(alloc);
        let mut pairs: Vec<(Text, RawNode)> = Vec::new(alloc);
        while self.is_at_leaf() {
            match self.property(alloc, home, kind, &mut seen) {
                Ok(pair) => match pairs.push(pair) {
                    Ok(()) => {}
                    Err(_) => return Err(ReadStop::NoMemory),
                },
                Err(stop) => return Err(stop),
            }
        }
        Ok(pairs)
    }

    /// Reads the fields of a service or a resource, between their braces.
    pub(crate) fn properties(
        &mut self,
        alloc: Global,
        home: &FileHome<'_>,
        kind: Kind,
    ) -> Result<RawNode, ReadStop>
        ensures { ReadsAs raw_view (braced_pairs (property (home_of_file home.now) (property_forms kind))) (left self.old)
            (left self.new) result }
    {
        match self.mark("{") {
            Ok(()) => {}
            Err(stop) => return Err(stop),
        }
        let pairs = match self.property_pairs(alloc, home, kind) {
            Ok(pairs) => pairs,
            Err(stop) => return Err(stop),
        };
        match self.mark("}") {
            Ok(()) => Ok(object_node(pairs)),
            Err(stop) => Err(stop),
        }
    }
}
