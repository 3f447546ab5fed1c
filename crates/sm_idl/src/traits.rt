// Traits, and the apply statement (Smithy 2.0, "Smithy IDL", "Applying traits", "apply statement").
ghost use Rattle.std.specs.Prelude.{◌≡◌, ◌∷◌, ◌↔◌, IsTrue, Option, codes};
ghost use Rattle.std.specs.Option.{option_map};
ghost use Rattle.sm_model.specs.RawView.{raw_view};
ghost use Rattle.sm_model.specs.SaidView.{trait_view, traits_view, statement_view};
ghost use Rattle.sm_idl.specs.Productions.{Spaced, Tokens, maybe, ◌or◌};
ghost use Rattle.sm_idl.specs.Nodes.{Home};
ghost use Rattle.sm_idl.specs.Traits.{pairs_or_node, arguments, argument_value, applied, one_trait, braced_traits, apply};
ghost use Rattle.sm_idl.specs.steps.Firm.{HeadIs};
ghost use Rattle.sm_idl.specs.steps.Classes.{AMark, Paren, ArgumentGoesOn, PairAhead};
ghost use Rattle.sm_idl.specs.steps.HomeView.{home_of_file};
ghost use Rattle.sm_idl.specs.steps.ReaderView.{left, maybe_raw, ReadsAs, ReadsOn};
ghost use Rattle.sm_idl.specs.steps.TraitSteps.{AddsTraits};

use crate::home::FileHome;
use crate::made::{empty_node, object_node};
use crate::reader::{ReadStop, Reader};
use crate::word::is_node_word;
use sm_lex::TokenKind;
use sm_model::{RawNode, Statement, TraitUse, TraitUses};
use sm_tree::MOST_LEVELS;
use std::alloc::Global;

/// The value of a trait with these arguments: without any it is an object without pairs.
fn argument_value(alloc: Global, given: Option<Option<RawNode>>) -> RawNode
    ensures { raw_view result ≡ argument_value (option_map maybe_raw given) }
{
    match given {
        Some(given) => match given {
            Some(value) => value,
            None => empty_node(alloc),
        },
        None => empty_node(alloc),
    }
}

impl<'t, 'a> Reader<'t, 'a> {
    /// Whether a colon stands behind the next token.
    fn is_before_colon(&self) -> bool
        ensures { (t : Spaced) (s : Tokens) → left self.now ≡ t ∷ s → (IsTrue result ↔ HeadIs (AMark (codes ":")) s) }
    {
        let mut behind = *self;
        behind.take();
        behind.is_at_mark(":")
    }

    /// Whether a key stands here, with a colon behind it, or one that is no node.
    fn is_at_pair(&self) -> bool
        ensures { (home : Option Home) → IsTrue result ↔ PairAhead home (left self.now) }
    {
        match self.next() {
            Some(token) => match token.kind {
                TokenKind::Word => self.is_before_colon() || !is_node_word(token.text),
                TokenKind::Text => self.is_before_colon(),
                TokenKind::Block | TokenKind::Number | TokenKind::Mark => false,
            },
            None => false,
        }
    }

    /// Reads what stands between a trait's parentheses: nothing, pairs, or a node.
    fn argument(&mut self, alloc: Global, home: &FileHome<'_>) -> Result<Option<RawNode>, ReadStop>
        ensures { ReadsOn ArgumentGoesOn maybe_raw (maybe (pairs_or_node (home_of_file home.now))) (left self.old) (left self.new) result }
    {
        if self.is_at_pair() {
            return match self.pairs(alloc, home, MOST_LEVELS) {
                Ok(pairs) => Ok(Some(object_node(pairs))),
                Err(stop) => Err(stop),
            };
        }
        if self.is_at_node() {
            return match self.node(alloc, home, MOST_LEVELS) {
                Ok(node) => Ok(Some(node)),
                Err(stop) => Err(stop),
            };
        }
        Ok(None)
    }

    /// Reads a trait's parentheses.
    fn arguments(&mut self, alloc: Global, home: &FileHome<'_>) -> Result<Option<RawNode>, ReadStop>
        ensures { ReadsAs maybe_raw (arguments (home_of_file home.now)) (left self.old) (left self.new) result }
    {
        match self.mark("(") {
            Ok(()) => {}
            Err(stop) => return Err(stop),
        }
        let value = match self.argument(alloc, home) {
            Ok(value) => value,
            Err(stop) => return Err(stop),
        };
        match self.mark(")") {
            Ok(()) => Ok(value),
            Err(stop) => Err(stop),
        }
    }

    /// Reads a trait's parentheses, where they stand.
    fn given(
        &mut self,
        alloc: Global,
        home: &FileHome<'_>,
    ) -> Result<Option<Option<RawNode>>, ReadStop>
        ensures { ReadsOn Paren (option_map maybe_raw) (maybe (arguments (home_of_file home.now))) (left self.old) (left self.new) result }
    {
        if self.is_at_mark("(") {
            return match self.arguments(alloc, home) {
                Ok(value) => Ok(Some(value)),
                Err(stop) => Err(stop),
            };
        }
        Ok(None)
    }

    /// Reads a trait.
    fn applied(&mut self, alloc: Global, home: &FileHome<'_>) -> Result<TraitUse, ReadStop>
        ensures { ReadsOn Paren trait_view (applied (home_of_file home.now)) (left self.old) (left self.new) result }
    {
        match self.mark("@") {
            Ok(()) => {}
            Err(stop) => return Err(stop),
        }
        let word = match self.id() {
            Ok(word) => word,
            Err(stop) => return Err(stop),
        };
        let given = match self.given(alloc, home) {
            Ok(given) => given,
            Err(stop) => return Err(stop),
        };
        match home.reference(alloc, word, true) {
            Ok(id) => Ok(TraitUse {
                id,
                value: argument_value(alloc, given),
            }),
            Err(_) => Err(ReadStop::NoMemory),
        }
    }

    /// Reads traits, as many as stand here, behind those that there are.
    pub(crate) fn traits(
        &mut self,
        alloc: Global,
        home: &FileHome<'_>,
        traits: &mut Vec<TraitUse>,
    ) -> Result<(), ReadStop>
        ensures { AddsTraits (home_of_file home.now) (traits_view traits.old.items) (traits_view traits.new.items)
            (left self.old) (left self.new) result }
    {
        while self.is_at_mark("@") {
            match self.applied(alloc, home) {
                Ok(applied) => match traits.push(applied) {
                    Ok(()) => {}
                    Err(_) => return Err(ReadStop::NoMemory),
                },
                Err(stop) => return Err(stop),
            }
        }
        Ok(())
    }

    /// Reads the traits of an apply statement: one, or several between braces.
    fn targets(&mut self, alloc: Global, home: &FileHome<'_>) -> Result<Vec<TraitUse>, ReadStop>
        ensures { ReadsOn Paren (λ traits. traits_view traits.items)
            (one_trait (home_of_file home.now) or braced_traits (home_of_file home.now)) (left self.old) (left self.new) result }
    {
        if self.is_at_mark("{") {
            return self.braced_traits(alloc, home);
        }
        match self.applied(alloc, home) {
            Ok(applied) => {
                let mut traits: Vec<TraitUse> = Vec::new(alloc);
                match traits.push(applied) {
                    Ok(()) => Ok(traits),
                    Err(_) => Err(ReadStop::NoMemory),
                }
            }
            Err(stop) => Err(stop),
        }
    }

    /// Reads traits between braces.
    fn braced_traits(
        &mut self,
        alloc: Global,
        home: &FileHome<'_>,
    ) -> Result<Vec<TraitUse>, ReadStop>
        ensures { ReadsAs (λ traits. traits_view traits.items) (braced_traits (home_of_file home.now)) (left self.old) (left self.new)
            result }
    {
        match self.mark("{") {
            Ok(()) => {}
            Err(stop) => return Err(stop),
        }
        let mut traits: Vec<TraitUse> = Vec::new(alloc);
        match self.traits(alloc, home, &mut traits) {
            Ok(()) => {}
            Err(stop) => return Err(stop),
        }
        match self.mark("}") {
            Ok(()) => Ok(traits),
            Err(stop) => Err(stop),
        }
    }

    /// Reads an apply statement.
    pub(crate) fn apply(
        &mut self,
        alloc: Global,
        home: &FileHome<'_>,
    ) -> Result<Statement, ReadStop>
        ensures { ReadsOn Paren statement_view (apply (home_of_file home.now)) (left self.old) (left self.new) result }
    {
        match self.the_word("apply") {
            Ok(()) => {}
            Err(stop) => return Err(stop),
        }
        let word = match self.id() {
            Ok(word) => word,
            Err(stop) => return Err(stop),
        };
        let traits = match self.targets(alloc, home) {
            Ok(traits) => traits,
            Err(stop) => return Err(stop),
        };
        match home.reference(alloc, word, false) {
            Ok(id) => Ok(Statement::Apply(id, TraitUses::new(traits))),
            Err(_) => Err(ReadStop::NoMemory),
        }
    }
}
