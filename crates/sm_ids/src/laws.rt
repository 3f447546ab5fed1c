// Laws of shape ids, each the contract of a function that does nothing.
ghost use Rattle.sm_ids.specs.Laws.{OneReading, OneAnswer, PrintedReadsBack, OrdersByBytes, ShapesBeforeMembers, EqualByParts};
ghost use Rattle.sm_ids.specs.Laws.{IdentifiersByTheGrammar, NamespacesByTheGrammar};

use crate::owned::ShapeId;

/// A text spells at most one id.
pub fn one_reading()
    ensures { OneReading }
{}

/// A text has one answer of `ShapeIdRef::parse`: one id at most, or one refusal at one place, and never both.
pub fn one_answer()
    ensures { OneAnswer }
{}

/// What is printed for an id spells it, and no other.
pub fn printed_reads_back()
    ensures { PrintedReadsBack }
{}

/// Owned ids are in the order of the bytes of their printed texts.
pub fn orders_by_bytes()
    ensures { OrdersByBytes ⟦<ShapeId as Ord>⟧.cmp }
{}

/// A shape comes before its members.
pub fn shapes_before_members()
    ensures { ShapesBeforeMembers ⟦<ShapeId as Ord>⟧.cmp }
{}

/// Owned ids are equal exactly where their namespaces, names and members are.
pub fn equal_by_parts()
    ensures { EqualByParts ⟦<ShapeId as PartialEq>⟧.eq }
{}

/// Identifiers are what the grammar says, production by production.
pub fn identifiers_by_the_grammar()
    ensures { IdentifiersByTheGrammar }
{}

/// Namespaces are identifiers joined by full stops.
pub fn namespaces_by_the_grammar()
    ensures { NamespacesByTheGrammar }
{}
