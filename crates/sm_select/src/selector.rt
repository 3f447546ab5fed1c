// Selectors as values. Contracts see a selector as the steps of specs/Selectors.antt.
ghost use Rattle.std.specs.Prelude.{◌≡◌};
ghost use Rattle.sm_select.specs.View.{selector_view, selectors_view, selector_views, step_views};

use sm_model::{Kind, Relation};
use sm_tree::Text;
use std::marker::Model;

/// Texts, in order.
#[derive(Debug, Drop)]
pub struct Texts {
    texts: Vec<Text>,
}

impl Model for Texts {
    ghost use Rattle.std.specs.Prelude.{List, ℕ};

    ghost Value = { List (List ℕ) };

    ghost view = { λ a. a.texts.items };
}

impl Texts {
    /// The texts that a vector holds. No memory.
    pub fn new(texts: Vec<Text>) -> Self
        ensures { result ≡ texts.items }
    {
        Texts { texts }
    }

    /// The texts, in order. No memory.
    pub fn as_slice(&self) -> &[Text]
        ensures { result.now ≡ self.now }
    {
        self.texts.as_slice()
    }
}

/// Relations, in order.
#[derive(Debug, Drop)]
pub struct Relations {
    relations: Vec<Relation>,
}

impl Model for Relations {
    ghost use Rattle.std.specs.Prelude.{List};
    ghost use Rattle.sm_model.specs.declared.relation.Relation.{Relation};

    ghost Value = { List Relation };

    ghost view = { λ a. a.relations.items };
}

impl Relations {
    /// The relations that a vector holds. No memory.
    pub fn new(relations: Vec<Relation>) -> Self
        ensures { result ≡ relations.items }
    {
        Relations { relations }
    }

    /// The relations, in order. No memory.
    pub fn as_slice(&self) -> &[Relation]
        ensures { result.now ≡ self.now }
    {
        self.relations.as_slice()
    }
}

/// What an attribute looks at ("Attribute selectors").
#[derive(Debug, Drop)]
pub enum SelectorPath {
    /// The id.
    Id,
    /// The namespace of the id.
    IdNamespace,
    /// The name of the shape in the id.
    IdName,
    /// The name of the member in the id.
    IdMember,
    /// The value of the trait with this absolute id, and the fields within it, from the outside in.
    Trait(Text, Texts),
}

/// How a text is compared with a value ("Attribute comparators").
#[derive(Debug, Clone, Copy, PartialEq, Eq, Drop)]
pub enum SelectorOp {
    /// It is equal to it.
    Equal,
    /// It differs from it.
    Unequal,
    /// It starts with it.
    Starts,
    /// It ends with it.
    Ends,
    /// It contains it.
    Contains,
}

/// A step of a selector.
#[cycle(selector)]
#[derive(Debug, Drop)]
pub enum SelectorStep {
    /// `*`: each shape and member.
    Any,
    /// The shapes of a type, or the members.
    Named(Option<Kind>),
    /// Where a path has a value.
    Has(SelectorPath),
    /// Where the value of a path stands so to one of these texts.
    Compare(Compare),
    /// `>`: to what a relation leads to.
    Forward,
    /// `<`: back along one.
    Back,
    /// `~>`: along one or more.
    Walk,
    /// `-[..]->`: along one of these.
    Along(Relations),
    /// `:is(..)`: what any of these picks.
    Is(Selectors),
    /// `:not(..)`: where this one picks nothing.
    Not(Selector),
    /// `:test(..)`: where any of these picks something.
    Test(Selectors),
}

/// A comparison of a path's value.
#[derive(Debug, Drop)]
pub struct Compare {
    /// The path.
    pub path: SelectorPath,
    /// How its text must stand to one of the values.
    pub op: SelectorOp,
    /// The values.
    pub values: Texts,
    /// Whether ASCII case doesn't count.
    pub fold: bool,
}

/// A selector: its steps, one after the other.
#[cycle(selector)]
#[derive(Debug, Drop)]
pub struct Selector {
    steps: Vec<SelectorStep>,
}

impl Selector {
    /// The selector of these steps. No memory.
    pub fn new(steps: Vec<SelectorStep>) -> Self
        ensures { selector_view result ≡ step_views steps.items }
    {
        Selector { steps }
    }

    /// The steps, in order. No memory.
    pub fn as_slice(&self) -> &[SelectorStep]
        ensures { step_views result.now ≡ selector_view self.now }
    {
        self.steps.as_slice()
    }
}

/// Selectors, in order.
#[cycle(selector)]
#[derive(Debug, Drop)]
pub struct Selectors {
    selectors: Vec<Selector>,
}

impl Selectors {
    /// The selectors that a vector holds. No memory.
    pub fn new(selectors: Vec<Selector>) -> Self
        ensures { selectors_view result ≡ selector_views selectors.items }
    {
        Selectors { selectors }
    }

    /// The selectors, in order. No memory.
    pub fn as_slice(&self) -> &[Selector]
        ensures { selector_views result.now ≡ selectors_view self.now }
    {
        self.selectors.as_slice()
    }
}
