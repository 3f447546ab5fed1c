// References to shapes as a file writes them, before it is known what shapes there are.
ghost use Rattle.std.specs.Prelude.{◌≡◌, [], IfOk, MatchOption, None, Some};
ghost use Rattle.sm_model.specs.Used.{used_under};

use crate::used::UsedIds;
use sm_ids::ShapeId;
use sm_tree::{NoMemory, Text};
use std::alloc::Global;
use std::marker::Model;
use std::rc::Rc;

/// The ids that a file uses, in order (Smithy 2.0, IDL, "use_section"). Contracts see the list of their texts. All references of
/// a file share them.
#[derive(Debug, Drop)]
pub struct Uses {
    // What the references share: nothing, where no ids are used.
    shared: Option<Rc<UsedIds>>,
}

impl Model for Uses {
    ghost use Rattle.std.specs.Prelude.{List, ℕ};
    ghost use Rattle.sm_model.specs.UsesView.{shared_ids};

    ghost Value = { List (List ℕ) };

    ghost view = { λ a. shared_ids a.shared };
}

impl Uses {
    /// No ids. No memory.
    pub fn none() -> Self
        ensures { result ≡ [] }
    {
        Uses { shared: None }
    }

    /// The ids that a vector holds, with an index by their names. n log n.
    pub fn new(alloc: Global, ids: Vec<ShapeId>) -> Result<Self, NoMemory>
        ensures { IfOk result (λ uses. uses ≡ ids.items) }
    {
        let used = UsedIds::new(alloc, ids)?;
        match Rc::new(alloc, used) {
            Ok(block) => Ok(Uses {
                shared: Some(block),
            }),
            Err(_) => Err(NoMemory),
        }
    }

    /// These ids once more, for another reference. No memory: it is refused only where no more references can be counted.
    pub fn share(&self) -> Result<Self, NoMemory>
        ensures { IfOk result (λ uses. uses ≡ self.now) }
    {
        match &self.shared {
            None => Ok(Uses { shared: None }),
            Some(block) => match block.clone() {
                Ok(block) => Ok(Uses {
                    shared: Some(block),
                }),
                Err(_) => Err(NoMemory),
            },
        }
    }

    /// The shape of the first id of a name. log n, no memory.
    pub fn named(&self, name: &str) -> Option<&str>
        ensures { MatchOption result (used_under name.now self.now ≡ None) (λ id. used_under name.now self.now ≡ Some id.now) }
    {
        match &self.shared {
            None => None,
            Some(block) => block.as_ref().named(name),
        }
    }
}

/// A reference to a shape. What it means is known once the files are merged.
#[derive(Debug, Drop)]
pub struct Ref {
    /// The id as it is written: absolute, or relative to the file.
    pub text: Text,
    /// The namespace of the file. Without one the text is an absolute id.
    pub namespace: Option<Text>,
    /// The ids that the file uses.
    pub uses: Uses,
    /// Whether it stands in the place of a trait's id.
    pub in_trait: bool,
}

/// References, in order. Contracts see a list.
#[derive(Debug, Drop)]
pub struct Refs {
    refs: Vec<Ref>,
}

impl Model for Refs {
    ghost use Rattle.std.specs.Prelude.{List};
    ghost use Rattle.sm_model.specs.declared.reference.Ref.{Ref};

    ghost Value = { List Ref };

    ghost view = { λ a. a.refs.items };
}

impl Refs {
    /// The references that a vector holds. No memory.
    pub fn new(refs: Vec<Ref>) -> Self
        ensures { result ≡ refs.items }
    {
        Refs { refs }
    }

    /// The vector. No memory.
    pub fn into_inner(self) -> Vec<Ref>
        ensures { result.items ≡ self }
    {
        self.refs
    }

    /// The references, in order. No memory.
    pub fn as_slice(&self) -> &[Ref]
        ensures { result.now ≡ self.now }
    {
        self.refs.as_slice()
    }
}
