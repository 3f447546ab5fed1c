// Sets of texts that are borrowed, as those among the entries of a list.
ghost use Rattle.std.specs.Prelude.{◌≡◌, ℕ, List, IfOk, OnOk, false};
ghost use Rattle.sm_tree.specs.Node.{nodes_of, text};
ghost use Rattle.sm_tree.specs.View.{node_of, nodes_view};
ghost use Rattle.sm_model.specs.Joins.{Joins};
ghost use Rattle.sm_trait_rules.specs.steps.Conflicting.{AreTextsOf, HasText, has_text};

use sm_model::text_of;
use sm_tree::{NoMemory, Tree};
use std::alloc::Global;
use std::collections::BTreeSet;

/// A set of texts.
#[derive(Drop)]
pub struct TextSet<'a> {
    /// The texts.
    pub texts: BTreeSet<&'a str>,
}

impl<'a> TextSet<'a> {
    /// No texts. No memory.
    pub fn new(alloc: Global) -> Self
        ensures { (t : List ℕ) → has_text result.texts t ≡ false }
    {
        let texts: BTreeSet<&'a str> = BTreeSet::new(alloc);
        TextSet { texts }
    }

    /// The texts among some entries. n log n. `NoMemory` where there is no room for them.
    pub fn among(alloc: Global, entries: &'a [Tree]) -> Result<Self, NoMemory>
        ensures { IfOk result (λ set. AreTextsOf (nodes_of (nodes_view entries.now)) set.texts) }
    {
        let mut set = TextSet::new(alloc);
        for entry in entries {
            set.put_entry(entry)?;
        }
        Ok(set)
    }

    /// Puts a text. `NoMemory` where there is no room for it.
    pub fn put(&mut self, name: &'a str) -> Result<(), NoMemory>
        ensures { OnOk result (Joins (HasText self.old.texts) (λ t. name.now ≡ t) (HasText self.new.texts)) }
    {
        match self.texts.insert(name) {
            Ok(_) => Ok(()),
            Err(_) => Err(NoMemory),
        }
    }

    // Puts the text that an entry is.
    fn put_entry(&mut self, entry: &'a Tree) -> Result<(), NoMemory>
        ensures { OnOk result (Joins (HasText self.old.texts) (λ t. node_of entry.now ≡ text t) (HasText self.new.texts)) }
    {
        match text_of(entry) {
            Some(name) => {
                self.put(name)?;
                Ok(())
            }
            None => Ok(()),
        }
    }

    /// Whether a text is one of them. No memory.
    pub fn has(&self, name: &str) -> bool
        ensures { result ≡ has_text self.now.texts name.now }
    {
        self.texts.contains(name)
    }
}
