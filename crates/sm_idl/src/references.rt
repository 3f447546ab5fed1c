// References, as a file writes them, and the ids of the shapes that it defines.
ghost use Rattle.std.specs.Prelude.{◌≡◌, IfOk, false};
ghost use Rattle.sm_ids.specs.Identifier.{IsIdentifier};
ghost use Rattle.sm_model.specs.References as references;
ghost use Rattle.sm_idl.specs.Bodies.{defined_id};
ghost use Rattle.sm_idl.specs.Nodes.{written};
ghost use Rattle.sm_idl.specs.steps.HomeView.{home_of_file};

use crate::home::FileHome;
use crate::leaf::Words;
use sm_ids::ShapeId;
use sm_model::{RawNode, Ref, Uses};
use sm_tree::{NoMemory, Text};
use std::alloc::Global;

/// A reference by an absolute id.
pub(crate) fn absolute(alloc: Global, text: &str, in_trait: bool) -> Result<Ref, NoMemory>
    ensures { IfOk result (λ r. r ≡ references.absolute text.now in_trait) }
{
    let text = Text::copy(alloc, text)?;
    Ok(Ref {
        text,
        namespace: None,
        uses: Uses::none(),
        in_trait,
    })
}

impl FileHome<'_> {
    /// The reference that a word is.
    pub(crate) fn reference(
        &self,
        alloc: Global,
        word: &str,
        in_trait: bool,
    ) -> Result<Ref, NoMemory>
        ensures { IfOk result (λ reference. reference ≡ written (home_of_file self.now) word.now in_trait) }
    {
        let text = Text::copy(alloc, word)?;
        let namespace = Text::copy(alloc, self.namespace)?;
        match self.uses.share() {
            Ok(uses) => Ok(Ref {
                text,
                namespace: Some(namespace),
                uses,
                in_trait,
            }),
            Err(refusal) => Err(refusal),
        }
    }
}

impl FileHome<'_> {
    /// The id of a shape that the file defines.
    pub(crate) fn defined_id(&self, alloc: Global, name: &str) -> Result<ShapeId, NoMemory>
        requires { IsIdentifier name.now }
        ensures { IfOk result (λ id. id ≡ defined_id (home_of_file self.now) name.now) }
    {
        match ShapeId::in_namespace(alloc, self.namespace, name) {
            Ok(id) => Ok(id),
            Err(_) => Err(NoMemory),
        }
    }
}

impl Words for FileHome<'_> {
    ghost use Rattle.std.specs.Prelude.{Some};
    ghost use Rattle.sm_idl.specs.steps.HomeView.{home_of_file};

    ghost home = { λ home. Some (home_of_file home) };

    fn meaning(&self, alloc: Global, word: &str) -> Result<RawNode, NoMemory> {
        match self.reference(alloc, word, false) {
            Ok(reference) => Ok(RawNode::Id(reference)),
            Err(refusal) => Err(refusal),
        }
    }
}
