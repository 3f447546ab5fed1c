// Words of a file whose namespace isn't known yet, and of one without a namespace.
ghost use Rattle.std.specs.Prelude.{◌≡◌, ◌++◌, IfOk};
ghost use Rattle.sm_idl.specs.Nodes.{of_prelude};

use crate::leaf::Words;
use sm_ids::without_member;
use sm_model::{RawNode, Ref, Uses, is_in_prelude};
use sm_tree::{NoMemory, Text, Tree};
use std::alloc::Global;

/// What words are relative to before the namespace is known: they are ids, and nothing is asked of what they mean.
pub(crate) struct AnyHome;

/// What words are relative to in a file without a namespace.
pub(crate) struct NoHome;

/// Two texts joined.
pub(crate) fn joined(alloc: Global, first: &str, second: &str) -> Result<Text, NoMemory>
    ensures { IfOk result (λ text. text ≡ first.now ++ second.now) }
{
    match String::from_str(alloc, first) {
        Ok(text) => {
            let mut text = text;
            match text.push_str(second) {
                Ok(()) => Ok(Text::new(text)),
                Err(_) => Err(NoMemory),
            }
        }
        Err(_) => Err(NoMemory),
    }
}

/// The text of a word in a file without a namespace.
fn of_prelude(alloc: Global, word: &str) -> Result<Text, NoMemory>
    ensures { IfOk result (λ text. text ≡ of_prelude word.now) }
{
    let id = match joined(alloc, "smithy.api#", without_member(word)) {
        Ok(id) => id,
        Err(refusal) => return Err(refusal),
    };
    if is_in_prelude(id.as_str()) {
        return joined(alloc, "smithy.api#", word);
    }
    Text::copy(alloc, word)
}

impl Words for AnyHome {
    ghost use Rattle.std.specs.Prelude.{Some};
    ghost use Rattle.sm_idl.specs.steps.FileSteps.{no_namespace};

    ghost home = { λ home. Some no_namespace };

    fn meaning(&self, alloc: Global, word: &str) -> Result<RawNode, NoMemory> {
        let text = match Text::copy(alloc, word) {
            Ok(text) => text,
            Err(refusal) => return Err(refusal),
        };
        match Text::copy(alloc, "") {
            Ok(namespace) => Ok(RawNode::Id(Ref {
                text,
                namespace: Some(namespace),
                uses: Uses::none(),
                in_trait: false,
            })),
            Err(refusal) => Err(refusal),
        }
    }
}

impl Words for NoHome {
    ghost use Rattle.std.specs.Prelude.{None};

    ghost home = { λ home. None };

    fn meaning(&self, alloc: Global, word: &str) -> Result<RawNode, NoMemory> {
        match of_prelude(alloc, word) {
            Ok(text) => Ok(RawNode::Leaf(Tree::Text(text))),
            Err(refusal) => Err(refusal),
        }
    }
}
