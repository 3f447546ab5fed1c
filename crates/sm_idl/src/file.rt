// A model's text: its controls, its metadata, its namespace with the ids that it uses, and its statements (Smithy 2.0, "Smithy
// IDL").
ghost use Rattle.std.specs.Prelude.{◌≡◌, ◌++◌, ◌↔◌, [], ◌∷◌, IfOk, IsTrue};
ghost use Rattle.std.specs.List.{filter};
ghost use Rattle.sm_model.specs.RawView.{raw_view, raw_members_view};
ghost use Rattle.sm_model.specs.SaidView.{statements_view};
ghost use Rattle.sm_idl.specs.Productions.{each};
ghost use Rattle.sm_idl.specs.Words.{IsWordId};
ghost use Rattle.sm_idl.specs.Bodies.{suffix_said, suffix_under, suffixes};
ghost use Rattle.sm_idl.specs.Idl.{control, metadata, used, is_absolute, metadata_statements, IsVersion, HaveVersion};
ghost use Rattle.sm_idl.specs.steps.FileClasses.{Dollar, Metadata};
ghost use Rattle.sm_idl.specs.steps.FileSteps.{ReadsRow, ReadsBeginning, ReadsUses};
ghost use Rattle.sm_idl.specs.steps.PartSteps.{suffixes_view};
ghost use Rattle.sm_idl.specs.steps.PairSteps.{ReadsNewPair, RemembersPair};
ghost use Rattle.sm_idl.specs.steps.ReaderView.{left, raw_pair, ReadsAs};

use crate::leaf::Words;
use crate::operations::Suffixes;
use crate::reader::{ReadStop, Reader};
use sm_ids::{ShapeId, ShapeIdRef};
use sm_model::{RawNode, Statement};
use sm_tree::{MOST_LEVELS, NoMemory, Text, Tree};
use std::alloc::Global;
use std::collections::BTreeSet;

/// What stands before a file's namespace.
#[derive(Drop)]
pub(crate) struct Beginning {
    /// Its controls.
    pub(crate) controls: Vec<(Text, RawNode)>,
    /// Its metadata.
    pub(crate) metadata: Vec<(Text, RawNode)>,
}

/// What a file says.
#[derive(Drop)]
pub(crate) struct File {
    /// Its controls.
    pub(crate) controls: Vec<(Text, RawNode)>,
    /// Its statements.
    pub(crate) statements: Vec<Statement>,
}

/// Whether a control says a version that is read.
fn is_version(control: &(Text, RawNode)) -> bool
    ensures { IsTrue result ↔ IsVersion (raw_pair control.now) }
{
    if control.0.as_str() != "version" {
        return false;
    }
    match &control.1 {
        RawNode::Leaf(Tree::Text(text)) => text.as_str() == "2" || text.as_str() == "2.0",
        _ => false,
    }
}

/// Whether the controls say a version that is read.
pub(crate) fn has_version(controls: &[(Text, RawNode)]) -> bool
    ensures { IsTrue result ↔ HaveVersion (raw_members_view controls.now) }
{
    for control in controls {
        if is_version(control) {
            return true;
        }
    }
    false
}

/// What the names of inline structures end with, by the value of a control.
fn suffix_of(alloc: Global, value: &RawNode, otherwise: &str) -> Result<Option<Text>, NoMemory>
    ensures { IfOk result (λ suffix. suffix ≡ suffix_said otherwise.now (raw_view value.now)) }
{
    match value {
        RawNode::Leaf(Tree::Text(text)) => match Text::copy(alloc, text.as_str()) {
            Ok(text) => Ok(Some(text)),
            Err(refusal) => Err(refusal),
        },
        RawNode::Id(_) => Ok(None),
        _ => match Text::copy(alloc, otherwise) {
            Ok(text) => Ok(Some(text)),
            Err(refusal) => Err(refusal),
        },
    }
}

/// What the names of inline structures end with, by the control of this name.
fn suffix(
    alloc: Global,
    controls: &[(Text, RawNode)],
    name: &str,
    otherwise: &str,
) -> Result<Option<Text>, NoMemory>
    ensures { IfOk result (λ suffix. suffix ≡ suffix_under name.now otherwise.now (raw_members_view controls.now)) }
{
    for control in controls {
        if control.0.as_str() == name {
            return suffix_of(alloc, &control.1, otherwise);
        }
    }
    match Text::copy(alloc, otherwise) {
        Ok(text) => Ok(Some(text)),
        Err(refusal) => Err(refusal),
    }
}

/// What the names of inline structures end with in a file.
pub(crate) fn suffixes(alloc: Global, controls: &[(Text, RawNode)]) -> Result<Suffixes, NoMemory>
    ensures { IfOk result (λ endings. suffixes_view endings ≡ suffixes (raw_members_view controls.now)) }
{
    let input = match suffix(alloc, controls, "operationInputSuffix", "Input") {
        Ok(input) => input,
        Err(refusal) => return Err(refusal),
    };
    match suffix(alloc, controls, "operationOutputSuffix", "Output") {
        Ok(output) => Ok(Suffixes { input, output }),
        Err(refusal) => Err(refusal),
    }
}

/// Metadata as statements.
pub(crate) fn metadata_statements(
    alloc: Global,
    metadata: Vec<(Text, RawNode)>,
) -> Result<Vec<Statement>, NoMemory>
    ensures { IfOk result (λ statements. statements_view statements.items ≡ metadata_statements (raw_members_view metadata.items)) }
{
    let mut statements: Vec<Statement> = Vec::new(alloc);
    for pair in metadata {
        match statements.push(Statement::Metadata(pair.0, pair.1)) {
            Ok(()) => {}
            Err(_) => return Err(NoMemory),
        }
    }
    Ok(statements)
}

/// Puts an id behind others.
fn put_id(uses: &mut Vec<ShapeId>, id: ShapeId) -> Result<(), NoMemory>
    ensures { IfOk result (λ _. uses.new.items ≡ uses.old.items ++ id ∷ []) }
{
    match uses.push(id) {
        Ok(()) => Ok(()),
        Err(_) => Err(NoMemory),
    }
}

/// Puts the id that a word is, where it has a namespace.
fn put_used(alloc: Global, uses: &mut Vec<ShapeId>, word: &str) -> Result<(), NoMemory>
    ensures { IsWordId word.now → IfOk result (λ _. uses.new.items ≡ uses.old.items ++ filter is_absolute (word.now ∷ [])) }
{
    match ShapeIdRef::parse(word) {
        Ok(id) => match ShapeId::new(alloc, &id) {
            Ok(id) => match put_id(uses, id) {
                Ok(()) => Ok(()),
                Err(refusal) => Err(refusal),
            },
            Err(_) => Err(NoMemory),
        },
        Err(_) => Ok(()),
    }
}

impl<'t, 'a> Reader<'t, 'a> {
    /// Reads a control.
    fn control<W: Words>(
        &mut self,
        alloc: Global,
        words: &W,
        seen: &mut BTreeSet<String>,
    ) -> Result<(Text, RawNode), ReadStop>
        ensures reads { ReadsNewPair seen.old (control (W.home words.now)) (left self.old) (left self.new) result }
        ensures seen { RemembersPair seen.old seen.new result }
    {
        match self.mark("$") {
            Ok(()) => {}
            Err(stop) => return Err(stop),
        }
        self.pair(alloc, words, MOST_LEVELS, seen)
    }

    /// Reads a key of metadata with its node.
    fn metadata<W: Words>(
        &mut self,
        alloc: Global,
        words: &W,
        seen: &mut BTreeSet<String>,
    ) -> Result<(Text, RawNode), ReadStop>
        ensures reads { ReadsNewPair seen.old (metadata (W.home words.now)) (left self.old) (left self.new) result }
        ensures seen { RemembersPair seen.old seen.new result }
    {
        match self.the_word("metadata") {
            Ok(()) => {}
            Err(stop) => return Err(stop),
        }
        let key = match self.key(alloc, seen) {
            Ok(key) => key,
            Err(stop) => return Err(stop),
        };
        match self.mark("=") {
            Ok(()) => {}
            Err(stop) => return Err(stop),
        }
        match self.node(alloc, words, MOST_LEVELS) {
            Ok(node) => Ok((key, node)),
            Err(stop) => Err(stop),
        }
    }

    /// Reads controls, as many as stand here.
    fn controls<W: Words>(
        &mut self,
        alloc: Global,
        words: &W,
    ) -> Result<Vec<(Text, RawNode)>, ReadStop>
        ensures { ReadsRow Dollar (each (control (W.home words.now))) (left self.old) (left self.new) result }
    {
        let mut seen: BTreeSet<String> = BTreeSet::new(alloc);
        let mut pairs: Vec<(Text, RawNode)> = Vec::new(alloc);
        while self.is_at_mark("$") {
            match self.control(alloc, words, &mut seen) {
                Ok(pair) => match pairs.push(pair) {
                    Ok(()) => {}
                    Err(_) => return Err(ReadStop::NoMemory),
                },
                Err(stop) => return Err(stop),
            }
        }
        Ok(pairs)
    }

    /// Reads metadata, as much as stands here.
    fn all_metadata<W: Words>(
        &mut self,
        alloc: Global,
        words: &W,
    ) -> Result<Vec<(Text, RawNode)>, ReadStop>
        ensures { ReadsRow Metadata (each (metadata (W.home words.now))) (left self.old) (left self.new) result }
    {
        let mut seen: BTreeSet<String> = BTreeSet::new(alloc);
        let mut pairs: Vec<(Text, RawNode)> = Vec::new(alloc);
        while self.is_at_word("metadata") {
            match self.metadata(alloc, words, &mut seen) {
                Ok(pair) => match pairs.push(pair) {
                    Ok(()) => {}
                    Err(_) => return Err(ReadStop::NoMemory),
                },
                Err(stop) => return Err(stop),
            }
        }
        Ok(pairs)
    }

    /// Reads what stands before a file's namespace.
    pub(crate) fn beginning<W: Words>(
        &mut self,
        alloc: Global,
        words: &W,
    ) -> Result<Beginning, ReadStop>
        ensures { ReadsBeginning (W.home words.now) (left self.old) (left self.new) result }
    {
        let controls = match self.controls(alloc, words) {
            Ok(controls) => controls,
            Err(stop) => return Err(stop),
        };
        match self.all_metadata(alloc, words) {
            Ok(metadata) => Ok(Beginning { controls, metadata }),
            Err(stop) => Err(stop),
        }
    }

    /// Reads an id that is used.
    fn used(&mut self) -> Result<&'a str, ReadStop>
        ensures { ReadsAs (λ w. w.now) used (left self.old) (left self.new) result }
    {
        match self.the_word("use") {
            Ok(()) => {}
            Err(stop) => return Err(stop),
        }
        self.id()
    }

    /// Reads the ids that are used, as many as stand here; those without a namespace change nothing.
    pub(crate) fn uses(&mut self, alloc: Global) -> Result<Vec<ShapeId>, ReadStop>
        ensures { ReadsUses (left self.old) (left self.new) result }
    {
        let mut uses: Vec<ShapeId> = Vec::new(alloc);
        while self.is_at_word("use") {
            match self.used() {
                Ok(word) => match put_used(alloc, &mut uses, word) {
                    Ok(()) => {}
                    Err(_) => return Err(ReadStop::NoMemory),
                },
                Err(stop) => return Err(stop),
            }
        }
        Ok(uses)
    }
}
