// Nodes: leaves, objects and lists (Smithy 2.0, "Smithy IDL", "Node values").
ghost use Rattle.sm_model.specs.RawView.{raw_view, raws_view, raw_members_view};
ghost use Rattle.sm_idl.specs.Productions.{each, many};
ghost use Rattle.sm_idl.specs.Nodes.{pair_of, object_of, list_of, node};
ghost use Rattle.sm_idl.specs.steps.Classes.{NoMark, NodeStart};
ghost use Rattle.sm_idl.specs.steps.PairSteps.{ReadsNewPair, RemembersPair};
ghost use Rattle.sm_idl.specs.steps.ReaderView.{left, ReadsAs, ReadsOn};

use crate::leaf::Words;
use crate::reader::{ReadStop, Reader};
use sm_model::{RawItems, RawNode, RawPairs};
use sm_tree::Text;
use std::alloc::Global;
use std::collections::BTreeSet;

impl<'t, 'a> Reader<'t, 'a> {
    /// Reads a node that nests this many levels at most.
    #[cycle(node)]
    pub(crate) fn node<W: Words>(
        &mut self,
        alloc: Global,
        words: &W,
        levels: usize,
    ) -> Result<RawNode, ReadStop>
        ensures { ReadsAs raw_view (node (W.home words.now) levels) (left self.old) (left self.new) result }
    {
        if levels == 0 {
            return self.leaf(alloc, words);
        }
        if self.is_at_mark("{") {
            return self.object(alloc, words, levels - 1);
        }
        if self.is_at_mark("[") {
            return self.list(alloc, words, levels - 1);
        }
        self.leaf(alloc, words)
    }

    /// Reads an object whose nodes nest this many levels at most.
    #[cycle(node)]
    fn object<W: Words>(
        &mut self,
        alloc: Global,
        words: &W,
        levels: usize,
    ) -> Result<RawNode, ReadStop>
        ensures { ReadsAs raw_view (object_of (node (W.home words.now) levels)) (left self.old) (left self.new) result }
    {
        match self.mark("{") {
            Ok(()) => {}
            Err(stop) => return Err(stop),
        }
        let pairs = match self.pairs(alloc, words, levels) {
            Ok(pairs) => pairs,
            Err(stop) => return Err(stop),
        };
        match self.mark("}") {
            Ok(()) => Ok(RawNode::Object(RawPairs::new(pairs))),
            Err(stop) => Err(stop),
        }
    }

    /// Reads pairs, as many as stand here.
    #[cycle(node)]
    pub(crate) fn pairs<W: Words>(
        &mut self,
        alloc: Global,
        words: &W,
        levels: usize,
    ) -> Result<Vec<(Text, RawNode)>, ReadStop>
        ensures { ReadsOn NoMark (λ pairs. raw_members_view pairs.items) (each (pair_of (node (W.home words.now) levels)))
            (left self.old) (left self.new) result }
    {
        let mut seen: BTreeSet<String> = BTreeSet::new(alloc);
        let mut pairs: Vec<(Text, RawNode)> = Vec::new(alloc);
        while self.is_at_leaf() {
            match self.pair(alloc, words, levels, &mut seen) {
                Ok(pair) => match pairs.push(pair) {
                    Ok(()) => {}
                    Err(_) => return Err(ReadStop::NoMemory),
                },
                Err(stop) => return Err(stop),
            }
        }
        Ok(pairs)
    }

    /// Reads a pair whose key didn't come before.
    #[cycle(node)]
    pub(crate) fn pair<W: Words>(
        &mut self,
        alloc: Global,
        words: &W,
        levels: usize,
        seen: &mut BTreeSet<String>,
    ) -> Result<(Text, RawNode), ReadStop>
        ensures reads { ReadsNewPair seen.old (pair_of (node (W.home words.now) levels)) (left self.old) (left self.new) result }
        ensures seen { RemembersPair seen.old seen.new result }
    {
        let key = match self.key(alloc, seen) {
            Ok(key) => key,
            Err(stop) => return Err(stop),
        };
        match self.mark(":") {
            Ok(()) => {}
            Err(stop) => return Err(stop),
        }
        match self.node(alloc, words, levels) {
            Ok(node) => Ok((key, node)),
            Err(stop) => Err(stop),
        }
    }

    /// Reads a list whose nodes nest this many levels at most.
    #[cycle(node)]
    fn list<W: Words>(
        &mut self,
        alloc: Global,
        words: &W,
        levels: usize,
    ) -> Result<RawNode, ReadStop>
        ensures { ReadsAs raw_view (list_of (node (W.home words.now) levels)) (left self.old) (left self.new) result }
    {
        match self.mark("[") {
            Ok(()) => {}
            Err(stop) => return Err(stop),
        }
        let items = match self.items(alloc, words, levels) {
            Ok(items) => items,
            Err(stop) => return Err(stop),
        };
        match self.mark("]") {
            Ok(()) => Ok(RawNode::List(RawItems::new(items))),
            Err(stop) => Err(stop),
        }
    }

    /// Reads nodes, as many as stand here.
    #[cycle(node)]
    fn items<W: Words>(
        &mut self,
        alloc: Global,
        words: &W,
        levels: usize,
    ) -> Result<Vec<RawNode>, ReadStop>
        ensures { ReadsOn NodeStart (λ items. raws_view items.items) (many (node (W.home words.now) levels))
            (left self.old) (left self.new) result }
    {
        let mut items: Vec<RawNode> = Vec::new(alloc);
        while self.is_at_node() {
            match self.node(alloc, words, levels) {
                Ok(node) => match items.push(node) {
                    Ok(()) => {}
                    Err(_) => return Err(ReadStop::NoMemory),
                },
                Err(stop) => return Err(stop),
            }
        }
        Ok(items)
    }
}
