// Items whose bytes are all at hand, read in one pass by recursive descent. It may give up, and then says nothing of the
// bytes: the machine (read.rt) does.
ghost use Rattle.std.specs.Prelude.{◌≡◌, ◌<◌, ◌≤◌, length, IfSome, IfOk, OnOk};
ghost use Rattle.sm_tree.specs.Syntax.{IsRead};
ghost use Rattle.sm_tree.specs.Limits.{first_room};
ghost use Rattle.sm_tree.specs.View.{node_of, nodes_view, members_view};
ghost use Rattle.sm_cbor.specs.CborItem.{CborItem};
ghost use Rattle.sm_cbor.specs.declared.descent.Unread.TheVariants.{NoMemory as no_memory};

mod leaves;
mod major_type;
mod placing;

use crate::claim::expected;
use crate::head::{INDEFINITE_ARRAY, INDEFINITE_MAP};
use crate::integer::{negative_tree, unsigned_tree};
use major_type::MajorType;
use placing::Unnamed;
use sm_tree::{Items, MOST_LEVELS, NoMemory, Pairs, Text, Tree};
use std::alloc::{AllocError, AllocFailed, Global};

/// Why no tree was made.
#[derive(Clone, Copy, Debug, PartialEq, Eq, Drop)]
pub enum Unread {
    /// No tree was found. This says nothing of the bytes.
    GaveUp,
    /// The allocator refused the memory that the tree needs.
    NoMemory,
}

impl From<NoMemory> for Unread {
    ghost from_gives = { λ _ unread. unread ≡ no_memory };

    fn from(_refusal: NoMemory) -> Self {
        Unread::NoMemory
    }
}

impl From<AllocError> for Unread {
    ghost from_gives = { λ _ unread. unread ≡ no_memory };

    fn from(_error: AllocError) -> Self {
        Unread::NoMemory
    }
}

impl<T: Drop> From<AllocFailed<T>> for Unread {
    ghost from_gives = { λ _ unread. unread ≡ no_memory };

    fn from(_refused: AllocFailed<T>) -> Self {
        Unread::NoMemory
    }
}

/// Reads items one after the other. After it gave up it is of no use.
#[derive(Drop)]
pub struct Descent<'a> {
    /// The bytes that are to be read.
    rest: &'a [u8],
    alloc: Global,
}

impl<'a> Descent<'a> {
    ghost use Rattle.sm_tree.specs.Node.{list, object, nodes_of, members_of};
    ghost use Rattle.sm_cbor.specs.Heads.{array_type, map_type, tag_type};
    ghost use Rattle.sm_cbor.specs.steps.Descent.{number_of, initial_type, ItemIn, PutsEntry, PutsPair, EntriesIn, EntriesToBreakIn};
    ghost use Rattle.sm_cbor.specs.steps.Descent.{PairsIn, PairsToBreakIn};

    // What the next initial byte says.
    #[inline(always)]
    fn next_type(&self) -> Option<MajorType>
        ensures { IfSome result (λ major. (0 < length self.now.rest.now) × (initial_type self.now.rest.now ≡ number_of major)) }
    {
        if self.rest.is_empty() {
            return None;
        }
        Some(MajorType::of(self.rest[0]))
    }

    // The next item, of so many levels at most.
    #[cycle(descent)]
    #[inline(never)]
    fn item(&mut self, levels: usize) -> Result<Tree, Unread>
        ensures { IfOk result (λ tree. ItemIn levels (node_of tree) self.old.rest.now self.new.rest.now) }
    {
        let Some(major) = self.next_type() else {
            return Err(Unread::GaveUp);
        };
        match major {
            MajorType::Unsigned => {
                let value = self.argument()?;
                Ok(unsigned_tree(self.alloc, value)?)
            }
            MajorType::Negative => {
                let value = self.argument()?;
                Ok(negative_tree(self.alloc, value)?)
            }
            MajorType::Bytes => Ok(Tree::Bytes(self.bytes()?)),
            MajorType::Text => Ok(Tree::Text(self.text()?)),
            MajorType::Array => Ok(Tree::List(Items::new(self.list(levels)?))),
            MajorType::Map => Ok(Tree::Object(Pairs::new(self.map(levels)?))),
            MajorType::Tag => self.tagged(levels),
            MajorType::Simple => self.simple(),
        }
    }

    // A tag and its content.
    #[cycle(descent)]
    fn tagged(&mut self, levels: usize) -> Result<Tree, Unread>
        requires some { 0 < length self.old.rest.now }
        requires tag { initial_type self.old.rest.now ≡ tag_type }
        ensures { IfOk result (λ tree. ItemIn levels (node_of tree) self.old.rest.now self.new.rest.now) }
    {
        if levels == 0 {
            return Err(Unread::GaveUp);
        }
        let number = self.argument()?;
        let content = self.item(levels - 1)?;
        Ok(Tree::Tag(number, Box::new(self.alloc, content)?))
    }

    // The entries of an array, which is next.
    #[cycle(descent)]
    #[inline(always)]
    fn list(&mut self, levels: usize) -> Result<Vec<Tree>, Unread>
        requires some { 0 < length self.old.rest.now }
        requires array { initial_type self.old.rest.now ≡ array_type }
        ensures { IfOk result (λ items. ItemIn levels (list (nodes_of (nodes_view items.items))) self.old.rest.now self.new.rest.now) }
    {
        if levels == 0 {
            return Err(Unread::GaveUp);
        }
        if self.rest[0] == INDEFINITE_ARRAY {
            self.skip();
            return self.entries_to_break(levels - 1);
        }
        let count = self.argument()?;
        self.entries(count, levels - 1)
    }

    // The pairs of a map, which is next.
    #[cycle(descent)]
    #[inline(always)]
    fn map(&mut self, levels: usize) -> Result<Vec<(Text, Tree)>, Unread>
        requires some { 0 < length self.old.rest.now }
        requires map { initial_type self.old.rest.now ≡ map_type }
        ensures { IfOk result (λ pairs. ItemIn levels (object (members_of (members_view pairs.items))) self.old.rest.now
            self.new.rest.now) }
    {
        if levels == 0 {
            return Err(Unread::GaveUp);
        }
        if self.rest[0] == INDEFINITE_MAP {
            self.skip();
            return self.pairs_to_break(levels - 1);
        }
        let count = self.argument()?;
        self.pairs(count, levels - 1)
    }

    // How many entries or pairs room is made for where so many are claimed: for no more than bytes are left.
    fn first_room(&self, claimed: u64) -> usize
        ensures claim { result ≤ first_room }
        ensures left { result ≤ length self.now.rest.now }
    {
        expected(claimed).min(self.rest.len())
    }

    // Puts the next entry, of so many levels at most, behind those that there are.
    #[cycle(descent)]
    #[inline(always)]
    fn put_entry(&mut self, items: &mut Vec<Tree>, levels: usize) -> Result<(), Unread>
        ensures { OnOk result (PutsEntry levels items.old.items items.new.items self.old.rest.now self.new.rest.now) }
    {
        // An array in an array is put in place too: lists that nest deep are read a fifth faster so.
        if let Some(MajorType::Array) = self.next_type() {
            let entries = self.list(levels)?;
            items.push(Tree::List(Items::new(entries)))?;
            return Ok(());
        }
        match self.put_leaf(Unnamed, items)? {
            None => Ok(()),
            Some(Unnamed) => {
                let entry = self.item(levels)?;
                items.push(entry)?;
                Ok(())
            }
        }
    }

    // Puts the next pair, whose value has so many levels at most, behind those that there are.
    #[cycle(descent)]
    #[inline(always)]
    fn put_pair(&mut self, pairs: &mut Vec<(Text, Tree)>, levels: usize) -> Result<(), Unread>
        ensures { OnOk result (PutsPair levels pairs.old.items pairs.new.items self.old.rest.now self.new.rest.now) }
    {
        let name = self.key()?;
        match self.put_leaf(name, pairs)? {
            None => Ok(()),
            Some(name) => {
                let value = self.item(levels)?;
                pairs.push((name, value))?;
                Ok(())
            }
        }
    }

    // So many entries.
    #[cycle(descent)]
    #[inline(never)]
    fn entries(&mut self, count: u64, levels: usize) -> Result<Vec<Tree>, Unread>
        ensures { IfOk result (λ items. EntriesIn levels count (nodes_view items.items) self.old.rest.now self.new.rest.now) }
    {
        let mut items = Vec::with_capacity(self.alloc, self.first_room(count))?;
        for _ in 0..count {
            self.put_entry(&mut items, levels)?;
        }
        Ok(items)
    }

    // Entries up to a break, which is taken too.
    #[cycle(descent)]
    #[inline(never)]
    fn entries_to_break(&mut self, levels: usize) -> Result<Vec<Tree>, Unread>
        ensures { IfOk result (λ items. EntriesToBreakIn levels (nodes_view items.items) self.old.rest.now self.new.rest.now) }
    {
        let mut items = Vec::new(self.alloc);
        // Each entry has a byte at least.
        for _ in 0..self.rest.len() {
            if self.takes_break() {
                return Ok(items);
            }
            self.put_entry(&mut items, levels)?;
        }
        Err(Unread::GaveUp)
    }

    // So many pairs.
    #[cycle(descent)]
    #[inline(never)]
    fn pairs(&mut self, count: u64, levels: usize) -> Result<Vec<(Text, Tree)>, Unread>
        ensures { IfOk result (λ pairs. PairsIn levels count (members_view pairs.items) self.old.rest.now self.new.rest.now) }
    {
        let mut pairs = Vec::with_capacity(self.alloc, self.first_room(count))?;
        for _ in 0..count {
            self.put_pair(&mut pairs, levels)?;
        }
        Ok(pairs)
    }

    // Pairs up to a break, which is taken too.
    #[cycle(descent)]
    #[inline(never)]
    fn pairs_to_break(&mut self, levels: usize) -> Result<Vec<(Text, Tree)>, Unread>
        ensures { IfOk result (λ pairs. PairsToBreakIn levels (members_view pairs.items) self.old.rest.now self.new.rest.now) }
    {
        let mut pairs = Vec::new(self.alloc);
        // Each pair has a byte at least.
        for _ in 0..self.rest.len() {
            if self.takes_break() {
                return Ok(pairs);
            }
            self.put_pair(&mut pairs, levels)?;
        }
        Err(Unread::GaveUp)
    }
}

/// The tree of the bytes, where they are found to be one item of at most 100 levels.
///
/// # Errors
///
/// `GaveUp`: none was found, which says nothing of the bytes. `NoMemory`.
pub fn read_item(alloc: Global, bytes: &[u8]) -> Result<Tree, Unread>
    ensures { IfOk result (λ tree. IsRead CborItem (node_of tree) bytes.now) }
{
    let mut descent = Descent { rest: bytes, alloc };
    let tree = descent.item(MOST_LEVELS)?;
    if !descent.rest.is_empty() {
        return Err(Unread::GaveUp);
    }
    Ok(tree)
}
