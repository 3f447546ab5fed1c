// Leaves of arrays and maps, pushed as they are made, so that the compiler can build them in place.
ghost use Rattle.std.specs.Prelude.{◌≡◌, ◌<◌, length, IfOk, OnOk, pos, negsuc};
ghost use Rattle.sm_cbor.specs.steps.Descent.{PutsInteger, PutsLeaf};

use super::major_type::MajorType;
use super::{Descent, Unread};
use crate::integer::{negative_tree, unsigned_tree};
use sm_tree::{Text, Tree};
use std::alloc::Global;

/// What a tree is kept under: its name in a map, and nothing in an array. So one reader of leaves serves both.
pub trait Naming: Drop {
    /// What an array or a map keeps of a tree.
    type Entry: Drop;

    ghost use Rattle.sm_tree.specs.declared.tree.Tree.{Tree};

    ghost named: { Self → Tree → Self.Entry };

    /// The tree under its name.
    fn named(self, tree: Tree) -> Self::Entry
        ensures { result ≡ named self tree };
}

/// No name: an entry of an array has none.
#[derive(Drop)]
pub struct Unnamed;

impl Naming for Unnamed {
    type Entry = Tree;

    ghost named = { λ _ tree. tree };

    #[inline(always)]
    fn named(self, tree: Tree) -> Tree {
        tree
    }
}

impl Naming for Text {
    type Entry = (Text, Tree);

    ghost named = { λ name tree. (name, tree) };

    #[inline(always)]
    fn named(self, tree: Tree) -> (Text, Tree) {
        (self, tree)
    }
}

// Puts the integer `value` behind the entries. Only one that `i64` doesn't hold comes here, so it isn't inlined.
#[inline(never)]
fn put_unsigned<N: Naming>(
    alloc: Global,
    value: u64,
    name: N,
    entries: &mut Vec<N::Entry>,
) -> Result<(), Unread>
    ensures { OnOk result (PutsInteger N.named value (pos value) name entries.old.items entries.new.items) }
{
    entries.push(name.named(unsigned_tree(alloc, value)?))?;
    Ok(())
}

// The same of the integer -1 less `value`.
#[inline(never)]
fn put_negative<N: Naming>(
    alloc: Global,
    value: u64,
    name: N,
    entries: &mut Vec<N::Entry>,
) -> Result<(), Unread>
    ensures { OnOk result (PutsInteger N.named value (negsuc value) name entries.old.items entries.new.items) }
{
    entries.push(name.named(negative_tree(alloc, value)?))?;
    Ok(())
}

impl<'a> Descent<'a> {
    // Puts the next item behind the entries, under its name, if it is a truth value, null or undefined. Another is left
    // where it is, and the name is handed back.
    #[inline(always)]
    fn put_constant<N: Naming>(
        &mut self,
        name: N,
        entries: &mut Vec<N::Entry>,
    ) -> Result<Option<N>, Unread>
        requires { 0 < length self.old.rest.now }
        ensures { IfOk result (PutsLeaf N.named name entries.old.items entries.new.items self.old.rest.now self.new.rest.now) }
    {
        match self.rest[0] {
            0xF4 => {
                self.skip();
                entries.push(name.named(Tree::Bool(false)))?;
                Ok(None)
            }
            0xF5 => {
                self.skip();
                entries.push(name.named(Tree::Bool(true)))?;
                Ok(None)
            }
            0xF6 | 0xF7 => {
                self.skip();
                entries.push(name.named(Tree::Null))?;
                Ok(None)
            }
            _ => Ok(Some(name)),
        }
    }

    // Puts the next item behind the entries, under its name, if it is an integer, a text, a truth value, null or
    // undefined. Another is left where it is, and the name is handed back.
    #[inline(always)]
    pub(super) fn put_leaf<N: Naming>(
        &mut self,
        name: N,
        entries: &mut Vec<N::Entry>,
    ) -> Result<Option<N>, Unread>
        ensures { IfOk result (PutsLeaf N.named name entries.old.items entries.new.items self.old.rest.now self.new.rest.now) }
    {
        let Some(major) = self.next_type() else {
            return Err(Unread::GaveUp);
        };
        match major {
            MajorType::Unsigned => {
                let value = self.argument()?;
                if value < 1 << 63 {
                    entries.push(name.named(Tree::Int(value as i64)))?;
                    return Ok(None);
                }
                put_unsigned(self.alloc, value, name, entries)?;
                Ok(None)
            }
            MajorType::Negative => {
                let value = self.argument()?;
                if value < 1 << 63 {
                    entries.push(name.named(Tree::Int(-1 - (value as i64))))?;
                    return Ok(None);
                }
                put_negative(self.alloc, value, name, entries)?;
                Ok(None)
            }
            MajorType::Text => {
                let text = self.text()?;
                entries.push(name.named(Tree::Text(text)))?;
                Ok(None)
            }
            MajorType::Simple => self.put_constant(name, entries),
            _ => Ok(Some(name)),
        }
    }
}
