// What makes a tree from its events, one call an event. Contracts see a builder as specs/Building.antt says.
ghost use Rattle.std.specs.Prelude.{◌≡◌, ◌++◌, ◌∷◌, [], List, min, max, IfOk, OnOk, true, false, Some, None};
ghost use Rattle.sm_tree.specs.Limits.{first_room};
ghost use Rattle.sm_tree.specs.View.{node_of};
ghost use Rattle.sm_tree.specs.Events.{events, start_list as list_starts, start_object as object_starts, end_list as list_ends};
ghost use Rattle.sm_tree.specs.Events.{end_object as object_ends, key_event, tag_event};
ghost use Rattle.sm_tree.specs.Building.{so_far, kinds, awaits_value, awaits_content, inner_awaits, goes_on, first_kind, IsIn, tagged};
ghost use Rattle.sm_tree.specs.steps.BuilderSteps.{with_tree, with_tag, ended, put_around, back_inside, after_start, after_end};
ghost use Rattle.sm_tree.specs.BuilderView.{inner_of, around_of, open_of, building_of};

use crate::NoMemory;
use crate::text::Text;
use crate::tree::{Items, Pairs, Tree};
use std::alloc::Global;
use std::mem;

/// The most entries or pairs that room is made for where the first comes: as many as an empty vector would take by
/// itself.
pub const FIRST_ROOM: usize = 4;

/// What is open at a place of a tree.
#[derive(Debug, Clone, Copy, PartialEq, Eq, Drop)]
pub enum OpenKind {
    /// An array.
    List,
    /// An object of JSON or a map of CBOR.
    Object,
}

/// Makes a tree from its events, which come one call each and in order. The caller must bring each event where it has its
/// place: the builder's `requires` say so, and it checks nothing. After `NoMemory` a builder is of no use.
#[derive(Drop)]
pub struct TreeBuilder {
    state: State,
    alloc: Global,
}

#[derive(Drop)]
enum State {
    /// No event has come but these tags, the outermost first.
    Empty(Vec<u64>),
    /// The last event has come.
    Whole(Tree),
    Within(Open),
}

/// A list or an object that is open, what is around it, the outermost first, and the tags round all of it.
#[derive(Drop)]
struct Open {
    inner: Inner,
    outer: Vec<Around>,
    tags: Vec<u64>,
}

/// A name of an object whose tree is to come, and the tags that have come of that tree, the outermost first.
#[derive(Drop)]
struct Pending {
    name: Text,
    tags: Vec<u64>,
}

/// The innermost list or object.
#[derive(Drop)]
enum Inner {
    /// The entries so far, the tags that have come of the next one, the outermost first, and the first room.
    List(Vec<Tree>, Vec<u64>, u8),
    /// The pairs so far, the name whose tree is to come, and the first room.
    Object(Vec<(Text, Tree)>, Option<Pending>, u8),
}

/// A list or an object around it. What is open becomes its next entry, or the tree of the name, in its tags.
#[derive(Drop)]
enum Around {
    List(Vec<Tree>, Vec<u64>, u8),
    Object(Vec<(Text, Tree)>, Pending, u8),
}

// The room for entries or pairs that is made where the first comes, for a caller that expects so many.
fn room_for(expected: usize) -> u8
    ensures { result ≡ max 1 (min expected first_room) }
{
    expected.clamp(1, FIRST_ROOM) as u8
}

// A tree in tags, the outermost first, which are used up.
#[inline(always)]
fn in_tags(alloc: Global, tags: &mut Vec<u64>, tree: Tree) -> Result<Tree, NoMemory>
    ensures tree { IfOk result (λ whole. node_of whole ≡ tagged tags.old.items (node_of tree)) }
    ensures none { OnOk result (tags.new.items ≡ []) }
{
    if tags.is_empty() {
        return Ok(tree);
    }
    let mut tree = tree;
    while let Some(number) = tags.pop() {
        tree = Tree::Tag(number, Box::new(alloc, tree)?);
    }
    Ok(tree)
}

impl Inner {
    // Appends a tree: an entry, or the tree of the name that awaits one.
    #[inline(always)]
    fn put(&mut self, alloc: Global, tree: Tree) -> Result<(), NoMemory>
        requires { inner_awaits (inner_of self.old) ≡ true }
        ensures { OnOk result (inner_of self.new ≡ with_tree (node_of tree) (inner_of self.old)) }
    {
        match self {
            Inner::List(items, tags, room) => {
                let whole = in_tags(alloc, tags, tree)?;
                if items.is_empty() {
                    items.reserve_exact(usize::from(*room))?;
                }
                match items.push(whole) {
                    Ok(()) => Ok(()),
                    Err(_) => Err(NoMemory),
                }
            }
            Inner::Object(pairs, pending, room) => match pending.take() {
                Some(Pending { name, mut tags }) => {
                    let whole = in_tags(alloc, &mut tags, tree)?;
                    if pairs.is_empty() {
                        pairs.reserve_exact(usize::from(*room))?;
                    }
                    match pairs.push((name, whole)) {
                        Ok(()) => Ok(()),
                        Err(_) => Err(NoMemory),
                    }
                }
                None => unreachable!(),
            },
        }
    }

    // A tag of the next entry, or of the tree of the name that awaits one.
    fn tag(&mut self, number: u64) -> Result<(), NoMemory>
        requires { inner_awaits (inner_of self.old) ≡ true }
        ensures { OnOk result (inner_of self.new ≡ with_tag number (inner_of self.old)) }
    {
        match self {
            Inner::List(_, tags, _) => match tags.push(number) {
                Ok(()) => Ok(()),
                Err(_) => Err(NoMemory),
            },
            Inner::Object(_, Some(pending), _) => match pending.tags.push(number) {
                Ok(()) => Ok(()),
                Err(_) => Err(NoMemory),
            },
            Inner::Object(_, None, _) => unreachable!(),
        }
    }

    // The tree of what ends.
    fn into_tree(self) -> Tree
        ensures { node_of result ≡ ended (inner_of self) }
    {
        match self {
            Inner::List(items, _, _) => Tree::List(Items::new(items)),
            Inner::Object(pairs, _, _) => Tree::Object(Pairs::new(pairs)),
        }
    }

    // What stands around the list or object that opens in it.
    fn into_around(self) -> Around
        requires { inner_awaits (inner_of self) ≡ true }
        ensures { around_of result ≡ put_around (inner_of self) }
    {
        match self {
            Inner::List(items, tags, room) => Around::List(items, tags, room),
            Inner::Object(pairs, pending, room) => match pending {
                Some(pending) => Around::Object(pairs, pending, room),
                None => unreachable!(),
            },
        }
    }
}

impl Around {
    // The innermost again, where what was open in it ends.
    fn into_inner(self) -> Inner
        ensures { inner_of result ≡ back_inside (around_of self) }
    {
        match self {
            Around::List(items, tags, room) => Inner::List(items, tags, room),
            Around::Object(pairs, pending, room) => Inner::Object(pairs, Some(pending), room),
        }
    }
}

impl Open {
    // Opens a list or an object in the innermost.
    fn start(&mut self, inner: Inner) -> Result<(), NoMemory>
        requires { awaits_value (open_of self.old) ≡ true }
        ensures { OnOk result (open_of self.new ≡ after_start (inner_of inner) (open_of self.old)) }
    {
        let around = mem::replace(&mut self.inner, inner).into_around();
        match self.outer.push(around) {
            Ok(()) => Ok(()),
            Err(_) => Err(NoMemory),
        }
    }
}

impl TreeBuilder {
    /// A builder that awaits the first event. It takes no memory yet.
    pub fn new(alloc: Global) -> Self
        ensures taken { so_far (building_of result) ≡ [] }
        ensures kinds { kinds (building_of result) ≡ [] }
        ensures awaits { awaits_value (building_of result) ≡ true }
        ensures content { awaits_content (building_of result) ≡ false }
    {
        TreeBuilder {
            state: State::Empty(Vec::new(alloc)),
            alloc,
        }
    }

    // Opens a list or an object where a tree may come.
    fn start(&mut self, inner: Inner) -> Result<(), NoMemory>
        requires { awaits_value (building_of self.old) ≡ true }
        ensures { OnOk result (building_of self.new ≡ after_start (inner_of inner) (building_of self.old)) }
    {
        match &mut self.state {
            State::Empty(tags) => {
                let outer = Vec::new(self.alloc);
                let tags = mem::replace(tags, Vec::new(self.alloc));
                self.state = State::Within(Open { inner, outer, tags });
                Ok(())
            }
            State::Within(open) => open.start(inner),
            State::Whole(_) => unreachable!(),
        }
    }

    // Ends the innermost list or object, and gives it to what is around it.
    fn end(&mut self) -> Result<(), NoMemory>
        ensures { OnOk result (building_of self.new ≡ after_end (building_of self.old)) }
    {
        match &mut self.state {
            State::Within(open) => match open.outer.pop() {
                Some(around) => {
                    let inner = mem::replace(&mut open.inner, around.into_inner());
                    open.inner.put(self.alloc, inner.into_tree())
                }
                None => {
                    let empty = Inner::List(Vec::new(self.alloc), Vec::new(self.alloc), 1);
                    let inner = mem::replace(&mut open.inner, empty);
                    let tree = in_tags(self.alloc, &mut open.tags, inner.into_tree())?;
                    self.state = State::Whole(tree);
                    Ok(())
                }
            },
            State::Empty(_) | State::Whole(_) => Ok(()),
        }
    }

    /// The kind of what is open innermost. No memory.
    pub fn innermost(&self) -> Option<OpenKind>
        ensures { result ≡ first_kind (kinds (building_of self.now)) }
    {
        match &self.state {
            State::Within(open) => match &open.inner {
                Inner::List(_, _, _) => Some(OpenKind::List),
                Inner::Object(_, _, _) => Some(OpenKind::Object),
            },
            State::Empty(_) | State::Whole(_) => None,
        }
    }

    /// Takes a tag (RFC 8949, section 3.4): the value that is to come is its content. `NoMemory` where it finds no
    /// room.
    pub fn tag(&mut self, number: u64) -> Result<(), NoMemory>
        requires { awaits_value (building_of self.old) ≡ true }
        ensures taken { OnOk result (so_far (building_of self.new) ≡ so_far (building_of self.old) ++ (tag_event number ∷ [])) }
        ensures kinds { OnOk result (kinds (building_of self.new) ≡ kinds (building_of self.old)) }
        ensures awaits { OnOk result (awaits_value (building_of self.new) ≡ true) }
        ensures content { OnOk result (awaits_content (building_of self.new) ≡ true) }
    {
        match &mut self.state {
            State::Empty(tags) => match tags.push(number) {
                Ok(()) => Ok(()),
                Err(_) => Err(NoMemory),
            },
            State::Within(open) => open.inner.tag(number),
            State::Whole(_) => unreachable!(),
        }
    }

    /// Takes all events of a tree, or the one of a leaf. `NoMemory` where the entry finds no room.
    #[inline(always)]
    pub fn value(&mut self, tree: Tree) -> Result<(), NoMemory>
        requires { awaits_value (building_of self.old) ≡ true }
        ensures taken { OnOk result (so_far (building_of self.new) ≡ so_far (building_of self.old) ++ events (node_of tree) []) }
        ensures kinds { OnOk result (kinds (building_of self.new) ≡ kinds (building_of self.old)) }
        ensures awaits { OnOk result (awaits_value (building_of self.new) ≡ goes_on (kinds (building_of self.new))) }
        ensures content { OnOk result (awaits_content (building_of self.new) ≡ false) }
    {
        match &mut self.state {
            State::Empty(tags) => {
                let whole = in_tags(self.alloc, tags, tree)?;
                self.state = State::Whole(whole);
                Ok(())
            }
            State::Within(open) => open.inner.put(self.alloc, tree),
            State::Whole(_) => unreachable!(),
        }
    }

    // The same by a call: a function into which `value` is inlined for each kind of leaf grows too large to be inlined itself.
    #[inline(never)]
    pub(crate) fn value_by_call(&mut self, tree: Tree) -> Result<(), NoMemory>
        requires { awaits_value (building_of self.old) ≡ true }
        ensures { OnOk result (so_far (building_of self.new) ≡ so_far (building_of self.old) ++ events (node_of tree) []) }
    {
        self.value(tree)
    }

    /// Takes the name of the next pair of the innermost object. No memory.
    #[inline(always)]
    pub fn key(&mut self, name: Text)
        requires innermost { IsIn OpenKind.Object (kinds (building_of self.old)) }
        requires unnamed { awaits_value (building_of self.old) ≡ false }
        ensures taken { so_far (building_of self.new) ≡ so_far (building_of self.old) ++ (key_event name ∷ []) }
        ensures kinds { kinds (building_of self.new) ≡ kinds (building_of self.old) }
        ensures awaits { awaits_value (building_of self.new) ≡ true }
        ensures content { awaits_content (building_of self.new) ≡ false }
    {
        match &mut self.state {
            State::Within(open) => match &mut open.inner {
                Inner::Object(_, pending, _) => {
                    let tags = Vec::new(self.alloc);
                    *pending = Some(Pending { name, tags });
                }
                Inner::List(_, _, _) => unreachable!(),
            },
            State::Empty(_) | State::Whole(_) => unreachable!(),
        }
    }

    /// Takes the opener of a list. `NoMemory` where what is open finds no room.
    ///
    /// `expected` is how many entries may come: where the first comes, room is made for so many, but for one at least
    /// and `FIRST_ROOM` at most. Where more come than room was made for, the list grows as a vector does.
    pub fn start_list(&mut self, expected: usize) -> Result<(), NoMemory>
        requires { awaits_value (building_of self.old) ≡ true }
        ensures taken { OnOk result (so_far (building_of self.new) ≡ so_far (building_of self.old) ++ (list_starts None ∷ [])) }
        ensures kinds { OnOk result (kinds (building_of self.new) ≡ OpenKind.List ∷ kinds (building_of self.old)) }
        ensures awaits { OnOk result (awaits_value (building_of self.new) ≡ true) }
        ensures content { OnOk result (awaits_content (building_of self.new) ≡ false) }
    {
        let (items, tags) = (Vec::new(self.alloc), Vec::new(self.alloc));
        self.start(Inner::List(items, tags, room_for(expected)))
    }

    /// Takes the opener of an object. `NoMemory` where what is open finds no room.
    ///
    /// `expected` is how many pairs may come: where the first comes, room is made for so many, but for one at least
    /// and `FIRST_ROOM` at most. Where more come than room was made for, the object grows as a vector does.
    pub fn start_object(&mut self, expected: usize) -> Result<(), NoMemory>
        requires { awaits_value (building_of self.old) ≡ true }
        ensures taken { OnOk result (so_far (building_of self.new) ≡ so_far (building_of self.old) ++ (object_starts None ∷ [])) }
        ensures kinds { OnOk result (kinds (building_of self.new) ≡ OpenKind.Object ∷ kinds (building_of self.old)) }
        ensures awaits { OnOk result (awaits_value (building_of self.new) ≡ false) }
        ensures content { OnOk result (awaits_content (building_of self.new) ≡ false) }
    {
        self.start(Inner::Object(Vec::new(self.alloc), None, room_for(expected)))
    }

    /// Takes the end of the innermost list, in which no tag awaits its content. `NoMemory` where what is around it
    /// has no room for it.
    pub fn end_list(&mut self) -> Result<(), NoMemory>
        requires innermost { IsIn OpenKind.List (kinds (building_of self.old)) }
        requires content { awaits_content (building_of self.old) ≡ false }
        ensures taken { OnOk result (so_far (building_of self.new) ≡ so_far (building_of self.old) ++ (list_ends ∷ [])) }
        ensures kinds { OnOk result (kinds (building_of self.old) ≡ OpenKind.List ∷ kinds (building_of self.new)) }
        ensures awaits { OnOk result (awaits_value (building_of self.new) ≡ goes_on (kinds (building_of self.new))) }
        ensures content { OnOk result (awaits_content (building_of self.new) ≡ false) }
    {
        self.end()
    }

    /// Takes the end of the innermost object. `NoMemory` where what is around it has no room for it.
    pub fn end_object(&mut self) -> Result<(), NoMemory>
        requires innermost { IsIn OpenKind.Object (kinds (building_of self.old)) }
        requires unnamed { awaits_value (building_of self.old) ≡ false }
        ensures taken { OnOk result (so_far (building_of self.new) ≡ so_far (building_of self.old) ++ (object_ends ∷ [])) }
        ensures kinds { OnOk result (kinds (building_of self.old) ≡ OpenKind.Object ∷ kinds (building_of self.new)) }
        ensures awaits { OnOk result (awaits_value (building_of self.new) ≡ goes_on (kinds (building_of self.new))) }
        ensures content { OnOk result (awaits_content (building_of self.new) ≡ false) }
    {
        self.end()
    }

    /// The tree whose events were taken. No memory.
    pub fn finish(self) -> Tree
        requires closed { kinds (building_of self) ≡ [] }
        requires begun { awaits_value (building_of self) ≡ false }
        ensures { so_far (building_of self) ≡ events (node_of result) [] }
    {
        match self.state {
            State::Whole(tree) => tree,
            State::Empty(_) | State::Within(_) => unreachable!(),
        }
    }
}
