// A sink that shows the events that it takes, for rows that ask which events come with which byte.
use crate::show::{show_text, show_tree};
use sm_tree::{Event, EventSink, NoMemory, Tree};
use std::alloc::Global;

/// The events so far as a person reads them, with a blank between two: a leaf as a tree is shown, an opener as `[2` or `{2`, or
/// `[_` and `{_` where it tells no number, an end as `]` or `}`, a key as `"a":`, and a tag as `1(`.
#[derive(Drop)]
pub struct Shown {
    alloc: Global,
    text: String,
    /// Whether a byte has come.
    begun: bool,
}

impl Shown {
    pub fn new(alloc: Global) -> Self {
        Shown {
            alloc,
            text: String::new(alloc),
            begun: false,
        }
    }

    /// What was shown.
    pub fn text(&self) -> &str {
        self.text.as_str()
    }

    // Puts a blank behind what was shown, if anything was.
    fn part(&mut self) -> Result<(), NoMemory> {
        if !self.text.is_empty() {
            self.text.push(' ')?;
        }
        Ok(())
    }

    /// Another byte comes: shows a bar before each but the first.
    pub fn next_byte(&mut self) -> Result<(), NoMemory> {
        if self.begun {
            self.part()?;
            self.text.push('|')?;
        }
        self.begun = true;
        Ok(())
    }

    fn leaf(&mut self, tree: Tree) -> Result<(), NoMemory> {
        show_tree(self.alloc, &tree, &mut self.text)
    }

    fn opener(&mut self, bracket: char, count: Option<u64>) -> Result<(), NoMemory> {
        self.text.push(bracket)?;
        match count {
            Some(count) => write!(self.text, "{count}")?,
            None => self.text.push('_')?,
        }
        Ok(())
    }
}

/// It takes every event, and what it shows isn't said by a clause.
impl EventSink for Shown {
    ghost stands_for = { λ s es. Unit {0} };

    ghost takes = { λ s e. Unit {0} };

    ghost alike = { λ a b. Unit {0} };

    fn event(&mut self, event: Event) -> Result<(), NoMemory> {
        self.part()?;
        match event {
            Event::Null => self.leaf(Tree::Null),
            Event::Bool(truth) => self.leaf(Tree::Bool(truth)),
            Event::Int(integer) => self.leaf(Tree::Int(integer)),
            Event::Number(number) => self.leaf(Tree::Number(number)),
            Event::Text(text) => self.leaf(Tree::Text(text)),
            Event::Bytes(bytes) => self.leaf(Tree::Bytes(bytes)),
            Event::Tag(number) => Ok(write!(self.text, "{number}(")?),
            Event::Opaque(byte) => self.leaf(Tree::Opaque(byte)),
            Event::StartList(count) => self.opener('[', count),
            Event::EndList => Ok(self.text.push(']')?),
            Event::StartObject(count) => self.opener('{', count),
            Event::Key(name) => {
                show_text(self.alloc, name.as_str(), &mut self.text)?;
                Ok(self.text.push(':')?)
            }
            Event::EndObject => Ok(self.text.push('}')?),
        }
    }

    ghost alike_itself = { λ a. tt };

    ghost alike_then = { λ a b c ab bc. tt };
}
