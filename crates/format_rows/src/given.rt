// What a row gives to a reader: text as it stands, the text of a JSON string, or bytes.
use rows::bytes_shown;
use sm_json::read_tree;
use sm_tree::{NoMemory, Tree};
use std::alloc::Global;

/// How the bytes of a case are written down.
#[derive(Clone, Copy, Debug, PartialEq, Eq, Drop)]
pub enum Notation {
    /// The rest of the row, as it stands.
    Plain,
    /// A JSON string (RFC 8259, section 7), whose text they are.
    Quoted,
    /// Pairs of hexadecimal digits in words, each perhaps with a count: `5b*100` is a hundred times one byte, and `612e*3` three
    /// times two bytes.
    Pairs,
}

/// The bytes that are written down so, or `None` where nothing is.
///
/// # Errors
///
/// `NoMemory`.
pub fn given(alloc: Global, notation: Notation, text: &str) -> Result<Option<Vec<u8>>, NoMemory> {
    match notation {
        Notation::Plain => Ok(Some(text.as_bytes().to_vec(alloc)?)),
        Notation::Quoted => quoted(alloc, text),
        Notation::Pairs => bytes_shown(alloc, text),
    }
}

fn quoted(alloc: Global, text: &str) -> Result<Option<Vec<u8>>, NoMemory> {
    match read_tree(alloc, text.as_bytes()) {
        Ok(Tree::Text(text)) => Ok(Some(text.as_str().as_bytes().to_vec(alloc)?)),
        Ok(_) | Err(_) => Ok(None),
    }
}

/// The trees of a JSON list, or `None` where the text is none.
pub fn list_of(alloc: Global, text: &str) -> Option<Vec<Tree>> {
    match read_tree(alloc, text.as_bytes()) {
        Ok(Tree::List(items)) => Some(items.into_inner()),
        Ok(_) | Err(_) => None,
    }
}
