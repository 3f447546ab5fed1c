// Whether a text is a selector, or the place at which it isn't.
use sm_select::{SelectorRefusal, parse_selector};
use sm_tree::NoMemory;
use std::alloc::Global;
use std::fmt::Write;

/// Appends what the reader of selectors says of a text.
pub fn show_selector(alloc: Global, text: &str, out: &mut String) -> Result<(), NoMemory> {
    match parse_selector(alloc, text) {
        Ok(_) => out.push_str(" => a selector")?,
        Err(SelectorRefusal::Syntax(at)) => write!(out, " => Syntax {at}")?,
        Err(SelectorRefusal::OutOfProfile(at)) => write!(out, " => OutOfProfile {at}")?,
        Err(SelectorRefusal::NoMemory) => out.push_str(" => NoMemory")?,
    }
    Ok(())
}
