// Why a tree is no model, with the place as a JSON Pointer (RFC 6901).
use crate::node::show_text;
use sm_ast::AstRefusal;
use sm_tree::{NoMemory, Path};
use std::alloc::Global;

fn show_place(alloc: Global, word: &str, path: &Path, out: &mut String) -> Result<(), NoMemory> {
    out.push_str(word)?;
    out.push(' ')?;
    let pointer = path.print(alloc)?;
    show_text(alloc, &pointer, out)
}

/// Appends a refusal: its word, and the place as a JSON string.
pub fn show_refusal(alloc: Global, refusal: &AstRefusal, out: &mut String) -> Result<(), NoMemory> {
    match refusal {
        AstRefusal::Version => Ok(out.push_str("Version")?),
        AstRefusal::Field(path) => show_place(alloc, "Field", path, out),
        AstRefusal::WrongType(path) => show_place(alloc, "WrongType", path, out),
        AstRefusal::BadId(path) => show_place(alloc, "BadId", path, out),
        AstRefusal::NoMemory => Err(NoMemory),
    }
}
