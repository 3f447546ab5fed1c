// The links of a row: as the bytes that they are given, and as they come out.
use rows::show_bytes;
use sm_doors::MemDoors;
use sm_tree::NoMemory;
use std::alloc::Global;

/// Of each link what its front asks, and what its back answers.
pub type MemLinks = Vec<(Vec<u8>, Vec<u8>)>;

/// How a side of no bytes is written.
const NOTHING: &str = "-";

// The bytes of a side: its text, where `|` is CR LF.
fn bytes_of(alloc: Global, side: &str) -> Result<Vec<u8>, NoMemory> {
    if side == NOTHING {
        return Ok(Vec::new(alloc));
    }
    let text = side.replace(alloc, "|", "\r\n")?;
    Ok(Vec::from_slice(alloc, text.as_bytes())?)
}

/// The links of a row, or `None` where it is none.
///
/// # Errors
///
/// `NoMemory`.
pub fn links_of(alloc: Global, row: &str) -> Result<Option<MemLinks>, NoMemory> {
    let mut links = Vec::new(alloc);
    for link in row.split(" ; ") {
        let Some((front, back)) = link.split_once(" <> ") else {
            return Ok(None);
        };
        links.push((bytes_of(alloc, front)?, bytes_of(alloc, back)?))?;
    }
    Ok(Some(links))
}

// Appends what was put to a side: a text, where CR LF is `|`, or pairs of digits.
fn show_side(alloc: Global, put: &[u8], out: &mut String) -> Result<(), NoMemory> {
    if put.is_empty() {
        return Ok(out.push_str(NOTHING)?);
    }
    match std::str::from_utf8(put) {
        Ok(text) => {
            let text = text.replace(alloc, "\r\n", "|")?;
            Ok(out.push_str(text.as_str())?)
        }
        Err(_) => show_bytes(put, out),
    }
}

/// Appends what each closed link was told, its front and its back, of the first so many.
///
/// # Errors
///
/// `NoMemory`.
pub fn show_links(
    alloc: Global,
    doors: &MemDoors,
    most: u64,
    out: &mut String,
) -> Result<(), NoMemory> {
    for link in 1..=most {
        if let (Some(answers), Some(requests)) = (doors.front_bytes(link), doors.back_bytes(link)) {
            out.push_str(" ; ")?;
            show_side(alloc, answers, out)?;
            out.push_str(" <> ")?;
            show_side(alloc, requests, out)?;
        }
    }
    Ok(())
}
