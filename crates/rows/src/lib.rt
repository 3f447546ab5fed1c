// Rows of text as cases: a row is a case and its answer, and comes out where a player answers otherwise. The programs that play rows
// stand on it.
#![tactic(auto)]

mod pairs;

pub use pairs::{bytes_shown, push_utf8, show_byte, show_bytes, show_order};
use sm_tree::NoMemory;
use std::alloc::Global;

/// What answers the cases of a program.
pub trait Player {
    /// Appends what stands behind a case: ` => ` and its answer, or nothing where the row only prepares others.
    fn play(&mut self, alloc: Global, case: &str, out: &mut String) -> Result<(), NoMemory>;
}

/// What the rows of a text come to: each that comes out otherwise than it stands, as it comes out, or the one line that says that none
/// does, or that there are none. Empty rows and titles (`# ..`) are no cases; a case is what stands before the first ` => `.
///
/// # Errors
///
/// `NoMemory`.
pub fn played<P: Player>(alloc: Global, player: &mut P, rows: &str) -> Result<String, NoMemory> {
    let mut out = String::new(alloc);
    let mut has_cases = false;
    for row in rows.lines() {
        if !row.is_empty() && !row.starts_with('#') {
            has_cases = true;
            put_other(alloc, player, row, &mut out)?;
        }
    }
    if out.is_empty() {
        out.push_str(summary(has_cases))?;
    }
    Ok(out)
}

// What is said where no row comes out otherwise.
fn summary(has_cases: bool) -> &'static str {
    if has_cases {
        "each row comes out as it stands\n"
    } else {
        "no rows\n"
    }
}

// Appends a row as it comes out, where it comes out otherwise.
fn put_other<P: Player>(
    alloc: Global,
    player: &mut P,
    row: &str,
    out: &mut String,
) -> Result<(), NoMemory> {
    let case = match row.split_once(" => ") {
        Some((case, _)) => case,
        None => row,
    };
    let mut answer = String::new(alloc);
    player.play(alloc, case, &mut answer)?;
    let shown = shown_row(alloc, case, &answer)?;
    if shown.as_str() != row {
        out.push_str(&shown)?;
        out.push('\n')?;
    }
    Ok(())
}

// A case and its answer as one row: a line feed of the answer is shown as `\n`.
fn shown_row(alloc: Global, case: &str, answer: &str) -> Result<String, NoMemory> {
    let mut shown = String::new(alloc);
    shown.push_str(case)?;
    for character in answer.chars() {
        match character {
            '\n' => shown.push_str("\\n")?,
            _ => shown.push(character)?,
        }
    }
    Ok(shown)
}

/// Appends ", " but for the first time.
///
/// # Errors
///
/// `NoMemory`.
pub fn push_comma(is_first: &mut bool, out: &mut String) -> Result<(), NoMemory> {
    if !*is_first {
        out.push_str(", ")?;
    }
    *is_first = false;
    Ok(())
}
