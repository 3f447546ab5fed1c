// Whether the inside of a string or a text block has a bad escape, and where the first stands.
ghost use Rattle.std.specs.Prelude.{◌≡◌, map};
ghost use Rattle.sm_lex.specs.Lines.{indent};
ghost use Rattle.sm_lex.specs.steps.LexSteps.{line_of, lines_left, line_kept, indent_with, JudgesLine, JudgesLines};

use crate::byte::Spaces;
use crate::lines::{Line, Lines};
use crate::part::{Part, first_part};
use crate::runs::{is_blank_line, kept_len};
use sm_bytes::run_len;

/// The least number of leading spaces, with those of one more line. A blank line counts only as the last.
fn indent_with(least: Option<usize>, line: &[u8], last: bool) -> Option<usize>
    ensures { result ≡ indent_with least line.now last }
{
    if !last && is_blank_line(line) {
        return least;
    }
    let spaces = run_len::<Spaces>(line);
    match least {
        Some(least) => Some(least.min(spaces)),
        None => Some(spaces),
    }
}

/// The indent of the lines of a text block.
pub fn indent_of(lines: Lines) -> usize
    ensures { result ≡ indent (lines_left lines.entry) }
{
    let mut lines = lines;
    let mut least = None;
    while let Some(line) = lines.next() {
        least = indent_with(least, line.text.as_bytes(), lines.is_done());
    }
    least.unwrap_or(0)
}

/// A line without the indent and without the spaces and tabs at its end; of a string, the line as it is.
pub fn kept_line(line: Line, indent: Option<usize>) -> Line
    ensures { line_of result ≡ line_kept indent (line_of line.entry) }
{
    let Some(indent) = indent else {
        return line;
    };
    let taken = indent.min(run_len::<Spaces>(line.text.as_bytes()));
    let (_, behind) = line.text.split_at(taken);
    let (text, _) = behind.split_at(kept_len(behind.as_bytes()));
    Line {
        text,
        at: line.at + taken,
    }
}

/// The place of the first bad escape of a line.
fn bad_in_line(line: Line, last: bool) -> Option<usize>
    ensures { JudgesLine last (line_of line.entry) result }
{
    let bytes = line.text.as_bytes();
    let mut at = 0;
    while at < bytes.len() {
        match first_part(&bytes[at..], last) {
            Part::Plain(len) => at += len,
            Part::Escaped(escape) => at += 1 + escape.count,
            Part::Joins => return None,
            Part::Bad => return Some(line.at + at),
        }
    }
    None
}

/// The place of the first bad escape of lines, from each of which the indent goes.
pub fn bad_escape(lines: Lines, indent: Option<usize>) -> Option<usize>
    ensures { JudgesLines (map (line_kept indent) (lines_left lines.entry)) result }
{
    let mut lines = lines;
    while let Some(line) = lines.next() {
        if let Some(at) = bad_in_line(kept_line(line, indent), lines.is_done()) {
            return Some(at);
        }
    }
    None
}
