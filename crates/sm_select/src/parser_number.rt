// Numbers at the start of some bytes of a selector.
ghost use Rattle.std.specs.Prelude.{◌≡◌, ◌⊎◌};
ghost use Rattle.sm_select.specs.steps.Taking.{EndsHere, IsLongestNumber, run_after};

use crate::parser_text::RunBytes;
use crate::tokens::goes_on;
use sm_bytes::ByteClass;
use sm_tree::number::Phase;

// Whether a run is open behind one byte more.
fn run_behind(in_run: bool, byte: u8) -> bool
    ensures { result ≡ run_after in_run byte }
{
    matches!(byte, b'a'..=b'z' | b'A'..=b'Z' | b'_') || (in_run && RunBytes::has(byte))
}

// The place, where a number that has come so far may end there before these bytes; else the length of one before.
fn longer(len: usize, at: usize, phase: Phase, in_run: bool, behind: &[u8]) -> usize
    ensures { (EndsHere phase in_run behind.now × (result ≡ at)) ⊎ ((EndsHere phase in_run behind.now → ⊥) × (result ≡ len)) }
{
    if phase.is_whole() {
        if in_run && goes_on(behind) { len } else { at }
    } else {
        len
    }
}

/// How many bytes the longest number has that stands first and may end there; 0 where none does.
pub fn number_len(bytes: &[u8]) -> usize
    ensures { IsLongestNumber bytes.now result }
{
    let mut phase = Phase::Start;
    let mut in_run = false;
    let mut len = 0;
    let mut at = 0;
    while at < bytes.len() {
        match phase.next(bytes[at]) {
            Some(next) => {
                in_run = run_behind(in_run, bytes[at]);
                phase = next;
                at += 1;
                len = longer(len, at, phase, in_run, &bytes[at..]);
            }
            None => return len,
        }
    }
    len
}
