// The bytes of strings and chunks, in runs, and UTF-8 judged as they come.
ghost use Rattle.std.specs.Prelude.{◌≡◌, ◌<◌, ◌≤◌, length, take, OnOk, IsUtf8, []};
ghost use Rattle.sm_bytes.specs.declared.utf8.Utf8.TheVariants.{Between};
ghost use Rattle.sm_cbor.specs.steps.Machine.{IsSomePrefix};

use super::Reader;
use crate::place::CborPlace;
use sm_bytes::{Utf8, whole_len};
use sm_tree::{EventSink, NoMemory, SyntaxRefusal};

// The first bytes, but no more than are left.
fn first_bytes(bytes: &[u8], left: u64) -> &[u8]
    ensures { IsSomePrefix result.now bytes.now left }
{
    if left < bytes.len() as u64 {
        &bytes[..left as usize]
    } else {
        bytes
    }
}

// How many of the first bytes are whole characters. None within a character.
fn characters(utf8: Utf8, bytes: &[u8]) -> usize
    ensures within { result ≤ length bytes.now }
    ensures utf8 { IsUtf8 (take result bytes.now) }
    ensures between { 0 < result → utf8 ≡ Between }
{
    match utf8 {
        Utf8::Between => whole_len(bytes),
        _ => 0,
    }
}

impl Reader {
    ghost use Rattle.sm_cbor.specs.steps.Machine.{IsAt, IsSoundReader, CborGoes, CborTakesByte, CborTakesPrefix, RunFits, IsBytesPlace};
    ghost use Rattle.sm_cbor.specs.steps.Machine.{IsTextPlace, cbor_state_at, cbor_state_of};
    ghost use Rattle.sm_cbor.specs.steps.Sinks.{Reached};
    ghost use Rattle.sm_tree.specs.Streams.{TakesEvery, TakesSame};
    ghost use Rattle.sm_tree.specs.ReaderClauses.{TakesStill};

    // Holds bytes of the string, behind which its UTF-8 stands at this place.
    pub(super) fn take_run<E: EventSink>(
        &mut self,
        next: Utf8,
        run: &[u8],
        to: &mut E,
    ) -> Result<(), NoMemory>
        requires sound { IsAt self.old self.old.place }
        requires fits { RunFits self.old.place next run.now }
        requires reached { Reached (E.stands_for to.old) (cbor_state_at self.old self.old.place) }
        requires takes { TakesEvery (E.takes to.old) }
        ensures goes { OnOk result (CborGoes (E.stands_for to.old) self.old [] self.old.place run.now (E.stands_for to.new) self.new) }
        ensures takes { OnOk result (TakesSame (E.takes to.old) (E.takes to.new)) }
        ensures alike { E.alike to.old to.new }
    {
        let CborPlace::String(kind, span, all, _) = self.place else {
            unreachable!()
        };
        self.held.extend_from_slice(run)?;
        let left = all - run.len() as u64;
        if left == 0 {
            return self.end_span(kind, span, to);
        }
        self.place = CborPlace::String(kind, span, left, next);
        Ok(())
    }

    // Bytes of a byte string.
    pub(super) fn string_bytes<E: EventSink>(
        &mut self,
        left: u64,
        utf8: Utf8,
        bytes: &[u8],
        to: &mut E,
    ) -> Result<usize, SyntaxRefusal>
        requires sound { IsSoundReader self.old }
        requires place { IsBytesPlace self.old.place left utf8 }
        requires some { 0 < length bytes.now }
        requires reached { Reached (E.stands_for to.old) (cbor_state_of self.old) }
        requires takes { TakesEvery (E.takes to.old) }
        ensures goes { CborTakesPrefix (E.stands_for to.old) self.old bytes.now (E.stands_for to.new) self.new result }
        ensures takes { TakesStill (E.takes to.old) (E.takes to.new) result }
        ensures alike { E.alike to.old to.new }
    {
        let run = first_bytes(bytes, left);
        self.take_run(Utf8::Between, run, to)?;
        Ok(run.len())
    }

    // One byte of a text.
    pub(super) fn text_byte<E: EventSink>(
        &mut self,
        left: u64,
        utf8: Utf8,
        byte: u8,
        to: &mut E,
    ) -> Result<(), SyntaxRefusal>
        requires sound { IsSoundReader self.old }
        requires place { IsTextPlace self.old.place left utf8 }
        requires reached { Reached (E.stands_for to.old) (cbor_state_of self.old) }
        requires takes { TakesEvery (E.takes to.old) }
        ensures goes { CborTakesByte (E.stands_for to.old) self.old self.old.place byte (E.stands_for to.new) self.new result }
        ensures takes { TakesStill (E.takes to.old) (E.takes to.new) result }
        ensures alike { E.alike to.old to.new }
    {
        match utf8.next(byte) {
            Some(next) => {
                if next.owed() >= left {
                    return Err(SyntaxRefusal::Bad(0));
                }
                self.take_run(next, &[byte], to)?;
                Ok(())
            }
            None => Err(SyntaxRefusal::Bad(0)),
        }
    }

    // Bytes of a text: whole characters, or one byte.
    pub(super) fn text_bytes<E: EventSink>(
        &mut self,
        left: u64,
        utf8: Utf8,
        bytes: &[u8],
        to: &mut E,
    ) -> Result<usize, SyntaxRefusal>
        requires sound { IsSoundReader self.old }
        requires place { IsTextPlace self.old.place left utf8 }
        requires some { 0 < length bytes.now }
        requires reached { Reached (E.stands_for to.old) (cbor_state_of self.old) }
        requires takes { TakesEvery (E.takes to.old) }
        ensures goes { CborTakesPrefix (E.stands_for to.old) self.old bytes.now (E.stands_for to.new) self.new result }
        ensures takes { TakesStill (E.takes to.old) (E.takes to.new) result }
        ensures alike { E.alike to.old to.new }
    {
        let whole = characters(utf8, first_bytes(bytes, left));
        if whole > 0 {
            self.take_run(Utf8::Between, &bytes[..whole], to)?;
            return Ok(whole);
        }
        self.text_byte(left, utf8, bytes[0], to)?;
        Ok(1)
    }
}
