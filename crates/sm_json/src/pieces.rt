// A reader of one JSON text (RFC 8259) that takes it in pieces, and hands its events to any sink as soon as their bytes are
// complete.
ghost use Rattle.std.specs.Prelude.{◌≡◌, ◌∷◌, ◌↔◌, IsTrue, IfSome, IfErr, List, ℕ, [], None, Some, Err};
ghost use Rattle.sm_tree.specs.Streams.{TakesEvery};
ghost use Rattle.sm_tree.specs.Events.{null_event};
ghost use Rattle.sm_tree.specs.Timing.{Follows, Completes};
ghost use Rattle.sm_tree.specs.ReaderClauses.{TakesStill, StaysRefused};
ghost use Rattle.sm_json.specs.Timing.{json_timing};
ghost use Rattle.sm_tree.specs.Sources.{MayFeed};
ghost use Rattle.sm_json.specs.Stands.{first_black, first_of, json_source, refusal_of, JsonHasCome, JsonStands, JsonFeeds, JsonFlushes};
ghost use Rattle.sm_json.specs.Stands.{JsonEndsWith};

use crate::read::Reader;
use crate::whitespace::Whitespace;
use sm_bytes::run_len;
use sm_tree::{EventSink, SyntaxRefusal};
use std::alloc::Global;

/// Reads one JSON text in pieces. Once it has refused it gives that refusal again, and hands nothing on.
#[derive(Drop)]
pub struct JsonReader {
    reader: Reader,
    /// How many bytes have come.
    taken: usize,
    /// The first of them that is no whitespace: it tells which kind of tree the text is of.
    first: Option<u8>,
    /// Whether a number at the end was handed on: then no more bytes may come.
    flushed: bool,
    /// What was refused.
    refused: Option<SyntaxRefusal>,
}

// The first byte that is no whitespace.
#[tactic(auto, using(crate::proofs::NullTexts::black_of_run))]
fn first_in(bytes: &[u8]) -> Option<u8>
    ensures { result ≡ first_black bytes.now }
{
    let white = run_len::<Whitespace>(bytes);
    if white < bytes.len() {
        Some(bytes[white])
    } else {
        None
    }
}

// The same, where other bytes came before.
fn first_behind(first: Option<u8>, bytes: &[u8]) -> Option<u8>
    ensures { result ≡ first_of first bytes.now }
{
    match first {
        Some(byte) => Some(byte),
        None => first_in(bytes),
    }
}

impl JsonReader {
    /// A reader to which no byte has come. No memory.
    pub fn new(alloc: Global) -> Self
        ensures stands { JsonStands result [] }
        ensures fresh { refusal_of result ≡ None }
    {
        JsonReader {
            reader: Reader::new(alloc),
            taken: 0,
            first: None,
            flushed: false,
            refused: None,
        }
    }

    // A piece, where nothing was refused.
    fn go_on<E: EventSink>(&mut self, piece: &[u8], to: &mut E) -> Result<(), SyntaxRefusal>
        requires fresh { refusal_of self.old ≡ None }
        requires stands { (bytes : List ℕ) × JsonStands self.old bytes × Follows json_timing (E.stands_for to.old) bytes }
        requires takes { TakesEvery (E.takes to.old) }
        ensures feeds { JsonFeeds (E.stands_for to.old) self.old piece.now (E.stands_for to.new) self.new result }
        ensures takes { TakesStill (E.takes to.old) (E.takes to.new) result }
        ensures alike { E.alike to.old to.new }
    {
        if piece.len() > usize::MAX - self.taken {
            self.refused = Some(SyntaxRefusal::NoMemory);
            return Err(SyntaxRefusal::NoMemory);
        }
        match self.reader.feed(piece, to) {
            Ok(()) => {
                self.taken += piece.len();
                self.first = first_behind(self.first, piece);
                Ok(())
            }
            Err(refusal) => {
                let moved = refusal.moved_by(self.taken);
                self.refused = Some(moved);
                Err(moved)
            }
        }
    }

    /// Takes the next piece, and hands on the events that its bytes complete. Where it has refused before, nothing changes.
    ///
    /// # Errors
    ///
    /// Places count from the first byte of all pieces. `Bad(at)` and `TooDeep(at)`, exactly as the bytes so far come to them: the
    /// sink then has the events that the bytes before the place complete. The refusal that was given before. `NoMemory`:
    /// the allocator refused the memory that a text or a number needs, or the sink that of an event, or the bytes are more
    /// than can be counted.
    pub fn feed<E: EventSink>(&mut self, piece: &[u8], to: &mut E) -> Result<(), SyntaxRefusal>
        requires stands { MayFeed json_source self.old (E.stands_for to.old) }
        requires takes { TakesEvery (E.takes to.old) }
        ensures feeds { refusal_of self.old ≡ None → JsonFeeds (E.stands_for to.old) self.old piece.now
            (E.stands_for to.new) self.new result }
        ensures again { IfSome (refusal_of self.old) (λ refusal. (result ≡ Err refusal) × (self.new ≡ self.old) × (to.new ≡ to.old)) }
        ensures longer { StaysRefused JsonStands (refusal_of self.old) self.old piece.now }
        ensures takes { TakesStill (E.takes to.old) (E.takes to.new) result }
        ensures alike { E.alike to.old to.new }
    {
        match self.refused {
            Some(refusal) => Err(refusal),
            None => self.go_on(piece, to),
        }
    }

    // Hands on a number with which the bytes end, where nothing was refused.
    fn hand_last<E: EventSink>(&mut self, to: &mut E) -> Result<(), SyntaxRefusal>
        requires fresh { refusal_of self.old ≡ None }
        requires stands { (bytes : List ℕ) × JsonStands self.old bytes × Follows json_timing (E.stands_for to.old) bytes }
        requires takes { TakesEvery (E.takes to.old) }
        ensures flushes { JsonFlushes (E.stands_for to.old) self.old (E.stands_for to.new) self.new result }
        ensures takes { TakesStill (E.takes to.old) (E.takes to.new) result }
        ensures alike { E.alike to.old to.new }
    {
        self.flushed = true;
        if !self.reader.is_over() {
            return Ok(());
        }
        match self.reader.finish(to) {
            Ok(()) => Ok(()),
            Err(_) => {
                self.refused = Some(SyntaxRefusal::NoMemory);
                Err(SyntaxRefusal::NoMemory)
            }
        }
    }

    /// Hands on the number with which the text ends, if it ends with one. It is called once, after the last piece and before
    /// `end`. Where the reader has refused before, nothing changes.
    ///
    /// # Errors
    ///
    /// The refusal that was given before, and `NoMemory`.
    pub fn flush<E: EventSink>(&mut self, to: &mut E) -> Result<(), SyntaxRefusal>
        requires stands { MayFeed json_source self.old (E.stands_for to.old) }
        requires takes { TakesEvery (E.takes to.old) }
        ensures flushes { refusal_of self.old ≡ None → JsonFlushes (E.stands_for to.old) self.old (E.stands_for to.new) self.new result }
        ensures again { IfSome (refusal_of self.old) (λ refusal. (result ≡ Err refusal) × (self.new ≡ self.old) × (to.new ≡ to.old)) }
        ensures takes { TakesStill (E.takes to.old) (E.takes to.new) result }
        ensures alike { E.alike to.old to.new }
    {
        match self.refused {
            Some(refusal) => Err(refusal),
            None => self.hand_last(to),
        }
    }

    // Whether the bytes are a text of `null`.
    fn is_null_text(&self) -> bool
        requires { refusal_of self.now ≡ None }
        ensures { (bytes : List ℕ) → JsonHasCome self.now bytes → IsTrue result ↔ Completes json_timing bytes (null_event ∷ []) }
    {
        match self.first {
            Some(byte) => {
                if byte == b'n' {
                    self.reader.is_over()
                } else {
                    false
                }
            }
            None => false,
        }
    }

    /// Whether nothing was refused and the bytes so far complete the one event `Null`, and no other. No memory.
    pub fn is_null(&self) -> bool
        ensures { (bytes : List ℕ) → JsonHasCome self.now bytes
            → IsTrue result ↔ (refusal_of self.now ≡ None) × Completes json_timing bytes (null_event ∷ []) }
    {
        match self.refused {
            Some(_) => false,
            None => self.is_null_text(),
        }
    }

    /// The bytes end here.
    ///
    /// # Errors
    ///
    /// `Ended`, where they are no whole text; the refusal that was given before.
    pub fn end(&mut self) -> Result<(), SyntaxRefusal>
        ensures ends { (bytes : List ℕ) → JsonHasCome self.old bytes → JsonEndsWith self.old bytes result }
        ensures stands { (bytes : List ℕ) → JsonHasCome self.old bytes → JsonHasCome self.new bytes }
        ensures again { IfSome (refusal_of self.old) (λ refusal. result ≡ Err refusal) }
        ensures refused { IfErr result (λ refusal. refusal_of self.new ≡ Some refusal) }
    {
        match self.refused {
            Some(refusal) => Err(refusal),
            None => {
                if self.reader.is_over() {
                    Ok(())
                } else {
                    self.refused = Some(SyntaxRefusal::Ended);
                    Err(SyntaxRefusal::Ended)
                }
            }
        }
    }
}
