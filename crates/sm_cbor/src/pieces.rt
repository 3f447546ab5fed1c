// A reader of one CBOR item (RFC 8949) that takes it in pieces, and hands its events to any sink as soon as their bytes are
// complete.
ghost use Rattle.std.specs.Prelude.{◌≡◌, ◌≤◌, IfSome, IfErr, ℕ, List, [], length, None, Some, Err};
ghost use Rattle.sm_tree.specs.Streams.{TakesEvery};
ghost use Rattle.sm_tree.specs.Timing.{Follows};
ghost use Rattle.sm_tree.specs.Syntax.{Reads};
ghost use Rattle.sm_tree.specs.ReaderClauses.{TakesStill, StaysRefused};
ghost use Rattle.sm_tree.specs.Sources.{MayFeed};
ghost use Rattle.sm_cbor.specs.Timing.{cbor_timing};
ghost use Rattle.sm_cbor.specs.Refusals.{cbor_syntax};
ghost use Rattle.sm_cbor.specs.Stands.{cbor_source, refusal_of, CborStands, CborFeeds, CborEndsWith};

use crate::read::Reader;
use sm_tree::{EventSink, SyntaxRefusal, Tree, TreeBuilder};
use std::alloc::Global;

/// Reads one CBOR item, whose keys are texts, in pieces. Once it has refused it gives that refusal again, and hands nothing on.
#[derive(Drop)]
pub struct CborReader {
    reader: Reader,
    /// How many bytes have come.
    taken: usize,
    /// What was refused.
    refused: Option<SyntaxRefusal>,
}

impl CborReader {
    /// A reader to which no byte has come. No memory.
    pub fn new(alloc: Global) -> Self
        ensures stands { CborStands result [] }
        ensures fresh { refusal_of result ≡ None }
    {
        CborReader {
            reader: Reader::new(alloc),
            taken: 0,
            refused: None,
        }
    }

    // A piece, where nothing was refused.
    fn go_on<E: EventSink>(&mut self, piece: &[u8], to: &mut E) -> Result<(), SyntaxRefusal>
        requires fresh { refusal_of self.old ≡ None }
        requires stands { (bytes : List ℕ) × CborStands self.old bytes × Follows cbor_timing (E.stands_for to.old) bytes }
        requires takes { TakesEvery (E.takes to.old) }
        ensures feeds { CborFeeds (E.stands_for to.old) self.old piece.now (E.stands_for to.new) self.new result }
        ensures takes { TakesStill (E.takes to.old) (E.takes to.new) result }
        ensures alike { E.alike to.old to.new }
    {
        if piece.len() > usize::MAX - self.taken {
            self.refused = Some(SyntaxRefusal::NoMemory);
            return Err(SyntaxRefusal::NoMemory);
        }
        match self.reader.feed(piece, to) {
            Ok(()) => {
                self.taken += piece.len();
                Ok(())
            }
            Err(refusal) => {
                let moved = refusal.moved_by(self.taken);
                self.refused = Some(moved);
                Err(moved)
            }
        }
    }

    /// Takes the next piece, and hands on the events that its bytes complete. Where it has refused before, nothing changes.
    ///
    /// # Errors
    ///
    /// Places count from the first byte of all pieces. `Bad(at)`, `TooDeep(at)` and `KeyKind(at)`, exactly as the bytes so far come
    /// to them: the sink then has the events that the bytes before the place complete. The refusal that was given before.
    /// `NoMemory`: the allocator refused the memory that a string or a number needs, or the sink that of an event, or the bytes are
    /// more than can be counted.
    pub fn feed<E: EventSink>(&mut self, piece: &[u8], to: &mut E) -> Result<(), SyntaxRefusal>
        requires stands { MayFeed cbor_source self.old (E.stands_for to.old) }
        requires takes { TakesEvery (E.takes to.old) }
        ensures feeds { refusal_of self.old ≡ None → CborFeeds (E.stands_for to.old) self.old piece.now
            (E.stands_for to.new) self.new result }
        ensures again { IfSome (refusal_of self.old) (λ refusal. (result ≡ Err refusal) × (self.new ≡ self.old) × (to.new ≡ to.old)) }
        ensures longer { StaysRefused CborStands (refusal_of self.old) self.old piece.now }
        ensures takes { TakesStill (E.takes to.old) (E.takes to.new) result }
        ensures alike { E.alike to.old to.new }
    {
        match self.refused {
            Some(refusal) => Err(refusal),
            None => self.go_on(piece, to),
        }
    }

    /// The bytes end here.
    ///
    /// # Errors
    ///
    /// `Ended`, where they are no whole item; the refusal that was given before.
    pub fn end(&mut self) -> Result<(), SyntaxRefusal>
        ensures ends { (bytes : List ℕ) → CborStands self.old bytes → CborEndsWith self.old bytes result }
        ensures stands { (bytes : List ℕ) → CborStands self.old bytes → CborStands self.new bytes }
        ensures again { IfSome (refusal_of self.old) (λ refusal. result ≡ Err refusal) }
        ensures refused { IfErr result (λ refusal. refusal_of self.new ≡ Some refusal) }
    {
        match self.refused {
            Some(refusal) => Err(refusal),
            None => {
                if self.reader.is_whole() {
                    Ok(())
                } else {
                    self.refused = Some(SyntaxRefusal::Ended);
                    Err(SyntaxRefusal::Ended)
                }
            }
        }
    }
}

/// The answer of `read_tree`, by the machine alone. The bytes come to it in two pieces: so many of them, and then the others.
pub fn read_in_pieces(alloc: Global, bytes: &[u8], first: usize) -> Result<Tree, SyntaxRefusal>
    requires { first ≤ length bytes.now }
    ensures { Reads cbor_syntax bytes.now result }
{
    let mut reader = CborReader::new(alloc);
    let mut builder = TreeBuilder::new(alloc);
    match reader.feed(&bytes[..first], &mut builder) {
        Ok(()) => {}
        Err(refusal) => return Err(refusal),
    }
    match reader.feed(&bytes[first..], &mut builder) {
        Ok(()) => {}
        Err(refusal) => return Err(refusal),
    }
    match reader.end() {
        Ok(()) => Ok(builder.finish()),
        Err(refusal) => Err(refusal),
    }
}

/// The answer of `read_tree`, by the machine alone. The bytes come to it in one piece.
pub fn read_by_bytes(alloc: Global, bytes: &[u8]) -> Result<Tree, SyntaxRefusal>
    ensures { Reads cbor_syntax bytes.now result }
{
    read_in_pieces(alloc, bytes, bytes.len())
}
