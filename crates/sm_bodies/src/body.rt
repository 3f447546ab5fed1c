// A body whose bytes come in pieces: they go through a reader of their format into a decoder, and no tree is made.
ghost use Rattle.std.specs.Prelude.{◌≡◌, ◌<◌, ◌≤◌, ◌+◌, ◌*◌, ◌++◌, ◌-◌, ◌^◌, [], ℕ, List, Some, Err, OnOk, IfOk, min, length};
ghost use Rattle.sm_bytes.specs.Lengths.{length_word};
ghost use Rattle.sm_tree.specs.Limits.{most_levels};
ghost use Rattle.sm_shapes.specs.InOrder.{Shaped, AreStored, DefaultsPass, most_defaults};
ghost use Rattle.sm_shapes.specs.TableData.{shape_count};
ghost use Rattle.sm_shapes.specs.TableView.{table_data};
ghost use Rattle.sm_codec.specs.Bound.{decoding_nodes, StaysBounded};
ghost use Rattle.sm_codec.specs.Codec.{Codec, codec_of};
ghost use Rattle.sm_codec.specs.CodecLaws.{IsCodec};
ghost use Rattle.sm_codec.specs.DecodingView.{decoding_of};
ghost use Rattle.sm_bodies.specs.Bodies.{DecodesAs};
ghost use Rattle.sm_bodies.specs.Fed.{BodyFed, SomeFed};
ghost use Rattle.sm_bodies.specs.steps.Reading.{FeedsDecoder, EndsDecoder};

use crate::reading::{BodyRefusal, answered};
use sm_cbor::CborReader;
use sm_codec::{Decoder, Feed, Leaves};
use sm_json::JsonReader;
use sm_shapes::Patterns;
use sm_shapes::tables::Table;
use sm_shapes::values::Value;
use sm_tree::{EventSource, NoMemory, SyntaxRefusal};
use std::alloc::Global;

/// A body that is read by pieces. Where its bytes are refused it goes on taking pieces, and `finish` tells the refusal. After `NoMemory` it
/// is of no use.
#[derive(Drop)]
pub struct Body<S: EventSource + Drop> {
    /// What reads its bytes.
    pub reader: S,
    /// What takes the events of its tree.
    pub decoder: Decoder,
}

/// One of JSON (RFC 8259).
pub type JsonBody = Body<JsonReader>;

/// One of CBOR (RFC 8949).
pub type CborBody = Body<CborReader>;

// Gives a piece to a reader that hands its events to a decoder.
fn feed_piece<S: EventSource, L: Leaves, P: Patterns>(
    alloc: Global,
    table: &Table,
    leaves: &L,
    patterns: &mut P,
    piece: &[u8],
    reader: &mut S,
    decoder: &mut Decoder,
) -> Result<(), SyntaxRefusal>
    requires shaped { Shaped (table_data table.now) }
    requires stored { AreStored (table_data table.now).patterns (P.added patterns.old) }
    requires fed { SomeFed S.source (codec_of (table_data table.now) (L.convention leaves.now) P.test) reader.old decoder.old }
    ensures fed { FeedsDecoder S.source (codec_of (table_data table.now) (L.convention leaves.now) P.test) reader.old decoder.old
        piece.now reader.new decoder.new result }
    ensures memory { (S.source).refusal reader.new ≡ Some SyntaxRefusal.NoMemory → result ≡ Err SyntaxRefusal.NoMemory }
    ensures added { P.added patterns.new ≡ P.added patterns.old }
    ensures refused { P.refused patterns.new ≡ P.refused patterns.old }
    ensures refusals { P.refusals patterns.new ≡ P.refusals patterns.old }
{
    let mut to = Feed {
        alloc,
        table,
        leaves,
        patterns,
        decoder,
    };
    reader.feed(piece, &mut to)
}

// Tells a reader that hands its events to a decoder the end of the bytes.
fn feed_end<S: EventSource, L: Leaves, P: Patterns>(
    alloc: Global,
    table: &Table,
    leaves: &L,
    patterns: &mut P,
    reader: &mut S,
    decoder: &mut Decoder,
) -> Result<(), SyntaxRefusal>
    requires shaped { Shaped (table_data table.now) }
    requires stored { AreStored (table_data table.now).patterns (P.added patterns.old) }
    requires fed { SomeFed S.source (codec_of (table_data table.now) (L.convention leaves.now) P.test) reader.old decoder.old }
    ensures ends { EndsDecoder S.source (codec_of (table_data table.now) (L.convention leaves.now) P.test) (P.added patterns.old)
        reader.old decoder.old decoder.new result }
    ensures added { P.added patterns.new ≡ P.added patterns.old }
    ensures refused { P.refused patterns.new ≡ P.refused patterns.old }
    ensures refusals { P.refusals patterns.new ≡ P.refusals patterns.old }
{
    let mut to = Feed {
        alloc,
        table,
        leaves,
        patterns,
        decoder,
    };
    reader.finish(&mut to)
}

// A refusal waits for the end, unless it is memory.
fn waits(fed: Result<(), SyntaxRefusal>) -> Result<(), NoMemory>
    ensures { OnOk result (fed ≡ Err SyntaxRefusal.NoMemory → ⊥) }
{
    match fed {
        Ok(()) => Ok(()),
        Err(SyntaxRefusal::NoMemory) => Err(NoMemory),
        Err(SyntaxRefusal::Bad(_)) => Ok(()),
        Err(SyntaxRefusal::Ended) => Ok(()),
        Err(SyntaxRefusal::TooDeep(_)) => Ok(()),
        Err(SyntaxRefusal::KeyKind(_)) => Ok(()),
    }
}

impl<S: EventSource + Drop> Body<S> {
    /// A body for the shape with this number, to which no byte has come. No memory yet.
    pub fn begin(alloc: Global, table: &Table, shape: u32) -> Result<Self, NoMemory>
        requires number { shape < shape_count (table_data table.now) }
        ensures fed { IfOk result (λ body. (c : Codec) → c.table ≡ table_data table.now
            → BodyFed S.source c shape body.reader body.decoder []) }
        ensures memory { IfOk result (λ body. (S.source).refusal body.reader ≡ Some SyntaxRefusal.NoMemory → ⊥) }
    {
        S::laws();
        match Decoder::start(alloc, table, shape) {
            Ok(decoder) => Ok(Body {
                reader: S::begin(alloc),
                decoder,
            }),
            Err(refusal) => Err(refusal),
        }
    }

    /// Takes the next piece, and decodes what the bytes so far complete. The table must be that of `begin`, the leaves those of the other
    /// pieces, and the store must have the table's patterns; it isn't changed. Only memory stops it: where the bytes are no text, `finish`
    /// tells that.
    pub fn piece<L: Leaves, P: Patterns>(
        &mut self,
        alloc: Global,
        table: &Table,
        leaves: &L,
        patterns: &mut P,
        piece: &[u8],
    ) -> Result<(), NoMemory>
        requires shaped { Shaped (table_data table.now) }
        requires stored { AreStored (table_data table.now).patterns (P.added patterns.old) }
        requires fed { SomeFed S.source (codec_of (table_data table.now) (L.convention leaves.now) P.test) self.old.reader
            self.old.decoder }
        ensures fed { OnOk result ((shape : ℕ) (bytes : List ℕ)
            → BodyFed S.source (codec_of (table_data table.now) (L.convention leaves.now) P.test) shape self.old.reader self.old.decoder
            bytes
            → BodyFed S.source (codec_of (table_data table.now) (L.convention leaves.now) P.test) shape self.new.reader self.new.decoder
            (bytes ++ piece.now)) }
        ensures memory { OnOk result ((S.source).refusal self.new.reader ≡ Some SyntaxRefusal.NoMemory → ⊥) }
        ensures added { P.added patterns.new ≡ P.added patterns.old }
        ensures refused { P.refused patterns.new ≡ P.refused patterns.old }
        ensures refusals { P.refusals patterns.new ≡ P.refusals patterns.old }
    {
        let fed = feed_piece(
            alloc,
            table,
            leaves,
            patterns,
            piece,
            &mut self.reader,
            &mut self.decoder,
        );
        waits(fed)
    }

    /// The value of the body, all of whose bytes have come.
    ///
    /// # Errors
    ///
    /// `Syntax`, where the bytes are no text or item; else `Fault`, the first of its tree; `NoMemory`.
    pub fn finish<L: Leaves, P: Patterns>(
        self,
        alloc: Global,
        table: &Table,
        leaves: &L,
        patterns: &mut P,
    ) -> Result<Value, BodyRefusal>
        requires shaped { Shaped (table_data table.now) }
        requires stored { AreStored (table_data table.now).patterns (P.added patterns.old) }
        requires pass { DefaultsPass (table_data table.now) P.test }
        requires fed { SomeFed S.source (codec_of (table_data table.now) (L.convention leaves.now) P.test) self.reader self.decoder }
        ensures value { (shape : ℕ) (bytes : List ℕ)
            → BodyFed S.source (codec_of (table_data table.now) (L.convention leaves.now) P.test) shape self.reader self.decoder bytes
            → DecodesAs (S.source).syntax (codec_of (table_data table.now) (L.convention leaves.now) P.test) shape bytes result }
        ensures added { P.added patterns.new ≡ P.added patterns.old }
        ensures refused { P.refused patterns.new ≡ P.refused patterns.old }
        ensures refusals { P.refusals patterns.new ≡ P.refusals patterns.old }
    {
        leaves.laws();
        let Body {
            mut reader,
            mut decoder,
        } = self;
        let read = feed_end(alloc, table, leaves, patterns, &mut reader, &mut decoder);
        answered(decoder, read)
    }

    /// How many nodes the values have that its decoder holds, or the greatest `u64` where that is more: at most two for each byte that has
    /// come, and the defaults of one structure with each. No memory.
    pub fn nodes(&self) -> u64
        ensures exact { result ≡ length_word (decoding_nodes (decoding_of self.now.decoder)) }
        ensures bounded { StaysBounded (decoding_of self.now.decoder) }
        ensures few { (c : Codec) (shape : ℕ) (bytes : List ℕ) → IsCodec c
            → ((S.source).refusal self.now.reader ≡ Some SyntaxRefusal.NoMemory → ⊥)
            → BodyFed S.source c shape self.now.reader self.now.decoder bytes
            → decoding_nodes (decoding_of self.now.decoder) ≤ (1 + most_defaults c.table) * (2 * length bytes) }
    {
        S::laws();
        self.decoder.nodes()
    }

    /// How many frames its decoder has, or the greatest `u32` where these are more: at most one for each of 100 levels, and one more. No
    /// memory.
    pub fn depth(&self) -> u32
        ensures exact { result ≡ min (length (decoding_of self.now.decoder).frames) (2 ^ 32 - 1) }
        ensures bounded { StaysBounded (decoding_of self.now.decoder) }
        ensures few { (c : Codec) (shape : ℕ) (bytes : List ℕ) → IsCodec c
            → ((S.source).refusal self.now.reader ≡ Some SyntaxRefusal.NoMemory → ⊥)
            → BodyFed S.source c shape self.now.reader self.now.decoder bytes
            → length (decoding_of self.now.decoder).frames ≤ most_levels + 1 }
    {
        S::laws();
        sm_tree::laws::opens_no_more();
        self.decoder.depth()
    }
}
