// Values from the events of a tree, as they come. The decoder holds a frame for each list and object that is open and isn't passed over,
// and no tree.
ghost use Rattle.std.specs.Prelude.{◌≡◌, ◌<◌, [], List, None, IfOk, OnOk};
ghost use Rattle.sm_tree.specs.Events.{NodeEvent};
ghost use Rattle.sm_tree.specs.EventView.{event_of};
ghost use Rattle.sm_tree.specs.Node.{Node};
ghost use Rattle.sm_tree.specs.Streams.{Streams, MayTake, TakesOn};
ghost use Rattle.sm_shapes.specs.InOrder.{Shaped, AreStored};
ghost use Rattle.sm_shapes.specs.TableData.{shape_count};
ghost use Rattle.sm_shapes.specs.TableView.{table_data};
ghost use Rattle.sm_codec.specs.Bound.{StaysBounded};
ghost use Rattle.sm_codec.specs.Codec.{Codec, codec_of};
ghost use Rattle.sm_codec.specs.CodecLaws.{IsCodec};
ghost use Rattle.sm_codec.specs.Kept.{Kept};
ghost use Rattle.sm_codec.specs.DecodingView.{decoding_of, decodes_so_far, StartsEmpty, Finishes, IsWhole};

mod closing;
mod holding;
mod leaf;
mod walking;

use crate::frames::{Frames, Outcome};
use crate::{Leaves, laws};
use sm_shapes::tables::Table;
use sm_shapes::values::Value;
use sm_shapes::{Fault, Patterns};
use sm_tree::{Event, NoMemory, Tree};
use std::alloc::Global;

/// Why a tree isn't decoded.
#[derive(Debug, Drop)]
pub enum Refusal {
    /// Its first fault.
    Fault(Fault),
    /// The allocator refused the memory that decoding needs.
    NoMemory,
}

/// Makes a value from the events of a tree, which come one call each and in order. After `NoMemory` a decoder is of no use.
#[derive(Drop)]
pub struct Decoder {
    shape: u32,
    frames: Frames,
    result: Option<Outcome>,
}

impl Decoder {
    /// A decoder of a value of the shape with this number, which awaits the first event. It takes no memory yet.
    pub fn start(alloc: Global, table: &Table, shape: u32) -> Result<Decoder, NoMemory>
        requires number { shape < shape_count (table_data table.now) }
        ensures empty { IfOk result (λ decoder. StartsEmpty (table_data table.now) (decoding_of decoder)) }
        ensures shape { IfOk result (λ decoder. (decoding_of decoder).shape ≡ shape) }
    {
        let _table = table;
        Ok(Decoder::new(alloc, shape))
    }

    // One that has taken nothing. No memory.
    pub(crate) fn new(alloc: Global, shape: u32) -> Decoder
        ensures { decoding_of result ≡ record { shape = shape; frames = []; result = None } }
    {
        Decoder {
            shape,
            frames: Frames::new(alloc),
            result: None,
        }
    }

    /// Takes the next event of the tree. With it, the events so far must begin a tree's. The store isn't changed.
    pub fn event<L: Leaves, P: Patterns>(
        &mut self,
        alloc: Global,
        table: &Table,
        event: Event,
        leaves: &L,
        patterns: &mut P,
    ) -> Result<(), NoMemory>
        requires shaped { Shaped (table_data table.now) }
        requires stored { AreStored (table_data table.now).patterns (P.added patterns.old) }
        requires placed { MayTake (decodes_so_far (codec_of (table_data table.now) (L.convention leaves.now) P.test) self.old)
            (event_of event) }
        ensures kept { OnOk result (TakesOn (decodes_so_far (codec_of (table_data table.now) (L.convention leaves.now) P.test) self.old)
            (event_of event) (decodes_so_far (codec_of (table_data table.now) (L.convention leaves.now) P.test) self.new)) }
        ensures bounded { StaysBounded (decoding_of self.new) }
        ensures shape { (decoding_of self.new).shape ≡ (decoding_of self.old).shape }
        ensures added { P.added patterns.new ≡ P.added patterns.old }
        ensures refused { P.refused patterns.new ≡ P.refused patterns.old }
        ensures refusals { P.refusals patterns.new ≡ P.refusals patterns.old }
    {
        leaves.laws();
        laws::kept_is_bounded();
        match event {
            Event::Null => self.leaf(alloc, table, Tree::Null, leaves, patterns),
            Event::Bool(truth) => self.leaf(alloc, table, Tree::Bool(truth), leaves, patterns),
            Event::Int(number) => self.leaf(alloc, table, Tree::Int(number), leaves, patterns),
            Event::Number(number) => self.leaf(
                alloc,
                table,
                Tree::Number(number),
                leaves,
                patterns,
            ),
            Event::Text(text) => self.leaf(alloc, table, Tree::Text(text), leaves, patterns),
            Event::Bytes(bytes) => self.leaf(alloc, table, Tree::Bytes(bytes), leaves, patterns),
            Event::Opaque(byte) => self.leaf(alloc, table, Tree::Opaque(byte), leaves, patterns),
            Event::Tag(tag) => self.frames.tag(alloc, table, self.shape, tag, leaves),
            Event::StartList(_) => self.frames.start_list(alloc, table, self.shape, leaves),
            Event::StartObject(_) => self.frames.start_object(alloc, table, self.shape, leaves),
            Event::Key(name) => self.frames.key(alloc, table, name.as_str(), leaves),
            Event::EndList => self.end(alloc, table, patterns),
            Event::EndObject => self.end(alloc, table, patterns),
        }
    }

    /// The value of the tree whose events came, or its first fault. No memory.
    pub fn finish(self) -> Result<Value, Refusal>
        requires whole { IsWhole (decoding_of self) }
        ensures { (c : Codec) (es : List NodeEvent) (n : Node) → IsCodec c → Kept c es (decoding_of self) → Streams n es []
            → Finishes c (decoding_of self).shape n result }
    {
        let Decoder { result, .. } = self;
        match result {
            Some(Outcome::Good(value)) => Ok(value),
            Some(Outcome::Bad(fault)) => Err(Refusal::Fault(fault)),
            None => unreachable!(),
        }
    }
}
