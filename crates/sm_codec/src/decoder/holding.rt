// How much a decoder holds. Whatever events it stands for, that is bounded.
ghost use Rattle.std.specs.Prelude.{◌≡◌, ◌-◌, ◌^◌, min, length};
ghost use Rattle.sm_bytes.specs.Lengths.{length_word};
ghost use Rattle.sm_codec.specs.Bound.{decoding_nodes, StaysBounded};
ghost use Rattle.sm_codec.specs.DecodingView.{decoding_of};

use super::Decoder;
use crate::counting::value_nodes;
use crate::frames::Outcome;
use crate::laws;

impl Decoder {
    /// How many nodes the values have that its frames and its result hold, or the greatest `u64` where that is more. There are at most one
    /// for each tree that has begun at a place that isn't passed over, and the defaults of one structure with each. No memory.
    pub fn nodes(&self) -> u64
        ensures exact { result ≡ length_word (decoding_nodes (decoding_of self.now)) }
        ensures bounded { StaysBounded (decoding_of self.now) }
    {
        laws::kept_is_bounded();
        let result = match &self.result {
            Some(Outcome::Good(value)) => value_nodes(value),
            Some(Outcome::Bad(_)) => 0,
            None => 0,
        };
        self.frames.nodes().saturating_add(result)
    }

    /// How many frames it has, or the greatest `u32` where these are more: as many as lists and objects are open that aren't passed
    /// over, and one more at most. No memory.
    pub fn depth(&self) -> u32
        ensures exact { result ≡ min (length (decoding_of self.now).frames) (2 ^ 32 - 1) }
        ensures bounded { StaysBounded (decoding_of self.now) }
    {
        laws::kept_is_bounded();
        match u32::try_from(self.frames.frames.len()) {
            Ok(depth) => depth,
            Err(_) => u32::MAX,
        }
    }
}
