// What is held of bodies is bounded, over the definitions alone. This call does nothing.
ghost use Rattle.std.specs.Prelude.{List, ℕ};
ghost use Rattle.sm_codec.specs.Codec.{Codec};
ghost use Rattle.sm_codec.specs.CodecLaws.{IsCodec};
ghost use Rattle.sm_messages.specs.Begun.{BodyState};
ghost use Rattle.sm_bounds.specs.FewHeld.{HasReceived, HoldsFew};

use sm_tree::EventSource;

/// A body that has received some bytes, in whatever pieces, holds few of them, few nodes and few frames. Code over any reader makes the call
/// to know it.
pub fn holds_few<S: EventSource>()
    ensures { (c : Codec) (bytes : List ℕ) (b : BodyState S) → IsCodec c → HasReceived S.source c bytes b → HoldsFew c.table bytes b }
{
    S::laws();
    sm_codec::laws::kept_is_bounded();
    sm_tree::laws::opens_no_more();
}
