// What holds of bodies, over the definitions alone. These calls do nothing.
ghost use Rattle.sm_bodies.specs.EncodedTexts.{EncodesJson, EncodesCbor};
ghost use Rattle.sm_bodies.specs.TextLaws.{OneTextAnswer, SomeTextAnswer};

/// A body has one answer at most, between every two sides, by every table in order and every test that its defaults pass.
pub fn one_text_answer()
    ensures { OneTextAnswer }
{
    sm_cbor::laws::one_answer();
}

/// No body is without an answer.
pub fn some_text_answer()
    ensures { SomeTextAnswer }
{
    sm_cbor::laws::some_answer();
}

/// What a writer makes of the events that are handed to it for a value is what is written for the value's tree: `encode_events` with a
/// writer gives the bytes that `encode` and `write_tree` give.
pub fn encoded_texts()
    ensures json { EncodesJson }
    ensures cbor { EncodesCbor }
{}
