// What HTTP bindings write for a value is found in the parts of the message and read again as that value (Smithy 2.0, "HTTP binding
// traits"). These calls do nothing: their contracts are the laws.
#![tactic(auto)]

ghost use Rattle.sm_bind_laws.specs.Laws.{WrittenPartsRead, WrittenTargetRead};

/// The parts that are written for a value which fits and is carried come to the value where they are found in a head, and so does the body.
pub fn written_parts_read()
    ensures { WrittenPartsRead }
{
    sm_part_texts::laws::carried_texts_pass();
    sm_part_laws::label_read();
    sm_part_laws::query_read();
    sm_part_laws::query_map_read();
    sm_part_laws::header_read();
    sm_part_laws::prefixed_read();
    sm_part_laws::raw_blob_read();
    sm_part_laws::raw_text_read();
    sm_part_laws::status_read();
}

/// The target that is written for a pattern has the pattern's labels with their texts, and its literals leave the pairs.
pub fn written_target_read()
    ensures { WrittenTargetRead }
{}
