// That restJson1 is a form of messages (Smithy 2.0, "AWS restJson1 protocol", "HTTP binding traits"): what is written for a value is a message
// that spells it. These calls do nothing: their contracts are the laws.
#![tactic(auto)]

ghost use Rattle.sm_bind_laws.specs.messages.IsForm.{IsForm};
ghost use Rattle.sm_bind_laws.specs.messages.Laws.{WrittenIsMessage};
ghost use Rattle.sm_rest.specs.RestForm.{rest_form};

pub use sm_rest;

/// What is written for a value that is carried is a message that spells it.
pub fn written_is_message()
    ensures { WrittenIsMessage rest_form }
{
    sm_bind_laws::written_parts_read();
    sm_part_texts::laws::carried_texts_pass();
}

/// restJson1 is a form of messages, so each law over forms holds of it.
pub fn is_form()
    ensures { IsForm rest_form }
{
    sm_bind_laws::written_parts_read();
    sm_part_texts::laws::carried_texts_pass();
}
