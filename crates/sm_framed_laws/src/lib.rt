// That what a gateway writes is framed again as itself (RFC 9112): what crosses is one message to whoever reads it, whatever values it
// spells and whatever follows it, and so is each answer to what is refused. So a session of values that both sides carry is closed, and
// each is replied to. These calls do nothing: their contracts are the laws.
#![tactic(auto)]

ghost use Rattle.sm_gateway.specs.GatewayData.{GatewayData, back_form, front_form};
ghost use Rattle.sm_framed_laws.specs.Exchanges.{WrittenMessagesCross};
ghost use Rattle.sm_framed_laws.specs.Framing.{AnswersAreFramed, CrossedIsFramed, WrittenIsFramed};

/// What a protocol writes for a value that it carries is framed as itself, within the limits of what is read: 16,384 bytes of a head, 64
/// fields, and 8 MiB of a body.
pub fn written_is_framed()
    ensures front { (g : GatewayData) → WrittenIsFramed (front_form g) }
    ensures back { (g : GatewayData) → WrittenIsFramed (back_form g) }
{
    sm_http::laws::written_is_read();
    sm_part_texts::laws::carried_texts_pass();
}

/// So is each message that crosses a gateway.
pub fn crossed_is_framed()
    ensures requests { (g : GatewayData) → CrossedIsFramed (front_form g) (back_form g) }
    ensures responses { (g : GatewayData) → CrossedIsFramed (back_form g) (front_form g) }
{
    sm_gateway::laws::each_is_form();
    written_is_framed();
}

/// And the answers to requests and responses that are refused, also where they say that the connection ends.
pub fn answers_are_framed()
    ensures { AnswersAreFramed }
{
    sm_http::laws::written_is_read();
    sm_http::laws::says_it_closes();
}

/// Values that both sides carry cross together: where a front sends requests as its protocol writes them, and a back its replies, fewer
/// than 1,000,000 and within the limits of what is read, the session is closed, each request was put to the back as its protocol writes the
/// value, and each reply to the front as the front's protocol writes it.
pub fn written_messages_cross()
    ensures { (g : GatewayData) → WrittenMessagesCross g }
{
    sm_gateway::laws::each_is_form();
    sm_gateway::laws::crosses_or_refused();
    sm_part_texts::laws::carried_texts_pass();
    written_is_framed();
}
