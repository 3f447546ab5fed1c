// What holds of each protocol, over the definitions alone. The call does nothing.
ghost use Rattle.sm_http.specs.declared.message.Protocol.{Protocol};
ghost use Rattle.sm_awsjson.specs.messages.IsForm.{IsForm};
ghost use Rattle.sm_protocols.specs.Forms.{form_of};

/// Each protocol is a form of messages.
pub fn each_is_form()
    ensures { (p : Protocol) → IsForm (form_of p) }
{
    sm_cbor::laws::one_reading();
    sm_cbor::laws::one_answer();
    sm_cbor::laws::some_answer();
    sm_cbor::laws::written_is_item();
    sm_rest_laws::is_form();
}
