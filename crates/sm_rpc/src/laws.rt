// What holds of the messages of Smithy RPC v2 CBOR, over the definitions alone. These calls do nothing.
ghost use Rattle.sm_messages.specs.IsForm.{ReadsMessages};
ghost use Rattle.sm_messages.specs.Laws.{OneAnswer, OneReply, SomeAnswer, WrittenIsMessage};
ghost use Rattle.sm_rpc.specs.Messages.{rpc_form};

/// A message spells one value at most for an operation, on one side.
pub fn one_reply()
    ensures { OneReply rpc_form }
{
    sm_cbor::laws::one_reading();
    sm_cbor::laws::one_answer();
    sm_cbor::laws::some_answer();
}

/// What is written for a value that is carried is a message that spells it.
pub fn written_is_message()
    ensures { WrittenIsMessage rpc_form }
{
    sm_cbor::laws::written_is_item();
}

/// A message has one answer at most.
pub fn one_answer()
    ensures { OneAnswer rpc_form }
{
    sm_cbor::laws::one_reading();
    sm_cbor::laws::one_answer();
    sm_cbor::laws::some_answer();
}

/// And it is never without one.
pub fn some_answer()
    ensures { SomeAnswer rpc_form }
{
    sm_cbor::laws::one_reading();
    sm_cbor::laws::one_answer();
    sm_cbor::laws::some_answer();
}

/// How its messages are read: what the laws above stand on.
pub fn reads_messages()
    ensures { ReadsMessages rpc_form }
{
    sm_cbor::laws::one_reading();
    sm_cbor::laws::one_answer();
    sm_cbor::laws::some_answer();
}
