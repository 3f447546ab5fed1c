// What holds of the messages of restJson1, over the definitions alone. These calls do nothing.
ghost use Rattle.sm_bind_read.specs.messages.Laws.{OneAnswer, OneReply, SomeAnswer};
ghost use Rattle.sm_rest.specs.Laws.{TargetTextsWhereJson};
ghost use Rattle.sm_rest.specs.RestForm.{rest_form};

/// A message spells one value at most for an operation, on one side.
pub fn one_reply()
    ensures { OneReply rest_form }
{}

/// A message has one answer at most.
pub fn one_answer()
    ensures { OneAnswer rest_form }
{}

/// And it is never without one.
pub fn some_answer()
    ensures { SomeAnswer rest_form }
{}

/// The literals of patterns and the keys of queries of a service that is compiled are bytes.
pub fn target_texts()
    ensures { TargetTextsWhereJson }
{}
