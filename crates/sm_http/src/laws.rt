// Laws of the definitions, each the contract of a function that does nothing.
ghost use Rattle.sm_http.specs.declared.message.BodyLeft.{BodyLeft};
ghost use Rattle.sm_http.specs.declared.message.Head.{Head};
ghost use Rattle.sm_http.specs.declared.message.Message.{Message};
ghost use Rattle.sm_http.specs.declared.message.MessageSide.{MessageSide};
ghost use Rattle.sm_http.specs.Laws.{HasOneHead, HasOneBody, HasOneFraming, HasSomeFraming, HasMessageByItself, WrittenIsRead};
ghost use Rattle.sm_http.specs.Laws.{SaysItCloses, KeepsOtherFields, AnswersHeadAlone};

/// Bytes begin with one head at most, or are refused by one word, and never both.
pub fn one_head()
    ensures { (side : MessageSide) → HasOneHead side }
{}

/// From any place in a body on, bytes come to one answer at most.
pub fn one_body()
    ensures { (left : BodyLeft) → HasOneBody left }
{}

/// Bytes come to one answer at most: nothing, a message with what follows it, or a refusal.
pub fn one_answer()
    ensures { (side : MessageSide) → HasOneFraming side }
{}

/// No bytes are without an answer.
pub fn some_answer()
    ensures { (side : MessageSide) → HasSomeFraming side }
{}

/// A message is one by its own bytes alone: so many of the bytes are that message, whatever follows them.
pub fn message_by_itself()
    ensures { (side : MessageSide) → HasMessageByItself side }
{}

/// A written message is read again as itself, whatever follows it.
pub fn written_is_read()
    ensures { (side : MessageSide) → WrittenIsRead side }
{}

/// A message with `connection: close` says that its connection ends, and no field of another name changes.
pub fn says_it_closes()
    ensures says { (said : Message) → SaysItCloses said }
    ensures others { (said : Message) → KeepsOtherFields said }
{}

/// What answers a request for a head is written as the answer's head alone.
pub fn answers_head_alone()
    ensures { (asked : Head) → AnswersHeadAlone asked }
{}
