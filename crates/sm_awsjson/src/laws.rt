// What holds of the messages of AWS JSON, over the definitions alone. These calls do nothing.
ghost use Rattle.sm_messages.specs.Laws.{OneAnswer, OneReply, SomeAnswer, WrittenIsMessage};
ghost use Rattle.sm_awsjson.specs.Messages.{aws_form};
ghost use Rattle.sm_awsjson.specs.declared.version.AwsVersion.{AwsVersion};

/// A message spells one value at most for an operation, on one side.
pub fn one_reply()
    ensures { (version : AwsVersion) → OneReply (aws_form version) }
{}

/// What is written for a value that is carried is a message that spells it.
pub fn written_is_message()
    ensures { (version : AwsVersion) → WrittenIsMessage (aws_form version) }
{}

/// A message has one answer at most.
pub fn one_answer()
    ensures { (version : AwsVersion) → OneAnswer (aws_form version) }
{}

/// And it is never without one.
pub fn some_answer()
    ensures { (version : AwsVersion) → SomeAnswer (aws_form version) }
{}
