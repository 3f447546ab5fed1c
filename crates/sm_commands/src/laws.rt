// What holds of all commands and of all runs of the program. These calls do nothing.
ghost use Rattle.sm_commands.specs.Commands.{OneCommandForm};
ghost use Rattle.sm_commands.specs.Says.{OneAnswer, SomeAnswer, InputReached};
ghost use Rattle.sm_commands.specs.RunLaws.{OneRunAnswer, QuietRunAnswers, KeepsInput, KeepsRefusals};

/// Words have the form of one command at most.
pub fn one_form()
    ensures { OneCommandForm }
{}

/// The files, the input and the store of patterns determine what a command comes to. So they and the words determine the status, what is put
/// and what is written, but for faults of the outside and where memory runs out: each status comes exactly where `run` says why.
pub fn one_answer()
    ensures said { OneAnswer }
    ensures runs { OneRunAnswer }
{
    sm_model_commands::laws::one_answer();
    sm_body_command::laws::one_answer();
    sm_schema_command::laws::one_answer();
    sm_cross_command::laws::one_answer();
    sm_transform_command::laws::one_answer();
}

/// Where its files are there a command comes to an answer, whatever they and the input hold: what `run` says leaves no case to `NoMemory`.
pub fn some_answer()
    ensures { SomeAnswer }
{
    sm_model_commands::laws::some_answer();
    sm_body_command::laws::some_answer();
    sm_schema_command::laws::some_answer();
    sm_cross_command::laws::some_answer();
    sm_transform_command::laws::some_answer();
}

/// Where the words have a form and no count of faults rose, the answer is put, or memory ran out.
pub fn quiet_answers()
    ensures { QuietRunAnswers }
{}

/// The input is read only where nothing that stands before it is refused, and only by a command that touches it; a run
/// of any other leaves it as it was.
pub fn untouched_input()
    ensures said { InputReached }
    ensures runs { KeepsInput }
{}

/// A run that ends with status 0, 1, 2, 3 or 7 leaves the store's count of refusals.
pub fn kept_refusals()
    ensures { KeepsRefusals }
{}
