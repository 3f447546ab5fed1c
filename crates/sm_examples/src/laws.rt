// What holds of examples, over the definitions alone. The call does nothing.
ghost use Rattle.sm_examples.specs.ExampleLaws.{EntriesFit};

/// What an entry says is an example of the operation: its values are values of the operation's structures.
pub fn entries_fit()
    ensures { EntriesFit }
{}
