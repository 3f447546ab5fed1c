// What holds of what the command comes to. These calls do nothing.
ghost use Rattle.std.specs.Prelude.{List, ℕ};
ghost use Rattle.sm_model_commands.specs.asked.AskedLaws.{ComesToOne, ComesToSome};
ghost use Rattle.sm_transform_command.specs.Transform.{transform_asked};
ghost use Rattle.sm_transform_command.specs.TransformForm.{ChangeAsked};

/// Files come to one thing of the command.
pub fn one_answer()
    ensures { (models : List (List ℕ)) (asked : ChangeAsked) → ComesToOne (transform_asked models asked) }
{
    sm_transform::laws::one_changed();
}

/// Files that are there come to some.
pub fn some_answer()
    ensures { (models : List (List ℕ)) (asked : ChangeAsked) → ComesToSome (transform_asked models asked) }
{
    sm_model_commands::sm_asked::sm_load::laws::some_load();
    sm_transform::laws::some_changed();
    sm_transformed::laws::accepted_may_change();
}
