// What holds of what each command comes to. These calls do nothing.
ghost use Rattle.std.specs.Prelude.{List, ℕ};
ghost use Rattle.sm_asked.specs.AskedLaws.{ComesToOne, ComesToSome};
ghost use Rattle.sm_model_commands.specs.Check.{check_asked};
ghost use Rattle.sm_model_commands.specs.Convert.{convert_asked};
ghost use Rattle.sm_model_commands.specs.Forms.{GraphForm};
ghost use Rattle.sm_model_commands.specs.Select.{select_asked};

/// Files come to one thing of each command.
pub fn one_answer()
    ensures check { (models : List (List ℕ)) → ComesToOne (check_asked models) }
    ensures convert { (models : List (List ℕ)) (form : GraphForm) → ComesToOne (convert_asked models form) }
    ensures select { (models : List (List ℕ)) (selector : List ℕ) → ComesToOne (select_asked models selector) }
{}

/// Files that are there come to some.
pub fn some_answer()
    ensures check { (models : List (List ℕ)) → ComesToSome (check_asked models) }
    ensures convert { (models : List (List ℕ)) (form : GraphForm) → ComesToSome (convert_asked models form) }
    ensures select { (models : List (List ℕ)) (selector : List ℕ) → ComesToSome (select_asked models selector) }
{
    sm_asked::sm_load::laws::some_load();
}
