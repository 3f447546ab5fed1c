// What holds of what the command comes to. These calls do nothing.
ghost use Rattle.std.specs.Prelude.{List, ℕ, Bool};
ghost use Rattle.sm_asked_shape.specs.asked.AskedLaws.{ComesToOne, ComesToSome};
ghost use Rattle.sm_schema_command.specs.Schema.{schema_asked};

/// A model file and a store of patterns come to one thing.
pub fn one_answer()
    ensures { (model shape : List ℕ) (json_names described : Bool) → ComesToOne (schema_asked model shape json_names described) }
{
    sm_schema::laws::one_schema();
    sm_schema::laws::one_noted_schema();
}

/// Where the model file is there, they come to some.
pub fn some_answer()
    ensures { (model shape : List ℕ) (json_names described : Bool) → ComesToSome (schema_asked model shape json_names described) }
{
    sm_schema::laws::some_schema();
    sm_schema::laws::some_noted_schema();
    sm_compile::laws::some_table();
    sm_asked_shape::sm_load::laws::some_load();
    sm_asked_shape::sm_load::laws::sound_models();
}
