// What holds of what the command comes to. These calls do nothing.
ghost use Rattle.std.specs.Prelude.{List, ℕ};
ghost use Rattle.sm_bodies.specs.declared.form.BodyForm.{BodyForm};
ghost use Rattle.sm_asked_shape.specs.asked.AskedLaws.{ComesToOne, ComesToSome, ReachesInput};
ghost use Rattle.sm_body_command.specs.Body.{body_asked};

/// A model file, an input and a store of patterns come to one thing.
pub fn one_answer()
    ensures { (model shape : List ℕ) (near far : BodyForm) → ComesToOne (body_asked model shape near far) }
{
    sm_bodies::laws::one_text_answer();
}

/// Where the model file is there, they come to some.
pub fn some_answer()
    ensures { (model shape : List ℕ) (near far : BodyForm) → ComesToSome (body_asked model shape near far) }
{
    sm_bodies::laws::some_text_answer();
    sm_compile::laws::some_table();
    sm_asked_shape::sm_load::laws::some_load();
    sm_asked_shape::sm_load::laws::sound_models();
}

/// The input is read only where nothing that stands before it is refused.
pub fn reached_input()
    ensures { (model shape : List ℕ) (near far : BodyForm) → ReachesInput (body_asked model shape near far) }
{}
