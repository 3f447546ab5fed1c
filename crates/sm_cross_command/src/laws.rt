// What holds of what the command comes to. These calls do nothing.
ghost use Rattle.sm_asked_ends.specs.asked.AskedLaws.{ComesToOne, ComesToSome};
ghost use Rattle.sm_cross_command.specs.Cross.{cross_asked};
ghost use Rattle.sm_cross_command.specs.CrossWords.{CrossAsked};

/// Files, an input and a store of patterns come to one thing.
pub fn one_answer()
    ensures { (w : CrossAsked) → ComesToOne (cross_asked w) }
{
    sm_asked_gateway::sm_service::laws::one_service();
    sm_asked_gateway::sm_service::laws::stays_servable();
    sm_asked_ends::sm_load::laws::sound_models();
    sm_asked_gateway::sm_rest::laws::target_texts();
    sm_asked_gateway::sm_gateway::laws::one_session();
}

/// Where the model files and that of the back are there, they come to some.
pub fn some_answer()
    ensures { (w : CrossAsked) → ComesToSome (cross_asked w) }
{
    sm_asked_gateway::sm_service::laws::some_service();
    sm_asked_gateway::sm_service::laws::stays_servable();
    sm_asked_ends::sm_load::laws::some_load();
    sm_asked_ends::sm_load::laws::sound_models();
    sm_asked_gateway::sm_rest::laws::target_texts();
    sm_asked_gateway::sm_gateway::laws::some_session();
}
