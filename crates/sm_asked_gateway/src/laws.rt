// What holds of gateways that are asked for. These calls do nothing.
ghost use Rattle.sm_asked_gateway.specs.Laws.{OneGateway, SomeGateway};

/// Model files and a store of patterns come to one gateway, or to one answer before it.
pub fn one_gateway()
    ensures { OneGateway }
{
    sm_asked_service::sm_service::laws::one_service();
    sm_asked_service::sm_load::laws::sound_models();
}

/// Where the model files are there, they come to some.
pub fn some_gateway()
    ensures { SomeGateway }
{
    sm_asked_service::sm_service::laws::some_service();
    sm_asked_service::sm_load::laws::some_load();
    sm_asked_service::sm_load::laws::sound_models();
}
