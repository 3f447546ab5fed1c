// What holds of the words of `serve`. These calls do nothing. That model files and a store come to one gateway, or to one answer before it, are
// laws of sm_asked_gateway; that bytes come to one session, of sm_gateway.
ghost use Rattle.sm_serve.specs.Laws.{OneServeForm};

/// Words have the form of `serve` in one way.
pub fn one_form()
    ensures { OneServeForm }
{}
