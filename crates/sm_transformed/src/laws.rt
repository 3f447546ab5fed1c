// Laws over the definitions: public functions with empty bodies, whose contracts are the laws.
ghost use Rattle.sm_transformed.specs.Laws.{AcceptedMayChange};

/// The graph of a model that is accepted may be changed: it has the form of one, and its traits stand under ids.
pub fn accepted_may_change()
    ensures { AcceptedMayChange }
{}
