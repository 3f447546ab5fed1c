// Laws over the definitions: public functions with empty bodies, whose contracts are the laws.
ghost use Rattle.sm_changed_again.specs.ChangedLoads.{ChangedLoads, ChangedMayChange};

/// The graph of a model that a change makes may be changed: it has the form of one, and its traits stand under ids.
pub fn changed_may_change()
    ensures { ChangedMayChange }
{}

/// The text in the JSON AST of a model that a change makes, as the one file, loads to the model: to its graph, with its events.
pub fn changed_loads()
    ensures { ChangedLoads }
{
    sm_ast::laws::written_is_json();
    sm_ast::laws::written_says();
    sm_json::laws::written_spells();
    sm_again::sm_load::laws::formed_files();
}
