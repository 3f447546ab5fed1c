// Laws over the definitions: public functions with empty bodies, whose contracts are the laws.
ghost use Rattle.sm_accepted.specs.Laws.{ReadyWhereNoneFails, SoundWhereNoneFails, SoundWhereReady};

/// In a graph in which no rule fails a table can be made of each shape.
pub fn sound_where_none_fails()
    ensures { SoundWhereNoneFails }
{}

/// In a graph in which no rule fails a table can be made of each service.
pub fn ready_where_none_fails()
    ensures { ReadyWhereNoneFails }
{}

/// Of each shape to which a service leads that is ready a table can be made.
pub fn sound_where_ready()
    ensures { SoundWhereReady }
{}
