// A call through which the count of faults stayed quiet didn't answer `Failed`, by the clauses of each call.
// These calls do nothing.
ghost use Rattle.sm_io.specs.Laws.{QuietPut, QuietRead, QuietReadAll, QuietTake, QuietWrite};

/// Of `Source::take`.
pub fn quiet_take()
    ensures { QuietTake }
{}

/// Of `Sink::put`.
pub fn quiet_put()
    ensures { QuietPut }
{}

/// Of `Files::read`.
pub fn quiet_read()
    ensures { QuietRead }
{}

/// Of `Files::write`.
pub fn quiet_write()
    ensures { QuietWrite }
{}

/// Of `read_all`.
pub fn quiet_read_all()
    ensures { QuietReadAll }
{}
