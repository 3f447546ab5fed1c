// Laws over the definitions: public functions with empty bodies, whose contracts are the laws.
ghost use Rattle.sm_service.specs.Laws.{HttpServableWhereReady, OneService, ServableWhereReady, ServiceWhereNoneFails, SomeService};
ghost use Rattle.sm_service.specs.Laws.{StaysServable};

/// What is ready is servable once it is compiled.
pub fn servable_where_ready()
    ensures { ServableWhereReady }
{}

/// What is ready has all that HTTP bindings ask of it, once it is compiled.
pub fn http_servable_where_ready()
    ensures { HttpServableWhereReady }
{}

/// A service that is servable stays so when the defaults of its table are filled.
pub fn stays_servable()
    ensures { StaysServable }
{}

/// An id of a graph has one service over a store, where it is ready: so a body has one answer.
pub fn one_service()
    ensures { OneService }
{}

/// A service that is ready has one over each store of patterns: it can't be that it has none. What is asked of the graph holds of every
/// graph that statements of files come to.
pub fn some_service()
    ensures { SomeService }
{}

/// So has each service of a graph in which no rule fails.
pub fn service_where_none_fails()
    ensures { ServiceWhereNoneFails }
{}
