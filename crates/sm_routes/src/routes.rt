// The operations of a service by methods and patterns, in the order in which they are kept.
ghost use Rattle.sm_routes.specs.KeptOrder.{AreOrdered};

use crate::route::Route;

/// Routes in an order in which those whose patterns begin alike stand together.
#[derive(Debug, Drop)]
pub struct Routes {
    pub(crate) rows: Vec<Route>,
    ghost ordered: { AreOrdered rows.items },
}
