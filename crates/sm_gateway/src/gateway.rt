// A gateway between two protocols of one service.
ghost use Rattle.std.specs.Prelude.{◌≡◌, ◌<◌, ℕ, Some, length, slice_get};
ghost use Rattle.std.proofs.Props.{props};
ghost use Rattle.sm_protocols.specs.service.ServiceView.{service_data};
ghost use Rattle.sm_protocols.specs.messages.Crossings.{or_by};
ghost use Rattle.sm_protocols.specs.Forms.{form_of};
ghost use Rattle.sm_protocols.specs.Kept.{protocol_of};

use sm_protocols::Spoken;
use sm_protocols::sm_service::Service;
use sm_tree::Text;

/// A gateway: requests in the protocol of its front go to its back in another.
#[derive(Drop)]
pub struct Gateway {
    pub(crate) service: Service,
    pub(crate) front: Spoken,
    pub(crate) back: Spoken,
    pub(crate) host: Text,
    // by the operation: the path by which the front's protocol doesn't serve it, else that of the back's
    pub(crate) restrictions: Vec<Option<Text>>,
    ghost restricted: { (o : ℕ) → o < length (service_data service).operations
        → slice_get restrictions.items o
        ≡ Some (or_by ((form_of (protocol_of front)).restriction (service_data service) o)
        ((form_of (protocol_of back)).restriction (service_data service) o)) } by { Prim.hlevel props },
}
