// The operation to which a request goes by its head.
ghost use Rattle.std.specs.List.Sorted.{IsPermutation};
ghost use Rattle.sm_routes.specs.RoutesView.{routes_view};
ghost use Rattle.sm_bind.specs.service.ServiceData.{ServiceData};
ghost use Rattle.sm_rest_heads.specs.RestRoutes.{IsAskedFor, routes_of};

use sm_http::{Head, Start};
use sm_routes::Routes;

/// The number of the operation to which a request with this head goes, whether it is served or not, by the routes of its service. No memory.
pub fn operation_asked(routes: &Routes, head: &Head) -> Option<u32>
    ensures { (s : ServiceData) → IsPermutation (routes_of s) (routes_view routes.now) → IsAskedFor s head.now result }
{
    match &head.start {
        Start::Response { .. } => None,
        Start::Request { method, target } => routes.find(method.as_str(), target.as_str()),
    }
}
