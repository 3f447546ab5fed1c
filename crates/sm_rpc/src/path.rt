// The operation that a path tells.
ghost use Rattle.std.specs.Prelude.{◌≡◌, ◌<◌, ◌++◌, ℕ, List, MatchOption, codes, length};
ghost use Rattle.sm_service.specs.Servable.{Servable};
ghost use Rattle.sm_service.specs.ServiceView.{service_data};
ghost use Rattle.sm_rpc.specs.Heads.{path_of};

use sm_messages::{behind_text, operation_named};
use sm_service::Service;

// What stands behind two texts that another begins with.
fn behind_both<'a>(first: &[u8], second: &[u8], path: &'a [u8]) -> Option<&'a [u8]>
    ensures { MatchOption result
        ((rest : List ℕ) → path.now ≡ (first.now ++ second.now) ++ rest → ⊥)
        (λ rest. path.now ≡ (first.now ++ second.now) ++ rest.now) }
{
    match behind_text(first, path) {
        Some(rest) => behind_text(second, rest),
        None => None,
    }
}

// What stands behind the name of a service in a path: `/service/NAME/operation/`.
fn behind_service<'a>(name: &[u8], path: &'a [u8]) -> Option<&'a [u8]>
    ensures { MatchOption result
        ((rest : List ℕ) → path.now ≡ codes "/service/" ++ name.now ++ codes "/operation/" ++ rest → ⊥)
        (λ rest. path.now ≡ codes "/service/" ++ name.now ++ codes "/operation/" ++ rest.now) }
{
    match behind_both(b"/service/", name, path) {
        Some(rest) => behind_text(b"/operation/", rest),
        None => None,
    }
}

/// The number of the operation of a path: `/service/Service/operation/Operation`. By halves, no memory.
pub(crate) fn operation_at(service: &Service, path: &[u8]) -> Option<u32>
    requires { Servable (service_data service.now) }
    ensures { MatchOption result
        ((o : ℕ) → o < length (service_data service.now).operations → path.now ≡ path_of (service_data service.now) o → ⊥)
        (λ o. (o < length (service_data service.now).operations) × (path.now ≡ path_of (service_data service.now) o)) }
{
    match behind_service(service.name.as_str().as_bytes(), path) {
        Some(name) => operation_named(&service.operations, name),
        None => None,
    }
}
