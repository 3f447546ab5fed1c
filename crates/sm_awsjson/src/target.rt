// The operation that a target tells.
ghost use Rattle.std.specs.Prelude.{◌≡◌, ◌<◌, ◌++◌, ◌∷◌, ℕ, List, MatchOption, Some, length};
ghost use Rattle.std.specs.Option.{option_map};
ghost use Rattle.sm_bytes.specs.Ascii.{full_stop};
ghost use Rattle.sm_service.specs.Servable.{Servable};
ghost use Rattle.sm_service.specs.ServiceView.{service_data};
ghost use Rattle.sm_awsjson.specs.Heads.{target_of};

use sm_messages::{behind_text, operation_named};
use sm_service::Service;

// What stands behind a name and a full stop.
fn behind_name<'a>(name: &[u8], target: &'a [u8]) -> Option<&'a [u8]>
    ensures { MatchOption result
        ((rest : List ℕ) → target.now ≡ name.now ++ full_stop ∷ rest → ⊥)
        (λ rest. target.now ≡ name.now ++ full_stop ∷ rest.now) }
{
    match behind_text(name, target) {
        Some(rest) => behind_text(b".", rest),
        None => None,
    }
}

// The number of the operation of a target: `Service.Operation`.
fn operation_at(service: &Service, target: &[u8]) -> Option<u32>
    requires { Servable (service_data service.now) }
    ensures { MatchOption result
        ((o : ℕ) → o < length (service_data service.now).operations → target.now ≡ target_of (service_data service.now) o → ⊥)
        (λ o. (o < length (service_data service.now).operations) × (target.now ≡ target_of (service_data service.now) o)) }
{
    match behind_name(service.name.as_str().as_bytes(), target) {
        Some(name) => operation_named(&service.operations, name),
        None => None,
    }
}

/// The number of the operation of the one target that there is. By halves, no memory.
pub(crate) fn operation_told(service: &Service, target: Option<&[u8]>) -> Option<u32>
    requires { Servable (service_data service.now) }
    ensures { MatchOption result
        ((o : ℕ) → o < length (service_data service.now).operations
        → option_map (λ text. text.now) target.entry ≡ Some (target_of (service_data service.now) o) → ⊥)
        (λ o. (o < length (service_data service.now).operations)
        × (option_map (λ text. text.now) target.entry ≡ Some (target_of (service_data service.now) o))) }
{
    match target {
        Some(target) => operation_at(service, target),
        None => None,
    }
}
