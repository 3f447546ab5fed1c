// The sides of messages, and which bindings count there.
ghost use Rattle.std.specs.Prelude.{◌≡◌, None, Some, is_some};
ghost use Rattle.std.specs.Option.{option_map};
ghost use Rattle.sm_shapes.specs.TableView.{binding_data};
ghost use Rattle.sm_service.specs.WireMembers.{counted_binding};
ghost use Rattle.sm_bind.specs.BindingsView.{bound_side};
ghost use Rattle.sm_bind.specs.steps.Growing.{counts_on};
ghost use Rattle.sm_rules.specs.Bindings.{an_error, an_input, an_output};

use sm_shapes::tables::Binding;

/// Which message of an operation a value stands in.
#[derive(Debug, Clone, Copy, PartialEq, Eq, Drop)]
pub enum PartSide {
    /// A request.
    Input,
    /// A response that is no error.
    Output,
    /// An error.
    Error,
}

/// Whether a binding counts there; a member with another one stands in the document. No memory.
pub fn counts(binding: &Option<Binding>, side: PartSide) -> bool
    ensures { result ≡ is_some (counted_binding (bound_side side) (option_map binding_data binding.now)) }
{
    some_counts(binding, side)
}

fn some_counts(binding: &Option<Binding>, side: PartSide) -> bool
    ensures { result ≡ counts_on (bound_side side) (option_map binding_data binding.now) }
{
    match binding {
        None => none_counts(side),
        Some(binding) => binding_counts(binding, side),
    }
}

fn none_counts(side: PartSide) -> bool
    ensures { result ≡ counts_on (bound_side side) None }
{
    match side {
        PartSide::Input => false,
        PartSide::Output => false,
        PartSide::Error => false,
    }
}

fn binding_counts(binding: &Binding, side: PartSide) -> bool
    ensures { result ≡ counts_on (bound_side side) (Some (binding_data binding.now)) }
{
    match side {
        PartSide::Input => counts_in_input(binding),
        PartSide::Output => counts_in_output(binding),
        PartSide::Error => counts_in_error(binding),
    }
}

fn counts_in_input(binding: &Binding) -> bool
    ensures { result ≡ counts_on an_input (Some (binding_data binding.now)) }
{
    match binding {
        Binding::Label => true,
        Binding::Query(_) => true,
        Binding::QueryParams => true,
        Binding::Header(_) => true,
        Binding::PrefixHeaders(_) => true,
        Binding::Payload => true,
        Binding::ResponseCode => false,
    }
}

fn counts_in_output(binding: &Binding) -> bool
    ensures { result ≡ counts_on an_output (Some (binding_data binding.now)) }
{
    match binding {
        Binding::Label => false,
        Binding::Query(_) => false,
        Binding::QueryParams => false,
        Binding::Header(_) => true,
        Binding::PrefixHeaders(_) => true,
        Binding::Payload => true,
        Binding::ResponseCode => true,
    }
}

fn counts_in_error(binding: &Binding) -> bool
    ensures { result ≡ counts_on an_error (Some (binding_data binding.now)) }
{
    match binding {
        Binding::Label => false,
        Binding::Query(_) => false,
        Binding::QueryParams => false,
        Binding::Header(_) => true,
        Binding::PrefixHeaders(_) => true,
        Binding::Payload => true,
        Binding::ResponseCode => false,
    }
}
