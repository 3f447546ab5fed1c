// Laws of the definitions that the contracts cite. Each is the contract of a function that does nothing.
ghost use Rattle.sm_shapes.specs.ValueOrder.{EqualIsSame, ValuesInOrder};

/// The order of values is a total order.
pub fn values_in_order()
    ensures { ValuesInOrder }
{}

/// It tells apart all values but equal ones.
pub fn equal_is_same()
    ensures { EqualIsSame }
{}
