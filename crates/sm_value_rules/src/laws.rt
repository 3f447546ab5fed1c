// Laws of the check of nodes: public functions with empty bodies, whose contracts are the laws.
ghost use Rattle.sm_value_rules.specs.Laws.{FaultsByEach, OneFaultList, SameFaults};

/// Two tables that say what the graph says of all that a shape reaches give a node one list of faults for it.
pub fn same_faults()
    ensures { SameFaults }
{}

/// A node that has faults for a shape has them by each table that says what the graph says of all that the shape reaches.
pub fn faults_by_each()
    ensures { FaultsByEach }
{}

/// A node has one list of faults for a shape.
pub fn one_fault_list()
    ensures { OneFaultList }
{}
