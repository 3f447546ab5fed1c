// The official test suite of JSON Schema against the definition of validity of sm_schema: the prover computes each case.
#![tactic(auto)]

pub mod laws;
