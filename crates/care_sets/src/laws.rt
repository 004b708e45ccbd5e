//! The laws of care sets, each the contract of a function that does nothing.

ghost use Rattle.care_sets.specs.Laws.{VectorsServeAssume, StatesServeInvariant, BoundModelsHaveNoFault, FirstFaultIsOne};

/// Where a care set is a netlist's, each vector and each state of the netlist has a value for each column
/// that the care set's models read.
pub fn vectors_have_what_models_read()
    ensures assume { VectorsServeAssume }
    ensures invariant { StatesServeInvariant }
{}

/// The first fault of two models is one, and models that are bound have none. So `bind` answers each fault
/// exactly where the models have it.
pub fn faults_are_exact()
    ensures bound { BoundModelsHaveNoFault }
    ensures one { FirstFaultIsOne }
{}
