//! The laws of refusals, each the contract of a function that does nothing.

ghost use Rattle.refusals.specs.Laws.{AcceptedWithoutRefusal, RefusalIsShown, InitialIsLeast, UndeterminedIsLeast, EarlierGatesAreDetermined, LeavesIsLeast, WithoutCareGatesAlone, UndeterminedIsObserved, AllObservesGates, AllDeterminesGates, AllIsMore};
ghost use Rattle.refusals.specs.Vectors.{VectorsAreListed};

/// All vectors of a width are listed, each once and in lexicographic order.
pub fn vectors_are_listed()
    ensures { VectorsAreListed }
{}

/// A netlist is accepted exactly where nothing refuses it.
pub fn refused_where_not_accepted()
    ensures { AcceptedWithoutRefusal }
{}

/// The vector or state of a refusal shows it. An empty care set alone has none. An undetermined gate is observed.
pub fn refusals_are_shown()
    ensures shown { RefusalIsShown }
    ensures observed { UndeterminedIsObserved }
{}

/// The vector or state of a refusal is the least that shows it, and an undetermined gate is the first that is observed.
pub fn refusals_are_least()
    ensures initial { InitialIsLeast }
    ensures undetermined { UndeterminedIsLeast }
    ensures first { EarlierGatesAreDetermined }
    ensures leaves { LeavesIsLeast }
{}

/// Where all is observed, acceptance and refusals ask each gate, and what is accepted so is accepted with less observed.
pub fn all_observes_each_gate()
    ensures gates { AllObservesGates }
    ensures determined { AllDeterminesGates }
    ensures more { AllIsMore }
{}

/// Without care models gates alone refuse a netlist: the first observed one that some vector leaves unknown.
pub fn gates_alone_refuse_without_care()
    ensures { WithoutCareGatesAlone }
{}
